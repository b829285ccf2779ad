//! The names of a line's parameters.
ghost use Rattle.std.specs.Prelude.{◌≡◌, ◌++◌, [], map, is_some, IfOk, OnOk};
ghost use Rattle.std.specs.List.{list_any};
ghost use Rattle.text_language.specs.Promised.Declarations.{known};
ghost use Rattle.text_lines.specs.TokenViews.{text_of};
ghost use Rattle.text_lines.specs.Views.{param_of, params_in};
ghost use Rattle.text_names.specs.Machine.{seen_items};
ghost use Rattle.text_names.specs.Params.{lifetimes_said, others_said, lifetime_name, other_name, collected_taken, are_taken};

use crate::judge_use::{has_static, repeats};
use crate::looked_up::Names;
use std::alloc::{AllocError, Global};
use text_lines::Param;

/// The names of parameters, those of lifetimes separate from all others.
#[derive(Drop)]
pub(crate) struct ParamNames<'a> {
    pub lifetimes: Vec<&'a [u8]>,
    /// Those of types and constants.
    pub others: Vec<&'a [u8]>,
}

impl<'a> ParamNames<'a> {
    fn push(&mut self, param: Param<'a>) -> Result<(), AllocError>
        ensures lifetimes { OnOk result (map text_of self.new.lifetimes.items ≡ map text_of self.old.lifetimes.items ++ lifetime_name (param_of param.entry)) }
        ensures others { OnOk result (map text_of self.new.others.items ≡ map text_of self.old.others.items ++ other_name (param_of param.entry)) }
    {
        match param {
            Param::Lifetime(name) => self.lifetimes.push(name)?,
            Param::Type(name) => self.others.push(name)?,
            Param::Const(name) => self.others.push(name)?,
        }
        Ok(())
    }

    /// The names of these parameters, in their order. Fails only if memory is refused.
    pub fn of(alloc: Global, params: &[Param<'a>]) -> Result<Self, AllocError>
        ensures lifetimes { IfOk result (λ names. map text_of names.lifetimes.items ≡ lifetimes_said (params_in params.now)) }
        ensures others { IfOk result (λ names. map text_of names.others.items ≡ others_said (params_in params.now)) }
    {
        let mut names = ParamNames {
            lifetimes: Vec::new(alloc),
            others: Vec::new(alloc),
        };
        let mut rest = params;
        while let [param, behind @ ..] = rest {
            names.push(*param)?;
            rest = behind;
        }
        Ok(names)
    }
}

/// Whether one of the names is that of a crate, a struct or a trait.
fn any_known<N: Names>(names: &N, params: &[&[u8]]) -> bool
    ensures { result ≡ list_any (λ n. is_some (known (seen_items (N.sight names.now)) n)) (map text_of params.now) }
{
    for name in params {
        if let Some(_) = names.known(name) {
            return true;
        }
    }
    false
}

impl<'a> ParamNames<'a> {
    fn are_taken<N: Names>(&self, names: &N, alloc: Global) -> Result<bool, AllocError>
        ensures { IfOk result (λ b. b ≡ collected_taken (seen_items (N.sight names.now)) self.now) }
    {
        Ok(
            repeats(alloc, &self.lifetimes)?
                || has_static(&self.lifetimes)
                || repeats(alloc, &self.others)?
                || any_known(names, &self.others),
        )
    }
}

/// Whether the name of a parameter is taken: another parameter has it, it is `'static`, or it is declared. Fails only if memory is refused.
pub fn is_taken_param<N: Names>(
    names: &N,
    alloc: Global,
    params: &[Param<'_>],
) -> Result<bool, AllocError>
    ensures { IfOk result (λ b. b ≡ are_taken (seen_items (N.sight names.now)) (params_in params.now)) }
{
    let own = ParamNames::of(alloc, params)?;
    own.are_taken(names, alloc)
}
