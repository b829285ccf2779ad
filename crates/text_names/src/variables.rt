//! Variables of two kinds.
ghost use Rattle.std.specs.Prelude.{◌≡◌, ℕ, List, map, IfOk};
ghost use Rattle.std.specs.List.{list_any};
ghost use Rattle.type_terms.specs.Promised.Label as label;
ghost use Rattle.type_terms.specs.Promised.Trees.{is_sort};
ghost use Rattle.text_language.specs.Faults.{is_of_other_kind};
ghost use Rattle.text_tables.specs.Views.{sort_of_kind};
ghost use Rattle.text_names.specs.UsedNames.{Holds};
ghost use Rattle.text_names.specs.Views.{variable_in};
ghost use Rattle.text_names.specs.Variables.{other_kind_names, HoldsKinds, have_two_kinds};

use crate::name_set::NameSet;
use crate::resolved::Variable;
use std::alloc::{AllocError, Global};
use text_tables::ParamKind;

/// For each kind, the names of the variables of other kinds.
#[derive(Drop)]
pub(crate) struct OtherKinds<'a> {
    than_type: NameSet<'a>,
    than_const: NameSet<'a>,
    than_lifetime: NameSet<'a>,
}

fn is_same(first: ParamKind, second: ParamKind) -> bool
    ensures { result ≡ is_sort (sort_of_kind first) (sort_of_kind second) }
{
    match first {
        ParamKind::Type => matches!(second, ParamKind::Type),
        ParamKind::Const => matches!(second, ParamKind::Const),
        ParamKind::Lifetime => matches!(second, ParamKind::Lifetime),
    }
}

/// The names of those that are of another kind than this.
fn names_but<'a>(
    alloc: Global,
    variables: &[Variable<'a>],
    sort: ParamKind,
) -> Result<NameSet<'a>, AllocError>
    ensures { IfOk result (λ set. Holds set (other_kind_names (sort_of_kind sort) (map variable_in variables.now))) }
{
    let mut others = NameSet::new(alloc);
    let mut at = variables.len();
    while at > 0 {
        at -= 1;
        let variable = variables[at];
        if !is_same(sort, variable.sort) {
            others.insert(variable.name)?;
        }
    }
    Ok(others)
}

impl<'a> OtherKinds<'a> {
    fn of(alloc: Global, variables: &[Variable<'a>]) -> Result<Self, AllocError>
        ensures { IfOk result (λ others. HoldsKinds others (map variable_in variables.now)) }
    {
        Ok(OtherKinds {
            than_type: names_but(alloc, variables, ParamKind::Type)?,
            than_const: names_but(alloc, variables, ParamKind::Const)?,
            than_lifetime: names_but(alloc, variables, ParamKind::Lifetime)?,
        })
    }

    /// Whether there is a variable with this name and of another kind.
    fn have(&self, variable: Variable<'_>) -> bool
        ensures { (vs : List (List ℕ × label.Sort)) → HoldsKinds self.now vs → result ≡ list_any (is_of_other_kind (variable_in variable.entry)) vs }
    {
        match variable.sort {
            ParamKind::Type => self.than_type.contains(variable.name),
            ParamKind::Const => self.than_const.contains(variable.name),
            ParamKind::Lifetime => self.than_lifetime.contains(variable.name),
        }
    }
}

fn any_in(others: &OtherKinds<'_>, variables: &[Variable<'_>]) -> bool
    ensures { (vs : List (List ℕ × label.Sort)) → HoldsKinds others.now vs
        → result ≡ list_any (λ v. list_any (is_of_other_kind v) vs) (map variable_in variables.now) }
{
    for variable in variables {
        if others.have(*variable) {
            return true;
        }
    }
    false
}

/// Whether a variable is used where two kinds are expected. Fails only if memory is refused.
pub(crate) fn are_of_two_kinds(
    alloc: Global,
    variables: &[Variable<'_>],
) -> Result<bool, AllocError>
    ensures { IfOk result (λ b. b ≡ have_two_kinds (map variable_in variables.now)) }
{
    let others = OtherKinds::of(alloc, variables)?;
    Ok(any_in(&others, variables))
}
