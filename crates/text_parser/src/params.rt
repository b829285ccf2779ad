//! The parameters of a line by their kinds.
ghost use Rattle.std.specs.Prelude.{◌≡◌, ◌∷◌, [], length, map, IfOk, MatchOption};
ghost use Rattle.text_lines.specs.Views.{param_of, params_in};
ghost use Rattle.text_names.specs.LookUps.{place_in};
ghost use Rattle.text_names.specs.Views.{variable_in};
ghost use Rattle.text_tables.specs.Views.{sort_of_kind, sorts_of, sorted_params};
ghost use Rattle.text_parser.specs.BareLines.{sort_of_param, sorted_param, name_of_sort, names_of_sort};

use std::alloc::{AllocError, Global};
use text_lines::Param;
use text_names::Variable;
use text_tables::ParamKind;

/// The kind of a parameter.
fn kind_of(param: &Param<'_>) -> ParamKind
    ensures { sort_of_kind result ≡ sort_of_param (param_of param.now) }
{
    match param {
        Param::Lifetime(_) => ParamKind::Lifetime,
        Param::Type(_) => ParamKind::Type,
        Param::Const(_) => ParamKind::Const,
    }
}

/// The kinds of parameters, in their order.
pub(crate) fn kinds_of(alloc: Global, params: &[Param<'_>]) -> Result<Vec<ParamKind>, AllocError>
    ensures { IfOk result (λ kinds. sorts_of kinds.items ≡ map sort_of_param (params_in params.now)) }
{
    let mut kinds = Vec::new(alloc);
    let mut rest = params;
    while let [param, behind @ ..] = rest {
        kinds.push(kind_of(param))?;
        rest = behind;
    }
    Ok(kinds)
}

/// The parameters with their names and kinds, in their order.
pub(crate) fn named_params(
    alloc: Global,
    params: &[Param<'_>],
) -> Result<Vec<text_tables::Param>, AllocError>
    ensures { IfOk result (λ named. sorted_params named.items ≡ map sorted_param (params_in params.now)) }
{
    let mut named = Vec::new(alloc);
    let mut rest = params;
    while let [param, behind @ ..] = rest {
        named.push(text_tables::Param {
            name: Vec::from_slice(alloc, param.name())?,
            kind: kind_of(param),
        })?;
        rest = behind;
    }
    Ok(named)
}

/// The variables with their names and kinds, in their order.
pub(crate) fn named_variables(
    alloc: Global,
    variables: &[Variable<'_>],
) -> Result<Vec<text_tables::Param>, AllocError>
    ensures { IfOk result (λ named. sorted_params named.items ≡ map variable_in variables.now) }
{
    let mut named = Vec::new(alloc);
    let mut rest = variables;
    while let [variable, behind @ ..] = rest {
        named.push(text_tables::Param {
            name: Vec::from_slice(alloc, variable.name)?,
            kind: variable.sort,
        })?;
        rest = behind;
    }
    Ok(named)
}

fn name_of_sort<'a>(param: &Param<'a>, sort: ParamKind) -> Option<&'a [u8]>
    ensures { MatchOption result (name_of_sort (sort_of_kind sort) (param_of param.now) ≡ [])
        (λ n. name_of_sort (sort_of_kind sort) (param_of param.now) ≡ n.now ∷ []) }
{
    match param {
        Param::Lifetime(name) => match sort {
            ParamKind::Lifetime => Some(name),
            _ => None,
        },
        Param::Type(name) => match sort {
            ParamKind::Type => Some(name),
            _ => None,
        },
        Param::Const(name) => match sort {
            ParamKind::Const => Some(name),
            _ => None,
        },
    }
}

/// The index of a name among the parameters of one kind.
pub(crate) fn place_of(params: &[Param<'_>], sort: ParamKind, name: &[u8]) -> Option<usize>
    ensures { result ≡ place_in name.now (names_of_sort (sort_of_kind sort) (params_in params.now)) }
{
    let mut place = 0;
    let mut rest = params;
    while let [param, behind @ ..] = rest {
        if let Some(other) = name_of_sort(param, sort) {
            if other == name {
                return Some(place);
            }
            place += 1;
        }
        rest = behind;
    }
    None
}

/// How many parameters are of one kind.
pub(crate) fn count_of(params: &[Param<'_>], sort: ParamKind) -> usize
    ensures { result ≡ length (names_of_sort (sort_of_kind sort) (params_in params.now)) }
{
    let mut count = 0;
    let mut rest = params;
    while let [param, behind @ ..] = rest {
        if let Some(_) = name_of_sort(param, sort) {
            count += 1;
        }
        rest = behind;
    }
    count
}
