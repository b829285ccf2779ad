//! The variables of a query.
ghost use Rattle.std.specs.Prelude.{◌≡◌, map, IfOk};
ghost use Rattle.text_language.specs.Faults.{once};
ghost use Rattle.text_names.specs.Views.{variable_in};

use crate::name_set::NameSet;
use crate::resolved::Variable;
use std::alloc::{AllocError, Global};

/// Each variable once, in the order of first occurrence.
///
/// Fails only if memory is refused.
pub fn each_once<'a>(
    alloc: Global,
    variables: &[Variable<'a>],
) -> Result<Vec<Variable<'a>>, AllocError>
    ensures { IfOk result (λ v. map variable_in v.items ≡ once (map variable_in variables.now)) }
{
    let mut met = NameSet::new(alloc);
    let mut firsts = Vec::new(alloc);
    for variable in variables {
        if !met.contains(variable.name) {
            met.insert(variable.name)?;
            firsts.push(*variable)?;
        }
    }
    Ok(firsts)
}
