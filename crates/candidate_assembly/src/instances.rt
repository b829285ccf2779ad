//! The variables that stand for an impl's parameters.
ghost use Rattle.type_terms.specs.Growth.{GrewOrFull};
ghost use Rattle.std.specs.Prelude.{◌≡◌, map, IfOk, IfErr};
ghost use Rattle.type_terms.specs.Promised.Handles.{ArgsHeld};
ghost use Rattle.type_terms.specs.declared.Fault.TheVariants.{Memory};
ghost use Rattle.infer_table.specs.Raw.{variables_from};
ghost use Rattle.infer_table.specs.Values.{values_of};
ghost use Rattle.candidate_assembly.specs.Headers.{var_kind};

use declarations::items::GenericParamKind;
use infer_table::canonical::CanonicalVarKind;
use infer_table::raw::canonical_variable;
use std::alloc::Global;
use type_terms::interner::Interner;
use type_terms::kinds::GenericArgKind;
use type_terms::number::BoundVar;
use type_terms::{Fault, MAX_INDEX};

/// The kind of the variable for a parameter.
fn variable_kind(kind: GenericParamKind) -> CanonicalVarKind
    ensures { result ≡ var_kind kind }
{
    match kind {
        GenericParamKind::Lifetime => CanonicalVarKind::Region,
        GenericParamKind::Type => CanonicalVarKind::Ty,
        GenericParamKind::Const => CanonicalVarKind::Const,
    }
}

/// The kinds of the variables for parameters. Fails only with `Memory`.
pub(crate) fn variable_kinds(
    alloc: Global,
    params: &[GenericParamKind],
) -> Result<Vec<CanonicalVarKind>, Fault>
    ensures are { IfOk result (λ v. v.items ≡ map var_kind params.now) }
    ensures memory { IfErr result (λ fault. fault ≡ Memory) }
{
    let mut found = Vec::new(alloc);
    let mut left = params;
    'params: while let Some((kind, others)) = left.split_first() {
        found.push(variable_kind(*kind))?;
        left = others;
    }
    Ok(found)
}

/// The canonical variables of these kinds, after this many others. Fails with `Memory` also if there are no numbers for them.
pub(crate) fn variables_behind(
    alloc: Global,
    cx: &mut Interner,
    others: usize,
    kinds: &[CanonicalVarKind],
) -> Result<Vec<GenericArgKind>, Fault>
    ensures terms { GrewOrFull cx.old cx.new result }
    ensures held { IfOk result (λ r. ArgsHeld cx.new.entries r.items) }
    ensures values { IfOk result (λ r. values_of cx.new.entries r.items ≡ variables_from others kinds.now) }
{
    let mut values = Vec::new(alloc);
    for (place, kind) in kinds.iter().enumerate() {
        if others >= MAX_INDEX as usize || place >= MAX_INDEX as usize - others {
            return Err(Fault::Memory);
        }
        let variable = BoundVar {
            index: (others + place) as u32,
        };
        let value = canonical_variable(cx, *kind, variable)?;
        values.push(value)?;
    }
    Ok(values)
}
