//! The values of a query's variables.

ghost use Rattle.std.specs.Prelude.{◌≡◌, map, IfOk};
ghost use Rattle.type_terms.specs.Promised.Handles.{ArgsHeld, arg_trees};
ghost use Rattle.type_terms.specs.Growth.{GrewOrFull};
ghost use Rattle.infer_table.specs.Content.{Ready, content};
ghost use Rattle.infer_table.specs.Solutions.{resolved};

use infer_table::infer_ctxt::InferCtxt;
use std::alloc::Global;
use type_terms::Fault;
use type_terms::interner::Interner;
use type_terms::kinds::GenericArgKind;

/// What each of these variables stands for in the table. Variables inside a value are resolved too. A variable without a value stands for
/// itself.
///
/// Fails with `Memory` if memory is refused, and with `Full` only if some kind of term has reached its limit.
pub fn values_of(
    alloc: Global,
    cx: &mut Interner,
    table: &InferCtxt,
    unknowns: &[GenericArgKind],
) -> Result<Vec<GenericArgKind>, Fault>
    requires held { ArgsHeld cx.old.entries unknowns.now }
    requires ready { Ready cx.old.entries table.now }
    ensures ready { Ready cx.new.entries table.now }
    ensures terms { GrewOrFull cx.old cx.new result }
    ensures held { IfOk result (λ r. ArgsHeld cx.new.entries r.items) }
    ensures are { IfOk result (λ r. map (arg_trees cx.new.entries) r.items
        ≡ map (λ u. resolved (content cx.old.entries table.now.values) (arg_trees cx.old.entries u)) unknowns.now) }
{
    let mut values = Vec::new(alloc);
    for unknown in unknowns {
        let value = table.eager_resolve_vars(cx, *unknown)?;
        values.push(value)?;
    }
    Ok(values)
}
