//! The table of a query.

ghost use Rattle.std.specs.Prelude.{◌≡◌, ◌∷◌, ◌++◌, [], List, map, IfOk, OnOk};
ghost use Rattle.type_terms.specs.Promised.Label.{Sort};
ghost use Rattle.term_folds.specs.Arguments.{arg_sort};
ghost use Rattle.type_terms.specs.Growth.{GrewOrFull};
ghost use Rattle.infer_table.specs.Content.{Ready};
ghost use Rattle.sessions.specs.Tables.{table_of};

use infer_table::infer_ctxt::InferCtxt;
use std::alloc::Global;
use type_terms::Fault;
use type_terms::interner::Interner;
use type_terms::kinds::GenericArgKind;

/// Adds one variable of the same kind as this one. Fails with `Memory` also if there is no number for it.
fn add_unknown(cx: &mut Interner, table: &mut InferCtxt, like: GenericArgKind) -> Result<(), Fault>
    requires { Ready cx.old.entries table.old }
    ensures ready { Ready cx.new.entries table.new }
    ensures terms { GrewOrFull cx.old cx.new result }
    ensures made { OnOk result ((ks : List Sort) → table.old ≡ table_of ks → table.new ≡ table_of (ks ++ arg_sort like ∷ [])) }
{
    match like {
        GenericArgKind::Lifetime(_) => {
            let _ = table.next_region_var()?;
        }
        GenericArgKind::Ty(_) => {
            let _ = table.next_ty_var(cx)?;
        }
        GenericArgKind::Const(_) => {
            let _ = table.next_const_var(cx)?;
        }
    }
    Ok(())
}

/// A table for a query with these variables. It has as many of each kind, so the query's variables are its own.
///
/// Fails with `Memory` if memory is refused or that many variables have no numbers, and with `Full` only if some kind of term has reached
/// its limit.
pub fn question_table(
    alloc: Global,
    cx: &mut Interner,
    unknowns: &[GenericArgKind],
) -> Result<InferCtxt, Fault>
    ensures ready { IfOk result (λ table. Ready cx.new.entries table) }
    ensures terms { GrewOrFull cx.old cx.new result }
    ensures is { IfOk result (λ table. table ≡ table_of (map arg_sort unknowns.now)) }
{
    let mut table = InferCtxt::new(alloc);
    for unknown in unknowns {
        add_unknown(cx, &mut table, *unknown)?;
    }
    Ok(table)
}
