//! Equating the headers of two impls.
ghost use Rattle.std.specs.Prelude.{◌≡◌, ◌≢◌, ◌⊎◌, OnOk, OnErr, Err, Some};
ghost use Rattle.type_terms.specs.Promised.Handles.{ArgsHeld};
ghost use Rattle.type_terms.specs.Kinds.{args_trees};
ghost use Rattle.infer_table.specs.Applied.{solved_in_turn};
ghost use Rattle.infer_table.specs.Content.{Ready, Grows, content};
ghost use Rattle.infer_table.specs.Equated.{MakesEqual};
ghost use Rattle.infer_table.specs.Shortages.{EqGrewOrFull};
ghost use Rattle.infer_table.specs.Solutions.{HasNoSolution};
ghost use Rattle.infer_table.specs.Unification.{table_trees};
ghost use Rattle.declarations.specs.Held.{ReferenceHeld};
ghost use Rattle.overlap_check.specs.Headers.{args_at};

use crate::header::ImplHeader;
use infer_table::certainty::EqError;
use infer_table::infer_ctxt::InferCtxt;
use std::alloc::Global;
use type_terms::interner::Interner;
use type_terms::kinds::GenericArgKind;

/// Equates two lists of arguments, position by position. Lists of different lengths have no solution.
pub(crate) fn equate_args(
    cx: &mut Interner,
    table: &mut InferCtxt,
    left: &[GenericArgKind],
    right: &[GenericArgKind],
) -> Result<(), EqError>
    requires left { ArgsHeld cx.old.entries left.now }
    requires right { ArgsHeld cx.old.entries right.now }
    requires ready { Ready cx.old.entries table.old }
    ensures ready { Ready cx.new.entries table.new }
    ensures grows { Grows table.old table.new }
    ensures terms { EqGrewOrFull cx.old cx.new result }
    ensures equates { OnOk result
        (MakesEqual cx.old.entries table.old cx.new.entries table.new (args_trees cx.old.entries left.now) (args_trees cx.old.entries right.now)) }
    ensures never { result ≡ Err EqError.NoSolution
        → HasNoSolution (content cx.old.entries table.old.values) (args_trees cx.old.entries left.now) (args_trees cx.old.entries right.now) }
    ensures exact { OnOk result (solved_in_turn (table_trees cx.old.entries table.old)
        (args_trees cx.old.entries left.now) (args_trees cx.old.entries right.now) ≡ Some (table_trees cx.new.entries table.new)) }
{
    cx.lawful();
    let mut left_rest = left;
    let mut right_rest = right;
    'pairs: while let Some((first, left_others)) = left_rest.split_first() {
        let Some((second, right_others)) = right_rest.split_first() else {
            return Err(EqError::NoSolution);
        };
        table.eq(cx, *first, *second)?;
        left_rest = left_others;
        right_rest = right_others;
    }
    if right_rest.is_empty() {
        Ok(())
    } else {
        Err(EqError::NoSolution)
    }
}

/// Equates two headers: `V<?0>: Show` and `V<u8>: Show` give `?0` the value `u8`. Variables get no more values than needed: the solutions
/// of the table are then its former ones that make the arguments equal. rustc: `equate_impl_headers`.
///
/// Fails with:
///
/// - `NoSolution` if the headers are of different traits, or no values make them equal.
/// - `Fault(Full)` only if the terms of some kind are at their limit.
/// - `Fault(Memory)` if memory is refused or no index remains for a lifetime.
///
/// If it fails, the table is unchanged.
pub fn equate_impl_headers(
    alloc: Global,
    cx: &mut Interner,
    table: &mut InferCtxt,
    left: ImplHeader,
    right: ImplHeader,
) -> Result<(), EqError>
    requires left { ReferenceHeld cx.old.entries left.trait_ref }
    requires right { ReferenceHeld cx.old.entries right.trait_ref }
    requires ready { Ready cx.old.entries table.old }
    ensures ready { Ready cx.new.entries table.new }
    ensures grows { Grows table.old table.new }
    ensures terms { EqGrewOrFull cx.old cx.new result }
    ensures one_trait { OnOk result (left.trait_ref.def_id.index ≡ right.trait_ref.def_id.index) }
    ensures equates { OnOk result (MakesEqual cx.old.entries table.old cx.new.entries table.new (args_at cx.old.entries left) (args_at cx.old.entries right)) }
    ensures never { result ≡ Err EqError.NoSolution → (left.trait_ref.def_id.index ≢ right.trait_ref.def_id.index)
        ⊎ HasNoSolution (content cx.old.entries table.old.values) (args_at cx.old.entries left) (args_at cx.old.entries right) }
    ensures exact { OnOk result (solved_in_turn (table_trees cx.old.entries table.old) (args_at cx.old.entries left) (args_at cx.old.entries right)
        ≡ Some (table_trees cx.new.entries table.new)) }
    ensures refused { OnErr result (table.new ≡ table.old) }
{
    cx.lawful();
    if left.trait_ref.def_id != right.trait_ref.def_id {
        return Err(EqError::NoSolution);
    }
    let left_args = Vec::from_slice(alloc, cx.args(left.trait_ref.args))?;
    let right_args = Vec::from_slice(alloc, cx.args(right.trait_ref.args))?;
    let place = table.snapshot();
    match equate_args(cx, table, &left_args, &right_args) {
        Ok(()) => Ok(()),
        Err(error) => {
            table.roll_back(place);
            Err(error)
        }
    }
}
