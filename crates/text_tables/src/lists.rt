//! Lists of cells: the fields of a struct, the arguments of a trait reference.
ghost use Rattle.type_terms.specs.Growth.{GrewOrFull};
ghost use Rattle.std.specs.Prelude.{◌≡◌, ◌+◌, ◌*◌, ◌≤◌, [], length, map, sum_by, Some, IsSome, IfOk};
ghost use Rattle.type_terms.specs.Promised.Handles.{Is, trees_at};
ghost use Rattle.type_terms.specs.Terms.{args_lists};
ghost use Rattle.type_terms.specs.Kinds.{TysHeld};
ghost use Rattle.text_tables.specs.Made.{AreMade, CellsHeld, parts_of, is_type, is_arg};
ghost use Rattle.text_tables.specs.TermCounts.{parts};
ghost use Rattle.text_tables.specs.TermCells.{trees_of, joined, behind_cells};
ghost use Rattle.text_tables.specs.Views.{cells_of};
ghost use Rattle.text_tables.specs.Stack.{stack_of, parts_in, trees_of_stack, StackHeld, AllParts, lowered_arg, lowered_type};

use crate::cell::TermCell;
use crate::cells::lower_cell;
use crate::stack::{Lowered, push};
use std::alloc::{AllocError, Global};
use type_terms::Fault;
use type_terms::interner::Interner;
use type_terms::kinds::{GenericArgKind, GenericArgs, Ty};

/// The terms that cells stand for, in order.
fn lower_cells(alloc: Global, cx: &mut Interner, cells: &[TermCell]) -> Result<Vec<Lowered>, Fault>
    requires made { IsSome (parts_of cells.now []) }
    requires range { CellsHeld cells.now }
    ensures parts { IfOk result (λ stack. parts_of cells.now [] ≡ Some (parts_in stack.items)) }
    ensures trees { IfOk result (λ stack. behind_cells (cells_of cells.now) [] ≡ trees_of_stack cx.new.entries (stack_of stack.items)) }
    ensures held { IfOk result (λ stack. StackHeld cx.new.entries (stack_of stack.items)) }
    ensures terms { GrewOrFull cx.old cx.new result }
    ensures few { length cx.new.entries ≤ length cx.old.entries + 2 * length cells.now }
{
    let mut stack = Vec::new(alloc);
    for cell in cells {
        let term = lower_cell(alloc, cx, &mut stack, *cell)?;
        push(&mut stack, term)?;
    }
    Ok(stack)
}

fn types_in(alloc: Global, stack: &[Lowered]) -> Result<Vec<Ty>, AllocError>
    requires { AllParts is_type stack.now }
    ensures { IfOk result (λ tys. map lowered_type tys.items ≡ stack.now) }
{
    let mut tys = Vec::new(alloc);
    for term in stack {
        match *term {
            Lowered::Type(ty) => tys.push(ty)?,
            _ => unreachable!(),
        }
    }
    Ok(tys)
}

fn args_in(alloc: Global, stack: &[Lowered]) -> Result<Vec<GenericArgKind>, AllocError>
    requires { AllParts is_arg stack.now }
    ensures { IfOk result (λ args. map lowered_arg args.items ≡ stack.now) }
{
    let mut args = Vec::new(alloc);
    for term in stack {
        match *term {
            Lowered::Type(ty) => args.push(GenericArgKind::Ty(ty))?,
            Lowered::Const(value) => args.push(GenericArgKind::Const(value))?,
            Lowered::Lifetime(region) => args.push(GenericArgKind::Lifetime(region))?,
            _ => unreachable!(),
        }
    }
    Ok(args)
}

/// The types that cells stand for, as the fields of a struct, in order. Each handle keeps its term, after an error too.
///
/// Fails with `Memory`, or with `Full` if a table of the interner is full. The interner may then hold more terms than before.
pub fn lower_types(alloc: Global, cx: &mut Interner, cells: &[TermCell]) -> Result<Vec<Ty>, Fault>
    requires { AreMade is_type cells.now }
    ensures is { IfOk result (λ tys. map (λ t. trees_at cx.new.entries t.0) tys.items ≡ trees_of (cells_of cells.now)) }
    ensures held { IfOk result (λ tys. TysHeld cx.new.entries tys.items) }
    ensures terms { GrewOrFull cx.old cx.new result }

    // A part is made into one term, and maybe into a list of its parts.
    ensures few { length cx.new.entries ≤ length cx.old.entries + 2 * sum_by parts (trees_of (cells_of cells.now)) }
{
    let stack = lower_cells(alloc, cx, cells)?;
    let tys = types_in(alloc, &stack)?;
    Ok(tys)
}

/// The list of arguments that cells stand for, as of a trait reference, Self first. The errors are those of `lower_types`.
pub fn lower_args(
    alloc: Global,
    cx: &mut Interner,
    cells: &[TermCell],
) -> Result<GenericArgs, Fault>
    requires { AreMade is_arg cells.now }
    ensures is { IfOk result (λ args. Is cx.new.entries args_lists args.0 (joined (trees_of (cells_of cells.now)))) }
    ensures terms { GrewOrFull cx.old cx.new result }
    ensures few { length cx.new.entries ≤ length cx.old.entries + 2 * parts (joined (trees_of (cells_of cells.now))) + 1 }
{
    let stack = lower_cells(alloc, cx, cells)?;
    let list = args_in(alloc, &stack)?;
    let args = cx.mk_args(list)?;
    Ok(args)
}
