//! The intersection of two impls: a table in which their headers are equal, and their where-clauses as goals over it.
ghost use Rattle.std.specs.Prelude.{◌≡◌, IfOk, IfSome, Ok, None};
ghost use Rattle.type_terms.specs.Promised.Worlds.{all_with_args};
ghost use Rattle.type_terms.specs.Promised.Handles.{trees_at};
ghost use Rattle.type_terms.specs.Growth.{GrewOrFull};
ghost use Rattle.infer_table.specs.Content.{Table};
ghost use Rattle.declarations.specs.Applied.{references_in, TraitRefsHeld};
ghost use Rattle.declarations.specs.Held.{ImplHeld};
ghost use Rattle.overlap_check.specs.Headers.{AreDisjointImpls, AreEqualHeaders, IsIntersection, IsPosed, IsSolved};
ghost use Rattle.overlap_check.specs.Headers.{IsUnknownsFor, IsWithoutVariables, empty_table};
ghost use Rattle.overlap_check.specs.Written.{IsWrittenWell};

use crate::equate::equate_args;
use crate::header::{fresh_header_args, instantiate_clauses};
use declarations::items::ImplDef;
use infer_table::certainty::EqError;
use infer_table::infer_ctxt::InferCtxt;
use std::alloc::Global;
use term_folds::predicate::TraitRef;
use type_terms::Fault;
use type_terms::interner::Interner;
use type_terms::kinds::GenericArgs;

/// Two impls whose headers have a common instance.
///
/// For `impl<T> Show for V<T> where T: Num` and `impl<U> Show for V<U> where U: Copy`, `?1` has the value `?0` in the table. The goals are
/// `?0: Num` of the first impl and `?1: Copy` of the second one.
pub struct ImplIntersection {
    /// The table that makes the headers equal.
    pub table: InferCtxt,
    /// The where-clauses of the first impl, with variables of the table.
    pub left: Vec<TraitRef>,
    /// The where-clauses of the second impl, with variables of the table.
    pub right: Vec<TraitRef>,
}

// Hand-written so that the prover sees one drop call: docs/PROVING.md#drop.
impl Drop for ImplIntersection {
    fn drop(self) {
        let ImplIntersection {
            table: _,
            left: _,
            right: _,
        } = self;
    }
}

/// Returns the intersection of two impls, in a new table with variables for the parameters of both. `None` if their headers cannot be
/// equated. Then the impls have no common instance.
///
/// Each goal covers its where-clause: for each common instance, the where-clause is an instance of the goal. So if a goal has no solution,
/// the where-clause never holds. rustc: the part of `overlap` that precedes the search for an impossible obligation.
///
/// Fails with `Full` only if the terms of some kind are at their limit, and with `Memory` if memory is refused or no index remains for a
/// variable.
pub fn impl_intersection(
    alloc: Global,
    cx: &mut Interner,
    left: &ImplDef,
    right: &ImplDef,
) -> Result<Option<ImplIntersection>, Fault>
    requires left_held { ImplHeld cx.old.entries left.now }
    requires right_held { ImplHeld cx.old.entries right.now }
    requires left_written { IsWrittenWell cx.old.entries left.now }
    requires right_written { IsWrittenWell cx.old.entries right.now }
    ensures terms { GrewOrFull cx.old cx.new result }

    // `None`: the impls have no common instance.
    ensures apart { result ≡ Ok None → AreDisjointImpls cx.old.entries left.now right.now }

    // `Some`: they have one, and the goals are those of the pair.
    ensures found { IfOk result (λ found. IfSome found (IsIntersection cx.old.entries left.now right.now cx.new.entries)) }

    // The goals are the where-clauses, and the table is the result of equating the headers.
    ensures solved { IfOk result (λ found. IfSome found (IsSolved cx.old.entries left.now right.now cx.new.entries)) }

    // If no variables occur in the impls, only variables of the table occur in the goals.
    ensures posed { IsWithoutVariables cx.old.entries left.now → IsWithoutVariables cx.old.entries right.now
        → IfOk result (λ found. IfSome found (IsPosed cx.new.entries)) }
{
    cx.lawful();
    let mut table = InferCtxt::new(alloc);
    let Some(unknowns) = equate_fresh_headers(alloc, cx, &mut table, left, right)? else {
        return Ok(None);
    };
    cx.lawful();
    let (left, right) = instantiate_both(alloc, cx, left, right, unknowns.0, unknowns.1)?;
    Ok(Some(ImplIntersection { table, left, right }))
}

/// Equates the headers of two impls in an empty table, with new variables for the parameters of both, and returns these. `None` if that is
/// impossible.
fn equate_fresh_headers(
    alloc: Global,
    cx: &mut Interner,
    table: &mut InferCtxt,
    left: &ImplDef,
    right: &ImplDef,
) -> Result<Option<(GenericArgs, GenericArgs)>, Fault>
    requires empty { table.old ≡ empty_table }
    requires left_held { ImplHeld cx.old.entries left.now }
    requires right_held { ImplHeld cx.old.entries right.now }
    requires left_written { IsWrittenWell cx.old.entries left.now }
    requires right_written { IsWrittenWell cx.old.entries right.now }
    ensures terms { GrewOrFull cx.old cx.new result }
    ensures apart { result ≡ Ok None → AreDisjointImpls cx.old.entries left.now right.now }
    ensures equal { IfOk result (λ found. IfSome found (λ h. AreEqualHeaders cx.old.entries left.now right.now cx.new.entries table.new h.0 h.1)) }
{
    cx.lawful();
    if left.header.def_id != right.header.def_id {
        return Ok(None);
    }
    let (left_unknowns, left_args) = fresh_header_args(alloc, cx, table, left)?;
    let (right_unknowns, right_args) = fresh_header_args(alloc, cx, table, right)?;
    match equate_args(cx, table, &left_args, &right_args) {
        Ok(()) => Ok(Some((left_unknowns, right_unknowns))),
        Err(EqError::NoSolution) => Ok(None),
        Err(EqError::Fault(fault)) => Err(fault),
    }
}

/// Instantiates the where-clauses of both impls with the variables for their parameters.
fn instantiate_both(
    alloc: Global,
    cx: &mut Interner,
    left: &ImplDef,
    right: &ImplDef,
    left_unknowns: GenericArgs,
    right_unknowns: GenericArgs,
) -> Result<(Vec<TraitRef>, Vec<TraitRef>), Fault>
    requires left_held { ImplHeld cx.old.entries left.now }
    requires right_held { ImplHeld cx.old.entries right.now }
    requires left_written { IsWrittenWell cx.old.entries left.now }
    requires right_written { IsWrittenWell cx.old.entries right.now }
    requires left_args { (t : Table) × IsUnknownsFor cx.old.entries t left.now left_unknowns }
    requires right_args { (t : Table) × IsUnknownsFor cx.old.entries t right.now right_unknowns }
    ensures terms { GrewOrFull cx.old cx.new result }
    ensures left_held { IfOk result (λ v. TraitRefsHeld cx.new.entries v.0.items) }
    ensures right_held { IfOk result (λ v. TraitRefsHeld cx.new.entries v.1.items) }
    ensures left { IfOk result (λ v. references_in cx.new.entries v.0.items
        ≡ all_with_args (trees_at cx.old.entries left_unknowns.0) (references_in cx.old.entries left.now.clauses.items)) }
    ensures right { IfOk result (λ v. references_in cx.new.entries v.1.items
        ≡ all_with_args (trees_at cx.old.entries right_unknowns.0) (references_in cx.old.entries right.now.clauses.items)) }
{
    let left_clauses = instantiate_clauses(alloc, cx, &left.clauses, left_unknowns)?;
    let right_clauses = instantiate_clauses(alloc, cx, &right.clauses, right_unknowns)?;
    Ok((left_clauses, right_clauses))
}
