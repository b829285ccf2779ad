//! Comparison of trait references up to lifetimes.
ghost use Rattle.std.specs.Prelude.{◌≡◌, true, IfOk};
ghost use Rattle.type_terms.specs.Growth.{GrewOrFull};
ghost use Rattle.declarations.specs.Held.{ReferenceHeld};
ghost use Rattle.proof_checker.specs.Steps.{term_of};

use std::alloc::Global;
use term_folds::predicate::TraitRef;
use term_folds::regions::{RegionMap, fold_regions};
use type_terms::Fault;
use type_terms::interner::Interner;
use type_terms::region::{Region, RegionKind};

/// Each lifetime as `'static`.
struct AllStatic;

impl RegionMap for AllStatic {
    ghost use Rattle.type_terms.specs.Promised.Label.{static};

    ghost image = { λ _ _. static };

    fn map(&self, _region: Region) -> Region {
        Region {
            kind: RegionKind::ReStatic,
        }
    }
}

/// The trait reference with `'static` for each lifetime that no binder of it binds.
fn without_lifetimes(
    alloc: Global,
    cx: &mut Interner,
    reference: TraitRef,
) -> Result<TraitRef, Fault>
    requires { ReferenceHeld cx.old.entries reference }
    ensures terms { GrewOrFull cx.old cx.new result }
    ensures held { IfOk result (ReferenceHeld cx.new.entries) }
    ensures is { IfOk result (λ r. term_of cx.new.entries r ≡ term_of cx.old.entries reference) }
{
    fold_regions(alloc, cx, reference, &AllStatic)
}

/// Whether two trait references are found to be equal up to lifetimes. Equal ones that differ in lifetimes of a `for` may be missed.
pub(crate) fn are_one(
    alloc: Global,
    cx: &mut Interner,
    one: TraitRef,
    other: TraitRef,
) -> Result<bool, Fault>
    requires one { ReferenceHeld cx.old.entries one }
    requires other { ReferenceHeld cx.old.entries other }
    ensures terms { GrewOrFull cx.old cx.new result }
    ensures one { IfOk result (λ b. b ≡ true → term_of cx.old.entries one ≡ term_of cx.old.entries other) }
{
    if one.def_id.index != other.def_id.index {
        return Ok(false);
    }
    let first = without_lifetimes(alloc, cx, one)?;
    let second = without_lifetimes(alloc, cx, other)?;
    Ok(first.args.0 == second.args.0)
}
