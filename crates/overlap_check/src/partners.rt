//! The pairs of impls that a crate has to check for overlap.
ghost use Rattle.std.specs.Prelude.{◌≡◌, List, IfSome, IfNone};
ghost use Rattle.type_terms.specs.Promised.Handles.{Entry};
ghost use Rattle.declarations.specs.Held.{AreHeld, ImplHeld};
ghost use Rattle.declarations.specs.Items.{declared};
ghost use Rattle.overlap_check.specs.Orphans.{AreWrittenWell};
ghost use Rattle.overlap_check.specs.Partners.{IsPairAt, NoPairAt, are_partners};
ghost use Rattle.overlap_check.specs.Written.{IsWrittenWell};

use declarations::declarations::Declarations;
use declarations::items::ImplDef;
use type_terms::ImplId;

/// Returns whether the first impl is of this crate, and the second one of the same trait and either of another crate or earlier.
fn are_partners(
    declarations: &Declarations,
    later: ImplId,
    left: &ImplDef,
    earlier: ImplId,
    right: &ImplDef,
) -> bool
    ensures { result ≡ are_partners declarations.now.local later left.now earlier right.now }
{
    declarations.is_local(left.home)
        && left.header.def_id == right.header.def_id
        && (!declarations.is_local(right.home) || earlier.index < later.index)
}

/// Returns the impls with these indices if this crate has to check them for overlap. `None` otherwise. The first impl is of this crate. The
/// second one is of the same trait, and either of another crate in the view or of this crate with a smaller index.
///
/// Calls with all pairs of indices give all pairs of impls of one trait. Impls of different traits never overlap.
pub fn pair_at<'d>(
    declarations: &'d Declarations,
    later: ImplId,
    earlier: ImplId,
) -> Option<(&'d ImplDef, &'d ImplDef)>
    ensures pair { (es : List Entry) → IfSome result (λ pair. IsPairAt es declarations.now later earlier pair.0.now pair.1.now) }
    ensures none { (es : List Entry) → IfNone result (NoPairAt (declared es declarations.now) declarations.now.local later.index earlier.index) }
    ensures held { (es : List Entry) → AreHeld es declarations.now → IfSome result (λ pair. ImplHeld es pair.0.now × ImplHeld es pair.1.now) }
    ensures written { (es : List Entry) → AreWrittenWell es declarations.now
        → IfSome result (λ pair. IsWrittenWell es pair.0.now × IsWrittenWell es pair.1.now) }
{
    let Some(left) = declarations.impl_def(later) else {
        return None;
    };
    let Some(right) = declarations.impl_def(earlier) else {
        return None;
    };
    if are_partners(declarations, later, left, earlier, right) {
        Some((left, right))
    } else {
        None
    }
}
