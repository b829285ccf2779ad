//! For which crate an orphan check is, and why it fails.
ghost use Rattle.std.specs.Prelude.{◌≡◌, if◌then◌else◌};
ghost use Rattle.orphan_check.specs.declared.errors.IsFirstInputType.TheVariants.{No, Yes};
ghost use Rattle.orphan_check.specs.declared.errors.WalkError.TheVariants.{Memory};

use std::alloc::{AllocError, AllocFailed};
use type_terms::kinds::Ty;

/// How strict an orphan check is. The modes differ only in projections such as `<T as Iterator>::Item`, and there are none.
#[derive(Clone, Copy, PartialEq, Eq)]
pub enum OrphanCheckMode {
    /// The rule of RFC 2451.
    Proper,
    /// rustc's rule for old code: parameters in some projections are covered.
    Compat,
}

/// Whether an orphan check is for this crate, or for any crate outside its view.
#[derive(Clone, Copy, PartialEq, Eq)]
pub enum InCrate {
    /// This crate. Its structs and traits are local. The check passes only if this crate certainly may write the impl.
    Local { mode: OrphanCheckMode },
    /// Another crate. Nothing in the view is local to it. The check passes if that crate could write the impl: a variable may stand for a
    /// local type of that crate.
    Remote,
}

/// Which crates may add an impl for a trait reference that is not knowable.
#[derive(Clone, Copy, PartialEq, Eq)]
pub enum Conflict {
    /// A later version of a crate in the view. For `Vec<u8>: Foreign`, the crate of `Foreign` may add `impl Foreign for Vec<u8>`.
    Upstream,
    /// A crate that uses this one. For `&?x: Local`, it may have `impl Local for &Theirs`.
    Downstream,
}

/// Whether the orphan walk visits a type before it has finished any other. In a fundamental `Pair<u8, bool>` at the start, `u8` has `Yes`
/// and `bool` has `No`. rustc: `in_self_ty`.
#[derive(Clone, Copy, PartialEq, Eq)]
pub enum IsFirstInputType {
    No,
    Yes,
}

impl From<bool> for IsFirstInputType {
    ghost from_gives = { λ first r. r ≡ (if first then Yes else No) };

    fn from(first: bool) -> IsFirstInputType {
        if first {
            IsFirstInputType::Yes
        } else {
            IsFirstInputType::No
        }
    }
}

/// An uncovered type that precedes every local type: `T` in `impl<T> Foreign<Local> for Box<T>`. rustc reports E0210.
#[derive(PartialEq, Eq, Drop)]
pub struct UncoveredTyParams<T> {
    /// The first parameter, inference variable, placeholder or bound type: `T`.
    pub uncovered: T,
    /// The first local type after it, if there is one: `Local`.
    pub local_ty: Option<Ty>,
}

/// Why a crate may not write an impl.
#[derive(PartialEq, Eq, Drop)]
pub enum OrphanCheckErr<T> {
    /// No visited type is local or uncovered. These are the visited types in order, without those that the walk enters: `u8` for
    /// `impl Foreign for Box<u8>`. rustc reports E0117.
    NonLocalInputType(Vec<(Ty, IsFirstInputType)>),
    /// An uncovered type precedes every local type.
    UncoveredTyParams(UncoveredTyParams<T>),
}

/// Why an orphan walk has no result.
#[derive(Debug, PartialEq, Eq, Drop, thiserror::Error)]
pub enum WalkError<E> {
    /// The normalizer failed with this error.
    #[error("the normalizer refused a type")]
    Normalize(E),
    /// A visited type is nested deeper than the limit.
    #[error("types are nested deeper than the limit")]
    Deep,
    /// A request for memory was refused.
    #[error("out of memory")]
    Memory,
}

impl<E> From<AllocError> for WalkError<E> {
    ghost from_gives = { λ _ e. e ≡ Memory };

    fn from(_error: AllocError) -> WalkError<E> {
        WalkError::Memory
    }
}

impl<E, T: Drop> From<AllocFailed<T>> for WalkError<E> {
    ghost from_gives = { λ _ e. e ≡ Memory };

    fn from(_error: AllocFailed<T>) -> WalkError<E> {
        WalkError::Memory
    }
}
