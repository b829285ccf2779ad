//! Types, constants and their parts, each stored once, and visits of them. In addition, what it means that a type has a
//! trait: `specs/` has the definitions that all contracts cite, and module `laws` what holds of them.
//!
//! A visit calls a visitor at each node of a term, in order, and changes nothing (`Visits`). A visitor of `Once` enters
//! each type only once.
#![tactic(auto)]

ghost use Rattle.std.specs.Prelude.{◌≡◌, ◌≤◌};
ghost use Rattle.type_terms.specs.declared.TheConstants.{MAX_INDEX};

pub mod binders;
mod deep_visit;
pub mod entered;
pub mod flags;
pub mod interner;
pub mod kinds;
pub mod laws;
mod node;
pub mod number;
pub mod once;
pub mod region;
pub mod variance;
pub mod visit;
mod visit_walk;
pub mod visitable;
pub mod visitable_ext;

use std::alloc::{AllocError, AllocFailed};

/// The error of a call that was refused. All terms that were stored before are preserved, with their handles.
///
/// This type is of this project. In rustc, creating a term cannot fail.
#[derive(Clone, Copy, Debug, PartialEq, Eq, thiserror::Error)]
pub enum Fault {
    /// A request for memory was refused, or more variables or parameters are needed than there are numbers
    /// (`MAX_INDEX`).
    #[error("out of memory")]
    Memory,
    /// A table has as many entries as its limit allows, and the requested term is not among them.
    #[error("a table is full")]
    Full,
}

impl From<AllocError> for Fault {
    ghost use Rattle.type_terms.specs.declared.Fault.TheVariants.{Memory};

    ghost from_gives = { λ _ e. e ≡ Memory };

    fn from(_error: AllocError) -> Fault {
        Fault::Memory
    }
}

impl<T: Drop> From<AllocFailed<T>> for Fault {
    ghost use Rattle.type_terms.specs.declared.Fault.TheVariants.{Memory};

    ghost from_gives = { λ _ e. e ≡ Memory };

    fn from(_error: AllocFailed<T>) -> Fault {
        Self::Memory
    }
}

/// The greatest number of an item or a variable.
///
/// rustc reserves the rest of the range of u32 (`rustc_index::newtype_index!`).
pub const MAX_INDEX: u32 = 0xFFFF_FF00;

/// A crate, by its index in the text. The crate `core` is 0.
#[derive(Clone, Copy, PartialEq, Eq, PartialOrd, Ord, Hash)]
pub struct CrateId {
    pub index: u32,
    ghost in_range: { index ≤ MAX_INDEX },
}

/// A struct, by its index among all structs. `Box` of `core` is 0.
#[derive(Clone, Copy, PartialEq, Eq, PartialOrd, Ord, Hash)]
pub struct AdtId {
    pub index: u32,
    ghost in_range: { index ≤ MAX_INDEX },
}

/// A trait, by its index among all traits. Those of `core` come first.
#[derive(Clone, Copy, PartialEq, Eq, PartialOrd, Ord, Hash)]
pub struct TraitId {
    pub index: u32,
    ghost in_range: { index ≤ MAX_INDEX },
}

/// An impl, by its index among all impls. Those of `core` come first.
#[derive(Clone, Copy, PartialEq, Eq, PartialOrd, Ord, Hash)]
pub struct ImplId {
    pub index: u32,
    ghost in_range: { index ≤ MAX_INDEX },
}
