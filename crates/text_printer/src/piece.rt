//! What is still to be printed.

use type_terms::TraitId;
use type_terms::kinds::{Const, GenericArgKind, Ty};

/// A part of a text that is still to be printed. Lists are the interner's own, so each piece takes the same room.
#[derive(Clone, Copy)]
pub(crate) enum Piece<'i> {
    Ty(Ty),
    Const(Const),
    /// These bytes.
    Text(&'static [u8]),
    /// Types, each after a comma.
    Types(&'i [Ty]),
    /// Arguments after those that are printed, and `>`. If none is printed, `<` comes first, or nothing if there are no arguments.
    /// Lifetimes are not printed.
    Args {
        rest: &'i [GenericArgKind],
        is_open: bool,
    },
    /// Auto traits, each after `+`.
    Autos(&'i [TraitId]),
}
