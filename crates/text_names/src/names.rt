//! What is declared before a line, and what its names are looked up in.
ghost use Rattle.std.specs.Prelude.{◌≡◌, length, is_some};
ghost use Rattle.text_language.specs.Promised.Declarations.{known, impl_owner, last_later};
ghost use Rattle.text_language.specs.Promised.Faults.{last_items};

use crate::looked_up::Names;
use type_terms::CrateId;

/// What the names of one line are looked up in, and how much is declared before it.
pub trait LineNames: Names {
    /// How many crates there are, with `core`.
    fn crate_count(&self) -> usize
        ensures { result ≡ length (Self.sight self.now).before.crates };

    /// How many queries there are.
    fn question_count(&self) -> usize
        ensures { result ≡ length (Self.sight self.now).before.questions };

    /// Whether a section is open, so that an impl of the line belongs to it.
    fn is_in_section(&self) -> bool
        ensures { result ≡ (Self.sight self.now).before.in_section };

    /// The crate to which an impl of the line belongs: the changed crate of the open section, or the last crate if none is open.
    fn impl_owner(&self) -> CrateId
        ensures { result.index ≡ impl_owner (Self.sight self.now).before };

    /// How many impls the last section has.
    fn last_later(&self) -> usize
        ensures { result ≡ last_later (Self.sight self.now).before };

    /// How many structs, traits and impls the last crate has.
    fn last_items(&self) -> usize
        ensures { result ≡ last_items (Self.sight self.now).before };

    /// Whether a name was that of a crate, a struct or a trait before the line.
    fn was_known(&self, name: &[u8]) -> bool
        ensures { result ≡ is_some (known (Self.sight self.now).before name.now) };
}
