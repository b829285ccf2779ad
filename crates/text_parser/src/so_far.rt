//! What is declared before a line.
ghost use Rattle.std.specs.Prelude.{◌≡◌, ◌<◌, length, IfSome};
ghost use Rattle.std.specs.Option.{option_map, option_and_then};
ghost use Rattle.type_terms.specs.Promised.Worlds.{sees};
ghost use Rattle.text_language.specs.Promised.Declarations.{known, last_crate, last_later, impl_owner, world_of};
ghost use Rattle.text_language.specs.Promised.Faults.{last_items};
ghost use Rattle.text_language.specs.Faults.{number_of_crate};
ghost use Rattle.text_language.specs.Lowering.{crate_number};
ghost use Rattle.text_tables.specs.Numbered.{IsFew};
ghost use Rattle.text_tables.specs.Views.{known_of};

use std::marker::Model;
use text_tables::{ENTRY_LIMIT, Known, Tables};
use type_terms::{AdtId, CrateId, TraitId};

/// The tables of the lines before a line, which agree with what they declare. Contracts speak of the declarations.
#[derive(Drop)]
pub(crate) struct SoFar<'w> {
    tables: &'w Tables,
}

impl<'w> Model for SoFar<'w> {
    ghost use Rattle.text_language.specs.Promised.Declarations.{Declarations};
    ghost use Rattle.text_tables.specs.Numbered.{IsFew};
    ghost use Rattle.text_tables.specs.Stored.{declarations_code};
    ghost use Rattle.text_tables.specs.Tables.{declared, IsConsistent};

    ghost Value = { Declarations };

    ghost coded = { declarations_code };

    ghost view = { λ s. declared s.tables.now };

    ghost invariant = { λ s. IsConsistent s.tables.now × IsFew (declared s.tables.now) 67108928 };
}

impl<'w> SoFar<'w> {
    ghost use Rattle.text_tables.specs.Tables.{declared, IsConsistent};

    /// The tables as what is declared so far. They hold no more than a text may declare.
    pub fn new(tables: &'w Tables) -> Self
        requires agrees { IsConsistent tables.now }
        requires few { IsFew (declared tables.now) ENTRY_LIMIT }
        ensures { result ≡ declared tables.now }
    {
        SoFar { tables }
    }

    /// What a name stands for so far: a crate, a struct or a trait. `None` if it was not declared.
    pub fn known(&self, name: &[u8]) -> Option<Known<'_>>
        ensures { option_map known_of result ≡ known self.now name.now }
    {
        self.tables.known(name)
    }

    /// Whether a crate sees another: itself, `core`, and what it uses, directly or through others.
    pub fn sees(&self, seeing: CrateId, seen: CrateId) -> bool
        requires { seeing.index < length self.now.crates }
        ensures { result ≡ sees (world_of self.now) seeing.index seen.index }
    {
        self.tables.sees(seeing, seen)
    }

    /// The last crate that a line declared.
    pub fn last_crate(&self) -> CrateId
        ensures number { result.index ≡ last_crate self.now }
        ensures there { result.index < length self.now.crates }
    {
        self.tables.last_crate()
    }

    /// The crate with this name, if one was declared.
    pub fn crate_named(&self, name: &[u8]) -> Option<CrateId>
        ensures number { option_map (λ c. c.index) result ≡ option_and_then number_of_crate (known self.now name.now) }
        ensures there { IfSome result (λ c. c.index < length self.now.crates) }
    {
        self.tables.crate_named(name)
    }

    /// The crate of a query, by its name.
    pub fn asking_crate(&self, name: &[u8]) -> CrateId
        ensures number { result.index ≡ crate_number (known self.now name.now) }
        ensures there { result.index < length self.now.crates }
    {
        match self.tables.crate_named(name) {
            Some(id) => id,
            None => CrateId { index: 0 },
        }
    }

    /// The number of the next struct: the count of structs so far, with those of `core`.
    pub fn next_struct(&self) -> AdtId
        ensures { result.index ≡ length self.now.structs }
    {
        AdtId {
            index: self.tables.struct_count() as u32,
        }
    }

    /// The number of the next trait: the count of traits so far, with those of `core`.
    pub fn next_trait(&self) -> TraitId
        ensures { result.index ≡ length self.now.traits }
    {
        TraitId {
            index: self.tables.trait_count() as u32,
        }
    }

    /// How many crates there are so far, with `core`.
    pub fn crate_count(&self) -> usize
        ensures { result ≡ length self.now.crates }
    {
        self.tables.crate_count()
    }

    /// How many queries there are so far, of both kinds.
    pub fn question_count(&self) -> usize
        ensures { result ≡ length self.now.questions }
    {
        self.tables.question_count()
    }

    /// Whether the section of a later version is open.
    pub fn is_in_section(&self) -> bool
        ensures { result ≡ self.now.in_section }
    {
        self.tables.is_in_section()
    }

    /// The crate to which an impl of the line belongs.
    pub fn impl_owner(&self) -> CrateId
        ensures number { result.index ≡ impl_owner self.now }
        ensures there { result.index < length self.now.crates }
    {
        self.tables.impl_owner()
    }

    /// How many impls the last section has so far.
    pub fn last_later(&self) -> u32
        ensures { result ≡ last_later self.now }
    {
        self.tables.last_later()
    }

    /// How many structs, traits and impls the last crate declares so far.
    pub fn last_items(&self) -> u32
        ensures { result ≡ last_items self.now }
    {
        self.tables.last_items()
    }
}
