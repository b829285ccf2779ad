//! What a text declares and queries, with names resolved to numbers.

use crate::cell::{ParamKind, TermCell};
use type_terms::{AdtId, CrateId, ImplId, TraitId};

/// A trait with its arguments, Self first.
#[derive(Drop)]
pub struct ReferenceCells {
    pub trait_id: TraitId,
    pub args: Vec<TermCell>,
}

/// A crate with the crates that it uses and sees.
pub(crate) struct CrateEntry {
    pub id: CrateId,
    pub name: Vec<u8>,
    /// The crates that it names as used, without those that these use.
    pub uses: Vec<CrateId>,
    /// Whether it sees each crate, up to itself.
    pub sees: Vec<bool>,
}

// Hand-written so that the prover sees one drop call: docs/PROVING.md#drop.
impl Drop for CrateEntry {
    fn drop(self) {
        let CrateEntry {
            id: _,
            name: _,
            uses: _,
            sees: _,
        } = self;
    }
}

/// A struct with its fields and the kinds of its parameters.
pub struct StructEntry {
    pub id: AdtId,
    pub name: Vec<u8>,
    pub owner: CrateId,
    pub is_fundamental: bool,
    pub params: Vec<ParamKind>,
    pub fields: Vec<TermCell>,
}

// Hand-written so that the prover sees one drop call: docs/PROVING.md#drop.
impl Drop for StructEntry {
    fn drop(self) {
        let StructEntry {
            id: _,
            name: _,
            owner: _,
            is_fundamental: _,
            params: _,
            fields: _,
        } = self;
    }
}

/// A trait as it is declared.
pub struct TraitEntry {
    pub id: TraitId,
    pub name: Vec<u8>,
    pub owner: CrateId,
    pub is_fundamental: bool,
    pub is_auto: bool,
    /// Its parameters without Self.
    pub params: Vec<ParamKind>,
    /// The supertraits as they are written.
    pub bounds: Vec<ReferenceCells>,
}

// Hand-written so that the prover sees one drop call: docs/PROVING.md#drop.
impl Drop for TraitEntry {
    fn drop(self) {
        let TraitEntry {
            id: _,
            name: _,
            owner: _,
            is_fundamental: _,
            is_auto: _,
            params: _,
            bounds: _,
        } = self;
    }
}

/// An impl: if its where-clauses hold, its header holds.
pub struct ImplEntry {
    pub id: ImplId,
    pub owner: CrateId,
    /// Its number among the impls of its crate, or of its section, from 1.
    pub number_in_crate: u32,
    pub params: Vec<Param>,
    pub header: ReferenceCells,
    pub clauses: Vec<ReferenceCells>,
}

// Hand-written so that the prover sees one drop call: docs/PROVING.md#drop.
impl Drop for ImplEntry {
    fn drop(self) {
        let ImplEntry {
            id: _,
            owner: _,
            number_in_crate: _,
            params: _,
            header: _,
            clauses: _,
        } = self;
    }
}

/// An impl that a later version of a crate adds.
pub struct LaterEntry {
    /// The number of its section, from 0.
    pub section: u32,
    /// Its owner is the changed crate, and its number counts in its section.
    pub entry: ImplEntry,
}

// Hand-written so that the prover sees one drop call: docs/PROVING.md#drop.
impl Drop for LaterEntry {
    fn drop(self) {
        let LaterEntry {
            section: _,
            entry: _,
        } = self;
    }
}

/// A check that a text asks for in addition to its crates.
#[derive(Clone, Copy)]
pub enum Check {
    /// `later C`: whether a later version of the crate may add the impls of this section. Sections count from 0.
    Later(u32, CrateId),
    /// `supers in C`: whether each impl of the crate has the supertraits of its trait.
    Supers(CrateId),
}

/// A named parameter, or a variable of a query.
#[derive(Drop)]
pub struct Param {
    pub name: Vec<u8>,
    pub kind: ParamKind,
}

/// A query: `prove in C R, ... where ...` or `refute in C R, ...`.
pub struct QuestionEntry {
    pub asked_how: Asked,
    pub params: Vec<Param>,
    pub asked: ReferenceCells,
    /// The queried trait references after the first.
    pub further: Vec<ReferenceCells>,
    pub clauses: Vec<ReferenceCells>,
    pub variables: Vec<Param>,
}

// Hand-written so that the prover sees one drop call: docs/PROVING.md#drop.
impl Drop for QuestionEntry {
    fn drop(self) {
        let QuestionEntry {
            asked_how: _,
            params: _,
            asked: _,
            further: _,
            clauses: _,
            variables: _,
        } = self;
    }
}

/// The kind of a query, and its crate.
#[derive(Clone, Copy)]
pub enum Asked {
    /// Whether a trait reference has a proof in the crate.
    Prove(CrateId),
    /// Whether a trait reference has no proof in any linked set with the crate.
    Refute(CrateId),
}

/// What a name stands for, by its number.
#[derive(Clone, Copy)]
pub(crate) enum Named {
    Crate(CrateId),
    Struct(AdtId),
    Trait(TraitId),
}

/// What a name stands for. For a struct or a trait also its crate and the kinds of its parameters.
#[derive(Clone, Copy)]
pub enum Known<'w> {
    Crate(CrateId),
    Struct {
        id: AdtId,
        owner: CrateId,
        params: &'w [ParamKind],
    },
    /// The parameters as they are written, without Self.
    Trait {
        id: TraitId,
        owner: CrateId,
        is_auto: bool,
        params: &'w [ParamKind],
    },
}
