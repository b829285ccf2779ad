//! The declarations, checks and queries of a whole text.
ghost use Rattle.std.specs.Prelude.{◌≡◌, ◌<◌, ◌+◌, ◌∷◌, Some, length, map, filter, take, suc, count_by, slice_get, ◌==◌, IfOk, OnOk, OnErr};
ghost use Rattle.std.specs.List.Sorted.{IsNonDecreasingBy};
ghost use Rattle.std.specs.Option.{option_map};
ghost use Rattle.type_terms.specs.Promised.Worlds.{sees, view_of};
ghost use Rattle.text_language.specs.Promised.Declarations.{known, world_of};
ghost use Rattle.text_tables.specs.Numbered.{EachNumbered, IsNumbered, IsFew};
ghost use Rattle.text_tables.specs.Made.{AreMade, ReferenceMade, ReferencesMade, is_type};
ghost use Rattle.text_tables.specs.Views.{known_of, struct_of, trait_of, impl_of, question_of, numbers_of, asked_of, asker_of, later_impl_of, check_of};

use crate::declared::{
    Asked, Check, ImplEntry, Known, LaterEntry, QuestionEntry, StructEntry, TraitEntry,
};
use crate::tables::{ENTRY_LIMIT, Tables};
use std::alloc::AllocError;
use std::marker::Model;
use type_terms::{CrateId, ImplId};

/// The impls of a section. Those of one section are next to each other, because sections are added in order.
fn impls_of_section(entries: &[LaterEntry], section: u32) -> &[LaterEntry]
    requires { IsNonDecreasingBy (λ i. i.section) entries.now }
    ensures { result.now ≡ filter (λ i. i.section == section) entries.now }
{
    let first = entries.partition_point(|entry| entry.section < section);
    let rest = &entries[first..];
    let count = rest.partition_point(|entry| entry.section <= section);
    &rest[..count]
}

/// What a text declares and queries, in its order. The crate `core` and its items come first.
///
/// Crates, structs, traits and impls go by numbers. An item's number is its index among all of its kind.
#[derive(Drop)]
pub struct Workspace {
    tables: Tables,
}

impl Model for Workspace {
    ghost use Rattle.text_language.specs.Promised.Declarations.{Declarations};
    ghost use Rattle.text_tables.specs.Numbered.{IsFew};
    ghost use Rattle.text_tables.specs.Stored.{declarations_code};
    ghost use Rattle.text_tables.specs.Tables.{declared, IsConsistent};

    ghost Value = { Declarations };

    ghost coded = { declarations_code };

    ghost view = { λ w. declared w.tables };

    ghost invariant = { λ w. IsConsistent w.tables × IsFew (declared w.tables) 67108928 };
}

impl Workspace {
    ghost use Rattle.text_tables.specs.Tables.{declared, with_question, IsConsistent};
    ghost use Rattle.text_tables.specs.Unasked.{without_last_question};

    /// What the tables of a whole text hold.
    pub fn new(tables: Tables) -> Self
        requires consistent { IsConsistent tables }
        requires few { IsFew (declared tables) ENTRY_LIMIT }
        ensures { result ≡ declared tables }
    {
        Workspace { tables }
    }

    /// The tables: what the next line of the text would be judged by.
    pub fn tables(&self) -> &Tables
        ensures declared { declared result.now ≡ self.now }
        ensures consistent { IsConsistent result.now }
        ensures few { IsFew self.now ENTRY_LIMIT }
    {
        &self.tables
    }

    /// Adds a query after all others. Fails if memory is refused, and then changes nothing.
    pub fn add_question(&mut self, entry: QuestionEntry) -> Result<(), AllocError>
        requires asked { ReferencesMade (entry.asked ∷ entry.further.items) }
        requires clauses { ReferencesMade entry.clauses.items }
        requires asker { asker_of entry.asked_how < length self.old.crates }
        requires room { length self.old.questions + 1 < ENTRY_LIMIT }
        ensures added { OnOk result (self.new ≡ with_question self.old (question_of entry)) }
        ensures kept { OnErr result (self.new ≡ self.old) }
    {
        self.tables.add_question(entry)
    }

    /// Removes the last query, if there is one.
    pub fn remove_question(&mut self)
        ensures { self.new ≡ without_last_question self.old }
    {
        self.tables.remove_question();
    }

    /// The crates in the order of the text, `core` first.
    pub fn crates(&self) -> &[CrateId]
        ensures crates { numbers_of result.now ≡ map (λ c. c.item.name) self.now.crates }
        ensures numbered { IsNumbered self.now }
        ensures few { IsFew self.now ENTRY_LIMIT }
    {
        &self.tables.ids
    }

    /// The kind of each query, and its crate.
    pub fn questions(&self) -> &[Asked]
        ensures { map asked_of result.now ≡ map (λ q. (q.is_refute, q.asker)) self.now.questions }
    {
        &self.tables.asked
    }

    /// The name of a crate as the text writes it. The crate with number 0 is `core`.
    pub fn crate_name(&self, id: CrateId) -> &[u8]
        requires { id.index < length self.now.crates }
        ensures { option_map (λ c. c.text) (slice_get self.now.crates id.index) ≡ Some result.now }
    {
        &self.tables.crates[id.index as usize].name
    }

    /// What a name stands for: a crate, a struct or a trait. `None` if it was not declared.
    pub fn known(&self, name: &[u8]) -> Option<Known<'_>>
        ensures { option_map known_of result ≡ known self.now name.now }
    {
        self.tables.known(name)
    }

    /// Whether crate `seeing` sees crate `seen`.
    pub fn sees(&self, seeing: CrateId, seen: CrateId) -> bool
        requires { seeing.index < length self.now.crates }
        ensures { result ≡ sees (world_of self.now) seeing.index seen.index }
    {
        self.tables.sees(seeing, seen)
    }

    /// The view of a crate: itself and all that it uses, directly or through others, in the order of the text. `core` is first and the
    /// crate itself last.
    pub fn view(&self, crate_id: CrateId) -> Result<Vec<CrateId>, AllocError>
        requires { crate_id.index < length self.now.crates }
        ensures { IfOk result (λ seen. numbers_of seen.items ≡ map (λ c. c.name) (view_of (world_of self.now) crate_id.index).crates) }
    {
        let seen = self.tables.seen_from(crate_id)?;
        Ok(seen)
    }

    /// The crate of an impl, and the impl's number among those of its crate, from 1.
    pub fn impl_place(&self, id: ImplId) -> (CrateId, u32)
        requires { id.index < length self.now.impls }
        ensures home { option_map (λ i. i.item.home) (slice_get self.now.impls id.index) ≡ Some result.0.index }
        ensures number { result.1 ≡ count_by (λ i. i.item.home == result.0.index) (take (suc id.index) self.now.impls) }
    {
        let entry = &self.tables.impls[id.index as usize];
        (entry.owner, entry.number_in_crate)
    }

    /// The structs in the order of the text.
    pub fn structs(&self) -> &[StructEntry]
        ensures items { map struct_of result.now ≡ self.now.structs }
        ensures made { EachNumbered (λ k s. AreMade is_type s.fields.items) result.now }
    {
        &self.tables.structs
    }

    /// The traits in the order of the text.
    pub fn traits(&self) -> &[TraitEntry]
        ensures items { map trait_of result.now ≡ self.now.traits }
        ensures made { EachNumbered (λ k t. ReferencesMade t.bounds.items) result.now }
    {
        &self.tables.traits
    }

    /// The impls in the order of the text.
    pub fn impls(&self) -> &[ImplEntry]
        ensures items { map impl_of result.now ≡ self.now.impls }
        ensures headers { EachNumbered (λ k i. ReferenceMade i.header) result.now }
        ensures clauses { EachNumbered (λ k i. ReferencesMade i.clauses.items) result.now }
    {
        &self.tables.impls
    }

    /// The checks in the order of the text.
    pub fn checks(&self) -> &[Check]
        ensures { map check_of result.now ≡ self.now.checks }
    {
        &self.tables.checks
    }

    /// The impls of a section, in the order of the text. Sections count from 0. If the text has no such section, the list is empty.
    pub fn later_impls_of(&self, section: u32) -> &[LaterEntry]
        ensures items { map later_impl_of result.now ≡ filter (λ i. i.section == section) self.now.later_impls }
        ensures headers { EachNumbered (λ k i. ReferenceMade i.entry.header) result.now }
        ensures clauses { EachNumbered (λ k i. ReferencesMade i.entry.clauses.items) result.now }
    {
        impls_of_section(&self.tables.later_impls, section)
    }

    /// The queries in the order of the text.
    pub fn question_entries(&self) -> &[QuestionEntry]
        ensures items { map question_of result.now ≡ self.now.questions }
        ensures asked { EachNumbered (λ k q. ReferencesMade (q.asked ∷ q.further.items)) result.now }
        ensures clauses { EachNumbered (λ k q. ReferencesMade q.clauses.items) result.now }
    {
        &self.tables.questions
    }
}
