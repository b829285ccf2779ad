//! The tables that a text fills, line by line. They know no grammar: they are given the parts of a line, not the line.
ghost use Rattle.std.specs.Prelude.{◌≡◌, ◌<◌, ◌++◌, ◌∷◌, [], ℕ, None, true, false, All, length, map, filter, nat_le, slice_get, unwrap_or, not, ◌&&◌, nat_eq, OnOk, OnErr, IfOk, IfSome};
ghost use Rattle.std.specs.List.{list_any, starts_with};
ghost use Rattle.std.specs.Option.{option_map, option_and_then};
ghost use Rattle.type_terms.specs.Promised.Worlds.{sees};
ghost use Rattle.text_language.specs.Promised.Syntax.{Line, crate_line, later_line, supers_line};
ghost use Rattle.text_language.specs.Promised.Declarations.{known, world_of, last_crate, last_changed, last_later, impl_owner};
ghost use Rattle.text_language.specs.Promised.Faults.{is_among, last_items};
ghost use Rattle.text_language.specs.Lowering.{crate_number};
ghost use Rattle.text_language.specs.Adding.{added};
ghost use Rattle.text_tables.specs.Numbered.{IsFew};
ghost use Rattle.text_tables.specs.Tables.{declared, with_question, with_new_crate, will_see, named_item, item_named, core_alone, number_of_crate, has_name_besides, IsConsistent, MarksSeen};
ghost use Rattle.text_tables.specs.Unasked.{without_last_question};
ghost use Rattle.text_tables.specs.Made.{AreMade, ReferenceMade, ReferencesMade, is_type};
ghost use Rattle.text_tables.specs.Parts.{AddsStruct, AddsStructLine, AddsTrait, AddsTraitLine, AddsImpl, AddsLaterImpl, AddsImplLine, AddsQuestionLine};
ghost use Rattle.text_tables.specs.Views.{known_of, sorts_of, cells_of, reference_of, question_of, asker_of, param_names, numbers_of, name_texts, trait_of};
ghost use Rattle.text_tables.specs.TermCells.{trees_of};

use crate::cell::{ParamKind, TermCell};
use crate::declared::{
    Asked, Check, CrateEntry, ImplEntry, Known, LaterEntry, Named, Param, QuestionEntry,
    ReferenceCells, StructEntry, TraitEntry,
};
use std::alloc::{AllocError, Global};
use std::collections::HashMap;
use type_terms::{AdtId, CrateId, ImplId, TraitId};

/// No list of a text's declarations is as long. A text has at most one line more than bytes, and `core` comes first.
pub const ENTRY_LIMIT: usize = 67_108_928;

/// The declarations and queries of the lines so far, in the order of the text, `core` first, and indices to search them quickly.
///
/// An item's number is its index among all items of its kind. A call that adds something fails if memory is refused. The tables must not
/// be used any more then, except after `add_question`, which leaves them unchanged.
pub struct Tables {
    pub(crate) alloc: Global,
    pub(crate) crates: Vec<CrateEntry>,
    pub(crate) ids: Vec<CrateId>,
    pub(crate) structs: Vec<StructEntry>,
    pub(crate) traits: Vec<TraitEntry>,
    pub(crate) impls: Vec<ImplEntry>,
    pub(crate) questions: Vec<QuestionEntry>,
    pub(crate) asked: Vec<Asked>,
    /// The crate of each section.
    sections: Vec<CrateId>,
    pub(crate) later_impls: Vec<LaterEntry>,
    pub(crate) checks: Vec<Check>,
    /// Whether the last line that began a crate or a section began a section.
    in_section: bool,
    /// What each name stands for.
    names: HashMap<Vec<u8>, Named>,
    /// How many impls the last crate has.
    last_impls: u32,
    /// How many structs, traits and impls the last crate has.
    last_items: u32,
    /// How many impls the last section has.
    last_later: u32,
}

// Hand-written so that the prover sees one drop call: docs/PROVING.md#drop.
impl Drop for Tables {
    fn drop(self) {
        let Tables {
            alloc: _,
            crates: _,
            ids: _,
            structs: _,
            traits: _,
            impls: _,
            questions: _,
            asked: _,
            sections: _,
            later_impls: _,
            checks: _,
            in_section: _,
            names: _,
            last_impls: _,
            last_items: _,
            last_later: _,
        } = self;
    }
}

/// Whether an index is marked in a list. It is not if it is after the end.
fn is_marked(row: &[bool], place: u32) -> bool
    ensures { result ≡ unwrap_or (slice_get row.now place) false }
{
    row.get(place as usize).copied().unwrap_or(false)
}

/// Whether a name is one of others.
fn is_one_of(name: &[u8], names: &[Vec<u8>]) -> bool
    ensures { result ≡ is_among name.now (map (λ v. v.items) names.now) }
{
    let mut rest = names;
    while let [first, others @ ..] = rest {
        if first.as_slice() == name {
            return true;
        }
        rest = others;
    }
    false
}

/// Whether a name begins so, and is none of others.
fn is_besides(name: &[u8], front: &[u8], names: &[Vec<u8>]) -> bool
    ensures { result ≡ has_name_besides front.now (map (λ v. v.items) names.now) name.now }
{
    name.starts_with(front) && !is_one_of(name, names)
}

/// Whether one of the traits has a name that begins so, and is none of others.
fn any_besides(traits: &[TraitEntry], front: &[u8], names: &[Vec<u8>]) -> bool
    ensures { result ≡ list_any (λ t. has_name_besides front.now (map (λ v. v.items) names.now) t.text) (map trait_of traits.now) }
{
    let mut rest = traits;
    while let [first, others @ ..] = rest {
        if is_besides(&first.name, front, names) {
            return true;
        }
        rest = others;
    }
    false
}

impl Tables {
    /// The crate `core` without its items.
    pub(crate) fn core_alone(alloc: Global) -> Result<Self, AllocError>
        ensures declared { IfOk result (λ t. declared t ≡ core_alone) }
        ensures consistent { IfOk result (λ t. IsConsistent t) }
    {
        let core = CrateId { index: 0 };
        let mut crates = Vec::new(alloc);
        crates.push(CrateEntry {
            id: core,
            name: Vec::from_slice(alloc, b"core")?,
            uses: Vec::new(alloc),
            sees: vec![in alloc; true]?,
        })?;
        let mut names = HashMap::new(alloc);
        names.insert(Vec::from_slice(alloc, b"core")?, Named::Crate(core))?;
        Ok(Tables {
            alloc,
            crates,
            ids: vec![in alloc; core]?,
            structs: Vec::new(alloc),
            traits: Vec::new(alloc),
            impls: Vec::new(alloc),
            questions: Vec::new(alloc),
            asked: Vec::new(alloc),
            sections: Vec::new(alloc),
            later_impls: Vec::new(alloc),
            checks: Vec::new(alloc),
            in_section: false,
            names,
            last_impls: 0,
            last_items: 0,
            last_later: 0,
        })
    }

    fn named(&self, name: &[u8]) -> Option<Named>
        requires { IsConsistent self.now }
        ensures { option_map named_item result ≡ item_named (declared self.now) name.now }
    {
        self.names.get(name).copied()
    }

    /// What a name stands for: a crate, a struct or a trait. `None` if it was not declared.
    pub fn known(&self, name: &[u8]) -> Option<Known<'_>>
        requires { IsConsistent self.now }
        ensures { option_map known_of result ≡ known (declared self.now) name.now }
    {
        match self.named(name) {
            None => None,
            Some(Named::Crate(id)) => Some(Known::Crate(id)),
            Some(Named::Struct(id)) => {
                let entry = &self.structs[id.index as usize];
                Some(Known::Struct {
                    id,
                    owner: entry.owner,
                    params: &entry.params,
                })
            }
            Some(Named::Trait(id)) => {
                let entry = &self.traits[id.index as usize];
                Some(Known::Trait {
                    id,
                    owner: entry.owner,
                    is_auto: entry.is_auto,
                    params: &entry.params,
                })
            }
        }
    }

    /// Whether crate `seeing` sees crate `seen`.
    pub fn sees(&self, seeing: CrateId, seen: CrateId) -> bool
        requires consistent { IsConsistent self.now }
        requires there { seeing.index < length self.now.crates.items }
        ensures { result ≡ sees (world_of (declared self.now)) seeing.index seen.index }
    {
        let entry = &self.crates[seeing.index as usize];
        is_marked(&entry.sees, seen.index)
    }

    /// The crates that a crate sees, in the order of the text.
    pub fn seen_from(&self, seeing: CrateId) -> Result<Vec<CrateId>, AllocError>
        requires consistent { IsConsistent self.now }
        requires there { seeing.index < length self.now.crates.items }
        ensures { IfOk result (λ seen. seen.items ≡ filter (λ i. sees (world_of (declared self.now)) seeing.index i.index) self.now.ids.items) }
    {
        let mut seen = Vec::new(self.alloc);
        for id in &self.ids {
            if self.sees(seeing, *id) {
                seen.push(*id)?;
            }
        }
        Ok(seen)
    }

    /// The last crate that a line declared.
    pub fn last_crate(&self) -> CrateId
        requires { IsConsistent self.now }
        ensures { result.index ≡ last_crate (declared self.now) }
    {
        self.ids[self.ids.len() - 1]
    }

    /// Whether `core` is the only crate.
    pub fn has_no_crate(&self) -> bool
        ensures { result ≡ nat_le (length (declared self.now).crates) 1 }
    {
        self.crates.len() <= 1
    }

    /// How many crates there are, with `core`.
    pub fn crate_count(&self) -> usize
        ensures { result ≡ length (declared self.now).crates }
    {
        self.crates.len()
    }

    /// How many structs there are, with those of `core`.
    pub fn struct_count(&self) -> usize
        ensures { result ≡ length (declared self.now).structs }
    {
        self.structs.len()
    }

    /// How many traits there are, with those of `core`.
    pub fn trait_count(&self) -> usize
        ensures { result ≡ length (declared self.now).traits }
    {
        self.traits.len()
    }

    /// Whether some trait has a name that begins so, and is none of others.
    pub fn has_trait_besides(&self, front: &[u8], names: &[Vec<u8>]) -> bool
        ensures { result ≡ list_any (λ t. has_name_besides front.now (map (λ v. v.items) names.now) t.text) (declared self.now).traits }
    {
        any_besides(&self.traits, front, names)
    }

    /// How many queries there are, of both kinds.
    pub fn question_count(&self) -> usize
        ensures { result ≡ length (declared self.now).questions }
    {
        self.questions.len()
    }

    /// How many structs, traits and impls the last crate has.
    pub fn last_items(&self) -> u32
        requires { IsConsistent self.now }
        ensures { result ≡ last_items (declared self.now) }
    {
        self.last_items
    }

    /// Whether a section is open, so that an impl of the next line belongs to it. A query ends no section.
    pub fn is_in_section(&self) -> bool
        ensures { result ≡ (declared self.now).in_section }
    {
        self.in_section
    }

    /// How many impls the last section has.
    pub fn last_later(&self) -> u32
        requires { IsConsistent self.now }
        ensures { result ≡ last_later (declared self.now) }
    {
        self.last_later
    }

    /// The crate of the last section.
    fn last_changed(&self) -> CrateId
        ensures { result.index ≡ last_changed (declared self.now) }
    {
        match self.sections.len() {
            0 => CrateId { index: 0 },
            count => self.sections[count - 1],
        }
    }

    /// The crate to which an impl of the next line belongs.
    pub fn impl_owner(&self) -> CrateId
        requires { IsConsistent self.now }
        ensures { result.index ≡ impl_owner (declared self.now) }
    {
        if self.in_section {
            return self.last_changed();
        }
        self.last_crate()
    }

    /// The crate with this name, if there is one.
    pub fn crate_named(&self, name: &[u8]) -> Option<CrateId>
        requires { IsConsistent self.now }
        ensures number { option_map (λ c. c.index) result ≡ option_and_then number_of_crate (known (declared self.now) name.now) }
        ensures there { IfSome result (λ c. c.index < length self.now.crates.items) }
    {
        match self.known(name) {
            Some(Known::Crate(id)) => Some(id),
            _ => None,
        }
    }

    fn crate_id(&self, name: &[u8]) -> CrateId
        requires { IsConsistent self.now }
        ensures number { result.index ≡ crate_number (known (declared self.now) name.now) }
        ensures there { result.index < length self.now.crates.items }
    {
        match self.crate_named(name) {
            Some(id) => id,
            None => CrateId { index: 0 },
        }
    }

    /// The crates that a line names, in its order.
    fn crate_ids(&self, used: &[&[u8]]) -> Result<Vec<CrateId>, AllocError>
        requires { IsConsistent self.now }
        ensures numbers { IfOk result (λ ids. numbers_of ids.items ≡ map (λ u. crate_number (known (declared self.now) u)) (name_texts used.now)) }
        ensures there { IfOk result (λ ids. All (λ u. u.index < length self.now.crates.items) ids.items) }
    {
        let mut ids = Vec::new(self.alloc);
        for name in used {
            ids.push(self.crate_id(name))?;
        }
        Ok(ids)
    }

    fn any_sees(&self, uses: &[CrateId], seen: CrateId) -> bool
        requires consistent { IsConsistent self.now }
        requires there { All (λ u. u.index < length self.now.crates.items) uses.now }
        ensures { result ≡ list_any (λ u. sees (world_of (declared self.now)) u.index seen.index) uses.now }
    {
        uses.iter().any(|used| self.sees(*used, seen))
    }

    /// Whether a new crate that uses these sees the crate: `core`, what they see, and itself.
    fn will_see(&self, uses: &[CrateId], seen: CrateId) -> bool
        requires consistent { IsConsistent self.now }
        requires there { All (λ u. u.index < length self.now.crates.items) uses.now }
        ensures { result ≡ will_see (world_of (declared self.now)) uses.now seen.index }
    {
        seen.index == 0 || self.any_sees(uses, seen)
    }

    /// For each crate so far, whether a new one that uses these sees it. The last entry says that it sees itself.
    fn seen_by(&self, uses: &[CrateId]) -> Result<Vec<bool>, AllocError>
        requires consistent { IsConsistent self.now }
        requires there { All (λ u. u.index < length self.now.crates.items) uses.now }
        ensures { IfOk result (λ row. row.items ≡ map (λ i. will_see (world_of (declared self.now)) uses.now i.index) self.now.ids.items ++ true ∷ []) }
    {
        let mut row = Vec::new(self.alloc);
        for id in &self.ids {
            row.push(self.will_see(uses, *id))?;
        }
        row.push(true)?;
        Ok(row)
    }

    fn push_crate(
        &mut self,
        name: &[u8],
        uses: Vec<CrateId>,
        row: Vec<bool>,
    ) -> Result<(), AllocError>
        requires consistent { IsConsistent self.old }
        requires new { known (declared self.old) name.now ≡ None }
        requires few { IsFew (declared self.old) ENTRY_LIMIT }
        requires uses { All (λ u. u.index < length self.old.crates.items) uses.items }
        requires row { MarksSeen (world_of (with_new_crate self.old name.now uses.items)) (length self.old.crates.items) row.items }
        ensures declared { OnOk result (declared self.new ≡ with_new_crate self.old name.now uses.items) }
        ensures consistent { OnOk result (IsConsistent self.new) }
    {
        let id = CrateId {
            index: self.crates.len() as u32,
        };
        self.names
            .insert(Vec::from_slice(self.alloc, name)?, Named::Crate(id))?;
        self.crates.push(CrateEntry {
            id,
            name: Vec::from_slice(self.alloc, name)?,
            uses,
            sees: row,
        })?;
        self.ids.push(id)?;
        self.last_impls = 0;
        self.last_items = 0;
        self.in_section = false;
        Ok(())
    }

    /// Adds a crate that uses the crates with these names, which are earlier ones. Fails only if memory is refused.
    pub fn add_crate(&mut self, name: &[u8], used: &[&[u8]]) -> Result<(), AllocError>
        requires consistent { IsConsistent self.old }
        requires new { known (declared self.old) name.now ≡ None }
        requires few { IsFew (declared self.old) ENTRY_LIMIT }
        ensures added { OnOk result (declared self.new ≡ added (declared self.old) (crate_line name.now (name_texts used.now))) }
        ensures consistent { OnOk result (IsConsistent self.new) }
    {
        let uses = self.crate_ids(used)?;
        let row = self.seen_by(&uses)?;
        self.push_crate(name, uses, row)
    }

    /// Adds a struct of the last crate, with its fields and the kinds of its parameters. Fails only if memory is refused.
    pub fn add_struct(
        &mut self,
        name: &[u8],
        is_fundamental: bool,
        params: Vec<ParamKind>,
        fields: Vec<TermCell>,
    ) -> Result<(), AllocError>
        requires consistent { IsConsistent self.old }
        requires made { AreMade is_type fields.items }
        requires new { known (declared self.old) name.now ≡ None }
        requires few { IsFew (declared self.old) ENTRY_LIMIT }
        ensures declared { OnOk result (AddsStruct (declared self.old) (declared self.new) name.now is_fundamental params.items fields.items) }
        ensures added { OnOk result (AddsStructLine (declared self.old) (declared self.new) name.now is_fundamental params.items fields.items) }
        ensures consistent { OnOk result (IsConsistent self.new) }
    {
        let id = AdtId {
            index: self.structs.len() as u32,
        };
        let owner = self.last_crate();
        self.names
            .insert(Vec::from_slice(self.alloc, name)?, Named::Struct(id))?;
        self.structs.push(StructEntry {
            id,
            name: Vec::from_slice(self.alloc, name)?,
            owner,
            is_fundamental,
            params,
            fields,
        })?;
        self.last_items += 1;
        Ok(())
    }

    /// Adds a trait of the last crate, with its bounds and the kinds of its parameters without Self. Fails only if memory is refused.
    pub fn add_trait(
        &mut self,
        name: &[u8],
        is_fundamental: bool,
        is_auto: bool,
        params: Vec<ParamKind>,
        bounds: Vec<ReferenceCells>,
    ) -> Result<(), AllocError>
        requires consistent { IsConsistent self.old }
        requires made { ReferencesMade bounds.items }
        requires new { known (declared self.old) name.now ≡ None }
        requires few { IsFew (declared self.old) ENTRY_LIMIT }
        ensures declared { OnOk result (AddsTrait (declared self.old) (declared self.new) name.now is_fundamental is_auto params.items bounds.items) }
        ensures added { OnOk result (AddsTraitLine (declared self.old) (declared self.new) name.now is_fundamental is_auto params.items bounds.items) }
        ensures consistent { OnOk result (IsConsistent self.new) }
    {
        let id = TraitId {
            index: self.traits.len() as u32,
        };
        let owner = self.last_crate();
        self.names
            .insert(Vec::from_slice(self.alloc, name)?, Named::Trait(id))?;
        self.traits.push(TraitEntry {
            id,
            name: Vec::from_slice(self.alloc, name)?,
            owner,
            is_fundamental,
            is_auto,
            params,
            bounds,
        })?;
        self.last_items += 1;
        Ok(())
    }

    /// Adds an impl of the last crate.
    pub(crate) fn add_own_impl(
        &mut self,
        params: Vec<Param>,
        header: ReferenceCells,
        clauses: Vec<ReferenceCells>,
    ) -> Result<(), AllocError>
        requires consistent { IsConsistent self.old }
        requires header { ReferenceMade header }
        requires clauses { ReferencesMade clauses.items }
        requires few { IsFew (declared self.old) ENTRY_LIMIT }
        ensures declared { OnOk result (AddsImpl (declared self.old) (declared self.new) params.items header clauses.items) }
        ensures consistent { OnOk result (IsConsistent self.new) }
    {
        let id = ImplId {
            index: self.impls.len() as u32,
        };
        let owner = self.last_crate();
        let number_in_crate = self.last_impls + 1;
        self.impls.push(ImplEntry {
            id,
            owner,
            number_in_crate,
            params,
            header,
            clauses,
        })?;
        self.last_impls = number_in_crate;
        self.last_items += 1;
        Ok(())
    }

    /// Adds an impl of the last section.
    fn add_later_impl(
        &mut self,
        params: Vec<Param>,
        header: ReferenceCells,
        clauses: Vec<ReferenceCells>,
    ) -> Result<(), AllocError>
        requires consistent { IsConsistent self.old }
        requires section { (declared self.old).in_section ≡ true }
        requires header { ReferenceMade header }
        requires clauses { ReferencesMade clauses.items }
        requires few { IsFew (declared self.old) ENTRY_LIMIT }
        ensures declared { OnOk result (AddsLaterImpl (declared self.old) (declared self.new) params.items header clauses.items) }
        ensures consistent { OnOk result (IsConsistent self.new) }
    {
        let section = (self.sections.len() - 1) as u32;
        let owner = self.last_changed();
        let place = self.last_later;
        self.later_impls.push(LaterEntry {
            section,
            entry: ImplEntry {
                id: ImplId { index: place },
                owner,
                number_in_crate: place + 1,
                params,
                header,
                clauses,
            },
        })?;
        self.last_later += 1;
        Ok(())
    }

    /// Adds an impl: to the open section, or to the last crate if none is open. An impl of a section is in no view. Fails only if memory is
    /// refused.
    pub fn add_impl(
        &mut self,
        params: Vec<Param>,
        header: ReferenceCells,
        clauses: Vec<ReferenceCells>,
    ) -> Result<(), AllocError>
        requires consistent { IsConsistent self.old }
        requires header { ReferenceMade header }
        requires clauses { ReferencesMade clauses.items }
        requires few { IsFew (declared self.old) ENTRY_LIMIT }
        ensures added { OnOk result (AddsImplLine (declared self.old) (declared self.new) params.items header clauses.items) }
        ensures consistent { OnOk result (IsConsistent self.new) }
    {
        if self.in_section {
            return self.add_later_impl(params, header, clauses);
        }
        self.add_own_impl(params, header, clauses)
    }

    /// Begins the section of a later version of the crate with this name. The impls that follow belong to it. Fails only if memory is
    /// refused.
    pub fn add_section(&mut self, name: &[u8]) -> Result<(), AllocError>
        requires consistent { IsConsistent self.old }
        requires few { IsFew (declared self.old) ENTRY_LIMIT }
        ensures added { OnOk result (declared self.new ≡ added (declared self.old) (later_line name.now)) }
        ensures consistent { OnOk result (IsConsistent self.new) }
    {
        let changed = self.crate_id(name);
        let section = self.sections.len() as u32;
        self.checks.push(Check::Later(section, changed))?;
        self.sections.push(changed)?;
        self.last_later = 0;
        self.in_section = true;
        Ok(())
    }

    /// Adds the check `supers` of the crate with this name. Fails only if memory is refused.
    pub fn add_supers(&mut self, name: &[u8]) -> Result<(), AllocError>
        requires consistent { IsConsistent self.old }
        ensures added { OnOk result (declared self.new ≡ added (declared self.old) (supers_line name.now)) }
        ensures consistent { OnOk result (IsConsistent self.new) }
    {
        let asked = self.crate_id(name);
        self.checks.push(Check::Supers(asked))?;
        Ok(())
    }

    /// Adds a query. `prove` and `refute` are numbered together. Fails if memory is refused, and then leaves the tables unchanged.
    pub fn add_question(&mut self, entry: QuestionEntry) -> Result<(), AllocError>
        requires consistent { IsConsistent self.old }
        requires asked { ReferencesMade (entry.asked ∷ entry.further.items) }
        requires clauses { ReferencesMade entry.clauses.items }
        requires asker { asker_of entry.asked_how < length (declared self.old).crates }
        ensures declared { OnOk result (declared self.new ≡ with_question (declared self.old) (question_of entry)) }
        ensures added { OnOk result (AddsQuestionLine (declared self.old) (declared self.new) (question_of entry)) }
        ensures consistent { OnOk result (IsConsistent self.new) }
        ensures kept { OnErr result (declared self.new ≡ declared self.old) }
        ensures still_consistent { OnErr result (IsConsistent self.new) }
    {
        self.asked.push(entry.asked_how)?;
        match self.questions.push(entry) {
            Ok(()) => Ok(()),
            Err(_refused) => {
                let _taken = self.asked.pop();
                Err(AllocError)
            }
        }
    }

    /// Removes the last query, if there is one.
    pub fn remove_question(&mut self)
        requires { IsConsistent self.old }
        ensures removed { declared self.new ≡ without_last_question (declared self.old) }
        ensures consistent { IsConsistent self.new }
    {
        let _ = self.asked.pop();
        let _ = self.questions.pop();
    }
}
