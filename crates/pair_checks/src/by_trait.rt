//! The impls that may overlap with an impl: those of its trait whose headers can match. For `impl Show for Vec<u8>`,
//! `impl<T> Show for Vec<T>` is one and `impl Show for u8` is none.

ghost use Rattle.std.specs.Prelude.{◌≡◌, ◌≤◌, ◌+◌, ◌++◌, ◌∷◌, [], false, List, IfOk, OnOk, if◌then◌else◌};
ghost use Rattle.type_terms.specs.Promised.Handles.{Entry, trees_at};
ghost use Rattle.type_terms.specs.declared.TheConstants.{MAX_INDEX};
ghost use Rattle.term_folds.specs.Signatures.{StartsWithType};
ghost use Rattle.declarations.specs.Held.{AreHeld, ImplHeld, ReferenceHeld};
ghost use Rattle.declarations.specs.Items.{IsAbove, declared, reference_in};
ghost use Rattle.declarations.specs.Relevant.{matches_in};
ghost use Rattle.pair_checks.specs.ByTrait.{is_trait, listed, DeclaresOwnBlanket, HasNoOwnBlanket, ListsAll, ListsImpls, HaveNumbers, HavePartners};

use declarations::declarations::Declarations;
use declarations::items::ImplDef;
use declarations::simplify::simplify_type;
use std::alloc::{AllocError, Global};
use std::collections::HashMap;
use term_folds::predicate::TraitRef;
use type_terms::interner::Interner;
use type_terms::{ImplId, TraitId};

/// Whether an impl is of the local crate and its self type is a parameter, as in `impl<T> Show for T`.
fn is_own_blanket(cx: &Interner, declarations: &Declarations, def: &ImplDef) -> bool
    requires { ImplHeld cx.now.entries def.now }
    ensures { result ≡ false → DeclaresOwnBlanket cx.now.entries declarations.now.local def.now → ⊥ }
{
    if !declarations.is_local(def.home) {
        return false;
    }
    match simplify_type(cx, def.header.self_ty(cx)) {
        Some(_) => false,
        None => true,
    }
}

/// Whether the local crate writes an impl whose self type is a parameter. The numbers of impls are below `end`.
fn has_own_blanket(cx: &Interner, declarations: &Declarations, end: u32) -> bool
    requires held { AreHeld cx.now.entries declarations.now }
    requires numbered { IsAbove end declarations.now }
    requires in_range { end ≤ MAX_INDEX + 1 }
    ensures { result ≡ false → HasNoOwnBlanket (declared cx.now.entries declarations.now) declarations.now.local }
{
    for index in 0..end {
        let id = ImplId { index };
        let Some(def) = declarations.impl_def(id) else {
            continue;
        };
        if is_own_blanket(cx, declarations, def) {
            return true;
        }
    }
    false
}

/// The impls of each trait, by rising number.
///
/// Only an impl whose self type is a parameter can overlap with any other of its trait. So nothing is listed unless the local crate writes
/// one.
pub struct ImplsByTrait {
    traits: HashMap<TraitId, Vec<ImplId>>,
}

// Hand-written so that the prover sees one drop call: docs/PROVING.md#drop.
impl Drop for ImplsByTrait {
    fn drop(self) {
        let ImplsByTrait { traits: _ } = self;
    }
}

impl ImplsByTrait {
    fn new(alloc: Global) -> ImplsByTrait
        ensures { (trait_id : TraitId) → listed result trait_id ≡ [] }
    {
        ImplsByTrait {
            traits: HashMap::new(alloc),
        }
    }

    fn of_trait(&self, trait_id: TraitId) -> &[ImplId]
        ensures { result.now ≡ listed self.now trait_id }
    {
        match self.traits.get(&trait_id) {
            Some(impls) => impls,
            None => &[],
        }
    }

    /// Appends an impl to those of a trait.
    fn add(&mut self, alloc: Global, trait_id: TraitId, id: ImplId) -> Result<(), AllocError>
        ensures { OnOk result ((t : TraitId) → listed self.new t ≡ (if is_trait trait_id t then listed self.old t ++ id ∷ [] else listed self.old t)) }
    {
        match self.traits.get_mut(&trait_id) {
            Some(impls) => impls.push(id)?,
            None => {
                let impls = vec![in alloc; id]?;
                self.traits.insert(trait_id, impls)?;
            }
        }
        Ok(())
    }

    /// All impls of these declarations, whose numbers are below `end`. Fails only if memory is refused.
    fn of_all(
        alloc: Global,
        declarations: &Declarations,
        end: u32,
    ) -> Result<ImplsByTrait, AllocError>
        requires numbered { IsAbove end declarations.now }
        requires in_range { end ≤ MAX_INDEX + 1 }
        ensures { IfOk result (λ impls. (es : List Entry) → ListsAll (declared es declarations.now) impls) }
    {
        let mut impls = ImplsByTrait::new(alloc);
        for index in 0..end {
            let id = ImplId { index };
            let Some(def) = declarations.impl_def(id) else {
                continue;
            };
            impls.add(alloc, def.header.def_id, id)?;
        }
        Ok(impls)
    }

    /// All impls of these declarations, if the local crate writes one whose self type is a parameter, and otherwise none. The numbers of
    /// impls are below `end`. Fails only if memory is refused.
    pub fn of_declarations(
        alloc: Global,
        cx: &Interner,
        declarations: &Declarations,
        end: u32,
    ) -> Result<ImplsByTrait, AllocError>
        requires held { AreHeld cx.now.entries declarations.now }
        requires numbered { IsAbove end declarations.now }
        requires in_range { end ≤ MAX_INDEX + 1 }
        ensures { IfOk result (ListsImpls (declared cx.now.entries declarations.now) declarations.now.local) }
    {
        if !has_own_blanket(cx, declarations, end) {
            return Ok(ImplsByTrait::new(alloc));
        }
        ImplsByTrait::of_all(alloc, declarations, end)
    }

    /// The impls that the local crate has to compare with one of its own, by rising number: those of the same trait that can match its
    /// header, or all of that trait if its self type is a parameter.
    ///
    /// Each impl that it brings together with this one, and that has a common instance with it, is listed. For an impl of another crate the
    /// list is empty. Fails only if memory is refused.
    pub fn partners_of(
        &self,
        alloc: Global,
        cx: &Interner,
        declarations: &Declarations,
        later: ImplId,
    ) -> Result<Vec<ImplId>, AllocError>
        requires held { AreHeld cx.now.entries declarations.now }
        requires listed { ListsImpls (declared cx.now.entries declarations.now) declarations.now.local self.now }
        ensures { IfOk result (λ ids. HavePartners (declared cx.now.entries declarations.now) declarations.now.local later.index ids.items) }
    {
        cx.lawful();
        let Some(def) = declarations.impl_def(later) else {
            return Ok(Vec::new(alloc));
        };
        if !declarations.is_local(def.home) {
            return Ok(Vec::new(alloc));
        }
        let header = def.header;
        match simplify_type(cx, header.self_ty(cx)) {
            None => {
                let of_trait = self.of_trait(header.def_id);
                let impls = Vec::from_slice(alloc, of_trait)?;
                Ok(impls)
            }
            Some(_) => matching_impls(alloc, cx, declarations, header),
        }
    }
}

/// The impls that can match a trait reference, by rising number.
fn matching_impls(
    alloc: Global,
    cx: &Interner,
    declarations: &Declarations,
    reference: TraitRef,
) -> Result<Vec<ImplId>, AllocError>
    requires held { AreHeld cx.now.entries declarations.now }
    requires reference { ReferenceHeld cx.now.entries reference }
    requires first { StartsWithType (trees_at cx.now.entries reference.args.0) }
    ensures { IfOk result (λ ids. HaveNumbers (matches_in cx.now.entries declarations.now (reference_in cx.now.entries reference)) ids.items) }
{
    let mut found = Vec::new(alloc);
    let mut last = None;
    'impls: while let Some(id) = declarations.next_matching_impl(cx, reference, last) {
        found.push(id)?;
        last = Some(id);
    }
    Ok(found)
}
