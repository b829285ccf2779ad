//! Supertraits of trait references.
ghost use Rattle.std.specs.Prelude.{◌≡◌, ◌++◌, ◌∷◌, [], IfOk, IfErr, OnOk};
ghost use Rattle.type_terms.specs.Promised.Rules.{written_supertraits};
ghost use Rattle.type_terms.specs.declared.Fault.TheVariants.{Memory};
ghost use Rattle.type_terms.specs.Growth.{GrewOrFull};
ghost use Rattle.declarations.specs.Items.{reference_in, written};
ghost use Rattle.declarations.specs.Held.{ReferenceHeld, AreHeld};
ghost use Rattle.declarations.specs.Promised.Elaboration.{elaborate, supertraits};
ghost use Rattle.declarations.specs.Applied.{references_in, TraitRefsHeld, IsApplied, AreApplied, HaveBounds};
ghost use Rattle.declarations.specs.Stacked.{StacksUnseen};

use crate::arguments::all_with_arguments;
use crate::declarations::Declarations;
use indexmap::IndexSet;
use std::alloc::Global;
use term_folds::predicate::TraitRef;
use type_terms::Fault;
use type_terms::interner::Interner;

/// Appends a trait reference. The error is `Memory`.
fn put(found: &mut Vec<TraitRef>, next: TraitRef) -> Result<(), Fault>
    ensures put { OnOk result (found.new.items ≡ found.old.items ++ next ∷ []) }
    ensures memory { IfErr result (λ fault. fault ≡ Memory) }
{
    found.push(next)?;
    Ok(())
}

/// A list of so many trait references is not made longer, since supertraits with arguments may double at each level: it would be larger
/// than any memory. As many nested goals may a goal have whose results cannot be reused.
const ELABORATED_LIMIT: usize = 65_536;

/// The trait references that wait to be elaborated, and all that ever did (`Elaborator`).
struct Elaborator {
    stack: Vec<TraitRef>,
    visited: IndexSet<TraitRef>,
}

// Hand-written so that the prover sees one drop call: docs/PROVING.md#drop.
impl Drop for Elaborator {
    fn drop(self) {
        let Elaborator {
            stack: _,
            visited: _,
        } = self;
    }
}

impl Elaborator {
    /// Pushes those that were never pushed before (`extend_deduped`). The error is `Memory`.
    fn extend_deduped(&mut self, cx: &Interner, references: &[TraitRef]) -> Result<(), Fault>
        requires held { TraitRefsHeld cx.now.entries references.now }
        requires visited { TraitRefsHeld cx.now.entries self.old.visited.keys }
        ensures extends { OnOk result (StacksUnseen cx.now.entries references.now self.old self.new) }
        ensures memory { IfErr result (λ fault. fault ≡ Memory) }
    {
        cx.lawful();
        let mut left = references;
        'references: while let Some((next, others)) = left.split_first() {
            let is_new = self.visited.insert(*next)?;
            if is_new {
                put(&mut self.stack, *next)?;
            }
            left = others;
        }
        Ok(())
    }
}

impl Declarations {
    /// The declared supertraits of the reference's trait, with the reference's arguments.
    fn written_supertraits(
        &self,
        alloc: Global,
        cx: &mut Interner,
        trait_ref: TraitRef,
    ) -> Result<Vec<TraitRef>, Fault>
        requires held { AreHeld cx.old.entries self.now }
        requires bounds { HaveBounds cx.old.entries self.now }
        requires reference { ReferenceHeld cx.old.entries trait_ref }
        requires applied { IsApplied cx.old.entries self.now trait_ref }
        ensures terms { GrewOrFull cx.old cx.new result }
        ensures held { IfOk result (λ v. TraitRefsHeld cx.new.entries v.items) }
        ensures applied { IfOk result (λ v. AreApplied cx.new.entries self.now v.items) }
        ensures are { IfOk result (λ v. references_in cx.new.entries v.items
            ≡ written_supertraits (written cx.old.entries self.now) (reference_in cx.old.entries trait_ref)) }
    {
        match self.trait_def(trait_ref.def_id) {
            Some(def) => all_with_arguments(alloc, cx, &def.bounds, trait_ref.args),
            None => Ok(Vec::new(alloc)),
        }
    }

    /// The trait references with their supertraits through all levels, each once (`elaborate`). They are pushed on a stack in their
    /// order. Each step pops the last one and pushes its declared supertraits. For `S: A1 + B1` it is `S`, `B1`, `A1`.
    ///
    /// Each reference has its trait's arguments, and no trait is its own supertrait. The error is `Memory` or `Full`. A list of more than
    /// 65,536 is refused as if memory were.
    pub fn elaborate(
        &self,
        alloc: Global,
        cx: &mut Interner,
        references: &[TraitRef],
    ) -> Result<Vec<TraitRef>, Fault>
        requires held { AreHeld cx.old.entries self.now }
        requires bounds { HaveBounds cx.old.entries self.now }
        requires references { TraitRefsHeld cx.old.entries references.now }
        requires applied { AreApplied cx.old.entries self.now references.now }
        ensures terms { GrewOrFull cx.old cx.new result }
        ensures held { IfOk result (λ v. TraitRefsHeld cx.new.entries v.items) }
        ensures applied { IfOk result (λ v. AreApplied cx.new.entries self.now v.items) }
        ensures are { IfOk result (λ v. references_in cx.new.entries v.items
            ≡ elaborate (written cx.old.entries self.now) (references_in cx.old.entries references.now)) }
    {
        let mut elaborator = Elaborator {
            stack: Vec::new(alloc),
            visited: IndexSet::new(alloc),
        };
        elaborator.extend_deduped(cx, references)?;
        let mut found = Vec::new(alloc);
        'stack: while let Some(next) = elaborator.stack.pop() {
            if found.len() >= ELABORATED_LIMIT {
                return Err(Fault::Memory);
            }
            put(&mut found, next)?;
            let supertraits = self.written_supertraits(alloc, cx, next)?;
            elaborator.extend_deduped(cx, &supertraits)?;
        }
        Ok(found)
    }

    /// The strict supertraits of a trait reference through all levels, each once, in the order of `elaborate` (`supertraits`).
    pub fn supertraits(
        &self,
        alloc: Global,
        cx: &mut Interner,
        trait_ref: TraitRef,
    ) -> Result<Vec<TraitRef>, Fault>
        requires held { AreHeld cx.old.entries self.now }
        requires bounds { HaveBounds cx.old.entries self.now }
        requires reference { ReferenceHeld cx.old.entries trait_ref }
        requires applied { IsApplied cx.old.entries self.now trait_ref }
        ensures terms { GrewOrFull cx.old cx.new result }
        ensures held { IfOk result (λ v. TraitRefsHeld cx.new.entries v.items) }
        ensures applied { IfOk result (λ v. AreApplied cx.new.entries self.now v.items) }
        ensures are { IfOk result (λ v. references_in cx.new.entries v.items
            ≡ supertraits (written cx.old.entries self.now) (reference_in cx.old.entries trait_ref)) }
    {
        let mut found = self.elaborate(alloc, cx, &[trait_ref])?;
        let _ = found.remove(0);
        Ok(found)
    }
}
