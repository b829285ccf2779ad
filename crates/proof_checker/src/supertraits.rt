//! Supertraits of where-clauses.
ghost use Rattle.std.specs.Prelude.{◌≡◌, ◌++◌, true, IfOk, IfErr, OnOk};
ghost use Rattle.type_terms.specs.Promised.Proofs.{In};
ghost use Rattle.type_terms.specs.Promised.Rules.{written_supertraits, strict_supertraits};
ghost use Rattle.type_terms.specs.declared.Fault.TheVariants.{Memory};
ghost use Rattle.type_terms.specs.Growth.{GrewOrFull};
ghost use Rattle.declarations.specs.Applied.{TraitRefsHeld, HaveBounds};
ghost use Rattle.declarations.specs.Held.{ReferenceHeld, AreHeld};
ghost use Rattle.declarations.specs.Items.{declared};
ghost use Rattle.declarations.specs.Promised.Elaboration.{Each};
ghost use Rattle.proof_checker.specs.Checked.{IsSuperRule};
ghost use Rattle.proof_checker.specs.Steps.{term_of, terms_of};

use crate::lifetimes::are_one;
use crate::rules::all_with_arguments;
use declarations::declarations::Declarations;
use declarations::laws::declarations_are_kept;
use std::alloc::Global;
use term_folds::predicate::TraitRef;
use type_terms::Fault;
use type_terms::interner::Interner;

/// How many supertraits of a where-clause are looked at. A trait that is reached twice counts twice.
const LOOKED_AT: u32 = 1024;

/// The declared supertraits of the reference's trait, with the reference's arguments, or none if these do not fit.
fn written_supertraits(
    alloc: Global,
    cx: &mut Interner,
    declarations: &Declarations,
    reference: TraitRef,
) -> Result<Vec<TraitRef>, Fault>
    requires declared { AreHeld cx.old.entries declarations.now }
    requires reference { ReferenceHeld cx.old.entries reference }
    ensures terms { GrewOrFull cx.old cx.new result }
    ensures held { IfOk result (λ v. TraitRefsHeld cx.new.entries v.items) }
    ensures are { IfOk result (λ v. Each (λ s. In (term_of cx.new.entries s)
        (written_supertraits (declared cx.old.entries declarations.now) (term_of cx.old.entries reference))) v.items) }
{
    cx.lawful();
    let def = match declarations.trait_def(reference.def_id) {
        Some(def) => def,
        None => return Ok(Vec::new(alloc)),
    };
    if cx.outer_exclusive_binder(reference.args).index != 0 {
        return Ok(Vec::new(alloc));
    }
    match all_with_arguments(alloc, cx, &def.bounds, reference.args)? {
        Some(supertraits) => Ok(supertraits),
        None => Ok(Vec::new(alloc)),
    }
}

/// Appends trait references. The error is `Memory`.
fn put_all(waiting: &mut Vec<TraitRef>, references: &[TraitRef]) -> Result<(), Fault>
    ensures put { OnOk result (waiting.new.items ≡ waiting.old.items ++ references.now) }
    ensures memory { IfErr result (λ fault. fault ≡ Memory) }
{
    waiting.extend_from_slice(references)?;
    Ok(())
}

/// Whether the trait reference is found among the strict supertraits of another, through any number of levels.
fn is_supertrait_of(
    alloc: Global,
    cx: &mut Interner,
    declarations: &Declarations,
    reference: TraitRef,
    below: TraitRef,
) -> Result<bool, Fault>
    requires declared { AreHeld cx.old.entries declarations.now }
    requires bounds { HaveBounds cx.old.entries declarations.now }
    requires reference { ReferenceHeld cx.old.entries reference }
    requires below { ReferenceHeld cx.old.entries below }
    ensures terms { GrewOrFull cx.old cx.new result }
    ensures above { IfOk result (λ b. b ≡ true
        → In (term_of cx.old.entries reference) (strict_supertraits (declared cx.old.entries declarations.now) (term_of cx.old.entries below))) }
{
    declarations_are_kept();
    let mut waiting = written_supertraits(alloc, cx, declarations, below)?;
    'looked: for _looked in 0..LOOKED_AT {
        match waiting.pop() {
            Some(next) => {
                if are_one(alloc, cx, next, reference)? {
                    return Ok(true);
                }
                let above = written_supertraits(alloc, cx, declarations, next)?;
                put_all(&mut waiting, &above)?;
            }
            None => return Ok(false),
        }
    }
    Ok(false)
}

/// Whether the trait reference is found among the supertraits of the where-clause at this position.
pub fn by_supertrait(
    alloc: Global,
    cx: &mut Interner,
    declarations: &Declarations,
    clauses: &[TraitRef],
    reference: TraitRef,
    place: usize,
) -> Result<bool, Fault>
    requires declared { AreHeld cx.old.entries declarations.now }
    requires bounds { HaveBounds cx.old.entries declarations.now }
    requires clauses { TraitRefsHeld cx.old.entries clauses.now }
    requires reference { ReferenceHeld cx.old.entries reference }
    ensures terms { GrewOrFull cx.old cx.new result }
    ensures rule { IfOk result (λ b. b ≡ true
        → IsSuperRule (declared cx.old.entries declarations.now) (terms_of cx.old.entries clauses.now) (term_of cx.old.entries reference) place) }
{
    if place < clauses.len() {
        is_supertrait_of(alloc, cx, declarations, reference, clauses[place])
    } else {
        Ok(false)
    }
}
