//! Terms and their numbers.

ghost use Rattle.std.specs.Prelude.{◌≡◌, ◌≤◌, ◌∷◌, ◌++◌, ◌⊎◌, [], Any, None, Some, Ok, Err, IfOk, IfErr, IsOk, IsErr, OnOk, OnErr, length, slice_get, map};

use crate::assumption::Assumption;
use crate::error::InferenceError;
use crate::open_snapshot::OpenSnapshot;
use crate::term_id::TermId;
use infer_table::certainty::EqError;
use std::alloc::{AllocError, Global};
use type_terms::kinds::GenericArgKind;
use type_terms::{Fault, TraitId};

/// The term with this number.
pub(crate) fn term_at(
    terms: &[GenericArgKind],
    id: TermId,
) -> Result<GenericArgKind, InferenceError>
    ensures there { IfOk result (λ a. slice_get terms.now id.index ≡ Some a) }
    ensures error { IfErr result (λ e. e ≡ InferenceError.NoSuchTerm) }
    ensures none { OnErr result (length terms.now ≤ id.index) }
{
    match terms.get(id.index) {
        Some(term) => Ok(*term),
        None => Err(InferenceError::NoSuchTerm),
    }
}

/// The terms with these numbers, in their order.
pub(crate) fn terms_at(
    alloc: Global,
    terms: &[GenericArgKind],
    ids: &[TermId],
) -> Result<Vec<GenericArgKind>, InferenceError>
    ensures there { IfOk result (λ list. map (λ id. slice_get terms.now id.index) ids.now ≡ map Some list.items) }
    ensures none { result ≡ Err InferenceError.NoSuchTerm → Any (λ id. length terms.now ≤ id.index) ids.now }
    ensures memory { (f : Fault) → result ≡ Err (InferenceError.Fault f) → f ≡ Fault.Memory }
    ensures parts { result ≡ Err InferenceError.WrongParts → ⊥ }
{
    let mut list = Vec::new(alloc);
    'ids: for id in ids {
        let term = term_at(terms, *id)?;
        list.push(term)?;
    }
    Ok(list)
}

/// The number of a term that was made, behind the others.
pub(crate) fn numbered(
    terms: &mut Vec<GenericArgKind>,
    made: Result<GenericArgKind, Fault>,
) -> Result<TermId, Fault>
    ensures number { IfOk result (λ id. id.index ≡ length terms.old.items) }
    ensures added { IfOk result (λ id. (a : GenericArgKind) × (made ≡ Ok a) × (terms.new.items ≡ terms.old.items ++ a ∷ [])) }
    ensures refused { OnErr result (terms.new.items ≡ terms.old.items) }
    ensures fault { IfErr result (λ e. (e ≡ Fault.Memory) ⊎ (made ≡ Err e)) }
{
    let term = made?;
    let id = TermId { index: terms.len() };
    terms.push(term)?;
    Ok(id)
}

/// What a call gives, whose only errors are faults.
pub(crate) fn given<T: Drop>(made: Result<T, Fault>) -> Result<T, InferenceError>
    ensures ok { IfOk result (λ x. made ≡ Ok x) }
    ensures fault { IfErr result (λ e. (f : Fault) × (made ≡ Err f) × (e ≡ InferenceError.Fault f)) }
{
    match made {
        Ok(x) => Ok(x),
        Err(fault) => Err(InferenceError::Fault(fault)),
    }
}

/// What an equation gives.
pub(crate) fn equated(made: Result<(), EqError>) -> Result<(), InferenceError>
    ensures ok { OnOk result (IsOk made) }
    ensures err { OnErr result (IsErr made) }
    ensures none { result ≡ Err InferenceError.NoSolution → made ≡ Err EqError.NoSolution }
    ensures fault { (f : Fault) → result ≡ Err (InferenceError.Fault f) → made ≡ Err (EqError.Fault f) }
    ensures terms { result ≡ Err InferenceError.NoSuchTerm → ⊥ }
{
    match made {
        Ok(()) => Ok(()),
        Err(EqError::NoSolution) => Err(InferenceError::NoSolution),
        Err(EqError::Fault(fault)) => Err(InferenceError::Fault(fault)),
    }
}

/// Adds an assumption behind the others. Fails if memory is refused.
pub(crate) fn assumed(
    alloc: Global,
    assumptions: &mut Vec<Assumption>,
    trait_id: TraitId,
    ids: &[TermId],
) -> Result<(), InferenceError>
    ensures added { OnOk result ((a : Assumption) × (assumptions.new.items ≡ assumptions.old.items ++ a ∷ [])
        × (a.trait_id ≡ trait_id) × (a.args.items ≡ ids.now)) }
    ensures refused { OnErr result (assumptions.new.items ≡ assumptions.old.items) }
    ensures memory { IfErr result (λ e. e ≡ InferenceError.Fault Fault.Memory) }
{
    let args = ids.to_vec(alloc)?;
    assumptions.push(Assumption { trait_id, args })?;
    Ok(())
}

/// Adds a snapshot behind the others. Fails if memory is refused.
pub(crate) fn opened(
    snapshots: &mut Vec<OpenSnapshot>,
    taken: OpenSnapshot,
) -> Result<(), AllocError>
    ensures added { OnOk result (snapshots.new.items ≡ snapshots.old.items ++ taken ∷ []) }
    ensures refused { OnErr result (snapshots.new.items ≡ snapshots.old.items) }
{
    snapshots.push(taken)?;
    Ok(())
}

/// The number of a term that was made if a shape takes its parts, behind the others.
pub(crate) fn numbered_there(
    terms: &mut Vec<GenericArgKind>,
    made: Result<Option<GenericArgKind>, Fault>,
) -> Result<TermId, InferenceError>
    ensures number { IfOk result (λ id. id.index ≡ length terms.old.items) }
    ensures added { IfOk result (λ id. (a : GenericArgKind) × (made ≡ Ok (Some a)) × (terms.new.items ≡ terms.old.items ++ a ∷ [])) }
    ensures refused { OnErr result (terms.new.items ≡ terms.old.items) }
    ensures fault { (f : Fault) → result ≡ Err (InferenceError.Fault f) → (f ≡ Fault.Memory) ⊎ (made ≡ Err f) }
    ensures none { result ≡ Err InferenceError.WrongParts → made ≡ Ok None }
    ensures terms { result ≡ Err InferenceError.NoSuchTerm → ⊥ }
{
    match made {
        Err(fault) => Err(InferenceError::Fault(fault)),
        Ok(None) => Err(InferenceError::WrongParts),
        Ok(Some(term)) => given(numbered(terms, Ok(term))),
    }
}
