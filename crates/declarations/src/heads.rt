//! Impls by their trait and the heads of their self type, and by their header.
ghost use Rattle.std.specs.Prelude.{◌≡◌, ◌||◌, ◌++◌, ◌∷◌, [], true, false, List, OnOk, OnErr, IfErr, if◌then◌else◌};
ghost use Rattle.type_terms.specs.declared.ImplId.{ImplId};
ghost use Rattle.type_terms.specs.declared.Fault.TheVariants.{Memory};
ghost use Rattle.declarations.specs.Index.{ids_in, listed, is_key, is_that_key};

use crate::simplify::SimplifiedType;
use indexmap::IndexMap;
use std::alloc::{AllocError, Global};
use std::slice::from_ref;
use term_folds::predicate::TraitRef;
use type_terms::{Fault, ImplId, TraitId};

/// The trait of an impl and the head of its self type; no head for a blanket impl, whose self type is a parameter.
#[derive(Clone, Copy, PartialEq, Eq, Hash)]
pub(crate) struct ImplHead {
    pub trait_id: TraitId,
    pub self_ty: Option<SimplifiedType>,
}

/// What impls are found by.
#[derive(Clone, Copy, PartialEq, Eq, Hash)]
pub(crate) enum ImplKey {
    /// Those with this trait and head.
    Headed(ImplHead),
    /// Those with this trait and head whose headers are not fixed.
    Open(ImplHead),
    /// Those whose header is this one, which is fixed.
    Fixed(TraitRef),
    /// Those with this trait whose self type has no inner head but can match one that has: `T`, `&T`, `&mut T`, `*const T`, `*mut T`
    /// and `[T]`.
    Shallow(TraitId),
    /// Those with this trait and head, and this head one level below: for `&V<T>` they are `&` and `V`.
    Inner(ImplHead, SimplifiedType),
}

/// Impls by rising number. A single one takes no memory of its own, and few keys have more.
#[derive(Drop)]
pub(crate) enum ImplIds {
    Empty,
    One(ImplId),
    More(Vec<ImplId>),
}

impl ImplIds {
    fn as_slice(&self) -> &[ImplId]
        ensures { result.now ≡ ids_in self.now }
    {
        match self {
            ImplIds::Empty => &[],
            ImplIds::One(id) => from_ref(id),
            ImplIds::More(ids) => ids,
        }
    }

    /// Appends an impl.
    fn push(&mut self, alloc: Global, id: ImplId) -> Result<(), AllocError>
        ensures pushed { OnOk result (ids_in self.new ≡ ids_in self.old ++ id ∷ []) }
        ensures refused { OnErr result (ids_in self.new ≡ ids_in self.old) }
    {
        match self {
            ImplIds::Empty => *self = ImplIds::One(id),
            ImplIds::One(first) => {
                let ids = vec![in alloc; *first, id]?;
                *self = ImplIds::More(ids);
            }
            ImplIds::More(ids) => ids.push(id)?,
        }
        Ok(())
    }

    /// Removes the last one.
    fn pop(&mut self)
        ensures { (ids : List ImplId) (id : ImplId) → ids_in self.old ≡ ids ++ id ∷ [] → ids_in self.new ≡ ids }
    {
        match self {
            ImplIds::Empty => {}
            ImplIds::One(_) => *self = ImplIds::Empty,
            ImplIds::More(ids) => {
                let _ = ids.pop();
            }
        }
    }
}

/// The impls that have a key, in the order in which they were added.
pub(crate) fn impls_with_key(keys: &IndexMap<ImplKey, ImplIds>, key: ImplKey) -> &[ImplId]
    ensures { result.now ≡ listed keys.now key }
{
    match keys.get(&key) {
        Some(impls) => impls.as_slice(),
        None => &[],
    }
}

/// Appends an impl to those that have the key.
fn add_key(
    alloc: Global,
    keys: &mut IndexMap<ImplKey, ImplIds>,
    key: ImplKey,
    id: ImplId,
) -> Result<(), Fault>
    ensures added { OnOk result ((k : ImplKey) → listed keys.new k ≡ (if is_key key k then listed keys.old k ++ id ∷ [] else listed keys.old k)) }
    ensures refused { OnErr result ((k : ImplKey) → listed keys.new k ≡ listed keys.old k) }
    ensures memory { IfErr result (λ fault. fault ≡ Memory) }
{
    match keys.get_mut(&key) {
        Some(impls) => impls.push(alloc, id)?,
        None => {
            keys.insert(key, ImplIds::One(id))?;
        }
    }
    Ok(())
}

/// Removes the last impl of those that have the key.
fn take_last(keys: &mut IndexMap<ImplKey, ImplIds>, key: ImplKey)
    ensures taken { (ids : List ImplId) (id : ImplId) → listed keys.old key ≡ ids ++ id ∷ [] → listed keys.new key ≡ ids }
    ensures others { (k : ImplKey) → is_key key k ≡ false → listed keys.new k ≡ listed keys.old k }
{
    match keys.get_mut(&key) {
        Some(impls) => impls.pop(),
        None => {}
    }
}

/// Appends an impl to those that have the first key and to those that have the second, or to none after an error.
fn add_two_keys(
    alloc: Global,
    keys: &mut IndexMap<ImplKey, ImplIds>,
    first: ImplKey,
    second: ImplKey,
    id: ImplId,
) -> Result<(), Fault>
    requires apart { (k : ImplKey) → is_key first k ≡ true → is_key second k ≡ false }
    ensures added { OnOk result ((k : ImplKey) → listed keys.new k
        ≡ (if is_key first k || is_key second k then listed keys.old k ++ id ∷ [] else listed keys.old k)) }
    ensures refused { OnErr result ((k : ImplKey) → listed keys.new k ≡ listed keys.old k) }
    ensures memory { IfErr result (λ fault. fault ≡ Memory) }
{
    add_key(alloc, keys, first, id)?;
    match add_key(alloc, keys, second, id) {
        Ok(()) => Ok(()),
        Err(fault) => {
            take_last(keys, first);
            Err(fault)
        }
    }
}

/// Appends an impl to those that have one of these keys, or to none after an error.
pub(crate) fn add_keys(
    alloc: Global,
    keys: &mut IndexMap<ImplKey, ImplIds>,
    first: ImplKey,
    second: ImplKey,
    third: Option<ImplKey>,
    id: ImplId,
) -> Result<(), Fault>
    requires apart { (k : ImplKey) → is_key first k ≡ true → is_key second k ≡ false }
    requires third_apart { (k : ImplKey) → (is_key first k || is_key second k) ≡ true → is_that_key third k ≡ false }
    ensures added { OnOk result ((k : ImplKey) → listed keys.new k
        ≡ (if (is_key first k || is_key second k) || is_that_key third k then listed keys.old k ++ id ∷ [] else listed keys.old k)) }
    ensures refused { OnErr result ((k : ImplKey) → listed keys.new k ≡ listed keys.old k) }
    ensures memory { IfErr result (λ fault. fault ≡ Memory) }
{
    match third {
        None => add_two_keys(alloc, keys, first, second, id),
        Some(key) => {
            add_key(alloc, keys, key, id)?;
            match add_two_keys(alloc, keys, first, second, id) {
                Ok(()) => Ok(()),
                Err(fault) => {
                    take_last(keys, key);
                    Err(fault)
                }
            }
        }
    }
}

/// Removes the last impl of those that have the first key, of those that have the second, and of those that have the third if it exists.
/// It undoes `add_keys`.
pub(crate) fn take_last_of_keys(
    keys: &mut IndexMap<ImplKey, ImplIds>,
    first: ImplKey,
    second: ImplKey,
    third: Option<ImplKey>,
)
    requires apart { (k : ImplKey) → is_key first k ≡ true → is_key second k ≡ false }
    requires third_apart { (k : ImplKey) → (is_key first k || is_key second k) ≡ true → is_that_key third k ≡ false }
    ensures { (id : ImplId) (rest : ImplKey → List ImplId)
        → ((k : ImplKey) → listed keys.old k ≡ (if (is_key first k || is_key second k) || is_that_key third k then rest k ++ id ∷ [] else rest k))
        → (k : ImplKey) → listed keys.new k ≡ rest k }
{
    take_last(keys, first);
    take_last(keys, second);
    match third {
        Some(key) => take_last(keys, key),
        None => {}
    }
}
