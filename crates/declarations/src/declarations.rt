//! The table of declarations.
ghost use Rattle.std.specs.Prelude.{◌≡◌, ◌==◌, ◌||◌, ◌-◌, List, [], ◌∷◌, ◌++◌, length, take, map, filter, true, if◌then◌else◌, Some, IfSome, IfErr, OnOk, OnErr};
ghost use Rattle.std.specs.Option.{option_map};
ghost use Rattle.type_terms.specs.Promised.Handles.{Entry, Has, types, trees_at};
ghost use Rattle.type_terms.specs.Terms.{args_lists};
ghost use Rattle.type_terms.specs.declared.Fault.TheVariants.{Memory};
ghost use Rattle.type_terms.specs.Promised.Erased.{erased_struct, erased_trait, erased_impl};
ghost use Rattle.type_terms.specs.Promised.Worlds.{structs_named, traits_named};
ghost use Rattle.type_terms.specs.Promised.Walks.{trait_is};
ghost use Rattle.term_folds.specs.Signatures.{StartsWithType};
ghost use Rattle.declarations.specs.Apart.{is_fixed};
ghost use Rattle.declarations.specs.Heads.{label_of, head_of, inner_head_of};
ghost use Rattle.declarations.specs.Index.{has_key, has_open_head, ids_of, inner_key};
ghost use Rattle.declarations.specs.Items.{IsOnly, first_items, ids_with, ids_headed, reference_in, with_struct, with_trait, with_impl, struct_in, trait_in, impl_in, struct_at, trait_at, impl_at, written, declared, held_impl, IsAbove};
ghost use Rattle.declarations.specs.Merges.{Rises, IsMerge};
ghost use Rattle.declarations.specs.Held.{AreHeld, ReferenceHeld, StructHeld, TraitHeld, ImplHeld};
ghost use Rattle.declarations.specs.Unsizing.{TellUnsizing};
ghost use Rattle.declarations.specs.Relevant.{impls_named, relevant_in, matches_in, is_above, next_above, CallsAtEach};
ghost use Rattle.declarations.specs.Walks.{header_meets, first_that};

use crate::apart::{are_apart, is_fixed};
use crate::heads::{ImplHead, ImplIds, ImplKey, add_keys, impls_with_key, take_last_of_keys};
use crate::items::{AdtDef, ImplDef, TraitDef};
use crate::merge::{first_above, for_each_merged, ids_above, smaller, split_smaller};
use crate::simplify::{SimplifiedType, matches_inner, simplify_inner, simplify_type};
use indexmap::IndexMap;
use std::alloc::Global;
use std::marker::Model;
use term_folds::predicate::TraitRef;
use type_terms::interner::Interner;
use type_terms::kinds::{GenericArgs, Ty};
use type_terms::{AdtId, CrateId, Fault, ImplId, TraitId};

/// An impl with the head and the inner head of its self type, and whether its header is fixed.
#[derive(Drop)]
struct ImplEntry {
    def: ImplDef,
    self_ty: Option<SimplifiedType>,
    inner: Option<SimplifiedType>,
    is_fixed: bool,
}

/// The second key of an impl. A fixed header is a key of its own, so that a fixed trait reference finds it without looking at others
/// with this trait and head.
fn own_key(head: ImplHead, header: TraitRef, is_fixed: bool) -> ImplKey
    ensures { result ≡ (if is_fixed then ImplKey.Fixed header else ImplKey.Open head) }
{
    if is_fixed {
        ImplKey::Fixed(header)
    } else {
        ImplKey::Open(head)
    }
}

/// The third key of an impl, by its inner head. It exists if the self type can match one that has an inner head.
fn inner_key(head: ImplHead, inner: Option<SimplifiedType>) -> Option<ImplKey>
    ensures { result ≡ inner_key head inner }
{
    match inner {
        Some(inner) => Some(ImplKey::Inner(head, inner)),
        None => {
            if matches_inner(head.self_ty) {
                Some(ImplKey::Shallow(head.trait_id))
            } else {
                None
            }
        }
    }
}

/// The structs, traits and impls that are visible to one crate, each found by its number. Impls of a trait are also found by the
/// heads of their self types, as in `TraitImpls` of the original. Beyond that they are found by inner heads and by fixed headers.
///
/// A contract sees them as lists in the order in which they were added. `declared` is their world without lifetimes, over the terms
/// of an interner. It has no list of crates: only items of visible crates are added. The terms are handles of one interner, which
/// may grow. No handle is made here.
pub struct Declarations {
    local: CrateId,
    adts: IndexMap<AdtId, AdtDef>,
    traits: IndexMap<TraitId, TraitDef>,
    impls: IndexMap<ImplId, ImplEntry>,
    keys: IndexMap<ImplKey, ImplIds>,
    alloc: Global,
}

// Written out, so that an owner drops it by one call at each exit.
impl Drop for Declarations {
    fn drop(self) {
        let Declarations {
            local: _,
            adts: _,
            traits: _,
            impls: _,
            keys: _,
            alloc: _,
        } = self;
    }
}

impl Model for Declarations {
    ghost use Rattle.declarations.specs.Items.{Items};

    ghost Value = { Items };

    ghost use Rattle.declarations.specs.Inside.{items_of, IndexIsSound};

    ghost view = { items_of };

    ghost invariant = { IndexIsSound };
}

impl Declarations {
    /// No declarations, for queries in the crate `local`. It takes no memory until the first item.
    pub fn new(alloc: Global, local: CrateId) -> Declarations
        ensures { result ≡ record { local = local.index; structs = []; traits = []; impls = [] } }
    {
        Declarations {
            local,
            adts: IndexMap::new(alloc),
            traits: IndexMap::new(alloc),
            impls: IndexMap::new(alloc),
            keys: IndexMap::new(alloc),
            alloc,
        }
    }

    /// Reserves room for so many further structs, traits and impls, so that the tables do not grow step by step. The error is `Memory`.
    pub fn reserve(&mut self, adts: usize, traits: usize, impls: usize) -> Result<(), Fault>
        ensures same { self.new ≡ self.old }
        ensures memory { IfErr result (λ fault. fault ≡ Memory) }
    {
        self.adts.reserve(adts)?;
        self.traits.reserve(traits)?;
        self.impls.reserve(impls)?;

        // An impl has two or three keys, and most have two that no other impl has.
        self.keys.reserve(impls.saturating_mul(2))?;
        Ok(())
    }

    /// The same declarations, for queries in another crate.
    pub fn ask_in(&mut self, local: CrateId)
        ensures asked { self.new ≡ record self.old { local = local.index } }
        ensures held { (es : List Entry) → AreHeld es self.old → AreHeld es self.new }
    {
        self.local = local;
    }

    /// Adds a struct, whose number is new. The error is `Memory`, and then nothing has changed.
    pub fn add_struct(&mut self, id: AdtId, def: AdtDef) -> Result<(), Fault>
        requires { structs_named (declared [] self.old) id.index ≡ [] }
        ensures added { OnOk result (self.new ≡ with_struct self.old (id, def)) }
        ensures declares { OnOk result ((es : List Entry)
            → (declared es self.new).structs ≡ (declared es self.old).structs ++ erased_struct (struct_in es (id, def)) ∷ []) }
        ensures held { OnOk result ((es : List Entry) → AreHeld es self.old → StructHeld es def → AreHeld es self.new) }
        ensures refused { OnErr result (self.new ≡ self.old) }
        ensures memory { IfErr result (λ fault. fault ≡ Memory) }
    {
        self.adts.insert(id, def)?;
        Ok(())
    }

    /// Adds a trait, whose number is new. The error is `Memory`, and then nothing has changed.
    pub fn add_trait(&mut self, id: TraitId, def: TraitDef) -> Result<(), Fault>
        requires { traits_named (declared [] self.old) id.index ≡ [] }
        ensures added { OnOk result (self.new ≡ with_trait self.old (id, def)) }
        ensures declares { OnOk result ((es : List Entry)
            → (declared es self.new).traits ≡ (declared es self.old).traits ++ erased_trait (trait_in es (id, def)) ∷ []) }
        ensures held { OnOk result ((es : List Entry) → AreHeld es self.old → TraitHeld es def → AreHeld es self.new) }
        ensures refused { OnErr result (self.new ≡ self.old) }
        ensures memory { IfErr result (λ fault. fault ≡ Memory) }
    {
        self.traits.insert(id, def)?;
        Ok(())
    }

    /// Adds an impl, whose number is above those of the others. Its self type is a parameter or has a head. The error is `Memory`, and
    /// then nothing has changed.
    pub fn add_impl(&mut self, cx: &Interner, id: ImplId, def: ImplDef) -> Result<(), Fault>
        requires above { IsAbove id.index self.old }
        requires held { ImplHeld cx.now.entries def }
        ensures added { OnOk result (self.new ≡ with_impl self.old (held_impl cx.now.entries id def)) }
        ensures declares { OnOk result ((es : List Entry)
            → (declared es self.new).impls ≡ (declared es self.old).impls ++ erased_impl (impl_in es id def) ∷ []) }
        ensures held { OnOk result (AreHeld cx.now.entries self.old → AreHeld cx.now.entries self.new) }
        ensures refused { OnErr result (self.new ≡ self.old) }
        ensures memory { IfErr result (λ fault. fault ≡ Memory) }
    {
        let header = def.header;
        let self_type = header.self_ty(cx);
        let self_ty = simplify_type(cx, self_type);
        let inner = simplify_inner(cx, self_type);
        let is_fixed = is_fixed(cx, header.args);
        let head = ImplHead {
            trait_id: header.def_id,
            self_ty,
        };
        let own = own_key(head, header, is_fixed);
        self.impls.reserve(1)?;
        let deep = inner_key(head, inner);
        add_keys(
            self.alloc,
            &mut self.keys,
            ImplKey::Headed(head),
            own,
            deep,
            id,
        )?;
        let entry = ImplEntry {
            def,
            self_ty,
            inner,
            is_fixed,
        };
        match self.impls.insert(id, entry) {
            Ok(_) => Ok(()),
            Err(_) => unreachable!(),
        }
    }

    /// Removes the impl that was added last, if there is one.
    fn pop_impl(&mut self)
        ensures { self.new ≡ record self.old { impls = take (length self.old.impls - 1) self.old.impls } }
    {
        match self.impls.pop() {
            Some((_, entry)) => {
                let header = entry.def.header;
                let head = ImplHead {
                    trait_id: header.def_id,
                    self_ty: entry.self_ty,
                };
                let own = own_key(head, header, entry.is_fixed);
                let deep = inner_key(head, entry.inner);
                take_last_of_keys(&mut self.keys, ImplKey::Headed(head), own, deep);
            }
            None => {}
        }
    }

    /// Keeps so many of the first structs, traits and impls, and removes the others. It takes the time of what it removes.
    pub fn truncate(&mut self, adts: usize, traits: usize, impls: usize)
        ensures kept { self.new ≡ first_items adts traits impls self.old }
        ensures held { (es : List Entry) → AreHeld es self.old → AreHeld es self.new }
    {
        self.adts.truncate(adts);
        self.traits.truncate(traits);
        'impls: while self.impls.len() > impls {
            self.pop_impl();
        }
    }

    /// The struct with a number, if it is declared (`adt_def`).
    pub fn adt_def(&self, id: AdtId) -> Option<&AdtDef>
        ensures is { option_map (λ def. def.now) result ≡ struct_at id.index self.now.structs }
        ensures found { (es : List Entry) → IsOnly (λ def. erased_struct (struct_in es (id, def.now))) result (structs_named (declared es self.now) id.index) }
        ensures written { (es : List Entry) → IsOnly (λ def. struct_in es (id, def.now)) result (structs_named (written es self.now) id.index) }
        ensures held { (es : List Entry) → AreHeld es self.now → IfSome result (λ def. StructHeld es def.now) }
    {
        let _ = self.adts.len();
        self.adts.get(&id)
    }

    /// For each parameter of a struct whether it is unsizing, if the struct is declared (`unsizing_params_for_adt`). In
    /// `struct S<T>(u8, V<T>)` the parameter is, and in `struct S<T>(T, V<T>)` it is not.
    pub fn unsizing_params_for_adt(&self, id: AdtId) -> Option<&[bool]>
        ensures { (es : List Entry) → AreHeld es self.now → TellUnsizing (λ flags. flags.now) result (structs_named (declared es self.now) id.index) }
    {
        match self.adt_def(id) {
            Some(def) => Some(&def.unsizing_params),
            None => None,
        }
    }

    /// The trait with a number, if it is declared (`trait_def`).
    pub fn trait_def(&self, id: TraitId) -> Option<&TraitDef>
        ensures is { option_map (λ def. def.now) result ≡ trait_at id.index self.now.traits }
        ensures found { (es : List Entry) → IsOnly (λ def. erased_trait (trait_in es (id, def.now))) result (traits_named (declared es self.now) id.index) }
        ensures written { (es : List Entry) → IsOnly (λ def. trait_in es (id, def.now)) result (traits_named (written es self.now) id.index) }
        ensures held { (es : List Entry) → AreHeld es self.now → IfSome result (λ def. TraitHeld es def.now) }
    {
        let _ = self.traits.len();
        self.traits.get(&id)
    }

    /// The impl with a number, if it is declared.
    pub fn impl_def(&self, id: ImplId) -> Option<&ImplDef>
        ensures is { option_map (λ def. def.now) result ≡ impl_at id.index self.now.impls }
        ensures found { (es : List Entry) → IsOnly (λ def. erased_impl (impl_in es id def.now)) result (impls_named (declared es self.now) id.index) }
        ensures written { (es : List Entry) → IsOnly (λ def. impl_in es id def.now) result (impls_named (written es self.now) id.index) }
        ensures held { (es : List Entry) → AreHeld es self.now → IfSome result (λ def. ImplHeld es def.now) }
    {
        let _ = self.impls.len();
        match self.impls.get(&id) {
            Some(entry) => Some(&entry.def),
            None => None,
        }
    }

    /// Whether the crate is the local one (`DefId::is_local`).
    pub fn is_local(&self, home: CrateId) -> bool
        ensures { result ≡ (home.index == self.now.local) }
    {
        home == self.local
    }

    /// Whether the trait is declared `#[fundamental]` (`trait_is_fundamental`).
    pub fn trait_is_fundamental(&self, id: TraitId) -> bool
        ensures { (es : List Entry) → result ≡ trait_is (λ x. x.is_fundamental) (declared es self.now) id.index }
    {
        match self.trait_def(id) {
            Some(def) => def.is_fundamental,
            None => false,
        }
    }

    /// Whether the trait of the reference is local or fundamental (`trait_ref_is_local_or_fundamental`). If so, no other crate may add
    /// an impl for a local type.
    pub fn trait_ref_is_local_or_fundamental(&self, trait_ref: TraitRef) -> bool
        ensures { (es : List Entry) → result ≡ trait_is (λ x. (x.home == self.now.local) || x.is_fundamental) (declared es self.now) trait_ref.def_id.index }
    {
        match self.trait_def(trait_ref.def_id) {
            Some(def) => self.is_local(def.home) || def.is_fundamental,
            None => false,
        }
    }

    /// Calls `f` for each impl of the trait that can match the self type, by rising number (`for_each_relevant_impl`). The impl's self
    /// type is a parameter or has the same head. No other impl is looked at.
    ///
    /// `impl<T> Show for T` and `impl Show for V<u8>` can match `V<bool>`, but `impl Show for u8` cannot.
    pub fn for_each_relevant_impl<F: FnMut(ImplId)>(
        &self,
        cx: &Interner,
        trait_id: TraitId,
        self_ty: Ty,
        f: F,
    )
        requires held { AreHeld cx.now.entries self.now }
        requires self_held { Has cx.now.entries types self_ty.0 }
        requires callable { F.IsAlwaysCallable f }
        ensures { CallsAtEach (λ p x q. F.step p x tt q) f (relevant_in cx.now.entries self.now trait_id.index (trees_at cx.now.entries self_ty.0)) }
    {
        cx.lawful();
        let blanket = self.impls_with(trait_id, None);
        let same_head = self.with_head(trait_id, simplify_type(cx, self_ty));
        for_each_merged(blanket, same_head, f);
    }

    /// The first impl above `last` of those that `for_each_relevant_impl` visits. A visit of these impls may stop at each and continue
    /// after it, without looking at the previous ones again.
    pub fn next_relevant_impl(
        &self,
        cx: &Interner,
        trait_id: TraitId,
        self_ty: Ty,
        last: Option<ImplId>,
    ) -> Option<ImplId>
        requires held { AreHeld cx.now.entries self.now }
        requires self_held { Has cx.now.entries types self_ty.0 }
        ensures is { option_map (λ i. i.index) result
            ≡ next_above last (relevant_in cx.now.entries self.now trait_id.index (trees_at cx.now.entries self_ty.0)) }
        ensures rises { Rises (map (λ i. i.id) self.now.impls) }
    {
        cx.lawful();
        let same_head = self.with_head(trait_id, simplify_type(cx, self_ty));
        smaller(
            first_above(self.impls_with(trait_id, None), last),
            first_above(same_head, last),
        )
    }

    /// The first impl above `last` that can match a trait reference. It is one that `for_each_relevant_impl` visits, and its arguments
    /// are not disjoint from the reference's (`are_apart`). So `[u8; 1]` can match `impl Show for [u8; 1]` and
    /// `impl<T> Show for [T; 1]`, but neither `impl Show for [u8; 2]` nor `impl<T> Show for [T; 2]`. `V<S, ?x>` can match
    /// `impl<U> Show for V<S, U>`, but not `impl<U> Show for V<R, U>`. This is a part of `DeepRejectCtxt` of the original.
    ///
    /// It looks once at each impl above `last` with the trait and the head, or no head, up to the one that it returns. There are two
    /// exceptions. A fixed reference skips other fixed headers: the one that it matches is found by its handle. An open reference for
    /// `&V<T>` skips impls for another type below `&`, such as `&W`. The same holds for `&mut`, raw pointers and slices.
    pub fn next_matching_impl(
        &self,
        cx: &Interner,
        trait_ref: TraitRef,
        last: Option<ImplId>,
    ) -> Option<ImplId>
        requires held { AreHeld cx.now.entries self.now }
        requires reference { ReferenceHeld cx.now.entries trait_ref }
        requires first { StartsWithType (trees_at cx.now.entries trait_ref.args.0) }
        ensures is { option_map (λ i. i.index) result ≡ next_above last (matches_in cx.now.entries self.now (reference_in cx.now.entries trait_ref)) }
        ensures rises { Rises (map (λ i. i.id) self.now.impls) }
    {
        cx.lawful();
        let self_type = trait_ref.self_ty(cx);
        let head = simplify_type(cx, self_type);
        if is_fixed(cx, trait_ref.args) {
            return self.next_of_fixed(cx, trait_ref, head, last);
        }
        match simplify_inner(cx, self_type) {
            Some(inner) => self.next_of_inner(cx, trait_ref, head, inner, last),
            None => self.next_of_open(cx, trait_ref, head, last),
        }
    }

    /// `next_matching_impl` for a trait reference whose self type has an inner head. Impls with another inner head are disjoint from it.
    fn next_of_inner(
        &self,
        cx: &Interner,
        trait_ref: TraitRef,
        self_ty: Option<SimplifiedType>,
        inner: SimplifiedType,
        last: Option<ImplId>,
    ) -> Option<ImplId>
        requires held { AreHeld cx.now.entries self.now }
        requires reference { ReferenceHeld cx.now.entries trait_ref }
        requires first { StartsWithType (trees_at cx.now.entries trait_ref.args.0) }
        requires head { option_map label_of self_ty ≡ head_of (trees_at cx.now.entries trait_ref.args.0) }
        requires inner { Some (label_of inner) ≡ inner_head_of (trees_at cx.now.entries trait_ref.args.0) }
        ensures is { option_map (λ i. i.index) result ≡ next_above last (matches_in cx.now.entries self.now (reference_in cx.now.entries trait_ref)) }
        ensures rises { Rises (map (λ i. i.id) self.now.impls) }
    {
        let trait_id = trait_ref.def_id;
        let shallow = self.with_key(ImplKey::Shallow(trait_id));
        let same_inner = self.with_key(ImplKey::Inner(ImplHead { trait_id, self_ty }, inner));
        self.next_meeting(cx, trait_ref.args, shallow, same_inner, last)
    }

    /// `next_matching_impl` for a trait reference that is not fixed, and whose self type has no inner head.
    fn next_of_open(
        &self,
        cx: &Interner,
        trait_ref: TraitRef,
        self_ty: Option<SimplifiedType>,
        last: Option<ImplId>,
    ) -> Option<ImplId>
        requires held { AreHeld cx.now.entries self.now }
        requires reference { ReferenceHeld cx.now.entries trait_ref }
        requires first { StartsWithType (trees_at cx.now.entries trait_ref.args.0) }
        requires head { option_map label_of self_ty ≡ head_of (trees_at cx.now.entries trait_ref.args.0) }
        ensures is { option_map (λ i. i.index) result ≡ next_above last (matches_in cx.now.entries self.now (reference_in cx.now.entries trait_ref)) }
        ensures rises { Rises (map (λ i. i.id) self.now.impls) }
    {
        let blanket = self.impls_with(trait_ref.def_id, None);
        let same_head = self.with_head(trait_ref.def_id, self_ty);
        self.next_meeting(cx, trait_ref.args, blanket, same_head, last)
    }

    /// `next_matching_impl` for a fixed trait reference: an impl whose header is not fixed, or the one with this header.
    fn next_of_fixed(
        &self,
        cx: &Interner,
        trait_ref: TraitRef,
        self_ty: Option<SimplifiedType>,
        last: Option<ImplId>,
    ) -> Option<ImplId>
        requires held { AreHeld cx.now.entries self.now }
        requires reference { ReferenceHeld cx.now.entries trait_ref }
        requires first { StartsWithType (trees_at cx.now.entries trait_ref.args.0) }
        requires head { option_map label_of self_ty ≡ head_of (trees_at cx.now.entries trait_ref.args.0) }
        requires fixed { is_fixed (trees_at cx.now.entries trait_ref.args.0) ≡ true }
        ensures is { option_map (λ i. i.index) result ≡ next_above last (matches_in cx.now.entries self.now (reference_in cx.now.entries trait_ref)) }
        ensures rises { Rises (map (λ i. i.id) self.now.impls) }
    {
        cx.lawful();
        let trait_id = trait_ref.def_id;
        let open_blanket = self.with_key(ImplKey::Open(ImplHead {
            trait_id,
            self_ty: None,
        }));
        let open_same_head = self.open_with_head(trait_id, self_ty);
        let own = self.with_key(ImplKey::Fixed(trait_ref));
        let open = self.next_meeting(cx, trait_ref.args, open_blanket, open_same_head, last);
        smaller(open, first_above(own, last))
    }

    /// The first impl above `last` of two lists whose header is not disjoint from these arguments. It visits the lists once.
    fn next_meeting(
        &self,
        cx: &Interner,
        args: GenericArgs,
        first: &[ImplId],
        second: &[ImplId],
        last: Option<ImplId>,
    ) -> Option<ImplId>
        requires held { AreHeld cx.now.entries self.now }
        requires args { Has cx.now.entries args_lists args.0 }
        requires first { Rises first.now }
        requires second { Rises second.now }
        ensures { (ids : List ImplId) → IsMerge first.now second.now ids → Rises ids
            → result ≡ first_that (header_meets cx.now.entries self.now (trees_at cx.now.entries args.0)) (filter (λ i. is_above last i.index) ids) }
    {
        let mut first_rest = ids_above(first, last);
        let mut second_rest = ids_above(second, last);
        'impls: while let Some((id, first_left, second_left)) = split_smaller(
            first_rest,
            second_rest,
        ) {
            if self.header_meets(cx, args, id) {
                return Some(id);
            }
            first_rest = first_left;
            second_rest = second_left;
        }
        None
    }

    /// Whether the arguments of an impl's header are not disjoint from these.
    fn header_meets(&self, cx: &Interner, args: GenericArgs, id: ImplId) -> bool
        requires held { AreHeld cx.now.entries self.now }
        requires args { Has cx.now.entries args_lists args.0 }
        ensures { result ≡ header_meets cx.now.entries self.now (trees_at cx.now.entries args.0) id }
    {
        match self.impl_def(id) {
            Some(def) => !are_apart(cx, args, def.header.args),
            None => false,
        }
    }

    /// The impls that have the key.
    fn with_key(&self, key: ImplKey) -> &[ImplId]
        ensures is { result.now ≡ ids_of (has_key key) self.now.impls }
        ensures rises { Rises (map (λ i. i.id) self.now.impls) }
    {
        impls_with_key(&self.keys, key)
    }

    /// The impls of a trait whose self type has that head, or without a head those whose self type is a parameter.
    fn impls_with(&self, trait_id: TraitId, self_ty: Option<SimplifiedType>) -> &[ImplId]
        ensures is { result.now ≡ ids_with trait_id.index (option_map label_of self_ty) self.now.impls }
        ensures rises { Rises (map (λ i. i.id) self.now.impls) }
    {
        self.with_key(ImplKey::Headed(ImplHead { trait_id, self_ty }))
    }

    /// The impls of a trait whose self type has that head and whose header is not fixed. Without a head there are none.
    fn open_with_head(&self, trait_id: TraitId, self_ty: Option<SimplifiedType>) -> &[ImplId]
        ensures { result.now ≡ ids_of (has_open_head trait_id self_ty) self.now.impls }
    {
        match self_ty {
            Some(_) => self.with_key(ImplKey::Open(ImplHead { trait_id, self_ty })),
            None => &[],
        }
    }

    /// The impls of a trait whose self type has that head. Without a head there are none.
    fn with_head(&self, trait_id: TraitId, self_ty: Option<SimplifiedType>) -> &[ImplId]
        ensures { result.now ≡ ids_headed trait_id.index (option_map label_of self_ty) self.now.impls }
    {
        match self_ty {
            Some(_) => self.impls_with(trait_id, self_ty),
            None => &[],
        }
    }
}
