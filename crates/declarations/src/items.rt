//! Structs, traits and impls as they are declared, with their terms as handles.
ghost use Rattle.std.specs.Prelude.{◌≡◌, IfErr, IfOk};
ghost use Rattle.type_terms.specs.Promised.Handles.{Has, types};
ghost use Rattle.type_terms.specs.declared.Fault.TheVariants.{Memory};
ghost use Rattle.declarations.specs.Promised.Elaboration.{Each};
ghost use Rattle.declarations.specs.Held.{StructHeld};

use crate::unsizing::unsizing_params;
use std::alloc::Global;
use term_folds::predicate::TraitRef;
use type_terms::interner::Interner;
use type_terms::kinds::Ty;
use type_terms::{CrateId, Fault};

/// The kind of a parameter (`GenericParamDefKind`).
#[derive(Clone, Copy, PartialEq, Eq, Hash)]
pub enum GenericParamKind {
    Lifetime,
    Type,
    Const,
}

/// A struct (`AdtDef`). `fundamental struct Box<T>(*const T)` has one parameter and one field.
pub struct AdtDef {
    /// The crate that declares it.
    pub home: CrateId,
    /// Whether it is `#[fundamental]` (RFC 1023).
    pub is_fundamental: bool,
    /// Its parameters. A term refers to them by index, from 0.
    pub params: Vec<GenericParamKind>,
    pub fields: Vec<Ty>,
    /// For each parameter whether it is unsizing: the last field mentions it and no earlier one does (RFC 982).
    pub unsizing_params: Vec<bool>,
}

// Written out, so that an owner drops it by one call at each exit.
impl Drop for AdtDef {
    fn drop(self) {
        let AdtDef {
            home: _,
            is_fundamental: _,
            params: _,
            fields: _,
            unsizing_params: _,
        } = self;
    }
}

impl AdtDef {
    /// A struct. Its fields tell which parameters are unsizing. The error is `Memory`.
    pub fn new(
        alloc: Global,
        cx: &Interner,
        home: CrateId,
        is_fundamental: bool,
        params: Vec<GenericParamKind>,
        fields: Vec<Ty>,
    ) -> Result<AdtDef, Fault>
        requires { Each (λ t. Has cx.now.entries types t.0) fields.items }
        ensures home { IfOk result (λ def. def.home ≡ home) }
        ensures is_fundamental { IfOk result (λ def. def.is_fundamental ≡ is_fundamental) }
        ensures params { IfOk result (λ def. def.params ≡ params) }
        ensures fields { IfOk result (λ def. def.fields ≡ fields) }
        ensures held { IfOk result (StructHeld cx.now.entries) }
        ensures memory { IfErr result (λ fault. fault ≡ Memory) }
    {
        let unsizing_params = unsizing_params(alloc, cx, &fields, params.len())?;
        Ok(AdtDef {
            home,
            is_fundamental,
            params,
            fields,
            unsizing_params,
        })
    }
}

/// A trait (`TraitDef`). `trait Sub<U>: Sup<U>` has two parameters, the first of which is `Self`, and one bound.
pub struct TraitDef {
    /// The crate that declares it.
    pub home: CrateId,
    /// Whether it is `#[fundamental]` (RFC 1023).
    pub is_fundamental: bool,
    /// Whether it is declared `auto`: proofs may be cyclic, and types implement it by their parts (RFC 19).
    pub is_auto: bool,
    /// `Self` and its further parameters. A term refers to them by index, from 0.
    pub params: Vec<GenericParamKind>,
    /// The supertraits as declared. Their self type is parameter 0.
    pub bounds: Vec<TraitRef>,
}

// Written out, so that an owner drops it by one call at each exit.
impl Drop for TraitDef {
    fn drop(self) {
        let TraitDef {
            home: _,
            is_fundamental: _,
            is_auto: _,
            params: _,
            bounds: _,
        } = self;
    }
}

/// An impl (`ImplTraitHeader`). `impl<T> Show for V<T> where T: Show` has one parameter, the header `V<T>: Show` and one
/// where-clause.
pub struct ImplDef {
    /// The crate that declares it.
    pub home: CrateId,
    /// Its parameters. A term refers to them by index, from 0.
    pub params: Vec<GenericParamKind>,
    /// The trait reference that it proves.
    pub header: TraitRef,
    /// The where-clauses as declared, over the same parameters as the header.
    pub clauses: Vec<TraitRef>,
}

// Written out, so that an owner drops it by one call at each exit.
impl Drop for ImplDef {
    fn drop(self) {
        let ImplDef {
            home: _,
            params: _,
            header: _,
            clauses: _,
        } = self;
    }
}
