//! Calls of inference, by numbers and names.

ghost use Rattle.std.specs.Prelude.{◌≡◌, ◌≢◌, ◌≤◌, Ok, Err, IfOk, IfSome, IsErr, OnErr, OnSome, map};
ghost use Rattle.coherence.specs.TextLanguage.Output.{Names, type_text};
ghost use Rattle.sessions.specs.Promised.Subjects.{StaysOn};
ghost use Rattle.session_inference.specs.Primitives.{primitive_trees};
ghost use Rattle.session_inference.specs.declared.error.InferenceError.TheVariants as error;
ghost use Rattle.type_terms.specs.declared.Fault.TheVariants.{Memory};
ghost use Rattle.celtisdarts_c.specs.declared.call.Refusal.TheVariants as refusal;
ghost use Rattle.session_inference.specs.Operations.{StaysAsItWas};
ghost use Rattle.celtisdarts_c.specs.Calls.{HasText, IsAboutNumber, IsNamedType, IsOperationOf, IsRefusedCall, IsTrait, LacksAnything, Performs, budget_of, operation_number, shape_number};

use session_inference::{
    InferenceError, InferenceSession, ObligationId, Operation, Primitive, Shape, TermId,
};
use std::alloc::{AllocError, Global};
use text_tables::{Known, ParamKind};
use type_terms::kinds::{GenericArgKind, IntTy, Mutability, UintTy};
use type_terms::{Fault, TraitId};

/// A call of inference: its operation, and what it is about.
#[derive(Clone, Copy)]
pub struct Call<'a> {
    pub operation: u32,
    pub name: &'a [u8],
    pub terms: &'a [u32],
    pub number: u64,
}

/// Why a call was not made.
#[derive(Clone, Copy)]
pub enum Refusal {
    /// There is no operation of this number.
    NoOperation,
    /// The crate sees no struct, or no trait, of this name.
    NoName,
    /// It takes other terms.
    OtherTerms,
    /// What the session said.
    Session(InferenceError),
}

impl From<InferenceError> for Refusal {
    ghost from_gives = { λ error r. r ≡ refusal.Session error };

    fn from(error: InferenceError) -> Refusal {
        Refusal::Session(error)
    }
}

impl From<AllocError> for Refusal {
    ghost from_gives = { λ _ r. r ≡ refusal.Session (error.Fault Memory) };

    fn from(_error: AllocError) -> Refusal {
        Refusal::Session(InferenceError::Fault(Fault::Memory))
    }
}

/// The types without parts.
const PRIMITIVES: [Primitive; 16] = [
    Primitive::Bool,
    Primitive::Char,
    Primitive::Str,
    Primitive::Never,
    Primitive::Int(IntTy::I8),
    Primitive::Int(IntTy::I16),
    Primitive::Int(IntTy::I32),
    Primitive::Int(IntTy::I64),
    Primitive::Int(IntTy::I128),
    Primitive::Int(IntTy::Isize),
    Primitive::Uint(UintTy::U8),
    Primitive::Uint(UintTy::U16),
    Primitive::Uint(UintTy::U32),
    Primitive::Uint(UintTy::U64),
    Primitive::Uint(UintTy::U128),
    Primitive::Uint(UintTy::Usize),
];

/// The text of a type without parts.
fn primitive_text(primitive: Primitive) -> &'static [u8]
    ensures { (N : Names) → result.now ≡ type_text N (primitive_trees primitive) }
{
    match primitive {
        Primitive::Bool => b"bool",
        Primitive::Char => b"char",
        Primitive::Str => b"str",
        Primitive::Never => b"!",
        Primitive::Int(IntTy::I8) => b"i8",
        Primitive::Int(IntTy::I16) => b"i16",
        Primitive::Int(IntTy::I32) => b"i32",
        Primitive::Int(IntTy::I64) => b"i64",
        Primitive::Int(IntTy::I128) => b"i128",
        Primitive::Int(IntTy::Isize) => b"isize",
        Primitive::Uint(UintTy::U8) => b"u8",
        Primitive::Uint(UintTy::U16) => b"u16",
        Primitive::Uint(UintTy::U32) => b"u32",
        Primitive::Uint(UintTy::U64) => b"u64",
        Primitive::Uint(UintTy::U128) => b"u128",
        Primitive::Uint(UintTy::Usize) => b"usize",
    }
}

/// The type without parts of this name.
fn primitive_named(name: &[u8]) -> Option<Primitive>
    ensures { IfSome result (HasText name.now) }
{
    for primitive in &PRIMITIVES {
        if name == primitive_text(*primitive) {
            return Some(*primitive);
        }
    }
    None
}

/// Whether a parameter of this kind takes a term. (One that is not there is refused later.)
fn takes(kind: ParamKind, term: Option<GenericArgKind>) -> bool {
    match (kind, term) {
        (ParamKind::Lifetime, Some(GenericArgKind::Lifetime(_)))
        | (ParamKind::Type, Some(GenericArgKind::Ty(_)))
        | (ParamKind::Const, Some(GenericArgKind::Const(_)))
        | (_, None) => true,
        _ => false,
    }
}

/// Whether parameters of these kinds take terms, in number and kind.
fn take(session: &InferenceSession<'_>, kinds: &[ParamKind], ids: &[TermId]) -> bool {
    kinds.len() == ids.len()
        && kinds
            .iter()
            .zip(ids)
            .all(|(kind, id)| takes(*kind, session.term(*id)))
}

/// A type by its name, and its arguments: a struct that the crate sees, or a type without parts.
fn named_type<'a>(
    session: &InferenceSession<'_>,
    name: &[u8],
    ids: &'a [TermId],
) -> Result<Operation<'a>, Refusal>
    ensures named { IfOk result (IsNamedType session.now.subject.declarations name.now ids.now) }
    ensures refused { (e : InferenceError) → result ≡ Err (Refusal.Session e) → ⊥ }
{
    if let Some(primitive) = primitive_named(name) {
        return if ids.is_empty() {
            Ok(Operation::Primitive(primitive))
        } else {
            Err(Refusal::OtherTerms)
        };
    }
    match session.session().workspace.known(name) {
        Some(Known::Struct { id, owner, params }) if session.sees(owner) => {
            if take(session, params, ids) {
                Ok(Operation::Ty(Shape::Adt(id), ids))
            } else {
                Err(Refusal::OtherTerms)
            }
        }
        _ => Err(Refusal::NoName),
    }
}

/// A trait by its name, which takes these terms. The first is the self type.
fn named_trait(
    session: &InferenceSession<'_>,
    name: &[u8],
    ids: &[TermId],
) -> Result<TraitId, Refusal>
    ensures named { IfOk result (λ t. IsTrait session.now.subject.declarations name.now t.index) }
    ensures refused { (e : InferenceError) → result ≡ Err (Refusal.Session e) → ⊥ }
{
    match session.session().workspace.known(name) {
        Some(
            Known::Trait {
                id,
                owner,
                params,
                ..
            },
        ) if session.sees(owner) => match ids.split_first() {
            Some((own, others))
                if takes(ParamKind::Type, session.term(*own)) && take(session, params, others) => {
                Ok(id)
            }
            _ => Err(Refusal::OtherTerms),
        },
        _ => Err(Refusal::NoName),
    }
}

/// How many nested goals a selection may start. 0 is no bound.
fn budget_of(number: u64) -> Option<u64>
    ensures { result ≡ budget_of number }
{
    if number == 0 { None } else { Some(number) }
}

/// The number of a parameter.
fn param_of(number: u64) -> Result<u32, Refusal>
    ensures is { IfOk result (λ n. n ≡ number) }
    ensures refused { (e : InferenceError) → result ≡ Err (Refusal.Session e) → ⊥ }
{
    match u32::try_from(number) {
        Ok(number) => Ok(number),
        Err(_) => Err(Refusal::OtherTerms),
    }
}

/// The shape of the types that an operation makes.
fn shape_of(operation: u32) -> Option<Shape>
    ensures number { IfSome result (λ h. shape_number h ≡ operation) }
    ensures above { OnSome result (6 ≤ operation) }
{
    match operation {
        6 => Some(Shape::Tuple),
        7 => Some(Shape::Slice),
        8 => Some(Shape::Array),
        9 => Some(Shape::Ref(Mutability::Not)),
        10 => Some(Shape::Ref(Mutability::Mut)),
        11 => Some(Shape::RawPtr(Mutability::Not)),
        12 => Some(Shape::RawPtr(Mutability::Mut)),
        13 => Some(Shape::FnPtr),
        _ => None,
    }
}

/// The operation of a call that takes no terms.
fn without_terms<'a>(call: &Call<'_>) -> Option<Operation<'a>>
    ensures { IfSome result (λ o. (operation_number o ≡ call.now.operation) × IsAboutNumber call.now.number o) }
{
    match call.operation {
        1 => Some(Operation::FreshTy),
        2 => Some(Operation::FreshConst),
        4 => Some(Operation::Constant(call.number)),
        5 => Some(Operation::Lifetime),
        23 => Some(Operation::SelectWherePossible(budget_of(call.number))),
        24 => Some(Operation::Standing(ObligationId {
            index: call.number as usize,
        })),
        26 => Some(Operation::StartSnapshot),
        27 => Some(Operation::Commit),
        28 => Some(Operation::RollBack),
        _ => None,
    }
}

/// The operation of a call, by the numbers of its terms.
fn operation_of<'a>(
    session: &InferenceSession<'_>,
    call: &Call<'_>,
    ids: &'a [TermId],
) -> Result<Operation<'a>, Refusal>
    ensures is { IfOk result (IsOperationOf session.now.subject.declarations call.now ids.now) }
    ensures refused { (e : InferenceError) → result ≡ Err (Refusal.Session e) → ⊥ }
{
    if let Some(shape) = shape_of(call.operation) {
        return Ok(Operation::Ty(shape, ids));
    }
    if let Some(operation) = without_terms(call) {
        return if ids.is_empty() {
            Ok(operation)
        } else {
            Err(Refusal::OtherTerms)
        };
    }
    match (call.operation, ids) {
        (3, _) => named_type(session, call.name, ids),
        (20, [left, right]) => Ok(Operation::Eq(*left, *right)),
        (21, [left, right]) => Ok(Operation::CanEq(*left, *right)),
        (14, []) => Ok(Operation::TyParam(param_of(call.number)?)),
        (15, []) => Ok(Operation::ConstParam(param_of(call.number)?)),
        (22, _) => Ok(Operation::Register(named_trait(session, call.name, ids)?, ids)),
        (29, _) => Ok(Operation::Assume(named_trait(session, call.name, ids)?, ids)),
        (25, [term]) => Ok(Operation::Resolve(*term)),
        (14 | 15 | 20 | 21 | 25, _) => Err(Refusal::OtherTerms),
        _ => Err(Refusal::NoOperation),
    }
}

/// Terms by their numbers.
fn ids_of(alloc: Global, numbers: &[u32]) -> Result<Vec<TermId>, AllocError>
    ensures { IfOk result (λ ids. ids.items ≡ map (λ n. record { index = n }) numbers.now) }
{
    numbers
        .iter()
        .map(|number| TermId {
            index: *number as usize,
        })
        .collect(alloc)
}

/// Makes a call, and returns what it gives.
pub fn make(
    alloc: Global,
    session: &mut InferenceSession<'_>,
    call: &Call<'_>,
) -> Result<usize, Refusal>
    ensures done { IfOk result (Performs call.now session.old session.new) }
    ensures refused { OnErr result (StaysAsItWas session.old session.new) }
    ensures no_solution { result ≡ Err (Refusal.Session InferenceError.NoSolution) → IsRefusedCall call.now session.old }
    ensures no_term { result ≡ Err (Refusal.Session InferenceError.NoSuchTerm) → LacksAnything call.now session.old }
    ensures stays { StaysOn session.old.subject session.new.subject }
{
    let ids = ids_of(alloc, call.terms)?;
    let operation = operation_of(session, call, &ids)?;
    let given = session.perform(operation)?;
    Ok(given)
}

/// The word of a call that was made or refused. What it gives is written.
pub fn told(outcome: Result<usize, Refusal>, given: &mut u32) -> u32
    ensures given { result ≡ 0 → outcome ≡ Ok given.new }
    ensures refused { result ≢ 0 → result ≢ 4 → IsErr outcome }
    ensures no_solution { result ≡ 13 → outcome ≡ Err (Refusal.Session InferenceError.NoSolution) }
    ensures no_term { result ≡ 12 → outcome ≡ Err (Refusal.Session InferenceError.NoSuchTerm) }
    ensures others { (result ≢ 10) × (result ≢ 11) }
{
    match outcome {
        Ok(number) => match u32::try_from(number) {
            Ok(number) => {
                *given = number;
                0
            }
            Err(_) => 4,
        },
        Err(Refusal::NoOperation) => 16,
        Err(Refusal::NoName) => 14,
        Err(Refusal::OtherTerms) => 15,
        Err(Refusal::Session(error)) => match error {
            InferenceError::NoSuchTerm => 12,
            InferenceError::NoSolution => 13,
            InferenceError::WrongParts => 15,
            InferenceError::Fault(Fault::Full) => 4,
            InferenceError::Fault(Fault::Memory) => 3,
        },
    }
}
