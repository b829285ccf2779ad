//! Trait references, rendered as text.

ghost use Rattle.std.specs.Prelude.{IfSome};
ghost use Rattle.explain_sessions.specs.TypeTerms.Promised.Handles.{ArgHeld};
ghost use Rattle.explain_sessions.specs.TypeTerms.Promised.Handles.{Has, types};
ghost use Rattle.explain_sessions.specs.TypeTerms.Terms.{args_lists};

use crate::items::companion_parts;
use crate::words::type_text;
use explain_diagnostics::{TYPE_LIMIT, cut_text};
use explain_sessions::term_folds::predicate::TraitRef;
use explain_sessions::type_terms::interner::Interner;
use explain_sessions::type_terms::kinds::{GenericArgKind, Ty, TyKind};
use explain_sessions::type_terms::{AdtId, TraitId};
use messages::{Name, Piece, name_of};
use std::alloc::{AllocError, Global};
use text_printer::{PrintNames, ShownNames, print_const, print_type_within};

/// A rendered trait reference: its self type and its bound as texts.
pub struct Spoken {
    /// The self type: `V<u8>`.
    subject: String,
    /// The trait with its further arguments: `Show`.
    bound: String,
    /// The first argument that is a variable, with the self type: `?x`. Empty if there is none.
    pub(crate) unknown: String,
    pub trait_id: TraitId,
    pub(crate) kind: SubjectKind,
}

/// What the self type of a trait reference is.
#[derive(Clone, Copy)]
pub(crate) enum SubjectKind {
    /// A variable.
    Unknown,
    /// A parameter of the query or impl.
    Param,
    Struct(AdtId),
    Dyn,
    Other,
}

// Hand-written so that the prover sees one drop call: docs/PROVING.md#drop.
impl Drop for Spoken {
    fn drop(self) {
        let Spoken {
            subject: _,
            bound: _,
            unknown: _,
            trait_id: _,
            kind: _,
        } = self;
    }
}

impl Spoken {
    /// The whole trait reference, for a sentence.
    pub fn reference_piece(&self) -> Piece<'_> {
        Piece::Reference(self.subject.as_str(), self.bound.as_str())
    }

    /// The bound, for a sentence.
    pub fn bound_piece(&self) -> Piece<'_> {
        Piece::Text(self.bound.as_str())
    }

    /// Whether it is written with this self type and this bound.
    pub(crate) fn is_written(&self, subject: Name<'_>, bound: Name<'_>) -> bool {
        self.subject.as_bytes() == subject.bytes && self.bound.as_bytes() == bound.bytes
    }

    /// Whether it is written with this self type and this bound, and binds a type as it is given there.
    pub(crate) fn is_given(&self, subject: Name<'_>, bound: Name<'_>, given: Name<'_>) -> bool {
        self.subject.as_bytes() == subject.bytes
            && is_bound_with(self.bound.as_bytes(), bound.bytes, given.bytes)
    }

    /// The self type, for a sentence.
    pub fn subject_piece(&self) -> Piece<'_> {
        Piece::Text(self.subject.as_str())
    }
}

/// Whether a bound is another one with a binding added.
fn is_bound_with(whole: &[u8], bound: &[u8], binding: &[u8]) -> bool {
    let Some(open) = whole.strip_suffix(b">") else {
        return false;
    };
    match open.strip_suffix(binding) {
        Some([front @ .., b'<']) => front == bound,
        Some([front @ .., b',', b' ']) => bound.strip_suffix(b">") == Some(front),
        _ => false,
    }
}

/// Whether a struct is that of `core` around what a type of a trait is.
fn is_wrapper(names: &ShownNames<'_>, id: AdtId) -> bool {
    match names.workspace.structs().get(id.index as usize) {
        Some(entry) => entry.name.as_slice() == b"::W".as_slice(),
        None => false,
    }
}

/// What a type of a trait is, if this is the last argument of a companion.
fn wrapped(cx: &Interner, names: &ShownNames<'_>, arg: GenericArgKind) -> Option<GenericArgKind>
    requires { ArgHeld cx.now.entries arg }
    ensures { IfSome result (ArgHeld cx.now.entries) }
{
    let GenericArgKind::Ty(ty) = arg else {
        return None;
    };
    match cx.kind(ty) {
        TyKind::Adt(id, args) if is_wrapper(names, id) => cx.args(args).first().copied(),
        _ => None,
    }
}

/// Appends a type or a constant.
fn push_term(
    cx: &Interner,
    names: &ShownNames<'_>,
    term: GenericArgKind,
    out: &mut Vec<u8>,
) -> Result<(), AllocError>
    requires { ArgHeld cx.now.entries term }
{
    match term {
        GenericArgKind::Lifetime(_) => Ok(()),
        GenericArgKind::Ty(ty) => print_type_within(cx, names, ty, TYPE_LIMIT + 1, out),
        GenericArgKind::Const(value) => print_const(cx, names, value, out),
    }
}

/// The name of a trait, and of its type that a companion is about.
#[derive(Clone, Copy)]
struct TraitName<'w> {
    own: Name<'w>,
    of_type: Name<'w>,
}

/// The name of the trait of a trait reference.
fn name_parts<'w>(names: &ShownNames<'w>, id: TraitId) -> TraitName<'w> {
    let name: &[u8] = match names.workspace.traits().get(id.index as usize) {
        Some(entry) => &entry.name,
        None => &[],
    };
    match companion_parts(name) {
        Some((own, of_type)) => TraitName { own, of_type },
        None => TraitName {
            own: name_of(name),
            of_type: name_of(&[]),
        },
    }
}

/// Appends an argument of a trait after its self type, with what comes before it. The last one of a companion says what the type with this
/// name is.
fn push_arg(
    cx: &Interner,
    names: &ShownNames<'_>,
    of_type: Name<'_>,
    arg: GenericArgKind,
    out: &mut Vec<u8>,
    is_first: bool,
) -> Result<bool, AllocError>
    requires { ArgHeld cx.now.entries arg }
{
    if let GenericArgKind::Lifetime(_) = arg {
        return Ok(is_first);
    }
    let before: &[u8] = if is_first { b"<" } else { b", " };
    out.extend_from_slice(before)?;
    match wrapped(cx, names, arg) {
        Some(value) => {
            out.extend_from_slice(of_type.bytes)?;
            out.extend_from_slice(b" = ")?;
            push_term(cx, names, value, out)?;
        }
        None => push_term(cx, names, arg, out)?,
    }
    Ok(false)
}

/// The trait of a trait reference, with its arguments after the self type.
fn bound_text(
    alloc: Global,
    cx: &Interner,
    names: &ShownNames<'_>,
    reference: TraitRef,
) -> Result<String, AllocError>
    requires { Has cx.now.entries args_lists reference.args.0 }
{
    let mut out = Vec::new(alloc);
    let name = name_parts(names, reference.def_id);
    out.extend_from_slice(name.own.bytes)?;
    let mut is_first = true;
    for (place, arg) in cx.args(reference.args).iter().enumerate() {
        if place > 0 && out.len() <= TYPE_LIMIT {
            is_first = push_arg(cx, names, name.of_type, *arg, &mut out, is_first)?;
        }
    }
    if !is_first {
        out.push(b'>')?;
    }
    cut_text(alloc, &out, TYPE_LIMIT)
}

/// The self type of a trait reference, its first argument.
fn self_type(cx: &Interner, reference: TraitRef) -> Option<Ty>
    requires { Has cx.now.entries args_lists reference.args.0 }
    ensures { IfSome result (λ ty. Has cx.now.entries types ty.0) }
{
    match cx.args(reference.args).first() {
        Some(GenericArgKind::Ty(ty)) => Some(*ty),
        _ => None,
    }
}

/// The self type of a trait reference as text.
fn subject_text(
    alloc: Global,
    cx: &Interner,
    names: &ShownNames<'_>,
    reference: TraitRef,
) -> Result<String, AllocError>
    requires { Has cx.now.entries args_lists reference.args.0 }
{
    match self_type(cx, reference) {
        Some(ty) => type_text(alloc, cx, names, ty),
        None => Ok(String::new(alloc)),
    }
}

/// What the self type of a trait reference is.
fn subject_kind(cx: &Interner, reference: TraitRef) -> SubjectKind
    requires { Has cx.now.entries args_lists reference.args.0 }
{
    let Some(ty) = self_type(cx, reference) else {
        return SubjectKind::Other;
    };
    match cx.kind(ty) {
        TyKind::Infer(_) => SubjectKind::Unknown,
        TyKind::Placeholder(_) => SubjectKind::Param,
        TyKind::Adt(id, _) => SubjectKind::Struct(id),
        TyKind::Dynamic(_, _) => SubjectKind::Dyn,
        _ => SubjectKind::Other,
    }
}

/// An argument, or what it says that a type of the trait is, as text if that is a type variable. Otherwise an empty text.
fn text_if_unknown(
    alloc: Global,
    cx: &Interner,
    names: &ShownNames<'_>,
    arg: GenericArgKind,
) -> Result<String, AllocError>
    requires { ArgHeld cx.now.entries arg }
{
    let term = match wrapped(cx, names, arg) {
        Some(value) => value,
        None => arg,
    };
    match term {
        GenericArgKind::Ty(ty) => match cx.kind(ty) {
            TyKind::Infer(_) => type_text(alloc, cx, names, ty),
            _ => Ok(String::new(alloc)),
        },
        _ => Ok(String::new(alloc)),
    }
}

/// The first argument of a trait reference that is a variable, as text. Empty if there is none.
fn unknown_text(
    alloc: Global,
    cx: &Interner,
    names: &ShownNames<'_>,
    reference: TraitRef,
) -> Result<String, AllocError>
    requires { Has cx.now.entries args_lists reference.args.0 }
{
    for arg in cx.args(reference.args) {
        let text = text_if_unknown(alloc, cx, names, *arg)?;
        if !text.is_empty() {
            return Ok(text);
        }
    }
    Ok(String::new(alloc))
}

/// Renders a trait reference. Fails only if memory is refused.
pub fn speak(
    alloc: Global,
    cx: &Interner,
    names: &ShownNames<'_>,
    reference: TraitRef,
) -> Result<Spoken, AllocError>
    requires { Has cx.now.entries args_lists reference.args.0 }
{
    let subject = subject_text(alloc, cx, names, reference)?;
    let bound = bound_text(alloc, cx, names, reference)?;
    let unknown = unknown_text(alloc, cx, names, reference)?;
    Ok(Spoken {
        subject,
        bound,
        unknown,
        trait_id: reference.def_id,
        kind: subject_kind(cx, reference),
    })
}
