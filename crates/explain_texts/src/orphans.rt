//! The text for a header that breaks the orphan rule.

ghost use Rattle.std.specs.Prelude.{◌≡◌, IfOk, IfSome};
ghost use Rattle.explain_sessions.specs.TypeTerms.Promised.Handles.{Has, types};
ghost use Rattle.explain_sessions.specs.OrphanCheck.Promised.Errors.{ErrorHeld, LeavesHeld, TypeHeld};
ghost use Rattle.explain_texts.specs.Orphans.{IsOrphanError, orphan_code};

use crate::failures::has_params;
use crate::items::{Texts, crate_name, impl_line, is_companion, trait_home, trait_owner};
use crate::words::type_text;
use explain_diagnostics::{Diagnostic, ErrCode, LIST_LIMIT, Level, on_line};
use explain_sessions::orphan_check::errors::{IsFirstInputType, OrphanCheckErr, UncoveredTyParams};
use explain_sessions::sessions::Session;
use explain_sessions::text_tables::{ImplEntry, TermCell};
use explain_sessions::type_terms::interner::Interner;
use explain_sessions::type_terms::kinds::{Ty, TyKind};
use explain_sessions::type_terms::{AdtId, CrateId, ImplId};
use explain_sessions::{breaks_orphan_rule, impl_header};
use messages::{NONE, Piece, Sentence, Telling, name_of, plain, with_one, with_three, with_two};
use std::alloc::{AllocError, Global};
use text_printer::HeaderNames;

/// An impl that is refused.
#[derive(Clone, Copy)]
struct Refused<'w> {
    texts: Texts<'w>,
    entry: &'w ImplEntry,
    id: ImplId,
    crate_id: CrateId,
}

impl<'w> Refused<'w> {
    fn names(self) -> HeaderNames<'w> {
        HeaderNames {
            workspace: self.texts.workspace,
            params: &self.entry.params,
        }
    }

    /// The line of the impl, for a sentence.
    fn line(self) -> Piece<'w> {
        match impl_line(self.texts, self.id) {
            Some(found) => Piece::Line(self.texts.file.own_line(found.line)),
            None => NONE,
        }
    }
}

/// The kinds of types for which a foreign trait would be implemented, in rustc's words.
fn sort_of_types(cx: &Interner, ty: Ty) -> &'static str
    requires { Has cx.now.entries types ty.0 }
{
    match cx.kind(ty) {
        TyKind::Bool | TyKind::Char | TyKind::Int(_) | TyKind::Uint(_) => "primitive types",
        TyKind::Str | TyKind::Never => "primitive types",
        TyKind::Adt(_, _) => "types defined outside of the crate",
        _ => "arbitrary types",
    }
}

/// Whether other types may stand in a type that is called so.
fn is_made_of_others(name: &str) -> bool {
    for byte in name.as_bytes() {
        if !byte.is_ascii_alphanumeric() && *byte != b'_' {
            return name.len() > 1;
        }
    }
    false
}

/// The crate of a struct with this number.
fn struct_home(texts: Texts<'_>, id: AdtId) -> Option<CrateId> {
    match texts.workspace.structs().get(id.index as usize) {
        Some(entry) => Some(entry.owner),
        None => None,
    }
}

/// The crate of a type, if it is a struct.
fn type_home(texts: Texts<'_>, cx: &Interner, ty: Ty) -> Option<CrateId>
    requires { Has cx.now.entries types ty.0 }
{
    match cx.kind(ty) {
        TyKind::Adt(id, _) => struct_home(texts, id),
        _ => None,
    }
}

/// The sentence for where a type with this name comes from: of a crate, if it is a struct. Where types may stand in it, those do not count.
fn home_said<'s>(texts: Texts<'s>, home: Option<CrateId>, name: &'s str) -> Sentence<'s> {
    let shown = Piece::Text(name);
    match (home, is_made_of_others(name)) {
        (Some(home), true) => with_two(
            "`{}` counts as a type of crate `{}`: the orphan rule does not look into it",
            shown,
            Piece::Name(crate_name(texts, home)),
        ),
        (Some(home), false) => with_two(
            "`{}` is of crate `{}`",
            shown,
            Piece::Name(crate_name(texts, home)),
        ),
        (None, true) => with_one(
            "`{}` is of no crate: the orphan rule does not look into it",
            shown,
        ),
        (None, false) => with_one("`{}` is of no crate", shown),
    }
}

/// Adds the note for a type that the orphan walk met.
fn tell_met_type(refused: Refused<'_>, cx: &Interner, ty: Ty, telling: &mut Telling)
    requires { Has cx.now.entries types ty.0 }
{
    let asked = type_text(telling.alloc(), cx, &refused.names(), ty);
    if let Some(name) = telling.granted(asked) {
        let home = type_home(refused.texts, cx, ty);
        telling.note(home_said(refused.texts, home, name.as_str()));
    }
}

/// Adds the notes for the types that the orphan walk met.
fn tell_met(
    refused: Refused<'_>,
    cx: &Interner,
    types: &[(Ty, IsFirstInputType)],
    telling: &mut Telling,
)
    requires { LeavesHeld cx.now.entries types.now }
{
    for (place, met) in types.iter().enumerate() {
        if place == LIST_LIMIT {
            telling.note(plain(".."));
            return;
        }
        tell_met_type(refused, cx, met.0, telling);
    }
}

/// Marks the header of the impl, if it is in the text.
fn mark_header(refused: Refused<'_>, label: Sentence<'_>, telling: &mut Telling) {
    if let Some(found) = impl_line(refused.texts, refused.id) {
        telling.mark(found.header(), label);
    }
}

/// Marks the type of the impl, or the header where the trait has types too, if it stands in the text: none is of the crate.
fn mark_types(refused: Refused<'_>, telling: &mut Telling) {
    let Some(found) = impl_line(refused.texts, refused.id) else {
        return;
    };
    let own = Piece::Name(crate_name(refused.texts, refused.crate_id));
    if has_params(refused.texts, refused.entry.header.trait_id) {
        telling.mark(
            found.header(),
            with_one("no type here is of crate `{}`", own),
        );
    } else {
        telling.mark(
            on_line(found.line, found.parts.subject),
            with_one("not a type of crate `{}`", own),
        );
    }
}

/// Whether a crate sees an item, by the item's crate.
fn sees(texts: Texts<'_>, seeing: CrateId, home: Option<CrateId>) -> bool {
    let count = texts.workspace.crates().len();
    match home {
        Some(home) => (seeing.index as usize) < count && texts.workspace.sees(seeing, home),
        None => false,
    }
}

/// Whether a crate sees the struct or the trait of a part of a type.
fn sees_part(texts: Texts<'_>, seeing: CrateId, part: TermCell) -> bool {
    match part {
        TermCell::Adt { id, .. } => sees(texts, seeing, struct_home(texts, id)),
        TermCell::Principal { def_id, .. } => { sees(texts, seeing, trait_owner(texts, def_id)) }
        _ => true,
    }
}

/// Whether a crate sees the trait and the types of the header.
fn is_seen_in(refused: Refused<'_>, seeing: CrateId) -> bool {
    let header = &refused.entry.header;
    for part in &header.args {
        if !sees_part(refused.texts, seeing, *part) {
            return false;
        }
    }
    let owner = trait_owner(refused.texts, header.trait_id);
    sees(refused.texts, seeing, owner)
}

/// The crate of this trait or type, if it sees the trait and the types of the header, so that it may write the impl.
fn writer(refused: Refused<'_>, home: Option<CrateId>) -> Option<Piece<'_>> {
    let home = home?;
    if is_seen_in(refused, home) {
        Some(Piece::Name(crate_name(refused.texts, home)))
    } else {
        None
    }
}

/// Where such an impl may stand: in the crate of the trait or of the type, where that sees both, or for a struct that wraps the type. The
/// type is of a crate if it is a struct.
fn elsewhere_said(refused: Refused<'_>, of_type: Option<CrateId>) -> Sentence<'_> {
    let texts = refused.texts;
    let trait_id = refused.entry.header.trait_id;
    let own = Piece::Name(crate_name(texts, refused.crate_id));
    if let Some(home) = writer(refused, trait_owner(texts, trait_id)) {
        return with_two(
            "the trait is of crate `{}`: write this impl there, or for a struct of crate `{}` that wraps the type",
            home,
            own,
        );
    }
    match writer(refused, of_type) {
        Some(home) => with_two(
            "the type is of crate `{}`: write this impl there, or for a struct of crate `{}` that wraps the type",
            home,
            own,
        ),
        None => with_two(
            "the trait is of crate `{}`, which does not see the types: write this impl for a struct of crate `{}` that wraps the type",
            Piece::Name(trait_home(texts, trait_id)),
            own,
        ),
    }
}

/// The crate of the first type that the orphan walk met, if it is a struct.
fn first_home(texts: Texts<'_>, cx: &Interner, types: &[(Ty, IsFirstInputType)]) -> Option<CrateId>
    requires { LeavesHeld cx.now.entries types.now }
{
    match types.first() {
        Some(met) => type_home(texts, cx, met.0),
        None => None,
    }
}

/// The message if no type of the header is local.
fn nonlocal_message<'w>(
    cx: &Interner,
    types: &[(Ty, IsFirstInputType)],
    line: Piece<'w>,
) -> Sentence<'w>
    requires { LeavesHeld cx.now.entries types.now }
{
    let sort = match types.first() {
        Some(met) => sort_of_types(cx, met.0),
        None => "types defined outside of the crate",
    };
    with_two(
        "only traits defined in the current crate can be implemented for {}: line {}",
        Piece::Text(sort),
        line,
    )
}

/// What is told if no type of the header is local.
fn nonlocal(
    alloc: Global,
    refused: Refused<'_>,
    cx: &Interner,
    types: &[(Ty, IsFirstInputType)],
) -> Telling
    requires { LeavesHeld cx.now.entries types.now }
{
    let message = nonlocal_message(cx, types, refused.line());
    let mut telling = Telling::begin(alloc, Level::Error, None, message);
    mark_types(refused, &mut telling);
    tell_met(refused, cx, types, &mut telling);
    let of_type = first_home(refused.texts, cx, types);
    telling.help(elsewhere_said(refused, of_type));
    telling
}

/// The message if a parameter comes before the first local type, or if there is no local type.
fn uncovered_message<'s>(param: &'s str, local: Option<&'s str>, line: Piece<'s>) -> Sentence<'s> {
    let param = Piece::Text(param);
    match local {
        None => with_three(
            "type parameter `{}` must be used as the type parameter for some local type (e.g., `MyStruct<{}>`): line {}",
            param,
            param,
            line,
        ),
        Some(ty) => with_three(
            "type parameter `{}` must be covered by another type when it appears before the first local type (`{}`): line {}",
            param,
            Piece::Text(ty),
            line,
        ),
    }
}

/// The label of the header if a parameter comes before the first local type, or if there is no local type.
fn uncovered_label<'s>(param: &'s str, has_local: bool) -> Sentence<'s> {
    let template = if has_local {
        "type parameter `{}` comes before the first local type"
    } else {
        "type parameter `{}` stands in no local type"
    };
    with_one(template, Piece::Text(param))
}

/// Tells of a part right behind a parameter of the header that it covers nothing, if it is a reference or a fundamental struct.
fn tell_bare(texts: Texts<'_>, part: TermCell, telling: &mut Telling) {
    match part {
        TermCell::Ref { .. } => telling.note(plain(
            "`&` covers nothing: what stands behind it counts",
        )),
        TermCell::Adt { id, .. } => {
            if let Some(entry) = texts.workspace.structs().get(id.index as usize) {
                if entry.is_fundamental {
                    telling.note(with_one(
                        "`{}` is fundamental and covers nothing: what stands in it counts",
                        Piece::Name(name_of(&entry.name)),
                    ));
                }
            }
        }
        _ => {}
    }
}

/// Tells what stands round the first parameter of the header, if that covers nothing.
fn tell_covers_nothing(refused: Refused<'_>, telling: &mut Telling) {
    let mut is_behind = false;
    for part in &refused.entry.header.args {
        if is_behind {
            tell_bare(refused.texts, *part, telling);
            return;
        }
        is_behind = matches!(part, TermCell::Param(_));
    }
}

/// What is told of one such parameter.
fn uncovered_param(
    alloc: Global,
    refused: Refused<'_>,
    param: &str,
    local: Option<&str>,
) -> Telling {
    let message = uncovered_message(param, local, refused.line());
    let mut telling = Telling::begin(alloc, Level::Error, None, message);
    mark_header(
        refused,
        uncovered_label(param, local.is_some()),
        &mut telling,
    );
    tell_covers_nothing(refused, &mut telling);
    telling.note(with_one(
        "the trait is of crate `{}`, so a crate may write an impl of it only where a struct of its own comes before any parameter that stands alone",
        Piece::Name(trait_home(refused.texts, refused.entry.header.trait_id)),
    ));
    telling
}

/// What is told if a parameter comes before the first local type, or if there is no local type.
fn uncovered(
    alloc: Global,
    refused: Refused<'_>,
    cx: &Interner,
    error: &UncoveredTyParams<Ty>,
) -> Result<Telling, AllocError>
    requires uncovered { TypeHeld cx.now.entries error.now.uncovered }
    requires local { IfSome error.now.local_ty (TypeHeld cx.now.entries) }
{
    let names = refused.names();
    let param = type_text(alloc, cx, &names, error.uncovered)?;
    match error.local_ty {
        None => Ok(uncovered_param(alloc, refused, param.as_str(), None)),
        Some(ty) => {
            let local = type_text(alloc, cx, &names, ty)?;
            Ok(uncovered_param(alloc, refused, param.as_str(), Some(local.as_str())))
        }
    }
}

/// Whether an impl is one of the session's crate behind the refused one, and breaks the orphan rule. Those of companions break it as the impl
/// of the trait does.
fn is_refused_too(refused: Refused<'_>, session: &Session<'_>, entry: &ImplEntry) -> bool {
    if entry.owner.index != refused.crate_id.index || entry.id.index <= refused.id.index {
        return false;
    }
    if is_companion(refused.texts, entry.header.trait_id) {
        return false;
    }
    match impl_header(session, entry.id) {
        Some(header) => breaks_orphan_rule(session, header),
        None => false,
    }
}

/// Adds a note for an impl that breaks the orphan rule too.
fn tell_other(texts: Texts<'_>, id: ImplId, telling: &mut Telling) {
    telling.note(plain("this header breaks the orphan rule too"));
    if let Some(found) = impl_line(texts, id) {
        telling.mark_child(found.header());
    }
}

/// Adds the notes for the impls behind the refused one that break the orphan rule too.
fn tell_others(refused: Refused<'_>, session: &Session<'_>, telling: &mut Telling) {
    let mut count = 0usize;
    for entry in refused.texts.workspace.impls() {
        if is_refused_too(refused, session, entry) {
            if count == LIST_LIMIT {
                telling.note(plain("others break the orphan rule too"));
                return;
            }
            count = count.saturating_add(1);
            tell_other(refused.texts, entry.id, telling);
        }
    }
}

/// The code of rustc for the same error.
fn code(error: &OrphanCheckErr<Ty>) -> ErrCode
    ensures { result ≡ orphan_code error.now }
{
    match error {
        OrphanCheckErr::NonLocalInputType(_) => ErrCode::E0117,
        OrphanCheckErr::UncoveredTyParams(_) => ErrCode::E0210,
    }
}

/// The diagnostic for a header of the session's crate that breaks the orphan rule, with the others behind it.
pub fn orphan(
    alloc: Global,
    texts: Texts<'_>,
    session: &Session<'_>,
    crate_id: CrateId,
    id: ImplId,
    error: &OrphanCheckErr<Ty>,
) -> Result<Option<Diagnostic>, AllocError>
    requires { ErrorHeld session.now.terms error.now }
    ensures { IfOk result (λ o. IfSome o (IsOrphanError error.now)) }
{
    let Some(entry) = texts.workspace.impls().get(id.index as usize) else {
        return Ok(None);
    };
    let refused = Refused {
        texts,
        entry,
        id,
        crate_id,
    };
    let cx = session.interner();
    let mut telling = match error {
        OrphanCheckErr::NonLocalInputType(types) => nonlocal(alloc, refused, cx, types),
        OrphanCheckErr::UncoveredTyParams(error) => uncovered(alloc, refused, cx, error)?,
    };
    tell_others(refused, session, &mut telling);
    let mut told = telling.finish()?;
    told.level = Level::Error;
    told.code = Some(code(error));
    Ok(Some(told))
}
