//! The lines of crates, of checks and of queries.

ghost use Rattle.std.specs.Prelude.{◌≡◌, ◌<◌, length, IfOk, IfErr, IfSome};
ghost use Rattle.std.specs.Option.{option_map};
ghost use Rattle.text_printer.specs.Answers.{text_of};
ghost use Rattle.sessions.specs.TextLanguage.Promised.Declarations.{Question, of_later, of_supers};
ghost use Rattle.sessions.specs.TextLanguage.Output.{uncovered, output_text};
ghost use Rattle.sessions.specs.TextTables.Numbered.{IsNumbered, IsFew};
ghost use Rattle.sessions.specs.ErrorTerms.{error_in, type_in};
ghost use Rattle.sessions.specs.HeldErrors.{ErrorHeld, TypeHeld};
ghost use Rattle.sessions.specs.OrphanErrors as errors;
ghost use Rattle.sessions.specs.Promised.Given.{verdict_in, VerdictHeld};
ghost use Rattle.sessions.specs.Promised.Releases.{IsSectionOf};
ghost use Rattle.sessions.specs.Promised.Shortages.{SessionFullAtLimit};
ghost use Rattle.sessions.specs.Promised.Subjects.{IsOfText, AsksProof, AsksRefutation, StaysOn};
ghost use Rattle.coherence.specs.Groups.{IsAskedIn, IsCheckedIn};
ghost use Rattle.coherence.specs.Promised.CrateAnswers.{crate_text, impl_home};
ghost use Rattle.coherence.specs.Lines.{header_text, orphan_line, verdict_line};
ghost use Rattle.coherence.specs.KeptLines.{NamesImpls, HasCheckLine, IsCheckLineOf, HasLine, IsLineOf};

use crate::impl_numbers::{number_in_crate, number_in_section};
use crate::listener::Listener;
use crate::named_answer::{named_answer, print_named};
use sessions::text_tables::{Asked, Check, ENTRY_LIMIT, Workspace};
use sessions::type_terms::interner::Interner;
use sessions::type_terms::kinds::Ty;
use sessions::type_terms::{CrateId, Fault, ImplId};
use sessions::{
    LaterAnswer, OrphanCheckErr, RefuteAnswer, Session, SupersAnswer, UncoveredTyParams, Verdict,
};
use std::alloc::{AllocError, Global};
use text_printer::{Answer, HeaderNames, print_line, print_type};

/// The name of an impl's crate.
fn owner_name(workspace: &Workspace, id: ImplId) -> &[u8]
    requires number { id.index < length workspace.now.impls }
    requires numbered { IsNumbered workspace.now }
    ensures { result.now ≡ crate_text workspace.now (impl_home workspace.now id.index) }
{
    let (owner, _number) = workspace.impl_place(id);
    workspace.crate_name(owner)
}

/// A type of an impl's header as text. A variable has the name of the parameter that it stands for.
fn header_text(
    alloc: Global,
    cx: &Interner,
    workspace: &Workspace,
    id: ImplId,
    ty: Ty,
) -> Result<Vec<u8>, AllocError>
    requires number { id.index < length workspace.now.impls }
    requires held { TypeHeld cx.now.entries ty }
    ensures { IfOk result (λ text. text.items ≡ header_text workspace.now id.index (type_in cx.now.entries ty)) }
{
    let names = HeaderNames {
        workspace,
        params: &workspace.impls()[id.index as usize].params,
    };
    let mut text = Vec::new(alloc);
    print_type(cx, &names, ty, &mut text)?;
    Ok(text)
}

fn print_uncovered<'a>(
    alloc: Global,
    name: &'a [u8],
    number: u32,
    param: &'a [u8],
    before: Option<&'a [u8]>,
) -> Result<Vec<u8>, AllocError>
    ensures { IfOk result (λ text. text.items ≡ output_text (uncovered name.now number param.now (option_map text_of before.entry))) }
{
    print_line(
        alloc,
        &Answer::Uncovered {
            name,
            number,
            param,
            before,
        },
    )
}

/// The line of a crate with an impl whose header has a parameter before its first local type, such as `impl<T> Foreign<Local> for T`.
fn uncovered_line(
    alloc: Global,
    cx: &Interner,
    workspace: &Workspace,
    crate_id: CrateId,
    id: ImplId,
    error: &UncoveredTyParams<Ty>,
) -> Result<Vec<u8>, AllocError>
    requires declared { crate_id.index < length workspace.now.crates }
    requires number { id.index < length workspace.now.impls }
    requires uncovered { TypeHeld cx.now.entries error.now.uncovered }
    requires local { IfSome error.now.local_ty (TypeHeld cx.now.entries) }
    ensures { IfOk result (λ text. text.items ≡ output_text (orphan_line workspace.now crate_id.index id.index
        (errors.uncovered (type_in cx.now.entries error.now.uncovered) (option_map (type_in cx.now.entries) error.now.local_ty)))) }
{
    let name = workspace.crate_name(crate_id);
    let number = number_in_crate(workspace, id);
    let param = header_text(alloc, cx, workspace, id, error.uncovered)?;
    match error.local_ty {
        None => print_uncovered(alloc, name, number, &param, None),
        Some(local_ty) => {
            let local = header_text(alloc, cx, workspace, id, local_ty)?;
            print_uncovered(alloc, name, number, &param, Some(&local))
        }
    }
}

/// The line of a crate with an impl whose header breaks the orphan rule.
fn orphan_line(
    alloc: Global,
    cx: &Interner,
    workspace: &Workspace,
    crate_id: CrateId,
    id: ImplId,
    error: &OrphanCheckErr<Ty>,
) -> Result<Vec<u8>, AllocError>
    requires declared { crate_id.index < length workspace.now.crates }
    requires number { id.index < length workspace.now.impls }
    requires held { ErrorHeld cx.now.entries error.now }
    ensures { IfOk result (λ text. text.items ≡ output_text (orphan_line workspace.now crate_id.index id.index (error_in cx.now.entries error.now))) }
{
    match error {
        OrphanCheckErr::NonLocalInputType(_) => print_line(
            alloc,
            &Answer::Nonlocal {
                name: workspace.crate_name(crate_id),
                number: number_in_crate(workspace, id),
            },
        ),
        OrphanCheckErr::UncoveredTyParams(error) => {
            uncovered_line(alloc, cx, workspace, crate_id, id, error)
        }
    }
}

/// The line of a crate, with its line end: accepted, an orphan impl with the reason, or two impls that overlap, by their numbers in their
/// crates. Fails only if memory is refused.
pub fn verdict_line(
    alloc: Global,
    cx: &Interner,
    workspace: &Workspace,
    crate_id: CrateId,
    verdict: &Verdict,
) -> Result<Vec<u8>, AllocError>
    requires numbered { IsNumbered workspace.now }
    requires declared { crate_id.index < length workspace.now.crates }
    requires named { NamesImpls workspace.now (verdict_in cx.now.entries verdict.now) }
    requires held { VerdictHeld cx.now.entries verdict.now }
    ensures { IfOk result (λ text. text.items ≡ output_text (verdict_line workspace.now crate_id.index (verdict_in cx.now.entries verdict.now))) }
{
    let name = workspace.crate_name(crate_id);
    match verdict {
        Verdict::Accepted => print_line(alloc, &Answer::Accepted { name }),
        Verdict::Orphan(id, error) => orphan_line(alloc, cx, workspace, crate_id, *id, error),
        Verdict::Overlap(later, earlier) => print_line(
            alloc,
            &Answer::Overlap {
                name,
                number: number_in_crate(workspace, *later),
                other: owner_name(workspace, *earlier),
                other_number: number_in_crate(workspace, *earlier),
            },
        ),
    }
}

/// The line of a section of the session's crate.
fn later_line(
    alloc: Global,
    session: &mut Session<'_>,
    workspace: &Workspace,
    section: u32,
    changed: CrateId,
) -> Result<Vec<u8>, Fault>
    requires on { session.old.declarations ≡ workspace.now }
    requires of_crate { session.old.of_crate ≡ changed.index }
    requires declared { changed.index < length workspace.now.crates }
    requires section { IsSectionOf workspace.now changed.index section }
    ensures line { IfOk result (λ text. HasCheckLine session.old.depth workspace.now (of_later section changed.index) text.items) }
    ensures stays { StaysOn session.old session.new }
    ensures full { IfErr result (SessionFullAtLimit session.new) }
{
    // The count begins anew: the search is not given up for what earlier lines took. Their stored results can shorten it.
    session.begin_count();
    let answer = session.check_later(section)?;
    let name = workspace.crate_name(changed);
    let line = match answer {
        LaterAnswer::Compatible => print_line(alloc, &Answer::Compatible { name })?,
        LaterAnswer::Breaking(place) => {
            let number = number_in_section(workspace, section, place);
            print_line(alloc, &Answer::Breaking { name, number })?
        }
    };
    Ok(line)
}

/// The line for the supertraits of the session's crate.
fn supers_line(
    alloc: Global,
    session: &mut Session<'_>,
    workspace: &Workspace,
    asked: CrateId,
) -> Result<Vec<u8>, Fault>
    requires on { session.old.declarations ≡ workspace.now }
    requires of_crate { session.old.of_crate ≡ asked.index }
    requires numbered { IsNumbered workspace.now }
    requires declared { asked.index < length workspace.now.crates }
    ensures line { IfOk result (λ text. HasCheckLine session.old.depth workspace.now (of_supers asked.index) text.items) }
    ensures stays { StaysOn session.old session.new }
    ensures full { IfErr result (SessionFullAtLimit session.new) }
{
    // The count begins anew: the search is not given up for what earlier lines took. Their stored results can shorten it.
    session.begin_count();
    let answer = session.check_supertraits()?;
    let name = workspace.crate_name(asked);
    let line = match answer {
        SupersAnswer::Held => print_line(alloc, &Answer::Held { name })?,
        SupersAnswer::Missing(id, clause) => {
            let number = number_in_crate(workspace, id);
            print_line(
                alloc,
                &Answer::Missing {
                    name,
                    number,
                    clause,
                },
            )?
        }
        SupersAnswer::Undecided(id, clause) => {
            let number = number_in_crate(workspace, id);
            print_line(
                alloc,
                &Answer::Undecided {
                    name,
                    number,
                    clause,
                },
            )?
        }
    };
    Ok(line)
}

/// The line of a check of the session's crate, by its index in the text. Fails with `Memory`, or with `Full` only if the session is at a
/// limit.
pub fn check_line(
    alloc: Global,
    session: &mut Session<'_>,
    workspace: &Workspace,
    place: usize,
) -> Result<Vec<u8>, Fault>
    requires on { session.old.declarations ≡ workspace.now }
    requires numbered { IsNumbered workspace.now }
    requires checked { IsCheckedIn workspace.now session.old.of_crate place }
    ensures line { IfOk result (λ text. IsCheckLineOf session.old.depth workspace.now place text.items) }
    ensures stays { StaysOn session.old session.new }
    ensures full { IfErr result (SessionFullAtLimit session.new) }
{
    let line = match workspace.checks()[place] {
        Check::Later(section, changed) => {
            later_line(alloc, session, workspace, section, changed)?
        }
        Check::Supers(asked) => supers_line(alloc, session, workspace, asked)?,
    };
    Ok(line)
}

/// The line of a `prove` query of the session's crate. Queries count from 1.
fn prove_line<L: Listener>(
    alloc: Global,
    session: &mut Session<'_>,
    workspace: &Workspace,
    number: u32,
    listener: &mut L,
) -> Result<Vec<u8>, Fault>
    requires on { session.old.declarations ≡ workspace.now }
    requires parsed { IsOfText workspace.now }
    requires asked { (q : Question) × AsksProof workspace.now session.old.of_crate number q }
    ensures line { (q : Question) → AsksProof workspace.now session.old.of_crate number q
        → IfOk result (λ text. HasLine session.old.depth workspace.now number q text.items) }
    ensures stays { StaysOn session.old session.new }
    ensures full { IfErr result (SessionFullAtLimit session.new) }
{
    let answer = named_answer(alloc, session, workspace, number, listener)?;
    let line = print_named(alloc, number, &answer)?;
    Ok(line)
}

/// The line of a `refute` query of the session's crate. Queries count from 1.
fn refute_line<L: Listener>(
    alloc: Global,
    session: &mut Session<'_>,
    workspace: &Workspace,
    number: u32,
    listener: &mut L,
) -> Result<Vec<u8>, Fault>
    requires on { session.old.declarations ≡ workspace.now }
    requires asked { (q : Question) × AsksRefutation workspace.now session.old.of_crate number q }
    ensures line { (q : Question) → AsksRefutation workspace.now session.old.of_crate number q
        → IfOk result (λ text. HasLine session.old.depth workspace.now number q text.items) }
    ensures stays { StaysOn session.old session.new }
    ensures full { IfErr result (SessionFullAtLimit session.new) }
{
    // The count begins anew: the search is not given up for what earlier lines took. Their stored results can shorten it.
    session.begin_count();
    let answer = session.refute(number)?;
    let line = match answer {
        RefuteAnswer::No => print_line(alloc, &Answer::No { question: number })?,
        RefuteAnswer::Open => print_line(alloc, &Answer::Open { question: number })?,
    };
    listener.refuted(session, workspace, number, answer);
    Ok(line)
}

/// The line of a query of the session's crate, by its index in the text. Fails with `Memory`, or with `Full` only if the session is at a
/// limit.
pub fn question_line<L: Listener>(
    alloc: Global,
    session: &mut Session<'_>,
    workspace: &Workspace,
    place: u32,
    listener: &mut L,
) -> Result<Vec<u8>, Fault>
    requires on { session.old.declarations ≡ workspace.now }
    requires parsed { IsOfText workspace.now }
    requires few { IsFew workspace.now ENTRY_LIMIT }
    requires asked { IsAskedIn workspace.now session.old.of_crate place }
    ensures line { IfOk result (λ text. IsLineOf session.old.depth workspace.now place text.items) }
    ensures stays { StaysOn session.old session.new }
    ensures full { IfErr result (SessionFullAtLimit session.new) }
{
    let number = place + 1;
    let line = match workspace.questions()[place as usize] {
        Asked::Prove(_) => prove_line(alloc, session, workspace, number, listener)?,
        Asked::Refute(_) => refute_line(alloc, session, workspace, number, listener)?,
    };
    Ok(line)
}
