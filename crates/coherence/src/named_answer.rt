//! Answers of `prove` queries with the values of variables by their names.

ghost use Rattle.std.specs.Prelude.{◌≡◌, map, IfOk, IfErr};
ghost use Rattle.text_printer.specs.Answers.{value_of};
ghost use Rattle.sessions.specs.TypeTerms.Promised.Trees.{erase};
ghost use Rattle.sessions.specs.TypeTerms.Promised.Handles.{arg_trees, ArgsHeld};
ghost use Rattle.sessions.specs.TextLanguage.Promised.Declarations.{Question};
ghost use Rattle.sessions.specs.TextLanguage.Names as names;
ghost use Rattle.sessions.specs.TextLanguage.Output.{output_text};
ghost use Rattle.sessions.specs.Promised.Shortages.{SessionFullAtLimit};
ghost use Rattle.sessions.specs.Promised.Subjects.{IsOfText, AsksProof, StaysOn};
ghost use Rattle.sessions.specs.TextQuestions.{IsQuestion};
ghost use Rattle.coherence.specs.Queries.{IsNamedAnswer, named_line};

use crate::listener::Listener;
use sessions::text_tables::Workspace;
use sessions::type_terms::Fault;
use sessions::type_terms::interner::Interner;
use sessions::type_terms::kinds::GenericArgKind;
use sessions::{ProveAnswer, Session};
use std::alloc::{AllocError, Global};
use text_printer::{Answer, ValueText, answer_values, print_line};

/// The answer of a `prove` query, with the values of its variables by their names.
#[derive(Drop)]
pub enum NamedAnswer {
    /// The bound has a proof with these values. A variable without a value stands for itself.
    Yes(Vec<ValueText>),
    /// The search does not know. These values are what it knows of the variables. An unambiguous query never gets this answer.
    Maybe(Vec<ValueText>),
    /// The search found no proof. If the query is unambiguous, there is none.
    Unproved,
}

/// The values of a query's variables by their names. Queries count from 1.
fn named_values(
    alloc: Global,
    cx: &Interner,
    workspace: &Workspace,
    number: u32,
    values: &[GenericArgKind],
) -> Result<Vec<ValueText>, AllocError>
    requires parsed { IsOfText workspace.now }
    requires asked { (q : Question) × IsQuestion workspace.now number q }
    requires held { ArgsHeld cx.now.entries values.now }
    ensures { (q : Question) → IsQuestion workspace.now number q → IfOk result (λ texts. map value_of texts.items
        ≡ names.answer_values workspace.now q (map (λ v. erase (arg_trees cx.now.entries v)) values.now)) }
{
    cx.lawful();
    let question = &workspace.question_entries()[number as usize - 1];
    let texts = answer_values(alloc, cx, workspace, question, values)?;
    Ok(texts)
}

/// The answer of a `prove` query of the session's crate, with values by name. Queries count from 1. Fails with `Memory`, or with `Full` only
/// if the session is at a limit.
pub(crate) fn named_answer<L: Listener>(
    alloc: Global,
    session: &mut Session<'_>,
    workspace: &Workspace,
    number: u32,
    listener: &mut L,
) -> Result<NamedAnswer, Fault>
    requires on { session.old.declarations ≡ workspace.now }
    requires parsed { IsOfText workspace.now }
    requires asked { (q : Question) × AsksProof workspace.now session.old.of_crate number q }
    ensures answer { (q : Question) → AsksProof workspace.now session.old.of_crate number q
        → IfOk result (IsNamedAnswer session.old.depth workspace.now number q) }
    ensures stays { StaysOn session.old session.new }
    ensures full { IfErr result (SessionFullAtLimit session.new) }
{
    // The count begins anew: the search is not given up for what earlier lines took. Their stored results can shorten it.
    session.begin_count();
    let answer = session.prove(number)?;
    let named = match &answer {
        ProveAnswer::Yes(values) => {
            let texts = named_values(alloc, session.interner(), workspace, number, values)?;
            NamedAnswer::Yes(texts)
        }
        ProveAnswer::Maybe(values) => {
            let texts = named_values(alloc, session.interner(), workspace, number, values)?;
            NamedAnswer::Maybe(texts)
        }
        ProveAnswer::Unproved => NamedAnswer::Unproved,
    };
    listener.proved(session, workspace, number, &answer);
    Ok(named)
}

/// The line of an answer, with its line end.
pub(crate) fn print_named(
    alloc: Global,
    number: u32,
    answer: &NamedAnswer,
) -> Result<Vec<u8>, AllocError>
    ensures { IfOk result (λ text. text.items ≡ output_text (named_line number answer.now)) }
{
    match answer {
        NamedAnswer::Yes(values) => print_line(
            alloc,
            &Answer::Yes {
                question: number,
                values,
            },
        ),
        NamedAnswer::Maybe(values) => print_line(
            alloc,
            &Answer::Maybe {
                question: number,
                values,
            },
        ),
        NamedAnswer::Unproved => print_line(alloc, &Answer::Unproved { question: number }),
    }
}
