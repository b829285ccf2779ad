//! The lines of the output.
ghost use Rattle.std.specs.Prelude.{◌≡◌, ◌++◌, ◌∷◌, [], IfOk, OnOk, map, codes};
ghost use Rattle.text_language.specs.Output.{output_text, accepted, fault, nonlocal, uncovered, overlap, compatible, breaking, held, missing, undecided, clause_text, yes, maybe, unproved, no, unrefuted, value_text, values_text, before_text};
ghost use Rattle.text_printer.specs.Answers.{answer_of, value_of, text_of, more_values};
ghost use Rattle.text_printer.specs.Answers as answers;
ghost use Rattle.std.specs.Option.{option_map};
ghost use Rattle.text_language.specs.Output as output;

use crate::printer::push_number;
use std::alloc::{AllocError, Global};

/// The value of a variable of a query, as text.
#[derive(Drop)]
pub struct ValueText {
    /// The variable's name, without `?`.
    pub variable: Vec<u8>,
    /// The type or constant.
    pub term: Vec<u8>,
}

/// A line of the output. Crates go by their names, impls and queries by their numbers from 1, and types by their texts.
#[derive(Clone, Copy)]
pub enum Answer<'a> {
    /// `line 3: fault 5`: the first faulty line of the text, counted from 1, with the number of its fault. It is the only line of its
    /// output.
    Fault {
        line: u32,
        number: u32,
    },
    /// `crate a: accepted`: the crate keeps the orphan rule, and no two impls that it brings together overlap.
    Accepted {
        name: &'a [u8],
    },
    /// `crate a: orphan impl 1 nonlocal`: an impl's header has no local type. rustc: `NonLocalInputType`.
    Nonlocal {
        name: &'a [u8],
        number: u32,
    },
    /// `crate a: orphan impl 1 uncovered T before B`: an impl's header has a parameter before its first local type, if it has one. rustc:
    /// `UncoveredTyParams`.
    Uncovered {
        name: &'a [u8],
        number: u32,
        param: &'a [u8],
        before: Option<&'a [u8]>,
    },
    /// `crate a: overlap impl 2 with base 1`: an impl of the crate and one of the other crate overlap.
    Overlap {
        name: &'a [u8],
        number: u32,
        other: &'a [u8],
        other_number: u32,
    },
    /// `later a: compatible`: a later version of the crate may add the impls of the section.
    Compatible {
        name: &'a [u8],
    },
    /// `later a: breaking impl 2`: it may not. The number is that of the first impl of the section that it may not add.
    Breaking {
        name: &'a [u8],
        number: u32,
    },
    /// `supers a: held`: the supertraits of all headers of the crate have proofs.
    Held {
        name: &'a [u8],
    },
    /// `supers a: missing impl 3 clause 1`: the search found no proof of a supertrait of an impl's header. Supertraits count from 1.
    Missing {
        name: &'a [u8],
        number: u32,
        clause: u32,
    },
    /// `supers a: undecided impl 3 clause 1`: the search does not know whether a supertrait of an impl's header has a proof.
    Undecided {
        name: &'a [u8],
        number: u32,
        clause: u32,
    },
    /// `prove 1: yes ?x = u8`: the query has a proof, with these values for its variables.
    Yes {
        question: u32,
        values: &'a [ValueText],
    },
    /// `prove 1: maybe ?x = V<?1>`: the search does not know, within the limits. What is known of its variables are these values.
    Maybe {
        question: u32,
        values: &'a [ValueText],
    },
    /// `prove 1: unproved`: the search found no proof of the query.
    Unproved {
        question: u32,
    },
    /// `refute 2: no`: the query has no proof in any linked set with the crate.
    No {
        question: u32,
    },
    /// `refute 2: open`: the query was not refused.
    Open {
        question: u32,
    },
}

/// How the line of a crate begins.
fn crate_start(alloc: Global, name: &[u8]) -> Result<Vec<u8>, AllocError>
    ensures { IfOk result (λ text. text.items ≡ output.crate_start name.now) }
{
    let mut text = Vec::new(alloc);
    text.extend_from_slice(b"crate ")?;
    text.extend_from_slice(name)?;
    text.extend_from_slice(b": ")?;
    Ok(text)
}

/// How the line of a section begins.
fn later_start(alloc: Global, name: &[u8]) -> Result<Vec<u8>, AllocError>
    ensures { IfOk result (λ text. text.items ≡ output.later_start name.now) }
{
    let mut text = Vec::new(alloc);
    text.extend_from_slice(b"later ")?;
    text.extend_from_slice(name)?;
    text.extend_from_slice(b": ")?;
    Ok(text)
}

/// How the line for a crate's supertraits begins.
fn supers_start(alloc: Global, name: &[u8]) -> Result<Vec<u8>, AllocError>
    ensures { IfOk result (λ text. text.items ≡ output.supers_start name.now) }
{
    let mut text = Vec::new(alloc);
    text.extend_from_slice(b"supers ")?;
    text.extend_from_slice(name)?;
    text.extend_from_slice(b": ")?;
    Ok(text)
}

/// How the line of a `prove` query begins.
fn prove_start(alloc: Global, question: u32) -> Result<Vec<u8>, AllocError>
    ensures { IfOk result (λ text. text.items ≡ output.prove_start question) }
{
    let mut text = Vec::new(alloc);
    text.extend_from_slice(b"prove ")?;
    push_number(&mut text, u64::from(question))?;
    text.extend_from_slice(b": ")?;
    Ok(text)
}

/// How the line of a `refute` query begins.
fn refute_start(alloc: Global, question: u32) -> Result<Vec<u8>, AllocError>
    ensures { IfOk result (λ text. text.items ≡ output.refute_start question) }
{
    let mut text = Vec::new(alloc);
    text.extend_from_slice(b"refute ")?;
    push_number(&mut text, u64::from(question))?;
    text.extend_from_slice(b": ")?;
    Ok(text)
}

fn fault_line(alloc: Global, line: u32, number: u32) -> Result<Vec<u8>, AllocError>
    ensures { IfOk result (λ text. text.items ≡ output_text (fault line number)) }
{
    let mut text = Vec::new(alloc);
    text.extend_from_slice(b"line ")?;
    push_number(&mut text, u64::from(line))?;
    text.extend_from_slice(b": fault ")?;
    push_number(&mut text, u64::from(number))?;
    text.push(b'\n')?;
    Ok(text)
}

fn accepted_line(alloc: Global, name: &[u8]) -> Result<Vec<u8>, AllocError>
    ensures { IfOk result (λ text. text.items ≡ output_text (accepted name.now)) }
{
    let mut text = crate_start(alloc, name)?;
    text.extend_from_slice(b"accepted\n")?;
    Ok(text)
}

/// How the line of a crate with an orphan impl begins.
fn orphan_start(alloc: Global, name: &[u8], number: u32) -> Result<Vec<u8>, AllocError>
    ensures { IfOk result (λ text. text.items ≡ answers.orphan_start name.now number) }
{
    let mut text = crate_start(alloc, name)?;
    text.extend_from_slice(b"orphan impl ")?;
    push_number(&mut text, u64::from(number))?;
    Ok(text)
}

fn nonlocal_line(alloc: Global, name: &[u8], number: u32) -> Result<Vec<u8>, AllocError>
    ensures { IfOk result (λ text. text.items ≡ output_text (nonlocal name.now number)) }
{
    let mut text = orphan_start(alloc, name, number)?;
    text.extend_from_slice(b" nonlocal\n")?;
    Ok(text)
}

fn push_before(text: &mut Vec<u8>, before: Option<&[u8]>) -> Result<(), AllocError>
    ensures { OnOk result (text.new.items ≡ text.old.items ++ before_text (option_map text_of before.entry)) }
{
    match before {
        None => Ok(()),
        Some(local) => {
            text.extend_from_slice(b" before ")?;
            text.extend_from_slice(local)
        }
    }
}

fn uncovered_line(
    alloc: Global,
    name: &[u8],
    number: u32,
    param: &[u8],
    before: Option<&[u8]>,
) -> Result<Vec<u8>, AllocError>
    ensures { IfOk result (λ text. text.items ≡ output_text (uncovered name.now number param.now (option_map text_of before.entry))) }
{
    let mut text = orphan_start(alloc, name, number)?;
    text.extend_from_slice(b" uncovered ")?;
    text.extend_from_slice(param)?;
    push_before(&mut text, before)?;
    text.push(b'\n')?;
    Ok(text)
}

fn overlap_line(
    alloc: Global,
    name: &[u8],
    number: u32,
    other: &[u8],
    other_number: u32,
) -> Result<Vec<u8>, AllocError>
    ensures { IfOk result (λ text. text.items ≡ output_text (overlap name.now number other.now other_number)) }
{
    let mut text = crate_start(alloc, name)?;
    text.extend_from_slice(b"overlap impl ")?;
    push_number(&mut text, u64::from(number))?;
    text.extend_from_slice(b" with ")?;
    text.extend_from_slice(other)?;
    text.extend_from_slice(b" ")?;
    push_number(&mut text, u64::from(other_number))?;
    text.push(b'\n')?;
    Ok(text)
}

fn compatible_line(alloc: Global, name: &[u8]) -> Result<Vec<u8>, AllocError>
    ensures { IfOk result (λ text. text.items ≡ output_text (compatible name.now)) }
{
    let mut text = later_start(alloc, name)?;
    text.extend_from_slice(b"compatible\n")?;
    Ok(text)
}

fn breaking_line(alloc: Global, name: &[u8], number: u32) -> Result<Vec<u8>, AllocError>
    ensures { IfOk result (λ text. text.items ≡ output_text (breaking name.now number)) }
{
    let mut text = later_start(alloc, name)?;
    text.extend_from_slice(b"breaking impl ")?;
    push_number(&mut text, u64::from(number))?;
    text.push(b'\n')?;
    Ok(text)
}

fn held_line(alloc: Global, name: &[u8]) -> Result<Vec<u8>, AllocError>
    ensures { IfOk result (λ text. text.items ≡ output_text (held name.now)) }
{
    let mut text = supers_start(alloc, name)?;
    text.extend_from_slice(b"held\n")?;
    Ok(text)
}

/// Appends which supertrait of which impl it is, and the end of the line.
fn push_clause(text: &mut Vec<u8>, number: u32, clause: u32) -> Result<(), AllocError>
    ensures { OnOk result (text.new.items ≡ text.old.items ++ (clause_text number clause ++ 10 ∷ [])) }
{
    text.extend_from_slice(b" impl ")?;
    push_number(text, u64::from(number))?;
    text.extend_from_slice(b" clause ")?;
    push_number(text, u64::from(clause))?;
    text.push(b'\n')?;
    Ok(())
}

fn missing_line(alloc: Global, name: &[u8], number: u32, clause: u32) -> Result<Vec<u8>, AllocError>
    ensures { IfOk result (λ text. text.items ≡ output_text (missing name.now number clause)) }
{
    let mut text = supers_start(alloc, name)?;
    text.extend_from_slice(b"missing")?;
    push_clause(&mut text, number, clause)?;
    Ok(text)
}

fn undecided_line(
    alloc: Global,
    name: &[u8],
    number: u32,
    clause: u32,
) -> Result<Vec<u8>, AllocError>
    ensures { IfOk result (λ text. text.items ≡ output_text (undecided name.now number clause)) }
{
    let mut text = supers_start(alloc, name)?;
    text.extend_from_slice(b"undecided")?;
    push_clause(&mut text, number, clause)?;
    Ok(text)
}

fn push_value(text: &mut Vec<u8>, value: &ValueText) -> Result<(), AllocError>
    ensures { OnOk result (text.new.items ≡ text.old.items ++ value_text (value_of value.now)) }
{
    text.extend_from_slice(b"?")?;
    text.extend_from_slice(&value.variable)?;
    text.extend_from_slice(b" = ")?;
    text.extend_from_slice(&value.term)?;
    Ok(())
}

fn push_values(text: &mut Vec<u8>, values: &[ValueText]) -> Result<(), AllocError>
    ensures { OnOk result (text.new.items ≡ text.old.items ++ values_text (map value_of values.now)) }
{
    match values.split_first() {
        None => Ok(()),
        Some((first, rest)) => {
            text.extend_from_slice(b" ")?;
            push_value(text, first)?;
            push_more_values(text, rest)?;
            Ok(())
        }
    }
}

/// Appends the values after the first one.
fn push_more_values(text: &mut Vec<u8>, values: &[ValueText]) -> Result<(), AllocError>
    ensures { OnOk result (text.new.items ≡ text.old.items ++ more_values (map value_of values.now)) }
{
    for value in values {
        text.extend_from_slice(b", ")?;
        push_value(text, value)?;
    }
    Ok(())
}

fn yes_line(alloc: Global, question: u32, values: &[ValueText]) -> Result<Vec<u8>, AllocError>
    ensures { IfOk result (λ text. text.items ≡ output_text (yes question (map value_of values.now))) }
{
    let mut text = prove_start(alloc, question)?;
    text.extend_from_slice(b"yes")?;
    push_values(&mut text, values)?;
    text.push(b'\n')?;
    Ok(text)
}

fn maybe_line(alloc: Global, question: u32, values: &[ValueText]) -> Result<Vec<u8>, AllocError>
    ensures { IfOk result (λ text. text.items ≡ output_text (maybe question (map value_of values.now))) }
{
    let mut text = prove_start(alloc, question)?;
    text.extend_from_slice(b"maybe")?;
    push_values(&mut text, values)?;
    text.push(b'\n')?;
    Ok(text)
}

fn unproved_line(alloc: Global, question: u32) -> Result<Vec<u8>, AllocError>
    ensures { IfOk result (λ text. text.items ≡ output_text (unproved question)) }
{
    let mut text = prove_start(alloc, question)?;
    text.extend_from_slice(b"unproved\n")?;
    Ok(text)
}

fn no_line(alloc: Global, question: u32) -> Result<Vec<u8>, AllocError>
    ensures { IfOk result (λ text. text.items ≡ output_text (no question)) }
{
    let mut text = refute_start(alloc, question)?;
    text.extend_from_slice(b"no\n")?;
    Ok(text)
}

fn open_line(alloc: Global, question: u32) -> Result<Vec<u8>, AllocError>
    ensures { IfOk result (λ text. text.items ≡ output_text (unrefuted question)) }
{
    let mut text = refute_start(alloc, question)?;
    text.extend_from_slice(b"open\n")?;
    Ok(text)
}

/// The text of a line, with its line end. Fails only if memory is refused.
pub fn print_line(alloc: Global, answer: &Answer<'_>) -> Result<Vec<u8>, AllocError>
    ensures { IfOk result (λ text. text.items ≡ output_text (answer_of answer.now)) }
{
    match answer {
        Answer::Fault { line, number } => fault_line(alloc, *line, *number),
        Answer::Accepted { name } => accepted_line(alloc, name),
        Answer::Nonlocal { name, number } => nonlocal_line(alloc, name, *number),
        Answer::Uncovered {
            name,
            number,
            param,
            before,
        } => uncovered_line(alloc, name, *number, param, *before),
        Answer::Overlap {
            name,
            number,
            other,
            other_number,
        } => overlap_line(alloc, name, *number, other, *other_number),
        Answer::Compatible { name } => compatible_line(alloc, name),
        Answer::Breaking { name, number } => breaking_line(alloc, name, *number),
        Answer::Held { name } => held_line(alloc, name),
        Answer::Missing {
            name,
            number,
            clause,
        } => missing_line(alloc, name, *number, *clause),
        Answer::Undecided {
            name,
            number,
            clause,
        } => undecided_line(alloc, name, *number, *clause),
        Answer::Yes { question, values } => yes_line(alloc, *question, values),
        Answer::Maybe { question, values } => maybe_line(alloc, *question, values),
        Answer::Unproved { question } => unproved_line(alloc, *question),
        Answer::No { question } => no_line(alloc, *question),
        Answer::Open { question } => open_line(alloc, *question),
    }
}
