//! The values of a query as texts.
ghost use Rattle.std.specs.Prelude.{◌≡◌, map, IfOk};
ghost use Rattle.text_language.specs.Names as names;
ghost use Rattle.text_language.specs.Output.{type_text};
ghost use Rattle.text_printer.specs.Answers.{value_of};
ghost use Rattle.type_terms.specs.Promised.Handles.{arg_trees, ArgHeld, ArgsHeld};
ghost use Rattle.text_tables.specs.Views.{question_of};
ghost use Rattle.text_printer.specs.Listed.{listed_of, ListHeld};
ghost use Rattle.text_printer.specs.Valued.{printed_names, text_by};

use crate::answer::ValueText;
use crate::free::free_unknowns;
use crate::listed::{Listed, listed_values};
use crate::printer::{print_const, print_type};
use crate::question::QuestionNames;
use std::alloc::{AllocError, Global};
use text_tables::{QuestionEntry, Workspace};
use type_terms::interner::Interner;
use type_terms::kinds::GenericArgKind;

/// The text of a value. Lifetimes have none.
fn value_term(
    alloc: Global,
    cx: &Interner,
    names: &QuestionNames<'_>,
    value: GenericArgKind,
) -> Result<Vec<u8>, AllocError>
    requires { ArgHeld cx.now.entries value }
    ensures { IfOk result (λ text. text.items ≡ type_text (printed_names names.now) (arg_trees cx.now.entries value)) }
{
    let mut text = Vec::new(alloc);
    match value {
        GenericArgKind::Lifetime(_) => Ok(text),
        GenericArgKind::Ty(ty) => {
            print_type(cx, names, ty, &mut text)?;
            Ok(text)
        }
        GenericArgKind::Const(ct) => {
            print_const(cx, names, ct, &mut text)?;
            Ok(text)
        }
    }
}

/// A variable and its value as texts.
fn value_text(
    alloc: Global,
    cx: &Interner,
    names: &QuestionNames<'_>,
    listed: Listed<'_>,
) -> Result<ValueText, AllocError>
    requires { ArgHeld cx.now.entries listed.value }
    ensures { IfOk result (λ text. value_of text ≡ text_by (printed_names names.now) (listed_of cx.now.entries listed.entry)) }
{
    let mut variable = Vec::new(alloc);
    variable.extend_from_slice(&listed.variable.name)?;
    let term = value_term(alloc, cx, names, listed.value)?;
    Ok(ValueText { variable, term })
}

fn value_texts(
    alloc: Global,
    cx: &Interner,
    names: &QuestionNames<'_>,
    listed: &[Listed<'_>],
) -> Result<Vec<ValueText>, AllocError>
    requires { ListHeld cx.now.entries listed.now }
    ensures { IfOk result (λ texts. map value_of texts.items ≡ map (text_by (printed_names names.now)) (map (listed_of cx.now.entries) listed.now)) }
{
    let mut texts = Vec::new(alloc);
    for one in listed {
        let text = value_text(alloc, cx, names, *one)?;
        texts.push(text)?;
    }
    Ok(texts)
}

/// The values of a query's variables as texts. `values` has a type or a constant for each variable, in the order of first occurrence.
///
/// A variable is left out if its value is the inference variable that stands for it. So if several variables have the same inference
/// variable as value, one of them is left out, and the others are printed as it. Inference variables that stand for no variable are `?1`,
/// `?2`, in the order of first occurrence in the line.
///
/// Fails only if memory is refused.
pub fn answer_values(
    alloc: Global,
    cx: &Interner,
    workspace: &Workspace,
    question: &QuestionEntry,
    values: &[GenericArgKind],
) -> Result<Vec<ValueText>, AllocError>
    requires { ArgsHeld cx.now.entries values.now }
    ensures { IfOk result (λ texts. map value_of texts.items
        ≡ names.answer_values workspace.now (question_of question.now) (map (arg_trees cx.now.entries) values.now)) }
{
    let listed = listed_values(alloc, cx, &question.variables, values)?;
    let free = free_unknowns(alloc, cx, question, &listed)?;
    let names = QuestionNames {
        workspace,
        question,
        free: &free,
    };
    value_texts(alloc, cx, &names, &listed)
}
