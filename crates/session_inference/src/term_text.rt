//! Terms as text.

ghost use Rattle.std.specs.Prelude.{◌≡◌, ◌++◌, IfOk, OnOk, codes};
ghost use Rattle.std.specs.Fmt.{decimal};
ghost use Rattle.type_terms.specs.Promised.Handles.{ArgHeld, arg_trees};
ghost use Rattle.text_language.specs.Output.{type_text};
ghost use Rattle.text_printer.specs.Kinds.{sort_of_kind};
ghost use Rattle.session_inference.specs.TermTexts.{inference_names, variable_text};

use std::alloc::{AllocError, Global};
use text_printer::{HeaderNames, PrintNames, TermKind, print_const, print_type};
use text_tables::Workspace;
use type_terms::interner::Interner;
use type_terms::kinds::GenericArgKind;
use type_terms::{AdtId, TraitId};

/// The names in the terms of an inference session. A type variable is `?0t`, and a constant variable `?0c`. (So rustc prints them.) Parameters
/// of the function whose types are inferred are `!0t` and `!0c`.
#[derive(Clone, Copy)]
struct InferenceNames<'w> {
    workspace: &'w Workspace,
}

impl<'w> InferenceNames<'w> {
    /// The names of structs and traits.
    fn of_items(self) -> HeaderNames<'w>
        ensures workspace { result.workspace.now ≡ self.entry.workspace.now }
    {
        HeaderNames {
            workspace: self.workspace,
            params: &[],
        }
    }
}

/// Appends a mark, a number, and the letter of its kind.
fn push_variable(
    mark: &[u8],
    kind: TermKind,
    index: u32,
    out: &mut Vec<u8>,
) -> Result<(), AllocError>
    ensures { OnOk result (out.new.items ≡ out.old.items ++ variable_text mark.now (sort_of_kind kind) index) }
{
    out.extend_from_slice(mark)?;
    let digits = index.to_string(*out.allocator())?;
    out.extend_from_slice(digits.as_bytes())?;
    let letter = match kind {
        TermKind::Ty => b't',
        TermKind::Const => b'c',
    };
    out.push(letter)?;
    Ok(())
}

impl<'w> PrintNames for InferenceNames<'w> {
    ghost use Rattle.session_inference.specs.TermTexts.{inference_names};

    ghost names = { λ n. inference_names n.workspace.now };

    fn push_struct(&self, id: AdtId, out: &mut Vec<u8>) -> Result<(), AllocError> {
        self.of_items().push_struct(id, out)
    }

    fn push_trait(&self, id: TraitId, out: &mut Vec<u8>) -> Result<(), AllocError> {
        self.of_items().push_trait(id, out)
    }

    fn push_param(
        &self,
        _kind: TermKind,
        _index: u32,
        _out: &mut Vec<u8>,
    ) -> Result<(), AllocError> {
        Ok(())
    }

    fn push_placeholder(
        &self,
        kind: TermKind,
        index: u32,
        out: &mut Vec<u8>,
    ) -> Result<(), AllocError> {
        push_variable(b"!", kind, index, out)
    }

    fn push_unknown(
        &self,
        kind: TermKind,
        index: u32,
        out: &mut Vec<u8>,
    ) -> Result<(), AllocError> {
        push_variable(b"?", kind, index, out)
    }
}

/// The text of a term. That of a lifetime is empty.
pub(crate) fn text_of(
    alloc: Global,
    cx: &Interner,
    workspace: &Workspace,
    term: GenericArgKind,
) -> Result<Vec<u8>, AllocError>
    requires { ArgHeld cx.now.entries term }
    ensures { IfOk result (λ text. text.items ≡ type_text (inference_names workspace.now) (arg_trees cx.now.entries term)) }
{
    let mut text = Vec::new(alloc);
    let names = InferenceNames { workspace };
    match term {
        GenericArgKind::Ty(ty) => print_type(cx, &names, ty, &mut text)?,
        GenericArgKind::Const(constant) => print_const(cx, &names, constant, &mut text)?,
        GenericArgKind::Lifetime(_) => {}
    }
    Ok(text)
}
