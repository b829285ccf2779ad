//! Types as text.

ghost use Rattle.explain_sessions.specs.TypeTerms.Promised.Handles.{Has, types};

use explain_diagnostics::{TYPE_LIMIT, cut_text};
use explain_sessions::type_terms::interner::Interner;
use explain_sessions::type_terms::kinds::Ty;
use std::alloc::{AllocError, Global};
use text_printer::{PrintNames, print_type_within};

/// A type as text, cut if it is long.
pub(crate) fn type_text<N: PrintNames>(
    alloc: Global,
    cx: &Interner,
    names: &N,
    ty: Ty,
) -> Result<String, AllocError>
    requires { Has cx.now.entries types ty.0 }
{
    let mut out = Vec::new(alloc);
    print_type_within(cx, names, ty, TYPE_LIMIT + 1, &mut out)?;
    cut_text(alloc, &out, TYPE_LIMIT)
}
