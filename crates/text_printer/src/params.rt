//! Parameters and variables of one kind.
ghost use Rattle.std.specs.Prelude.{◌≡◌, ◌++◌, slice_get, filter, OnOk};
ghost use Rattle.std.specs.Option.{option_map};
ghost use Rattle.type_terms.specs.Promised.Trees.{is_sort};
ghost use Rattle.text_printer.specs.Kinds as term;
ghost use Rattle.text_tables.specs.Views as param;

use crate::names::TermKind;
use std::alloc::AllocError;
use text_tables::{Param, ParamKind};

fn is_of(kind: ParamKind, wanted: TermKind) -> bool
    ensures { result ≡ is_sort (param.sort_of_kind kind) (term.sort_of_kind wanted) }
{
    match kind {
        ParamKind::Lifetime => false,
        ParamKind::Type => wanted == TermKind::Ty,
        ParamKind::Const => wanted == TermKind::Const,
    }
}

/// The parameter with this number among those of its kind, counted from 0.
pub(crate) fn nth_of_kind(params: &[Param], kind: TermKind, index: u32) -> Option<&Param>
    ensures { option_map (λ p. p.now) result ≡ slice_get (filter (λ p. is_sort (param.sort_of_kind p.kind) (term.sort_of_kind kind)) params.now) index }
{
    let mut left = index;
    for param in params {
        if is_of(param.kind, kind) {
            if left == 0 {
                return Some(param);
            }
            left -= 1;
        }
    }
    None
}

/// Appends the name of a parameter without the marks of its kind: `a` of `'a`, `N` of `const N`.
pub(crate) fn push_name(param: &Param, out: &mut Vec<u8>) -> Result<(), AllocError>
    ensures { OnOk result (out.new.items ≡ out.old.items ++ param.now.name.items) }
{
    out.extend_from_slice(&param.name)
}
