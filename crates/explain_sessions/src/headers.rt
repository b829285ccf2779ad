//! Headers of impls, equated.

ghost use Rattle.std.specs.Prelude.{IfOk, IfSome};
ghost use Rattle.sessions.specs.TypeTerms.Promised.Handles.{Has};
ghost use Rattle.sessions.specs.TypeTerms.Terms.{args_lists};
ghost use Rattle.sessions.specs.TypeTerms.Growth.{Grew};
ghost use Rattle.sessions.specs.Declarations.Held.{ReferenceHeld};
ghost use Rattle.sessions.specs.InferTable.Content.{Ready};

use sessions::infer_table::certainty::EqError;
use sessions::infer_table::infer_ctxt::InferCtxt;
use sessions::overlap_check::equate::equate_impl_headers;
use sessions::overlap_check::header::ImplHeader;
use sessions::type_terms::Fault;
use sessions::type_terms::interner::Interner;
use sessions::type_terms::kinds::GenericArgs;
use std::alloc::Global;

/// The value of these arguments over the table where two headers are equal. `None` if they cannot be equal.
pub(crate) fn args_where_equal(
    alloc: Global,
    cx: &mut Interner,
    table: &mut InferCtxt,
    left: ImplHeader,
    right: ImplHeader,
    args: GenericArgs,
) -> Result<Option<GenericArgs>, Fault>
    requires table { Ready cx.old.entries table.old }
    requires left { ReferenceHeld cx.old.entries left.trait_ref }
    requires right { ReferenceHeld cx.old.entries right.trait_ref }
    requires args { Has cx.old.entries args_lists args.0 }
    ensures table { Ready cx.new.entries table.new }
    ensures grew { Grew cx.old cx.new }
    ensures held { IfOk result (λ o. IfSome o (λ a. Has cx.new.entries args_lists a.0)) }
{
    match equate_impl_headers(alloc, cx, table, left, right) {
        Ok(()) => {
            let resolved = table.eager_resolve_vars(cx, args)?;
            Ok(Some(resolved))
        }
        Err(EqError::NoSolution) => Ok(None),
        Err(EqError::Fault(fault)) => Err(fault),
    }
}
