//! The terms, the declarations and the values of variables for an orphan walk.
use declarations::declarations::Declarations;
use infer_table::infer_ctxt::InferCtxt;
use type_terms::interner::Interner;

/// What an orphan walk reads. rustc: the `infcx` of `orphan_check_trait_ref`, which gives all three.
#[derive(Clone, Copy)]
pub struct OrphanCtxt<'a> {
    /// The terms.
    pub cx: &'a Interner,
    /// The values of inference variables.
    pub infcx: &'a InferCtxt,
    /// The view of this crate. It knows which crate is local.
    pub decls: &'a Declarations,
}
