//! Impls that may apply: they have rules for instances of goals.

ghost use Rattle.std.specs.Prelude.{◌≡◌, true, [], IfOk};
ghost use Rattle.sessions.specs.TypeTerms.Growth.{Grew};
ghost use Rattle.sessions.specs.Declarations.Held.{ReferenceHeld};
ghost use Rattle.sessions.specs.Declarations.Items.{declared};
ghost use Rattle.sessions.specs.InferTable.Content.{Ready};
ghost use Rattle.sessions.specs.CandidateAssembly.Ready.{AreReadyDeclarations};
ghost use Rattle.sessions.specs.ProofChecker.Steps.{term_of};
ghost use Rattle.explain_sessions.specs.Rules.{IsInstanceOf, MayHaveRule};

use crate::steps::impl_args;
use sessions::declarations::declarations::Declarations;
use sessions::declarations::laws::declarations_are_kept;
use sessions::infer_table::infer_ctxt::InferCtxt;
use sessions::proof_checker::links::follows_by_impl;
use sessions::proof_checker::steps::ImplSource;
use sessions::ready_impls_are_written_well;
use sessions::term_folds::predicate::TraitRef;
use sessions::type_terms::interner::Interner;
use sessions::type_terms::{Fault, ImplId};
use std::alloc::Global;

/// How many variables of each kind a goal may have, so that an impl's parameters are not confused with them. If it has more, an impl that
/// may apply can be missed, and one that is ruled out is not reported.
pub(crate) const GOAL_UNKNOWNS: u32 = 64;

/// A table in which the numbers of a goal's variables are taken, without values.
pub(crate) fn table_for_goals(alloc: Global, cx: &mut Interner) -> Result<InferCtxt, Fault>
    ensures ready { IfOk result (Ready cx.new.entries) }
    ensures no_values { IfOk result (λ table. table.values ≡ []) }
    ensures grew { Grew cx.old cx.new }
{
    let mut table = InferCtxt::new(alloc);
    'taken: for _taken in 0..GOAL_UNKNOWNS {
        table.next_ty_var(cx)?;
        table.next_const_var(cx)?;
        table.next_region_var()?;
    }
    Ok(table)
}

/// A trait reference with the table's values for its variables.
pub(crate) fn instance_in(
    cx: &mut Interner,
    table: &InferCtxt,
    reference: TraitRef,
) -> Result<TraitRef, Fault>
    requires ready { Ready cx.old.entries table.now }
    requires held { ReferenceHeld cx.old.entries reference }
    ensures grew { Grew cx.old cx.new }
    ensures held { IfOk result (ReferenceHeld cx.new.entries) }
    ensures instance { IfOk result (λ r. IsInstanceOf (term_of cx.old.entries reference) (term_of cx.new.entries r)) }
{
    cx.lawful();
    let args = table.eager_resolve_vars(cx, reference.args)?;
    Ok(TraitRef {
        def_id: reference.def_id,
        args,
    })
}

/// Whether an instance of a trait reference follows by an impl, whatever its where-clauses are. The table has the numbers of the variables.
fn has_instance_by(
    alloc: Global,
    cx: &mut Interner,
    declarations: &Declarations,
    table: &mut InferCtxt,
    reference: TraitRef,
    id: ImplId,
) -> Result<bool, Fault>
    requires ready { AreReadyDeclarations cx.old.entries declarations.now }
    requires table { Ready cx.old.entries table.old }
    requires reference { ReferenceHeld cx.old.entries reference }
    ensures grew { Grew cx.old cx.new }
    ensures rule { IfOk result (λ b. b ≡ true
        → MayHaveRule (declared cx.old.entries declarations.now) (term_of cx.old.entries reference) id.index) }
{
    ready_impls_are_written_well();
    declarations_are_kept();
    let Some(def) = declarations.impl_def(id) else {
        return Ok(false);
    };
    let Some(args) = impl_args(alloc, cx, table, def, reference)? else {
        return Ok(false);
    };
    let instance = instance_in(cx, table, reference)?;
    let source = ImplSource {
        impl_def_id: id,
        args,
    };
    follows_by_impl(alloc, cx, declarations, instance, source, &[])
}

/// Whether an instance of a trait reference follows by an impl, whatever its where-clauses are.
///
/// `false` says nothing, for example if the impl needs two lifetimes of a `for` to be equal.
pub(crate) fn may_follow(
    alloc: Global,
    cx: &mut Interner,
    declarations: &Declarations,
    reference: TraitRef,
    id: ImplId,
) -> Result<bool, Fault>
    requires ready { AreReadyDeclarations cx.old.entries declarations.now }
    requires reference { ReferenceHeld cx.old.entries reference }
    ensures grew { Grew cx.old cx.new }
    ensures rule { IfOk result (λ b. b ≡ true
        → MayHaveRule (declared cx.old.entries declarations.now) (term_of cx.old.entries reference) id.index) }
{
    declarations_are_kept();
    let mut table = table_for_goals(alloc, cx)?;
    has_instance_by(alloc, cx, declarations, &mut table, reference, id)
}
