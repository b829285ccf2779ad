//! Impls that an equation rules out for a goal: no values make their headers equal to it. For `(u8, bool): Show`, the header of
//! `impl<T> Show for (T, T)` is ruled out, though both begin with a tuple of two types.

ghost use Rattle.std.specs.Prelude.{◌≡◌, true, [], IfOk, OnOk};
ghost use Rattle.sessions.specs.TypeTerms.Promised.Erased.{erased_impl};
ghost use Rattle.sessions.specs.TypeTerms.Growth.{Grew};
ghost use Rattle.sessions.specs.TypeTerms.Promised.Handles.{trees_at};
ghost use Rattle.sessions.specs.TermFolds.Signatures.{StartsWithType};
ghost use Rattle.sessions.specs.Declarations.Held.{ImplHeld, ReferenceHeld};
ghost use Rattle.sessions.specs.Declarations.Items.{declared, impl_in};
ghost use Rattle.sessions.specs.InferTable.Content.{Ready, variables_of};
ghost use Rattle.sessions.specs.OverlapCheck.Written.{IsWrittenWell};
ghost use Rattle.sessions.specs.CandidateAssembly.Ready.{AreReadyDeclarations};
ghost use Rattle.sessions.specs.ProofChecker.Steps.{term_of};
ghost use Rattle.explain_sessions.specs.Rules.{HasNoImpl, HasNoRuleBy, HasNoRuleByImpl, begins_known};
ghost use Rattle.explain_sessions.specs.Unknowns.{speaks_of_known};

use sessions::declarations::declarations::Declarations;
use sessions::declarations::items::ImplDef;
use sessions::declarations::laws::declarations_are_kept;
use sessions::infer_table::certainty::EqError;
use sessions::infer_table::infer_ctxt::InferCtxt;
use sessions::overlap_check::equate::equate_impl_headers;
use sessions::overlap_check::header::{ImplHeader, fresh_impl_header};
use sessions::overlap_check::impl_rules_are_instances;
use sessions::ready_impls_are_written_well;
use sessions::term_folds::predicate::TraitRef;
use sessions::type_terms::interner::Interner;
use sessions::type_terms::{Fault, ImplId};
use std::alloc::Global;

/// Whether no values make the header of an impl equal to a trait reference over the table's variables. The table is as before.
fn is_apart(
    alloc: Global,
    cx: &mut Interner,
    table: &mut InferCtxt,
    def: &ImplDef,
    reference: TraitRef,
) -> Result<bool, Fault>
    requires table { Ready cx.old.entries table.old }
    requires no_values { table.old.values ≡ [] }
    requires held { ImplHeld cx.old.entries def.now }
    requires written { IsWrittenWell cx.old.entries def.now }
    requires reference { ReferenceHeld cx.old.entries reference }
    requires own { speaks_of_known (variables_of table.old) (trees_at cx.old.entries reference.args.0) ≡ true }
    ensures grew { Grew cx.old cx.new }
    ensures table { OnOk result (table.new ≡ table.old) }
    ensures apart { IfOk result (λ b. b ≡ true
        → (id : ImplId) → HasNoRuleBy (term_of cx.old.entries reference) (erased_impl (impl_in cx.old.entries id def.now))) }
{
    cx.lawful();
    impl_rules_are_instances();
    let place = table.snapshot();
    let header = fresh_impl_header(alloc, cx, table, def)?;
    let asked = ImplHeader {
        impl_args: header.impl_args,
        trait_ref: reference,
    };
    let equated = equate_impl_headers(alloc, cx, table, header, asked);
    table.roll_back(place);
    match equated {
        Ok(()) => Ok(false),
        Err(EqError::NoSolution) => Ok(true),
        Err(EqError::Fault(fault)) => Err(fault),
    }
}

/// The same for the impl with this number.
fn impl_is_apart(
    alloc: Global,
    cx: &mut Interner,
    declarations: &Declarations,
    table: &mut InferCtxt,
    reference: TraitRef,
    id: ImplId,
) -> Result<bool, Fault>
    requires ready { AreReadyDeclarations cx.old.entries declarations.now }
    requires table { Ready cx.old.entries table.old }
    requires no_values { table.old.values ≡ [] }
    requires reference { ReferenceHeld cx.old.entries reference }
    requires own { speaks_of_known (variables_of table.old) (trees_at cx.old.entries reference.args.0) ≡ true }
    ensures grew { Grew cx.old cx.new }
    ensures table { OnOk result (table.new ≡ table.old) }
    ensures apart { IfOk result (λ b. b ≡ true
        → HasNoRuleByImpl (declared cx.old.entries declarations.now) (term_of cx.old.entries reference) id.index) }
{
    ready_impls_are_written_well();
    match declarations.impl_def(id) {
        Some(def) => is_apart(alloc, cx, table, def, reference),
        None => Ok(false),
    }
}

/// Whether an equation rules out each impl that the heads do not. Then no impl has a rule for the trait reference, whatever its variables
/// stand for.
pub(crate) fn all_are_apart(
    alloc: Global,
    cx: &mut Interner,
    declarations: &Declarations,
    table: &mut InferCtxt,
    reference: TraitRef,
) -> Result<bool, Fault>
    requires ready { AreReadyDeclarations cx.old.entries declarations.now }
    requires table { Ready cx.old.entries table.old }
    requires no_values { table.old.values ≡ [] }
    requires reference { ReferenceHeld cx.old.entries reference }
    requires own { speaks_of_known (variables_of table.old) (trees_at cx.old.entries reference.args.0) ≡ true }
    requires first { StartsWithType (trees_at cx.old.entries reference.args.0) }
    requires known { begins_known (trees_at cx.old.entries reference.args.0) ≡ true }
    ensures grew { Grew cx.old cx.new }
    ensures none { IfOk result (λ b. b ≡ true
        → HasNoImpl (declared cx.old.entries declarations.now) (term_of cx.old.entries reference)) }
{
    impl_rules_are_instances();
    declarations_are_kept();
    let mut last = None;
    'impls: while let Some(id) = declarations.next_matching_impl(cx, reference, last) {
        if !impl_is_apart(alloc, cx, declarations, table, reference, id)? {
            return Ok(false);
        }
        last = Some(id);
    }
    Ok(true)
}
