//! The impls that a later version of the local crate adds, and whether it may add them.
//!
//! - `impl Show for Local` and `impl<T> Show for Vec<T>` may be added: no user can write an impl for `Vec<Theirs>`.
//! - `impl<T> Show for T`, `impl<T> Show for &T` and `impl<T> Convert<T> for Local` may not: a user may write `impl Show for Theirs`,
//!   `impl Show for &Theirs` or `impl Convert<Theirs> for Local`.

ghost use Rattle.std.specs.Prelude.{◌≡◌, ◌≤◌, ◌||◌, List, length, map, IfOk, IfErr};
ghost use Rattle.type_terms.specs.Promised.LinkedSet.{InEveryLinkedSet};
ghost use Rattle.type_terms.specs.Promised.Erased.{erased_reference};
ghost use Rattle.type_terms.specs.Promised.Versions.{is_addable};
ghost use Rattle.type_terms.specs.Promised.Walks.{trait_is};
ghost use Rattle.type_terms.specs.Promised.Handles.{Entry};
ghost use Rattle.type_terms.specs.Growth.{FullAtLimit};
ghost use Rattle.declarations.specs.Held.{ImplHeld, ReferenceHeld};
ghost use Rattle.declarations.specs.Items.{declared, reference_in};
ghost use Rattle.declarations.specs.Promised.Elaboration.{Each};
ghost use Rattle.text_tables.specs.declared.tables.TheConstants.{ENTRY_LIMIT};
ghost use Rattle.sessions.specs.Checking.{IsReadySolver, SolverStaysReady, rules_in};
ghost use Rattle.sessions.specs.Promised.Given.{later_of};
ghost use Rattle.sessions.specs.Later.{IsAnswerOn, OldRefutationsStay, header_in, section_headers};
ghost use Rattle.sessions.specs.Promised.Releases.{AddedImplsBreakNoUser, OldProofsStay};
ghost use Rattle.sessions.specs.Promised.Subjects.{IsOfText};

use crate::answers::LaterAnswer;
use crate::asked::rest_laws;
use candidate_assembly::solver::Solver;
use declarations::declarations::Declarations;
use declarations::items::ImplDef;
use orphan_check::laws::walks_and_errors;
use orphan_check::open_walk::open_walk_meets_param;
use orphan_check::orphan::keeps_orphan_rule;
use solver_graph::SolverCx;
use term_folds::predicate::TraitRef;
use text_lowering::laws::later_impls_begin_declared;
use text_lowering::lower_later;
use text_tables::Workspace;
use type_terms::interner::Interner;
use type_terms::laws::{
    added_by_the_view_is_added, later_impls_conclude_nothing_known, later_versions_break_no_user,
};
use type_terms::{Fault, TraitId};

/// An impl that a later version of a crate may add, by the crate's own view, overlaps no impl that a user of the crate may write. It
/// concludes nothing that is knowable in a crate that the changed crate does not see.
pub fn added_impls_break_no_user()
    ensures { InEveryLinkedSet AddedImplsBreakNoUser }
{
    added_by_the_view_is_added();
    later_versions_break_no_user();
    later_impls_conclude_nothing_known();
}

/// What was answered of an old version, and holds with the new one.
///
/// - If the new version proves the header of each old impl from its where-clauses, and auto traits stay, each bound without parameters that
///   had a proof has one. So an impl may go or change.
/// - If the new version only loses impls, or gives them more where-clauses, what had no solution has none.
pub fn old_answers_stay()
    ensures yes { InEveryLinkedSet OldProofsStay }
    ensures no { InEveryLinkedSet OldRefutationsStay }
{}

/// Whether users may rely on the trait not being implemented: it is fundamental or auto.
pub fn trait_is_relied_on(declarations: &Declarations, id: TraitId) -> bool
    ensures { (es : List Entry) → let V = declared es declarations.now in
        result ≡ (trait_is (λ x. x.is_fundamental) V id.index || trait_is (λ x. x.is_auto) V id.index) }
{
    match declarations.trait_def(id) {
        Some(def) => def.is_fundamental || def.is_auto,
        None => false,
    }
}

/// Whether a later version of the local crate may add an impl with this header: it keeps the orphan rule, its trait is neither fundamental
/// nor auto, and its open walk meets no parameter. The header is read as it is declared.
fn is_addable(cx: &Interner, declarations: &Declarations, header: TraitRef) -> bool
    requires { ReferenceHeld cx.now.entries header }
    ensures { let es = cx.now.entries in result ≡ is_addable (declared es declarations.now) declarations.now.local (erased_reference (reference_in es header)) }
{
    walks_and_errors();
    keeps_orphan_rule(cx, declarations, header)
        && !open_walk_meets_param(cx, declarations, header)
        && !trait_is_relied_on(declarations, header.def_id)
}

/// The first of these impls that a later version of the local crate may not add, counted from 1, if there is one.
fn first_breaking(cx: &Interner, declarations: &Declarations, impls: &[ImplDef]) -> LaterAnswer
    requires held { Each (ImplHeld cx.now.entries) impls.now }
    requires few { length impls.now ≤ ENTRY_LIMIT }
    ensures { let es = cx.now.entries in IsAnswerOn (declared es declarations.now) declarations.now.local (map (header_in es) impls.now) (later_of result) }
{
    for (index, def) in impls.iter().enumerate() {
        if !is_addable(cx, declarations, def.header) {
            return LaterAnswer::Breaking(index as u32 + 1);
        }
    }
    LaterAnswer::Compatible
}

/// The impls of the section with this number, as terms of the context. Sections count from 0. The errors are those of `lower_later`.
pub fn added_impls(
    cx: &mut SolverCx<Solver>,
    workspace: &Workspace,
    section: u32,
) -> Result<Vec<ImplDef>, Fault>
    requires ready { IsReadySolver cx.old }
    requires text { IsOfText workspace.now }
    ensures advances { SolverStaysReady cx.old cx.new }
    ensures headers { IfOk result (λ defs. map (header_in cx.new.interner.entries) defs.items ≡ section_headers workspace.now section) }
    ensures held { IfOk result (λ defs. Each (ImplHeld cx.new.interner.entries) defs.items) }
    ensures few { IfOk result (λ defs. length defs.items ≤ ENTRY_LIMIT) }
    ensures limit { cx.new.interner.limit ≡ cx.old.interner.limit }
    ensures full { IfErr result (FullAtLimit cx.new.interner) }
{
    rest_laws::<Solver>();
    later_impls_begin_declared();
    let _ = workspace.crates();
    let impls = lower_later(cx.alloc, &mut cx.interner, workspace, section);
    cx.interner.lawful();
    impls
}

/// Whether a later version of the local crate may add the impls of the section with this number. Sections count from 0.
///
/// Everything stays ready, after a fault too. Fails with `Memory` if memory is refused, or with `Full` if a table is full.
pub(crate) fn later_answer(
    cx: &mut SolverCx<Solver>,
    workspace: &Workspace,
    section: u32,
) -> Result<LaterAnswer, Fault>
    requires ready { IsReadySolver cx.old }
    requires text { IsOfText workspace.now }
    ensures advances { SolverStaysReady cx.old cx.new }
    ensures answer { IfOk result (λ a. IsAnswerOn (rules_in cx.old) cx.old.handler.declarations.local (section_headers workspace.now section) (later_of a)) }
    ensures limit { cx.new.interner.limit ≡ cx.old.interner.limit }
    ensures full { IfErr result (FullAtLimit cx.new.interner) }
{
    let impls = added_impls(cx, workspace, section)?;
    Ok(first_breaking(&cx.interner, &cx.handler.declarations, &impls))
}
