//! Why a later version of a crate may not add an impl.

ghost use Rattle.std.specs.Prelude.{IfOk, map};
ghost use Rattle.sessions.specs.TypeTerms.Promised.Erased.{erased_reference};
ghost use Rattle.sessions.specs.Declarations.Held.{ImplHeld, ReferenceHeld};
ghost use Rattle.sessions.specs.Declarations.Items.{declared, reference_in};
ghost use Rattle.sessions.specs.Declarations.Promised.Elaboration.{Each};
ghost use Rattle.sessions.specs.Checking.{IsReadySolver, SolverStaysReady, rules_in};
ghost use Rattle.sessions.specs.Later.{header_in, section_headers};
ghost use Rattle.sessions.specs.Promised.Subjects.{IsOfText};
ghost use Rattle.explain_sessions.specs.Causes.{IsCauseAt, IsCauseOf};

use sessions::candidate_assembly::solver::Solver;
use sessions::declarations::declarations::Declarations;
use sessions::declarations::items::ImplDef;
use sessions::orphan_check::laws::walks_and_errors;
use sessions::orphan_check::open_walk::open_walk_meets_param;
use sessions::orphan_check::orphan::keeps_orphan_rule;
use sessions::solver_graph::SolverCx;
use sessions::term_folds::predicate::TraitRef;
use sessions::text_tables::Workspace;
use sessions::type_terms::Fault;
use sessions::type_terms::interner::Interner;
use sessions::{added_impls, trait_is_relied_on};

/// Why a later version of a crate may not add an impl.
#[derive(Clone, Copy)]
pub enum BreakingCause {
    /// Its header breaks the crate's orphan rule.
    Orphan,
    /// Its trait is fundamental or auto, so users may rely on it not being implemented.
    ReliedOn,
    /// Its open walk meets a parameter.
    OpenWalk,
}

/// Why a later version of the local crate may not add an impl with this header. `None` if it may. The header is read as it is declared.
fn cause_of(cx: &Interner, declarations: &Declarations, header: TraitRef) -> Option<BreakingCause>
    requires { ReferenceHeld cx.now.entries header }
    ensures { let es = cx.now.entries in IsCauseOf (declared es declarations.now) declarations.now.local (erased_reference (reference_in es header)) result }
{
    walks_and_errors();
    if !keeps_orphan_rule(cx, declarations, header) {
        return Some(BreakingCause::Orphan);
    }
    if trait_is_relied_on(declarations, header.def_id) {
        return Some(BreakingCause::ReliedOn);
    }
    if open_walk_meets_param(cx, declarations, header) {
        return Some(BreakingCause::OpenWalk);
    }
    None
}

/// Why a later version of the local crate may not add the impl with this number, counted from 1. `None` if it may, or if there is none.
fn cause_at(
    cx: &Interner,
    declarations: &Declarations,
    impls: &[ImplDef],
    number: u32,
) -> Option<BreakingCause>
    requires { Each (ImplHeld cx.now.entries) impls.now }
    ensures { let es = cx.now.entries in IsCauseAt (declared es declarations.now) declarations.now.local (map (header_in es) impls.now) number result }
{
    if number == 0 {
        return None;
    }
    let place = (number - 1) as usize;
    if place < impls.len() {
        cause_of(cx, declarations, impls[place].header)
    } else {
        None
    }
}

/// Why a later version of the local crate may not add the impl of a section with this number, counted from 1. `None` if it may, or if there
/// is none.
///
/// Everything stays ready, after a fault too. Fails with `Memory` if memory is refused, or with `Full` if a table is full.
pub(crate) fn breaking_cause(
    cx: &mut SolverCx<Solver>,
    workspace: &Workspace,
    section: u32,
    number: u32,
) -> Result<Option<BreakingCause>, Fault>
    requires ready { IsReadySolver cx.old }
    requires text { IsOfText workspace.now }
    ensures advances { SolverStaysReady cx.old cx.new }
    ensures cause { IfOk result (IsCauseAt (rules_in cx.old) cx.old.handler.declarations.local (section_headers workspace.now section) number) }
{
    let impls = added_impls(cx, workspace, section)?;
    Ok(cause_at(&cx.interner, &cx.handler.declarations, &impls, number))
}
