//! What a session's crate sees.

ghost use Rattle.std.specs.Prelude.{◌≡◌, ◌+◌, ◌<◌, ◌≤◌, length, map, IfOk, IfErr};
ghost use Rattle.type_terms.specs.Growth.{FullAtLimit};
ghost use Rattle.declarations.specs.Items.{written, declared};
ghost use Rattle.text_lowering.specs.MostTerms.{most_terms};
ghost use Rattle.text_lowering.specs.Promised.SeenWorlds.{plainly_seen_from};
ghost use Rattle.text_lowering.specs.Seen.{rules_seen_from, struct_sorts, trait_sorts, impl_sorts, struct_sorts_seen, trait_sorts_seen, impl_sorts_seen};
ghost use Rattle.text_lowering.specs.Ready.{OfTexts};
ghost use Rattle.candidate_assembly.specs.Ready.{AreReadyDeclarations};
ghost use Rattle.sessions.specs.Numbers.{ImplsAreNumbered};
ghost use Rattle.sessions.specs.Readying.{AreReady};
ghost use Rattle.sessions.specs.Promised.Subjects.{IsOfText};

use declarations::declarations::Declarations;
use std::alloc::Global;
use text_lowering::laws::impls_begin_declared;
use text_lowering::{
    bounds_are_applied, fields_speak_of_parameters, impls_speak_of_parameters, lower,
    texts_are_declared_well,
};
use text_tables::Workspace;
use type_terms::interner::Interner;
use type_terms::{CrateId, Fault};

/// What a crate sees of a text without a fault is ready for the solver, if its terms are an interner's.
pub fn declarations_are_ready()
    ensures { OfTexts AreReady }
{
    texts_are_declared_well();
    fields_speak_of_parameters();
    impls_speak_of_parameters();
    bounds_are_applied();
}

/// If numbers are indices, as `Workspace::crates` says of those of a text, the impls that a crate sees have numbers of their own, below the
/// number of all impls of the text.
pub fn impls_are_numbered()
    ensures { ImplsAreNumbered }
{}

/// The declarations that a crate of a text sees, ready for the solver. The errors are those of `lower`.
pub(crate) fn lower_view(
    alloc: Global,
    cx: &mut Interner,
    workspace: &Workspace,
    crate_id: CrateId,
) -> Result<Declarations, Fault>
    requires text { IsOfText workspace.now }
    requires declared { crate_id.index < length workspace.now.crates }
    ensures written { IfOk result (λ decls. written cx.new.entries decls ≡ plainly_seen_from workspace.now crate_id.index) }
    ensures rules { IfOk result (λ decls. declared cx.new.entries decls ≡ rules_seen_from workspace.now crate_id.index) }
    ensures struct_sorts { IfOk result (λ decls. map struct_sorts decls.structs ≡ struct_sorts_seen workspace.now crate_id.index) }
    ensures trait_sorts { IfOk result (λ decls. map trait_sorts decls.traits ≡ trait_sorts_seen workspace.now crate_id.index) }
    ensures impl_sorts { IfOk result (λ decls. map impl_sorts decls.impls ≡ impl_sorts_seen workspace.now crate_id.index) }
    ensures local { IfOk result (λ decls. decls.local ≡ crate_id.index) }
    ensures ready { IfOk result (λ decls. AreReadyDeclarations cx.new.entries decls) }
    ensures limit { cx.new.limit ≡ cx.old.limit }
    ensures few { length cx.new.entries ≤ length cx.old.entries + most_terms workspace.now crate_id.index }
    ensures full { IfErr result (FullAtLimit cx.new) }
{
    impls_begin_declared();
    declarations_are_ready();
    let decls = lower(alloc, cx, workspace, crate_id)?;
    Ok(decls)
}
