//! The impls that a later version of a crate adds.
ghost use Rattle.std.specs.Prelude.{◌≡◌, map, IfOk};
ghost use Rattle.type_terms.specs.Growth.{GrewOrFull};
ghost use Rattle.declarations.specs.Held.{ImplHeld};
ghost use Rattle.declarations.specs.Promised.Elaboration.{Each};
ghost use Rattle.text_lowering.specs.Later.{added_impls, added_in, added_sorts, sorts_of_added};
ghost use Rattle.text_lowering.specs.Seen.{LaterBeginDeclared};

use crate::items::lower_impl;
use declarations::items::ImplDef;
use std::alloc::Global;
use text_tables::Workspace;
use type_terms::Fault;
use type_terms::interner::Interner;

/// The impls of a section, in the order of the text. Sections count from 0. If the text has no such section, the list is empty.
///
/// They are in no view, so they have no numbers among the impls that a crate sees. Each handle keeps its term, after an error too. Fails
/// with `Memory`, or with `Full` if a table of the interner is full. The interner may then hold more terms than before.
pub fn lower_later(
    alloc: Global,
    cx: &mut Interner,
    workspace: &Workspace,
    section: u32,
) -> Result<Vec<ImplDef>, Fault>
    requires { LaterBeginDeclared workspace.now }
    ensures impls { IfOk result (λ defs. map (added_in cx.new.entries) defs.items ≡ added_impls workspace.now section) }
    ensures sorts { IfOk result (λ defs. map sorts_of_added defs.items ≡ added_sorts workspace.now section) }
    ensures held { IfOk result (λ defs. Each (ImplHeld cx.new.entries) defs.items) }
    ensures terms { GrewOrFull cx.old cx.new result }
{
    let mut defs = Vec::new(alloc);
    let entries = workspace.later_impls_of(section);
    for entry in entries {
        let def = lower_impl(alloc, cx, &entry.entry)?;
        defs.push(def)?;
    }
    Ok(defs)
}
