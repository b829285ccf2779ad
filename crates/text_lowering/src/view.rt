//! The whole view of a crate, lowered anew or after what it sees alike with another crate. If `crate b uses a` follows `crate a`, b sees
//! all that a sees, and then its own items, so only these are lowered for it. If `crate c uses a` follows, the items of b are removed and
//! those of c are lowered.
ghost use Rattle.std.specs.Prelude.{◌≡◌, ◌+◌, ◌<◌, ◌≤◌, ◌++◌, not, length, map, sum_by, OnOk, IfOk, IfErr, IfSome, IfNone};
ghost use Rattle.type_terms.specs.Promised.Worlds.{sees};
ghost use Rattle.type_terms.specs.declared.Fault.TheVariants.{Memory};
ghost use Rattle.text_language.specs.Promised.Declarations.{world_of};
ghost use Rattle.type_terms.specs.Growth.{GrewOrFull};
ghost use Rattle.declarations.specs.Held.{AreHeld};
ghost use Rattle.declarations.specs.Items.{written, declared, struct_in, trait_in, impl_in};
ghost use Rattle.text_lowering.specs.Behind.{AreSeenAlike, EndAtDifference, AreBefore, is_new, new_structs, new_traits, new_impls, new_struct_sorts, new_trait_sorts, new_impl_sorts, new_struct_terms, new_trait_terms, new_impl_terms, most_new_terms};
ghost use Rattle.text_lowering.specs.MostTerms.{most_terms};
ghost use Rattle.text_lowering.specs.Promised.SeenWorlds.{plainly_seen_from};
ghost use Rattle.text_lowering.specs.Seen.{BeginDeclared, rules_seen_from, struct_sorts, trait_sorts, impl_sorts, struct_sorts_seen, trait_sorts_seen, impl_sorts_seen};

use crate::items::{lower_impl, lower_struct, lower_trait};
use declarations::declarations::Declarations;
use std::alloc::Global;
use text_tables::Workspace;
use type_terms::interner::Interner;
use type_terms::{CrateId, Fault};

/// Makes room for the structs, traits and impls that the crate sees.
fn reserve_seen(
    workspace: &Workspace,
    crate_id: CrateId,
    decls: &mut Declarations,
) -> Result<(), Fault>
    requires { crate_id.index < length workspace.now.crates }
    ensures same { decls.new ≡ decls.old }
    ensures memory { IfErr result (λ fault. fault ≡ Memory) }
{
    let mut structs = 0;
    for entry in workspace.structs() {
        if workspace.sees(crate_id, entry.owner) {
            structs += 1;
        }
    }
    let mut traits = 0;
    for entry in workspace.traits() {
        if workspace.sees(crate_id, entry.owner) {
            traits += 1;
        }
    }
    let mut impls = 0;
    for entry in workspace.impls() {
        if workspace.sees(crate_id, entry.owner) {
            impls += 1;
        }
    }
    decls.reserve(structs, traits, impls)
}

/// Whether a crate sees an item of that number, which an owner declares, and the number is at least `from`.
fn is_new(workspace: &Workspace, crate_id: CrateId, from: u32, owner: CrateId, number: u32) -> bool
    requires { crate_id.index < length workspace.now.crates }
    ensures { result ≡ is_new workspace.now crate_id.index from owner.index number }
{
    from <= number && workspace.sees(crate_id, owner)
}

/// Adds the structs that the crate sees, from that number on.
fn lower_structs(
    alloc: Global,
    cx: &mut Interner,
    workspace: &Workspace,
    crate_id: CrateId,
    from: u32,
    decls: &mut Declarations,
) -> Result<(), Fault>
    requires there { crate_id.index < length workspace.now.crates }
    requires before { AreBefore (λ s. is_new workspace.now crate_id.index from s.item.home s.item.name) workspace.now.structs
        (λ x. x.0.index) decls.old.structs }
    requires held { AreHeld cx.old.entries decls.old }
    ensures structs { OnOk result (map (struct_in cx.new.entries) decls.new.structs
        ≡ map (struct_in cx.old.entries) decls.old.structs ++ new_structs workspace.now crate_id.index from) }
    ensures sorts { OnOk result (map struct_sorts decls.new.structs
        ≡ map struct_sorts decls.old.structs ++ new_struct_sorts workspace.now crate_id.index from) }
    ensures others { OnOk result (decls.new ≡ record decls.old { structs = decls.new.structs }) }
    ensures held { OnOk result (AreHeld cx.new.entries decls.new) }
    ensures terms { GrewOrFull cx.old cx.new result }
    ensures few { length cx.new.entries ≤ length cx.old.entries + sum_by (new_struct_terms workspace.now crate_id.index from) workspace.now.structs }
{
    let _ = workspace.crates();
    let entries = workspace.structs();
    for entry in entries {
        if is_new(workspace, crate_id, from, entry.owner, entry.id.index) {
            let def = lower_struct(alloc, cx, entry)?;
            decls.add_struct(entry.id, def)?;
        }
    }
    Ok(())
}

/// Adds the traits that the crate sees, from that number on.
fn lower_traits(
    alloc: Global,
    cx: &mut Interner,
    workspace: &Workspace,
    crate_id: CrateId,
    from: u32,
    decls: &mut Declarations,
) -> Result<(), Fault>
    requires there { crate_id.index < length workspace.now.crates }
    requires before { AreBefore (λ t. is_new workspace.now crate_id.index from t.item.home t.item.name) workspace.now.traits (λ x. x.0.index) decls.old.traits }
    requires held { AreHeld cx.old.entries decls.old }
    ensures traits { OnOk result (map (trait_in cx.new.entries) decls.new.traits
        ≡ map (trait_in cx.old.entries) decls.old.traits ++ new_traits workspace.now crate_id.index from) }
    ensures sorts { OnOk result (map trait_sorts decls.new.traits ≡ map trait_sorts decls.old.traits ++ new_trait_sorts workspace.now crate_id.index from) }
    ensures others { OnOk result (decls.new ≡ record decls.old { traits = decls.new.traits }) }
    ensures held { OnOk result (AreHeld cx.new.entries decls.new) }
    ensures terms { GrewOrFull cx.old cx.new result }
    ensures few { length cx.new.entries ≤ length cx.old.entries + sum_by (new_trait_terms workspace.now crate_id.index from) workspace.now.traits }
{
    let _ = workspace.crates();
    let entries = workspace.traits();
    for entry in entries {
        if is_new(workspace, crate_id, from, entry.owner, entry.id.index) {
            let def = lower_trait(alloc, cx, entry)?;
            decls.add_trait(entry.id, def)?;
        }
    }
    Ok(())
}

/// Adds the impls that the crate sees, from that number on.
fn lower_impls(
    alloc: Global,
    cx: &mut Interner,
    workspace: &Workspace,
    crate_id: CrateId,
    from: u32,
    decls: &mut Declarations,
) -> Result<(), Fault>
    requires there { crate_id.index < length workspace.now.crates }
    requires begin { BeginDeclared workspace.now }
    requires before { AreBefore (λ i. is_new workspace.now crate_id.index from i.item.home i.item.name) workspace.now.impls (λ x. x.id.index) decls.old.impls }
    requires held { AreHeld cx.old.entries decls.old }
    ensures impls { OnOk result (map (λ i. impl_in cx.new.entries i.id i.def) decls.new.impls
        ≡ map (λ i. impl_in cx.old.entries i.id i.def) decls.old.impls ++ new_impls workspace.now crate_id.index from) }
    ensures sorts { OnOk result (map impl_sorts decls.new.impls ≡ map impl_sorts decls.old.impls ++ new_impl_sorts workspace.now crate_id.index from) }
    ensures others { OnOk result (decls.new ≡ record decls.old { impls = decls.new.impls }) }
    ensures held { OnOk result (AreHeld cx.new.entries decls.new) }
    ensures terms { GrewOrFull cx.old cx.new result }
    ensures few { length cx.new.entries ≤ length cx.old.entries + sum_by (new_impl_terms workspace.now crate_id.index from) workspace.now.impls }
{
    let _ = workspace.crates();
    let entries = workspace.impls();
    for entry in entries {
        if is_new(workspace, crate_id, from, entry.owner, entry.id.index) {
            let def = lower_impl(alloc, cx, entry)?;
            decls.add_impl(cx, entry.id, def)?;
        }
    }
    Ok(())
}

/// The structs, traits and impls of all crates that a crate sees, each with its number, in the order of the text.
///
/// Types are read without recursion. Each handle keeps its term, after an error too. Fails with `Memory`, or with `Full` if a table of the
/// interner is full. The interner may then hold more terms than before.
pub fn lower(
    alloc: Global,
    cx: &mut Interner,
    workspace: &Workspace,
    crate_id: CrateId,
) -> Result<Declarations, Fault>
    requires there { crate_id.index < length workspace.now.crates }
    requires begin { BeginDeclared workspace.now }
    ensures written { IfOk result (λ decls. written cx.new.entries decls ≡ plainly_seen_from workspace.now crate_id.index) }
    ensures rules { IfOk result (λ decls. declared cx.new.entries decls ≡ rules_seen_from workspace.now crate_id.index) }
    ensures struct_sorts { IfOk result (λ decls. map struct_sorts decls.structs ≡ struct_sorts_seen workspace.now crate_id.index) }
    ensures trait_sorts { IfOk result (λ decls. map trait_sorts decls.traits ≡ trait_sorts_seen workspace.now crate_id.index) }
    ensures impl_sorts { IfOk result (λ decls. map impl_sorts decls.impls ≡ impl_sorts_seen workspace.now crate_id.index) }
    ensures local { IfOk result (λ decls. decls.local ≡ crate_id.index) }
    ensures held { IfOk result (λ decls. AreHeld cx.new.entries decls) }
    ensures terms { GrewOrFull cx.old cx.new result }

    // It makes no more terms, after a fault too: two for each part of a type, and one for each trait reference.
    ensures few { length cx.new.entries ≤ length cx.old.entries + most_terms workspace.now crate_id.index }
{
    let mut decls = Declarations::new(alloc, crate_id);
    reserve_seen(workspace, crate_id, &mut decls)?;
    lower_structs(alloc, cx, workspace, crate_id, 0, &mut decls)?;
    lower_traits(alloc, cx, workspace, crate_id, 0, &mut decls)?;
    lower_impls(alloc, cx, workspace, crate_id, 0, &mut decls)?;
    Ok(decls)
}

/// How many of the first entries of a kind two crates see alike, and how many of these they see.
#[derive(Clone, Copy)]
struct Alike {
    end: u32,
    seen: usize,
}

/// Whether both crates see what an owner declares, or neither does. `None` if only one of them does.
fn both_see(
    workspace: &Workspace,
    earlier: CrateId,
    crate_id: CrateId,
    owner: CrateId,
) -> Option<bool>
    requires earlier { earlier.index < length workspace.now.crates }
    requires there { crate_id.index < length workspace.now.crates }
    ensures both { IfSome result (λ b. (sees (world_of workspace.now) crate_id.index owner.index ≡ b)
        × (sees (world_of workspace.now) earlier.index owner.index ≡ b)) }
    ensures one { IfNone result (sees (world_of workspace.now) crate_id.index owner.index ≡ not (sees (world_of workspace.now) earlier.index owner.index)) }
{
    let is_seen = workspace.sees(crate_id, owner);
    if workspace.sees(earlier, owner) {
        if is_seen { Some(true) } else { None }
    } else if is_seen {
        None
    } else {
        Some(false)
    }
}

/// The first structs, up to one that only one of the two crates sees.
fn structs_alike(workspace: &Workspace, earlier: CrateId, crate_id: CrateId) -> Alike
    requires earlier { earlier.index < length workspace.now.crates }
    requires there { crate_id.index < length workspace.now.crates }
    ensures alike { AreSeenAlike (λ s. sees (world_of workspace.now) crate_id.index s.item.home)
        (λ s. sees (world_of workspace.now) earlier.index s.item.home) workspace.now.structs result.end result.seen }
    ensures most { EndAtDifference (λ s. sees (world_of workspace.now) crate_id.index s.item.home)
        (λ s. sees (world_of workspace.now) earlier.index s.item.home) workspace.now.structs result.end }
{
    let _ = workspace.crates();
    let entries = workspace.structs();
    let mut seen = 0;
    for entry in entries {
        let Some(is_seen) = both_see(workspace, earlier, crate_id, entry.owner) else {
            return Alike {
                end: entry.id.index,
                seen,
            };
        };
        if is_seen {
            seen += 1;
        }
    }
    Alike {
        end: entries.len() as u32,
        seen,
    }
}

/// The first traits, up to one that only one of the two crates sees.
fn traits_alike(workspace: &Workspace, earlier: CrateId, crate_id: CrateId) -> Alike
    requires earlier { earlier.index < length workspace.now.crates }
    requires there { crate_id.index < length workspace.now.crates }
    ensures alike { AreSeenAlike (λ t. sees (world_of workspace.now) crate_id.index t.item.home)
        (λ t. sees (world_of workspace.now) earlier.index t.item.home) workspace.now.traits result.end result.seen }
    ensures most { EndAtDifference (λ t. sees (world_of workspace.now) crate_id.index t.item.home)
        (λ t. sees (world_of workspace.now) earlier.index t.item.home) workspace.now.traits result.end }
{
    let _ = workspace.crates();
    let entries = workspace.traits();
    let mut seen = 0;
    for entry in entries {
        let Some(is_seen) = both_see(workspace, earlier, crate_id, entry.owner) else {
            return Alike {
                end: entry.id.index,
                seen,
            };
        };
        if is_seen {
            seen += 1;
        }
    }
    Alike {
        end: entries.len() as u32,
        seen,
    }
}

/// The first impls, up to one that only one of the two crates sees.
fn impls_alike(workspace: &Workspace, earlier: CrateId, crate_id: CrateId) -> Alike
    requires earlier { earlier.index < length workspace.now.crates }
    requires there { crate_id.index < length workspace.now.crates }
    ensures alike { AreSeenAlike (λ i. sees (world_of workspace.now) crate_id.index i.item.home)
        (λ i. sees (world_of workspace.now) earlier.index i.item.home) workspace.now.impls result.end result.seen }
    ensures most { EndAtDifference (λ i. sees (world_of workspace.now) crate_id.index i.item.home)
        (λ i. sees (world_of workspace.now) earlier.index i.item.home) workspace.now.impls result.end }
{
    let _ = workspace.crates();
    let entries = workspace.impls();
    let mut seen = 0;
    for entry in entries {
        let Some(is_seen) = both_see(workspace, earlier, crate_id, entry.owner) else {
            return Alike {
                end: entry.id.index,
                seen,
            };
        };
        if is_seen {
            seen += 1;
        }
    }
    Alike {
        end: entries.len() as u32,
        seen,
    }
}

/// Turns what an earlier crate sees into what this crate sees. The first structs, traits and impls of the text stay, up to one that only
/// one of the two crates sees. What only the earlier crate sees, and what follows it, is removed, and the rest of what this crate sees is
/// lowered. The interner may have grown since the earlier view was lowered into it.
///
/// So crates that each use the one before lower each entry once, and not once for each crate. Crates that each use one base lower the base
/// once. Fails with `Memory`, or with `Full` if a table of the interner is full. Nothing is then said of the declarations, and the interner
/// may hold more terms than before.
pub fn lower_behind(
    alloc: Global,
    cx: &mut Interner,
    workspace: &Workspace,
    earlier: CrateId,
    crate_id: CrateId,
    decls: &mut Declarations,
) -> Result<(), Fault>
    requires earlier { earlier.index < length workspace.now.crates }
    requires there { crate_id.index < length workspace.now.crates }
    requires begin { BeginDeclared workspace.now }
    requires written { written cx.old.entries decls.old ≡ plainly_seen_from workspace.now earlier.index }
    requires struct_sorts { map struct_sorts decls.old.structs ≡ struct_sorts_seen workspace.now earlier.index }
    requires trait_sorts { map trait_sorts decls.old.traits ≡ trait_sorts_seen workspace.now earlier.index }
    requires impl_sorts { map impl_sorts decls.old.impls ≡ impl_sorts_seen workspace.now earlier.index }
    requires held { AreHeld cx.old.entries decls.old }
    ensures written { OnOk result (written cx.new.entries decls.new ≡ plainly_seen_from workspace.now crate_id.index) }
    ensures rules { OnOk result (declared cx.new.entries decls.new ≡ rules_seen_from workspace.now crate_id.index) }
    ensures struct_sorts { OnOk result (map struct_sorts decls.new.structs ≡ struct_sorts_seen workspace.now crate_id.index) }
    ensures trait_sorts { OnOk result (map trait_sorts decls.new.traits ≡ trait_sorts_seen workspace.now crate_id.index) }
    ensures impl_sorts { OnOk result (map impl_sorts decls.new.impls ≡ impl_sorts_seen workspace.now crate_id.index) }
    ensures local { OnOk result (decls.new.local ≡ crate_id.index) }
    ensures held { OnOk result (AreHeld cx.new.entries decls.new) }
    ensures terms { GrewOrFull cx.old cx.new result }

    // It makes no more terms, after a fault too.
    ensures few { length cx.new.entries ≤ length cx.old.entries + most_new_terms workspace.now crate_id.index earlier.index }
{
    let _ = workspace.crates();
    let structs = structs_alike(workspace, earlier, crate_id);
    let traits = traits_alike(workspace, earlier, crate_id);
    let impls = impls_alike(workspace, earlier, crate_id);
    decls.truncate(structs.seen, traits.seen, impls.seen);
    decls.ask_in(crate_id);
    lower_structs(alloc, cx, workspace, crate_id, structs.end, decls)?;
    lower_traits(alloc, cx, workspace, crate_id, traits.end, decls)?;
    lower_impls(alloc, cx, workspace, crate_id, impls.end, decls)?;
    Ok(())
}
