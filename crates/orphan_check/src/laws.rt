//! Laws of walks, over what the contracts speak of.
ghost use Rattle.std.specs.Prelude.{◌≡◌, ◌↔◌, ℕ, Bool, true, None, Option};
ghost use Rattle.type_terms.specs.Promised.Trees.{Trees, erase};
ghost use Rattle.type_terms.specs.Promised.Worlds.{World};
ghost use Rattle.type_terms.specs.Promised.Walks.{visited, until_decisive, ends_local};
ghost use Rattle.type_terms.specs.Promised.OrphanErrors.{orphan_error};
ghost use Rattle.orphan_check.specs.Worked.{Headers, KnownRow};
ghost use Rattle.std.specs.Prelude.{Some};

/// An impl has no orphan error exactly if its walk ends at a local type, and a walk visits the same without lifetimes.
pub fn walks_and_errors()
    ensures errors { (V : World) (c : ℕ) (args : Trees) → orphan_error V c args ≡ None ↔ (ends_local (until_decisive (visited V (Some c) args)) ≡ true) }
    ensures erased { (V : World) (d : Option ℕ) (args : Trees) → visited V d (erase args) ≡ visited V d args }
{}

/// Headers and references that were worked out by hand.
pub fn worked_walks()
    ensures headers { Headers }
    ensures known { KnownRow }
{}
