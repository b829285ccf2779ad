//! Laws of declarations, over the definitions that contracts use.
ghost use Rattle.std.specs.Prelude.{◌≡◌, ◌∷◌, [], List};
ghost use Rattle.type_terms.specs.Promised.Worlds.{World, Reference};
ghost use Rattle.type_terms.specs.Promised.Handles.{Entry, Keeps};
ghost use Rattle.declarations.specs.Items.{Items, written, declared};
ghost use Rattle.declarations.specs.Held.{AreHeld, ReferenceHeld};
ghost use Rattle.term_folds.specs.declared.predicate.TraitRef.{TraitRef};
ghost use Rattle.declarations.specs.Applied.{HaveBounds, IsApplied};
ghost use Rattle.declarations.specs.Promised.Elaboration.{elaborate, supertraits};
ghost use Rattle.declarations.specs.Elaboration.{diamond, asked_of_u8};

/// As an interner grows, declarations of this interner remain so. They declare the same world, and its supertraits can still be read
/// off trait references. A trait reference that has its trait's arguments still has them.
pub fn declarations_are_kept()
    ensures held { (old new : List Entry) (d : Items) → Keeps old new → AreHeld old d → AreHeld new d }
    ensures declares { (old new : List Entry) (d : Items) → Keeps old new → AreHeld old d → declared new d ≡ declared old d }
    ensures written { (old new : List Entry) (d : Items) → Keeps old new → AreHeld old d → written new d ≡ written old d }
    ensures bounds { (old new : List Entry) (d : Items) → Keeps old new → AreHeld old d → HaveBounds old d → HaveBounds new d }
    ensures applied { (old new : List Entry) (d : Items) (r : TraitRef) → Keeps old new → ReferenceHeld old r → IsApplied old d r → IsApplied new d r }
{}

/// Elaborating one trait reference gives it and then its supertraits. With `trait Bottom: Left + Right`, where both have `Top`,
/// `u8: Bottom` gives `Bottom`, `Right`, `Top` and `Left`. This is the order of a stack, and `Top` comes once.
pub fn elaborating_laws()
    ensures begins { (V : World) (r : Reference) → elaborate V (r ∷ []) ≡ r ∷ supertraits V r }
    ensures order { elaborate diamond (asked_of_u8 (3 ∷ [])) ≡ asked_of_u8 (3 ∷ 2 ∷ 0 ∷ 1 ∷ []) }
{}
