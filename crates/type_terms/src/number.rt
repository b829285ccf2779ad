//! Numbers of binders, variables and universes, up to `MAX_INDEX`.
ghost use Rattle.std.specs.Prelude.{◌≡◌, ◌+◌, ◌-◌, ◌≤◌, ◌↔◌, IsTrue};
ghost use Rattle.type_terms.specs.declared.TheConstants.{MAX_INDEX};

/// A binder, counted outwards from the variable: 0 is the innermost binder around it.
///
/// In `for<'a> fn(for<'b> fn(&'a u8, &'b u8))` the lifetime `'b` has the binder number 0 and `'a` has 1.
#[derive(Clone, Copy, PartialEq, Eq, PartialOrd, Ord, Hash)]
pub struct DebruijnIndex {
    pub index: u32,
    ghost in_range: { index ≤ MAX_INDEX },
}

impl DebruijnIndex {
    /// The number of the same binder, below `amount` further binders.
    pub fn shifted_in(self, amount: u32) -> DebruijnIndex
        requires { self.index + amount ≤ MAX_INDEX }
        ensures { result.index ≡ self.index + amount }
    {
        DebruijnIndex {
            index: self.index + amount,
        }
    }

    /// The number of the same binder, outside of the `amount` innermost binders.
    pub fn shifted_out(self, amount: u32) -> DebruijnIndex
        requires { amount ≤ self.index }
        ensures { result.index ≡ self.index - amount }
    {
        DebruijnIndex {
            index: self.index - amount,
        }
    }
}

/// The binder of a bound variable: a binder around it, or the list of variables of a canonical form.
#[derive(Clone, Copy, PartialEq, Eq, Hash)]
pub enum BoundVarIndexKind {
    Bound(DebruijnIndex),
    Canonical,
}

/// A variable of a binder, by its index in the binder's list.
#[derive(Clone, Copy, PartialEq, Eq, PartialOrd, Ord, Hash)]
pub struct BoundVar {
    pub index: u32,
    ghost in_range: { index ≤ MAX_INDEX },
}

/// An inference variable of types.
#[derive(Clone, Copy, PartialEq, Eq, PartialOrd, Ord, Hash)]
pub struct TyVid {
    pub index: u32,
    ghost in_range: { index ≤ MAX_INDEX },
}

/// An inference variable of constants.
#[derive(Clone, Copy, PartialEq, Eq, PartialOrd, Ord, Hash)]
pub struct ConstVid {
    pub index: u32,
    ghost in_range: { index ≤ MAX_INDEX },
}

/// An inference variable of lifetimes.
#[derive(Clone, Copy, PartialEq, Eq, PartialOrd, Ord, Hash)]
pub struct RegionVid {
    pub index: u32,
    ghost in_range: { index ≤ MAX_INDEX },
}

/// A universe of placeholders. A greater one is inside of each smaller one.
#[derive(Clone, Copy, PartialEq, Eq, PartialOrd, Ord, Hash)]
pub struct UniverseIndex {
    pub index: u32,
    ghost in_range: { index ≤ MAX_INDEX },
}

impl UniverseIndex {
    /// The outermost universe.
    pub const ROOT: UniverseIndex = UniverseIndex { index: 0 };

    /// Whether it is the outermost universe.
    pub fn is_root(self) -> bool
        ensures { IsTrue result ↔ (self.index ≡ 0) }
    {
        self.index == 0
    }

    /// Whether a value in this universe may name a placeholder of `other`: it may if `other` is outside, or is the
    /// same.
    pub fn can_name(self, other: UniverseIndex) -> bool
        ensures { IsTrue result ↔ (other.index ≤ self.index) }
    {
        self.index >= other.index
    }
}
