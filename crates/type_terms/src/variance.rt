//! Variances: how the subtypes of a type depend on its arguments.
ghost use Rattle.std.specs.Prelude.{◌≡◌};
ghost use Rattle.type_terms.specs.Variance.{xform_of, IsAssociative, IsNeutral};

/// How the subtypes of a type depend on one of its arguments.
#[derive(Clone, Copy, PartialEq, Eq, Hash)]
pub enum Variance {
    /// A subtype of the argument gives a subtype: `&'a T` in `T`.
    Covariant,
    /// Only an equal argument gives a subtype: `&mut T` in `T`.
    Invariant,
    /// A supertype of the argument gives a subtype: `fn(T)` in `T`.
    Contravariant,
    /// Every argument gives a subtype.
    Bivariant,
}

impl Variance {
    /// The variance of an argument of an inner type: `self` is the variance of the inner type in the outer one, and `v`
    /// that of the argument in the inner type.
    ///
    /// `Covariant` changes nothing, and `Contravariant` exchanges the two directions. The other two stay, whatever is
    /// inside of them. The order of grouping does not matter for three types inside of each other.
    pub fn xform(self, v: Variance) -> Variance
        ensures is { result ≡ xform_of self v }
        ensures associative { IsAssociative xform_of }
        ensures neutral { IsNeutral Variance.Covariant xform_of }
    {
        match (self, v) {
            (Variance::Covariant, _) => v,
            (Variance::Contravariant, Variance::Covariant) => Variance::Contravariant,
            (Variance::Contravariant, Variance::Contravariant) => Variance::Covariant,
            (Variance::Contravariant, _) => v,
            (Variance::Invariant | Variance::Bivariant, _) => self,
        }
    }
}
