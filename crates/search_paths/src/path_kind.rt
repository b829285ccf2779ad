//! Kinds of steps from a goal to its nested goals, and of the paths that such steps make.

ghost use Rattle.std.specs.Prelude.{⊤, ◌≡◌, ◌-◌, ◌↔◌, ℕ, [], ◌∷◌, codes, max, Option, Some};
ghost use Rattle.std.specs.Int.RustNames.{bit_or};
ghost use Rattle.search_paths.specs.Laws.{IsAssociative, IsCommutative, IsIdempotent, IsNeutral, IsAbsorbing};
ghost use Rattle.search_paths.specs.Path.{rank, greater, only, HasPath, AreExtendedBy, AreExtendedWhere, AreExtendedByEach};
ghost use Rattle.search_paths.specs.declared.path_kind.PathKind.{PathKind};
ghost use Rattle.search_paths.specs.declared.path_kind.PathKind.TheVariants.{Inductive, ForcedAmbiguity};

use bitflags::{Flag, Flags, bitflag_items};

/// The kind of a step from a goal to a nested goal, or of a path. The kind of a path is the greatest kind of its steps.
///
/// Whether a cycle proves its goals depends on its kind. `PathKind` of `rustc_type_ir::search_graph`.
#[derive(Clone, Copy, PartialEq, Eq)]
pub enum PathKind {
    /// A cycle of such steps proves nothing.
    Inductive,
    /// It is not decided whether a cycle proves its goals, so a cycle is ambiguous.
    Unknown,
    /// A cycle with such a step proves its goals.
    Coinductive,
    /// A cycle with such a step is ambiguous, whatever its other steps are.
    ForcedAmbiguity,
}

impl PathKind {
    /// Returns the kind of this path followed by that one: the greater of the two, in the order of the variants.
    ///
    /// Neither the order of the steps nor the number of steps of one kind matters.
    pub fn extend(self, rest: PathKind) -> PathKind
        ensures is { result ≡ greater self rest }
        ensures greatest { rank result ≡ max (rank self) (rank rest) }

        // Laws of paths that follow one another.
        ensures associative { IsAssociative greater }
        ensures commutative { IsCommutative greater }
        ensures idempotent { IsIdempotent greater }
        ensures neutral { IsNeutral Inductive greater }
        ensures absorbing { IsAbsorbing ForcedAmbiguity greater }
    {
        match (self, rest) {
            (PathKind::ForcedAmbiguity, _) | (_, PathKind::ForcedAmbiguity) =>
                PathKind::ForcedAmbiguity,
            (PathKind::Coinductive, _) | (_, PathKind::Coinductive) => PathKind::Coinductive,
            (PathKind::Unknown, _) | (_, PathKind::Unknown) => PathKind::Unknown,
            (PathKind::Inductive, PathKind::Inductive) => PathKind::Inductive,
        }
    }
}

/// A set of paths by their kinds. The path without a step is one of them. Each has a bit.
///
/// `PathsToNested` of `rustc_type_ir::search_graph`.
#[derive(Clone, Copy, PartialEq, Eq)]
pub struct PathsToNested(pub u8);

bitflag_items! {
    impl PathsToNested: u8 {
        /// The path without a step.
        const EMPTY = 1;
        const INDUCTIVE = 2;
        const UNKNOWN = 4;
        const COINDUCTIVE = 8;
        const FORCED_AMBIGUITY = 16;
    }
}

impl Flags for PathsToNested {
    type Bits = u8;

    ghost exact = { ⊤ };

    ghost table = { (codes "EMPTY", 1) ∷ (codes "INDUCTIVE", 2) ∷ (codes "UNKNOWN", 4) ∷ (codes "COINDUCTIVE", 8) ∷ (codes "FORCED_AMBIGUITY", 16) ∷ [] };

    ghost set_of = { λ p. p.0 };

    fn flags<'a>() -> &'a [Flag<PathsToNested>] {
        PathsToNested::FLAGS
    }

    fn bits(&self) -> u8 {
        self.0
    }

    fn from_bits_retain(bits: u8) -> PathsToNested {
        PathsToNested(bits)
    }
}

impl From<PathKind> for PathsToNested {
    ghost from_gives = { λ kind paths. paths.0 ≡ only (Some kind) };

    /// Returns the set of that kind alone.
    fn from(kind: PathKind) -> PathsToNested {
        match kind {
            PathKind::Inductive => PathsToNested::INDUCTIVE,
            PathKind::Unknown => PathsToNested::UNKNOWN,
            PathKind::Coinductive => PathsToNested::COINDUCTIVE,
            PathKind::ForcedAmbiguity => PathsToNested::FORCED_AMBIGUITY,
        }
    }
}

/// Returns the paths that a step of this kind changes: the path without a step, and those of lesser kinds.
fn lesser_paths(kind: PathKind) -> PathsToNested
    ensures { result.0 ≡ only (Some kind) - 1 }
{
    let no_step = PathsToNested::EMPTY;
    match kind {
        PathKind::Inductive => no_step,
        PathKind::Unknown => no_step.union(PathsToNested::INDUCTIVE),
        PathKind::Coinductive => no_step
            .union(PathsToNested::INDUCTIVE)
            .union(PathsToNested::UNKNOWN),
        PathKind::ForcedAmbiguity => no_step
            .union(PathsToNested::INDUCTIVE)
            .union(PathsToNested::UNKNOWN)
            .union(PathsToNested::COINDUCTIVE),
    }
}

impl PathsToNested {
    /// Returns these paths, each extended by a step of this kind: lesser ones become paths of this kind, and the others stay.
    #[must_use]
    pub fn extend_with(mut self, path: PathKind) -> PathsToNested
        ensures exact { AreExtendedBy path self.0 result.0 }

        // Extending two sets and joining them gives the same as extending their union.
        ensures union { (k : PathKind) (a b c d : ℕ) → AreExtendedBy k a c → AreExtendedBy k b d → AreExtendedBy k (bit_or a b) (bit_or c d) }
        // Extending by two steps gives the same as extending by one step of the greater kind.
        ensures twice { (j k : PathKind) (a b c : ℕ) → AreExtendedBy j a b → AreExtendedBy k b c → AreExtendedBy (greater j k) a c }
    {
        let lesser = lesser_paths(path);
        if self.intersects(lesser) {
            self.remove(lesser);
            self.insert(PathsToNested::from(path));
        }
        self
    }

    /// Returns these paths, each extended by each of those.
    #[must_use]
    pub fn extend_with_each(self, paths: PathsToNested) -> PathsToNested
        ensures { AreExtendedByEach paths.0 self.0 result.0 }
    {
        self.extend_where(paths, PathKind::Inductive)
            .union(self.extend_where(paths, PathKind::Unknown))
            .union(self.extend_where(paths, PathKind::Coinductive))
            .union(self.extend_where(paths, PathKind::ForcedAmbiguity))
    }

    /// Returns these paths, each extended by the path of this kind, if that is among those. Otherwise returns no paths.
    fn extend_where(self, paths: PathsToNested, kind: PathKind) -> PathsToNested
        ensures { AreExtendedWhere paths.0 kind self.0 result.0 }
    {
        if paths.intersects(PathsToNested::from(kind)) {
            self.extend_with(kind)
        } else {
            PathsToNested::empty()
        }
    }

    /// Returns the only kind of these paths. Returns `None` if there are several, if there is none, or for the path without a step.
    pub fn only_kind(self) -> Option<PathKind>
        ensures kind { (kind : PathKind) → (result ≡ Some kind) ↔ (self.0 ≡ only (Some kind)) }

        // The set of one path has that path alone.
        ensures alone { (path other : Option PathKind) → HasPath (only path) other ↔ (other ≡ path) }
    {
        if self == PathsToNested::INDUCTIVE {
            Some(PathKind::Inductive)
        } else if self == PathsToNested::UNKNOWN {
            Some(PathKind::Unknown)
        } else if self == PathsToNested::COINDUCTIVE {
            Some(PathKind::Coinductive)
        } else if self == PathsToNested::FORCED_AMBIGUITY {
            Some(PathKind::ForcedAmbiguity)
        } else {
            None
        }
    }
}
