//! The faults of a line.

/// What is wrong with a line. Each kind has a number, which the answer prints. `docs/FORMAT.md` has the list.
#[derive(Clone, Copy, Debug, PartialEq, Eq)]
pub enum FaultKind {
    /// It holds a byte of 128 or more.
    OtherByte,
    /// It is not a line of the grammar.
    Syntax,
    /// A struct, trait or impl before any crate, or a struct or trait in a section.
    Misplaced,
    /// The declared name is taken, or that of a parameter or of a binder.
    Taken,
    /// A name or a lifetime is not declared.
    Unknown,
    /// The crate does not see a struct or trait that the line uses.
    Hidden,
    /// A name of another kind than its position needs, or arguments of the wrong number or kind.
    OtherSort,
    /// A type or constant parameter of an impl is not in its header.
    FreeParam,
    /// The bounds of a trait use its own name.
    OwnBound,
    /// An auto trait has parameters or bounds.
    LoadedAuto,
    /// An impl of an auto trait whose self type is no struct of the impl's crate.
    ForeignAuto,
    /// An impl of a trait that has built-in rules alone.
    BuiltIn,
    /// A variable outside the bounds of a query, or of two kinds.
    StrayVariable,
    /// A `refute` line has parameters.
    RefutesParams,
    /// The items of a `dyn` do not fit one another.
    BadDyn,
    /// A limit is exceeded.
    Limit,
}

impl FaultKind {
    ghost use Rattle.std.specs.Prelude.{◌≡◌};
    ghost use Rattle.text_names.specs.FaultNumbers.{fault_number};

    /// The number that the answer prints, from 1 to 16.
    pub fn number(self) -> u8
        ensures { result ≡ fault_number self }
    {
        match self {
            FaultKind::OtherByte => 1,
            FaultKind::Syntax => 2,
            FaultKind::Misplaced => 3,
            FaultKind::Taken => 4,
            FaultKind::Unknown => 5,
            FaultKind::Hidden => 6,
            FaultKind::OtherSort => 7,
            FaultKind::FreeParam => 8,
            FaultKind::OwnBound => 9,
            FaultKind::LoadedAuto => 10,
            FaultKind::ForeignAuto => 11,
            FaultKind::BuiltIn => 12,
            FaultKind::StrayVariable => 13,
            FaultKind::RefutesParams => 14,
            FaultKind::BadDyn => 15,
            FaultKind::Limit => 16,
        }
    }
}

/// The tests of a line, and which of them fail.
#[derive(Clone, Copy)]
pub(crate) struct Tests {
    pub is_misplaced: bool,
    pub takes_names: bool,
    pub uses_unknown: bool,
    pub uses_hidden: bool,
    pub uses_other_sort: bool,
    pub has_free_param: bool,
    pub bounds_use_own: bool,
    pub is_loaded_auto: bool,
    pub is_foreign_auto: bool,
    pub implements_built_in: bool,
    pub has_stray_variable: bool,
    pub refutes_params: bool,
    pub has_bad_dyn: bool,
    pub passes_limit: bool,
}

impl Tests {
    ghost use Rattle.std.specs.Prelude.{◌≡◌};
    ghost use Rattle.std.specs.Option.{option_map};
    ghost use Rattle.text_language.specs.Faults.{first_of};
    ghost use Rattle.text_names.specs.FaultNumbers.{fault_number, numbered};

    /// The kind with the smallest number among the tests that the line fails. `None` if it fails none.
    pub fn first(&self) -> Option<FaultKind>
        ensures { option_map fault_number result ≡ first_of (numbered self.now) }
    {
        if self.is_misplaced {
            return Some(FaultKind::Misplaced);
        }
        if self.takes_names {
            return Some(FaultKind::Taken);
        }
        if self.uses_unknown {
            return Some(FaultKind::Unknown);
        }
        if self.uses_hidden {
            return Some(FaultKind::Hidden);
        }
        if self.uses_other_sort {
            return Some(FaultKind::OtherSort);
        }
        if self.has_free_param {
            return Some(FaultKind::FreeParam);
        }
        if self.bounds_use_own {
            return Some(FaultKind::OwnBound);
        }
        if self.is_loaded_auto {
            return Some(FaultKind::LoadedAuto);
        }
        if self.is_foreign_auto {
            return Some(FaultKind::ForeignAuto);
        }
        if self.implements_built_in {
            return Some(FaultKind::BuiltIn);
        }
        if self.has_stray_variable {
            return Some(FaultKind::StrayVariable);
        }
        if self.refutes_params {
            return Some(FaultKind::RefutesParams);
        }
        if self.has_bad_dyn {
            return Some(FaultKind::BadDyn);
        }
        if self.passes_limit {
            return Some(FaultKind::Limit);
        }
        None
    }
}
