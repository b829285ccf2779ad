//! What is wrong with what a line uses.
ghost use Rattle.std.specs.Prelude.{◌≡◌};

/// What is wrong with what a line uses, one flag for each test of the uses.
#[derive(Clone, Copy)]
pub struct Findings {
    /// A binder's name is taken.
    pub takes_names: bool,
    /// A name or a lifetime is not declared.
    pub uses_unknown: bool,
    /// The crate does not see a declared struct or trait.
    pub uses_hidden: bool,
    /// A declared name is of another kind than is needed, or arguments have the wrong number or kind.
    pub uses_other_sort: bool,
    /// The name that the line declares is used.
    pub uses_own: bool,
    /// The items of a `dyn` do not fit one another.
    pub has_bad_dyn: bool,
    /// A limit on what is used is exceeded.
    pub passes_limit: bool,
}

impl Findings {
    ghost use Rattle.text_names.specs.Machine.{Sight, findings, either};
    ghost use Rattle.std.specs.Prelude.{[]};

    /// Nothing is wrong.
    pub const NONE: Findings = Findings {
        takes_names: false,
        uses_unknown: false,
        uses_hidden: false,
        uses_other_sort: false,
        uses_own: false,
        has_bad_dyn: false,
        passes_limit: false,
    };

    /// What is wrong with either.
    pub fn either(self, other: Findings) -> Findings
        ensures { result ≡ either self other }
    {
        Findings {
            takes_names: self.takes_names || other.takes_names,
            uses_unknown: self.uses_unknown || other.uses_unknown,
            uses_hidden: self.uses_hidden || other.uses_hidden,
            uses_other_sort: self.uses_other_sort || other.uses_other_sort,
            uses_own: self.uses_own || other.uses_own,
            has_bad_dyn: self.has_bad_dyn || other.has_bad_dyn,
            passes_limit: self.passes_limit || other.passes_limit,
        }
    }
}
