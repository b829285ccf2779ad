//! What the names of one line are looked up in.
ghost use Rattle.std.specs.Prelude.{◌≡◌, length, ◌<◌, if◌then◌else◌, Some, None, IfOk, IfSome, not};
ghost use Rattle.std.specs.Option.{option_map};
ghost use Rattle.type_terms.specs.declared.CrateId.{CrateId};
ghost use Rattle.text_language.specs.Promised.Declarations.{a_struct, a_trait, kinds_of, last_crate};
ghost use Rattle.text_language.specs.Faults.{looking_crate};
ghost use Rattle.text_language.specs.Uses.{params_of};
ghost use Rattle.text_lines.specs.Says.{params_said};
ghost use Rattle.text_lines.specs.Statement.{param_list};
ghost use Rattle.text_lines.specs.Views.{statement_of};
ghost use Rattle.text_tables.specs.Views.{known_of, sorts_of};
ghost use Rattle.text_parser.specs.BareLines.{bare_line, params_from};

use crate::own_items::{with_struct, with_trait};
use crate::params::{count_of, kinds_of, place_of};
use crate::so_far::SoFar;
use std::alloc::{AllocError, Global};
use text_lines::Statement;
use text_names::{LineNames, Names};
use text_tables::{Known, ParamKind};
use type_terms::CrateId;

/// What is declared before a line, with the line's statement. The line's own item and its parameters are known too. Nothing is added to the
/// tables for a line that may be faulty.
#[derive(Drop)]
pub(crate) struct LineTables<'w, 's, 'a> {
    before: SoFar<'w>,
    statement: &'s Statement<'a>,
    kinds: Vec<ParamKind>,
    looking: Option<CrateId>,
    ghost kinds_said: { sorts_of kinds.items ≡ kinds_of (params_of (bare_line (statement_of statement.now))) },
    ghost looking_said: { option_map (λ c. c.index) looking ≡ looking_crate before (bare_line (statement_of statement.now)) },
    ghost looking_there: { (c : CrateId) → looking ≡ Some c → c.index < length before.crates },
}

/// The crate of the line's items. For an impl of a section it is the changed crate, for a query the query's crate.
fn looking_crate(before: &SoFar<'_>, statement: &Statement<'_>) -> Option<CrateId>
    ensures number { option_map (λ c. c.index) result ≡ looking_crate before.now (bare_line (statement_of statement.now)) }
    ensures there { IfSome result (λ c. c.index < length before.now.crates) }
{
    match statement {
        Statement::Crate { .. } | Statement::Later { .. } | Statement::Supers { .. } => None,
        Statement::Prove { crate_name, .. } => before.crate_named(crate_name),
        Statement::Refute { crate_name, .. } => before.crate_named(crate_name),
        _ => Some(before.impl_owner()),
    }
}

impl<'w, 's, 'a> LineTables<'w, 's, 'a> {
    ghost use Rattle.text_parser.specs.Sights.{sight_of};

    /// What the names of this line stand for, after the lines before it. Fails only if memory is refused.
    pub fn new(
        alloc: Global,
        before: SoFar<'w>,
        statement: &'s Statement<'a>,
    ) -> Result<Self, AllocError>
        requires ordered { param_list (params_from (params_said (statement_of statement.now))) ≡ params_said (statement_of statement.now) }
        ensures before { IfOk result (λ names. names.before ≡ before.entry) }
        ensures statement { IfOk result (λ names. names.statement.now ≡ statement.now) }
    {
        let kinds = kinds_of(alloc, statement.params())?;
        let looking = looking_crate(&before, statement);
        Ok(LineTables {
            before,
            statement,
            kinds,
            looking,
        })
    }

    /// The line's own struct, if it has this name.
    fn own_struct(&self, is_own: bool) -> Option<Known<'_>>
        ensures { option_map known_of result
            ≡ (if is_own then Some (a_struct (length self.now.before.structs) (last_crate self.now.before) (sorts_of self.now.kinds.items)) else None) }
    {
        if is_own {
            return Some(Known::Struct {
                id: self.before.next_struct(),
                owner: self.before.last_crate(),
                params: &self.kinds,
            });
        }
        None
    }

    /// The line's own trait, if it has this name.
    fn own_trait(&self, is_own: bool, is_auto: bool) -> Option<Known<'_>>
        ensures { option_map known_of result
            ≡ (if is_own then Some (a_trait (length self.now.before.traits) (last_crate self.now.before) is_auto (sorts_of self.now.kinds.items)) else None) }
    {
        if is_own {
            return Some(Known::Trait {
                id: self.before.next_trait(),
                owner: self.before.last_crate(),
                is_auto,
                params: &self.kinds,
            });
        }
        None
    }
}

impl<'w, 's, 'a> Names for LineTables<'w, 's, 'a> {
    ghost use Rattle.text_parser.specs.Sights.{sight_of};

    ghost sight = { λ t. sight_of t };

    fn known(&self, name: &[u8]) -> Option<Known<'_>> {
        let before = self.before.known(name);
        match self.statement {
            Statement::Struct { name: own, .. } => with_struct(
                before,
                self.own_struct(*own == name),
            ),
            Statement::Trait {
                name: own,
                is_auto,
                ..
            } => with_trait(before, self.own_trait(*own == name, *is_auto)),
            _ => before,
        }
    }

    fn hides(&self, home: CrateId) -> bool {
        match self.looking {
            Some(seeing) => !self.before.sees(seeing, home),
            None => false,
        }
    }

    fn is_own(&self, name: &[u8]) -> bool {
        match self.statement.declared_name() {
            Some(own) => name == own,
            None => false,
        }
    }

    fn param_place(&self, sort: ParamKind, name: &[u8]) -> Option<usize> {
        place_of(self.statement.params(), sort, name)
    }

    fn param_count(&self, sort: ParamKind) -> usize {
        count_of(self.statement.params(), sort)
    }
}

impl<'w, 's, 'a> LineNames for LineTables<'w, 's, 'a> {
    fn crate_count(&self) -> usize {
        self.before.crate_count()
    }

    fn question_count(&self) -> usize {
        self.before.question_count()
    }

    fn is_in_section(&self) -> bool {
        self.before.is_in_section()
    }

    fn impl_owner(&self) -> CrateId {
        self.before.impl_owner()
    }

    fn last_later(&self) -> usize {
        self.before.last_later() as usize
    }

    fn last_items(&self) -> usize {
        self.before.last_items() as usize
    }

    fn was_known(&self, name: &[u8]) -> bool {
        match self.before.known(name) {
            Some(_) => true,
            None => false,
        }
    }
}
