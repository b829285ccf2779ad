//! A line apart from its types.
ghost use Rattle.std.specs.Prelude.{◌≡◌, false};
ghost use Rattle.std.specs.List.{list_any};
ghost use Rattle.std.specs.Option.{option_map, option_map_or};
ghost use Rattle.text_language.specs.Faults.{is_long};
ghost use Rattle.text_lines.specs.TokenViews.{text_of};
ghost use Rattle.text_lines.specs.Says.{name_said, params_said, count_said, is_item, is_said_impl, is_loaded, refutes_some, has_long};
ghost use Rattle.text_lines.specs.Statement as said;
ghost use Rattle.text_lines.specs.Views.{param_of, params_in, statement_of};

use crate::statement::{Param, Statement};

/// The maximum length of a name.
const NAME_LIMIT: usize = 64;

impl<'a> Param<'a> {
    /// The name without `'` or `const`.
    pub fn name(&self) -> &'a [u8]
        ensures { result.now ≡ said.param_name (param_of self.now) }
    {
        match self {
            Param::Lifetime(name) => name,
            Param::Type(name) => name,
            Param::Const(name) => name,
        }
    }
}

impl<'a> Statement<'a> {
    /// The name of the crate, struct or trait that the line declares.
    pub fn declared_name(&self) -> Option<&'a [u8]>
        ensures { option_map text_of result ≡ name_said (statement_of self.now) }
    {
        match self {
            Statement::Crate { name, .. } => Some(name),
            Statement::Struct { name, .. } => Some(name),
            Statement::Trait { name, .. } => Some(name),
            _ => None,
        }
    }

    /// The parameters, in order.
    pub fn params(&self) -> &[Param<'a>]
        ensures { params_in result.now ≡ params_said (statement_of self.now) }
    {
        match self {
            Statement::Crate { .. } => &[],
            Statement::Struct { params, .. } => params,
            Statement::Trait { params, .. } => params,
            Statement::Impl { params, .. } => params,
            Statement::Prove { params, .. } => params,
            Statement::Refute { params, .. } => params,
            Statement::Later { .. } | Statement::Supers { .. } => &[],
        }
    }

    /// The number of fields, supertraits, clauses or queried bounds. Of `prove` with where-clauses it is the greater one.
    pub fn part_count(&self) -> usize
        ensures { result ≡ count_said (statement_of self.now) }
    {
        match self {
            Statement::Crate { .. } => 0,
            Statement::Struct { fields, .. } => fields.len(),
            Statement::Trait { bounds, .. } => bounds.len(),
            Statement::Impl { clauses, .. } => clauses.len(),
            Statement::Prove {
                further,
                clauses,
                ..
            } => (further.len() + 1).max(clauses.len()),
            Statement::Refute { further, .. } => further.len() + 1,
            Statement::Later { .. } | Statement::Supers { .. } => 0,
        }
    }

    /// Whether it declares a struct, a trait or an impl. These belong to a crate.
    pub fn belongs_to_crate(&self) -> bool
        ensures { result ≡ is_item (statement_of self.now) }
    {
        matches!(
            self,
            Statement::Struct { .. } | Statement::Trait { .. } | Statement::Impl { .. }
        )
    }

    /// Whether it declares an impl. Only impls may occur in a section of a later version.
    pub fn is_impl(&self) -> bool
        ensures { result ≡ is_said_impl (statement_of self.now) }
    {
        matches!(self, Statement::Impl { .. })
    }

    /// Whether it declares an auto trait with parameters or supertraits.
    pub fn is_loaded_auto(&self) -> bool
        ensures { result ≡ is_loaded (statement_of self.now) }
    {
        match self {
            Statement::Trait {
                is_auto,
                params,
                bounds,
                ..
            } => *is_auto && !(params.is_empty() && bounds.is_empty()),
            _ => false,
        }
    }

    /// Whether it is a `refute` with parameters.
    pub fn refutes_params(&self) -> bool
        ensures { result ≡ refutes_some (statement_of self.now) }
    {
        match self {
            Statement::Refute { params, .. } => !params.is_empty(),
            _ => false,
        }
    }

    /// Whether the declared name exceeds the limit.
    fn has_long_declared_name(&self) -> bool
        ensures { result ≡ option_map_or is_long (name_said (statement_of self.now)) false }
    {
        match self.declared_name() {
            Some(name) => name.len() > NAME_LIMIT,
            None => false,
        }
    }

    /// Whether the declared name or the name of a parameter exceeds the limit.
    pub fn has_long_name(&self) -> bool
        ensures { result ≡ has_long (statement_of self.now) }
    {
        if self.has_long_declared_name() {
            return true;
        }
        has_long_param(self.params())
    }
}

fn has_long_param(params: &[Param<'_>]) -> bool
    ensures { result ≡ list_any (λ p. is_long (said.param_name (param_of p))) params.now }
{
    params.iter().any(|param| param.name().len() > NAME_LIMIT)
}
