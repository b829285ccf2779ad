//! A line with types: the lines for which it stands, and the faults that it has by itself.
ghost use Rattle.std.specs.Prelude.{◌≡◌, true, [], length, nat_lt, map, IfOk, IsErrOf};
ghost use Rattle.std.specs.List.{list_any};
ghost use Rattle.text_language.specs.Promised.Desugared.{desugared, has_many_types, types_limit};
ghost use Rattle.text_language.specs.Promised.Faults.{is_among, repeats};
ghost use Rattle.text_language.specs.Promised.Syntax.{WrittenLine};
ghost use Rattle.text_language.specs.Syntax.{spelling, written_spelling};
ghost use Rattle.text_lines.specs.LineLists.{bindings_in};
ghost use Rattle.text_lines.specs.Pieces.{lists_in};
ghost use Rattle.text_lines.specs.Steps.{GivesAlone};
ghost use Rattle.text_lines.specs.TokenViews.{tokens_in};
ghost use Rattle.text_lines.specs.TypedLines.{AreNamesFor, IsHeaderFor, NamesHeader, ReadsTyped, SpellsTyped, binds_again, binds_many, bound_names, has_consts, header_said, ill_parts, is_ill_alone, is_query_line, is_query_tokens, many_parts};
ghost use Rattle.text_lines.specs.Views.{params_in};
ghost use Rattle.text_lines.specs.WrittenLines.{has_types};
ghost use Rattle.text_lines.specs.WrittenParts.{written_in};
ghost use Rattle.text_lines.specs.WrittenViews.{bindings_in as given_in, bounds_in, clauses_in, entries_in, written_of};

use crate::line_error::LineError;
use crate::line_lists::{Piece, companion_name, line_lists};
use crate::statement::Param;
use crate::token::Token;
use crate::written_line::{Binding, BoundRead, ClauseRead, Entry, WrittenRead, read_written};
use std::alloc::{AllocError, Global};

/// The maximum number of types of a trait, and of types that a bound or an impl says.
const TYPES_LIMIT: usize = 16;

/// Whether a bound says what more types are than it may.
fn binds_many(entries: &[Entry<'_, '_>]) -> bool
    ensures { result ≡ nat_lt types_limit (length (bindings_in (entries_in entries.now))) }
{
    let mut count = 0;
    let mut rest = entries;
    while let [first, others @ ..] = rest {
        if let Entry::Binding(_) = first {
            if count >= TYPES_LIMIT {
                return true;
            }
            count += 1;
        }
        rest = others;
    }
    false
}

/// Whether a bound says what the type with this name is.
fn is_bound(entries: &[Entry<'_, '_>], name: &[u8]) -> bool
    ensures { result ≡ is_among name.now (bound_names (bindings_in (entries_in entries.now))) }
{
    let mut rest = entries;
    while let [first, others @ ..] = rest {
        if let Entry::Binding(binding) = first {
            if binding.name == name {
                return true;
            }
        }
        rest = others;
    }
    false
}

/// Whether a bound says twice what a type is.
fn binds_again(entries: &[Entry<'_, '_>]) -> bool
    ensures { result ≡ repeats (bound_names (bindings_in (entries_in entries.now))) }
{
    let mut rest = entries;
    while let [first, others @ ..] = rest {
        if let Entry::Binding(binding) = first {
            if is_bound(others, binding.name) {
                return true;
            }
        }
        rest = others;
    }
    false
}

/// Whether an impl gives the type with this name.
fn is_given(given: &[Binding<'_, '_>], name: &[u8]) -> bool
    ensures { result ≡ is_among name.now (bound_names (given_in given.now)) }
{
    let mut rest = given;
    while let [first, others @ ..] = rest {
        if first.name == name {
            return true;
        }
        rest = others;
    }
    false
}

/// Whether an impl gives a type twice.
fn gives_again(given: &[Binding<'_, '_>]) -> bool
    ensures { result ≡ repeats (bound_names (given_in given.now)) }
{
    let mut rest = given;
    while let [first, others @ ..] = rest {
        if is_given(others, first.name) {
            return true;
        }
        rest = others;
    }
    false
}

/// Whether one of the bounds says what more types are than it may.
fn any_binds_many(bounds: &[BoundRead<'_, '_>]) -> bool
    ensures { result ≡ list_any binds_many (bounds_in bounds.now) }
{
    let mut rest = bounds;
    while let [first, others @ ..] = rest {
        if binds_many(&first.entries) {
            return true;
        }
        rest = others;
    }
    false
}

/// Whether one of the bounds says twice what a type is.
fn any_binds_again(bounds: &[BoundRead<'_, '_>]) -> bool
    ensures { result ≡ list_any binds_again (bounds_in bounds.now) }
{
    let mut rest = bounds;
    while let [first, others @ ..] = rest {
        if binds_again(&first.entries) {
            return true;
        }
        rest = others;
    }
    false
}

/// Whether the bound of one of the clauses says what more types are than it may.
fn clauses_bind_many(clauses: &[ClauseRead<'_, '_>]) -> bool
    ensures { result ≡ list_any (λ k. binds_many k.bound) (clauses_in clauses.now) }
{
    let mut rest = clauses;
    while let [first, others @ ..] = rest {
        if binds_many(&first.bound.entries) {
            return true;
        }
        rest = others;
    }
    false
}

/// Whether the bound of one of the clauses says twice what a type is.
fn clauses_bind_again(clauses: &[ClauseRead<'_, '_>]) -> bool
    ensures { result ≡ list_any (λ k. binds_again k.bound) (clauses_in clauses.now) }
{
    let mut rest = clauses;
    while let [first, others @ ..] = rest {
        if binds_again(&first.bound.entries) {
            return true;
        }
        rest = others;
    }
    false
}

/// Whether one of the parameters is a constant.
fn has_consts(params: &[Param<'_>]) -> bool
    ensures { result ≡ has_consts (params_in params.now) }
{
    let mut rest = params;
    while let [first, others @ ..] = rest {
        if matches!(first, Param::Const(_)) {
            return true;
        }
        rest = others;
    }
    false
}

/// Names with which those of traits are compared, to find a type of a trait that an impl does not give.
#[derive(Drop)]
pub struct HeaderNames {
    /// What the names of all companions of the trait begin with.
    pub front: Vec<u8>,
    /// The name of the trait itself, and those of the companions for the types that are given.
    pub names: Vec<Vec<u8>>,
}

/// The names for the header of an impl of this trait that gives these types.
fn header_names(
    alloc: Global,
    trait_name: &[u8],
    given: &[Binding<'_, '_>],
) -> Result<HeaderNames, AllocError>
    ensures { IfOk result (λ h. NamesHeader trait_name.now (bound_names (given_in given.now)) h) }
{
    let front = companion_name(alloc, trait_name, b"")?;
    let own = Vec::from_slice(alloc, trait_name)?;
    let mut names = Vec::new(alloc);
    names.push(own)?;
    let mut rest = given;
    while let [first, others @ ..] = rest {
        let name = companion_name(alloc, trait_name, first.name)?;
        names.push(name)?;
        rest = others;
    }
    Ok(HeaderNames { front, names })
}

impl HeaderNames {
    /// The names for the header of an impl of this trait that gives no types.
    pub fn without_types(alloc: Global, trait_name: &[u8]) -> Result<HeaderNames, AllocError>
        ensures { IfOk result (λ h. NamesHeader trait_name.now [] h) }
    {
        header_names(alloc, trait_name, &[])
    }
}

impl WrittenRead<'_, '_> {
    fn has_many_types(&self) -> bool
        ensures { result ≡ many_parts (written_of self.now) }
    {
        match self {
            WrittenRead::Trait { bounds, types, .. } => {
                types.len() > TYPES_LIMIT || any_binds_many(bounds)
            }
            WrittenRead::Impl { clauses, given, .. } => {
                given.len() > TYPES_LIMIT || clauses_bind_many(clauses)
            }
            WrittenRead::Prove {
                asked,
                further,
                clauses,
                ..
            } => {
                binds_many(&asked.bound.entries)
                    || clauses_bind_many(further)
                    || clauses_bind_many(clauses)
            }
            WrittenRead::Refute { asked, further, .. } => {
                binds_many(&asked.bound.entries) || clauses_bind_many(further)
            }
        }
    }

    fn is_ill_bound(&self) -> bool
        ensures { result ≡ ill_parts (written_of self.now) }
    {
        match self {
            WrittenRead::Trait {
                params,
                bounds,
                types,
                ..
            } => !types.is_empty() && has_consts(params) || any_binds_again(bounds),
            WrittenRead::Impl { clauses, given, .. } => {
                gives_again(given) || clauses_bind_again(clauses)
            }
            WrittenRead::Prove {
                asked,
                further,
                clauses,
                ..
            } => {
                binds_again(&asked.bound.entries)
                    || clauses_bind_again(further)
                    || clauses_bind_again(clauses)
            }
            WrittenRead::Refute { asked, further, .. } => {
                binds_again(&asked.bound.entries) || clauses_bind_again(further)
            }
        }
    }

    fn is_query(&self) -> bool
        ensures { result ≡ is_query_tokens (written_of self.now) }
    {
        matches!(self, WrittenRead::Prove { .. } | WrittenRead::Refute { .. })
    }

    fn header_names(&self, alloc: Global) -> Result<Option<HeaderNames>, AllocError>
        ensures { IfOk result (AreNamesFor (header_said (written_of self.now))) }
    {
        match self {
            WrittenRead::Impl { header, given, .. } => {
                let names = header_names(alloc, header.bound.name, given)?;
                Ok(Some(names))
            }
            _ => Ok(None),
        }
    }
}

/// A line of a kind that can have types, by its tokens. It was read, and not judged.
#[derive(Drop)]
pub struct TypedLine<'t, 'a> {
    read: WrittenRead<'t, 'a>,
}

fn typed<'t, 'a>(alloc: Global, tokens: &'t [Token<'a>]) -> Result<TypedLine<'t, 'a>, LineError>
    ensures { GivesAlone (λ t. written_of t.read) result (written_in (tokens_in tokens.now)) }
{
    let read = read_written(alloc, tokens)?;
    Ok(TypedLine { read })
}

/// Reads a line with types.
///
/// Fails with `Syntax` if the tokens are no written line, or one that can have no types. Fails with `Memory` if memory is refused.
pub fn read_typed<'t, 'a>(
    alloc: Global,
    tokens: &'t [Token<'a>],
) -> Result<TypedLine<'t, 'a>, LineError>
    // If a line is returned, the tokens are that line.
    ensures found { IfOk result (λ t. SpellsTyped (tokens_in tokens.now) t) }
    // The error is `Syntax` only if the tokens are no written line with types.
    ensures refused { has_types (tokens_in tokens.now) ≡ true → IsErrOf result LineError.Syntax
        → (w : WrittenLine) → tokens_in tokens.now ≡ written_spelling w → ⊥ }
{
    typed(alloc, tokens)
}

impl<'t, 'a> TypedLine<'t, 'a> {
    /// The lines for which it stands, as lists of tokens, in order. Fails only if memory is refused.
    pub fn lists(&self, alloc: Global) -> Result<Vec<Vec<Piece<'t, 'a>>>, AllocError>
        ensures { IfOk result (λ v. (w : WrittenLine) → ReadsTyped w self.now → lists_in v.items ≡ map spelling (desugared w)) }
    {
        line_lists(alloc, &self.read)
    }

    /// Whether it has more types than it may, or a bound that says what more types are than it may.
    pub fn has_many_types(&self) -> bool
        ensures { (w : WrittenLine) → ReadsTyped w self.now → result ≡ has_many_types w }
    {
        self.read.has_many_types()
    }

    /// Whether a type is bound or given twice, or a trait with types has const parameters.
    pub fn is_ill_bound(&self) -> bool
        ensures { (w : WrittenLine) → ReadsTyped w self.now → result ≡ is_ill_alone w }
    {
        self.read.is_ill_bound()
    }

    /// Whether it is a query.
    pub fn is_query(&self) -> bool
        ensures { (w : WrittenLine) → ReadsTyped w self.now → result ≡ is_query_line w }
    {
        self.read.is_query()
    }

    /// The names for the header of an impl. `None` if it is no impl. Fails only if memory is refused.
    pub fn header_names(&self, alloc: Global) -> Result<Option<HeaderNames>, AllocError>
        ensures { IfOk result (λ h. (w : WrittenLine) → ReadsTyped w self.now → IsHeaderFor w h) }
    {
        self.read.header_names(alloc)
    }
}
