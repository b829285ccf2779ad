//! What is wrong with one use.
ghost use Rattle.std.specs.Prelude.{◌≡◌, ℕ, ◌+◌, ◌-◌, ◌*◌, ◌^◌, ◌≤◌, [], ◌∷◌, false, map, not, nat_le, IfOk, MatchOption};
ghost use Rattle.std.specs.List.{list_any};
ghost use Rattle.std.specs.Option.{option_map, option_map_or, option_and_then};
ghost use Rattle.type_terms.specs.Promised.Label as label;
ghost use Rattle.text_lines.specs.TokenViews.{text_of};
ghost use Rattle.text_lines.specs.TypeViews.{length_of};
ghost use Rattle.text_language.specs.Tokens.{number_from};
ghost use Rattle.text_language.specs.Uses.{crate_use, name_use, trait_use, lifetime_use, lifetime_uses, variable_use, misfit_use, items_use, number_use, number_arg_uses, length_uses, binder_uses};
ghost use Rattle.text_language.specs.Faults.{is_crate, is_unknown_use, is_other_sort, is_line_param, home_of, is_known_name, is_hidden_name, looking_crate, is_param_of, is_type_of, is_trait_of, is_in_scope, is_long, static_name};
ghost use Rattle.text_language.specs.Promised.Faults.{is_among, repeats};
ghost use Rattle.text_language.specs.Promised.Declarations.{Known, known};
ghost use Rattle.text_names.specs.LookUps.{is_hidden_home};
ghost use Rattle.text_tables.specs.Views.{known_of, sort_of_kind};
ghost use Rattle.text_names.specs.Views.{region_in};
ghost use Rattle.text_names.specs.Resolved.{region_of, optional_region};
ghost use Rattle.text_names.specs.Machine.{Sight, findings, seen_items, params, sort_misfits, name_misfits, lifetime_misfits};

use crate::binders::{Binders, place_in};
use crate::findings::Findings;
use crate::looked_up::Names;
use crate::name_set::NameSet;
use crate::resolved::Region;
use std::alloc::{AllocError, Global};
use text_lines::Length;
use text_tables::{Known, ParamKind};
use type_terms::CrateId;

/// How many bytes a name may have.
const NAME_LIMIT: usize = 64;

/// How many items a tuple or the inputs of a `fn` may have.
const LIST_LIMIT: usize = 12;

/// An argument that cannot be of the kind of its position.
const MISFIT: Findings = Findings {
    uses_other_sort: true,
    ..Findings::NONE
};

fn limit(is_passed: bool) -> Findings
    ensures { result ≡ record {
      takes_names = false;
      uses_unknown = false;
      uses_hidden = false;
      uses_other_sort = false;
      uses_own = false;
      has_bad_dyn = false;
      passes_limit = is_passed;
    } }
{
    Findings {
        passes_limit: is_passed,
        ..Findings::NONE
    }
}

/// A type that is no name alone and no variable, in a position of this kind.
pub(crate) fn misfits(sort: ParamKind) -> Findings
    ensures { (v : Sight) → result ≡ findings v (sort_misfits (sort_of_kind sort)) }
{
    match sort {
        ParamKind::Type => Findings::NONE,
        ParamKind::Const => MISFIT,
        ParamKind::Lifetime => MISFIT,
    }
}

/// A name or a variable in a position of this kind.
pub(crate) fn named_misfits(sort: ParamKind) -> Findings
    ensures { (v : Sight) → result ≡ findings v (name_misfits (sort_of_kind sort)) }
{
    match sort {
        ParamKind::Type => Findings::NONE,
        ParamKind::Const => Findings::NONE,
        ParamKind::Lifetime => MISFIT,
    }
}

/// A lifetime in a position of this kind.
pub(crate) fn lifetime_misfits(sort: ParamKind) -> Findings
    ensures { (v : Sight) → result ≡ findings v (lifetime_misfits (sort_of_kind sort)) }
{
    match sort {
        ParamKind::Type => MISFIT,
        ParamKind::Const => MISFIT,
        ParamKind::Lifetime => Findings::NONE,
    }
}

/// What is wrong with a variable: its name may be too long.
#[tactic(auto, using(crate::proofs::Judged::one_variable))]
pub(crate) fn variable(name: &[u8]) -> Findings
    ensures { (v : Sight) (p : label.Sort) → result ≡ findings v (variable_use p name.now ∷ []) }
{
    limit(name.len() > NAME_LIMIT)
}

/// What is wrong with this many items of a tuple, or inputs of a `fn`.
#[tactic(auto, using(crate::proofs::Judged::one_items))]
pub(crate) fn items(count: usize) -> Findings
    ensures { (v : Sight) → result ≡ findings v (items_use count ∷ []) }
{
    limit(count > LIST_LIMIT)
}

/// Whether a lifetime is not declared.
fn is_unknown_lifetime<N: Names>(names: &N, binders: &Binders<'_>, name: &[u8]) -> bool
    ensures { result ≡ is_unknown_use (N.sight names.now).before (N.sight names.now).line (lifetime_use binders.now name.now) }
{
    if name == b"static".as_slice() {
        return false;
    }
    if let Some(_) = names.param_place(ParamKind::Lifetime, name) {
        return false;
    }
    if let Some(_) = binders.find(name) {
        return false;
    }
    true
}

/// What is wrong with a lifetime: it may not be in scope.
#[tactic(auto, using(crate::proofs::Judged::one_lifetime))]
pub(crate) fn lifetime<N: Names>(names: &N, binders: &Binders<'_>, name: &[u8]) -> Findings
    ensures { result ≡ findings (N.sight names.now) (lifetime_use binders.now name.now ∷ []) }
{
    Findings {
        uses_unknown: is_unknown_lifetime(names, binders, name),
        ..Findings::NONE
    }
}

/// What a lifetime stands for.
pub(crate) fn region<N: Names>(names: &N, binders: &Binders<'_>, name: &[u8]) -> Region
    ensures { region_in result ≡ region_of (params (N.sight names.now)) binders.now name.now }
{
    if name == b"static".as_slice() {
        return Region::Static;
    }
    if let Some((binder, place)) = binders.find(name) {
        return Region::Bound { binder, place };
    }
    match names.param_place(ParamKind::Lifetime, name) {
        Some(place) => Region::Param(place),
        None => Region::Param(names.param_count(ParamKind::Lifetime)),
    }
}

/// What is wrong with a lifetime that may be omitted.
pub(crate) fn optional_lifetime<N: Names>(
    names: &N,
    binders: &Binders<'_>,
    name: Option<&[u8]>,
) -> Findings
    ensures { result ≡ findings (N.sight names.now) (lifetime_uses binders.now (option_map text_of name.entry)) }
{
    match name {
        Some(name) => lifetime(names, binders, name),
        None => no_use(),
    }
}

/// No use, so nothing is wrong.
fn no_use() -> Findings
    ensures { (v : Sight) → result ≡ findings v [] }
{
    Findings::NONE
}

/// What a lifetime stands for. An omitted one is `'static`.
pub(crate) fn optional_region<N: Names>(
    names: &N,
    binders: &Binders<'_>,
    name: Option<&[u8]>,
) -> Region
    ensures { region_in result ≡ optional_region (params (N.sight names.now)) binders.now (option_map text_of name.entry) }
{
    match name {
        Some(name) => region(names, binders, name),
        None => Region::Static,
    }
}

/// Whether a name is a type or constant parameter of the line.
pub fn is_param<N: Names>(names: &N, name: &[u8]) -> bool
    ensures { result ≡ is_line_param (N.sight names.now).line name.now }
{
    if let Some(_) = names.param_place(ParamKind::Type, name) {
        return true;
    }
    if let Some(_) = names.param_place(ParamKind::Const, name) {
        return true;
    }
    false
}

/// The crate of a struct or a trait.
fn home(meaning: Option<Known<'_>>) -> Option<CrateId>
    ensures { option_map (λ c. c.index) result ≡ option_and_then home_of (option_map known_of meaning.entry) }
{
    match meaning {
        Some(Known::Struct { owner, .. }) => Some(owner),
        Some(Known::Trait { owner, .. }) => Some(owner),
        _ => None,
    }
}

/// Whether the line's crate does not see what a name stands for.
fn is_hidden<N: Names>(names: &N, meaning: Option<Known<'_>>) -> bool
    ensures { result ≡ option_map_or (λ h. is_hidden_home (N.sight names.now) h) (option_and_then home_of (option_map known_of meaning.entry)) false }
{
    match home(meaning) {
        Some(home) => names.hides(home),
        None => false,
    }
}

/// Whether a name is not declared.
fn is_unknown<N: Names>(names: &N, name: &[u8], meaning: Option<Known<'_>>) -> bool
    requires { option_map known_of meaning ≡ known (seen_items (N.sight names.now)) name.now }
    ensures { result ≡ not (is_known_name (N.sight names.now).before (N.sight names.now).line name.now) }
{
    !is_param(names, name) && meaning.is_none()
}

/// Whether the line's crate does not see what a name stands for, and the name is no parameter.
fn is_hidden_known<N: Names>(names: &N, name: &[u8], meaning: Option<Known<'_>>) -> bool
    requires { option_map known_of meaning ≡ known (seen_items (N.sight names.now)) name.now }
    ensures { result ≡ option_map_or (λ c. is_hidden_name (N.sight names.now).before (N.sight names.now).line c name.now)
        (looking_crate (N.sight names.now).before (N.sight names.now).line) false }
{
    !is_param(names, name) && is_hidden(names, meaning)
}

/// Whether a parameter fits a position of this kind with this many arguments.
fn fits_param<N: Names>(names: &N, sort: ParamKind, name: &[u8], count: usize) -> bool
    ensures { result ≡ is_param_of (N.sight names.now).line (sort_of_kind sort) name.now count }
{
    if count != 0 {
        return false;
    }
    match sort {
        ParamKind::Lifetime => false,
        ParamKind::Type => match names.param_place(ParamKind::Type, name) {
            Some(_) => true,
            None => false,
        },
        ParamKind::Const => match names.param_place(ParamKind::Const, name) {
            Some(_) => true,
            None => false,
        },
    }
}

/// Whether this is a struct with this many parameters, in a position of this kind.
fn is_struct_of(sort: ParamKind, count: usize, meaning: Option<Known<'_>>) -> bool
    ensures { result ≡ option_map_or (is_type_of (sort_of_kind sort) count) (option_map known_of meaning.entry) false }
{
    match meaning {
        Some(Known::Struct { params, .. }) => match sort {
            ParamKind::Type => params.len() == count,
            _ => false,
        },
        _ => false,
    }
}

/// Whether this is a trait with this many parameters.
fn is_trait_of(count: usize, meaning: Option<Known<'_>>) -> bool
    ensures { result ≡ option_map_or (is_trait_of count) (option_map known_of meaning.entry) false }
{
    match meaning {
        Some(Known::Trait { params, .. }) => params.len() == count,
        _ => false,
    }
}

/// Whether a name is of another kind than its position needs, or has the wrong number of arguments.
fn is_other_name<N: Names>(
    names: &N,
    sort: ParamKind,
    name: &[u8],
    count: usize,
    meaning: Option<Known<'_>>,
) -> bool
    requires { option_map known_of meaning ≡ known (seen_items (N.sight names.now)) name.now }
    ensures { result ≡ is_other_sort (N.sight names.now).before (N.sight names.now).line (name_use (sort_of_kind sort) name.now count) }
{
    if is_param(names, name) {
        !fits_param(names, sort, name, count)
    } else {
        !is_struct_of(sort, count, meaning)
    }
}

/// Whether the name of a bound is no trait, or has the wrong number of arguments.
fn is_other_trait<N: Names>(
    names: &N,
    name: &[u8],
    count: usize,
    meaning: Option<Known<'_>>,
) -> bool
    requires { option_map known_of meaning ≡ known (seen_items (N.sight names.now)) name.now }
    ensures { result ≡ is_other_sort (N.sight names.now).before (N.sight names.now).line (trait_use name.now count) }
{
    is_param(names, name) || !is_trait_of(count, meaning)
}

/// What is wrong with a name with this many arguments, in a position of this kind. `meaning` is what it stands for.
#[tactic(auto, using(crate::proofs::Judged::one_name))]
pub(crate) fn name<N: Names>(
    names: &N,
    sort: ParamKind,
    name: &[u8],
    count: usize,
    meaning: Option<Known<'_>>,
) -> Findings
    requires { option_map known_of meaning ≡ known (seen_items (N.sight names.now)) name.now }
    ensures { result ≡ findings (N.sight names.now) (name_use (sort_of_kind sort) name.now count ∷ []) }
{
    Findings {
        uses_unknown: is_unknown(names, name, meaning),
        uses_hidden: is_hidden_known(names, name, meaning),
        uses_other_sort: is_other_name(names, sort, name, count, meaning),
        uses_own: names.is_own(name),
        ..Findings::NONE
    }
}

/// What is wrong with the name of a bound with this many arguments. `meaning` is what it stands for.
#[tactic(auto, using(crate::proofs::Judged::one_trait))]
pub(crate) fn bound<N: Names>(
    names: &N,
    name: &[u8],
    count: usize,
    meaning: Option<Known<'_>>,
) -> Findings
    requires { option_map known_of meaning ≡ known (seen_items (N.sight names.now)) name.now }
    ensures { result ≡ findings (N.sight names.now) (trait_use name.now count ∷ []) }
{
    Findings {
        uses_unknown: is_unknown(names, name, meaning),
        uses_hidden: is_hidden_known(names, name, meaning),
        uses_other_sort: is_other_trait(names, name, count, meaning),
        uses_own: names.is_own(name),
        ..Findings::NONE
    }
}

fn is_crate(meaning: Option<Known<'_>>) -> bool
    ensures { result ≡ option_map_or is_crate (option_map known_of meaning.entry) false }
{
    matches!(meaning, Some(Known::Crate { .. }))
}

/// What is wrong with the name of a crate, on a line that declares no struct and no trait.
#[tactic(auto, using(crate::proofs::Judged::one_crate))]
pub fn crate_name<N: Names>(names: &N, name: &[u8]) -> Findings
    requires { seen_items (N.sight names.now) ≡ (N.sight names.now).before }
    ensures { result ≡ findings (N.sight names.now) (crate_use name.now ∷ []) }
{
    let meaning = names.known(name);
    Findings {
        uses_unknown: is_unknown(names, name, meaning),
        uses_other_sort: !is_crate(meaning),
        ..Findings::NONE
    }
}

/// The number with one more digit, if it stays below 2^64.
fn with_digit(value: u64, digit: u8) -> Option<u64>
    ensures { MatchOption result (2 ^ 64 ≤ 10 * value + (digit - 48)) (λ n. n ≡ 10 * value + (digit - 48)) }
{
    match value.checked_mul(10) {
        Some(tens) => tens.checked_add(digit.saturating_sub(b'0') as u64),
        None => None,
    }
}

/// Whether the number that these digits write is 2^64 or more.
fn is_large(digits: &[u8]) -> bool
    ensures { result ≡ nat_le (2 ^ 64) (number_from 0 digits.now) }
{
    let mut value: u64 = 0;
    for digit in digits {
        match with_digit(value, *digit) {
            Some(more) => value = more,
            None => return true,
        }
    }
    false
}

/// What is wrong with a number: it may be 2^64 or more.
#[tactic(auto, using(crate::proofs::Judged::one_number))]
pub(crate) fn number(digits: &[u8]) -> Findings
    ensures { (v : Sight) → result ≡ findings v (number_use (number_from 0 digits.now) ∷ []) }
{
    limit(is_large(digits))
}

/// What is wrong with a number as an argument for a parameter of this kind.
#[tactic(auto, using(crate::proofs::Judged::misfit_number))]
pub(crate) fn number_argument(sort: ParamKind, digits: &[u8]) -> Findings
    ensures { (v : Sight) → result ≡ findings v (number_arg_uses (sort_of_kind sort) (number_from 0 digits.now)) }
{
    match sort {
        ParamKind::Const => number(digits),
        ParamKind::Type => number(digits).either(MISFIT),
        ParamKind::Lifetime => number(digits).either(MISFIT),
    }
}

/// What is wrong with the length of an array.
pub(crate) fn length<N: Names>(names: &N, length: Length<'_>) -> Findings
    ensures { result ≡ findings (N.sight names.now) (length_uses (length_of length.entry)) }
{
    match length {
        Length::Number(digits) => number(digits),
        Length::Name(constant) => name(names, ParamKind::Const, constant, 0, names.known(constant)),
        Length::Variable(unknown) => variable(unknown),
    }
}

/// Whether a name occurs twice. Fails only if memory is refused.
pub fn repeats(alloc: Global, names: &[&[u8]]) -> Result<bool, AllocError>
    ensures { IfOk result (λ b. b ≡ repeats (map text_of names.now)) }
{
    let mut behind = NameSet::new(alloc);
    let mut at = names.len();
    while at > 0 {
        at -= 1;
        let name = names[at];
        if behind.contains(name) {
            return Ok(true);
        }
        behind.insert(name)?;
    }
    Ok(false)
}

/// Whether `'static` is among the names.
pub fn has_static(names: &[&[u8]]) -> bool
    ensures { result ≡ is_among static_name (map text_of names.now) }
{
    match place_in(names, b"static".as_slice()) {
        Some(_) => true,
        None => false,
    }
}

/// Whether a name is too long.
fn has_long(names: &[&[u8]]) -> bool
    ensures { result ≡ list_any is_long (map text_of names.now) }
{
    for name in names {
        if name.len() > NAME_LIMIT {
            return true;
        }
    }
    false
}

/// Whether a lifetime is a parameter of the line or bound by a binder around.
fn is_in_scope<N: Names>(names: &N, binders: &Binders<'_>, name: &[u8]) -> bool
    ensures { result ≡ is_in_scope (N.sight names.now).line binders.now name.now }
{
    if let Some(_) = names.param_place(ParamKind::Lifetime, name) {
        return true;
    }
    match binders.find(name) {
        Some(_) => true,
        None => false,
    }
}

/// Whether a name of a binder is in scope already.
fn hides_others<N: Names>(names: &N, binders: &Binders<'_>, bound: &[&[u8]]) -> bool
    ensures { result ≡ list_any (is_in_scope (N.sight names.now).line binders.now) (map text_of bound.now) }
{
    for name in bound {
        if is_in_scope(names, binders, name) {
            return true;
        }
    }
    false
}

/// What is wrong with a binder of these lifetimes, under those that are around.
#[tactic(auto, using(crate::proofs::Judged::one_binder))]
pub(crate) fn binder<N: Names>(
    names: &N,
    alloc: Global,
    binders: &Binders<'_>,
    bound: &[&[u8]],
) -> Result<Findings, AllocError>
    ensures { IfOk result (λ f. f ≡ findings (N.sight names.now) (binder_uses binders.now (map text_of bound.now))) }
{
    let is_repeated = repeats(alloc, bound)?;
    Ok(Findings {
        takes_names: is_repeated || has_static(bound) || hides_others(names, binders, bound),
        passes_limit: has_long(bound),
        ..Findings::NONE
    })
}
