//! What the names of types stand for among the resolved cells.
ghost use Rattle.std.specs.Prelude.{◌≡◌, List, ◌∷◌};
ghost use Rattle.std.specs.Option.{option_map};
ghost use Rattle.text_language.specs.Promised.Declarations.{known};
ghost use Rattle.text_language.specs.Uses.{kinds_of_struct, kinds_of_trait};
ghost use Rattle.text_language.specs.Promised.Faults.{is_auto_name};
ghost use Rattle.text_language.specs.Lowering.{place_among, struct_label, trait_number};
ghost use Rattle.text_lines.specs.TypeViews.{length_of};
ghost use Rattle.text_names.specs.LookUps.{params_of_sort};
ghost use Rattle.text_names.specs.Machine.{seen_items, params, name_cells};
ghost use Rattle.text_names.specs.Resolved as resolved;
ghost use Rattle.text_names.specs.Resolved.{const_cell, length_cell, named_cell};
ghost use Rattle.text_tables.specs.Views.{sort_of_kind, sorts_of, known_of};
ghost use Rattle.text_names.specs.Views.{label_in, resolved_in};

use crate::looked_up::Names;
use crate::resolved::{NodeLabel, ResolvedCell};
use text_lines::Length;
use text_tables::{Known, ParamKind};

/// The index of a name among the line's parameters of this kind. If it is none of them, their number.
fn place_among<N: Names>(names: &N, sort: ParamKind, name: &[u8]) -> usize
    ensures { result ≡ place_among name.now (params_of_sort (params (N.sight names.now)) (sort_of_kind sort)) }
{
    match names.param_place(sort, name) {
        Some(place) => place,
        None => names.param_count(sort),
    }
}

/// The cell of a name where a constant is expected.
fn const_cell<'a, N: Names>(names: &N, name: &[u8]) -> ResolvedCell<'a>
    ensures { resolved_in result ≡ const_cell (params (N.sight names.now)) name.now }
{
    ResolvedCell::Param {
        sort: ParamKind::Const,
        place: place_among(names, ParamKind::Const, name),
        inside: 0,
    }
}

/// The cell of the length of an array.
pub(crate) fn length_cell<'a, N: Names>(names: &N, length: Length<'a>) -> ResolvedCell<'a>
    ensures { resolved_in result ≡ length_cell (params (N.sight names.now)) (length_of length.entry) }
{
    match length {
        Length::Number(digits) => ResolvedCell::Node {
            label: NodeLabel::Value(digits),
            inside: 0,
        },
        Length::Name(name) => const_cell(names, name),
        Length::Variable(name) => ResolvedCell::Variable {
            sort: ParamKind::Const,
            name,
        },
    }
}

/// The label of a struct. Nothing else has values.
fn struct_label<'a>(meaning: Option<Known<'_>>) -> NodeLabel<'a>
    ensures { label_in result ≡ struct_label (option_map known_of meaning.entry) }
{
    match meaning {
        Some(Known::Struct { id, .. }) => NodeLabel::Struct(id.index as usize),
        _ => NodeLabel::Never,
    }
}

/// The cell of a name where a type is expected, with this many arguments.
fn type_cell<'a, N: Names>(
    names: &N,
    name: &[u8],
    count: usize,
    meaning: Option<Known<'_>>,
) -> ResolvedCell<'a>
    requires { option_map known_of meaning ≡ known (seen_items (N.sight names.now)) name.now }
    ensures { resolved_in result ≡ named_cell (seen_items (N.sight names.now)) (params (N.sight names.now)) name.now count }
{
    match names.param_place(ParamKind::Type, name) {
        Some(place) => ResolvedCell::Param {
            sort: ParamKind::Type,
            place,
            inside: count,
        },
        None => ResolvedCell::Node {
            label: struct_label(meaning),
            inside: count,
        },
    }
}

/// The cell of a name with this many arguments, in a position of this kind.
pub(crate) fn named_cell<'a, N: Names>(
    names: &N,
    sort: ParamKind,
    name: &[u8],
    count: usize,
    meaning: Option<Known<'_>>,
) -> ResolvedCell<'a>
    requires { option_map known_of meaning ≡ known (seen_items (N.sight names.now)) name.now }
    ensures { (cs : List resolved.ResolvedCell) → name_cells (N.sight names.now) (sort_of_kind sort) name.now count cs ≡ resolved_in result ∷ cs }
{
    match sort {
        ParamKind::Const => const_cell(names, name),
        ParamKind::Type => type_cell(names, name, count, meaning),
        ParamKind::Lifetime => type_cell(names, name, count, meaning),
    }
}

/// The kinds of the parameters of the struct with this name. Empty if the name stands for something else.
pub(crate) fn struct_kinds(meaning: Option<Known<'_>>) -> &[ParamKind]
    ensures { sorts_of result.now ≡ kinds_of_struct (option_map known_of meaning.entry) }
{
    match meaning {
        Some(Known::Struct { params, .. }) => params,
        _ => &[],
    }
}

/// The kinds of the parameters of the trait with this name, without Self. Empty if the name stands for something else.
pub(crate) fn trait_kinds(meaning: Option<Known<'_>>) -> &[ParamKind]
    ensures { sorts_of result.now ≡ kinds_of_trait (option_map known_of meaning.entry) }
{
    match meaning {
        Some(Known::Trait { params, .. }) => params,
        _ => &[],
    }
}

/// The number of the trait with this name. If the name stands for something else, it is 0, and the line has a fault.
pub(crate) fn trait_number(meaning: Option<Known<'_>>) -> usize
    ensures { result ≡ trait_number (option_map known_of meaning.entry) }
{
    match meaning {
        Some(Known::Trait { id, .. }) => id.index as usize,
        _ => 0,
    }
}

/// Whether this is the name of an auto trait.
#[tactic(auto, using(crate::proofs::Meanings::auto_by))]
pub(crate) fn is_auto<N: Names>(names: &N, name: &[u8], meaning: Option<Known<'_>>) -> bool
    requires { option_map known_of meaning ≡ known (seen_items (N.sight names.now)) name.now }
    ensures { result ≡ is_auto_name (seen_items (N.sight names.now)) name.now }
{
    match meaning {
        Some(Known::Trait { is_auto, .. }) => is_auto,
        _ => false,
    }
}
