//! Cells whose form does not depend on the line.
ghost use Rattle.std.specs.Prelude.{◌≡◌, ◌+◌, ◌<◌, ◌^◌};
ghost use Rattle.type_terms.specs.Kinds.{is_mut};
ghost use Rattle.text_lines.specs.TokenViews.{primitive_label};
ghost use Rattle.text_names.specs.Views.{label_in, resolved_in};
ghost use Rattle.text_tables.specs.Made.{CellHeld};
ghost use Rattle.text_parser.specs.Making.{next_autos};
ghost use Rattle.text_parser.specs.Numbering.{IsLeafCell, LabelStands};

use crate::small::{number_of, small, trait_id};
use text_lines::Primitive;
use text_names::{NodeLabel, ResolvedCell};
use text_tables::TermCell;
use type_terms::AdtId;
use type_terms::kinds::{ConstKind, IntTy, Mutability, UintTy};

/// Whether a reference or pointer is `mut`.
pub(crate) fn mutability(m: bool) -> Mutability
    ensures { is_mut result ≡ m }
{
    if m { Mutability::Mut } else { Mutability::Not }
}

fn primitive_cell(primitive: Primitive) -> TermCell
    ensures { IsLeafCell (primitive_label primitive) result }
{
    match primitive {
        Primitive::Bool => TermCell::Bool,
        Primitive::Char => TermCell::Char,
        Primitive::Str => TermCell::Str,
        Primitive::I8 => TermCell::Int(IntTy::I8),
        Primitive::I16 => TermCell::Int(IntTy::I16),
        Primitive::I32 => TermCell::Int(IntTy::I32),
        Primitive::I64 => TermCell::Int(IntTy::I64),
        Primitive::I128 => TermCell::Int(IntTy::I128),
        Primitive::Isize => TermCell::Int(IntTy::Isize),
        Primitive::U8 => TermCell::Uint(UintTy::U8),
        Primitive::U16 => TermCell::Uint(UintTy::U16),
        Primitive::U32 => TermCell::Uint(UintTy::U32),
        Primitive::U64 => TermCell::Uint(UintTy::U64),
        Primitive::U128 => TermCell::Uint(UintTy::U128),
        Primitive::Usize => TermCell::Uint(UintTy::Usize),
    }
}

/// The cell of a type, a constant or a part of a `dyn` with this many parts. The last `autos` of these are auto traits.
pub(crate) fn node_cell(label: NodeLabel<'_>, inside: usize, autos: usize) -> TermCell
    ensures held { CellHeld result }
    ensures stands { LabelStands autos (label_in label.entry) inside result }
{
    match label {
        NodeLabel::Primitive(primitive) => primitive_cell(primitive),
        NodeLabel::Never => TermCell::Never,
        NodeLabel::Array => TermCell::Array,
        NodeLabel::Slice => TermCell::Slice,
        NodeLabel::Tuple => TermCell::Tuple {
            items: small(inside),
        },
        NodeLabel::Dynamic => TermCell::Dynamic {
            has_principal: inside.saturating_sub(1) > autos,
            autos: small(autos),
        },
        NodeLabel::Struct(number) => TermCell::Adt {
            id: AdtId {
                index: small(number),
            },
            args: small(inside),
        },
        NodeLabel::Fn(names) => TermCell::FnPtr {
            bound_vars: small(names),
            types: small(inside),
        },
        NodeLabel::Auto(number) => TermCell::Auto(trait_id(number)),
        NodeLabel::Principal { names, number } => TermCell::Principal {
            bound_vars: small(names),
            def_id: trait_id(number),
            args: small(inside),
        },
        NodeLabel::Pointer { is_mut } => TermCell::RawPtr {
            mutability: mutability(is_mut),
        },
        NodeLabel::Value(digits) => TermCell::Const(ConstKind::Value(number_of(digits))),
    }
}

/// How many auto traits are directly before the next cell. A lifetime does not count.
pub(crate) fn next_autos(autos: usize, cell: ResolvedCell<'_>) -> usize
    requires { autos + 1 < 2 ^ 64 }
    ensures { result ≡ next_autos autos (resolved_in cell.entry) }
{
    match cell {
        ResolvedCell::Node {
            label: NodeLabel::Auto(_),
            ..
        } => autos + 1,
        ResolvedCell::Lifetime(_) => autos,
        _ => 0,
    }
}
