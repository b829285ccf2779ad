//! Types whose names are looked up, as lists of cells.

use text_lines::Primitive;
use text_tables::ParamKind;

/// What the name of a lifetime stands for. An omitted one is `Static`.
#[derive(Clone, Copy)]
pub enum Region {
    Static,
    /// A parameter, by its index among the line's lifetimes.
    Param(usize),
    /// A lifetime of a binder, by how many binders further out that is and by its index there.
    Bound { binder: usize, place: usize },
}

/// What a cell of a type, a constant or a lifetime is.
#[derive(Clone, Copy)]
pub enum NodeLabel<'a> {
    Primitive(Primitive),
    Never,
    Array,
    Slice,
    Tuple,
    Dynamic,
    /// A struct, by its number.
    Struct(usize),
    /// A `fn` that binds this many lifetimes.
    Fn(usize),
    /// An auto trait of a `dyn`, by its number.
    Auto(usize),
    /// The principal trait of a `dyn`, with how many lifetimes it binds.
    Principal { names: usize, number: usize },
    Pointer { is_mut: bool },
    /// A number, by its digits.
    Value(&'a [u8]),
}

/// A part of a type. Its own parts come before it, and it says how many types, constants and lifetimes they are.
#[derive(Clone, Copy)]
pub enum ResolvedCell<'a> {
    Node {
        label: NodeLabel<'a>,
        inside: usize,
    },
    /// A type or constant parameter, by its index among the line's parameters of its kind.
    Param {
        sort: ParamKind,
        place: usize,
        inside: usize,
    },
    /// A variable of a query.
    Variable {
        sort: ParamKind,
        name: &'a [u8],
    },
    Lifetime(Region),
    /// `&'a T` or `&'a mut T`, after T.
    Reference {
        region: Region,
        is_mut: bool,
    },
}

/// An occurrence of a variable, where a type or a constant is expected.
#[derive(Clone, Copy)]
pub struct Variable<'a> {
    pub name: &'a [u8],
    pub sort: ParamKind,
}
