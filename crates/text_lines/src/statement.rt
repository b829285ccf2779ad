//! The statement of a line. Its types are spans in one list of cells.
ghost use Rattle.std.specs.Prelude.{◌≡◌};
ghost use Rattle.text_lines.specs.Parts.{rank};
ghost use Rattle.text_lines.specs.Views.{param_of};

use crate::cell::Cell;

/// The cells of a type: from the index `start` on, up to but excluding `end`. The last of them is the cell of the type itself. A bound is
/// stored as the type of its name and arguments: its last cell is a `Named` with the trait's name.
#[derive(Clone, Copy)]
pub struct Span {
    pub start: usize,
    pub end: usize,
}

/// `type: bound`, or `bound for type` in an impl.
#[derive(Clone, Copy)]
pub struct ClauseSpans {
    pub subject: Span,
    pub bound: Span,
}

/// A declared parameter.
#[derive(Clone, Copy)]
pub enum Param<'a> {
    /// `'a`, without the `'`.
    Lifetime(&'a [u8]),
    Type(&'a [u8]),
    /// `const N`
    Const(&'a [u8]),
}

impl<'a> Param<'a> {
    /// The rank of the kind: lifetimes come first, then types, then constants.
    pub(crate) fn rank(&self) -> u8
        ensures { result ≡ rank (param_of self.now) }
    {
        match self {
            Param::Lifetime(_) => 0,
            Param::Type(_) => 1,
            Param::Const(_) => 2,
        }
    }
}

/// A line as written. Names are borrowed from the text and not looked up. Spans are of the cells of the line. The cells of its types and
/// bounds follow each other in the order of the text.
#[derive(Drop)]
pub enum Statement<'a> {
    /// `crate NAME`, or `crate NAME uses NAME, NAME, ...`
    Crate {
        name: &'a [u8],
        uses: Vec<&'a [u8]>,
    },
    /// `struct NAME<...>(TYPE, ...)`
    Struct {
        is_fundamental: bool,
        name: &'a [u8],
        params: Vec<Param<'a>>,
        fields: Vec<Span>,
    },
    /// `trait NAME<...>: BOUND + ...`
    Trait {
        is_fundamental: bool,
        is_auto: bool,
        name: &'a [u8],
        params: Vec<Param<'a>>,
        bounds: Vec<Span>,
    },
    /// `impl<...> BOUND for TYPE where TYPE: BOUND, ...`
    Impl {
        params: Vec<Param<'a>>,
        header: ClauseSpans,
        clauses: Vec<ClauseSpans>,
    },
    /// `prove in CRATE<...> TYPE: BOUND, TYPE: BOUND, ... where TYPE: BOUND, ...`
    Prove {
        crate_name: &'a [u8],
        params: Vec<Param<'a>>,
        asked: ClauseSpans,
        /// The bounds after the first.
        further: Vec<ClauseSpans>,
        clauses: Vec<ClauseSpans>,
    },
    /// `later CRATE`
    Later {
        crate_name: &'a [u8],
    },
    /// `supers in CRATE`
    Supers {
        crate_name: &'a [u8],
    },
    /// `refute in CRATE<...> TYPE: BOUND, TYPE: BOUND, ...`
    Refute {
        crate_name: &'a [u8],
        params: Vec<Param<'a>>,
        asked: ClauseSpans,
        /// The bounds after the first.
        further: Vec<ClauseSpans>,
    },
}

/// A line that was read.
pub struct LineRead<'a> {
    /// The cells of all its types and bounds.
    pub cells: Vec<Cell<'a>>,
    pub statement: Statement<'a>,
}

// Written by hand: an owner then drops it by one call at each exit, instead of field by field.
impl Drop for LineRead<'_> {
    fn drop(self) {
        let LineRead {
            cells: _,
            statement: _,
        } = self;
    }
}
