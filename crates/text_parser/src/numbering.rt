//! How the parameters and the variables of a line are numbered.
ghost use Rattle.std.specs.Prelude.{◌≡◌, ℕ, map, filter};
ghost use Rattle.type_terms.specs.Promised.Label.{of_type, of_const, of_lifetime};
ghost use Rattle.type_terms.specs.Promised.Trees.{is_sort};
ghost use Rattle.type_terms.specs.Promised.Handles.{RegionHeld, region_label};
ghost use Rattle.text_language.specs.Lowering.{Meanings, place_among};
ghost use Rattle.text_tables.specs.Made.{CellHeld, type_part, const_part};
ghost use Rattle.text_tables.specs.Views.{sort_of_kind};
ghost use Rattle.text_names.specs.Resolved.{param_cell, variable_cell, lifetime_cell, reference_cell};
ghost use Rattle.text_names.specs.Views.{resolved_in, region_in, variable_in};
ghost use Rattle.text_names.specs.Machine.{Sight};
ghost use Rattle.text_parser.specs.Meant.{FewNames};
ghost use Rattle.text_parser.specs.Numbering.{meanings, names_of_sort, parameter_of, variables_of, IsParamCell, IsNumbersOf, RegionStands, CellStands};

use crate::cell::{mutability, node_cell};
use crate::small::{small, small_sum};
use text_names::{Names, ResolvedCell, Variable};
use text_tables::{ParamKind, TermCell};
use type_terms::kinds::ConstKind;
use type_terms::number::{BoundVar, BoundVarIndexKind, ConstVid, DebruijnIndex, TyVid};
use type_terms::region::{Region, RegionKind};

/// What the parameters and the variables of a line stand for.
#[derive(Clone, Copy)]
pub enum Numbering<'n, 'a> {
    /// In an item's line, parameters count from this number on. It is 1 in a trait's own line, where 0 is Self. There are no variables.
    Item { first: u32 },
    /// In a query, parameters stand for any type. These are the variables, each once. Those of one kind count from 0.
    Question { variables: &'n [Variable<'a>] },
}

/// The numbers of a line's parameters and variables.
#[derive(Clone, Copy)]
pub(crate) struct Numbers<'n, 'a> {
    numbering: Numbering<'n, 'a>,
    /// The number of the first lifetime, of the first type and of the first constant.
    lifetimes: usize,
    types: usize,
    consts: usize,
}

fn is_same(first: ParamKind, second: ParamKind) -> bool
    ensures { result ≡ is_sort (sort_of_kind first) (sort_of_kind second) }
{
    match first {
        ParamKind::Type => matches!(second, ParamKind::Type),
        ParamKind::Const => matches!(second, ParamKind::Const),
        ParamKind::Lifetime => matches!(second, ParamKind::Lifetime),
    }
}

/// The index of a name among variables of one kind. If it is none of them, their number.
fn place_among(variables: &[Variable<'_>], sort: ParamKind, name: &[u8]) -> usize
    ensures { result ≡ place_among name.now (names_of_sort (sort_of_kind sort) (map variable_in variables.now)) }
{
    let mut place = 0;
    let mut rest = variables;
    while let [variable, others @ ..] = rest {
        if is_same(variable.sort, sort) {
            if variable.name == name {
                return place;
            }
            place += 1;
        }
        rest = others;
    }
    place
}

impl<'n, 'a> Numbering<'n, 'a> {
    fn first(&self) -> usize
        ensures { (v : Sight) → result ≡ (meanings v self.now).first }
    {
        match self {
            Numbering::Item { first } => *first as usize,
            Numbering::Question { .. } => 0,
        }
    }

    /// The index of a variable among those of its kind.
    fn variable_place(&self, sort: ParamKind, name: &[u8]) -> usize
        ensures { result ≡ place_among name.now (names_of_sort (sort_of_kind sort) (variables_of self.now)) }
    {
        match self {
            Numbering::Item { .. } => 0,
            Numbering::Question { variables } => place_among(variables, sort, name),
        }
    }

    fn type_param(&self, number: u32) -> TermCell
        ensures { IsParamCell self.now of_type number type_part result }
    {
        match self {
            Numbering::Item { .. } => TermCell::Param(number),
            Numbering::Question { .. } => TermCell::Placeholder(number),
        }
    }

    fn const_param(&self, number: u32) -> TermCell
        ensures { IsParamCell self.now of_const number const_part result }
    {
        match self {
            Numbering::Item { .. } => TermCell::Const(ConstKind::Param(number)),
            Numbering::Question { .. } => TermCell::Const(ConstKind::Placeholder(number)),
        }
    }

    fn lifetime_param(&self, number: u32) -> RegionKind
        ensures held { RegionHeld result }
        ensures label { region_label result ≡ parameter_of self.now of_lifetime number }
    {
        match self {
            Numbering::Item { .. } => RegionKind::ReEarlyParam(number),
            Numbering::Question { .. } => RegionKind::RePlaceholder(number),
        }
    }
}

impl<'n, 'a> Numbers<'n, 'a> {
    /// The numbers of a line in which names stand for these.
    pub fn of<N: Names>(names: &N, numbering: Numbering<'n, 'a>) -> Self
        requires { FewNames (meanings (N.sight names.now) numbering) }
        ensures { IsNumbersOf result (meanings (N.sight names.now) numbering.entry) }
    {
        let lifetimes = numbering.first();
        let types = lifetimes + names.param_count(ParamKind::Lifetime);
        let consts = types + names.param_count(ParamKind::Type);
        Numbers {
            numbering,
            lifetimes,
            types,
            consts,
        }
    }

    fn region_kind(&self, region: text_names::Region) -> RegionKind
        ensures held { RegionHeld result }
        ensures stands { (e : Meanings) → IsNumbersOf self.now e → RegionStands e (region_in region) result }
    {
        match region {
            text_names::Region::Static => RegionKind::ReStatic,
            text_names::Region::Param(place) => {
                self.numbering
                    .lifetime_param(small_sum(self.lifetimes, place))
            }
            text_names::Region::Bound { binder, place } => RegionKind::ReBound(
                BoundVarIndexKind::Bound(DebruijnIndex {
                    index: small(binder),
                }),
                BoundVar {
                    index: small(place),
                },
            ),
        }
    }

    /// The cell of a parameter, by its index among those of its kind.
    fn param(&self, sort: ParamKind, place: usize) -> TermCell
        ensures held { CellHeld result }
        ensures stands { (e : Meanings) (a k : ℕ) → IsNumbersOf self.now e → CellStands e a (param_cell (sort_of_kind sort) place k) result }
    {
        match sort {
            ParamKind::Type => self.numbering.type_param(small_sum(self.types, place)),
            ParamKind::Const => self.numbering.const_param(small_sum(self.consts, place)),
            ParamKind::Lifetime => TermCell::Never,
        }
    }

    fn variable(&self, sort: ParamKind, name: &[u8]) -> TermCell
        ensures held { CellHeld result }
        ensures stands { (e : Meanings) (a : ℕ) → IsNumbersOf self.now e → CellStands e a (variable_cell (sort_of_kind sort) name.now) result }
    {
        let index = small(self.numbering.variable_place(sort, name));
        match sort {
            ParamKind::Type => TermCell::Infer(TyVid { index }),
            ParamKind::Const => TermCell::Const(ConstKind::Infer(ConstVid { index })),
            ParamKind::Lifetime => TermCell::Never,
        }
    }

    /// The cell that is stored for one whose names were looked up. This many auto traits are directly before it.
    pub fn cell(&self, cell: ResolvedCell<'a>, autos: usize) -> TermCell
        ensures held { CellHeld result }
        ensures stands { (e : Meanings) → IsNumbersOf self.now e → CellStands e autos (resolved_in cell.entry) result }
    {
        match cell {
            ResolvedCell::Node { label, inside } => node_cell(label, inside, autos),
            ResolvedCell::Param { sort, place, .. } => self.param(sort, place),
            ResolvedCell::Variable { sort, name } => self.variable(sort, name),
            ResolvedCell::Lifetime(region) => TermCell::Lifetime(Region {
                kind: self.region_kind(region),
            }),
            ResolvedCell::Reference { region, is_mut } => TermCell::Ref {
                region: Region {
                    kind: self.region_kind(region),
                },
                mutability: mutability(is_mut),
            },
        }
    }
}
