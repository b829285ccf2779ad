//! Types and bounds of a line are looked up.
ghost use Rattle.std.specs.Prelude.{◌≡◌, List, [], length, IfOk, OnOk};
ghost use Rattle.text_language.specs.Promised.Syntax.{Bound};
ghost use Rattle.text_language.specs.Promised.Declarations.{known};
ghost use Rattle.text_language.specs.Lowering.{trait_number};
ghost use Rattle.text_lines.specs.Cells as cell;
ghost use Rattle.text_lines.specs.TypeViews.{cells_in};
ghost use Rattle.text_lines.specs.Back.{args_back};
ghost use Rattle.text_names.specs.Machine.{seen_items};
ghost use Rattle.text_names.specs.WalkViews.{frames_in};
ghost use Rattle.text_names.specs.Resolving.{ResolvesType, ResolvesBound, nothing_found, bound_found};

use crate::findings::Findings;
use crate::looked_up::Names;
use crate::resolved::{ResolvedCell, Variable};
use crate::walk::{Frame, Inside, Next, Place, Walk};
use crate::{heads, judge_use};
use std::alloc::{AllocError, Global};
use text_lines::Cell;
use text_tables::ParamKind;

/// How many types may be nested.
const DEPTH_LIMIT: usize = 64;

/// What was found of a type, or of a bound.
#[derive(Drop)]
pub struct Resolved<'a> {
    /// What is wrong with what it uses.
    pub faults: Findings,
    /// Its variables, in the order in which they are written.
    pub variables: Vec<Variable<'a>>,
    /// Whether too many types are nested.
    pub is_deep: bool,
    /// Its cells, with numbers for names. For a bound, those of its arguments.
    pub cells: Vec<ResolvedCell<'a>>,
}

/// What was found of a bound.
#[derive(Drop)]
pub struct ResolvedBound<'a> {
    /// The number of its trait. It is 0 if the name is no trait.
    pub trait_number: usize,
    pub resolved: Resolved<'a>,
}

/// Looks up the names of the last type among the cells of a line. Other cells may come before it. Nothing recurses, however deep the type
/// is.
///
/// Fails only if memory is refused.
pub fn resolve_type<'a, N: Names>(
    names: &N,
    alloc: Global,
    cells: &[Cell<'a>],
) -> Result<Resolved<'a>, AllocError>
    ensures { IfOk result (λ r. ResolvesType (N.sight names.now) (cells_in cells.now) r) }
{
    let mut walk = Walk::new(alloc, cells);
    let place = Place {
        sort: ParamKind::Type,
        room: Some(DEPTH_LIMIT),
        is_kept: true,
    };
    walk.run(names, alloc, Next::Visiting(place))?;
    Ok(walk.into_found().finish())
}

/// Visits the arguments of the bound with this name, which begin at this index, and returns the number of its trait.
fn run_bound<'n, 'c, 'a, N: Names>(
    walk: &mut Walk<'n, 'c, 'a>,
    names: &'n N,
    alloc: Global,
    name: &'a [u8],
    start: usize,
) -> Result<usize, AllocError>
    requires frames { frames_in walk.old.frames.items ≡ [] }
    requires binders { walk.old.binders ≡ [] }
    requires found { walk.old.found ≡ nothing_found }
    ensures number { IfOk result (λ n. n ≡ trait_number (known (seen_items (N.sight names.now)) name.now)) }
    // It holds for each bound, with any cells before it.
    ensures found { OnOk result ((b : Bound) (r : List cell.Cell) → name.now ≡ b.trait → start ≡ length r → walk.old.rest ≡ args_back b.args r
        → walk.new.found ≡ bound_found (N.sight names.now) b) }
{
    let count = walk.rest.count_above(start);
    let meaning = names.known(name);
    let kinds = heads::trait_kinds(meaning);
    let frame = Frame {
        start,
        inner: start,
        binds: false,
        holds: Inside::Args { kinds, left: count },
        room: Some(DEPTH_LIMIT),
        is_kept: true,
    };
    walk.run_frame(names, alloc, frame)?;
    walk.found
        .note(judge_use::bound(names, name, count, meaning));
    Ok(heads::trait_number(meaning))
}

/// Looks up the names of the last bound among the cells of a line, as the type of its name and arguments. Self is not among the arguments.
///
/// Fails only if memory is refused.
pub fn resolve_bound<'a, N: Names>(
    names: &N,
    alloc: Global,
    cells: &[Cell<'a>],
) -> Result<ResolvedBound<'a>, AllocError>
    ensures { IfOk result (λ r. ResolvesBound (N.sight names.now) (cells_in cells.now) r) }
{
    let mut walk = Walk::new(alloc, cells);
    match walk.rest.next_named() {
        None => Ok(ResolvedBound {
            trait_number: 0,
            resolved: walk.into_found().finish(),
        }),
        Some((name, start)) => {
            let trait_number = run_bound(&mut walk, names, alloc, name, start)?;
            Ok(ResolvedBound {
                trait_number,
                resolved: walk.into_found().finish(),
            })
        }
    }
}
