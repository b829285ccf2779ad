//! The items of a `dyn`.
ghost use Rattle.std.specs.Prelude.{◌≡◌, ◌+◌, ◌<◌, ◌^◌, List, ◌∷◌, [], true, length, map, IfOk, OnOk};
ghost use Rattle.text_language.specs.Lowering.{inserted};
ghost use Rattle.text_language.specs.Uses.{dyn_use, ItemShape};
ghost use Rattle.text_lines.specs.TypeViews.{cell_of};
ghost use Rattle.text_lines.specs.Back.{parts_above, shape_of};
ghost use Rattle.text_names.specs.Machine.{Sight, dyn_step, findings, seen_items, keeping, last_item_region, params};
ghost use Rattle.text_names.specs.Resolved.{autos_before};
ghost use Rattle.text_names.specs.Shapes.{dyn_cells, summary, with_shape};
ghost use Rattle.text_names.specs.Views.{region_in};
ghost use Rattle.text_names.specs.WalkViews.{place_of, WalkSteps};

use crate::findings::Findings;
use crate::found::Found;
use crate::looked_up::Names;
use crate::resolved::{NodeLabel, Region, ResolvedCell};
use crate::walk::{Frame, Inside, Next, Place, Walk, deeper};
use crate::{heads, judge_use};
use std::alloc::{AllocError, Global};
use std::marker::Model;
use text_lines::Cell;

/// How many bounds a `dyn` may have.
const PART_LIMIT: usize = 64;

/// A summary of the items of a `dyn`, made from the last one on.
#[derive(Drop)]
pub(crate) struct Shapes {
    is_empty: bool,
    bounds: usize,
    /// How many of them are no auto traits.
    principals: usize,
    has_principal: bool,
    /// A trait after the first item is no auto trait.
    has_late: bool,
    /// An auto trait has a binder.
    binds_auto: bool,
    /// A lifetime is not last.
    has_early_lifetime: bool,
    /// The numbers of the auto traits, rising, each once.
    autos: Vec<usize>,
}

impl Model for Shapes {
    ghost use Rattle.text_names.specs.Shapes.{Summary};

    ghost Value = { Summary };

    ghost view = { λ x. record {
      is_empty = x.is_empty;
      bounds = x.bounds;
      principals = x.principals;
      has_principal = x.has_principal;
      has_late = x.has_late;
      binds_auto = x.binds_auto;
      has_early_lifetime = x.has_early_lifetime;
      autos = x.autos.items;
    } };
}

/// Inserts a number into rising numbers, unless it is there.
fn insert_once(numbers: &mut Vec<usize>, number: usize) -> Result<(), AllocError>
    ensures { OnOk result (numbers.new.items ≡ inserted number numbers.old.items) }
{
    let mut at = 0;
    while at < numbers.len() {
        let other = numbers[at];
        if number == other {
            return Ok(());
        }
        if number < other {
            numbers.insert(at, number)?;
            return Ok(());
        }
        at += 1;
    }
    numbers.push(number)?;
    Ok(())
}

impl Shapes {
    ghost use Rattle.text_names.specs.Shapes.{is_bad, no_items, with_auto_trait, with_lifetime, with_principal};

    /// The summary of no items.
    fn new(alloc: Global) -> Self
        ensures { result ≡ no_items }
    {
        Shapes {
            is_empty: true,
            bounds: 0,
            principals: 0,
            has_principal: false,
            has_late: false,
            binds_auto: false,
            has_early_lifetime: false,
            autos: Vec::new(alloc),
        }
    }

    /// Adds a lifetime before those that were met.
    fn lifetime(&mut self)
        ensures { self.new ≡ with_lifetime self.old }
    {
        self.has_early_lifetime = !self.is_empty;
        self.has_late = self.has_principal;
        self.is_empty = false;
    }

    /// Adds an auto trait before those that were met.
    fn auto_trait(&mut self, has_binder: bool, number: usize) -> Result<(), AllocError>
        requires { self.old.bounds + 1 < 2 ^ 64 }
        ensures { OnOk result (self.new ≡ with_auto_trait has_binder number self.old) }
    {
        self.binds_auto = has_binder || self.binds_auto;
        self.has_late = self.has_principal;
        self.is_empty = false;
        self.bounds += 1;
        insert_once(&mut self.autos, number)
    }

    /// Adds another trait before those that were met.
    fn principal(&mut self)
        requires bounds { self.old.bounds + 1 < 2 ^ 64 }
        requires principals { self.old.principals + 1 < 2 ^ 64 }
        ensures { self.new ≡ with_principal self.old }
    {
        self.has_late = self.has_principal;
        self.has_principal = true;
        self.is_empty = false;
        self.bounds += 1;
        self.principals += 1;
    }

    /// Adds the item of this cell before those that were met.
    fn add<N: Names>(&mut self, names: &N, cell: Cell<'_>) -> Result<(), AllocError>
        requires bounds { self.old.bounds + 1 < 2 ^ 64 }
        requires principals { self.old.principals + 1 < 2 ^ 64 }
        ensures { OnOk result (self.new ≡ with_shape (seen_items (N.sight names.now)) (shape_of (cell_of cell.entry)) self.old) }
    {
        match cell {
            Cell::Bound { name, start, inner } => {
                let meaning = names.known(name);
                if heads::is_auto(names, name, meaning) {
                    self.auto_trait(start != inner, heads::trait_number(meaning))?;
                } else {
                    self.principal();
                }
            }
            _ => self.lifetime(),
        }
        Ok(())
    }

    /// Whether they do not fit one another.
    fn is_bad(&self) -> bool
        ensures { result ≡ is_bad self.now }
    {
        self.bounds == 0 || self.has_late || self.binds_auto || self.has_early_lifetime
    }

    /// What is wrong with them.
    fn faults(&self) -> Findings
        ensures { (v : Sight) (is : List ItemShape) → self.now ≡ summary (seen_items v) is → result ≡ findings v (dyn_use is ∷ []) }
    {
        Findings {
            has_bad_dyn: self.is_bad(),
            passes_limit: self.bounds > PART_LIMIT,
            ..Findings::NONE
        }
    }
}

impl<'a> Found<'a> {
    /// Stores the auto traits of a `dyn` before what was met.
    fn keep_autos(&mut self, autos: &[usize]) -> Result<(), AllocError>
        ensures { OnOk result (self.new ≡ keeping true (λ cs. autos_before autos.now cs) self.old) }
    {
        let mut at = autos.len();
        while at > 0 {
            at -= 1;
            let label = NodeLabel::Auto(autos[at]);
            self.keep(true, ResolvedCell::Node { label, inside: 0 })?;
        }
        Ok(())
    }

    /// Stores a `dyn` with its lifetime and its auto traits, over this many types, constants and lifetimes, unless it is not wanted.
    fn keep_dyn(
        &mut self,
        is_kept: bool,
        region: Region,
        autos: &[usize],
        inside: usize,
    ) -> Result<(), AllocError>
        ensures { OnOk result (self.new ≡ keeping is_kept (λ cs. dyn_cells (region_in region) autos.now inside cs) self.old) }
    {
        if is_kept {
            let label = NodeLabel::Dynamic;
            self.keep(true, ResolvedCell::Node { label, inside })?;
            self.keep(true, ResolvedCell::Lifetime(region))?;
            self.keep_autos(autos)?;
        }
        Ok(())
    }
}

impl<'n, 'c, 'a> Walk<'n, 'c, 'a> {
    /// The summary of the `dyn` that begins at this index.
    fn shapes<N: Names>(&self, names: &N, alloc: Global, start: usize) -> Result<Shapes, AllocError>
        ensures { IfOk result (λ x. x ≡ summary (seen_items (N.sight names.now)) (map shape_of (parts_above start self.now.rest))) }
    {
        let end = self.rest.len();
        let mut rest = self.rest.fork();
        let mut shapes = Shapes::new(alloc);
        while rest.len() > start {
            if let Some(cell) = rest.next_part() {
                shapes.add(names, cell)?;
            }
        }
        let _ = end;
        Ok(shapes)
    }

    /// The lifetime of a `dyn`, if it is the last item.
    fn last_region<N: Names>(&self, names: &N) -> Region
        ensures { region_in result ≡ last_item_region (params (N.sight names.now)) self.now.binders self.now.rest }
    {
        let mut rest = self.rest.fork();
        match rest.next() {
            Some(Cell::Lifetime(name)) => judge_use::region(names, &self.binders, name),
            _ => Region::Static,
        }
    }

    /// The step at a `dyn`.
    pub(crate) fn dyn_of<N: Names>(
        &mut self,
        names: &N,
        alloc: Global,
        place: Place,
        start: usize,
    ) -> Result<Next<'n>, AllocError>
        requires { length self.old.rest + 1 < 2 ^ 64 }
        ensures { WalkSteps result (λ fs s r a. dyn_step (N.sight names.now) (place_of place) fs s start r a) self.old self.new }
    {
        let shapes = self.shapes(names, alloc, start)?;
        let region = self.last_region(names);
        let faults = judge_use::misfits(place.sort).either(shapes.faults());
        let inside = shapes.principals + (shapes.autos.len() + 1);
        self.found
            .keep_dyn(place.is_kept, region, &shapes.autos, inside)?;
        self.found.deepen(place.room);
        self.found.note(faults);
        self.push(Frame {
            start,
            inner: start,
            binds: false,
            holds: Inside::Items,
            room: deeper(place.room),
            is_kept: place.is_kept,
        })?;
        Ok(Next::Going)
    }
}
