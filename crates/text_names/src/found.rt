//! What is found while the cells of a type are visited from the last to the first.
ghost use Rattle.std.specs.Prelude.{◌≡◌, ◌∷◌, ◌++◌, [], ◌||◌, false, OnOk, IfOk};
ghost use Rattle.text_language.specs.Uses.{length_uses};
ghost use Rattle.text_language.specs.Faults.{variables_in};
ghost use Rattle.text_lines.specs.TypeViews.{length_of};
ghost use Rattle.text_tables.specs.Views.{sort_of_kind};
ghost use Rattle.text_names.specs.Views.{resolved_in};

use crate::findings::Findings;
use crate::resolve::Resolved;
use crate::resolved::{ResolvedCell, Variable};
use crate::walk::Place;
use std::alloc::{AllocError, Global};
use std::marker::Model;
use text_lines::Length;
use text_tables::ParamKind;

/// What is found so far. What was met last comes first. The variables and the resolved cells are reversed at the end.
pub(crate) struct Found<'a> {
    faults: Findings,
    variables: Vec<Variable<'a>>,
    is_deep: bool,
    cells: Vec<ResolvedCell<'a>>,
}

// Hand-written so that the prover sees one drop call: docs/PROVING.md#drop.
impl Drop for Found<'_> {
    fn drop(self) {
        let Found {
            faults: _,
            variables: _,
            is_deep: _,
            cells: _,
        } = self;
    }
}

impl<'a> Model for Found<'a> {
    ghost use Rattle.std.specs.Prelude.{[]};
    ghost use Rattle.text_names.specs.Machine.{Found};
    ghost use Rattle.text_names.specs.Views.{resolved_onto, variables_onto};

    ghost Value = { Found };

    ghost view = { λ f. record { faults = f.faults; variables = variables_onto f.variables.items []; is_deep = f.is_deep; cells = resolved_onto f.cells.items [] } };
}

impl<'a> Found<'a> {
    ghost use Rattle.text_names.specs.Resolving.{found_in, nothing_found};
    ghost use Rattle.text_names.specs.Machine.{keeping, deepening, noting};
    ghost use Rattle.text_names.specs.Views.{resolved_in};

    /// Nothing yet.
    pub fn new(alloc: Global) -> Self
        ensures { result ≡ nothing_found }
    {
        Found {
            faults: Findings::NONE,
            variables: Vec::new(alloc),
            is_deep: false,
            cells: Vec::new(alloc),
        }
    }

    /// All of it, in the order of the text.
    pub fn finish(self) -> Resolved<'a>
        ensures { found_in result ≡ self.entry }
    {
        let Found {
            faults,
            mut variables,
            is_deep,
            mut cells,
        } = self;
        variables.reverse();
        cells.reverse();
        Resolved {
            faults,
            variables,
            is_deep,
            cells,
        }
    }

    /// Notes that something more is wrong.
    pub fn note(&mut self, faults: Findings)
        ensures { self.new ≡ noting faults self.old }
    {
        self.faults = faults.either(self.faults);
    }

    /// Notes a variable that comes before those that were met.
    pub fn note_variable(&mut self, name: &'a [u8], sort: ParamKind) -> Result<(), AllocError>
        ensures { OnOk result (self.new ≡ record self.old { variables = (name.now, sort_of_kind sort) ∷ self.old.variables }) }
    {
        self.variables.push(Variable { name, sort })?;
        Ok(())
    }

    /// Notes the variable that is the length of an array, if the length is one.
    pub fn note_length(&mut self, length: Length<'a>) -> Result<(), AllocError>
        ensures { OnOk result (self.new ≡ record self.old { variables = variables_in (length_uses (length_of length.entry)) ++ self.old.variables }) }
    {
        if let Length::Variable(name) = length {
            self.note_variable(name, ParamKind::Const)?;
        }
        Ok(())
    }

    /// Stores a cell that comes before those that were met, unless it is not wanted.
    pub fn keep(&mut self, is_kept: bool, cell: ResolvedCell<'a>) -> Result<(), AllocError>
        ensures { OnOk result (self.new ≡ keeping is_kept (λ cs. resolved_in cell.entry ∷ cs) self.old) }
    {
        if is_kept {
            self.cells.push(cell)?;
        }
        Ok(())
    }

    /// Notes a type where this many more types may be nested.
    pub fn deepen(&mut self, room: Option<usize>)
        ensures { self.new ≡ deepening room self.old }
    {
        if let Some(0) = room {
            self.is_deep = true;
        }
    }

    /// Adds a type with its cell and what is wrong with it, before those that were met.
    pub fn add(
        &mut self,
        place: Place,
        faults: Findings,
        cell: ResolvedCell<'a>,
    ) -> Result<(), AllocError>
        ensures { OnOk result (self.new ≡ noting faults (deepening place.room (keeping place.is_kept (λ cs. resolved_in cell.entry ∷ cs) self.old))) }
    {
        self.keep(place.is_kept, cell)?;
        self.deepen(place.room);
        self.note(faults);
        Ok(())
    }
}
