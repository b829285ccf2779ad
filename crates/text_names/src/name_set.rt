//! Sets of names.
ghost use Rattle.std.specs.Prelude.{◌≡◌, ℕ, List, [], ◌∷◌, ◌++◌, OnOk};
ghost use Rattle.std.specs.HashSet.{contains};
ghost use Rattle.std.specs.Str.{bytes_eq};
ghost use Rattle.text_language.specs.Promised.Faults.{is_among};
ghost use Rattle.text_lines.specs.TypeViews.{cell_of, cells_in};
ghost use Rattle.text_names.specs.UsedNames.{Holds, name_of, names_with};

use crate::binders::place_in;
use std::alloc::{AllocError, Global};
use std::collections::HashSet;
use text_lines::{Cell, Length};

/// Up to so many names are compared one by one, which costs less than to hash them.
const FEW: usize = 16;

/// A set of names. With it, a parameter of an impl is looked for in its header.
pub struct NameSet<'a> {
    /// The first names, not each once.
    few: Vec<&'a [u8]>,
    /// All further ones.
    names: HashSet<&'a [u8]>,
}

// Hand-written so that the prover sees one drop call: docs/PROVING.md#drop.
impl Drop for NameSet<'_> {
    fn drop(self) {
        let NameSet { few: _, names: _ } = self;
    }
}

impl<'a> NameSet<'a> {
    /// The empty set.
    pub fn new(alloc: Global) -> Self
        ensures { Holds result [] }
    {
        NameSet {
            few: Vec::new(alloc),
            names: HashSet::new(alloc),
        }
    }

    /// Adds a name. Fails only if memory is refused, and then the name was not added.
    pub fn insert(&mut self, name: &'a [u8]) -> Result<(), AllocError>
        ensures { OnOk result ((ns : List (List ℕ)) → Holds self.old ns → Holds self.new (name.now ∷ ns)) }
    {
        if self.few.len() < FEW {
            self.few.push(name)?;
        } else {
            let _ = self.names.insert(name)?;
        }
        Ok(())
    }

    fn add_cell(&mut self, cell: Cell<'a>) -> Result<(), AllocError>
        ensures { OnOk result ((ns : List (List ℕ)) → Holds self.old ns → Holds self.new (name_of (cell_of cell.entry) ++ ns)) }
    {
        match cell {
            Cell::Named { name, .. } => self.insert(name),
            Cell::Array(Length::Name(name)) => self.insert(name),
            _ => Ok(()),
        }
    }

    /// Adds the names in these cells where a type or a constant is expected. The cells of a bound are those of its arguments, because its
    /// own name is a trait's.
    ///
    /// Fails only if memory is refused, and then only some of them were added.
    pub fn add_used(&mut self, cells: &[Cell<'a>]) -> Result<(), AllocError>
        ensures { OnOk result ((ns : List (List ℕ)) → Holds self.old ns → Holds self.new (names_with (cells_in cells.now) ns)) }
    {
        for cell in cells {
            self.add_cell(*cell)?;
        }
        Ok(())
    }

    /// Whether the name is one of those that are hashed.
    fn hashes(&self, name: &[u8]) -> bool
        ensures { result ≡ contains (λ a b. bytes_eq a.now b.now) self.now.names name.entry }
    {
        if self.names.is_empty() {
            return false;
        }
        self.names.contains(name)
    }

    /// Whether the name is in the set. It takes no memory and at most one hash.
    pub fn contains(&self, name: &[u8]) -> bool
        ensures { (ns : List (List ℕ)) → Holds self.now ns → result ≡ is_among name.now ns }
    {
        match place_in(&self.few, name) {
            Some(_) => true,
            None => self.hashes(name),
        }
    }
}
