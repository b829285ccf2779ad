//! The binders around a position.
ghost use Rattle.std.specs.Prelude.{◌≡◌, [], ◌∷◌, map, true, OnOk};
ghost use Rattle.text_lines.specs.TokenViews.{text_of};
ghost use Rattle.text_names.specs.LookUps.{place_in};

use std::alloc::{AllocError, Global};
use std::marker::Model;

/// The index of a name in a list.
pub(crate) fn place_in(names: &[&[u8]], name: &[u8]) -> Option<usize>
    ensures { result ≡ place_in name.now (map text_of names.now) }
{
    for (i, other) in names.iter().enumerate() {
        if *other == name {
            return Some(i);
        }
    }
    None
}

/// The binders around a position, each with the names of its lifetimes. In contracts the innermost comes first.
#[derive(Drop)]
pub(crate) struct Binders<'a> {
    binders: Vec<Vec<&'a [u8]>>,
}

impl<'a> Model for Binders<'a> {
    ghost use Rattle.std.specs.Prelude.{ℕ, List, []};
    ghost use Rattle.text_names.specs.Views.{scope_onto};

    ghost Value = { List (List (List ℕ)) };

    ghost view = { λ b. scope_onto b.binders.items [] };
}

impl<'a> Binders<'a> {
    ghost use Rattle.text_names.specs.Machine.{outer_scope};
    ghost use Rattle.text_names.specs.LookUps.{scope_place};

    /// The outermost position of a line: no `for<...>` is around it.
    pub fn new(alloc: Global) -> Self
        ensures { result ≡ [] }
    {
        Binders {
            binders: Vec::new(alloc),
        }
    }

    /// Enters a binder with these names.
    pub fn enter(&mut self, names: Vec<&'a [u8]>) -> Result<(), AllocError>
        ensures { OnOk result (self.new ≡ map text_of names.entry.items ∷ self.old) }
    {
        self.binders.push(names)?;
        Ok(())
    }

    /// Leaves the innermost binder.
    pub fn leave(&mut self)
        ensures { self.new ≡ outer_scope true self.old }
    {
        let _ = self.binders.pop();
    }

    /// How many binders further out the name is bound, and its index there. `None` if no binder has it.
    pub fn find(&self, name: &[u8]) -> Option<(usize, usize)>
        ensures { result ≡ scope_place 0 self.now name.now }
    {
        let mut at = self.binders.len();
        while at > 0 {
            at -= 1;
            if let Some(place) = place_in(&self.binders[at], name) {
                return Some((self.binders.len() - 1 - at, place));
            }
        }
        None
    }
}
