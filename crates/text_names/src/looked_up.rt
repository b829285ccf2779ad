//! What the names of a line stand for.
ghost use Rattle.std.specs.Prelude.{◌≡◌, length};
ghost use Rattle.std.specs.Option.{option_map};
ghost use Rattle.text_language.specs.Promised.Declarations.{known};
ghost use Rattle.text_names.specs.Machine.{Sight, seen_items, params};
ghost use Rattle.text_names.specs.LookUps.{is_hidden_home, is_own_name, place_in, params_of_sort};
ghost use Rattle.text_tables.specs.Views.{known_of, sort_of_kind};

use text_tables::{Known, ParamKind};
use type_terms::CrateId;

/// What the names of one line are looked up in: what is declared before it, the struct or trait that it declares itself, and its
/// parameters. Of the line this depends on its kind, its name and its parameters alone.
pub trait Names {
    // What is declared before the line, and the line.
    ghost sight: { Self → Sight };

    /// What a name stands for: a crate, a struct or a trait. `None` if it was not declared.
    fn known(&self, name: &[u8]) -> Option<Known<'_>>
        ensures { option_map known_of result ≡ known (seen_items (sight self.now)) name.now };

    /// Whether the crate of the line does not see this crate.
    fn hides(&self, home: CrateId) -> bool
        ensures { result ≡ is_hidden_home (sight self.now) home.index };

    /// Whether this is the name that the line declares.
    fn is_own(&self, name: &[u8]) -> bool
        ensures { result ≡ is_own_name (sight self.now) name.now };

    /// The index of a parameter among the line's parameters of its kind.
    fn param_place(&self, sort: ParamKind, name: &[u8]) -> Option<usize>
        ensures { result ≡ place_in name.now (params_of_sort (params (sight self.now)) (sort_of_kind sort)) };

    /// How many parameters of this kind the line has.
    fn param_count(&self, sort: ParamKind) -> usize
        ensures { result ≡ length (params_of_sort (params (sight self.now)) (sort_of_kind sort)) };
}
