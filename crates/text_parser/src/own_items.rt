//! What a name stands for if the line itself declares a struct or a trait. A crate hides a struct of its name, and a struct hides a trait.
ghost use Rattle.std.specs.Prelude.{◌≡◌};
ghost use Rattle.std.specs.Option.{option_map};
ghost use Rattle.text_tables.specs.Views.{known_of};
ghost use Rattle.text_parser.specs.OwnItems.{known_with_struct, known_with_trait};

use text_tables::Known;

/// What was known before, or the line's own struct, which hides a trait.
pub(crate) fn with_struct<'k>(
    before: Option<Known<'k>>,
    own: Option<Known<'k>>,
) -> Option<Known<'k>>
    ensures { option_map known_of result ≡ known_with_struct (option_map known_of before.entry) (option_map known_of own.entry) }
{
    match before {
        None => own,
        Some(Known::Trait { .. }) => match own {
            Some(_) => own,
            None => before,
        },
        Some(_) => before,
    }
}

/// What was known before, or the line's own trait, which hides nothing.
pub(crate) fn with_trait<'k>(before: Option<Known<'k>>, own: Option<Known<'k>>) -> Option<Known<'k>>
    ensures { option_map known_of result ≡ known_with_trait (option_map known_of before.entry) (option_map known_of own.entry) }
{
    match before {
        None => own,
        Some(_) => before,
    }
}
