//! What to do about a line that the grammar has not, by what stands around the first token at which no line can go on.

use crate::grammar::{LineWords, Word, first_symbol};

/// What to do, by what is written; the first row that fits says it.
///
/// Four words stand before it: the first token of the line, or what could stand there; the token before; the token at which no line can go on;
/// and the one behind that. A token is named as it is written, by what it is used as, or by the sign of its class; `_` is any.
static HINTS: [&str; 94] = [
    "_ _ \r End this line ends with CR LF: save the text with LF alone",
    "_ _ \r _ a carriage return is no space: only byte 32 is one",
    "_ _ \t _ a tab is no space: only byte 32 is one",
    "_ _ / / a comment has a line of its own",
    "_ _ / * a comment begins with `//`, and has a line of its own",
    "_ _ _ ?Sized leave it out: `Sized` is never implicit",
    "_ _ ?Sized _ leave it out: `Sized` is never implicit",
    "pub _ _ _ leave `pub` out: whoever uses a crate sees all of it",
    "_ pub _ _ leave `pub` out: whoever uses a crate sees all of it",
    "unsafe _ _ _ leave `unsafe` out",
    "enum _ _ _ write a struct with the types that the variants hold: `struct E<T>(u8, T)`",
    "union _ _ _ write a struct with the types of the fields: `struct U<T>(u8, T)`",
    "Line _ type _ there are no aliases, and a type of a trait stands in the line of the trait: `trait It { type Item; }`",
    "Line _ fn _ leave it out: functions are not looked into",
    "Line _ const _ leave it out: constants are not looked into",
    "static _ _ _ leave it out: statics are not looked into",
    "async _ _ _ leave it out: functions are not looked into",
    "use _ _ _ leave it out: a crate says which crates it uses, `crate a uses b`",
    "extern _ _ _ leave it out: a crate says which crates it uses, `crate a uses b`",
    "mod _ _ _ leave it out: there are no modules, and names have no paths",
    "macro_rules _ _ _ leave it out: there are no macros",
    "# _ _ _ leave attributes out: write the impls that are derived, and `fundamental struct`",
    "Line _ } _ leave it out: a line is a whole item",
    "Line _ where _ write it into the line of its impl: a line is a whole item",
    "_ @trait ( _ the inputs are an argument, a tuple: `Fn<(u8,)>`",
    "_ @bound ( _ the inputs are an argument, a tuple: `dyn Fn<(u8,)>`",
    "type { } _ leave `{}` out: functions and constants are not looked into",
    "type { End _ a line is a whole item: write the types of the trait into it, or leave `{` out",
    "type _ fn _ leave it out, and braces without types: functions are not looked into",
    "type _ const _ leave it out, and braces without types: constants are not looked into",
    "type _ # _ leave attributes out",
    "type _ @ _ write `type` before the name of each type",
    "type _ End _ write `}` behind the last type: a line is a whole item",
    "_ @item < _ a type of a trait has no parameters",
    "_ @item : _ leave the bound out: a type of a trait has none",
    "_ @item = _ leave it out: a type of a trait has no default",
    "_ @given < _ a type of a trait has no parameters",
    "_ @given ; _ say what the type is: `type Item = u8;`",
    "; _ } _ write `;` behind each type of the trait",
    "; _ type _ write `;` behind each type of the trait",
    "_ @item , _ write `;` behind each type of the trait",
    "_ } where _ write the clauses before the types",
    "for @trait { _ write `impl TRAIT for TYPE`: an impl without a trait is left out",
    "for @trait End _ write `impl TRAIT for TYPE`: an impl without a trait is left out",
    "struct _ { _ write the types of the fields in their order: `struct A(u8, bool)`",
    "prove @trait { _ bind the types in the bound: `X: It<Item = u8>`",
    "refute @trait { _ bind the types in the bound: `X: It<Item = u8>`",
    "_ _ { _ leave `{` and what is behind it out: items are not looked into",
    "_ _ ; _ leave `;` out: a line ends where it ends",
    "_ @const : _ a const parameter has no type: `const N`",
    "_ _ : : leave the path out: the name alone is known in each crate that sees it",
    "prove : : _ names have no paths: ask for a type of a trait by a variable, `X: It<Item = ?x>, ?x: Show`",
    "refute : : _ names have no paths: ask for a type of a trait by a variable, `X: It<Item = ?x>, ?x: Show`",
    "_ : : _ names have no paths, and a type of a trait has no name of its own",
    "Type _ < _ names have no paths, and a type of a trait has no name of its own",
    "impl @param : _ bounds stand after `where`: `impl<T> Show for V<T> where T: Show`",
    "prove @param : _ bounds stand after `where`: `prove in a<T> V<T>: Show where T: Show`",
    "_ @param : _ leave the bound out: parameters of structs and traits have none",
    "_ 'param : _ leave the bound out: lifetimes refuse nothing",
    "_ @param = _ a parameter has no default: each use has all arguments",
    "_ @const = _ a parameter has no default: each use has all arguments",
    "_ = = _ write one `=`",
    "trait @own = _ there are no aliases of traits: declare it with a bound, and write an impl",
    "impl > = _ a type of a trait has no parameters",
    "prove > = _ a type of a trait has no parameters",
    "refute > = _ a type of a trait has no parameters",
    "impl @type = _ an impl gives its types behind its clauses: `impl It for X { type Item = u8; }`",
    "_ _ = _ the types of a trait are bound in bounds alone, as `X: It<Item = u8>`",
    "impl _ ! _ write an impl with a clause that never holds: see `A negative impl` there",
    "_ _ + ' leave the lifetime out: lifetimes refuse nothing",
    "_ : ' _ leave it out: lifetimes refuse nothing",
    "] _ _ _ the length of an array is a number, a parameter or a variable",
    "@length _ _ _ the length of an array is a number, a parameter or a variable",
    "impl _ + _ write a clause for each bound: `where T: A, T: B`",
    "prove _ + _ write each bound with its type: `prove in a u8: A, u8: B`",
    "refute _ + _ write each bound with its type: `refute in a u8: A, u8: B`",
    "_ _ impl _ declare a parameter: `impl<T> Show for V<T> where T: Num`",
    "fn > _ _ leave `for<..>` out: it stands before `fn` and in a `dyn` alone",
    "const , @ _ parameters stand in this order: lifetimes, types, constants",
    "const , ' _ parameters stand in this order: lifetimes, types, constants",
    "in _ _ _ name the crate that asks: `prove in a V<u8>: Show`",
    "struct ( ) _ leave `()` out: `struct A`",
    "_ < > _ leave `<>` out",
    "_ , ) _ leave the last comma out",
    "_ , > _ leave the last comma out",
    "@binding , _ _ arguments stand before the types that are bound",
    "_ @binding _ _ arguments stand before the types that are bound",
    "_ , End _ leave the last comma out, or go on in this line",
    "_ _ ) _ leave the parentheses out: a tuple of one type is `(T,)`",
    "struct _ where _ leave it out: a struct has no bounds",
    "trait _ where _ a trait has no clauses: its supertraits stand after `:`",
    "refute _ where _ leave it out: a `refute` has no clauses",
    "_ _ - _ a name has letters, digits and `_`",
    "_ _ ? _ leave `?` out: it stands before the name of a variable, as `?x`",
];

/// Whether a token is named so.
fn is_named(word: Option<&Word<'_>>, name: &str) -> bool {
    match word {
        _ if name == "_" => true,
        None => false,
        Some(word) if word.text.is_empty() => name == "End",
        Some(word) => {
            let class = [word.class];
            name.as_bytes() == word.text
                || name == word.used_as
                || name.as_bytes() == class.as_slice()
        }
    }
}

/// Whether a line begins with a token, or could go on with it.
fn begins(line: &LineWords<'_>, name: &str) -> bool {
    is_named(line.words.first(), name) || line.expected.contains(&name)
}

/// What a row of hints says, if it fits a line.
fn hint_in(row: &'static str, line: &LineWords<'_>) -> Option<&'static str> {
    let (first, row) = first_symbol(row);
    let (before, row) = first_symbol(row);
    let (at, row) = first_symbol(row);
    let (behind, advice) = first_symbol(row);
    // Before the first token no index stands.
    let fits = begins(line, first)
        && is_named(line.words.get(line.read.wrapping_sub(1)), before)
        && is_named(line.words.get(line.read), at)
        && is_named(line.words.get(line.read.wrapping_add(1)), behind);
    if fits { Some(advice) } else { None }
}

/// What to do about a line that the grammar has not; none where that is not known.
pub(crate) fn hint_for(line: &LineWords<'_>) -> Option<&'static str> {
    for row in &HINTS {
        if let Some(advice) = hint_in(row, line) {
            return Some(advice);
        }
    }
    None
}
