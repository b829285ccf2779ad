//! The lines for which a line with types stands, as lists of tokens.
ghost use Rattle.std.specs.Prelude.{◌≡◌, [], ◌∷◌, ◌++◌, map, IfOk};
ghost use Rattle.std.specs.List.{flat_map};
ghost use Rattle.text_language.specs.Words.{open_angle, comma};
ghost use Rattle.text_language.specs.Syntax.{if_so, bounds_spelling, where_spelling};
ghost use Rattle.text_language.specs.Promised.Desugared.{companion_name};
ghost use Rattle.text_language.specs.Tokens.{sign};
ghost use Rattle.text_lines.specs.TokenViews.{keyword_of, sign_of, tokens_in};
ghost use Rattle.text_lines.specs.LineLists.{arguments_in, bindings_in, plain_list, companion_list, bound_lists, asked_bounds, clause_lists, asked_lists, param_tokens, params_list, with_value, trait_front, trait_list, impl_front, impl_end, impl_list, asker_list, line_lists};
ghost use Rattle.text_lines.specs.WrittenLines.{has_types};
ghost use Rattle.text_lines.specs.WrittenParts.{trait_tokens, impl_tokens, prove_tokens, refute_tokens};
ghost use Rattle.text_lines.specs.Pieces.{Writes, companions_in, led, lists_in, names_in, piece_tokens, pieces_tokens, sign_behind, each_behind};
ghost use Rattle.text_lines.specs.Views.{param_of, params_in, texts_in};
ghost use Rattle.text_lines.specs.WrittenViews.{binding_of, bindings_in as given_in, bound_of, bounds_in, clause_of, clauses_in, entries_in, written_of};

use crate::statement::Param;
use crate::token::{Keyword, Sign, Token};
use crate::written_line::{Binding, BoundRead, ClauseRead, Entry, WrittenRead, is_all_arguments};
use std::alloc::{AllocError, Global};

/// A part of a list of tokens.
#[derive(Clone, Copy)]
pub enum Piece<'t, 'a> {
    /// Tokens of the line.
    Tokens(&'t [Token<'a>]),
    Token(Token<'a>),
    /// The name of the companion of a trait for one of its types.
    Companion {
        trait_name: &'a [u8],
        type_name: &'a [u8],
    },
}

/// Appends pieces.
#[tactic(auto, using(crate::proofs::Pieces::written))]
fn write<'t, 'a>(out: &mut Vec<Piece<'t, 'a>>, pieces: &[Piece<'t, 'a>]) -> Result<(), AllocError>
    ensures { Writes result (pieces_tokens pieces.now) out.old.items out.new.items }
{
    out.extend_from_slice(pieces)
}

/// Appends the arguments of a bound, the first behind `<`, the others behind a comma. Returns the sign for a further one.
fn write_arguments<'t, 'a>(
    out: &mut Vec<Piece<'t, 'a>>,
    entries: &[Entry<'t, 'a>],
) -> Result<Sign, AllocError>
    ensures tokens { IfOk result (λ s. pieces_tokens out.new.items ≡ pieces_tokens out.old.items
        ++ led (sign open_angle ∷ []) (sign comma ∷ []) (arguments_in (entries_in entries.now))) }
    ensures mark { IfOk result (λ s. sign_of s ≡ sign_behind open_angle (arguments_in (entries_in entries.now))) }
{
    let mut mark = Sign::OpenAngle;
    let mut rest = entries;
    while let [first, others @ ..] = rest {
        if let Entry::Argument(tokens) = first {
            write(
                out,
                &[Piece::Token(Token::Sign(mark)), Piece::Tokens(tokens)],
            )?;
            mark = Sign::Comma;
        }
        rest = others;
    }
    Ok(mark)
}

/// Appends a bound without what it says of types.
fn write_plain<'t, 'a>(
    out: &mut Vec<Piece<'t, 'a>>,
    bound: &BoundRead<'t, 'a>,
) -> Result<(), AllocError>
    ensures { Writes result (plain_list (bound_of bound.now)) out.old.items out.new.items }
{
    write(out, &[Piece::Token(Token::Name(bound.name))])?;
    match write_arguments(out, &bound.entries)? {
        Sign::Comma => write(out, &[Piece::Token(Token::Sign(Sign::CloseAngle))]),
        _ => Ok(()),
    }
}

/// Appends the bound by a companion, with what the type is as its last argument.
fn write_companion<'t, 'a>(
    out: &mut Vec<Piece<'t, 'a>>,
    bound: &BoundRead<'t, 'a>,
    binding: &Binding<'t, 'a>,
) -> Result<(), AllocError>
    ensures { Writes result (companion_list (bound_of bound.now) (binding_of binding.now)) out.old.items out.new.items }
{
    write(
        out,
        &[Piece::Companion {
            trait_name: bound.name,
            type_name: binding.name,
        }],
    )?;
    let mark = write_arguments(out, &bound.entries)?;
    write(
        out,
        &[
            Piece::Token(Token::Sign(mark)),
            Piece::Token(Token::Name(b"::W")),
            Piece::Token(Token::Sign(Sign::OpenAngle)),
            Piece::Tokens(binding.value),
            Piece::Token(Token::Sign(Sign::CloseAngle)),
            Piece::Token(Token::Sign(Sign::CloseAngle)),
        ],
    )
}

/// Appends the bounds by companions, each behind a mark and the subject of a clause: the first behind a mark of its own.
fn write_companions<'t, 'a>(
    out: &mut Vec<Piece<'t, 'a>>,
    first: &[Piece<'t, 'a>],
    next: &[Piece<'t, 'a>],
    subject: &[Piece<'t, 'a>],
    bound: &BoundRead<'t, 'a>,
) -> Result<(), AllocError>
    ensures { Writes result (led (pieces_tokens first.now) (pieces_tokens next.now)
        (each_behind (pieces_tokens subject.now) (map (companion_list (bound_of bound.now)) (bindings_in (entries_in bound.now.entries.items)))))
        out.old.items out.new.items }
{
    let mut mark = first;
    let entries: &[Entry<'t, 'a>] = &bound.entries;
    let mut rest = entries;
    while let [entry, others @ ..] = rest {
        if let Entry::Binding(binding) = entry {
            write(out, mark)?;
            write(out, subject)?;
            write_companion(out, bound, binding)?;
            mark = next;
        }
        rest = others;
    }
    Ok(())
}

/// Appends a bound and the bounds by its companions, each behind a mark and the subject of a clause.
fn write_bounds<'t, 'a>(
    out: &mut Vec<Piece<'t, 'a>>,
    first: &[Piece<'t, 'a>],
    next: &[Piece<'t, 'a>],
    subject: &[Piece<'t, 'a>],
    bound: &BoundRead<'t, 'a>,
) -> Result<(), AllocError>
    ensures { Writes result (led (pieces_tokens first.now) (pieces_tokens next.now)
        (each_behind (pieces_tokens subject.now) (bound_lists (bound_of bound.now)))) out.old.items out.new.items }
{
    write(out, first)?;
    write(out, subject)?;
    write_plain(out, bound)?;
    write_companions(out, next, next, subject, bound)
}

/// Appends the bounds that a query asks: the bound alone, or the bounds by its companions.
fn write_asked<'t, 'a>(
    out: &mut Vec<Piece<'t, 'a>>,
    first: &[Piece<'t, 'a>],
    next: &[Piece<'t, 'a>],
    subject: &[Piece<'t, 'a>],
    bound: &BoundRead<'t, 'a>,
) -> Result<(), AllocError>
    ensures { Writes result (led (pieces_tokens first.now) (pieces_tokens next.now)
        (each_behind (pieces_tokens subject.now) (asked_bounds (bound_of bound.now)))) out.old.items out.new.items }
{
    if is_all_arguments(&bound.entries) {
        write(out, first)?;
        write(out, subject)?;
        write_plain(out, bound)
    } else {
        write_companions(out, first, next, subject, bound)
    }
}

/// Appends bounds, the first behind a mark of its own.
fn write_supers<'m, 't, 'a>(
    out: &mut Vec<Piece<'t, 'a>>,
    first: &'m [Piece<'t, 'a>],
    next: &'m [Piece<'t, 'a>],
    bounds: &[BoundRead<'t, 'a>],
) -> Result<(), AllocError>
    ensures { Writes result (led (pieces_tokens first.now) (pieces_tokens next.now) (flat_map bound_lists (bounds_in bounds.now)))
        out.old.items out.new.items }
{
    let mut mark = first;
    let mut rest = bounds;
    while let [bound, others @ ..] = rest {
        write_bounds(out, mark, next, &[], bound)?;
        mark = next;
        rest = others;
    }
    Ok(())
}

/// Appends a clause and the clauses by its companions, each behind a mark.
fn write_clause<'t, 'a>(
    out: &mut Vec<Piece<'t, 'a>>,
    first: &[Piece<'t, 'a>],
    next: &[Piece<'t, 'a>],
    clause: &ClauseRead<'t, 'a>,
) -> Result<(), AllocError>
    ensures { Writes result (led (pieces_tokens first.now) (pieces_tokens next.now) (clause_lists (clause_of clause.now))) out.old.items out.new.items }
{
    let subject = [
        Piece::Tokens(clause.subject),
        Piece::Token(Token::Sign(Sign::Colon)),
    ];
    write_bounds(out, first, next, &subject, &clause.bound)
}

/// Appends clauses, the first behind a mark of its own.
fn write_clauses<'m, 't, 'a>(
    out: &mut Vec<Piece<'t, 'a>>,
    first: &'m [Piece<'t, 'a>],
    next: &'m [Piece<'t, 'a>],
    clauses: &[ClauseRead<'t, 'a>],
) -> Result<(), AllocError>
    ensures { Writes result (led (pieces_tokens first.now) (pieces_tokens next.now) (flat_map clause_lists (clauses_in clauses.now)))
        out.old.items out.new.items }
{
    let mut mark = first;
    let mut rest = clauses;
    while let [clause, others @ ..] = rest {
        write_clause(out, mark, next, clause)?;
        mark = next;
        rest = others;
    }
    Ok(())
}

/// Appends what a query asks by one clause.
fn write_query<'t, 'a>(
    out: &mut Vec<Piece<'t, 'a>>,
    first: &[Piece<'t, 'a>],
    next: &[Piece<'t, 'a>],
    clause: &ClauseRead<'t, 'a>,
) -> Result<(), AllocError>
    ensures { Writes result (led (pieces_tokens first.now) (pieces_tokens next.now) (asked_lists (clause_of clause.now))) out.old.items out.new.items }
{
    let subject = [
        Piece::Tokens(clause.subject),
        Piece::Token(Token::Sign(Sign::Colon)),
    ];
    write_asked(out, first, next, &subject, &clause.bound)
}

/// Appends what a query asks by these clauses, the first behind a mark of its own.
fn write_queries<'m, 't, 'a>(
    out: &mut Vec<Piece<'t, 'a>>,
    first: &'m [Piece<'t, 'a>],
    next: &'m [Piece<'t, 'a>],
    clauses: &[ClauseRead<'t, 'a>],
) -> Result<(), AllocError>
    ensures { Writes result (led (pieces_tokens first.now) (pieces_tokens next.now) (flat_map asked_lists (clauses_in clauses.now)))
        out.old.items out.new.items }
{
    let mut mark = first;
    let mut rest = clauses;
    while let [clause, others @ ..] = rest {
        write_query(out, mark, next, clause)?;
        mark = next;
        rest = others;
    }
    Ok(())
}

/// Appends a parameter behind a sign.
fn write_param<'t, 'a>(
    out: &mut Vec<Piece<'t, 'a>>,
    mark: Sign,
    param: Param<'a>,
) -> Result<(), AllocError>
    ensures { Writes result (sign (sign_of mark) ∷ param_tokens (param_of param.entry)) out.old.items out.new.items }
{
    let mark = Piece::Token(Token::Sign(mark));
    match param {
        Param::Lifetime(name) => write(out, &[mark, Piece::Token(Token::Lifetime(name))]),
        Param::Type(name) => write(out, &[mark, Piece::Token(Token::Name(name))]),
        Param::Const(name) => write(
            out,
            &[
                mark,
                Piece::Token(Token::Keyword(Keyword::Const)),
                Piece::Token(Token::Name(name)),
            ],
        ),
    }
}

/// Appends parameters, the first behind `<`, the others behind a comma. Returns the sign for a further one.
fn write_some_params<'t, 'a>(
    out: &mut Vec<Piece<'t, 'a>>,
    params: &[Param<'a>],
) -> Result<Sign, AllocError>
    ensures tokens { IfOk result (λ s. pieces_tokens out.new.items ≡ pieces_tokens out.old.items
        ++ led (sign open_angle ∷ []) (sign comma ∷ []) (map param_tokens (params_in params.now))) }
    ensures mark { IfOk result (λ s. sign_of s ≡ sign_behind open_angle (map param_tokens (params_in params.now))) }
{
    let mut mark = Sign::OpenAngle;
    let mut rest = params;
    while let [first, others @ ..] = rest {
        write_param(out, mark, *first)?;
        mark = Sign::Comma;
        rest = others;
    }
    Ok(mark)
}

/// Appends the list of the parameters, or nothing if there are none.
fn write_params<'t, 'a>(
    out: &mut Vec<Piece<'t, 'a>>,
    params: &[Param<'a>],
) -> Result<(), AllocError>
    ensures { Writes result (params_list (params_in params.now)) out.old.items out.new.items }
{
    match write_some_params(out, params)? {
        Sign::Comma => write(out, &[Piece::Token(Token::Sign(Sign::CloseAngle))]),
        _ => Ok(()),
    }
}

/// The parameters of a companion: those of the trait, and the value as the last of the types.
fn with_value<'a>(alloc: Global, params: &[Param<'a>]) -> Result<Vec<Param<'a>>, AllocError>
    ensures { IfOk result (λ v. params_in v.items ≡ with_value (params_in params.now)) }
{
    let value: Param<'a> = Param::Type(b"=");
    let mut all = Vec::with_capacity(alloc, params.len().saturating_add(1))?;
    let mut rest = params;
    while let [first, others @ ..] = rest {
        if matches!(first, Param::Const(_)) {
            all.push(value)?;
            all.extend_from_slice(rest)?;
            return Ok(all);
        }
        all.push(*first)?;
        rest = others;
    }
    all.push(value)?;
    Ok(all)
}

/// Appends a word if it is written.
fn write_word<'t, 'a>(
    out: &mut Vec<Piece<'t, 'a>>,
    is_written: bool,
    word: Keyword,
) -> Result<(), AllocError>
    ensures { Writes result (if_so is_written (keyword_of word)) out.old.items out.new.items }
{
    if is_written {
        write(out, &[Piece::Token(Token::Keyword(word))])
    } else {
        Ok(())
    }
}

/// Appends a trait's words, its name and its parameters.
fn write_trait<'t, 'a>(
    out: &mut Vec<Piece<'t, 'a>>,
    is_fundamental: bool,
    is_auto: bool,
    name: Piece<'t, 'a>,
    params: &[Param<'a>],
) -> Result<(), AllocError>
    ensures { Writes result (trait_front is_fundamental is_auto (piece_tokens name.entry) (params_in params.now)) out.old.items out.new.items }
{
    write_word(out, is_fundamental, Keyword::Fundamental)?;
    write_word(out, is_auto, Keyword::Auto)?;
    write(out, &[Piece::Token(Token::Keyword(Keyword::Trait)), name])?;
    write_params(out, params)
}

/// The line of a trait without its types.
fn trait_line<'t, 'a>(
    alloc: Global,
    is_fundamental: bool,
    is_auto: bool,
    name: &'a [u8],
    params: &[Param<'a>],
    bounds: &[BoundRead<'t, 'a>],
) -> Result<Vec<Piece<'t, 'a>>, AllocError>
    ensures { IfOk result (λ v. pieces_tokens v.items
        ≡ trait_list is_fundamental is_auto name.now (params_in params.now) (bounds_spelling (flat_map bound_lists (bounds_in bounds.now)))) }
{
    let colon = [Piece::Token(Token::Sign(Sign::Colon))];
    let plus = [Piece::Token(Token::Sign(Sign::Plus))];
    let mut out = Vec::new(alloc);
    write_trait(
        &mut out,
        is_fundamental,
        is_auto,
        Piece::Token(Token::Name(name)),
        params,
    )?;
    write_supers(&mut out, &colon, &plus, bounds)?;
    Ok(out)
}

/// The line of a trait's companion for one of its types.
fn companion_line<'t, 'a>(
    alloc: Global,
    is_fundamental: bool,
    is_auto: bool,
    name: &'a [u8],
    type_name: &'a [u8],
    params: &[Param<'a>],
) -> Result<Vec<Piece<'t, 'a>>, AllocError>
    ensures { IfOk result (λ v. pieces_tokens v.items
        ≡ trait_list is_fundamental is_auto (companion_name name.now type_name.now) (params_in params.now) []) }
{
    let mut out = Vec::new(alloc);
    let companion = Piece::Companion {
        trait_name: name,
        type_name,
    };
    write_trait(&mut out, is_fundamental, is_auto, companion, params)?;
    Ok(out)
}

/// Appends what follows the bound of an impl.
fn write_impl_end<'t, 'a>(
    out: &mut Vec<Piece<'t, 'a>>,
    subject: &'t [Token<'a>],
    clauses: &[ClauseRead<'t, 'a>],
) -> Result<(), AllocError>
    ensures { Writes result (impl_end (tokens_in subject.now) (clauses_in clauses.now)) out.old.items out.new.items }
{
    let word = [Piece::Token(Token::Keyword(Keyword::Where))];
    let comma = [Piece::Token(Token::Sign(Sign::Comma))];
    write(
        out,
        &[
            Piece::Token(Token::Keyword(Keyword::For)),
            Piece::Tokens(subject),
        ],
    )?;
    write_clauses(out, &word, &comma, clauses)
}

/// Appends the word `impl` and the parameters.
fn write_impl<'t, 'a>(out: &mut Vec<Piece<'t, 'a>>, params: &[Param<'a>]) -> Result<(), AllocError>
    ensures { Writes result (impl_front (params_in params.now)) out.old.items out.new.items }
{
    write(out, &[Piece::Token(Token::Keyword(Keyword::Impl))])?;
    write_params(out, params)
}

/// The line of an impl without the types that it gives.
fn impl_line<'t, 'a>(
    alloc: Global,
    params: &[Param<'a>],
    header: &ClauseRead<'t, 'a>,
    clauses: &[ClauseRead<'t, 'a>],
) -> Result<Vec<Piece<'t, 'a>>, AllocError>
    ensures { IfOk result (λ v. pieces_tokens v.items
        ≡ impl_list (params_in params.now) (tokens_in header.now.subject.now) (clauses_in clauses.now) (plain_list (bound_of header.now.bound))) }
{
    let mut out = Vec::new(alloc);
    write_impl(&mut out, params)?;
    write_plain(&mut out, &header.bound)?;
    write_impl_end(&mut out, header.subject, clauses)?;
    Ok(out)
}

/// The impl of a companion, by a type that an impl gives.
fn given_line<'t, 'a>(
    alloc: Global,
    params: &[Param<'a>],
    header: &ClauseRead<'t, 'a>,
    clauses: &[ClauseRead<'t, 'a>],
    given: &Binding<'t, 'a>,
) -> Result<Vec<Piece<'t, 'a>>, AllocError>
    ensures { IfOk result (λ v. pieces_tokens v.items
        ≡ impl_list (params_in params.now) (tokens_in header.now.subject.now) (clauses_in clauses.now)
        (companion_list (bound_of header.now.bound) (binding_of given.now))) }
{
    let mut out = Vec::new(alloc);
    write_impl(&mut out, params)?;
    write_companion(&mut out, &header.bound, given)?;
    write_impl_end(&mut out, header.subject, clauses)?;
    Ok(out)
}

/// Appends the first words of a query, its crate and its parameters.
fn write_asker<'t, 'a>(
    out: &mut Vec<Piece<'t, 'a>>,
    word: Keyword,
    crate_name: &'a [u8],
    params: &[Param<'a>],
) -> Result<(), AllocError>
    ensures { Writes result (asker_list (keyword_of word) crate_name.now (params_in params.now)) out.old.items out.new.items }
{
    write(
        out,
        &[
            Piece::Token(Token::Keyword(word)),
            Piece::Token(Token::Keyword(Keyword::In)),
            Piece::Token(Token::Name(crate_name)),
        ],
    )?;
    write_params(out, params)
}

/// Appends all that a query asks, with a comma between each two bounds.
fn write_all_queries<'t, 'a>(
    out: &mut Vec<Piece<'t, 'a>>,
    asked: &ClauseRead<'t, 'a>,
    further: &[ClauseRead<'t, 'a>],
) -> Result<(), AllocError>
    ensures { Writes result (led [] (sign comma ∷ []) (flat_map asked_lists (clause_of asked.now ∷ clauses_in further.now))) out.old.items out.new.items }
{
    let comma = [Piece::Token(Token::Sign(Sign::Comma))];
    write_query(out, &[], &comma, asked)?;
    write_queries(out, &comma, &comma, further)
}

/// The line of a query that is to be refuted.
fn refute_line<'t, 'a>(
    alloc: Global,
    crate_name: &'a [u8],
    params: &[Param<'a>],
    asked: &ClauseRead<'t, 'a>,
    further: &[ClauseRead<'t, 'a>],
) -> Result<Vec<Piece<'t, 'a>>, AllocError>
    ensures { IfOk result (λ v. pieces_tokens v.items ∷ []
        ≡ line_lists (refute_tokens crate_name.now (params_in params.now) (clause_of asked.now) (clauses_in further.now))) }
{
    let mut out = Vec::new(alloc);
    write_asker(&mut out, Keyword::Refute, crate_name, params)?;
    write_all_queries(&mut out, asked, further)?;
    Ok(out)
}

/// Appends the where-clauses of a query.
fn write_where<'t, 'a>(
    out: &mut Vec<Piece<'t, 'a>>,
    clauses: &[ClauseRead<'t, 'a>],
) -> Result<(), AllocError>
    ensures { Writes result (where_spelling (flat_map clause_lists (clauses_in clauses.now))) out.old.items out.new.items }
{
    let word = [Piece::Token(Token::Keyword(Keyword::Where))];
    let comma = [Piece::Token(Token::Sign(Sign::Comma))];
    write_clauses(out, &word, &comma, clauses)
}

/// The line of a query that is to be proved.
fn prove_line<'t, 'a>(
    alloc: Global,
    crate_name: &'a [u8],
    params: &[Param<'a>],
    asked: &ClauseRead<'t, 'a>,
    further: &[ClauseRead<'t, 'a>],
    clauses: &[ClauseRead<'t, 'a>],
) -> Result<Vec<Piece<'t, 'a>>, AllocError>
    ensures { IfOk result (λ v. pieces_tokens v.items ∷ []
        ≡ line_lists (prove_tokens crate_name.now (params_in params.now) (clause_of asked.now) (clauses_in further.now) (clauses_in clauses.now))) }
{
    let mut out = Vec::new(alloc);
    write_asker(&mut out, Keyword::Prove, crate_name, params)?;
    write_all_queries(&mut out, asked, further)?;
    write_where(&mut out, clauses)?;
    Ok(out)
}

/// The line of a trait, and those of its companions.
fn trait_lines<'t, 'a>(
    alloc: Global,
    is_fundamental: bool,
    is_auto: bool,
    name: &'a [u8],
    params: &[Param<'a>],
    bounds: &[BoundRead<'t, 'a>],
    types: &[&'a [u8]],
) -> Result<Vec<Vec<Piece<'t, 'a>>>, AllocError>
    ensures { IfOk result (λ v. lists_in v.items
        ≡ line_lists (trait_tokens is_fundamental is_auto name.now (params_in params.now) (bounds_in bounds.now) (texts_in types.now))) }
{
    let valued = with_value(alloc, params)?;
    let own = trait_line(alloc, is_fundamental, is_auto, name, params, bounds)?;
    let mut lines = Vec::new(alloc);
    lines.push(own)?;
    let mut rest = types;
    while let [type_name, others @ ..] = rest {
        let line = companion_line(alloc, is_fundamental, is_auto, name, type_name, &valued)?;
        lines.push(line)?;
        rest = others;
    }
    Ok(lines)
}

/// The line of an impl, and those of the types that it gives.
fn impl_lines<'t, 'a>(
    alloc: Global,
    params: &[Param<'a>],
    header: &ClauseRead<'t, 'a>,
    clauses: &[ClauseRead<'t, 'a>],
    given: &[Binding<'t, 'a>],
) -> Result<Vec<Vec<Piece<'t, 'a>>>, AllocError>
    ensures { IfOk result (λ v. lists_in v.items
        ≡ line_lists (impl_tokens (params_in params.now) (clause_of header.now) (clauses_in clauses.now) (given_in given.now))) }
{
    let own = impl_line(alloc, params, header, clauses)?;
    let mut lines = Vec::new(alloc);
    lines.push(own)?;
    let mut rest = given;
    while let [binding, others @ ..] = rest {
        let line = given_line(alloc, params, header, clauses, binding)?;
        lines.push(line)?;
        rest = others;
    }
    Ok(lines)
}

fn one_line<'t, 'a>(
    alloc: Global,
    line: Vec<Piece<'t, 'a>>,
) -> Result<Vec<Vec<Piece<'t, 'a>>>, AllocError>
    ensures { IfOk result (λ v. lists_in v.items ≡ pieces_tokens line.entry.items ∷ []) }
{
    let mut lines = Vec::new(alloc);
    lines.push(line)?;
    Ok(lines)
}

/// The lines for which a line with these parts stands, in order.
pub(crate) fn line_lists<'t, 'a>(
    alloc: Global,
    written: &WrittenRead<'t, 'a>,
) -> Result<Vec<Vec<Piece<'t, 'a>>>, AllocError>
    ensures { IfOk result (λ v. lists_in v.items ≡ line_lists (written_of written.now)) }
{
    match written {
        WrittenRead::Trait {
            is_fundamental,
            is_auto,
            name,
            params,
            bounds,
            types,
        } => trait_lines(
            alloc,
            *is_fundamental,
            *is_auto,
            name,
            params,
            bounds,
            types,
        ),
        WrittenRead::Impl {
            params,
            header,
            clauses,
            given,
        } => impl_lines(alloc, params, header, clauses, given),
        WrittenRead::Prove {
            crate_name,
            params,
            asked,
            further,
            clauses,
        } => {
            let line = prove_line(alloc, crate_name, params, asked, further, clauses)?;
            one_line(alloc, line)
        }
        WrittenRead::Refute {
            crate_name,
            params,
            asked,
            further,
        } => {
            let line = refute_line(alloc, crate_name, params, asked, further)?;
            one_line(alloc, line)
        }
    }
}

/// The name of the companion of a trait for one of its types.
pub(crate) fn companion_name(
    alloc: Global,
    trait_name: &[u8],
    type_name: &[u8],
) -> Result<Vec<u8>, AllocError>
    ensures { IfOk result (λ v. v.items ≡ companion_name trait_name.now type_name.now) }
{
    let mut name = Vec::new(alloc);
    name.extend_from_slice(trait_name)?;
    name.extend_from_slice(b"::")?;
    name.extend_from_slice(type_name)?;
    Ok(name)
}

/// The names of companions in a list of tokens, in order. No line has them, so the tokens borrow them from here.
pub fn companion_names(alloc: Global, pieces: &[Piece<'_, '_>]) -> Result<Vec<Vec<u8>>, AllocError>
    ensures { IfOk result (λ v. names_in v.items ≡ companions_in pieces.now) }
{
    let mut names = Vec::new(alloc);
    let mut rest = pieces;
    while let [first, others @ ..] = rest {
        if let Piece::Companion {
            trait_name,
            type_name,
        } = first
        {
            let name = companion_name(alloc, trait_name, type_name)?;
            names.push(name)?;
        }
        rest = others;
    }
    Ok(names)
}

/// The tokens of a list whose companions have these names.
pub(crate) fn list_tokens<'t, 'a>(
    alloc: Global,
    pieces: &[Piece<'t, 'a>],
    names: &'a [Vec<u8>],
) -> Result<Vec<Token<'a>>, AllocError>
    requires { names_in names.now ≡ companions_in pieces.now }
    ensures { IfOk result (λ v. tokens_in v.items ≡ pieces_tokens pieces.now) }
{
    let mut tokens = Vec::new(alloc);
    let mut left = names;
    let mut rest = pieces;
    while let [first, others @ ..] = rest {
        match first {
            Piece::Tokens(part) => tokens.extend_from_slice(part)?,
            Piece::Token(token) => tokens.push(*token)?,
            Piece::Companion { .. } => {
                if let [name, more @ ..] = left {
                    tokens.push(Token::Name(name))?;
                    left = more;
                }
            }
        }
        rest = others;
    }
    Ok(tokens)
}

/// Whether a line with these tokens has types. Only such lines stand for several.
pub fn has_types(tokens: &[Token<'_>]) -> bool
    ensures { result ≡ has_types (tokens_in tokens.now) }
{
    let mut rest = tokens;
    while let [first, others @ ..] = rest {
        if matches!(first, Token::Sign(Sign::Equals | Sign::OpenBrace)) {
            return true;
        }
        rest = others;
    }
    false
}
