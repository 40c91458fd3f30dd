//! Sentences on uses of a wrong kind.
use crate::nesting::{Asked, Sort};
use crate::source::{Class, Source};
use crate::writing::{put, put_around, put_counted};
use std::alloc::AllocError;
use trio_text::{Symbol, TokenKind};

/// Puts the sentence on a use of a wrong kind at this token.
pub fn put_kind(out: &mut Vec<u8>, source: Source<'_>, token: usize) -> Result<(), AllocError> {
    match source.kind(token) {
        Some(TokenKind::Sign(sign)) if is_relation(sign) => put_relation(out, source, token),
        Some(TokenKind::Name) if source.is_ref(token) => put_no_domain(out, source, token),
        Some(TokenKind::Name) => put_name(out, source, token),
        _ => put_term(out, source, token),
    }
}

fn is_relation(sign: Symbol) -> bool {
    sign == Symbol::Eq || sign == Symbol::Ne || is_order(sign)
}

fn is_order(sign: Symbol) -> bool {
    matches!(sign, Symbol::Lt | Symbol::Le | Symbol::Gt | Symbol::Ge)
}

/// Two sides of a relation that do not go together.
fn put_relation(out: &mut Vec<u8>, source: Source<'_>, token: usize) -> Result<(), AllocError> {
    put_around(out, "`", source.word(token), "` has ")?;
    put_sort(out, source.sort_of_term(atom_start(source, token)))?;
    put(out, " to its left and ")?;
    put_sort(out, source.sort_of_term(token.saturating_add(1)))?;
    put(out, " to its right; ")?;
    if source.kind(token).is_some_and(orders) {
        put(out, "both sides are to be numbers")
    } else {
        put(out, "both sides are to be of one kind")
    }
}

fn orders(kind: TokenKind) -> bool {
    match kind {
        TokenKind::Sign(sign) => is_order(sign),
        _ => false,
    }
}

/// The first token of the term that ends before this one.
fn atom_start(source: Source<'_>, token: usize) -> usize {
    let mut depth: usize = 0;
    for place in (0..token).rev() {
        match source.kind(place) {
            Some(TokenKind::Sign(Symbol::RightRound | Symbol::RightSquare)) => {
                depth = depth.saturating_add(1)
            }
            Some(TokenKind::Sign(sign)) if depth == 0 && begins_atom(sign) => {
                return place.saturating_add(1);
            }
            Some(TokenKind::Sign(Symbol::LeftRound | Symbol::LeftSquare)) => {
                depth = depth.saturating_sub(1)
            }
            _ => {}
        }
    }
    0
}

/// Whether a new atom may begin behind this symbol.
fn begins_atom(sign: Symbol) -> bool {
    matches!(
        sign,
        Symbol::LeftRound
            | Symbol::Comma
            | Symbol::Colon
            | Symbol::And
            | Symbol::Or
            | Symbol::Not
            | Symbol::Arrow
            | Symbol::Both
    )
}

/// A name that stands where a domain is named and is none.
fn put_no_domain(out: &mut Vec<u8>, source: Source<'_>, token: usize) -> Result<(), AllocError> {
    let name = source.word(token);
    put_around(out, "`", name, "` is ")?;
    match source.declared(name) {
        Some(found) => put(out, class_words(found.class))?,
        None => put(out, "a variable")?,
    }
    put(out, ", and a domain is to stand here")
}

fn class_words(class: Class) -> &'static str {
    match class {
        Class::Domain => "a domain",
        Class::Word => "a word of a domain",
        Class::Item => "an item",
        Class::Axiom => "an axiom",
        Class::Goal => "a goal",
    }
}

/// A name in a term.
fn put_name(out: &mut Vec<u8>, source: Source<'_>, token: usize) -> Result<(), AllocError> {
    let name = source.word(token);
    match source.declared(name) {
        Some(found) if found.class == Class::Item => put_item(out, source, token, found.token),
        Some(found) if found.class != Class::Word => put_no_value(out, name, found.class),
        _ if source.arguments(token) > 0 => {
            put_around(out, "`", name, "` is no item, and takes no arguments")
        }
        _ => put_term(out, source, token),
    }
}

/// A name of what has no value.
fn put_no_value(out: &mut Vec<u8>, name: &[u8], class: Class) -> Result<(), AllocError> {
    put_around(out, "`", name, "` is ")?;
    put(out, class_words(class))?;
    put(out, ", and has no value")
}

/// An item that is read with another number of arguments, or where none is read.
fn put_item(
    out: &mut Vec<u8>,
    source: Source<'_>,
    token: usize,
    declared: usize,
) -> Result<(), AllocError> {
    let wanted = source.arguments(declared);
    let found = source.arguments(token);
    if wanted != found {
        put_around(out, "`", source.word(token), "` is declared with ")?;
        put_counted(out, "", wanted, " arguments, and has ")?;
        return put_counted(out, "", found, " here");
    }
    match source.asked(token) {
        Some(asked) => {
            put_around(out, "`", source.word(token), "` is an item, and ")?;
            put_asked(out, source, asked)?;
            put(out, " reads none")
        }
        None => put_term(out, source, token),
    }
}

fn put_asked(out: &mut Vec<u8>, source: Source<'_>, asked: Asked) -> Result<(), AllocError> {
    match asked {
        Asked::Argument(item, number) => {
            put_counted(out, "argument ", number, " of ")?;
            put_around(out, "`", source.word(item), "`")
        }
        Asked::Distance => put(out, "a distance"),
    }
}

/// A term of a wrong kind for its place.
fn put_term(out: &mut Vec<u8>, source: Source<'_>, token: usize) -> Result<(), AllocError> {
    let part = source.sort_of_part(token);
    if is_part(source, token) && !matches!(part, Sort::Number) {
        put(
            out,
            "a part of a sum or product is to be a number, and this is ",
        )?;
        return put_sort(out, part);
    }
    put_whole_term(out, source, token)
}

/// Whether what begins at this token stands beside `+`, `-` or `*`.
fn is_part(source: Source<'_>, token: usize) -> bool {
    !source.is_arithmetic(token)
        && (source.is_arithmetic(token.saturating_sub(1))
            || source.is_arithmetic(source.behind(token)))
}

/// A term that is no part of another.
fn put_whole_term(out: &mut Vec<u8>, source: Source<'_>, token: usize) -> Result<(), AllocError> {
    match directly_asked(source, token) {
        Some(Asked::Argument(item, number)) => put_argument(out, source, item, number)?,
        Some(Asked::Distance) => put(out, "a distance is to be a number")?,
        None => put(out, "a term alone is to be `bool`")?,
    }
    put(out, ", and this is ")?;
    put_sort(out, source.sort_of_term(token))
}

fn put_argument(
    out: &mut Vec<u8>,
    source: Source<'_>,
    item: usize,
    number: u64,
) -> Result<(), AllocError> {
    put_asked(out, source, Asked::Argument(item, number))?;
    put(out, " is to be ")?;
    match source.declared(source.word(item)) {
        Some(found) => put_sort(
            out,
            source.sort_of_ref(source.argument_ref(found.token, number)),
        ),
        None => put_sort(out, Sort::Untold),
    }
}

/// The argument or distance that a token begins.
fn directly_asked(source: Source<'_>, token: usize) -> Option<Asked> {
    match source.nest(token) {
        Some(nest) => source.asked_by(nest),
        None => None,
    }
}

/// Puts the words for a kind of value.
fn put_sort(out: &mut Vec<u8>, sort: Sort<'_>) -> Result<(), AllocError> {
    match sort {
        Sort::Number => put(out, "a number"),
        Sort::Truth => put(out, "`bool`"),
        Sort::Words(domain) => put_around(out, "a word of `", domain, "`"),
        Sort::Untold => put(out, "of another kind"),
    }
}
