//! In what a token of a formula stands, and what kind of value the term that begins there has.
use crate::source::{Class, Source};
use trio_text::{Reserved, Symbol, TokenKind};

/// The bracket round a token.
#[derive(Clone, Copy)]
pub struct Nest {
    /// The token that opens it.
    pub opening: usize,
    /// How many commas of it stand before the token.
    pub commas: u64,
}

/// What a term stands in that reads no item.
#[derive(Clone, Copy)]
pub enum Asked {
    /// The argument of this number, from 1, of the item named at this token.
    Argument(usize, u64),
    /// An operator's distance.
    Distance,
}

/// What kind of value a term has.
#[derive(Clone, Copy)]
pub enum Sort<'a> {
    Number,
    Truth,
    /// A word of the domain of this name.
    Words(&'a [u8]),
    /// Not to be told from its first tokens.
    Untold,
}

impl<'a> Source<'a> {
    /// The innermost bracket in which a token stands.
    pub fn nest(self, token: usize) -> Option<Nest> {
        let mut depth: usize = 0;
        let mut commas: u64 = 0;
        for place in (0..token).rev() {
            match self.kind(place) {
                Some(TokenKind::Sign(Symbol::RightRound | Symbol::RightSquare)) => {
                    depth = depth.saturating_add(1)
                }
                Some(TokenKind::Sign(Symbol::LeftRound | Symbol::LeftSquare)) if depth == 0 => {
                    return Some(Nest {
                        opening: place,
                        commas,
                    });
                }
                Some(TokenKind::Sign(Symbol::LeftRound | Symbol::LeftSquare)) => {
                    depth = depth.saturating_sub(1)
                }
                Some(TokenKind::Sign(Symbol::Comma)) if depth == 0 => {
                    commas = commas.saturating_add(1)
                }
                _ => {}
            }
        }
        None
    }

    /// The innermost argument or distance in which a token stands.
    pub fn asked(self, token: usize) -> Option<Asked> {
        let mut inner = token;
        for _bracket in 0..self.tokens.len() {
            let Some(nest) = self.nest(inner) else {
                return None;
            };
            if let Some(asked) = self.asked_by(nest) {
                return Some(asked);
            }
            inner = nest.opening;
        }
        None
    }

    /// What a bracket makes of what stands in it.
    pub fn asked_by(self, nest: Nest) -> Option<Asked> {
        if !self.is_sign(nest.opening, Symbol::LeftRound) || nest.opening == 0 {
            return None;
        }
        let head = nest.opening - 1;
        match self.kind(head) {
            Some(TokenKind::Name) if !self.is_ref(head) => {
                Some(Asked::Argument(head, nest.commas.saturating_add(1)))
            }
            Some(TokenKind::Word(word)) if takes_distance(word) && nest.commas > 0 => {
                Some(Asked::Distance)
            }
            _ => None,
        }
    }

    /// Whether a domain is named at this token, or `bool` stands there: behind `item NAME :`, in an item's arguments, or behind a variable.
    pub fn is_ref(self, token: usize) -> bool {
        if self.is_ref_behind_colon(token) {
            return true;
        }
        match self.nest(token) {
            Some(nest) => declares_item(self.kind_before(nest.opening, 2)),
            None => false,
        }
    }

    fn is_ref_behind_colon(self, token: usize) -> bool {
        if self.kind_before(token, 1) != Some(TokenKind::Sign(Symbol::Colon)) {
            return false;
        }
        match self.kind_before(token, 3) {
            Some(TokenKind::Word(Reserved::All | Reserved::Ex)) => true,
            found if declares_item(found) => true,
            _ => self.kind_before(token, 2) == Some(TokenKind::Sign(Symbol::RightRound)),
        }
    }

    /// How many arguments stand behind the name at this token.
    pub fn arguments(self, name: usize) -> u64 {
        let opening = name.saturating_add(1);
        if !self.is_sign(opening, Symbol::LeftRound) {
            return 0;
        }
        match self.nest(self.closing(opening)) {
            Some(nest) => nest.commas.saturating_add(1),
            None => 0,
        }
    }

    /// The token behind the name, number, word or bracket that begins here.
    pub fn behind(self, token: usize) -> usize {
        let next = token.saturating_add(1);
        if self.is_sign(token, Symbol::LeftSquare) {
            return self.closing(token).saturating_add(1);
        }
        if self.kind(token) == Some(TokenKind::Name) && self.is_sign(next, Symbol::LeftRound) {
            return self.closing(next).saturating_add(1);
        }
        next
    }

    /// The kind of the term that begins here, with all its parts.
    pub fn sort_of_term(self, token: usize) -> Sort<'a> {
        let first = self.inside_brackets(token);
        if self.is_arithmetic(self.behind(token)) || self.is_sum(first) {
            Sort::Number
        } else {
            self.sort_of_summand(first)
        }
    }

    /// Whether the term that begins at this name, number, word or sign is a sum or a product.
    fn is_sum(self, token: usize) -> bool {
        self.is_arithmetic(token) || self.is_arithmetic(self.behind(token))
    }

    /// The kind of the part of a term that begins here.
    pub fn sort_of_part(self, token: usize) -> Sort<'a> {
        if self.is_sign(token, Symbol::LeftSquare) {
            self.sort_of_term(token.saturating_add(1))
        } else {
            self.sort_of_summand(token)
        }
    }

    /// The first token from here on that is no `[`.
    fn inside_brackets(self, token: usize) -> usize {
        for place in token..self.tokens.len() {
            if !self.is_sign(place, Symbol::LeftSquare) {
                return place;
            }
        }
        self.tokens.len()
    }

    /// The kind of the name, number or word at this token.
    pub fn sort_of_summand(self, token: usize) -> Sort<'a> {
        match self.kind(token) {
            Some(TokenKind::Number) => Sort::Number,
            Some(TokenKind::Word(Reserved::True | Reserved::False)) => Sort::Truth,
            Some(TokenKind::Name) => self.sort_of_name(token),
            _ => Sort::Untold,
        }
    }

    fn sort_of_name(self, token: usize) -> Sort<'a> {
        let name = self.word(token);
        match self.declared(name) {
            Some(found) if found.class == Class::Item => {
                self.sort_of_ref(self.value_ref(found.token))
            }
            Some(found) if found.class == Class::Word => Sort::Words(self.domain_of_word(
                found.token,
            )),
            Some(_) => Sort::Untold,
            None => match self.variable_before(token, name) {
                Some(variable) => self.sort_of_ref(variable.saturating_add(2)),
                None => Sort::Untold,
            },
        }
    }

    /// The token at which the domain of an item's values stands, for the token that declares the item.
    fn value_ref(self, item: usize) -> usize {
        self.behind(item).saturating_add(1)
    }

    /// The token at which the domain of an item's argument stands, from 1, for the token that declares the item.
    pub fn argument_ref(self, item: usize, number: u64) -> usize {
        item.saturating_add((number as usize).saturating_mul(2))
    }

    /// The name of the domain to which the word that is declared here belongs.
    fn domain_of_word(self, word: usize) -> &'a [u8] {
        for place in (0..word).rev() {
            if self.is_sign(place, Symbol::LeftBrace) {
                return self.word(place.saturating_sub(2));
            }
        }
        b""
    }

    /// The kind of the values of the domain that is named here.
    pub fn sort_of_ref(self, token: usize) -> Sort<'a> {
        if self.kind(token) == Some(TokenKind::Word(Reserved::Bool)) {
            return Sort::Truth;
        }
        let name = self.word(token);
        match self.declared(name) {
            Some(found) if found.class == Class::Domain => {
                if self.is_sign(found.token.saturating_add(2), Symbol::LeftBrace) {
                    Sort::Words(name)
                } else {
                    Sort::Number
                }
            }
            _ => Sort::Untold,
        }
    }

    /// Whether this token is `+`, `-` or `*`.
    pub fn is_arithmetic(self, token: usize) -> bool {
        matches!(
            self.kind(token),
            Some(TokenKind::Sign(Symbol::Plus | Symbol::Minus | Symbol::Times))
        )
    }
}

fn declares_item(kind: Option<TokenKind>) -> bool {
    matches!(
        kind,
        Some(TokenKind::Word(Reserved::Item | Reserved::Input))
    )
}

/// Whether the operator of this word takes a distance.
fn takes_distance(word: Reserved) -> bool {
    !matches!(
        word,
        Reserved::Until | Reserved::Since | Reserved::Bool | Reserved::All | Reserved::Ex
    )
}
