//! The tokens of specification and history texts, and the lexemes that grammars are said over.
#![tactic(auto)]

mod laws;
mod lexeme;
mod lexer;
mod spelling;
mod token;

pub use laws::{
    names_are_names, text_has_one_fault, text_has_tokens_or_a_fault, text_is_one_list_of_tokens,
    token_lines_count_newlines, tokens_are_no_more_than_bytes, tokens_stand_in_order,
    words_that_are_no_names_are_reserved,
};
pub use lexeme::{Lexeme, Lexemes, lexemes};
pub use lexer::tokens;
pub use token::{LexFault, Reserved, Symbol, Token, TokenKind, TokenList};
