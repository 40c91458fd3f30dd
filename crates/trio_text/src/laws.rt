//! What is true of the tokens of every text, each law the contract of a call that does nothing.

ghost use Rattle.std.specs.Prelude.{◌≡◌, ◌↔◌, ◌≤◌, ◌⊎◌, ℕ, true, List, length, ◌+◌, ◌==◌, Some, slice_get, take};
ghost use Rattle.std.specs.List.{list_all, count_by};
ghost use Rattle.trio_base.specs.Names.{is_reserved};
ghost use Rattle.trio_text.specs.declared.token.Reserved.{Reserved};
ghost use Rattle.trio_text.specs.declared.token.Token.{Token};
ghost use Rattle.trio_text.specs.Spelling.{word_text};
ghost use Rattle.trio_text.specs.Tokens.{IsTokens, IsLexFault};
ghost use Rattle.trio_text.specs.Lexemes.{lexemes_of, names_a_name};
ghost use Rattle.trio_text.specs.Spans.{StandInOrder};

/// A text is at most one list of tokens.
pub fn text_is_one_list_of_tokens()
    ensures { (text : List ℕ) (tokens others : List Token) → IsTokens text tokens → IsTokens text others → tokens ≡ others }
{}

/// A text has at most one fault, and where it has one it is no list of tokens.
pub fn text_has_one_fault()
    ensures one { (text : List ℕ) (place other : ℕ) → IsLexFault text place → IsLexFault text other → place ≡ other }
    ensures apart { (text : List ℕ) (place : ℕ) (tokens : List Token) → IsLexFault text place → IsTokens text tokens → ⊥ }
{}

/// A text is a list of tokens, or has a fault.
pub fn text_has_tokens_or_a_fault()
    ensures { (text : List ℕ) → ((tokens : List Token) × IsTokens text tokens) ⊎ ((place : ℕ) × IsLexFault text place) }
{}

/// The names among the lexemes of a text are names.
pub fn names_are_names()
    ensures { (text : List ℕ) (tokens : List Token) → IsTokens text tokens → list_all names_a_name (lexemes_of text tokens) ≡ true }
{}

/// The words that are no names are just the spellings of the reserved words.
pub fn words_that_are_no_names_are_reserved()
    ensures { (word : List ℕ) → (is_reserved word ≡ true) ↔ ((reserved : Reserved) × (word ≡ word_text reserved)) }
{}

/// Tokens stand one behind another, each at one byte or more of the text, and their lines do not fall.
pub fn tokens_stand_in_order()
    ensures { (text : List ℕ) (tokens : List Token) → IsTokens text tokens → StandInOrder 0 1 tokens (length text) }
{}

/// A text has no more tokens than bytes.
pub fn tokens_are_no_more_than_bytes()
    ensures { (text : List ℕ) (tokens : List Token) → IsTokens text tokens → length tokens ≤ length text }
{}

/// A token's line is one more than the LFs before it.
pub fn token_lines_count_newlines()
    ensures { (text : List ℕ) (tokens : List Token) (k : ℕ) (token : Token) → IsTokens text tokens → slice_get tokens k ≡ Some token
        → token.line ≡ 1 + count_by (λ b. b == 10) (take token.start text) }
{}
