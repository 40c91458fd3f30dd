//! What follows of the definitions alone.
ghost use Rattle.std.specs.Prelude.{◌≡◌, ◌⊎◌, ℕ, true, List};
ghost use Rattle.std.specs.List.{list_all};
ghost use Rattle.trio_text.specs.Lexemes.{names_a_name};
ghost use Rattle.trio_text.specs.declared.lexeme.Lexeme.{Lexeme};
ghost use Rattle.trio_syntax.specs.declared.tree.SpecTree.{SpecTree};
ghost use Rattle.trio_syntax.specs.Reading.{IsReading, IsSyntaxFault};
ghost use Rattle.trio_syntax.specs.Grammar.{IsSpec};
ghost use Rattle.trio_syntax.specs.Shape.{is_formed};

/// Tokens have one tree and no other, or a fault.
pub fn tokens_have_a_tree_or_a_fault()
    ensures { (tokens : List Lexeme) → ((tree : SpecTree) × IsReading IsSpec tokens tree) ⊎ ((place : ℕ) × IsSyntaxFault IsSpec tokens place) }
{}

/// Tokens are one tree at most.
pub fn tokens_are_one_tree()
    ensures { (tokens : List Lexeme) (a b : SpecTree) → IsSpec tokens a → IsSpec tokens b → a ≡ b }
{}

/// Tokens with a fault are no tree.
pub fn faulty_tokens_are_no_tree()
    ensures { (tokens : List Lexeme) (place : ℕ) (tree : SpecTree) → IsSyntaxFault IsSpec tokens place → IsSpec tokens tree → ⊥ }
{}

/// Tokens have one first fault at most.
pub fn tokens_have_one_fault()
    ensures { (tokens : List Lexeme) (j k : ℕ) → IsSyntaxFault IsSpec tokens j → IsSyntaxFault IsSpec tokens k → j ≡ k }
{}

/// Where every name among the tokens is a name, so is every name of their tree, and what has parts has enough of them.
pub fn trees_are_formed()
    ensures { (tokens : List Lexeme) (tree : SpecTree) → list_all names_a_name tokens ≡ true → IsSpec tokens tree → is_formed tree ≡ true }
{}
