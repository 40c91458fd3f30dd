//! The reader of trees.
ghost use Rattle.trio_syntax.specs.Answer.{IsTree};

use crate::depth::first_deep;
use crate::fault::TreeFault;
use crate::parser::Parser;
use crate::refusal::Refusal;
use crate::tree::SpecTree;
use std::alloc::Global;
use trio_text::Lexeme;

/// The only tree of the tokens, or their first fault.
pub fn read_tree(alloc: Global, lexemes: &[Lexeme]) -> Result<SpecTree, TreeFault>
    ensures { IsTree lexemes.now result }
{
    if let Some(place) = first_deep(lexemes) {
        return Err(TreeFault::Deep(place));
    }
    let mut parser = Parser {
        alloc,
        rest: lexemes,
        at: 0,
    };
    match parser.spec() {
        Ok(tree) => {
            if parser.rest.is_empty() {
                Ok(tree)
            } else {
                Err(TreeFault::Syntax(parser.at))
            }
        }
        Err(Refusal::Syntax) => Err(TreeFault::Syntax(parser.at)),
        Err(Refusal::Memory) => Err(TreeFault::Memory),
    }
}
