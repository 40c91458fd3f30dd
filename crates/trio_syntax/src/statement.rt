//! The rows of statements, and the whole text.
ghost use Rattle.trio_syntax.specs.Forms.{either};
ghost use Rattle.trio_syntax.specs.Grammar.{a_name, listed, ref, refs, int, domain_values, domain_rest, domain, item_rest, item, declaring, instant, claim_rest, claim, claims, spec};
ghost use Rattle.trio_syntax.specs.Exact.{Exact, ExactNext};

use crate::parser::Parser;
use crate::refusal::Refusal;
use crate::steps::append;
use crate::tree::{
    ClaimTree, DeclarationTree, DomainTree, FormulaTree, IntTree, ItemTree, Mention, RefTree,
    SpecTree, ValuesTree, Written,
};
use trio_base::List;
use trio_text::{Reserved, Symbol};

impl<'a> Parser<'a> {
    /// int = [ - ] number
    fn int(&mut self) -> Result<IntTree, Refusal>
        ensures { Exact int self.old self.new result }
    {
        let minus = self.takes_sign(Symbol::Minus);
        let number = self.number()?;
        Ok(IntTree { minus, number })
    }

    /// name { , name }
    fn names(&mut self) -> Result<List<Mention>, Refusal>
        ensures { Exact (listed Symbol.Comma a_name) self.old self.new result }
    {
        let first = self.name()?;
        let mut names = List::new(self.alloc);
        append(&mut names, first)?;
        while self.takes_sign(Symbol::Comma) {
            let next = self.name()?;
            append(&mut names, next)?;
        }
        Ok(names)
    }

    /// { name { , name } }, or int .. int
    fn values(&mut self) -> Result<ValuesTree, Refusal>
        ensures { Exact domain_values self.old self.new result }
    {
        if self.takes_sign(Symbol::LeftBrace) {
            let names = self.names()?;
            self.sign(Symbol::RightBrace)?;
            return Ok(ValuesTree::Words(names));
        }
        let least = self.int()?;
        self.sign(Symbol::Span)?;
        let greatest = self.int()?;
        Ok(ValuesTree::Range(least, greatest))
    }

    /// What stands behind `domain`: name = values ;
    fn domain_rest(&mut self) -> Result<(Mention, ValuesTree), Refusal>
        ensures { Exact domain_rest self.old self.new result }
    {
        let name = self.name()?;
        self.sign(Symbol::Eq)?;
        let values = self.values()?;
        self.sign(Symbol::Semi)?;
        Ok((name, values))
    }

    /// ref { , ref }
    fn ranges(&mut self) -> Result<List<RefTree>, Refusal>
        ensures { Exact (listed Symbol.Comma ref) self.old self.new result }
    {
        let first = self.reference()?;
        let mut ranges = List::new(self.alloc);
        append(&mut ranges, first)?;
        while self.takes_sign(Symbol::Comma) {
            let next = self.reference()?;
            append(&mut ranges, next)?;
        }
        Ok(ranges)
    }

    /// [ ( ref { , ref } ) ]
    fn parameters(&mut self) -> Result<List<RefTree>, Refusal>
        ensures { Exact refs self.old self.new result }
    {
        if !self.takes_sign(Symbol::LeftRound) {
            return Ok(List::new(self.alloc));
        }
        let ranges = self.ranges()?;
        self.sign(Symbol::RightRound)?;
        Ok(ranges)
    }

    /// What stands behind `item` or `input`: name [ ( ref { , ref } ) ] : ref ;
    fn item_rest(&mut self) -> Result<(Mention, (List<RefTree>, RefTree)), Refusal>
        ensures { Exact item_rest self.old self.new result }
    {
        let name = self.name()?;
        let args = self.parameters()?;
        self.sign(Symbol::Colon)?;
        let value = self.reference()?;
        self.sign(Symbol::Semi)?;
        Ok((name, (args, value)))
    }

    /// The next declaration, where one begins here.
    fn next_declaration(&mut self) -> Result<Option<DeclarationTree>, Refusal>
        ensures { ExactNext (either item domain) self.old self.new result }
    {
        if let Some(input) = self.takes_item_kind() {
            let (name, (args, value)) = self.item_rest()?;
            return Ok(Some(DeclarationTree::Item(ItemTree {
                input,
                name,
                args,
                value,
            })));
        }
        if self.takes_word(Reserved::Domain) {
            let (name, values) = self.domain_rest()?;
            return Ok(Some(DeclarationTree::Domain(DomainTree { name, values })));
        }
        Ok(None)
    }

    /// { domain or item }
    fn declarations(&mut self) -> Result<List<DeclarationTree>, Refusal>
        ensures { Exact declaring self.old self.new result }
    {
        let mut declarations = List::new(self.alloc);
        while let Some(declaration) = self.next_declaration()? {
            append(&mut declarations, declaration)?;
        }
        Ok(declarations)
    }

    /// [ at number ]
    fn instant(&mut self) -> Result<Option<Written>, Refusal>
        ensures { Exact instant self.old self.new result }
    {
        if !self.takes_word(Reserved::At) {
            return Ok(None);
        }
        let number = self.number()?;
        Ok(Some(number))
    }

    /// What stands behind `axiom` or `goal`: name [ at number ] : formula ;
    fn claim_rest(&mut self) -> Result<(Mention, (Option<Written>, FormulaTree)), Refusal>
        ensures { Exact claim_rest self.old self.new result }
    {
        let name = self.name()?;
        let at = self.instant()?;
        self.sign(Symbol::Colon)?;
        let formula = self.formula_until(Symbol::Semi)?;
        Ok((name, (at, formula)))
    }

    /// The next axiom or goal, where one begins here.
    fn next_claim(&mut self) -> Result<Option<ClaimTree>, Refusal>
        ensures { ExactNext claim self.old self.new result }
    {
        let Some(goal) = self.takes_claim_kind() else {
            return Ok(None);
        };
        let (name, (at, formula)) = self.claim_rest()?;
        Ok(Some(ClaimTree {
            goal,
            name,
            at,
            formula,
        }))
    }

    /// { axiom or goal }
    fn claims(&mut self) -> Result<List<ClaimTree>, Refusal>
        ensures { Exact claims self.old self.new result }
    {
        let mut claims = List::new(self.alloc);
        while let Some(claim) = self.next_claim()? {
            append(&mut claims, claim)?;
        }
        Ok(claims)
    }

    /// spec = time number ; { domain or item } { axiom or goal }
    pub fn spec(&mut self) -> Result<SpecTree, Refusal>
        ensures { Exact spec self.old self.new result }
    {
        self.word(Reserved::Time)?;
        let instants = self.number()?;
        self.sign(Symbol::Semi)?;
        let declarations = self.declarations()?;
        let claims = self.claims()?;
        Ok(SpecTree {
            instants,
            declarations,
            claims,
        })
    }
}
