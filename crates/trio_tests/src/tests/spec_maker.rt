//! Texts of specifications with all operators, quantifiers, kinds of domains and forms of terms.
ghost use Rattle.std.specs.Prelude.{◌<◌, length};

use super::maker::Maker;
use super::texts::Text;
use std::process::Abort;

const RELATIONS: [&str; 6] = [" = ", " != ", " < ", " <= ", " > ", " >= "];

const CONNECTIVES: [&str; 4] = [" & ", " | ", " -> ", " <-> "];

/// What stands between two parts that are joined.
const JOINTS: [&str; 4] = [") & (", ") | (", ") -> (", ") <-> ("];

/// Two for each variable.
const QUANTIFIERS: [&str; 8] = [
    "all x : d ",
    "ex x : d ",
    "all y : e ",
    "ex y : e ",
    "all c : m ",
    "ex c : m ",
    "all b : bool ",
    "ex b : bool ",
];

const ON_ONE: [&str; 6] = ["Alw", "AlwF", "AlwP", "Som", "SomF", "SomP"];

const WITH_DISTANCE: [&str; 21] = [
    "Dist",
    "Futr",
    "Past",
    "NextTime",
    "LastTime",
    "Lasts",
    "Lasts_ii",
    "Lasts_ie",
    "Lasts_ei",
    "Lasted",
    "Lasted_ii",
    "Lasted_ie",
    "Lasted_ei",
    "WithinF",
    "WithinF_ii",
    "WithinF_ie",
    "WithinF_ei",
    "WithinP",
    "WithinP_ii",
    "WithinP_ie",
    "WithinP_ei",
];

const ON_TWO: [&str; 2] = ["Until", "Since"];

/// The items, each behind the domains that it names.
const ITEMS: &str =
    "input q(d, m) : bool;\nitem s : d; // a note\ninput w(m, bool) : m;\nitem n(d) : e;\nitem r(e, bool, m) : d;\n";

const SMALL_DOMAINS: &str =
    "item p : bool;\ndomain m = {red, green};\ndomain d = 0..1;\ndomain e = 0..1;\n";

/// The variables, by the bits of a scope.
const X: u32 = 0;

const Y: u32 = 1;

const C: u32 = 2;

const B: u32 = 3;

/// How a formula with parts is written: a word, `(`, the parts with a text between, and the end.
#[derive(Clone, Copy)]
struct Shape {
    word: &'static str,
    between: &'static str,
    parts: u32,
    end: End,
}

/// What stands behind the last part.
#[derive(Clone, Copy)]
enum End {
    Bracket,
    /// A distance and the bracket.
    Distance,
    /// The bracket, behind which the scope is this one.
    Scope(u32),
}

/// A text that grows, and the variables in whose bodies its end stands.
#[derive(Drop)]
struct SpecMaker {
    maker: Maker,
    text: Text,
    scope: u32,
}

/// The text of a specification.
pub fn made_spec(rt: &(impl Abort + AllocGlobal), number: u64) -> String {
    let mut spec = SpecMaker {
        maker: Maker::new(number),
        text: Text::new(rt.alloc()),
        scope: 0,
    };
    spec.specification();
    let SpecMaker { text, .. } = spec;
    text.whole(rt)
}

/// The text of a specification of few cells, with one or two axioms at an instant each.
pub fn made_small_spec(rt: &(impl Abort + AllocGlobal), number: u64) -> String {
    let mut spec = SpecMaker {
        maker: Maker::new(number.wrapping_mul(11_400_714_819_323_198_485)),
        text: Text::new(rt.alloc()),
        scope: 0,
    };
    spec.small_specification();
    let SpecMaker { text, .. } = spec;
    text.whole(rt)
}

impl SpecMaker {
    fn specification(&mut self) {
        let instants = 1 + self.number(4);
        self.declarations(instants);
        let claims = 1 + self.number(3);
        for claim in 0..claims {
            self.claim(claim, instants);
        }
    }

    fn small_specification(&mut self) {
        let instants = 1 + self.number(3);
        self.write("time ");
        self.text.put_value(instants);
        self.write(";\n");
        self.write(SMALL_DOMAINS);
        self.write(ITEMS);
        let axioms = 1 + self.number(2);
        for axiom in 0..axioms {
            self.small_axiom(axiom, instants);
        }
    }

    fn small_axiom(&mut self, axiom: usize, instants: usize)
        requires { 0 < instants }
    {
        let instant = self.number(instants);
        self.write("axiom A");
        self.text.put_value(axiom);
        self.instant(instant);
        let depth = 1 + self.number(3);
        self.formula(depth as u32);
        self.write(";\n");
    }

    fn number(&mut self, below: usize) -> usize
        requires { 0 < below }
        ensures { result < below }
    {
        self.maker.number(below)
    }

    fn write(&mut self, text: &str) {
        self.text.put(text);
    }

    /// Writes one of these texts.
    fn one_of(&mut self, texts: &[&str])
        requires { 0 < length texts.now }
    {
        let number = self.number(texts.len());
        self.write(texts[number])
    }

    /// Whether this variable may be named.
    fn in_scope(&self, variable: u32) -> bool
        requires { variable < 4 }
    {
        self.scope & (1 << variable) != 0
    }

    fn declarations(&mut self, instants: usize) {
        self.write("time ");
        self.text.put_value(instants);
        self.write(";\nitem p : bool;\n");
        let words = "domain m = {red, green};\n";
        let more_words = "domain m = {red, green, blue};\n";
        self.one_of(&[words, more_words]);
        self.one_of(&[
            "domain d = -1..1;\n",
            "domain d = 0..1;\n",
            "domain d = -2..-2;\n",
        ]);
        self.one_of(&["domain e = 0..1;", "domain e = 1 .. 2 ;", "domain e=-1..0;"]);
        self.write(ITEMS);
    }

    /// An axiom or a goal.
    fn claim(&mut self, number: usize, instants: usize)
        requires { 0 < instants }
    {
        self.one_of(&["axiom ", "axiom ", "goal "]);
        let instant = self.number(instants);
        self.write("A");
        self.text.put_value(number);
        if self.number(2) == 0 {
            self.write(" : ");
        } else {
            self.instant(instant);
        }
        self.formula(3);
        self.write(";\n");
    }

    /// The instant of an axiom, and the sign behind it.
    fn instant(&mut self, instant: usize) {
        self.write(" at ");
        self.text.put_value(instant);
        self.write(" : ");
    }

    /// A formula with brackets in brackets at most so deep.
    fn formula(&mut self, depth: u32) {
        if depth == 0 {
            self.leaf();
            return;
        }
        let shape = self.shape();
        self.write(shape.word);
        self.write("(");
        self.formula(depth - 1);
        if shape.parts > 1 {
            self.write(shape.between);
            self.formula(depth - 1);
        }
        if shape.parts > 2 {
            self.write(shape.between);
            self.formula(depth - 1);
        }
        self.end(shape.end)
    }

    fn shape(&mut self) -> Shape {
        match self.number(8) {
            0 => bracketed("!"),
            1 | 2 => self.joined(),
            3 | 4 => self.quantified(),
            5 => bracketed(ON_ONE[self.number(6)]),
            6 => self.with_distance(),
            _ => self.on_two(),
        }
    }

    /// Two parts, or three where more may stand.
    fn joined(&mut self) -> Shape {
        let joint = self.number(4);
        let more = if joint < 2 { self.number(2) as u32 } else { 0 };
        Shape {
            word: "",
            between: JOINTS[joint],
            parts: 2 + more,
            end: End::Bracket,
        }
    }

    /// Puts a variable in scope; a negation where the variable is in scope.
    fn quantified(&mut self) -> Shape {
        let variable = self.number(4);
        let word = QUANTIFIERS[2 * variable + self.number(2)];
        if self.in_scope(variable as u32) {
            return bracketed("!");
        }
        let outside = self.scope;
        self.scope |= 1 << variable;
        Shape {
            end: End::Scope(outside),
            ..bracketed(word)
        }
    }

    fn with_distance(&mut self) -> Shape {
        Shape {
            end: End::Distance,
            ..bracketed(WITH_DISTANCE[self.number(21)])
        }
    }

    fn on_two(&mut self) -> Shape {
        Shape {
            word: ON_TWO[self.number(2)],
            between: ", ",
            parts: 2,
            end: End::Bracket,
        }
    }

    fn end(&mut self, end: End) {
        match end {
            End::Bracket => {}
            End::Distance => {
                self.write(", ");
                self.side(false);
            }
            End::Scope(outside) => self.scope = outside,
        }
        self.write(")")
    }

    /// A formula without brackets.
    fn leaf(&mut self) {
        self.one_of(&["", "", "!"]);
        self.atom();
        if self.number(2) == 0 {
            self.one_of(&CONNECTIVES);
            self.atom();
        }
    }

    fn atom(&mut self) {
        match self.number(6) {
            0 | 1 => self.truth(),
            2 => {
                self.truth();
                self.one_of(&[" = ", " != "]);
                self.truth()
            }
            3 => {
                self.word();
                self.one_of(&[" = ", " != "]);
                self.word()
            }
            _ => {
                self.side(true);
                self.one_of(&RELATIONS);
                self.side(true)
            }
        }
    }

    /// A term of kind bool.
    fn truth(&mut self) {
        match self.number(5) {
            0 => self.plain_truth(),
            1 => self.write("p"),
            2 => self.write("[p]"),
            _ => {
                self.write("q(");
                self.side(false);
                self.write(", ");
                self.plain_word();
                self.write(")")
            }
        }
    }

    fn plain_truth(&mut self) {
        if self.in_scope(B) {
            self.write("b")
        } else {
            self.one_of(&["true", "false"])
        }
    }

    /// A term of the kind of words.
    fn word(&mut self) {
        if self.number(2) == 0 {
            self.plain_word();
            return;
        }
        self.write("w(");
        self.plain_word();
        self.write(", ");
        self.plain_truth();
        self.write(")")
    }

    fn plain_word(&mut self) {
        if self.in_scope(C) {
            self.write("c")
        } else {
            self.one_of(&["red", "green"])
        }
    }

    /// A term of kind number, as sums and products are written without brackets.
    fn side(&mut self, reads: bool) {
        self.one_of(&["", "", "-", "2 * ", "-3 * "]);
        self.factor(2, reads);
        if self.number(3) == 0 {
            self.one_of(&[" + ", " - ", " + 3 * "]);
            self.factor(1, reads);
        }
    }

    /// A number, variable, read, or a term in brackets that are at most so deep.
    fn factor(&mut self, depth: u32, reads: bool) {
        if depth == 0 {
            self.plain_number();
            return;
        }
        match self.number(7) {
            0 => {
                self.one_of(&["[", "[-", "[2 * ", "[3 - "]);
                self.factor(depth - 1, reads);
                self.write("]")
            }
            1 if reads => {
                self.write("n(");
                self.factor(depth - 1, false);
                self.write(")")
            }
            2 if reads => {
                self.write("r(");
                self.factor(depth - 1, false);
                self.other_arguments()
            }
            3 if reads => self.write("s"),
            _ => self.plain_number(),
        }
    }

    /// The other arguments of `r`.
    fn other_arguments(&mut self) {
        self.write(", ");
        self.plain_truth();
        self.write(", ");
        self.plain_word();
        self.write(")")
    }

    fn plain_number(&mut self) {
        match self.number(4) {
            0 | 1 if self.in_scope(X) => self.write("x"),
            2 if self.in_scope(Y) => self.write("y"),
            _ => self.one_of(&["0", "1", "01", "2", "3"]),
        }
    }
}

/// A word and one part in brackets.
fn bracketed(word: &'static str) -> Shape {
    Shape {
        word,
        between: "",
        parts: 1,
        end: End::Bracket,
    }
}
