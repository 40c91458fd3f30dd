//! Worked rows on specification texts that are made: cut short, with many brackets, and with as many instances and items as there may be.
use super::answer_is;
use std::process::Abort;

/// A text with each form of statement; one blank stands between tokens.
const SAMPLE: &str =
    "time 3 ; domain d = - 1 .. 2 ; domain c = { red , blue } ; input q ( d , c ) : d ; axiom A at 0 : all v : d ( ! q ( v + 1 , red ) = - [ 2 * v ] | Until ( true , false ) ) -> Lasts_ii ( true , 1 ) ; goal G : true <-> false ;";

/// Asserts the answer where so many tokens of the sample are kept.
fn check_kept(rt: &(impl Abort + AllocGlobal), text: &str, kept: usize) {
    let alloc = rt.alloc();
    let answer = match kept {
        3 | 11 | 20 => String::from_str(alloc, "0 true").expect(rt, "memory"),
        30 | 72 | 79 => String::from_str(alloc, "4 refused history missing q(-1,red)").expect(
            rt, "memory",
        ),
        _ => format!(in alloc; "4 refused spec syntax {kept}").expect(rt, "memory"),
    };
    answer_is(rt, text, answer.as_str());
}

#[test]
fn texts_that_stop_early(rt: HostRuntime) {
    let mut text = String::new(rt.alloc());
    let mut kept = 0;
    for token in SAMPLE.split_whitespace() {
        check_kept(&rt, text.as_str(), kept);
        text.push_str(token).expect(&rt, "memory");
        text.push_str(" ").expect(&rt, "memory");
        kept = kept.saturating_add(1);
    }
    check_kept(&rt, text.as_str(), kept);
}

/// Asserts the answer where so many round brackets, and in them so many square ones, stand round `true`.
fn check_brackets(rt: &(impl Abort + AllocGlobal), round: usize, square: usize, answer: &str) {
    let alloc = rt.alloc();
    let text = format!(in alloc;
        "time 1; axiom A : {}{}true{}{};",
        "(".repeat(alloc, round).expect(rt, "memory"),
        "[".repeat(alloc, square).expect(rt, "memory"),
        "]".repeat(alloc, square).expect(rt, "memory"),
        ")".repeat(alloc, round).expect(rt, "memory")
    )
    .expect(rt, "memory");
    answer_is(rt, text.as_str(), answer);
}

#[test]
fn brackets_in_brackets(rt: HostRuntime) {
    for (round, square) in [(100, 0), (0, 100), (50, 50)] {
        check_brackets(&rt, round, square, "0 true");
        check_brackets(&rt, round, square + 1, "4 refused spec deep 106");
    }
    check_brackets(&rt, 101, 0, "4 refused spec deep 106");
}

/// More than 100 brackets in a text of which each is closed, a closing one where none is open, and braces, which do not count.
#[test]
fn brackets_that_are_open(rt: HostRuntime) {
    let alloc = rt.alloc();
    let pairs = "(true) & [true] & "
        .repeat(alloc, 101)
        .expect(&rt, "memory");
    let text = format!(in alloc; "time 1; axiom A : {pairs}true;").expect(&rt, "memory");
    answer_is(&rt, text.as_str(), "0 true");
    let round = "(".repeat(alloc, 101).expect(&rt, "memory");
    let text = format!(in alloc; "time 1; axiom A : ){round}").expect(&rt, "memory");
    answer_is(&rt, text.as_str(), "4 refused spec deep 107");
    let braces = "{".repeat(alloc, 101).expect(&rt, "memory");
    let text = format!(in alloc; "time 1; domain d = {braces}").expect(&rt, "memory");
    answer_is(&rt, text.as_str(), "4 refused spec syntax 7");
}

#[test]
fn instances_at_their_limit(rt: HostRuntime) {
    let alloc = rt.alloc();
    let mut text = String::from_str(alloc, "time 1; domain d = 0..9;").expect(&rt, "memory");
    for number in 0_u32..9 {
        let axiom = format!(in alloc;
            " axiom A{number} at 0 : ex a : d (ex b : d (ex c : d (ex e : d (ex f : d (true)))));"
        ).expect(&rt, "memory");
        text.push_str(axiom.as_str()).expect(&rt, "memory");
    }
    text.push_str(" axiom B : true;").expect(&rt, "memory");
    answer_is(&rt, text.as_str(), "0 true");
    text.push_str(" axiom C : true;").expect(&rt, "memory");
    answer_is(&rt, text.as_str(), "4 refused spec limit instances 1000001");
}

/// One item more than there may be has more cells than there may be too, and is named first.
#[test]
fn items_at_their_limit(rt: HostRuntime) {
    let alloc = rt.alloc();
    let mut text = String::from_str(alloc, "time 4;").expect(&rt, "memory");
    for number in 0_u32..256 {
        let item = format!(in alloc; " item i{number} : bool;").expect(&rt, "memory");
        text.push_str(item.as_str()).expect(&rt, "memory");
    }
    answer_is(&rt, text.as_str(), "4 refused history missing i0");
    text.push_str(" item j : bool;").expect(&rt, "memory");
    answer_is(&rt, text.as_str(), "4 refused spec limit items 257");
}
