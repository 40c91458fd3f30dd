//! Worked rows on `complete`.

use super::*;

const TRUE_AHEAD: &str = "time 3; item p : bool; axiom A : Dist(true, 1) & p -> Futr(p, 1);";

/// The answer of `complete s h` into this sink.
fn completed_into(
    alloc: Global,
    spec: &str,
    history: &str,
    out: MemSink,
) -> Result<Vec<u8>, AllocError> {
    let files = two_files(alloc, spec.as_bytes(), history.as_bytes())?;
    answered(alloc, "complete s h", files, Counts::new(alloc), out)
}

/// Asserts the answer in the last column for the specification and the history in the others.
fn complete_row(rt: &(impl Abort + AllocGlobal), row: &str) {
    let alloc = rt.alloc();
    let (spec, rest) = cut(row);
    let (history, want) = cut(rest);
    let answer = completed_into(alloc, spec, history, ample(alloc).expect(rt, "memory")).expect(
        rt, "memory",
    );
    is_due(rt, answer.as_slice(), want, row);
}

/// Asserts each row.
fn complete_all(rt: &(impl Abort + AllocGlobal), rows: &[&str]) {
    for row in rows {
        complete_row(rt, row);
    }
}

/// A specification, a history, and the list that `complete` answers.
const LISTS: [&str; 8] = [
    "time 3; item p : bool; axiom A : p -> Futr(p, 1); ~ p: ? ? ?\n ~ 0 histories 1\nhistory 1\np: 0 0 0\n",
    "time 3; item p : bool; axiom A : Dist(true, 1) & p -> Futr(p, 1); ~ p: ? ? ?\n ~ 0 histories 4\nhistory 1\np: 0 0 0\nhistory 2\np: 0 0 1\nhistory 3\np: 0 1 1\nhistory 4\np: 1 1 1\n",
    "time 1; item p : bool; axiom A : p & !p; ~ p: ? ~ 0 histories 0\n",
    "time 3; item p : bool; axiom A : Dist(true, 1) & p -> Futr(p, 1); ~ p: 0 1 1 ~ 0 histories 1\nhistory 1\np: 0 1 1\n",
    "time 3; item p : bool; axiom A : Dist(true, 1) & p -> Futr(p, 1); ~ p: 1 0 0 ~ 0 histories 0\n",
    "time 1; axiom A : true; ~  ~ 0 histories 1\nhistory 1\n",
    "time 1; axiom A : false; ~  ~ 0 histories 0\n",
    "time 1; domain c = {red, blue}; domain k = -1..0; item q(c) : k; axiom A : q(red) < q(blue); ~ q(blue): ?\nq(red): ? ~ 0 histories 1\nhistory 1\nq(red): -1\nq(blue): 0\n",
];

#[test]
fn lists_of_completions(rt: HostRuntime) {
    complete_all(&rt, &LISTS);
}

/// The text of the 40 histories in which `Until(p, q)` is true at 0: q at 1, or p at 1 and q at 2.
fn until_text(rt: &(impl Abort + AllocGlobal)) -> String {
    let mut text = String::from_str(rt.alloc(), "0 histories 40\n").expect(rt, "memory");
    let mut number = 0_u32;
    for bits in 0..64_u32 {
        let [a, b, c] = [bits >> 5 & 1, bits >> 4 & 1, bits >> 3 & 1];
        let [d, e, f] = [bits >> 2 & 1, bits >> 1 & 1, bits & 1];
        if e == 1 || (b == 1 && f == 1) {
            number = number.saturating_add(1);
            let history = format!(in rt.alloc();
                "history {number}\np: {a} {b} {c}\nq: {d} {e} {f}\n"
            ).expect(rt, "memory");
            text.push_str(history.as_str()).expect(rt, "memory");
        }
    }
    text
}

#[test]
fn completions_of_until(rt: HostRuntime) {
    let alloc = rt.alloc();
    let spec = "time 3; item p : bool; item q : bool; axiom A at 0 : Until(p, q);";
    let answer = completed_into(
        alloc,
        spec,
        "p: ? ? ?\nq: ? ? ?",
        ample(alloc).expect(&rt, "memory"),
    )
    .expect(&rt, "memory");
    is_due(&rt, answer.as_slice(), until_text(&rt).as_str(), spec);
}

/// What is not known of sent(a) at 3, and of sent(b) at 2 and at 3, takes six of its eight values, and `got` follows.
const TRANSMISSION: &str =
    "time 10; domain msg = {a, b}; input sent(msg) : bool; item got(msg) : bool; axiom Pass : all m : msg (Dist(true, 5) -> (sent(m) <-> Dist(got(m), 5))); axiom Start : all m : msg (!Dist(true, -5) -> !got(m)); axiom One : !(sent(a) & sent(b)); ~ sent(a): 1 0 0 ? 0 0 0 0 0 0\nsent(b): 0 0 ? ? 0 0 0 0 0 0\ngot(a): ? ? ? ? ? ? ? ? ? ?\ngot(b): ? ? ? ? ? ? ? ? ? ?\n ~ 0 histories 6\nhistory 1\nsent(a): 1 0 0 0 0 0 0 0 0 0\nsent(b): 0 0 0 0 0 0 0 0 0 0\ngot(a): 0 0 0 0 0 1 0 0 0 0\ngot(b): 0 0 0 0 0 0 0 0 0 0\nhistory 2\nsent(a): 1 0 0 0 0 0 0 0 0 0\nsent(b): 0 0 0 1 0 0 0 0 0 0\ngot(a): 0 0 0 0 0 1 0 0 0 0\ngot(b): 0 0 0 0 0 0 0 0 1 0\nhistory 3\nsent(a): 1 0 0 0 0 0 0 0 0 0\nsent(b): 0 0 1 0 0 0 0 0 0 0\ngot(a): 0 0 0 0 0 1 0 0 0 0\ngot(b): 0 0 0 0 0 0 0 1 0 0\nhistory 4\nsent(a): 1 0 0 0 0 0 0 0 0 0\nsent(b): 0 0 1 1 0 0 0 0 0 0\ngot(a): 0 0 0 0 0 1 0 0 0 0\ngot(b): 0 0 0 0 0 0 0 1 1 0\nhistory 5\nsent(a): 1 0 0 1 0 0 0 0 0 0\nsent(b): 0 0 0 0 0 0 0 0 0 0\ngot(a): 0 0 0 0 0 1 0 0 1 0\ngot(b): 0 0 0 0 0 0 0 0 0 0\nhistory 6\nsent(a): 1 0 0 1 0 0 0 0 0 0\nsent(b): 0 0 1 0 0 0 0 0 0 0\ngot(a): 0 0 0 0 0 1 0 0 1 0\ngot(b): 0 0 0 0 0 0 0 1 0 0\n";

#[test]
fn completions_of_the_transmission_line(rt: HostRuntime) {
    complete_row(&rt, TRANSMISSION);
}

/// 64 cells have far more tables than can be gone over one by one.
const MANY_CELLS: &str =
    "time 64; item p : bool; axiom A : p; ~ p: ? ? ? ? ? ? ? ? ? ? ? ? ? ? ? ? ? ? ? ? ? ? ? ? ? ? ? ? ? ? ? ? ? ? ? ? ? ? ? ? ? ? ? ? ? ? ? ? ? ? ? ? ? ? ? ? ? ? ? ? ? ? ? ? ~ 0 histories 1\nhistory 1\np: 1 1 1 1 1 1 1 1 1 1 1 1 1 1 1 1 1 1 1 1 1 1 1 1 1 1 1 1 1 1 1 1 1 1 1 1 1 1 1 1 1 1 1 1 1 1 1 1 1 1 1 1 1 1 1 1 1 1 1 1 1 1 1 1\n";

#[test]
fn one_completion_of_many_cells(rt: HostRuntime) {
    complete_row(&rt, MANY_CELLS);
}

/// The number of the write that fails, and the answer: the first line is one write, and each history is one.
const CUT_LISTS: [(u64, &str); 5] = [
    (1, "6 "),
    (2, "6 histories 4\n"),
    (3, "6 histories 4\nhistory 1\np: 0 0 0\n"),
    (
        5,
        "6 histories 4\nhistory 1\np: 0 0 0\nhistory 2\np: 0 0 1\nhistory 3\np: 0 1 1\n",
    ),
    (
        6,
        "0 histories 4\nhistory 1\np: 0 0 0\nhistory 2\np: 0 0 1\nhistory 3\np: 0 1 1\nhistory 4\np: 1 1 1\n",
    ),
];

#[test]
fn lists_are_cut_between_pieces(rt: HostRuntime) {
    let alloc = rt.alloc();
    for (failing, want) in &CUT_LISTS {
        let failing = Counts::from_slice(alloc, &[*failing]).expect(&rt, "memory");
        let out = MemSink::new(alloc, 4096, 4096, failing).expect(&rt, "memory");
        let answer = completed_into(alloc, TRUE_AHEAD, "p: ? ? ?\n", out).expect(&rt, "memory");
        is_due(&rt, answer.as_slice(), want, want);
    }
}

/// A specification, a history, and the refusal of one of them.
const REFUSED: [&str; 5] = [
    "time 3; item p bool; ~ p: ? ? ? ~ 4 refused spec syntax 5\n",
    "time 3; item p : bool; axiom A : q; ~ p: 0 ? ~ 4 refused spec unknown 11\n",
    "time 3; item p : bool; ~ p: 0 ? ~ 4 refused history length 1\n",
    "time 3; item p : bool; ~ p: 0 ? 2 ~ 4 refused history value 1 3\n",
    "time 3; item p : bool; ~  ~ 4 refused history missing p\n",
];

#[test]
fn texts_that_complete_refuses(rt: HostRuntime) {
    complete_all(&rt, &REFUSED);
}

/// For runs in which one allocation fails: the answer is the list or want of memory.
#[test]
fn memory_may_run_out_in_a_list(rt: HostRuntime) {
    let alloc = rt.alloc();
    let want = "0 histories 1\nhistory 1\np: 0 1 1\n";
    if let Ok(out) = ample(alloc) {
        if let Ok(answer) = completed_into(alloc, TRUE_AHEAD, "p: 0 1 ?", out) {
            let is_memory = answer.as_slice() == b"7 fault memory\n".as_slice();
            assert!(rt; answer.as_slice() == want.as_bytes() || is_memory);
        }
    }
}
