//! Texts with their tokens, faults and lexemes.

use super::claims::same;
use super::texts::Text;
use std::process::Abort;
use trio_text::{LexFault, Token, lexemes, tokens};

/// Each token of a text with its place and line, or the fault.
fn shown(rt: &(impl Abort + AllocGlobal), text: &[u8]) -> String {
    let mut shown = Text::new(rt.alloc());
    match tokens(rt.alloc(), text) {
        Ok(found) => {
            for token in found.as_slice() {
                add_token(&mut shown, token);
            }
        }
        Err(LexFault::Byte(place)) => {
            shown.put("fault ");
            shown.put_value(place);
        }
        Err(LexFault::Memory) => panic!(rt; "memory"),
    }
    shown.whole(rt)
}

fn add_token(shown: &mut Text, token: &Token) {
    let kind = token.kind;
    shown.put_value(format_args!("{kind:?} "));
    shown.put_value(token.start);
    shown.put("..");
    shown.put_value(token.end);
    shown.put(" ");
    shown.put_value(token.line);
    shown.put("; ");
}

/// Asserts what is shown of each text.
fn check_rows(rt: &(impl Abort + AllocGlobal), rows: &[(&[u8], &str)]) {
    for (text, want) in rows {
        same(rt, &shown(rt, text).as_str(), want);
    }
}

/// Texts with their tokens.
const TOKENS: [(&[u8], &str); 12] = [
    (b"", ""),
    (b"// only", ""),
    (b"1..2", "Number 0..1 1; Sign(Span) 1..3 1; Number 3..4 1; "),
    (b"2a", "Number 0..1 1; Name 1..2 1; "),
    (b"1-1", "Number 0..1 1; Sign(Minus) 1..2 1; Number 2..3 1; "),
    (b"<-", "Sign(Lt) 0..1 1; Sign(Minus) 1..2 1; "),
    (
        b"<-><=->>=!=!",
        "Sign(Both) 0..3 1; Sign(Le) 3..5 1; Sign(Arrow) 5..7 1; Sign(Ge) 7..9 1; Sign(Ne) 9..11 1; Sign(Not) 11..12 1; ",
    ),
    (
        b"p:0?1",
        "Name 0..1 1; Sign(Colon) 1..2 1; Number 2..3 1; Sign(Unknown) 3..4 1; Number 4..5 1; ",
    ),
    (
        b"fixed fixed_ Lasts_ii Lasts_i",
        "Word(Fixed) 0..5 1; Name 6..12 1; Word(LastsIi) 13..21 1; Name 22..29 1; ",
    ),
    (b"a // x\xff\r y\n\n b", "Name 0..1 1; Name 13..14 3; "),
    (
        b"a\r\n\tb//\n;",
        "Name 0..1 1; Name 4..5 2; Sign(Semi) 8..9 3; ",
    ),
    (
        b"{x, y}=[z*2]|&(+)",
        "Sign(LeftBrace) 0..1 1; Name 1..2 1; Sign(Comma) 2..3 1; Name 4..5 1; Sign(RightBrace) 5..6 1; Sign(Eq) 6..7 1; Sign(LeftSquare) 7..8 1; Name 8..9 1; Sign(Times) 9..10 1; Number 10..11 1; Sign(RightSquare) 11..12 1; Sign(Or) 12..13 1; Sign(And) 13..14 1; Sign(LeftRound) 14..15 1; Sign(Plus) 15..16 1; Sign(RightRound) 16..17 1; ",
    ),
];

/// Texts with the byte of the fault.
const FAULTS: [(&[u8], &str); 11] = [
    (b"/", "fault 0"),
    (b"a\x0bb", "fault 1"),
    (b"\x0c", "fault 0"),
    (b"a .", "fault 2"),
    (b"1...2", "fault 3"),
    (b"_x", "fault 0"),
    (b"x_#", "fault 2"),
    (b"a / b", "fault 2"),
    (b"a\xff", "fault 1"),
    (b"// \xff\n\xff", "fault 5"),
    (b"\"", "fault 0"),
];

#[test]
fn texts_have_their_tokens(rt: HostRuntime) {
    check_rows(&rt, &TOKENS);
}

#[test]
fn faults_stand_at_their_byte(rt: HostRuntime) {
    check_rows(&rt, &FAULTS);
}

/// The lexemes of a text.
fn said(rt: &(impl Abort + AllocGlobal), text: &[u8]) -> String {
    let found = tokens(rt.alloc(), text).expect(rt, "tokens");
    let said = lexemes(rt.alloc(), text, &found).expect(rt, "memory");
    let mut shown = Text::new(rt.alloc());
    for lexeme in said.as_slice() {
        shown.put_value(format_args!("{lexeme:?}; "));
    }
    shown.whole(rt)
}

#[test]
fn tokens_say_their_lexemes(rt: HostRuntime) {
    let text = b"007 1000000 1000001 99999999999999999999 q_1 -> true";
    same(
        &rt,
        &said(&rt, text).as_str(),
        &"Number(7); Number(1000000); Number(1000001); Number(1000001); Name(Name { text: \"q_1\" }); Sign(Arrow); Word(True); ",
    );
}
