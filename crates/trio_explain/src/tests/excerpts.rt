//! The line that is shown of a text, and the mark under a place in it.
use super::is_said;

/// Specifications that are refused, with all that is said: bytes that steer a terminal, and the 40 bytes that a long line shows at most from
/// the place on.
const SHOWN: [(&str, &str); 6] = [
    (
        "time 1;\r\x01 // \x1f\x7f~\té",
        "4 s:1:9: the byte 1 begins no token outside a comment\ntime 1;?? // ??~\té\n        ^\n",
    ),
    (
        "time 1;\n\x1f",
        "4 s:2:1: the byte 31 begins no token outside a comment\n?\n^\n",
    ),
    (
        "time 1;\t\x7f",
        "4 s:1:9: the byte 127 begins no token outside a comment\ntime 1;\t?\n       \t^\n",
    ),
    (
        "time 1; ~",
        "4 s:1:9: `~` begins no token\ntime 1; ~\n        ^\n",
    ),
    (
        "time 1;\naxiom A : q; // 78901234567890123456789012345678901",
        "4 s:2:11: `q` is not declared before this place\naxiom A : q; // 7890123456789012345678901234567890\n          ^\n",
    ),
    (
        "time 1;\naxiom A : q; // 7890\r12345\n// 12345",
        "4 s:2:11: `q` is not declared before this place\naxiom A : q; // 7890\n          ^\n",
    ),
];

#[test]
fn lines_as_they_are_shown(rt: HostRuntime) {
    for row in &SHOWN {
        is_said(&rt, row.0, "", row.1);
    }
}
