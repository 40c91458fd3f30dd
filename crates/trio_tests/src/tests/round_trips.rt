//! Texts that are printed, read and printed again.
use super::claims::holds;
use super::spec_maker::made_spec;
use std::process::Abort;
use trio_reader::{read_spec, spec_text};
use trio_types::Spec;

/// Whether a text is a specification; asserts that what is printed of it reads as what is printed so again.
fn comes_back(rt: &(impl Abort + AllocGlobal), text: &str) -> bool {
    match read_spec(rt.alloc(), text.as_bytes()) {
        Ok(spec) => {
            is_printed_again(rt, &spec, text);
            true
        }
        Err(_) => false,
    }
}

fn is_printed_again(rt: &(impl Abort + AllocGlobal), spec: &Spec, text: &str) {
    let alloc = rt.alloc();
    let first = spec_text(alloc, spec).expect(rt, "memory");
    let again = read_spec(alloc, first.as_slice()).expect(rt, text);
    let second = spec_text(alloc, &again).expect(rt, "memory");
    assert_eq!(rt; first.as_slice(), second.as_slice(), "{text}");
}

#[test]
fn made_specifications_come_back(rt: HostRuntime) {
    let mut accepted = 0_u32;
    for number in 0_u64..2500 {
        let text = made_spec(&rt, number);
        if comes_back(&rt, text.as_str()) {
            accepted = accepted.saturating_add(1);
        }
    }
    holds(&rt, accepted >= 2500);
}
