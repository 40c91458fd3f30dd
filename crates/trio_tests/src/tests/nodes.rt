//! Nodes as texts: a part by its number, a variable as `v` and the number of those round it, a sum with the sign of each part in `[` and `]`.
use super::texts::Text;
use std::process::Abort;
use trio_core::{Core, Items, Node, Rel, Term};
use trio_types::SignedTerm;

/// The nodes of a core in order.
pub fn shown(rt: &(impl Abort + AllocGlobal), core: &Core) -> String {
    let mut text = Text::new(rt.alloc());
    for node in core.nodes.as_slice() {
        text.put_between("; ");
        add_node(&mut text, &core.items, node);
    }
    text.whole(rt)
}

fn add_node(text: &mut Text, items: &Items, node: &Node) {
    match node {
        Node::Atom(rel, left, right) => {
            add_term(text, items, left);
            text.put(sign_of(*rel));
            add_term(text, items, right);
        }
        Node::Not(part) => {
            text.put("!");
            text.put_value(*part);
        }
        Node::And(left, right) => add_two(text, *left, " & ", *right),
        Node::Or(left, right) => add_two(text, *left, " | ", *right),
        Node::Exists(low, high, part) => {
            text.put("ex ");
            text.put_value(*low);
            text.put("..");
            text.put_value(*high);
            text.put(" ");
            text.put_value(*part);
        }
        Node::Dist(part, distance) => {
            text.put_value(*part);
            text.put(" at ");
            add_term(text, items, distance);
        }
    }
}

fn add_two(text: &mut Text, left: u32, sign: &str, right: u32) {
    text.put_value(left);
    text.put(sign);
    text.put_value(right);
}

fn sign_of(rel: Rel) -> &'static str {
    match rel {
        Rel::Eq => " = ",
        Rel::Ne => " != ",
        Rel::Lt => " < ",
        Rel::Le => " <= ",
        Rel::Gt => " > ",
        Rel::Ge => " >= ",
    }
}

#[cycle(terms)]
fn add_term(text: &mut Text, items: &Items, term: &Term) {
    match term {
        Term::Number(number) => text.put_value(*number),
        Term::Value(0, 0) => text.put("false"),
        Term::Value(0, 1) => text.put("true"),
        Term::Value(_, index) => text.put_value(*index),
        Term::Var(level) => {
            text.put("v");
            text.put_value(*level);
        }
        Term::Read(item, args) => {
            text.put(name_of(items, *item));
            add_arguments(text, items, args.as_slice());
        }
        Term::Sum(parts) => add_sum(text, items, parts.as_slice()),
        Term::Times(number, factor) => {
            text.put_value(*number);
            text.put(" * ");
            add_term(text, items, factor.get());
        }
    }
}

#[cycle(terms)]
fn add_arguments(text: &mut Text, items: &Items, args: &[Term]) {
    let mut is_first = true;
    for arg in args {
        text.put(if is_first { "(" } else { ", " });
        add_term(text, items, arg);
        is_first = false;
    }
    if !args.is_empty() {
        text.put(")");
    }
}

#[cycle(terms)]
fn add_sum(text: &mut Text, items: &Items, parts: &[SignedTerm]) {
    let mut is_first = true;
    for part in parts {
        text.put(if is_first { "[" } else { " " });
        text.put(if part.minus { "-" } else { "+" });
        add_term(text, items, &part.term);
        is_first = false;
    }
    text.put("]");
}

fn name_of(items: &Items, item: u32) -> &str {
    match items.as_slice().get(item as usize) {
        Some(item) => item.name.as_str(),
        None => "?",
    }
}
