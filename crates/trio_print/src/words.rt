//! Which words and symbols stand for what, and the names of what is numbered.
ghost use Rattle.std.specs.Prelude.{◌≡◌, [], map, slice_get, slice_index_or};
ghost use Rattle.trio_syntax.specs.Words.{rel_sign, one_word, far_word, pair_word, adding_sign, truth_word, item_word, claim_word};
ghost use Rattle.trio_print.specs.Canonical.{domain_name, item_name, word_name};

use trio_text::{Reserved, Symbol};
use trio_types::{DomainKind, Ends, FarOp, Name, OneOp, PairOp, Rel, Spec};

pub fn rel_sign(rel: Rel) -> Symbol
    ensures { result ≡ rel_sign rel }
{
    match rel {
        Rel::Eq => Symbol::Eq,
        Rel::Ne => Symbol::Ne,
        Rel::Lt => Symbol::Lt,
        Rel::Le => Symbol::Le,
        Rel::Gt => Symbol::Gt,
        Rel::Ge => Symbol::Ge,
    }
}

pub fn one_word(op: OneOp) -> Reserved
    ensures { result ≡ one_word op }
{
    match op {
        OneOp::Alw => Reserved::Alw,
        OneOp::AlwF => Reserved::AlwF,
        OneOp::AlwP => Reserved::AlwP,
        OneOp::Som => Reserved::Som,
        OneOp::SomF => Reserved::SomF,
        OneOp::SomP => Reserved::SomP,
    }
}

pub fn far_word(op: FarOp) -> Reserved
    ensures { result ≡ far_word op }
{
    match op {
        FarOp::Dist => Reserved::Dist,
        FarOp::Futr => Reserved::Futr,
        FarOp::Past => Reserved::Past,
        FarOp::NextTime => Reserved::NextTime,
        FarOp::LastTime => Reserved::LastTime,
        FarOp::Lasts(Ends::Bare) => Reserved::Lasts,
        FarOp::Lasts(Ends::Ii) => Reserved::LastsIi,
        FarOp::Lasts(Ends::Ie) => Reserved::LastsIe,
        FarOp::Lasts(Ends::Ei) => Reserved::LastsEi,
        FarOp::Lasted(Ends::Bare) => Reserved::Lasted,
        FarOp::Lasted(Ends::Ii) => Reserved::LastedIi,
        FarOp::Lasted(Ends::Ie) => Reserved::LastedIe,
        FarOp::Lasted(Ends::Ei) => Reserved::LastedEi,
        FarOp::WithinF(Ends::Bare) => Reserved::WithinF,
        FarOp::WithinF(Ends::Ii) => Reserved::WithinFIi,
        FarOp::WithinF(Ends::Ie) => Reserved::WithinFIe,
        FarOp::WithinF(Ends::Ei) => Reserved::WithinFEi,
        FarOp::WithinP(Ends::Bare) => Reserved::WithinP,
        FarOp::WithinP(Ends::Ii) => Reserved::WithinPIi,
        FarOp::WithinP(Ends::Ie) => Reserved::WithinPIe,
        FarOp::WithinP(Ends::Ei) => Reserved::WithinPEi,
    }
}

pub fn pair_word(op: PairOp) -> Reserved
    ensures { result ≡ pair_word op }
{
    match op {
        PairOp::Until => Reserved::Until,
        PairOp::Since => Reserved::Since,
    }
}

/// The sign of a part of a sum that is not the first.
pub fn adding_sign(minus: bool) -> Symbol
    ensures { result ≡ adding_sign minus }
{
    if minus { Symbol::Minus } else { Symbol::Plus }
}

pub fn truth_word(truth: bool) -> Reserved
    ensures { result ≡ truth_word truth }
{
    if truth {
        Reserved::True
    } else {
        Reserved::False
    }
}

pub fn item_word(is_input: bool) -> Reserved
    ensures { result ≡ item_word is_input }
{
    if is_input {
        Reserved::Input
    } else {
        Reserved::Item
    }
}

pub fn claim_word(is_goal: bool) -> Reserved
    ensures { result ≡ claim_word is_goal }
{
    if is_goal {
        Reserved::Goal
    } else {
        Reserved::Axiom
    }
}

/// The name of the domain of this number; empty where there is none.
pub fn domain_name(spec: &Spec, domain: u32) -> &str
    ensures { result.now ≡ domain_name (slice_get spec.now.domains domain) }
{
    match spec.domains.as_slice().get(domain as usize) {
        Some(domain) => domain.name.as_str(),
        None => "",
    }
}

/// The name of the item of this number; empty where there is none.
pub fn item_name(spec: &Spec, item: u32) -> &str
    ensures { result.now ≡ item_name (slice_get spec.now.items item) }
{
    match spec.items.as_slice().get(item as usize) {
        Some(item) => item.name.as_str(),
        None => "",
    }
}

/// The word of this index in the domain of this number; empty where there is none.
pub fn word_name(spec: &Spec, domain: u32, index: u32) -> &str
    ensures { result.now ≡ word_name (slice_get spec.now.domains domain) index }
{
    let Some(domain) = spec.domains.as_slice().get(domain as usize) else {
        return "";
    };
    match &domain.kind {
        DomainKind::Bool => "",
        DomainKind::Range(_, _) => "",
        DomainKind::Words(words) => word_at(words.as_slice(), index),
    }
}

fn word_at(words: &[Name], index: u32) -> &str
    ensures { result.now ≡ slice_index_or words.now index [] }
{
    match words.get(index as usize) {
        Some(word) => word.as_str(),
        None => "",
    }
}

/// The name of the variable at a level, where these are the names of those in scope; empty where there is none.
pub fn variable_name<'a>(names: &[&'a Name], level: u32) -> &'a str
    ensures { result.now ≡ slice_index_or (map (λ name. name.now) names.now) level [] }
{
    match names.get(level as usize) {
        Some(name) => (*name).as_str(),
        None => "",
    }
}
