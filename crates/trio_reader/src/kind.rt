//! Kinds of terms, and what their places ask of them.

use trio_types::Rel;

/// What kind of value a term has.
#[derive(Clone, Copy)]
pub enum TermKind {
    /// None: it has a name that stands for no value.
    Unkinded,
    /// A whole number.
    Number,
    /// `false` or `true`.
    Truth,
    /// A word of the domain of this number.
    Word(u32),
}

impl TermKind {
    ghost use Rattle.std.specs.Prelude.{◌≡◌};
    ghost use Rattle.trio_types.specs.Kinds.{has_kind, same_kind, meets_requirement, alone, part, argument};
    ghost use Rattle.trio_types.specs.Kinds as spec;
    ghost use Rattle.trio_reader.specs.TermKinds.{seen};

    /// Whether it is a kind.
    pub fn is_kind(self) -> bool
        ensures { result ≡ has_kind (seen self) }
    {
        !matches!(self, TermKind::Unkinded)
    }

    /// Whether it is the same.
    fn is_same(self, other: TermKind) -> bool
        ensures { result ≡ same_kind (seen self) (seen other) }
    {
        match (self, other) {
            (TermKind::Unkinded, TermKind::Unkinded) => true,
            (TermKind::Number, TermKind::Number) => true,
            (TermKind::Truth, TermKind::Truth) => true,
            (TermKind::Word(domain), TermKind::Word(other)) => domain == other,
            _ => false,
        }
    }

    /// Whether a term of this kind may be a formula alone.
    pub fn may_stand_alone(self) -> bool
        ensures { result ≡ meets_requirement alone (seen self) }
    {
        matches!(self, TermKind::Unkinded | TermKind::Truth)
    }

    /// Whether a term of this kind may be a part of a sum, a factor or a distance.
    pub fn may_be_number(self) -> bool
        ensures { result ≡ spec.may_be_number (seen self) }
    {
        matches!(self, TermKind::Unkinded | TermKind::Number)
    }

    /// Whether an argument of this kind suits a domain with values of the other.
    pub fn suits(self, wanted: TermKind) -> bool
        ensures { result ≡ meets_requirement (argument (seen wanted)) (seen self) }
    {
        !(wanted.is_kind() && self.is_kind()) || wanted.is_same(self)
    }

    /// Whether this relation may stand between terms of this kind and of the other.
    pub fn may_compare(self, rel: Rel, right: TermKind) -> bool
        ensures { result ≡ spec.may_compare rel (seen self) (seen right) }
    {
        let same = !(self.is_kind() && right.is_kind()) || self.is_same(right);
        same && (!TermKind::is_ordered(rel) || self.may_be_number() && right.may_be_number())
    }

    /// Whether a relation holds of numbers alone.
    fn is_ordered(rel: Rel) -> bool
        ensures { result ≡ spec.is_ordered rel }
    {
        !matches!(rel, Rel::Eq | Rel::Ne)
    }
}
