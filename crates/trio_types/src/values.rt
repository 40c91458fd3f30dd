//! The values of domains and their indexes.
ghost use Rattle.std.specs.Prelude.{◌≡◌, ◌<◌, ◌^◌, ◌≤ℤ◌, pos, neg_ℤ, length, slice_get, Some};
ghost use Rattle.trio_types.specs.World.{size_of, values_in};
ghost use Rattle.trio_types.specs.Values.{index_of};

use crate::spec::Spec;

/// The value of this index in the domain of this number: a number of a range, or the index itself.
pub fn value_at(spec: &Spec, domain: u32, index: u32) -> i64
    requires domain_in { domain < length spec.now.domains }
    requires index_in { index < size_of spec.now.domains domain }
    ensures { slice_get (values_in spec.now.domains domain) index ≡ Some result }
{
    spec.declarations().value_at(domain, index)
}

/// The index of a value in the domain of this number, where it is one of the domain's values.
pub fn index_of(spec: &Spec, domain: u32, value: i64) -> Option<u32>
    requires domain_in { domain < length spec.now.domains }
    requires not_far_back { neg_ℤ (pos (2 ^ 62)) ≤ℤ value }
    requires not_far_on { value ≤ℤ pos (2 ^ 62) }
    ensures { result ≡ index_of (values_in spec.now.domains domain) value }
{
    spec.declarations().index_of(domain, value)
}
