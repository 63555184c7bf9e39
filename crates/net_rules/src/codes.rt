// The numbers of values in their domains.
ghost use Rattle.std.specs.Prelude.{◌≡◌, ◌≤◌, unwrap_or};
ghost use Rattle.polis_base.specs.declared.limits.TheConstants.{DOMAIN_SIZE_MAX};
ghost use Rattle.net_names.specs.Values.{value_in, count_of};

use net_names::value_in;
use net_reader::{RawShape, RawValue};

// The number of a value, or 0 where it is none of the domain.
pub(crate) fn value_or_zero(shape: &RawShape, value: &RawValue) -> u64
    requires { count_of shape.now ≤ DOMAIN_SIZE_MAX }
    ensures number { result ≡ unwrap_or (value_in shape.now value.now) 0 }
    ensures small { result ≤ 32 }
{
    match value_in(shape, value) {
        Some(number) => number,
        None => 0,
    }
}
