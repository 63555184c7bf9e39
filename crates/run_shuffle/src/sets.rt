// The members of a set, one by one.
ghost use Rattle.std.specs.Prelude.{◌≡◌, ◌<◌, length, slice_get, Some};
ghost use Rattle.polis_base.specs.Sets.{members};

use polis_base::SmallSet;

// The member of this number, in order.
pub(crate) fn member(set: SmallSet, number: u64) -> u32
    requires { number < length (members set) }
    ensures { slice_get (members set) number ≡ Some result }
{
    let mut left = set;
    for _ in 0..number {
        left = left.without(left.least());
    }
    left.least()
}
