// Parts of slices, which may end before the part does.
ghost use Rattle.std.specs.Prelude.{◌≡◌, take, drop};

/// The first n items, all where there are fewer.
pub(crate) fn first_ones<T>(items: &[T], n: u64) -> &[T]
    ensures { result.now ≡ take n items.now }
{
    if n < items.len() as u64 {
        &items[..n as usize]
    } else {
        items
    }
}

/// The items after the first n, none where there are fewer.
pub(crate) fn ones_after<T>(items: &[T], n: u64) -> &[T]
    ensures { result.now ≡ drop n items.now }
{
    if n < items.len() as u64 {
        &items[n as usize..]
    } else {
        &items[items.len()..]
    }
}
