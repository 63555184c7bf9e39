// Numbers for pairs of numbers.
ghost use Rattle.std.specs.Prelude.{◌≡◌, ◌↔◌, ◌+◌, ◌-◌, ◌*◌, ◌<◌, ◌≤◌, ℕ, length, slice_index, IfOk};
ghost use Rattle.polis_base.specs.declared.limits.TheConstants.{SIFTED_SNAPSHOTS_MAX};
ghost use Rattle.order_sift.specs.inner.Pairs.{pair_at, AreBelow, AreNumbersFor, ArePairs, HasRoom};
ghost use Rattle.order_sift.specs.inner.Points.{AreCodesFor};

use polis_base::{NoMemory, Numbers};
use std::alloc::Global;

// Each code of a result is below this one.
const CODES: usize = 33;

/// Room for the pairs of so many places.
pub(crate) fn room_for(alloc: Global, places: usize) -> Result<Vec<u16>, NoMemory>
    requires { places ≤ SIFTED_SNAPSHOTS_MAX }
    ensures { IfOk result (λ room. HasRoom places room.items) }
{
    let room = vec![in alloc; 0; places * (places + CODES)]?;
    Ok(room)
}

// The first place with the pair of this one, which may be this one. The pair of a place is of what
// stands one stride before it and of what stands there. What is seen under a pair that no place so
// far has is of no account.
fn first_with(seen: &mut [u16], one: &[u32], other: &[u32], stride: usize, i: usize) -> usize
    requires pairs { ArePairs one.now other.now seen.old }
    requires early { stride ≤ i }
    requires place { i < length one.now }
    ensures range { (stride ≤ result) × (result ≤ i) }
    ensures is { pair_at one.now other.now stride result ≡ pair_at one.now other.now stride i }
    ensures seen { slice_index seen.new (pair_at one.now other.now stride i) ≡ result }
    ensures kept { (k : ℕ) → (k ≡ pair_at one.now other.now stride i → ⊥)
        → slice_index seen.new k ≡ slice_index seen.old k }
    ensures again { (p : ℕ) → slice_index seen.old (pair_at one.now other.now stride i) ≡ p
        → p < i → stride ≤ p
        → pair_at one.now other.now stride p ≡ pair_at one.now other.now stride i → result ≡ p }
{
    let before = one[i - stride];
    let here = other[i];
    let key = here as usize * one.len() + before as usize;
    let first = usize::from(seen[key]);
    if first < i && first >= stride {
        if one[first - stride] == before && other[first] == here {
            return first;
        }
    }
    seen[key] = i as u16;
    i
}

/// Two places get the same number exactly where both their numbers are the same. What is seen
/// before doesn't matter.
pub(crate) fn paired(
    alloc: Global,
    seen: &mut [u16],
    one: &[u32],
    other: &[u32],
) -> Result<Numbers, NoMemory>
    requires room { HasRoom (length one.now) seen.old }
    requires long { length other.now ≡ length one.now }
    requires few { length one.now ≤ SIFTED_SNAPSHOTS_MAX }
    requires one_below { AreBelow (length one.now) one.now }
    requires other_below { AreBelow (length one.now + 33) other.now }
    ensures long { IfOk result (λ made. length made ≡ length one.now) }
    ensures below { IfOk result (AreBelow (length one.now)) }
    ensures same { IfOk result (λ made. (i j : ℕ) → i < length one.now → j < length one.now
        → (slice_index made i ≡ slice_index made j)
        ↔ ((slice_index one.now i ≡ slice_index one.now j)
        × (slice_index other.now i ≡ slice_index other.now j))) }
{
    let places = one.len();
    let mut made = Numbers::from_slice(alloc, one)?;
    for i in 0..places {
        let first = first_with(seen, one, other, 0, i);
        made.set(i as u64, first as u32);
    }
    Ok(made)
}

/// Numbers for what the snapshots with a variable's first codes have, up to the snapshot's own:
/// with the first code it is the number there, and with another one that of a pair, of the number
/// there and of what the snapshot with one code less got. What is seen before doesn't matter.
pub(crate) fn chained(
    alloc: Global,
    seen: &mut [u16],
    classes: &[u32],
    codes: &[u8],
    stride: usize,
) -> Result<Numbers, NoMemory>
    requires room { HasRoom (length classes.now) seen.old }
    requires few { length classes.now ≤ SIFTED_SNAPSHOTS_MAX }
    requires codes { AreCodesFor (length classes.now) codes.now stride }
    requires stride { 0 < stride }
    requires below { AreBelow (length classes.now) classes.now }
    ensures numbers { IfOk result (AreNumbersFor (length classes.now)) }
    ensures first { IfOk result (λ made. (i : ℕ) → i < length classes.now
        → slice_index codes.now i ≡ 0 → slice_index made i ≡ slice_index classes.now i) }
    ensures more { IfOk result (λ made. (i j : ℕ) → i < length classes.now
        → j < length classes.now → 0 < slice_index codes.now i → 0 < slice_index codes.now j
        → (slice_index made i ≡ slice_index made j)
        ↔ ((slice_index made (i - stride) ≡ slice_index made (j - stride))
        × (slice_index classes.now i ≡ slice_index classes.now j))) }
{
    let places = classes.len();
    let mut made = Numbers::from_slice(alloc, classes)?;
    for i in 0..places {
        if codes[i] > 0 {
            let first = first_with(seen, made.as_slice(), classes, stride, i);
            made.set(i as u64, first as u32);
        }
    }
    Ok(made)
}
