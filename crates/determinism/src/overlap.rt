// The snapshots that enable two rows.
ghost use Rattle.std.specs.Prelude.{◌≡◌, ◌<◌, ◌≤◌, ◌&&◌, ◌==◌, ℕ, false, List, length, slice_index, IsTrue, IsFalse};
ghost use Rattle.std.specs.Int.{bit_at};
ghost use Rattle.transition_table.specs.RowCodes.{AreSetsOf};
ghost use Rattle.determinism.specs.inner.Boxes.{AreRowsOf, IsBox, AreSome, AreLeast, EnableBoth};

use domains::Codes;
use transition_table::{CodeSets, Machine, Row};

// Writes the codes that both sets have at each variable. False where they have none at one.
fn common(first: &CodeSets, second: &CodeSets, sets: &mut CodeSets) -> bool
    requires same { length second.now ≡ length first.now }
    requires long { length sets.old ≡ length first.now }
    ensures long { length sets.new ≡ length sets.old }
    ensures some { IsTrue result → AreSome sets.new }
    ensures both { IsTrue result → (k code : ℕ) → k < length first.now
        → (bit_at (slice_index sets.new k) code == 1)
        ≡ (bit_at (slice_index first.now k) code == 1
        && bit_at (slice_index second.now k) code == 1) }
    ensures none { IsFalse result → (k : ℕ) × (k < length first.now)
        × ((code : ℕ) → (bit_at (slice_index first.now k) code == 1
        && bit_at (slice_index second.now k) code == 1) ≡ false) }
{
    for k in 0..first.len() {
        let codes = first.get(k).both(*second.get(k));
        if codes.is_empty() {
            return false;
        }
        sets.set(k, codes);
    }
    true
}

/// Writes the set of codes of each variable that both rows allow. False where no snapshot enables
/// both.
pub(crate) fn overlap(
    machine: &Machine,
    first: &Row,
    second: &Row,
    of_first: &CodeSets,
    of_second: &CodeSets,
    sets: &mut CodeSets,
) -> bool
    requires rows { AreRowsOf machine.now first.now second.now }
    requires of_first { AreSetsOf machine.now.vars first.now of_first.now }
    requires of_second { AreSetsOf machine.now.vars second.now of_second.now }
    requires long { length sets.old ≡ length machine.now.vars }
    ensures long { length sets.new ≡ length sets.old }
    ensures some { IsTrue result → AreSome sets.new }
    ensures area { IsTrue result → IsBox machine.now first.now second.now sets.new }
    ensures none { IsFalse result → (codes : List ℕ)
        → ¬ EnableBoth machine.now first.now second.now codes }
{
    common(of_first, of_second, sets)
}

/// Writes the least code of each set.
pub(crate) fn write_least(sets: &CodeSets, codes: &mut Codes)
    requires some { AreSome sets.now }
    requires long { length codes.old ≡ length sets.now }
    ensures { AreLeast sets.now codes.new }
{
    for k in 0..sets.len() {
        let code = sets.get(k).least();
        codes.set(k, code as u8);
    }
}
