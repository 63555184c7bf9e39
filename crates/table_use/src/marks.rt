// Rows that allow codes that others don't, which is seen before anything is counted.
ghost use Rattle.std.specs.Prelude.{◌≡◌, ◌<◌, ◌&&◌, ◌==◌, ℕ, length, IsTrue};
ghost use Rattle.std.specs.Int.{bit_at};
ghost use Rattle.transition_table.specs.RowCodes.{AreRowCodes};
ghost use Rattle.table_use.specs.inner.Marks.{HasMore, is_kept};

use polis_base::SmallSet;
use transition_table::{Machine, RowCodes};

// Those codes of a variable with which a snapshot that has an input still has one: of an input
// those of its presence alone.
fn kept(machine: &Machine, var: u64, codes: SmallSet) -> SmallSet
    ensures { (code : ℕ) → (bit_at result code == 1)
        ≡ (is_kept machine.now var code && bit_at codes code == 1) }
{
    if var < machine.inputs.len() {
        return codes.without(0);
    }
    codes
}

/// Whether a row is seen to allow a code that another doesn't.
pub(crate) fn has_more(machine: &Machine, codes: &RowCodes, r: u32, k: u32) -> bool
    requires codes { AreRowCodes machine.now codes.now }
    requires row { r < length machine.now.rows }
    requires other { k < length machine.now.rows }
    ensures { IsTrue result → HasMore machine.now r k }
{
    let one = codes.of_row(u64::from(r));
    let other = codes.of_row(u64::from(k));
    for var in 0..one.len() {
        let own = kept(machine, var, *one.get(var));
        let common = own.both(*other.get(var));
        if common != own {
            return true;
        }
    }
    false
}
