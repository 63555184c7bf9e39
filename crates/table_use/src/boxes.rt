// How many snapshots enable rows, by the codes that the rows allow of each variable. No snapshot is
// looked at.
ghost use Rattle.std.specs.Prelude.{◌≡◌, ◌-◌, ◌<◌, ◌≤◌, ◌&&◌, ◌==◌, ℕ, length, drop};
ghost use Rattle.std.specs.Int.{bit_at};
ghost use Rattle.transition_table.specs.RowCodes.{AreRowCodes};
ghost use Rattle.table_use.specs.Lint.{amount};
ghost use Rattle.table_use.specs.Use.{enables};
ghost use Rattle.table_use.specs.inner.Boxes.{both_allow, passing, passing_idle};

use polis_base::SmallSet;
use transition_table::{Machine, RowCodes};

// The codes of a variable that two rows allow.
fn codes_of_both(machine: &Machine, codes: &RowCodes, r: u32, k: u32, var: u64) -> SmallSet
    requires codes { AreRowCodes machine.now codes.now }
    requires row { r < length machine.now.rows }
    requires other { k < length machine.now.rows }
    requires var { var < length machine.now.vars }
    ensures { (code : ℕ) → (bit_at result code == 1) ≡ both_allow machine.now r k var code }
{
    let one = *codes.of_row(u64::from(r)).get(var);
    let other = *codes.of_row(u64::from(k)).get(var);
    one.both(other)
}

// How many lists of codes of the variables from one on two rows allow.
fn passing_from(machine: &Machine, codes: &RowCodes, r: u32, k: u32, from: u64) -> u64
    requires codes { AreRowCodes machine.now codes.now }
    requires row { r < length machine.now.rows }
    requires other { k < length machine.now.rows }
    requires from { from ≤ length machine.now.vars }
    ensures { result ≡ passing (both_allow machine.now r k) from (drop from machine.now.vars) }
{
    if from == machine.vars.len() {
        return 1;
    }
    let both = codes_of_both(machine, codes, r, k, from);
    let count = both.len();
    if count == 0 {
        return 0;
    }
    count * passing_from(machine, codes, r, k, from + 1)
}

// How many of them have each input from one on absent.
fn idle_from(machine: &Machine, codes: &RowCodes, r: u32, k: u32, from: u64) -> u64
    requires codes { AreRowCodes machine.now codes.now }
    requires row { r < length machine.now.rows }
    requires other { k < length machine.now.rows }
    requires from { from ≤ length machine.now.inputs }
    ensures { result ≡ passing_idle (both_allow machine.now r k)
        (length machine.now.inputs - from) from (drop from machine.now.vars) }
{
    let _ = machine.var_count();
    if from == machine.inputs.len() {
        return passing_from(machine, codes, r, k, from);
    }
    let both = codes_of_both(machine, codes, r, k, from);
    if !both.has(0) {
        return 0;
    }
    idle_from(machine, codes, r, k, from + 1)
}

/// On how many snapshots that are seen two rows are enabled.
pub(crate) fn reach_of_both(machine: &Machine, codes: &RowCodes, r: u32, k: u32) -> u64
    requires codes { AreRowCodes machine.now codes.now }
    requires row { r < length machine.now.rows }
    requires other { k < length machine.now.rows }
    ensures { result ≡ amount machine.now
        (λ s. enables machine.now r s && enables machine.now k s) }
{
    passing_from(machine, codes, r, k, 0) - idle_from(machine, codes, r, k, 0)
}
