// Running code.
ghost use Rattle.std.specs.Prelude.{◌≡◌, ◌≤◌, ℕ, List, length, replicate};
ghost use Rattle.transition_table.specs.declared.machine.Machine.{Machine};
ghost use Rattle.transition_table.specs.Transitions.{HasWidths};
ghost use Rattle.sgraph.specs.Walks.{outcome_with, width_of};
ghost use Rattle.task_code.specs.Codes.{goes_to, set_by, StepsOf, Exec};
ghost use Rattle.task_machine.specs.Running.{AreOfOne};
ghost use Rattle.task_machine.specs.inner.Running.{MayRun};

use domains::Codes;
use sgraph::set_result;
use task_code::{Code, Instr};
use transition_table::{Outcome, Snapshot};

// Sets every code to 0.
fn clear(codes: &mut Codes)
    ensures { codes.new ≡ replicate (length codes.old) 0 }
{
    for k in 0..codes.len() {
        codes.set(k, 0);
    }
}

// Makes an outcome blank.
fn make_blank(o: &mut Outcome)
    ensures next { length o.new.next ≡ length o.old.next }
    ensures outs { length o.new.outs ≡ length o.old.outs }
    ensures blank { o.new ≡ outcome_with (length o.old.next) (replicate (width_of o.old) 0) }
{
    o.fires = false;
    clear(&mut o.next);
    clear(&mut o.outs);
}

// Executes one instruction, and answers where it leads.
fn step(instr: &Instr, at: u64, count: u64, s: &Snapshot, o: &mut Outcome) -> Option<u64>
    requires { MayRun count s.now.codes (width_of o.old) at instr.now }
    ensures leads { result ≡ goes_to s.now.codes at instr.now }
    ensures next { length o.new.next ≡ length o.old.next }
    ensures outs { length o.new.outs ≡ length o.old.outs }
    ensures set { (codes : List ℕ) → length codes ≡ width_of o.old
        → o.old ≡ outcome_with (length o.old.next) codes
        → o.new ≡ outcome_with (length o.old.next) (set_by codes instr.now) }
{
    match instr {
        Instr::Test { var, targets } => {
            Some(*targets.get(u64::from(*s.codes.get(u64::from(*var)))))
        }
        Instr::Set { result, code } => {
            set_result(*result, *code, o);
            Some(at + 1)
        }
        Instr::Goto { target } => Some(*target),
        Instr::Halt => None,
    }
}

/// Makes an outcome blank, executes code from its first instruction to a halt, and answers how many
/// instructions that were, the halt included. It takes no memory, and can't be refused.
pub fn run(code: &Code, s: &Snapshot, o: &mut Outcome) -> u64
    requires { AreOfOne code.now s.now o.old }
    ensures outcome { (m : Machine) → HasWidths m o.old → o.new ≡ Exec m code.now s.now.codes }
    ensures widths { (m : Machine) → HasWidths m o.old → HasWidths m o.new }
    ensures steps { result ≡ StepsOf code.now s.now.codes }
    ensures few { result ≤ length code.now }
{
    make_blank(o);
    let count = code.len();
    let mut at = 0;
    let mut steps = 1;
    while let Some(next) = step(code.get(at), at, count, s, o) {
        at = next;
        steps += 1;
    }
    steps
}
