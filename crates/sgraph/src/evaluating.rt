// Walking through a graph.
ghost use Rattle.std.specs.Prelude.{◌≡◌, ◌+◌, ◌<◌, ℕ, List, length, slice_set};
ghost use Rattle.transition_table.specs.declared.machine.Machine.{Machine};
ghost use Rattle.transition_table.specs.Transitions.{HasWidths};
ghost use Rattle.sgraph.specs.Graphs.{next_of, assign, Eval};
ghost use Rattle.sgraph.specs.Walks.{AreOfOne, outcome_with, width_of};
ghost use Rattle.sgraph.specs.inner.Walks.{MayWalk};

use crate::graph::Graph;
use crate::vertex::Vertex;
use transition_table::{Outcome, Snapshot};

/// Gives a result of an outcome a code: result 0 is whether it fires, then come the state variables,
/// then the outputs.
pub fn set_result(y: u32, code: u8, o: &mut Outcome)
    requires { y < width_of o.old }
    ensures next { length o.new.next ≡ length o.old.next }
    ensures outs { length o.new.outs ≡ length o.old.outs }
    ensures set { (codes : List ℕ) → length codes ≡ width_of o.old
        → o.old ≡ outcome_with (length o.old.next) codes
        → o.new ≡ outcome_with (length o.old.next) (slice_set codes y code) }
{
    if y == 0 {
        o.fires = code == 1;
        return;
    }
    let k = u64::from(y) - 1;
    let states = o.next.len();
    if k < states {
        o.next.set(k, code);
    } else {
        o.outs.set(k - states, code);
    }
}

// Does what one vertex says, and answers where the walk goes on.
fn step(v: &Vertex, at: u64, count: u64, s: &Snapshot, o: &mut Outcome) -> Option<u64>
    requires { MayWalk count s.now.codes (width_of o.old) at v.now }
    ensures leads { result ≡ next_of s.now.codes at v.now }
    ensures next { length o.new.next ≡ length o.old.next }
    ensures outs { length o.new.outs ≡ length o.old.outs }
    ensures set { (codes : List ℕ) → length codes ≡ width_of o.old
        → o.old ≡ outcome_with (length o.old.next) codes
        → o.new ≡ outcome_with (length o.old.next) (assign codes v.now) }
{
    match v {
        Vertex::Begin { next } => Some(*next),
        Vertex::Test { var, kids } => { Some(*kids.get(u64::from(*s.codes.get(u64::from(*var))))) }
        Vertex::Assign { result, code, next } => {
            set_result(*result, *code, o);
            Some(*next)
        }
        Vertex::End => None,
    }
}

/// Walks from the begin to the end on a snapshot, and writes the codes that the walk assigns into a
/// blank outcome. It takes no memory.
pub fn evaluate(g: &Graph, s: &Snapshot, o: &mut Outcome)
    requires { AreOfOne g.now s.now o.old }
    ensures { (m : Machine) → HasWidths m o.old → o.new ≡ Eval m g.now s.now.codes }
{
    let count = g.len();
    let mut at = 0;
    while let Some(next) = step(g.get(at), at, count, s, o) {
        at = next;
    }
}
