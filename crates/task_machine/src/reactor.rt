// A reactor that runs code.
ghost use Rattle.std.specs.Prelude.{◌≡◌, ◌<◌, length, slice_get, Some};
ghost use Rattle.transition_table.specs.Transitions.{AreDeterministic};
ghost use Rattle.transition_table.specs.declared.machine.Machine.{Machine};
ghost use Rattle.task_machine.specs.Running.{CodeFits};
ghost use Rattle.task_machine.specs.Tasks.{AreTasks, GiveOutcomes};

use crate::running::run;
use task_code::{Code, CodeList};
use transition_table::{Network, Outcome, Reactor, Snapshot, laws_of_computing};

/// Reacts by running code, one for each machine.
#[derive(Drop)]
pub struct TaskReactor<'a> {
    net: &'a Network,
    codes: CodeList,
    ghost deterministic: { AreDeterministic net.now },
    ghost tasks: { GiveOutcomes net.now codes },
}

impl<'a> TaskReactor<'a> {
    /// A reactor over a network, each machine of which is deterministic, with code for each machine
    /// that gives its transition. It takes no memory.
    pub fn new(net: &'a Network, codes: CodeList) -> TaskReactor<'a>
        requires deterministic { AreDeterministic net.now }
        requires tasks { AreTasks net.now codes }
        ensures meaning { ⟦<TaskReactor<'a> as Reactor>⟧.meaning result ≡ net.now }
        ensures codes { result.codes ≡ codes }
    {
        laws_of_computing();
        TaskReactor { net, codes }
    }

    /// The code of a machine.
    pub fn code(&self, m: u32) -> &Code
        requires { m < length self.now.net.now.machines }
        ensures is { slice_get self.now.codes m ≡ Some result.now }
        ensures fits { (machine : Machine) → slice_get self.now.net.now.machines m ≡ Some machine
            → CodeFits machine result.now }
    {
        self.codes.get(u64::from(m))
    }
}

// Takes what threads may share.
fn shared<T: Sync>(_: &T) {}

// Threads may share a reactor. No clause says so: this call needs the type to be `Sync`.
fn are_shared(reactor: &TaskReactor) {
    shared(reactor);
}

impl Reactor for TaskReactor<'_> {
    ghost meaning = { λ r. r.net.now };

    ghost deterministic = { λ r. r.deterministic };

    fn network(&self) -> &Network {
        self.net
    }

    fn react(&self, m: u32, s: &Snapshot, o: &mut Outcome) {
        laws_of_computing();
        run(self.codes.get(u64::from(m)), s, o);
    }
}
