// The deliveries of the environment.
ghost use Rattle.std.specs.Prelude.{◌≡◌, ◌<◌, ◌++◌, map, false, IfOk, OnOk, IsTrue};
ghost use Rattle.transition_table.specs.declared.decl.Party.TheVariants.{Env};
ghost use Rattle.journals.specs.Journals.{IsTrace, is_trace_item};
ghost use Rattle.journals.specs.Schedules.{item_deliveries, trace_deliveries};

use crate::state::Queue;
use journals::{Owed, Trace, TraceItem, add_deliveries};
use polis_base::{List, NoMemory};
use std::alloc::Global;
use transition_table::{Network, Party};

// Adds the deliveries that an item of the trace gives.
fn add_item(net: &Network, item: &TraceItem, owed: &mut List<Owed>) -> Result<(), NoMemory>
    requires { IsTrue (is_trace_item net.now item.now) }
    ensures { OnOk result (owed.new ≡ owed.old ++ item_deliveries net.now item.now) }
{
    match *item {
        TraceItem::Event { event, code } => add_deliveries(net, Party::Env, event, code, owed),
        TraceItem::Settle => Ok(()),
    }
}

// The deliveries of the environment, by item and then by receiver.
pub(crate) fn given_by_trace(alloc: Global, net: &Network, trace: &Trace) -> Result<Queue, NoMemory>
    requires { IsTrace net.now trace.now }
    ensures { IfOk result (λ owed.
        owed ≡ map (λ d. d.0) (trace_deliveries net.now false trace.now)) }
{
    let mut owed = List::new(alloc);
    for item in trace.as_slice() {
        add_item(net, item, &mut owed)?;
    }
    Ok(Queue::new(owed))
}
