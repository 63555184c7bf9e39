// The monitor of a file that is accepted.
ghost use Rattle.std.specs.Prelude.{IfOk, IfErr};
ghost use Rattle.polis_base.specs.Host.{WhereTold};
ghost use Rattle.transition_table.specs.Transitions.{AreDeterministic};
ghost use Rattle.run_watch.specs.Monitors.{IsMonitor};
ghost use Rattle.input_files.specs.Failures.{FileFails};
ghost use Rattle.input_files.specs.Loads.{LeftByLoads, fails_unread};
ghost use Rattle.commands.specs.Monitors.{HoldsMonitor, MonitorFails};

use input_files::{Detail, load_net};
use polis_base::Host;
use polis_words::{Cause, Failure};
use run_watch::is_monitor;
use std::alloc::Global;
use transition_table::Network;

/// Loads and reads a network text, whose network is a monitor of this one.
pub fn load_monitor<'a, H: Host>(
    alloc: Global,
    host: &mut H,
    net: &Network,
    name: &'a str,
) -> Result<Network, Failure<'a>>
    ensures held { IfOk result (λ monitor.
        WhereTold (H.files host.old) (λ files. HoldsMonitor files name.now net.now monitor)) }
    ensures fits { IfOk result (λ monitor. IsMonitor net.now monitor) }
    ensures deterministic { IfOk result (λ monitor. AreDeterministic monitor) }
    ensures failed { IfErr result (λ failure.
        FileFails name.now (H.files host.old) (λ files. MonitorFails files net.now name.now)
        failure) }
    ensures left { LeftByLoads ⟦<H as Host>⟧ (fails_unread result) host.old host.new }
{
    let monitor = match load_net(alloc, host, name, Detail::Cause) {
        Ok(monitor) => monitor,
        Err(failure) => return Err(failure),
    };
    if !is_monitor(net, &monitor) {
        return Err(Failure::of(alloc, name, Cause::OtherShape));
    }
    Ok(monitor)
}
