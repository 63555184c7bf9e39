// The network, the trace and the monitor that a survey is of.
ghost use Rattle.std.specs.Prelude.{◌≡◌, is_some, IfOk, IfErr, IfSome};
ghost use Rattle.polis_base.specs.Host.{WhereTold};
ghost use Rattle.input_files.specs.Failures.{FilesFail};
ghost use Rattle.input_files.specs.Loads.{LeftByLoads, fails_unread};
ghost use Rattle.polis_cli.specs.Survey.{FailsSurvey, HoldsMonitorOf, HoldsSurvey};
ghost use Rattle.polis_cli.specs.inner.Survey.{FailsMonitorOf, IsLoadedSurvey, IsSureMonitor};

use commands::load_monitor;
use input_files::{Detail, Inputs, load_inputs};
use polis_base::Host;
use polis_words::{Failure, Survey};
use std::alloc::Global;
use transition_table::Network;

/// What the files of a survey say.
#[derive(Drop)]
pub struct SurveyInputs {
    /// The network and the trace.
    pub inputs: Inputs,
    /// The monitor that watches each run, where one is named.
    pub monitor: Option<Network>,
}

// Loads the monitor that a survey names, if it names one.
fn load_monitor_of<'a, H: Host>(
    alloc: Global,
    host: &mut H,
    net: &Network,
    asked: &'a Survey<'_>,
) -> Result<Option<Network>, Failure<'a>>
    ensures held { IfOk result (λ monitor. WhereTold (H.files host.old)
        (λ files. HoldsMonitorOf asked.now.monitor files net.now monitor)) }
    ensures fits { IfOk result (λ monitor. IfSome monitor (IsSureMonitor net.now)) }
    ensures named { IfOk result (λ monitor. is_some monitor ≡ is_some asked.now.monitor) }
    ensures failed { IfErr result (FilesFail (H.files host.old)
        (FailsMonitorOf asked.now.monitor net.now)) }
    ensures left { LeftByLoads ⟦<H as Host>⟧ (fails_unread result) host.old host.new }
{
    match asked.monitor() {
        None => Ok(None),
        Some(name) => match load_monitor(alloc, host, net, name) {
            Ok(monitor) => Ok(Some(monitor)),
            Err(failure) => Err(failure),
        },
    }
}

/// Loads and reads the network, then the trace, and then the monitor where one is named.
pub fn load_survey<'a, H: Host>(
    alloc: Global,
    host: &mut H,
    asked: &'a Survey<'_>,
) -> Result<SurveyInputs, Failure<'a>>
    ensures held { IfOk result (λ loaded. WhereTold (H.files host.old) (λ files.
        HoldsSurvey asked.now files loaded.inputs.net loaded.inputs.trace loaded.monitor)) }
    ensures fits { IfOk result (IsLoadedSurvey asked.now) }
    ensures failed { IfErr result (FilesFail (H.files host.old) (FailsSurvey asked.now)) }
    ensures left { LeftByLoads ⟦<H as Host>⟧ (fails_unread result) host.old host.new }
{
    let inputs = match load_inputs(alloc, host, asked.net(), asked.trace(), Detail::Cause) {
        Ok(inputs) => inputs,
        Err(failure) => return Err(failure),
    };
    match load_monitor_of(alloc, host, &inputs.net, asked) {
        Ok(monitor) => Ok(SurveyInputs { inputs, monitor }),
        Err(failure) => Err(failure),
    }
}
