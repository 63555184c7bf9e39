// The network and the trace that a call is of.
ghost use Rattle.std.specs.Prelude.{◌≡◌, IfOk, IfErr};
ghost use Rattle.polis_base.specs.declared.limits.TheConstants.{TEXT_MAX};
ghost use Rattle.polis_base.specs.Host.{WhereTold};
ghost use Rattle.journals.specs.Journals.{IsTrace};
ghost use Rattle.transition_table.specs.Transitions.{AreDeterministic};
ghost use Rattle.transition_table.specs.declared.network.Network.{Network};
ghost use Rattle.input_files.specs.Inputs.{HoldsNet, HoldsTrace, InputsFail};
ghost use Rattle.input_files.specs.Details.{explains_in};
ghost use Rattle.input_files.specs.Loads.{LeftByLoads, fails_unread};
ghost use Rattle.input_files.specs.Failures.{FilesExplained, NamesOneOf};

use crate::load::{Detail, load_net, load_trace};
use journals::Trace;
use polis_base::Host;
use polis_words::Failure;
use std::alloc::Global;
use transition_table::Network;

/// What a network text and a trace text say.
#[derive(Drop)]
pub struct Inputs {
    /// Each machine of it is deterministic.
    pub net: Network,
    /// It fits the network.
    pub trace: Trace,
}

/// Loads and reads the network, and then the trace.
pub fn load_inputs<'a, H: Host>(
    alloc: Global,
    host: &mut H,
    net_name: &'a str,
    trace_name: &'a str,
    detail: Detail,
) -> Result<Inputs, Failure<'a>>
    ensures held { IfOk result (λ inputs.
        WhereTold (H.files host.old) (λ files. HoldsNet files net_name.now inputs.net
        × HoldsTrace files trace_name.now inputs.net inputs.trace)) }
    ensures one { IfOk result (λ inputs.
        WhereTold (H.files host.old) (λ files. (other : Network) → HoldsNet files net_name.now other
        → other ≡ inputs.net)) }
    ensures fits { IfOk result (λ inputs. IsTrace inputs.net inputs.trace
        × AreDeterministic inputs.net) }
    ensures failed { IfErr result (λ failure.
        FilesExplained (H.files host.old) (λ files. InputsFail files net_name.now trace_name.now)
        (explains_in detail TEXT_MAX) failure) }
    ensures named { IfErr result (NamesOneOf net_name.now trace_name.now) }
    ensures left { LeftByLoads ⟦<H as Host>⟧ (fails_unread result) host.old host.new }
{
    let net = match load_net(alloc, host, net_name, detail) {
        Ok(net) => net,
        Err(failure) => return Err(failure),
    };
    match load_trace(alloc, host, &net, trace_name, detail) {
        Ok(trace) => Ok(Inputs { net, trace }),
        Err(failure) => Err(failure),
    }
}
