// Networks and traces of texts.
ghost use Rattle.std.specs.Prelude.{IfOk};
ghost use Rattle.journals.specs.Journals.{IsTrace};
ghost use Rattle.transition_table.specs.Transitions.{AreDeterministic};

use input_files::{Inputs, network_in};
use net_core::Trace;
use polis_base::NoMemory;
use std::alloc::Global;
use trace_text::read_trace;
use transition_table::Network;

/// The network of a text that is accepted. Of any other text it is out of memory.
pub fn network_of(alloc: Global, text: &str) -> Result<Network, NoMemory>
    ensures { IfOk result (λ net. AreDeterministic net) }
{
    match network_in(alloc, text.as_bytes()) {
        Ok(net) => Ok(net),
        Err(_) => Err(NoMemory),
    }
}

/// The trace of a text that fits the network. Of any other text it is out of memory.
pub fn traced(alloc: Global, net: &Network, text: &str) -> Result<Trace, NoMemory>
    ensures { IfOk result (λ trace. IsTrace net.now trace) }
{
    match read_trace(alloc, net, text.as_bytes()) {
        Ok(trace) => Ok(trace),
        Err(_) => Err(NoMemory),
    }
}

/// A network and a trace of it, by their texts.
pub fn inputs_of(alloc: Global, net: &str, trace: &str) -> Result<Inputs, NoMemory>
    ensures fits { IfOk result (λ inputs. IsTrace inputs.net inputs.trace) }
    ensures deterministic { IfOk result (λ inputs. AreDeterministic inputs.net) }
{
    let net = network_of(alloc, net)?;
    let trace = traced(alloc, &net, trace)?;
    Ok(Inputs { net, trace })
}
