// The texts of a seed.
ghost use Rattle.std.specs.Prelude.{◌≡◌, IfOk};
ghost use Rattle.net_reader.specs.Layout.{network_text};
ghost use Rattle.net_reader.specs.Places.{Declares};
ghost use Rattle.net_gen.specs.Networks.{network};
ghost use Rattle.net_gen.specs.Traces.{trace_text};
ghost use Rattle.net_gen.specs.Whole.{AreWhole};

use crate::law::whole_laws;
use crate::network::ring;
use crate::trace::ticks;
use net_reader::print_network;
use polis_base::{Bytes, Draws, NoMemory};
use std::alloc::Global;

/// A network text and a text of a trace of that network.
#[derive(Drop)]
pub struct Generated {
    /// The network text, in the printed layout.
    pub net: Bytes,
    /// The trace text.
    pub trace: Bytes,
}

/// The texts of a seed: a ring of 24 to 48 machines, and 2,000 ticks of them. The same seed gives
/// the same texts.
pub fn generate(alloc: Global, seed: u64) -> Result<Generated, NoMemory>
    ensures net { IfOk result (λ made. made.net ≡ network_text (network seed)) }
    ensures trace { IfOk result (λ made. made.trace ≡ trace_text seed) }
    ensures declares { IfOk result (λ made. Declares made.net (network seed)) }
    ensures whole { IfOk result (λ made. AreWhole made.net made.trace) }
{
    let mut draws = Draws { x: seed };
    let count = 24 + draws.draw(25);
    let declared = ring(alloc, count, &mut draws)?;
    let net = print_network(alloc, &declared)?;
    let trace = ticks(alloc, count, &mut draws)?;
    whole_laws();
    Ok(Generated { net, trace })
}
