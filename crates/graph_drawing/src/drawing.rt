// Drawings.
ghost use Rattle.std.specs.Prelude.{◌≡◌, ◌++◌, length, OnOk, OnErr};
ghost use Rattle.graph_drawing.specs.Drawings.{DrawingText, graphs_text};

use crate::graph_text::push_graph;
use crate::network_text::push_network;
use polis_base::{Bytes, NoMemory};
use sgraph::GraphList;
use transition_table::Network;

// The drawings of the graphs.
fn push_graphs(net: &Network, graphs: &GraphList, into: &mut Bytes) -> Result<(), NoMemory>
    requires { length graphs.now ≡ length net.now.machines }
    ensures { OnOk result (into.new ≡ into.old
        ++ graphs_text net.now net.now.machines graphs.now) }
{
    for m in 0..graphs.len() {
        push_graph(net, net.machines.get(m), graphs.get(m), into)?;
    }
    Ok(())
}

/// Appends a drawing of a network and of the graph of each of its machines, in DOT.
pub fn push_drawing(net: &Network, graphs: &GraphList, into: &mut Bytes) -> Result<(), NoMemory>
    requires { length graphs.now ≡ length net.now.machines }
    ensures ok { OnOk result (into.new ≡ into.old ++ DrawingText net.now graphs.now) }
    ensures err { OnErr result (into.new ≡ into.old) }
{
    let mut text = into.beside();
    push_network(net, &mut text)?;
    push_graphs(net, graphs, &mut text)?;
    into.push(text.as_slice())
}
