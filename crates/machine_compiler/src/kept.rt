// What is kept of the machines of a network, each compiled by itself.
ghost use Rattle.std.specs.Prelude.{IfOk};
ghost use Rattle.transition_table.specs.Transitions.{AreDeterministic};
ghost use Rattle.machine_compiler.specs.Kept.{AreCodes, AreGraphs};

use crate::compiled::Compiled;
use crate::compiling::compile_machine;
use crate::lines::push_lengths_line;
use polis_base::{Bytes, NoMemory};
use sgraph::GraphList;
use std::alloc::Global;
use task_code::CodeList;
use transition_table::Network;

/// The graphs of a network's compiled machines, in the order of their numbers.
#[derive(Drop)]
pub struct Graphs {
    /// The graphs.
    pub graphs: GraphList,
    /// A line for each machine: how many vertices and how many instructions it has.
    pub lengths: Bytes,
}

/// The codes of a network's compiled machines, in the order of their numbers. Nothing but its code
/// is kept of a machine while the next is compiled.
pub fn compile_codes(alloc: Global, net: &Network) -> Result<CodeList, NoMemory>
    requires { AreDeterministic net.now }
    ensures { IfOk result (AreCodes net.now) }
{
    let mut codes = CodeList::new(alloc);
    for k in 0..net.machines.len() {
        let Compiled { code, .. } = compile_machine(alloc, net.machines.get(k))?;
        codes.push(code)?;
    }
    Ok(codes)
}

/// The graphs of a network's compiled machines, and how large those are. Nothing but its graph is
/// kept of a machine while the next is compiled.
pub fn compile_graphs(alloc: Global, net: &Network) -> Result<Graphs, NoMemory>
    requires { AreDeterministic net.now }
    ensures { IfOk result (AreGraphs net.now) }
{
    let mut graphs = GraphList::new(alloc);
    let mut lengths = Bytes::new(alloc);
    for k in 0..net.machines.len() {
        let machine = net.machines.get(k);
        let part = compile_machine(alloc, machine)?;
        push_lengths_line(machine, &part, &mut lengths)?;
        let Compiled { graph, .. } = part;
        graphs.push(graph)?;
    }
    Ok(Graphs { graphs, lengths })
}
