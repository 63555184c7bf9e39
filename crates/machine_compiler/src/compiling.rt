// Compiling machines.
ghost use Rattle.std.specs.Prelude.{◌≡◌, ◌<◌, ◌^◌, ℕ, length, IfOk};
ghost use Rattle.transition_table.specs.Orders.{Allowed};
ghost use Rattle.transition_table.specs.Transitions.{AreDeterministic, IsDeterministic};
ghost use Rattle.sgraph.specs.declared.vertex.Vertex.TheVariants.{Assign};
ghost use Rattle.sgraph.specs.Facts.{IsGraph};
ghost use Rattle.sgraph.specs.Reactions.{IsGraphOf};
ghost use Rattle.sgraph_opt.specs.Smaller.{NoDefaults};
ghost use Rattle.char_function.specs.Roots.{IsDiagramOf};
ghost use Rattle.machine_compiler.specs.Parts.{AreRightParts, AssignsBytes, IsRightPart, part_of_compiled, parts_of};

use crate::compiled::{Compiled, CompiledList};
use decision_diagram::{Order, Root};
use order_sift::{SiftedDiagram, sift_diagram};
use polis_base::NoMemory;
use sgraph::{Graph, Vertex, build};
use sgraph_opt::optimise;
use std::alloc::Global;
use task_code::lower;
use transition_table::{Machine, Network};

// The machine's diagram under the order as a graph. The diagram is dropped.
fn graph_of(alloc: Global, m: &Machine, root: Root, order: &Order) -> Result<Graph, NoMemory>
    requires sure { IsDeterministic m.now }
    requires allowed { Allowed m.now order.now }
    requires diagram { IsDiagramOf m.now order.now root.store root.node }
    ensures { IfOk result (λ g. IsGraphOf m.now order.now g) }
{
    let graph = build(alloc, m, &root, order)?;
    Ok(graph)
}

// The same, and that graph made smaller.
fn small_graph(alloc: Global, m: &Machine, root: Root, order: &Order) -> Result<Graph, NoMemory>
    requires sure { IsDeterministic m.now }
    requires allowed { Allowed m.now order.now }
    requires diagram { IsDiagramOf m.now order.now root.store root.node }
    ensures of_machine { IfOk result (λ g. IsGraphOf m.now order.now g) }
    ensures defaults { IfOk result (λ g. NoDefaults g) }
{
    let graph = graph_of(alloc, m, root, order)?;
    let small = optimise(alloc, &graph)?;
    Ok(small)
}

// The code that a vertex assigns is a byte, as it is kept.
fn keep_byte(v: &Vertex)
    ensures { (y code next : ℕ) → v.now ≡ Assign y code next → code < 256 }
{
    if let Vertex::Assign { code, .. } = v {
        let _byte = *code;
    }
}

// What a graph keeps, and that the codes that it assigns are bytes.
fn keep_graph(g: &Graph)
    ensures graph { IsGraph g.now }
    ensures few { length g.now < 2 ^ 63 }
    ensures bytes { AssignsBytes g.now }
{
    for k in 0..g.len() {
        keep_byte(g.get(k));
    }
}

/// The order, the graph and the code of a machine: its diagram under the sifted order becomes a
/// graph, the graph is made smaller, and that one is laid out as code.
pub fn compile_machine(alloc: Global, m: &Machine) -> Result<Compiled, NoMemory>
    requires { IsDeterministic m.now }
    ensures { IfOk result (λ compiled. IsRightPart m.now (part_of_compiled compiled)) }
{
    let SiftedDiagram { sifted, root } = sift_diagram(alloc, m)?;
    let graph = small_graph(alloc, m, root, &sifted.order)?;
    let code = lower(alloc, &graph)?;
    keep_graph(&graph);
    let _ = code.len();
    task_machine::laws();
    Ok(Compiled {
        sifted,
        graph,
        code,
    })
}

/// All machines of a network, compiled in the order of their numbers.
pub fn compile_network(alloc: Global, net: &Network) -> Result<CompiledList, NoMemory>
    requires { AreDeterministic net.now }
    ensures { IfOk result (λ compiled. AreRightParts net.now (parts_of compiled)) }
{
    let mut compiled = CompiledList::new(alloc);
    for k in 0..net.machines.len() {
        let part = compile_machine(alloc, net.machines.get(k))?;
        compiled.push(part)?;
    }
    Ok(compiled)
}
