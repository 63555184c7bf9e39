// Compiled machines.
ghost use Rattle.std.specs.Prelude.{◌≡◌, IfOk};
ghost use Rattle.transition_table.specs.declared.network.Network.{Network};
ghost use Rattle.task_machine.specs.Tasks.{AreTasks};
ghost use Rattle.machine_compiler.specs.Parts.{AreRightParts, codes_in, parts_of};

use order_sift::Sifted;
use polis_base::{Duplicate, List, NoMemory};
use sgraph::Graph;
use std::alloc::Global;
use task_code::{Code, CodeList};

/// A compiled machine.
#[derive(Drop)]
pub struct Compiled {
    /// The order of its variables and results, and the sizes of its diagrams.
    pub sifted: Sifted,
    /// The graph of its reaction.
    pub graph: Graph,
    /// The graph as code.
    pub code: Code,
}

/// The compiled machines of a network, in the order of their numbers.
pub type CompiledList = List<Compiled>;

/// Copies of the codes, in order.
pub fn codes_of(alloc: Global, compiled: &CompiledList) -> Result<CodeList, NoMemory>
    ensures codes { IfOk result (λ codes. codes ≡ codes_in (parts_of compiled.now)) }
    ensures tasks { (net : Network) → AreRightParts net (parts_of compiled.now)
        → IfOk result (λ codes. AreTasks net codes) }
{
    let mut codes = CodeList::new(alloc);
    for k in 0..compiled.len() {
        let code = compiled.get(k).code.copy()?;
        codes.push(code)?;
    }
    Ok(codes)
}
