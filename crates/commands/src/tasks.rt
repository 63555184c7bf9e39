// The code that a run executes.
ghost use Rattle.std.specs.Prelude.{◌≡◌, IfOk};
ghost use Rattle.transition_table.specs.Transitions.{AreDeterministic};
ghost use Rattle.task_machine.specs.Tasks.{AreTasks};
ghost use Rattle.machine_compiler.specs.Parts.{AreRightParts, parts_of};
ghost use Rattle.task_image.specs.Images.{codes_of as code_of_image};
ghost use Rattle.commands.specs.Run.{Compiled, Given};
ghost use Rattle.commands.specs.inner.Run.{TasksFit, executed};

use machine_compiler::{CompiledList, codes_of};
use polis_base::NoMemory;
use std::alloc::Global;
use task_image::Image;
use task_machine::TaskReactor;
use transition_table::Network;

/// Code for each machine of a network, and what else is kept of machines that were compiled.
#[derive(Drop)]
pub struct Tasks<'a> {
    /// Reacts by running the code.
    pub reactor: TaskReactor<'a>,
    /// What was compiled; None where the code is an image's.
    pub compiled: Option<CompiledList>,
}

impl<'a> Tasks<'a> {
    /// The code of the compiled machines of a network.
    pub fn of_compiled(
        alloc: Global,
        net: &'a Network,
        compiled: CompiledList,
    ) -> Result<Tasks<'a>, NoMemory>
        requires deterministic { AreDeterministic net.now }
        requires right { AreRightParts net.now (parts_of compiled) }
        ensures of_network { IfOk result (TasksFit net.now) }
        ensures tasks { IfOk result (λ tasks. executed tasks ≡ Compiled (parts_of compiled)) }
    {
        let codes = codes_of(alloc, &compiled)?;
        Ok(Tasks {
            reactor: TaskReactor::new(net, codes),
            compiled: Some(compiled),
        })
    }

    /// The code of an image that fits the network. It takes no memory.
    pub fn of_image(net: &'a Network, image: Image) -> Tasks<'a>
        requires deterministic { AreDeterministic net.now }
        requires tasks { AreTasks net.now (code_of_image image) }
        ensures of_network { TasksFit net.now result }
        ensures tasks { executed result ≡ Given (code_of_image image) }
    {
        Tasks {
            reactor: TaskReactor::new(net, image.into_codes()),
            compiled: None,
        }
    }
}
