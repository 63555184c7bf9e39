// The network, the trace and the image that a run is of.
ghost use Rattle.std.specs.Prelude.{IfOk, IfErr, IfSome};
ghost use Rattle.polis_base.specs.Host.{WhereTold};
ghost use Rattle.transition_table.specs.Transitions.{AreDeterministic};
ghost use Rattle.task_machine.specs.Tasks.{AreTasks};
ghost use Rattle.task_image.specs.Images.{codes_of};
ghost use Rattle.input_files.specs.Failures.{FilesFail};
ghost use Rattle.input_files.specs.Loads.{LeftByLoads, fails_unread};
ghost use Rattle.commands.specs.Run.{FailsRun};
ghost use Rattle.commands.specs.inner.Run.{HoldsImageOf, FailsImageOf, HoldsRun, IsLoaded};

use crate::image_file::load_image;
use input_files::{Detail, Inputs, load_inputs};
use polis_base::Host;
use polis_words::{Failure, Run};
use std::alloc::Global;
use task_image::Image;

/// What the files of a run say.
#[derive(Drop)]
pub struct RunInputs {
    /// The network and the trace.
    pub inputs: Inputs,
    /// The image whose code is run, where one is named; it fits the network.
    pub image: Option<Image>,
}

// Loads and checks the image that a run names, if it names one.
fn load_image_of<'a, H: Host>(
    alloc: Global,
    host: &mut H,
    inputs: &Inputs,
    run: &'a Run<'_>,
) -> Result<Option<Image>, Failure<'a>>
    requires { AreDeterministic inputs.now.net }
    ensures held { IfOk result (λ image. WhereTold (H.files host.old)
        (λ files. HoldsImageOf run.now.image files inputs.now.net image)) }
    ensures tasks { IfOk result (λ image.
        IfSome image (λ machines. AreTasks inputs.now.net (codes_of machines))) }
    ensures failed { IfErr result (FilesFail (H.files host.old)
        (FailsImageOf run.now.image inputs.now.net)) }
    ensures left { LeftByLoads ⟦<H as Host>⟧ (fails_unread result) host.old host.new }
{
    match run.image() {
        None => Ok(None),
        Some(name) => match load_image(alloc, host, &inputs.net, name) {
            Ok(image) => Ok(Some(image)),
            Err(failure) => Err(failure),
        },
    }
}

/// Loads and reads the network, then the trace, and then the image where one is named.
pub fn load_run<'a, H: Host>(
    alloc: Global,
    host: &mut H,
    run: &'a Run<'_>,
) -> Result<RunInputs, Failure<'a>>
    ensures held { IfOk result (λ loaded. WhereTold (H.files host.old) (HoldsRun run.now loaded)) }
    ensures fits { IfOk result IsLoaded }
    ensures failed { IfErr result (FilesFail (H.files host.old) (FailsRun run.now)) }
    ensures left { LeftByLoads ⟦<H as Host>⟧ (fails_unread result) host.old host.new }
{
    let inputs = match load_inputs(alloc, host, run.net(), run.trace(), Detail::Cause) {
        Ok(inputs) => inputs,
        Err(failure) => return Err(failure),
    };
    match load_image_of(alloc, host, &inputs, run) {
        Ok(image) => Ok(RunInputs { inputs, image }),
        Err(failure) => Err(failure),
    }
}
