// The image of a file that is accepted.
ghost use Rattle.std.specs.Prelude.{◌≡◌, IfOk, IfErr, IfSome, IfNone};
ghost use Rattle.transition_table.specs.Transitions.{AreDeterministic};
ghost use Rattle.task_machine.specs.Tasks.{AreTasks};
ghost use Rattle.task_image.specs.Images.{codes_of};
ghost use Rattle.task_image.specs.Verifying.{Verifies};
ghost use Rattle.task_image.specs.declared.finding.Verify.{Verify};
ghost use Rattle.polis_words.specs.Lines.{cause_status};
ghost use Rattle.polis_base.specs.Host.{WhereTold};
ghost use Rattle.commands.specs.ImageFiles.{HoldsImage, ImageFails, IsImageFault, IsWrongText};
ghost use Rattle.input_files.specs.Failures.{FileFails};
ghost use Rattle.input_files.specs.Loads.{LeftByLoads, fails_unread};
ghost use Rattle.input_files.specs.Faults.{IfCause};
ghost use Rattle.commands.specs.inner.Image.{IsFittingImage, IsMisfit};

use input_files::{Detail, FileFault, load_text};
use polis_base::limits::LONG_FILE_MAX;
use polis_base::{Bytes, Host, NoMemory};
use polis_words::{Cause, Failure, Status, print_machine_snapshot};
use std::alloc::Global;
use task_image::{Image, ImageFault, Verify, decode, verify};
use transition_table::{Network, Snapshot};

// What is printed of the machine whose code is wrong, and the snapshot on which it is.
fn print_wrong(
    alloc: Global,
    image: &Image,
    net: &Network,
    machine: u32,
    snapshot: &Snapshot,
) -> Result<Bytes, NoMemory>
    requires { Verifies image.now net.now (Verify.Wrong machine snapshot.now) }
    ensures { IfOk result (λ text. IsWrongText net.now image.now text) }
{
    let machine = net.machines.get(u64::from(machine));
    match print_machine_snapshot(alloc, net, machine, snapshot) {
        Ok(text) => Ok(text),
        Err(NoMemory) => Err(NoMemory),
    }
}

// Why an image isn't accepted as one of a network.
fn fault_of(alloc: Global, image: &Image, net: &Network, found: Verify) -> Option<FileFault>
    requires { Verifies image.now net.now found }
    ensures fits { IfNone result (found ≡ Verify.Fits) }
    ensures failed { IfSome result (λ fault. IfCause fault (IsMisfit net.now image.now)) }
{
    match found {
        Verify::Fits => None,
        Verify::Shape { machine } => Some(FileFault::Cause(Cause::ImageShape { machine })),
        Verify::Wrong { machine, snapshot } => {
            Some(match print_wrong(alloc, image, net, machine, &snapshot) {
                Ok(text) => FileFault::Cause(Cause::ImageWrong { text }),
                Err(NoMemory) => FileFault::NoMemory,
            })
        }
    }
}

// The image of a file's bytes, each code of which gives the transition of the network's machine of
// its number.
fn image_in(alloc: Global, net: &Network, bytes: &[u8]) -> Result<Image, FileFault>
    requires { AreDeterministic net.now }
    ensures fits { IfOk result (IsFittingImage net.now bytes.now) }
    ensures tasks { IfOk result (λ image. AreTasks net.now (codes_of image)) }
    ensures failed { IfErr result (λ fault. IfCause fault (IsImageFault net.now bytes.now)) }
    ensures refused { IfErr result (λ fault. IfCause fault
        (λ cause. cause_status cause ≡ Status.Refused)) }
{
    let image = match decode(alloc, bytes) {
        Ok(image) => image,
        Err(ImageFault::Bad { place }) => {
            return Err(FileFault::Cause(Cause::ImageByte { place }));
        }
        Err(ImageFault::NoMemory) => return Err(FileFault::NoMemory),
    };
    match verify(alloc, &image, net) {
        Ok(found) => match fault_of(alloc, &image, net, found) {
            None => Ok(image),
            Some(fault) => Err(fault),
        },
        Err(NoMemory) => Err(FileFault::NoMemory),
    }
}

/// Loads and decodes an image, and checks it against a network.
pub fn load_image<'a, H: Host>(
    alloc: Global,
    host: &mut H,
    net: &Network,
    name: &'a str,
) -> Result<Image, Failure<'a>>
    requires { AreDeterministic net.now }
    ensures held { IfOk result (λ image.
        WhereTold (H.files host.old) (λ files. HoldsImage files name.now net.now image)) }
    ensures tasks { IfOk result (λ image. AreTasks net.now (codes_of image)) }
    ensures failed { IfErr result (λ failure.
        FileFails name.now (H.files host.old) (λ files. ImageFails files net.now name.now)
        failure) }
    ensures left { LeftByLoads ⟦<H as Host>⟧ (fails_unread result) host.old host.new }
{
    let bytes = match load_text(alloc, host, name, LONG_FILE_MAX, Detail::Cause) {
        Ok(bytes) => bytes,
        Err(failure) => return Err(failure),
    };
    match image_in(alloc, net, bytes.as_slice()) {
        Ok(image) => Ok(image),
        Err(FileFault::Cause(cause)) => Err(Failure::of(alloc, name, cause)),
        Err(FileFault::NoMemory) => Err(Failure::NoMemory),
    }
}
