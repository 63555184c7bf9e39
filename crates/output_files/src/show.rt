// Showing the text of a call that wrote nothing.
ghost use Rattle.std.specs.Prelude.{◌≡◌};
ghost use Rattle.output_files.specs.Written.{LeftByText, ShowsFailure, no_memory_line};

use polis_base::{Host, NoMemory};
use polis_words::{Failure, Status, failure_text};
use std::alloc::Global;

/// Shows lines. Whether it could be shown isn't looked at.
pub fn show_lines<H: Host>(host: &mut H, text: &[u8])
    ensures { LeftByText ⟦<H as Host>⟧ text.now host.old host.new }
{
    let _ = host.show(text);
}

/// Shows that memory ran out.
pub fn no_memory<H: Host>(host: &mut H) -> Status
    ensures status { result ≡ Status.NoMemory }
    ensures left { LeftByText ⟦<H as Host>⟧ no_memory_line host.old host.new }
{
    show_lines(host, b"no memory\n");
    Status::NoMemory
}

/// Shows the text of a failure, and gives its status.
pub fn fail<H: Host>(alloc: Global, host: &mut H, failure: &Failure<'_>) -> Status
    ensures { ShowsFailure ⟦<H as Host>⟧ failure.now result host.old host.new }
{
    match failure_text(alloc, failure) {
        Ok(text) => {
            show_lines(host, text.as_slice());
            failure.status()
        }
        Err(NoMemory) => no_memory(host),
    }
}
