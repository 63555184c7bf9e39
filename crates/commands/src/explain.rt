// The command `explain`: where and why a file is refused, or a journal isn't legal.
ghost use Rattle.commands.specs.Explain.{explain_meaning, explain_trace_meaning};
ghost use Rattle.input_files.specs.Loads.{LeftByLoads, fails_unread};
ghost use Rattle.commands.specs.Made.{IsMade};

use crate::check::make_check;
use crate::replay::make_replay;
use input_files::{Detail, load_inputs};
use output_files::Product;
use polis_base::{Host, NoMemory};
use polis_words::{Explain, Failure, NetTrace, print_items};
use std::alloc::Global;

// What an explanation of two files makes.
fn make_explain_trace<'a, H: Host>(
    alloc: Global,
    host: &mut H,
    asked: &'a NetTrace<'_>,
) -> Result<Product, Failure<'a>>
    ensures made { IsMade (explain_trace_meaning asked.now) (H.files host.old) result }
    ensures left { LeftByLoads ⟦<H as Host>⟧ (fails_unread result) host.old host.new }
{
    let inputs = match load_inputs(alloc, host, asked.net(), asked.trace(), Detail::Explained) {
        Ok(inputs) => inputs,
        Err(failure) => return Err(failure),
    };
    match print_items(alloc, inputs.trace.len()) {
        Ok(shown) => Ok(Product::showing(alloc, shown)),
        Err(NoMemory) => Err(Failure::NoMemory),
    }
}

/// What an explanation makes of the files.
pub fn make_explain<'a, H: Host>(
    alloc: Global,
    host: &mut H,
    explain: &'a Explain<'_>,
) -> Result<Product, Failure<'a>>
    ensures made { IsMade (explain_meaning explain.now) (H.files host.old) result }
    ensures left { LeftByLoads ⟦<H as Host>⟧ (fails_unread result) host.old host.new }
{
    match explain {
        Explain::Net(check) => make_check(alloc, host, check, Detail::Explained),
        Explain::Trace(asked) => make_explain_trace(alloc, host, asked),
        Explain::Journal(asked) => make_replay(alloc, host, asked, Detail::Explained),
    }
}
