// The command `shuffle`: a run of a network on a trace that is drawn from a number.
ghost use Rattle.std.specs.Prelude.{◌≡◌, ◌≤◌, length, IfOk};
ghost use Rattle.polis_base.specs.declared.limits.TheConstants.{ENTRIES_MAX};
ghost use Rattle.journals.specs.Journals.{IsTrace};
ghost use Rattle.transition_table.specs.Transitions.{AreDeterministic};
ghost use Rattle.commands.specs.Shuffle.{IsDrawnRun, order_of, shuffle_meaning};
ghost use Rattle.commands.specs.inner.Shuffle.{IsDrawnProduct};
ghost use Rattle.input_files.specs.Loads.{LeftByLoads, fails_unread};
ghost use Rattle.commands.specs.Made.{IsMade};

use crate::run::{end_at, saves_of};
use crate::stamp::stamped_text;
use input_files::{Detail, Inputs, load_inputs};
use journal_text::print_outputs;
use output_files::Product;
use polis_base::{Host, NoMemory};
use polis_words::{Failure, GivenOrder, Shuffle, print_drawn};
use run_shuffle::{Finished, Order, shuffle};
use std::alloc::Global;
use transition_table::TableReactor;

/// The order that is asked for.
pub fn order_of(order: GivenOrder) -> Order
    ensures { result ≡ order_of order }
{
    match order {
        GivenOrder::Mixed => Order::Mixed,
        GivenOrder::Free => Order::Free,
        GivenOrder::Settled => Order::Settled,
        GivenOrder::Scheduled => Order::Scheduled,
    }
}

// Draws the run. Its reactions are made by reading the rows.
fn draw(alloc: Global, asked: &Shuffle<'_>, inputs: &Inputs) -> Result<Finished, NoMemory>
    requires trace { IsTrace inputs.now.net inputs.now.trace }
    requires deterministic { AreDeterministic inputs.now.net }
    ensures { IfOk result (λ finished. IsDrawnRun asked.now inputs.now.net inputs.now.trace
        finished.journal finished.complete) }
{
    run_shuffle::laws();
    let reactor = TableReactor::new(&inputs.net);
    let order = order_of(asked.order());
    let finished = shuffle(
        alloc,
        &reactor,
        &inputs.trace,
        asked.seed(),
        order,
        asked.limit(),
    )?;
    Ok(finished)
}

// The texts of a drawn run, and the end with which it is written.
fn product_of(
    alloc: Global,
    asked: &Shuffle<'_>,
    inputs: &Inputs,
    finished: &Finished,
) -> Result<Product, NoMemory>
    requires drawn { IsDrawnRun asked.now inputs.now.net inputs.now.trace finished.now.journal
        finished.now.complete }
    requires few { length finished.now.journal ≤ ENTRIES_MAX }
    ensures { IfOk result (IsDrawnProduct asked.now inputs.now.net inputs.now.trace) }
{
    let net = &inputs.net;
    let outputs = print_outputs(alloc, net, &finished.journal)?;
    let journal = stamped_text(alloc, inputs, &finished.journal, finished.complete)?;
    let shown = print_drawn(alloc, net, &finished.journal, finished.complete)?;
    let saves = saves_of(alloc, asked.stem(), outputs, journal, None)?;
    Ok(Product {
        saves,
        shown,
        end: end_at(finished.complete),
    })
}

// Draws the run, and makes its product.
fn product_drawn(alloc: Global, asked: &Shuffle<'_>, inputs: &Inputs) -> Result<Product, NoMemory>
    requires trace { IsTrace inputs.now.net inputs.now.trace }
    requires deterministic { AreDeterministic inputs.now.net }
    ensures { IfOk result (IsDrawnProduct asked.now inputs.now.net inputs.now.trace) }
{
    let _few = asked.limit();
    let finished = draw(alloc, asked, inputs)?;
    let product = product_of(alloc, asked, inputs, &finished)?;
    Ok(product)
}

/// What a drawn run makes of the files.
pub fn make_shuffle<'a, H: Host>(
    alloc: Global,
    host: &mut H,
    asked: &'a Shuffle<'_>,
) -> Result<Product, Failure<'a>>
    ensures made { IsMade (shuffle_meaning asked.now) (H.files host.old) result }
    ensures left { LeftByLoads ⟦<H as Host>⟧ (fails_unread result) host.old host.new }
{
    let inputs = match load_inputs(alloc, host, asked.net(), asked.trace(), Detail::Cause) {
        Ok(inputs) => inputs,
        Err(failure) => return Err(failure),
    };
    match product_drawn(alloc, asked, &inputs) {
        Ok(product) => Ok(product),
        Err(NoMemory) => Err(Failure::NoMemory),
    }
}
