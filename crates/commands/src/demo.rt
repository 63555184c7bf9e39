// The command `demo`: a network and a trace that are drawn from a seed, and their run.
ghost use Rattle.std.specs.Prelude.{◌≡◌, false, IfOk, Option};
ghost use Rattle.polis_base.specs.Host.{Files};
ghost use Rattle.journals.specs.Journals.{IsTrace};
ghost use Rattle.net_reader.specs.Layout.{network_text};
ghost use Rattle.net_gen.specs.Networks.{network};
ghost use Rattle.net_gen.specs.Traces.{trace_text};
ghost use Rattle.net_gen.specs.Whole.{AreWhole};
ghost use Rattle.commands.specs.Demo.{IsDrawn, MakesDemo, demo_meaning};
ghost use Rattle.commands.specs.inner.Demo.{RunsWhole};
ghost use Rattle.input_files.specs.Loads.{fails_unread};
ghost use Rattle.commands.specs.Made.{IsMade};

use crate::run_result::run_alone;
use crate::tasks::Tasks;
use crate::texts::shown_text;
use input_files::{FileFault, Inputs, network_in};
use machine_compiler::compile_network;
use net_gen::{Generated, generate};
use output_files::Product;
use polis_base::NoMemory;
use polis_base::limits::ENTRIES_MAX;
use polis_words::{Demo, Failure};
use std::alloc::Global;
use trace_text::{TraceFault, read_trace};

// Reads the texts of a seed. What is drawn is accepted, so only memory may run out.
fn read_drawn(alloc: Global, seed: u64, texts: &Generated) -> Result<Inputs, NoMemory>
    requires net { texts.now.net ≡ network_text (network seed) }
    requires trace { texts.now.trace ≡ trace_text seed }
    requires whole { AreWhole texts.now.net texts.now.trace }
    ensures drawn { IfOk result (λ inputs. IsDrawn seed inputs.net inputs.trace) }
    ensures fits { IfOk result (λ inputs. IsTrace inputs.net inputs.trace) }
    ensures whole { IfOk result (λ inputs. RunsWhole inputs.net inputs.trace) }
{
    let net = match network_in(alloc, texts.net.as_slice()) {
        Ok(net) => net,
        Err(FileFault::Cause(_)) => unreachable!(),
        Err(FileFault::NoMemory) => return Err(NoMemory),
    };
    match read_trace(alloc, &net, texts.trace.as_slice()) {
        Ok(trace) => Ok(Inputs { net, trace }),
        Err(TraceFault::Line { .. }) => unreachable!(),
        Err(TraceFault::NoMemory) => Err(NoMemory),
    }
}

// Runs what is drawn to its end, and makes the text that is shown of it.
fn product_of(alloc: Global, asked: &Demo, inputs: &Inputs) -> Result<Product, NoMemory>
    requires drawn { IsDrawn asked.now.seed inputs.now.net inputs.now.trace }
    requires trace { IsTrace inputs.now.net inputs.now.trace }
    requires whole { RunsWhole inputs.now.net inputs.now.trace }
    ensures { IfOk result (λ product. MakesDemo asked.now product) }
{
    let compiled = compile_network(alloc, &inputs.net)?;
    let tasks = Tasks::of_compiled(alloc, &inputs.net, compiled)?;
    let ran = run_alone(alloc, &tasks.reactor, &inputs.trace, ENTRIES_MAX)?;
    let shown = shown_text(alloc, inputs, &tasks, &ran)?;
    Ok(Product::showing(alloc, shown))
}

// What is drawn from a seed.
fn drawn(alloc: Global, seed: u64) -> Result<Inputs, NoMemory>
    ensures drawn { IfOk result (λ inputs. IsDrawn seed inputs.net inputs.trace) }
    ensures fits { IfOk result (λ inputs. IsTrace inputs.net inputs.trace) }
    ensures whole { IfOk result (λ inputs. RunsWhole inputs.net inputs.trace) }
{
    let texts = generate(alloc, seed)?;
    let inputs = read_drawn(alloc, seed, &texts)?;
    Ok(inputs)
}

// The product of what is drawn from the seed.
fn product_of_seed(alloc: Global, asked: &Demo) -> Result<Product, NoMemory>
    ensures { IfOk result (λ product. MakesDemo asked.now product) }
{
    let inputs = drawn(alloc, asked.seed())?;
    let product = product_of(alloc, asked, &inputs)?;
    Ok(product)
}

/// What a demo makes, whatever files there are. Only memory may run out.
pub fn make_demo<'a>(alloc: Global, asked: &'a Demo) -> Result<Product, Failure<'a>>
    ensures made { (told : Option Files) → IsMade (demo_meaning asked.now) told result }
    ensures unread { fails_unread result ≡ false }
{
    match product_of_seed(alloc, asked) {
        Ok(product) => Ok(product),
        Err(NoMemory) => Err(Failure::NoMemory),
    }
}
