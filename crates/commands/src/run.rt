// The command `run`: a network on a trace, and the texts of that run.
ghost use Rattle.std.specs.Prelude.{◌≡◌, ◌<◌, ◌∷◌, ◌++◌, codes, IfOk, OnOk};
ghost use Rattle.journals.specs.Journals.{IsTrace};
ghost use Rattle.commands.specs.Run.{IsRan, journal_of, end_of, run_meaning};
ghost use Rattle.input_files.specs.Loads.{LeftByLoads, fails_unread};
ghost use Rattle.commands.specs.Made.{IsMade};
ghost use Rattle.commands.specs.inner.Run.{AreOtherTexts, TasksFit, IsLoaded, IsProductOf, IsRunProduct, listed_under, executed};

use crate::run_inputs::{RunInputs, load_run};
use crate::run_result::{RunResult, run_alone, run_by};
use crate::stamp::stamped_text;
use crate::tasks::Tasks;
use crate::texts::{OtherTexts, other_texts, texts_by};
use event_buffer::Gate;
use input_files::Inputs;
use journal_text::print_outputs;
use machine_compiler::{compile_network, compile_network_by};
use output_files::{End, Product, Saving};
use polis_base::{Bytes, Host, List, NoMemory};
use polis_words::{Failure, Run};
use std::alloc::Global;
use std::sync::Wait;
use std::thread::Threads;

/// How a call ends with a journal that is complete, or with one that isn't.
pub fn end_at(complete: bool) -> End
    ensures { result ≡ end_of complete }
{
    if complete { End::Done } else { End::Limit }
}

// Appends the save of a listing, where there is one.
fn push_listing(
    alloc: Global,
    stem: &str,
    listing: Option<Bytes>,
    saves: &mut List<Saving>,
) -> Result<(), NoMemory>
    ensures { OnOk result (saves.new ≡ saves.old ++ listed_under stem.now listing) }
{
    match listing {
        Some(listing) => {
            let saving = Saving::new(alloc, stem, ".lst", listing)?;
            saves.push(saving)?;
            Ok(())
        }
        None => Ok(()),
    }
}

/// The saves of a run, in their order.
pub fn saves_of(
    alloc: Global,
    stem: &str,
    outputs: Bytes,
    journal: Bytes,
    listing: Option<Bytes>,
) -> Result<List<Saving>, NoMemory>
    ensures { IfOk result (λ saves. saves
        ≡ record { name = stem.now ++ codes ".out"; text = outputs }
        ∷ record { name = stem.now ++ codes ".jnl"; text = journal }
        ∷ listed_under stem.now listing) }
{
    let first = Saving::new(alloc, stem, ".out", outputs)?;
    let second = Saving::new(alloc, stem, ".jnl", journal)?;
    let mut saves = List::new(alloc);
    saves.push(first)?;
    saves.push(second)?;
    push_listing(alloc, stem, listing, &mut saves)?;
    Ok(saves)
}

// The product of these texts.
fn product_of(
    alloc: Global,
    asked: &Run<'_>,
    inputs: &Inputs,
    tasks: &Tasks<'_>,
    ran: &RunResult,
    journal: Bytes,
    others: OtherTexts,
) -> Result<Product, NoMemory>
    requires ran { IsRan asked.now.workers asked.now.limit inputs.now.net inputs.now.trace ran.now }
    requires journal { journal ≡ journal_of inputs.now.net ran.now }
    requires others { AreOtherTexts inputs.now.net (executed tasks.now) ran.now others }
    ensures { IfOk result (IsRunProduct asked.now inputs.now.net inputs.now.trace
        (executed tasks.now)) }
{
    let _ = tasks;
    let _ = inputs;
    let OtherTexts {
        outputs,
        listing,
        shown,
    } = others;
    let saves = saves_of(alloc, asked.stem(), outputs, journal, listing)?;
    Ok(Product {
        saves,
        shown,
        end: end_at(ran.complete),
    })
}

// Runs the network on the trace on this thread, and makes the texts of the run.
fn product_alone(
    alloc: Global,
    asked: &Run<'_>,
    inputs: &Inputs,
    tasks: &Tasks<'_>,
) -> Result<Product, NoMemory>
    requires one { asked.now.workers ≡ 1 }
    requires trace { IsTrace inputs.now.net inputs.now.trace }
    requires tasks { TasksFit inputs.now.net tasks.now }
    ensures { IfOk result (IsRunProduct asked.now inputs.now.net inputs.now.trace
        (executed tasks.now)) }
{
    let ran = run_alone(alloc, &tasks.reactor, &inputs.trace, asked.limit())?;
    let outputs = print_outputs(alloc, &inputs.net, &ran.journal)?;
    let others = other_texts(alloc, inputs, tasks, &ran, outputs)?;
    let journal = stamped_text(alloc, inputs, &ran.journal, ran.complete)?;
    product_of(alloc, asked, inputs, tasks, &ran, journal, others)
}

// Runs the network on the trace by so many workers, and makes the texts of the run.
fn product_by<T: Threads + Wait + Sync, G: Gate + Sync>(
    rt: &T,
    alloc: Global,
    asked: &Run<'_>,
    inputs: &Inputs,
    tasks: &Tasks<'_>,
    gate: &G,
) -> Result<Product, NoMemory>
    requires several { 1 < asked.now.workers }
    requires trace { IsTrace inputs.now.net inputs.now.trace }
    requires tasks { TasksFit inputs.now.net tasks.now }
    ensures { IfOk result (IsRunProduct asked.now inputs.now.net inputs.now.trace
        (executed tasks.now)) }
{
    let workers = asked.workers();
    let limit = asked.limit();
    let ran = run_by(
        rt,
        alloc,
        &tasks.reactor,
        &inputs.trace,
        workers,
        limit,
        gate,
    )?;
    let (journal, outputs) = texts_by(rt, alloc, inputs, &ran);
    let others = other_texts(alloc, inputs, tasks, &ran, outputs?)?;
    product_of(alloc, asked, inputs, tasks, &ran, journal?, others)
}

// Compiles the network where no image was loaded, and runs it by one worker.
fn run_loaded(alloc: Global, asked: &Run<'_>, loaded: RunInputs) -> Result<Product, NoMemory>
    requires one { asked.now.workers ≡ 1 }
    requires fits { IsLoaded loaded }
    ensures { IfOk result (IsProductOf asked.now loaded) }
{
    let RunInputs { inputs, image } = loaded;
    let net = &inputs.net;
    let tasks = match image {
        Some(image) => Tasks::of_image(net, image),
        None => Tasks::of_compiled(alloc, net, compile_network(alloc, net)?)?,
    };
    product_alone(alloc, asked, &inputs, &tasks)
}

// Compiles the network by so many workers where no image was loaded, and runs it by them.
fn run_loaded_by<T: Threads + Wait + Sync, G: Gate + Sync>(
    rt: &T,
    alloc: Global,
    asked: &Run<'_>,
    loaded: RunInputs,
    gate: &G,
) -> Result<Product, NoMemory>
    requires several { 1 < asked.now.workers }
    requires fits { IsLoaded loaded }
    ensures { IfOk result (IsProductOf asked.now loaded) }
{
    let RunInputs { inputs, image } = loaded;
    let net = &inputs.net;
    let tasks = match image {
        Some(image) => Tasks::of_image(net, image),
        None => {
            let compiled = compile_network_by(rt, alloc, net, asked.workers())?;
            Tasks::of_compiled(alloc, net, compiled)?
        }
    };
    product_by(rt, alloc, asked, &inputs, &tasks, gate)
}

/// What a run by one worker makes of the files.
pub fn make_run<'a, H: Host>(
    alloc: Global,
    host: &mut H,
    run: &'a Run<'_>,
) -> Result<Product, Failure<'a>>
    requires { run.now.workers ≡ 1 }
    ensures made { IsMade (run_meaning run.now) (H.files host.old) result }
    ensures left { LeftByLoads ⟦<H as Host>⟧ (fails_unread result) host.old host.new }
{
    let loaded = match load_run(alloc, host, run) {
        Ok(loaded) => loaded,
        Err(failure) => return Err(failure),
    };
    match run_loaded(alloc, run, loaded) {
        Ok(product) => Ok(product),
        Err(NoMemory) => Err(Failure::NoMemory),
    }
}

/// What a run by several workers makes of the files.
pub fn make_run_by<'a, T: Threads + Wait + Sync, H: Host, G: Gate + Sync>(
    rt: &T,
    alloc: Global,
    host: &mut H,
    run: &'a Run<'_>,
    gate: &G,
) -> Result<Product, Failure<'a>>
    requires { 1 < run.now.workers }
    ensures made { IsMade (run_meaning run.now) (H.files host.old) result }
    ensures left { LeftByLoads ⟦<H as Host>⟧ (fails_unread result) host.old host.new }
{
    let loaded = match load_run(alloc, host, run) {
        Ok(loaded) => loaded,
        Err(failure) => return Err(failure),
    };
    match run_loaded_by(rt, alloc, run, loaded, gate) {
        Ok(product) => Ok(product),
        Err(NoMemory) => Err(Failure::NoMemory),
    }
}
