// The calls that do the program's work.
ghost use Rattle.std.specs.Prelude.{◌≡◌, ◌<◌};
ghost use Rattle.polis_words.specs.Workers.{NeedsWorkers, workers_of};
ghost use Rattle.polis_cli.specs.Commands.{meaning};
ghost use Rattle.polis_cli.specs.Promise.{Answers, Leaves, told};
ghost use Rattle.polis_cli.specs.inner.Left.{LeftByEnding};
ghost use Rattle.input_files.specs.Loads.{LeftByLoads, fails_unread};
ghost use Rattle.commands.specs.Made.{IsMade};

use crate::survey::{make_survey, make_survey_by};
use commands::{
    make_bound, make_chart, make_demo, make_equiv, make_explain, make_from_journal, make_from_net,
    make_on_journal, make_on_net, make_replay, make_run, make_run_by, make_shuffle, make_watch,
};
use event_buffer::Gate;
use input_files::Detail;
use output_files::{Product, fail, show_lines, write_product};
use polis_base::{Host, Words};
use polis_words::{Failure, Request, Status, needs_workers, request_of};
use std::alloc::Global;
use std::sync::Wait;
use std::thread::Threads;

// What a request that needs no other thread makes of the files.
fn make<'a, H: Host>(
    alloc: Global,
    host: &mut H,
    request: &'a Request<'_>,
) -> Result<Product, Failure<'a>>
    requires { workers_of request.now ≡ 1 }
    ensures made { IsMade (meaning request.now) (H.files host.old) result }
    ensures left { LeftByLoads ⟦<H as Host>⟧ (fails_unread result) host.old host.new }
{
    match request {
        Request::Run(run) => make_run(alloc, host, run),
        Request::OnNet(kind, asked) => make_on_net(alloc, host, *kind, asked, Detail::Cause),
        Request::FromNet(kind, asked) => make_from_net(alloc, host, *kind, asked),
        Request::Replay(replay) => make_replay(alloc, host, replay, Detail::Cause),
        Request::OnJournal(kind, asked) => make_on_journal(alloc, host, *kind, asked),
        Request::FromJournal(kind, asked) => make_from_journal(alloc, host, *kind, asked),
        Request::Demo(demo) => make_demo(alloc, demo),
        Request::Bound(bound) => make_bound(alloc, host, bound),
        Request::Equiv(equiv) => make_equiv(alloc, host, equiv),
        Request::Explain(explain) => make_explain(alloc, host, explain),
        Request::Shuffle(shuffle) => make_shuffle(alloc, host, shuffle),
        Request::Watch(watch) => make_watch(alloc, host, watch),
        Request::Survey(survey) => make_survey(alloc, host, survey),
        Request::Chart(chart) => make_chart(alloc, host, chart),
    }
}

// What a request that needs several workers makes of the files, by as many as it asks for.
fn make_by<'a, T: Threads + Wait + Sync, H: Host, G: Gate + Sync>(
    rt: &T,
    alloc: Global,
    host: &mut H,
    request: &'a Request<'_>,
    gate: &G,
) -> Result<Product, Failure<'a>>
    requires { 1 < workers_of request.now }
    ensures made { IsMade (meaning request.now) (H.files host.old) result }
    ensures left { LeftByLoads ⟦<H as Host>⟧ (fails_unread result) host.old host.new }
{
    match request {
        Request::Run(run) => make_run_by(rt, alloc, host, run, gate),
        Request::Survey(survey) => make_survey_by(rt, alloc, host, survey),
        _ => unreachable!(),
    }
}

// Writes what was made, or shows why nothing was.
fn end<H: Host>(alloc: Global, host: &mut H, made: &Result<Product, Failure<'_>>) -> Status
    ensures { LeftByEnding ⟦<H as Host>⟧ made.now result host.old host.new }
{
    match made {
        Ok(product) => write_product(host, product),
        Err(failure) => fail(alloc, host, failure),
    }
}

/// Does what the command line asks for on the calling thread alone, where it asks for no more than
/// one worker.
pub fn serial<H: Host>(alloc: Global, words: &Words, host: &mut H) -> Status
    requires { ¬ NeedsWorkers words.now }
    ensures answers { Answers result words.now
        (told ⟦<H as Host>⟧ host.old) (told ⟦<H as Host>⟧ host.new) }
    ensures leaves { Leaves result words.now
        (told ⟦<H as Host>⟧ host.old) (told ⟦<H as Host>⟧ host.new) }
{
    match request_of(words) {
        Some(request) => {
            let made = make(alloc, host, &request);
            end(alloc, host, &made)
        }
        None => {
            show_lines(host, b"usage\n");
            Status::Usage
        }
    }
}

/// Does what the command line asks for. A run by several workers takes threads and waits for locks,
/// and calls the gate as machines react; a survey by several takes threads. Any other request is what
/// `serial` does.
pub fn polis<T: Threads + Wait + Sync, H: Host, G: Gate + Sync>(
    rt: &T,
    alloc: Global,
    words: &Words,
    host: &mut H,
    gate: &G,
) -> Status
    ensures answers { Answers result words.now
        (told ⟦<H as Host>⟧ host.old) (told ⟦<H as Host>⟧ host.new) }
    ensures leaves { Leaves result words.now
        (told ⟦<H as Host>⟧ host.old) (told ⟦<H as Host>⟧ host.new) }
{
    if !needs_workers(words) {
        return serial(alloc, words, host);
    }
    match request_of(words) {
        Some(request) => {
            let made = make_by(rt, alloc, host, &request, gate);
            end(alloc, host, &made)
        }
        None => unreachable!(),
    }
}
