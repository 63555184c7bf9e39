// Calls that make or judge journals, each once on a small network, against texts written by hand.
ghost use Rattle.std.specs.Prelude.{◌≡◌, ◌∷◌, [], IfOk};
ghost use Rattle.transition_table.specs.samples.Join.{join as the_join};
ghost use Rattle.transition_table.specs.Transitions.{AreDeterministic};
ghost use Rattle.transition_table.specs.declared.decl.Party.TheVariants.{Env};
ghost use Rattle.journals.specs.declared.entry.Entry.TheVariants.{Dep};
ghost use Rattle.journals.specs.Journals.{IsTrace};
ghost use Rattle.journals.specs.Legality.{Legal};

use crate::inputs::{inputs_of, traced};
use crate::runs::{ended, finished, merged, stamped_text};
use input_files::Inputs;
use journal_replay::adopt;
use net_core::{Admit, Config, Entry, Journal, Trace};
use polis_base::limits::ENTRIES_MAX;
use polis_base::{Bytes, NoMemory};
use sample_networks::join::deterministic_network;
use sample_networks::texts::{JOIN_TRACE, TWO, TWO_TRACE};
use std::alloc::Global;
use std::test::Fail;
use transition_table::{Network, Party, TableReactor};
use worker_core::{CoreStep, Log, LogList, core_run};

// Both machines get the event, and then react in the order of their numbers.
const BY_NUMBER: &[u8] = b"polis journal 2
@1 dep env a x
@1 dep env b x
@2 fire a : x ; - -> - ; ya
@2 fire b : x ; - -> - ; yb
end 4 complete
";

// The machine with the smaller priority reacts first.
const BY_PRIORITY: &[u8] = b"polis journal 2
@1 dep env a x
@1 dep env b x
@2 fire b : x ; - -> - ; yb
@2 fire a : x ; - -> - ; ya
end 4 complete
";

// Both machines get the event.
const BOTH_FED: &[CoreStep] = &[CoreStep::Feed, CoreStep::Feed];

// Both get it, and then react.
const BOTH_REACTED: &[CoreStep] = &[
    CoreStep::Feed,
    CoreStep::Feed,
    CoreStep::React { machine: 0 },
    CoreStep::React { machine: 1 },
];

// Two machines that play to each other, and one that looks on.
const WATCHED: &str = "network pong version 1
event go from env
event p
event q
machine a priority 1 {
  input go, q
  output p
  when go do emit p
  when q do emit p
}
machine b priority 1 {
  input p
  output q
  when p do emit q
}
machine c priority 1 {
  input go
  when go do nothing
}
";

const WATCHED_TRACE: &str = "go\ngo\n";

// Both items are fed to a and to c, and both of c's reactions are made before a's delivery lands.
const LATE_LANDING: &[CoreStep] = &[
    CoreStep::Feed,
    CoreStep::React { machine: 0 },
    CoreStep::Feed,
    CoreStep::React { machine: 2 },
    CoreStep::Feed,
    CoreStep::Feed,
    CoreStep::React { machine: 2 },
    CoreStep::Land { machine: 0 },
];

// The delivery stands before c's second reaction, which was made earlier.
const LANDED_BEFORE: &[u8] = b"polis journal 2
@1 dep env a go
@1 dep env c go
@2 fire a : go ; - -> - ; p
@2 fire c : go ; - -> - ; -
@3 dep env a go
@3 dep a b p
@3 dep env c go
@4 fire c : go ; - -> - ; -
end 8 limit
";

// The stamps in the logs of a, b and c. The one in that of b is the delivery's.
const LOG_STAMPS: &[u8] = b"@1@2@3\n@3\n@1@2@3@4\n";

// The text of a journal with its least stamps.
fn text_of(
    alloc: Global,
    inputs: &Inputs,
    journal: &Journal,
    complete: bool,
) -> Result<Bytes, NoMemory>
    requires { Legal inputs.now.net inputs.now.trace journal.now }
{
    if journal.len() > ENTRIES_MAX {
        return Err(NoMemory);
    }
    stamped_text(alloc, inputs, journal, complete)
}

// The text of the merge of the logs after these steps.
fn merged_text(
    alloc: Global,
    inputs: &Inputs,
    steps: &[CoreStep],
    complete: bool,
) -> Result<Bytes, NoMemory>
    requires fits { IsTrace inputs.now.net inputs.now.trace }
    requires deterministic { AreDeterministic inputs.now.net }
{
    let journal = merged(alloc, inputs, steps)?;
    text_of(alloc, inputs, &journal, complete)
}

fn merged_of_two(alloc: Global) -> Result<Bytes, NoMemory> {
    let inputs = inputs_of(alloc, TWO, TWO_TRACE)?;
    merged_text(alloc, &inputs, BOTH_REACTED, true)
}

#[test]
fn merges_the_logs_of_four_steps(rt: HostRuntime) -> Result<(), Fail> {
    let text = merged_of_two(rt.alloc())?;
    assert!(rt; text.as_slice() == BY_NUMBER);
    Ok(())
}

fn merged_of_watched(alloc: Global) -> Result<Bytes, NoMemory> {
    let inputs = inputs_of(alloc, WATCHED, WATCHED_TRACE)?;
    merged_text(alloc, &inputs, LATE_LANDING, false)
}

#[test]
fn merges_a_landing_before_a_reaction_made_earlier(rt: HostRuntime) -> Result<(), Fail> {
    let text = merged_of_watched(rt.alloc())?;
    assert!(rt; text.as_slice() == LANDED_BEFORE);
    Ok(())
}

fn push_stamps(log: &Log, text: &mut Bytes) -> Result<(), NoMemory> {
    for x in log.as_slice() {
        text.push(b"@")?;
        text.push_decimal(x.stamp)?;
    }
    text.push(b"\n")
}

// The stamps of each log, a line each.
fn stamps_of(alloc: Global, logs: &LogList) -> Result<Bytes, NoMemory> {
    let mut text = Bytes::new(alloc);
    for log in logs.as_slice() {
        push_stamps(log, &mut text)?;
    }
    Ok(text)
}

// The stamps of each log after these steps.
fn stamps_after(alloc: Global, inputs: &Inputs, steps: &[CoreStep]) -> Result<Bytes, NoMemory>
    requires fits { IsTrace inputs.now.net inputs.now.trace }
    requires deterministic { AreDeterministic inputs.now.net }
{
    let r = TableReactor::new(&inputs.net);
    let core = core_run(alloc, &r, &inputs.trace, steps)?;
    stamps_of(alloc, core.logs())
}

fn watched_stamps(alloc: Global) -> Result<Bytes, NoMemory> {
    let inputs = inputs_of(alloc, WATCHED, WATCHED_TRACE)?;
    stamps_after(alloc, &inputs, LATE_LANDING)
}

#[test]
fn stamps_a_landing_above_its_firing(rt: HostRuntime) -> Result<(), Fail> {
    let stamps = watched_stamps(rt.alloc())?;
    assert!(rt; stamps.as_slice() == LOG_STAMPS);
    Ok(())
}

// The text of the journal of steps until none is left.
fn ended_text(alloc: Global, inputs: &Inputs) -> Result<Bytes, NoMemory>
    requires fits { IsTrace inputs.now.net inputs.now.trace }
    requires deterministic { AreDeterministic inputs.now.net }
{
    let journal = ended(alloc, inputs)?;
    text_of(alloc, inputs, &journal, true)
}

fn ended_of_two(alloc: Global) -> Result<Bytes, NoMemory> {
    let inputs = inputs_of(alloc, TWO, TWO_TRACE)?;
    ended_text(alloc, &inputs)
}

#[test]
fn steps_until_none_is_left(rt: HostRuntime) -> Result<(), Fail> {
    let text = ended_of_two(rt.alloc())?;
    assert!(rt; text.as_slice() == BY_NUMBER);
    Ok(())
}

// The text of a journal that is carried on by the picks.
fn finished_text(alloc: Global, inputs: &Inputs, from: Journal) -> Result<Bytes, NoMemory>
    requires fits { IsTrace inputs.now.net inputs.now.trace }
    requires deterministic { AreDeterministic inputs.now.net }
    requires legal { Legal inputs.now.net inputs.now.trace from }
{
    if from.len() > ENTRIES_MAX {
        return Err(NoMemory);
    }
    let made = finished(alloc, inputs, from)?;
    text_of(alloc, inputs, &made.journal, made.complete)
}

fn carried_on_of_two(alloc: Global) -> Result<Bytes, NoMemory> {
    let inputs = inputs_of(alloc, TWO, TWO_TRACE)?;
    let from = merged(alloc, &inputs, BOTH_FED)?;
    finished_text(alloc, &inputs, from)
}

#[test]
fn carries_a_legal_journal_on(rt: HostRuntime) -> Result<(), Fail> {
    let text = carried_on_of_two(rt.alloc())?;
    assert!(rt; text.as_slice() == BY_PRIORITY);
    Ok(())
}

// A delivery of the environment to the first machine.
fn landing(event: u32) -> Entry
    ensures { result ≡ Dep Env 0 event 1 }
{
    Entry::Dep {
        from: Party::Env,
        to: 0,
        event,
        code: 1,
    }
}

// Whether the landing that the environment owes first is appended.
fn appends(alloc: Global, net: &Network, trace: &Trace) -> Result<bool, NoMemory>
    requires network { net.now ≡ the_join }
    requires fits { IsTrace net.now trace.now }
{
    let mut config = Config::start(alloc, net, trace)?;
    match config.append(&landing(0)) {
        Admit::Yes => Ok(true),
        Admit::No(_) => Ok(false),
        Admit::NoMemory => Err(NoMemory),
    }
}

// Whether the same landing is admitted.
fn admits(alloc: Global, net: &Network, trace: &Trace) -> Result<bool, NoMemory>
    requires network { net.now ≡ the_join }
    requires deterministic { AreDeterministic net.now }
    requires fits { IsTrace net.now trace.now }
{
    let r = TableReactor::new(net);
    let mut config = Config::start(alloc, net, trace)?;
    match config.admit(&r, &landing(0)) {
        Admit::Yes => Ok(true),
        Admit::No(_) => Ok(false),
        Admit::NoMemory => Err(NoMemory),
    }
}

// Whether the join's first landing is appended, and admitted.
fn join_takes(alloc: Global) -> Result<(bool, bool), NoMemory> {
    let net = deterministic_network(alloc)?;
    let trace = traced(alloc, &net, JOIN_TRACE)?;
    let appends = appends(alloc, &net, &trace)?;
    let admits = admits(alloc, &net, &trace)?;
    Ok((appends, admits))
}

#[test]
fn takes_a_landing(rt: HostRuntime) -> Result<(), Fail> {
    let (appends, admits) = join_takes(rt.alloc())?;
    assert!(rt; appends && admits);
    Ok(())
}

// The first event twice, and then the second one.
fn landings(alloc: Global) -> Result<Journal, NoMemory>
    ensures { IfOk result (λ journal. journal
        ≡ Dep Env 0 0 1 ∷ Dep Env 0 0 1 ∷ Dep Env 0 1 1 ∷ []) }
{
    let mut journal = Journal::new(alloc);
    journal.push(landing(0))?;
    journal.push(landing(0))?;
    journal.push(landing(1))?;
    Ok(journal)
}

// How many of these landings are adopted.
fn count_adopted(alloc: Global, net: &Network, trace: &Trace, limit: u64) -> Result<u64, NoMemory>
    requires network { net.now ≡ the_join }
    requires fits { IsTrace net.now trace.now }
{
    let journal = landings(alloc)?;
    let adopted = adopt(alloc, net, trace, journal, limit)?;
    Ok(adopted.len())
}

// The same where the environment sends what lands.
fn adopted_of_join(alloc: Global, limit: u64) -> Result<u64, NoMemory> {
    let net = deterministic_network(alloc)?;
    let trace = traced(alloc, &net, JOIN_TRACE)?;
    count_adopted(alloc, &net, &trace, limit)
}

#[test]
fn adopts_landings_up_to_the_limit(rt: HostRuntime) -> Result<(), Fail> {
    let two = adopted_of_join(rt.alloc(), 2)?;
    let all = adopted_of_join(rt.alloc(), 60_000)?;
    assert!(rt; two == 2 && all == 3);
    Ok(())
}
