// Cells of the join's machine whose reaction is frozen while further events land, against logs
// written by hand; and a full clock.
ghost use Rattle.std.specs.Prelude.{◌≡◌, ◌<◌, ◌≤◌, IfOk, IfSome};
ghost use Rattle.transition_table.specs.samples.Join.{join as the_join};
ghost use Rattle.transition_table.specs.Transitions.{AreDeterministic, OfMachine, Transition};
ghost use Rattle.transition_table.specs.declared.decl.Party.{Party};
ghost use Rattle.journals.specs.Logs.{max_stamp};

use crate::tests::push_codes;
use event_buffer::{Arrival, Cell, CellError, Frozen, Look, OpenGate};
use journals::{Entry, Log};
use polis_base::limits::MAX_STAMP;
use polis_base::{Bytes, NoMemory};
use sample_networks::join::deterministic_network;
use std::alloc::Global;
use std::test::Fail;
use transition_table::{Network, Party, TableReactor};

fn reactor(net: &Network) -> TableReactor<'_>
    requires { AreDeterministic net.now }
    ensures { result.net.now ≡ net.now }
{
    TableReactor::new(net)
}

// A delivery of the environment to the first machine.
const fn from_env(event: u32, stamp: u64) -> Arrival
    ensures { result ≡ record { from = Party.Env; to = 0; event = event; code = 1; stamp = stamp } }
{
    Arrival {
        from: Party::Env,
        to: 0,
        event,
        code: 1,
        stamp,
    }
}

// Lands an event of the environment.
fn land(cell: &mut Cell<'_>, event: u32, stamp: u64) -> Result<u64, CellError>
    requires cell { (cell.old.net ≡ the_join) × (cell.old.machine ≡ 0) }
    requires event { event < 2 }
    requires stamp { stamp ≤ max_stamp }
    ensures net { cell.new.net ≡ cell.old.net }
    ensures machine { cell.new.machine ≡ cell.old.machine }
{
    cell.land(&from_env(event, stamp))
}

// Whether an event lands at this stamp.
fn lands_at(landed: Result<u64, CellError>, wanted: u64) -> bool {
    match landed {
        Ok(stamp) => stamp == wanted,
        Err(_) => false,
    }
}

// Whether no event lands, for the clock is full.
fn is_full(landed: Result<u64, CellError>) -> bool {
    match landed {
        Err(CellError::ClockFull) => true,
        Ok(_) | Err(CellError::NoMemory) => false,
    }
}

// Lands these events.
fn land_all(cell: &mut Cell<'_>, events: &[u32])
    requires cell { (cell.old.net ≡ the_join) × (cell.old.machine ≡ 0) }
    ensures net { cell.new.net ≡ cell.old.net }
    ensures machine { cell.new.machine ≡ cell.old.machine }
{
    for event in events {
        if *event < 2 {
            let _stamp = land(cell, *event, 0);
        }
    }
}

// Settles what was run.
fn settle(cell: &mut Cell<'_>, f: Frozen<'_>)
    requires network { f.net ≡ cell.old.net }
    requires ran { OfMachine f.net f.machine (λ machine. Transition machine f.snapshot f.outcome) }
    ensures net { cell.new.net ≡ cell.old.net }
    ensures machine { cell.new.machine ≡ cell.old.machine }
{
    if !cell.settles(&f) {
        f.abandon();
        return;
    }
    match cell.settle(f) {
        None => {}
        Some(out) => out.abandon(),
    }
}

// The reaction that is frozen, where the cell is ready.
fn frozen<'a>(cell: &mut Cell<'a>) -> Option<Frozen<'a>>
    ensures net { cell.new.net ≡ cell.old.net }
    ensures machine { cell.new.machine ≡ cell.old.machine }
    ensures network { IfSome result (λ f. f.net ≡ cell.old.net) }
{
    match cell.look() {
        Look::Busy | Look::Quiet => None,
        Look::Ready => match cell.freeze(&OpenGate) {
            Err(_) => None,
            Ok(f) => Some(f),
        },
    }
}

// Runs it and settles it.
fn run_and_settle(cell: &mut Cell<'_>, r: &TableReactor<'_>, frozen: Frozen<'_>)
    requires cell { frozen.net ≡ cell.old.net }
    requires reactor { r.now.net.now ≡ cell.old.net }
    ensures net { cell.new.net ≡ cell.old.net }
    ensures machine { cell.new.machine ≡ cell.old.machine }
{
    let mut f = frozen;
    f.run(r, &OpenGate);
    settle(cell, f)
}

// Freezes a reaction, lets these events land beside it, runs it and settles it. Answers whether
// there was one.
fn react_beside(cell: &mut Cell<'_>, r: &TableReactor<'_>, events: &[u32]) -> bool
    requires cell { (cell.old.net ≡ the_join) × (cell.old.machine ≡ 0) }
    requires reactor { r.now.net.now ≡ the_join }
    ensures net { cell.new.net ≡ cell.old.net }
    ensures machine { cell.new.machine ≡ cell.old.machine }
{
    match frozen(cell) {
        None => false,
        Some(f) => {
            land_all(cell, events);
            run_and_settle(cell, r, f);
            true
        }
    }
}

// Freezes a reaction and gives it up. Answers whether there was one.
fn gives_up(cell: &mut Cell<'_>) -> bool
    ensures net { cell.new.net ≡ cell.old.net }
    ensures machine { cell.new.machine ≡ cell.old.machine }
{
    match frozen(cell) {
        None => false,
        Some(f) => {
            f.abandon();
            true
        }
    }
}

// The event of a delivery; of a reaction its snapshot and what it emits.
fn push_entry(entry: &Entry, into: &mut Bytes) -> Result<(), NoMemory> {
    match entry {
        Entry::Dep { event, .. } => {
            into.push(b" dep ")?;
            into.push_decimal(u64::from(*event))?;
        }
        Entry::Rea {
            snapshot,
            outcome,
            ..
        } => {
            into.push(if outcome.fires { b" fire" } else { b" idle" })?;
            push_codes(&snapshot.codes, into)?;
            into.push(b" >")?;
            push_codes(&outcome.outs, into)?;
        }
    }
    into.push(b"\n")
}

// The entries with their stamps, a line each.
fn text_of(alloc: Global, log: &Log) -> Result<Bytes, NoMemory> {
    let mut text = Bytes::new(alloc);
    for x in log.as_slice() {
        text.push_decimal(x.stamp)?;
        push_entry(&x.entry, &mut text)?;
    }
    Ok(text)
}

// Whether this stands in the cell's log.
fn is_log(
    alloc: Global,
    cell: Cell<'_>,
    r: &TableReactor<'_>,
    wanted: &[u8],
) -> Result<bool, NoMemory>
    requires { r.now.net.now ≡ cell.net }
{
    let log = cell.into_log(r);
    let text = text_of(alloc, &log)?;
    Ok(text.as_slice() == wanted)
}

// A cell of the join's machine after these events.
fn after<'a>(alloc: Global, net: &'a Network, events: &[u32]) -> Result<Cell<'a>, NoMemory>
    requires network { net.now ≡ the_join }
    requires deterministic { AreDeterministic net.now }
    ensures { IfOk result (λ cell. (cell.net ≡ the_join) × (cell.machine ≡ 0)) }
{
    let mut cell = Cell::new(alloc, net, 0)?;
    land_all(&mut cell, events);
    Ok(cell)
}

// The events that a reaction is frozen on, those that land beside it, and the log after that
// reaction and another one, which reads what is present then.
#[derive(Clone, Copy)]
struct Beside<'a> {
    before: &'a [u32],
    beside: &'a [u32],
    log: &'a [u8],
}

fn logs_in(alloc: Global, net: &Network, case: &Beside<'_>) -> Result<bool, NoMemory>
    requires network { net.now ≡ the_join }
    requires deterministic { AreDeterministic net.now }
{
    let r = reactor(net);
    let mut cell = after(alloc, net, case.before)?;
    let first = react_beside(&mut cell, &r, case.beside);
    let second = react_beside(&mut cell, &r, &[]);
    let is_log = is_log(alloc, cell, &r, case.log)?;
    Ok(first && second && is_log)
}

fn logs(alloc: Global, case: &Beside<'_>) -> Result<bool, NoMemory> {
    let net = deterministic_network(alloc)?;
    logs_in(alloc, &net, case)
}

// An idle reaction leaves what it read, and a firing takes it away.
const IDLE_BESIDE: &Beside<'_> = &Beside {
    before: &[0],
    beside: &[1, 0],
    log: b"1 dep 0\n2 idle 1 0 > 0\n3 dep 1\n4 dep 0\n5 fire 1 1 > 1\n",
};

const FIRE_BESIDE: &Beside<'_> = &Beside {
    before: &[0, 1],
    beside: &[0],
    log: b"1 dep 0\n2 dep 1\n3 fire 1 1 > 1\n4 dep 0\n5 idle 1 0 > 0\n",
};

#[test]
fn keeps_what_lands_beside_a_reaction(rt: HostRuntime) -> Result<(), Fail> {
    assert!(rt; logs(rt.alloc(), IDLE_BESIDE)?);
    assert!(rt; logs(rt.alloc(), FIRE_BESIDE)?);
    Ok(())
}

const WITH_FIRING: &[u8] = b"1 dep 0\n2 dep 1\n3 fire 1 1 > 1\n7 dep 0\n";

// What is seen of a cell whose frozen reaction was given up: whether it is busy, whether an event
// that was sent at 6 lands at 7, and whether its log is the wanted one.
fn see_frozen_in(alloc: Global, net: &Network) -> Result<(bool, bool, bool), NoMemory>
    requires network { net.now ≡ the_join }
    requires deterministic { AreDeterministic net.now }
{
    let r = reactor(net);
    let mut cell = after(alloc, net, &[0, 1])?;
    let is_busy = gives_up(&mut cell) && matches!(cell.look(), Look::Busy);
    let is_at_seven = lands_at(land(&mut cell, 0, 6), 7);
    let is_log = is_log(alloc, cell, &r, WITH_FIRING)?;
    Ok((is_busy, is_at_seven, is_log))
}

fn see_frozen(alloc: Global) -> Result<(bool, bool, bool), NoMemory> {
    let net = deterministic_network(alloc)?;
    see_frozen_in(alloc, &net)
}

#[test]
fn writes_a_frozen_outcome_at_the_end(rt: HostRuntime) -> Result<(), Fail> {
    assert!(rt; see_frozen(rt.alloc())? == (true, true, true));
    Ok(())
}

// Whether the clock is full for the first event at the greatest stamp, has room at the one before
// it, and is full then.
fn fills_up(cell: &mut Cell<'_>) -> bool
    requires cell { (cell.old.net ≡ the_join) × (cell.old.machine ≡ 0) }
    ensures net { cell.new.net ≡ cell.old.net }
    ensures machine { cell.new.machine ≡ cell.old.machine }
{
    let first = land(cell, 0, MAX_STAMP);
    let second = land(cell, 0, MAX_STAMP - 1);
    let third = land(cell, 0, 0);
    is_full(first) && lands_at(second, MAX_STAMP) && is_full(third)
}

// What is seen of a cell with a full clock: whether it fills up so, whether no reaction is made, and
// whether it is ready.
fn see_full_in(alloc: Global, net: &Network) -> Result<(bool, bool, bool), NoMemory>
    requires network { net.now ≡ the_join }
    requires deterministic { AreDeterministic net.now }
{
    let r = reactor(net);
    let mut cell = after(alloc, net, &[])?;
    let fills_up = fills_up(&mut cell);
    let is_still = !react_beside(&mut cell, &r, &[]);
    let is_ready = matches!(cell.look(), Look::Ready);
    Ok((fills_up, is_still, is_ready))
}

fn see_full(alloc: Global) -> Result<(bool, bool, bool), NoMemory> {
    let net = deterministic_network(alloc)?;
    see_full_in(alloc, &net)
}

#[test]
fn is_full_at_the_greatest_stamp(rt: HostRuntime) -> Result<(), Fail> {
    assert!(rt; see_full(rt.alloc())? == (true, true, true));
    Ok(())
}
