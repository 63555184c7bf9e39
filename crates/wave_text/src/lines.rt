// The lines that say what is so, and what changes.
ghost use Rattle.std.specs.Prelude.{◌≡◌, ◌<◌, ◌+◌, ◌++◌, ◌&&◌, ◌==◌, not, cond, [], flat_map, length, Some, OnOk, IsTrue};
ghost use Rattle.std.specs.List.{enumerate_from, list_all};
ghost use Rattle.transition_table.specs.NetworkFacts.{values_of};
ghost use Rattle.journals.specs.Journals.{states_of};
ghost use Rattle.wave_text.specs.Signals.{signal_code, signals};
ghost use Rattle.transition_table.specs.NetworkNames.{event_domain};
ghost use Rattle.wave_text.specs.Waves.{change_line, start_text, start_line, moment_lines, signal_line, written, written_code};
ghost use Rattle.wave_text.specs.Words.{event_word, value_word};
ghost use Rattle.wave_text.specs.declared.signal.Signal.TheVariants.{State};
ghost use Rattle.wave_text.specs.inner.Writable.{event_codes, has_code, is_signal, is_writable, state_codes};

use crate::signal::{Change, Signal, SignalList};
use polis_base::{Bytes, NoMemory};
use transition_table::Network;

// Appends the word of a value of a domain.
fn push_value_word(net: &Network, d: u32, v: u8, into: &mut Bytes) -> Result<(), NoMemory>
    requires { v < values_of net.now.domains (Some d) }
    ensures { OnOk result (into.new ≡ into.old ++ value_word net.now d v) }
{
    net.domains.get(d as u64).push_value(v, into)?;
    Ok(())
}

// Appends the word of an event's code, or `-` where it is absent.
fn push_event_word(net: &Network, d: u32, code: u8, into: &mut Bytes) -> Result<(), NoMemory>
    requires { code < 1 + values_of net.now.domains (Some d) }
    ensures { OnOk result (into.new ≡ into.old ++ event_word net.now d code) }
{
    if code == 0 {
        into.push(b"-")?;
    } else {
        push_value_word(net, d, code - 1, into)?;
    }
    Ok(())
}

// Appends what stands before the number of a signal of an event with a code.
fn push_event_code(net: &Network, event: u32, code: u8, into: &mut Bytes) -> Result<(), NoMemory>
    requires event { event < length net.now.events }
    requires code { code < event_codes net.now event }
    ensures { OnOk result (into.new ≡ into.old
        ++ written_code (event_domain net.now event) (λ d. event_word net.now d code) code) }
{
    match net.events.get(event as u64).domain {
        None => into.push(if code == 0 { b"0" } else { b"1" })?,
        Some(d) => {
            into.push(b"s")?;
            push_event_word(net, d, code, into)?;
            into.push(b" ")?;
        }
    }
    Ok(())
}

// Appends what stands before the number of a signal of a state variable with a value.
fn push_state_code(net: &Network, m: u32, x: u32, v: u8, into: &mut Bytes) -> Result<(), NoMemory>
    requires machine { m < length net.now.machines }
    requires variable { x < length (states_of net.now m) }
    requires value { v < state_codes net.now m x }
    ensures { OnOk result (into.new ≡ into.old
        ++ written net.now (State m x) (Some v)) }
{
    let variable = net.machines.get(m as u64).states.get(x as u64);
    into.push(b"s")?;
    push_value_word(net, variable.domain, v, into)?;
    into.push(b" ")?;
    Ok(())
}

// Appends what stands before the number of a signal that has a code, or happens.
fn push_written(
    net: &Network,
    signal: &Signal,
    code: Option<u8>,
    into: &mut Bytes,
) -> Result<(), NoMemory>
    requires signal { IsTrue (is_signal net.now signal.now) }
    requires code { IsTrue (has_code net.now signal.now code) }
    ensures { OnOk result (into.new ≡ into.old ++ written net.now signal.now code) }
{
    let Some(code) = code else {
        into.push(b"1")?;
        return Ok(());
    };
    match signal {
        Signal::State { machine, variable } => {
            push_state_code(net, *machine, *variable, code, into)?;
        }
        Signal::Input { event, .. } => push_event_code(net, *event, code, into)?,
        Signal::Value { event } => push_event_code(net, *event, code, into)?,
        Signal::Loss { .. } => {}
        Signal::Emission { .. } => {}
    }
    Ok(())
}

// Appends the line of a signal that has a code, or happens.
fn push_line(
    net: &Network,
    k: u64,
    signal: &Signal,
    code: Option<u8>,
    into: &mut Bytes,
) -> Result<(), NoMemory>
    requires signal { IsTrue (is_signal net.now signal.now) }
    requires code { IsTrue (has_code net.now signal.now code) }
    ensures { OnOk result (into.new ≡ into.old ++ signal_line net.now k signal.now code) }
{
    push_written(net, signal, code, into)?;
    into.push_decimal(k)?;
    into.push(b"\n")?;
    Ok(())
}

// Appends the line of a change.
fn push_change(
    net: &Network,
    list: &SignalList,
    change: Change,
    into: &mut Bytes,
) -> Result<(), NoMemory>
    requires signals { list.now ≡ signals net.now }
    requires change { IsTrue (is_writable net.now change) }
    ensures { OnOk result (into.new ≡ into.old ++ change_line net.now change) }
{
    push_line(
        net,
        change.signal,
        list.get(change.signal),
        change.code,
        into,
    )?;
    Ok(())
}

// Appends the lines of changes.
fn push_change_lines(
    net: &Network,
    list: &SignalList,
    changes: &[Change],
    into: &mut Bytes,
) -> Result<(), NoMemory>
    requires signals { list.now ≡ signals net.now }
    requires changes { IsTrue (list_all (is_writable net.now) changes.now) }
    ensures { OnOk result (into.new ≡ into.old ++ flat_map (change_line net.now) changes.now) }
{
    for change in changes {
        push_change(net, list, *change, into)?;
    }
    Ok(())
}

/// Appends the moment after so many entries, where something changes or it is the last.
pub(crate) fn push_moment(
    net: &Network,
    list: &SignalList,
    moment: u64,
    last: bool,
    changes: &[Change],
    into: &mut Bytes,
) -> Result<(), NoMemory>
    requires signals { list.now ≡ signals net.now }
    requires changes { IsTrue (list_all (is_writable net.now) changes.now) }
    ensures { OnOk result (into.new ≡ into.old
        ++ cond (length changes.now == 0 && not last) []
        (moment_lines net.now moment changes.now)) }
{
    if changes.is_empty() && !last {
        return Ok(());
    }
    into.push(b"#")?;
    into.push_decimal(moment)?;
    into.push(b"\n")?;
    push_change_lines(net, list, changes, into)?;
    Ok(())
}

// The code of a signal at the start, if it has one.
fn start_code(net: &Network, signal: &Signal) -> Option<u8>
    requires { IsTrue (is_signal net.now signal.now) }
    ensures { result ≡ signal_code net.now [] signal.now }
{
    match signal {
        Signal::Input { .. } => Some(0),
        Signal::State { machine, variable } => {
            let states = &net.machines.get(*machine as u64).states;
            Some(states.get(*variable as u64).init)
        }
        Signal::Loss { .. } => None,
        Signal::Emission { .. } => None,
        Signal::Value { .. } => Some(0),
    }
}

// Appends the line of a signal at the start, if it has a code.
fn push_start_line(net: &Network, k: u64, signal: &Signal, into: &mut Bytes) -> Result<(), NoMemory>
    requires signal { IsTrue (is_signal net.now signal.now) }
    requires code { IsTrue (has_code net.now signal.now (signal_code net.now [] signal.now)) }
    ensures { OnOk result (into.new ≡ into.old ++ start_line net.now (k, signal.now)) }
{
    match start_code(net, signal) {
        Some(code) => push_line(net, k, signal, Some(code), into)?,
        None => {}
    }
    Ok(())
}

// Appends the lines of signals at the start.
fn push_start_lines(net: &Network, list: &SignalList, into: &mut Bytes) -> Result<(), NoMemory>
    requires signals { IsTrue (list_all (is_signal net.now) list.now) }
    requires codes { IsTrue (list_all (λ s. has_code net.now s (signal_code net.now [] s)) list.now) }
    ensures { OnOk result (into.new ≡ into.old
        ++ flat_map (start_line net.now) (enumerate_from 0 list.now)) }
{
    for k in 0..list.len() {
        push_start_line(net, k, list.get(k), into)?;
    }
    Ok(())
}

/// Appends the codes at the start.
pub(crate) fn push_start(net: &Network, list: &SignalList, into: &mut Bytes) -> Result<(), NoMemory>
    requires { list.now ≡ signals net.now }
    ensures { OnOk result (into.new ≡ into.old ++ start_text net.now) }
{
    into.push(b"#0\n")?;
    into.push(b"$dumpvars\n")?;
    push_start_lines(net, list, into)?;
    into.push(b"$end\n")?;
    Ok(())
}
