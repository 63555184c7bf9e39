// What giving a result a code is called.
ghost use Rattle.std.specs.Prelude.{◌≡◌, ◌++◌, slice_get, OnOk};
ghost use Rattle.graph_drawing.specs.Words.{assign_label, emit_label, emitted_value, go_label, result_label, set_label};

use crate::word::{domain_of, push_event_name, push_value};
use polis_base::{Bytes, NoMemory};
use transition_table::{Machine, Network, StateDecl};

// Whether the machine fires.
fn push_go(code: u8, into: &mut Bytes) -> Result<(), NoMemory>
    ensures { OnOk result (into.new ≡ into.old ++ go_label code) }
{
    if code == 0 {
        into.push(b"go 0")?;
        return Ok(());
    }
    into.push(b"go")?;
    Ok(())
}

// What a state variable is set to.
fn push_set(net: &Network, state: &StateDecl, code: u8, into: &mut Bytes) -> Result<(), NoMemory>
    ensures { OnOk result (into.new ≡ into.old ++ set_label net.now state.now code) }
{
    into.push(state.name.bytes())?;
    if code == 0 {
        into.push(b" keeps")?;
        return Ok(());
    }
    into.push(b" := ")?;
    push_value(net, state.domain, u64::from(code) - 1, into)?;
    Ok(())
}

// The value with which an event is emitted, where it has a domain.
fn push_emitted(
    net: &Network,
    domain: Option<u32>,
    value: u64,
    into: &mut Bytes,
) -> Result<(), NoMemory>
    ensures { OnOk result (into.new ≡ into.old ++ emitted_value net.now domain value) }
{
    match domain {
        Some(domain) => {
            into.push(b" = ")?;
            push_value(net, domain, value, into)?;
            Ok(())
        }
        None => Ok(()),
    }
}

// Which event is emitted.
fn push_emit(net: &Network, event: u32, code: u8, into: &mut Bytes) -> Result<(), NoMemory>
    ensures { OnOk result (into.new ≡ into.old ++ emit_label net.now event code) }
{
    if code == 0 {
        into.push(b"no ")?;
        push_event_name(net, event, into)?;
        return Ok(());
    }
    into.push(b"emit ")?;
    push_event_name(net, event, into)?;
    push_emitted(net, domain_of(net, event), u64::from(code) - 1, into)?;
    Ok(())
}

// What giving the result of this number after `go` a code is called.
fn push_result(
    net: &Network,
    machine: &Machine,
    k: u64,
    code: u8,
    into: &mut Bytes,
) -> Result<(), NoMemory>
    ensures { OnOk result (into.new ≡ into.old
        ++ result_label net.now machine.now k code (slice_get machine.now.states k)) }
{
    let states = machine.states.len();
    if k < states {
        push_set(net, machine.states.get(k), code, into)?;
        return Ok(());
    }
    if k - states < machine.outputs.len() {
        push_emit(net, *machine.outputs.get(k - states), code, into)?;
    }
    Ok(())
}

// What giving the result of this number a code is called.
pub(crate) fn push_assign(
    net: &Network,
    machine: &Machine,
    number: u32,
    code: u8,
    into: &mut Bytes,
) -> Result<(), NoMemory>
    ensures { OnOk result (into.new ≡ into.old
        ++ assign_label net.now machine.now number code) }
{
    if number == 0 {
        push_go(code, into)?;
        return Ok(());
    }
    push_result(net, machine, u64::from(number) - 1, code, into)?;
    Ok(())
}
