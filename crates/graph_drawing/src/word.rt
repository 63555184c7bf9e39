// Names and words of what a network declares.
ghost use Rattle.std.specs.Prelude.{◌≡◌, ◌++◌, OnOk};
ghost use Rattle.transition_table.specs.NetworkNames.{event_domain, event_name};
ghost use Rattle.graph_drawing.specs.Words.{after_gap, code_word, domain_text, domain_word, gap, input_word, present_word, value_word, var_name, words_text};

use domains::{Domain, NameList};
use polis_base::{Bytes, NoMemory};
use transition_table::{Machine, Network};

// What stands before the word of this number.
pub(crate) fn push_gap(k: u64, into: &mut Bytes) -> Result<(), NoMemory>
    ensures { OnOk result (into.new ≡ into.old ++ gap k) }
{
    if k == 0 {
        return Ok(());
    }
    if k % 6 == 0 {
        into.push(b",\\n")?;
        return Ok(());
    }
    into.push(b", ")?;
    Ok(())
}

// The name of this number among those of a domain.
fn push_name(k: u64, name: &[u8], into: &mut Bytes) -> Result<(), NoMemory>
    ensures { OnOk result (into.new ≡ into.old ++ after_gap k name.now) }
{
    push_gap(k, into)?;
    into.push(name)?;
    Ok(())
}

// The names of a domain.
fn push_names(names: &NameList, into: &mut Bytes) -> Result<(), NoMemory>
    ensures { OnOk result (into.new ≡ into.old ++ words_text names.now) }
{
    for k in 0..names.len() {
        push_name(k, names.get(k).bytes(), into)?;
    }
    Ok(())
}

// A domain as a network's text declares it.
pub(crate) fn push_domain(domain: &Domain, into: &mut Bytes) -> Result<(), NoMemory>
    ensures { OnOk result (into.new ≡ into.old ++ domain_text domain.now) }
{
    match domain {
        Domain::Names(names) => {
            into.push(b"{ ")?;
            push_names(names, into)?;
            into.push(b" }")?;
            Ok(())
        }
        Domain::Range(span) => {
            into.push_decimal(u64::from(span.first))?;
            into.push(b" .. ")?;
            into.push_decimal(u64::from(span.last))?;
            Ok(())
        }
    }
}

// The word of a value that the domain has.
fn push_domain_word(domain: &Domain, value: u64, into: &mut Bytes) -> Result<(), NoMemory>
    ensures { OnOk result (into.new ≡ into.old ++ domain_word domain.now value) }
{
    if value < u64::from(domain.size()) {
        domain.push_value(value as u8, into)?;
    }
    Ok(())
}

// The word of a value of the domain of this number.
pub(crate) fn push_value(
    net: &Network,
    domain: u32,
    value: u64,
    into: &mut Bytes,
) -> Result<(), NoMemory>
    ensures { OnOk result (into.new ≡ into.old ++ value_word net.now domain value) }
{
    let domain = u64::from(domain);
    if domain < net.domains.len() {
        push_domain_word(net.domains.get(domain), value, into)?;
    }
    Ok(())
}

// The name of an event, where there is one.
pub(crate) fn push_event_name(net: &Network, event: u32, into: &mut Bytes) -> Result<(), NoMemory>
    ensures { OnOk result (into.new ≡ into.old ++ event_name net.now event) }
{
    let event = u64::from(event);
    if event < net.events.len() {
        into.push(net.events.get(event).name.bytes())?;
    }
    Ok(())
}

// The domain of an event's values, where it has one.
pub(crate) fn domain_of(net: &Network, event: u32) -> Option<u32>
    ensures { result ≡ event_domain net.now event }
{
    let event = u64::from(event);
    if event < net.events.len() {
        net.events.get(event).domain
    } else {
        None
    }
}

// The name of a variable.
pub(crate) fn push_var_name(
    net: &Network,
    machine: &Machine,
    var: u32,
    into: &mut Bytes,
) -> Result<(), NoMemory>
    ensures { OnOk result (into.new ≡ into.old ++ var_name net.now machine.now var) }
{
    let inputs = machine.inputs.len();
    let var = u64::from(var);
    if var < inputs {
        push_event_name(net, *machine.inputs.get(var), into)?;
        return Ok(());
    }
    if var - inputs < machine.states.len() {
        into.push(machine.states.get(var - inputs).name.bytes())?;
    }
    Ok(())
}

// The word of a present event's value.
fn push_present(
    net: &Network,
    domain: Option<u32>,
    value: u64,
    into: &mut Bytes,
) -> Result<(), NoMemory>
    ensures { OnOk result (into.new ≡ into.old ++ present_word net.now domain value) }
{
    match domain {
        Some(domain) => push_value(net, domain, value, into),
        None => into.push(b"present"),
    }
}

// The word of an input's code.
fn push_input_word(net: &Network, event: u32, code: u64, into: &mut Bytes) -> Result<(), NoMemory>
    ensures { OnOk result (into.new ≡ into.old ++ input_word net.now event code) }
{
    if code == 0 {
        into.push(b"absent")?;
        return Ok(());
    }
    push_present(net, domain_of(net, event), code - 1, into)?;
    Ok(())
}

// The word of a variable's code.
pub(crate) fn push_code_word(
    net: &Network,
    machine: &Machine,
    var: u32,
    code: u64,
    into: &mut Bytes,
) -> Result<(), NoMemory>
    ensures { OnOk result (into.new ≡ into.old ++ code_word net.now machine.now var code) }
{
    let inputs = machine.inputs.len();
    let var = u64::from(var);
    if var < inputs {
        push_input_word(net, *machine.inputs.get(var), code, into)?;
        return Ok(());
    }
    if var - inputs < machine.states.len() {
        push_value(net, machine.states.get(var - inputs).domain, code, into)?;
    }
    Ok(())
}
