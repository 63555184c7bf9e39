// The items of an entry, as its line in the journal has them.
ghost use Rattle.std.specs.Prelude.{◌≡◌, ◌<◌, ◌++◌, Some, IfOk, OnOk, IsTrue};
ghost use Rattle.transition_table.specs.NetworkFacts.{values_of};
ghost use Rattle.journals.specs.Journals.{is_event_code};
ghost use Rattle.journal_text.specs.Texts.{event_item, event_items, set_items, state_item, value_part};
ghost use Rattle.journal_text.specs.inner.Texts.{are_event_codes, are_settings, state_size};

use crate::texts::Texts;
use journal_text::push_event;
use polis_base::{Bytes, List, NoMemory};
use std::alloc::Global;
use transition_table::{Network, StateDecl};

/// An event with its value.
pub(crate) fn event_text(alloc: Global, net: &Network, e: u32, code: u8) -> Result<Bytes, NoMemory>
    requires { IsTrue (is_event_code net.now e code) }
    ensures { IfOk result (λ item. item ≡ event_item net.now (e, code)) }
{
    let mut item = Bytes::new(alloc);
    push_event(net, e, code, &mut item)?;
    Ok(item)
}

// Appends `=` and the word of a value of a domain.
fn push_value(net: &Network, d: u32, v: u8, into: &mut Bytes) -> Result<(), NoMemory>
    requires { v < values_of net.now.domains (Some d) }
    ensures { OnOk result (into.new ≡ into.old ++ value_part net.now d v) }
{
    into.push(b"=")?;
    net.domains.get(d as u64).push_value(v, into)
}

// A state variable with a value.
fn state_text(alloc: Global, net: &Network, variable: &StateDecl, v: u8) -> Result<Bytes, NoMemory>
    requires { v < state_size net.now variable.now }
    ensures { IfOk result (λ item. item ≡ state_item net.now variable.now v) }
{
    let mut item = Bytes::new(alloc);
    item.push(variable.name.bytes())?;
    push_value(net, variable.domain, v, &mut item)?;
    Ok(item)
}

/// The events with a code above 0.
pub(crate) fn event_texts(
    alloc: Global,
    net: &Network,
    events: &[u32],
    codes: &[u8],
) -> Result<Texts, NoMemory>
    requires { IsTrue (are_event_codes net.now events.now codes.now) }
    ensures { IfOk result (λ items. items ≡ event_items net.now events.now codes.now) }
{
    let mut items = List::new(alloc);
    for (event, code) in events.iter().zip(codes) {
        if *code > 0 {
            items.push(event_text(alloc, net, *event, *code)?)?;
        }
    }
    Ok(items)
}

/// Each state variable that is set, with the value that it is set to.
pub(crate) fn set_texts(
    alloc: Global,
    net: &Network,
    variables: &[StateDecl],
    codes: &[u8],
) -> Result<Texts, NoMemory>
    requires { IsTrue (are_settings net.now variables.now codes.now) }
    ensures { IfOk result (λ items. items ≡ set_items net.now variables.now codes.now) }
{
    let mut items = List::new(alloc);
    for (variable, setting) in variables.iter().zip(codes) {
        if *setting > 0 {
            items.push(state_text(alloc, net, variable, *setting - 1)?)?;
        }
    }
    Ok(items)
}
