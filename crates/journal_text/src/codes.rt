// The codes that the items of a list give.
ghost use Rattle.std.specs.Prelude.{◌≡◌, ◌≢◌, ◌<◌, ◌++◌, [], true, length, map, is_some, option_copied, Ok, Err, None, IfOk, OnOk, IfSome, IsTrue};
ghost use Rattle.std.specs.List.{list_all};
ghost use Rattle.journal_text.specs.Forms.{list_of, words_of};
ghost use Rattle.journal_text.specs.Items.{as_event, as_state, some_codes, all_values, map_read};
ghost use Rattle.journal_text.specs.Cursors.{items_in};
ghost use Rattle.polis_base.specs.Pieces.{left};
ghost use Rattle.journal_text.specs.Steps.{are_events, are_states};
ghost use Rattle.journal_text.specs.inner.Steps.{Takes, Halts};
ghost use Rattle.journal_text.specs.declared.fault.JournalKind.{JournalKind};
ghost use Rattle.journal_text.specs.declared.codes.Stop.{Stop};

use crate::cut::items_of;
use crate::fault::JournalKind;
use crate::item::{code_of_next, value_of_next};
use domains::Codes;
use std::alloc::Global;
use transition_table::{Network, StateDecl};

/// Why a line wasn't read to its end.
#[derive(Clone, Copy)]
pub enum Stop {
    /// The kind of its first item at fault.
    Kind(JournalKind),
    /// Out of memory.
    NoMemory,
}

// No codes, with room for so many.
fn no_codes(alloc: Global, room: u64) -> Result<Codes, Stop>
    ensures ok { IfOk result (λ codes. codes ≡ []) }
    ensures fault { (kind : JournalKind) → result ≢ Err (Stop.Kind kind) }
{
    match Codes::with_room(alloc, room) {
        Ok(codes) => Ok(codes),
        Err(_) => Err(Stop::NoMemory),
    }
}

// Appends the code that the next item gives a thing of this name and domain. The items after it are
// answered.
fn push_code<'a>(
    net: &Network,
    name: &[u8],
    domain: Option<u32>,
    items: Option<&'a [u8]>,
    into: &mut Codes,
) -> Result<Option<&'a [u8]>, Stop>
    requires { IfSome domain (λ d. d < length net.now.domains) }
    ensures ok { IfOk result (λ after.
        Takes (some_codes net.now) (name.now, domain) (left 32 (option_copied items.entry)) into.old
        into.new (left 32 (option_copied after))) }
    ensures fault { (kind : JournalKind) → result ≡ Err (Stop.Kind kind)
        → Halts (some_codes net.now) (name.now, domain) (left 32 (option_copied items.entry)) kind }
{
    match code_of_next(net, name, domain, items) {
        None => Err(Stop::Kind(JournalKind::Value)),
        Some((code, after)) => match into.push(code) {
            Ok(()) => Ok(after),
            Err(_) => Err(Stop::NoMemory),
        },
    }
}

// Appends the value that the next item gives a state variable. The items after it are answered.
fn push_value<'a>(
    net: &Network,
    variable: &StateDecl,
    items: Option<&'a [u8]>,
    into: &mut Codes,
) -> Result<Option<&'a [u8]>, Stop>
    requires { variable.now.domain < length net.now.domains }
    ensures ok { IfOk result (λ after.
        Takes (all_values net.now) (as_state variable.now) (left 32 (option_copied items.entry))
        into.old into.new (left 32 (option_copied after))) }
    ensures fault { (kind : JournalKind) → result ≡ Err (Stop.Kind kind)
        → Halts (all_values net.now) (as_state variable.now) (left 32 (option_copied items.entry))
        kind }
{
    match value_of_next(net, variable, items) {
        Err(kind) => Err(Stop::Kind(kind)),
        Ok((value, after)) => match into.push(value) {
            Ok(()) => Ok(after),
            Err(_) => Err(Stop::NoMemory),
        },
    }
}

// Whether all items are read: one that is left names nothing.
fn ended(items: Option<&[u8]>) -> Result<(), Stop>
    ensures ok { OnOk result (items.entry ≡ None) }
    ensures fault { (kind : JournalKind) → result ≡ Err (Stop.Kind kind)
        → (kind ≡ JournalKind.Name) × is_some items.entry ≡ true }
{
    match items {
        None => Ok(()),
        Some(_) => Err(Stop::Kind(JournalKind::Name)),
    }
}

// Appends the codes that the items of a list give these events.
fn push_event_codes(
    net: &Network,
    events: &[u32],
    list: &[u8],
    into: &mut Codes,
) -> Result<(), Stop>
    requires events { IsTrue (are_events net.now events.now) }
    requires list { is_some (list_of (words_of list.now)) ≡ true }
    ensures ok { OnOk result (map_read (λ codes. into.old ++ codes)
        (some_codes net.now (map (as_event net.now) events.now) (items_in list.now)) ≡ Ok into.new) }
    ensures fault { (kind : JournalKind) → result ≡ Err (Stop.Kind kind)
        → some_codes net.now (map (as_event net.now) events.now) (items_in list.now) ≡ Err kind }
{
    let mut items = items_of(list);
    for e in events.iter() {
        let event = net.events.get(*e as u64);
        items = match push_code(net, event.name.bytes(), event.domain, items, into) {
            Ok(after) => after,
            Err(stop) => return Err(stop),
        };
    }
    ended(items)
}

// Appends the codes that the items of a list give these state variables.
fn push_state_codes(
    net: &Network,
    states: &[StateDecl],
    list: &[u8],
    into: &mut Codes,
) -> Result<(), Stop>
    requires states { IsTrue (are_states net.now states.now) }
    requires list { is_some (list_of (words_of list.now)) ≡ true }
    ensures ok { OnOk result (map_read (λ codes. into.old ++ codes)
        (some_codes net.now (map as_state states.now) (items_in list.now)) ≡ Ok into.new) }
    ensures fault { (kind : JournalKind) → result ≡ Err (Stop.Kind kind)
        → some_codes net.now (map as_state states.now) (items_in list.now) ≡ Err kind }
{
    let mut items = items_of(list);
    for variable in states.iter() {
        items = match push_code(
            net,
            variable.name.bytes(),
            Some(variable.domain),
            items,
            into,
        ) {
            Ok(after) => after,
            Err(stop) => return Err(stop),
        };
    }
    ended(items)
}

/// The codes that the items of a list give these events, in their order, with room for so many.
pub fn codes_of_events(
    alloc: Global,
    net: &Network,
    events: &[u32],
    list: &[u8],
    room: u64,
) -> Result<Codes, Stop>
    requires events { IsTrue (are_events net.now events.now) }
    requires list { is_some (list_of (words_of list.now)) ≡ true }
    ensures ok { IfOk result (λ codes.
        some_codes net.now (map (as_event net.now) events.now) (items_in list.now) ≡ Ok codes) }
    ensures fault { (kind : JournalKind) → result ≡ Err (Stop.Kind kind)
        → some_codes net.now (map (as_event net.now) events.now) (items_in list.now) ≡ Err kind }
{
    let mut codes = no_codes(alloc, room)?;
    push_event_codes(net, events, list, &mut codes)?;
    Ok(codes)
}

/// The codes that the items of a list give these state variables, in their order: what each is set
/// to.
pub fn codes_of_states(
    alloc: Global,
    net: &Network,
    states: &[StateDecl],
    list: &[u8],
) -> Result<Codes, Stop>
    requires states { IsTrue (are_states net.now states.now) }
    requires list { is_some (list_of (words_of list.now)) ≡ true }
    ensures ok { IfOk result (λ codes.
        some_codes net.now (map as_state states.now) (items_in list.now) ≡ Ok codes) }
    ensures fault { (kind : JournalKind) → result ≡ Err (Stop.Kind kind)
        → some_codes net.now (map as_state states.now) (items_in list.now) ≡ Err kind }
{
    let mut codes = no_codes(alloc, states.len() as u64)?;
    push_state_codes(net, states, list, &mut codes)?;
    Ok(codes)
}

/// Appends the values that the items of a list give these state variables, all of them in their
/// order.
pub fn push_values(
    net: &Network,
    states: &[StateDecl],
    list: &[u8],
    into: &mut Codes,
) -> Result<(), Stop>
    requires states { IsTrue (are_states net.now states.now) }
    requires list { is_some (list_of (words_of list.now)) ≡ true }
    ensures ok { IfOk result
        (λ u. map_read (λ values. into.old ++ values)
        (all_values net.now (map as_state states.now) (items_in list.now)) ≡ Ok into.new) }
    ensures fault { (kind : JournalKind) → result ≡ Err (Stop.Kind kind)
        → all_values net.now (map as_state states.now) (items_in list.now) ≡ Err kind }
{
    let mut items = items_of(list);
    for variable in states.iter() {
        items = match push_value(net, variable, items, into) {
            Ok(after) => after,
            Err(stop) => return Err(stop),
        };
    }
    ended(items)
}
