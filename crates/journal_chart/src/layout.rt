// Which entries a chart shows, and where its columns stand.
ghost use Rattle.std.specs.Prelude.{◌≡◌, ◌<◌, ◌^◌, ◌++◌, ◌∷◌, ℕ, List, [], codes, cond, filter_map, length, map, max, true, slice_set, IfOk, OnOk, IsTrue};
ghost use Rattle.polis_base.specs.Lists.{upto};
ghost use Rattle.transition_table.specs.declared.decl.Party.TheVariants.{Env, Machine as Sender};
ghost use Rattle.journals.specs.Journals.{FitsNetwork, IsJournal, is_party};
ghost use Rattle.journals.specs.declared.entry.Entry.{Entry};
ghost use Rattle.journal_chart.specs.Chart.{head_line};
ghost use Rattle.journal_chart.specs.Columns.{columns, greatest, has_column, item_of, party_names, shown as shown_ones, width_of};
ghost use Rattle.journal_chart.specs.Labels.{axis_of as party_axis};
ghost use Rattle.journal_chart.specs.Pictures.{cell, cells};
ghost use Rattle.journal_chart.specs.inner.Layouts.{IsLayout, sender};

use crate::pictures::push_cell;
use crate::pieces::{first_ones, ones_after};
use crate::texts::{push_repeated, push_trimmed};
use journal_text::push_event;
use journals::Entry;
use polis_base::{Bytes, List, NoMemory};
use std::alloc::Global;
use transition_table::{Network, Party};

/// Where the columns of a chart stand.
#[derive(Drop)]
pub(crate) struct Layout {
    /// How many bytes each column has.
    pub(crate) width: u64,
    /// For each machine the place of its axis.
    pub(crate) places: List<u64>,
    /// A picture with nothing but the axes.
    pub(crate) bare: Bytes,
}

/// The entries from one place up to another.
pub(crate) fn shown(entries: &[Entry], from: u64, to: u64) -> &[Entry]
    ensures { result.now ≡ shown_ones entries.now from to }
{
    first_ones(ones_after(entries, from), to.saturating_sub(from))
}

// Who sends what an entry delivers; a reaction has no sender but the environment.
fn sender_of(entry: &Entry) -> Party
    ensures { result ≡ sender entry.now }
{
    match entry {
        Entry::Dep { from, .. } => *from,
        Entry::Rea { .. } => Party::Env,
    }
}

// Notes that a sender has a column, where it is a machine.
fn note_sender(from: Party, flags: &mut List<bool>)
    requires { (m : ℕ) → from ≡ Sender m → m < length flags.old }
    ensures env { from ≡ Env → flags.new ≡ flags.old }
    ensures machine { (m : ℕ) → from ≡ Sender m → flags.new ≡ slice_set flags.old m true }
    ensures many { length flags.new ≡ length flags.old }
{
    if let Party::Machine(m) = from {
        flags.set(m as u64, true);
    }
}

// Notes which machines have a column because of an entry.
fn note_entry(net: &Network, entry: &Entry, flags: &mut List<bool>)
    requires fits { FitsNetwork net.now entry.now }
    requires many { length flags.old ≡ length net.now.machines }
    ensures { (before : List Entry)
        → flags.old ≡ map (has_column before) (upto (length net.now.machines))
        → flags.new ≡ map (has_column (before ++ entry.now ∷ [])) (upto (length net.now.machines)) }
{
    note_sender(sender_of(entry), flags);
    flags.set(entry.machine() as u64, true);
}

// Which machines have a column.
fn flags_of(alloc: Global, net: &Network, entries: &[Entry]) -> Result<List<bool>, NoMemory>
    requires { IsJournal net.now entries.now }
    ensures { IfOk result (λ flags.
        flags ≡ map (has_column entries.now) (upto (length net.now.machines))) }
{
    let mut flags = List::filled(alloc, net.machines.len(), false)?;
    for entry in entries {
        note_entry(net, entry, &mut flags);
    }
    Ok(flags)
}

// Puts a number at the end, where it is wanted.
fn push_if(wanted: bool, m: u64, machines: &mut List<u64>) -> Result<(), NoMemory>
    ensures { OnOk result (machines.new ≡ machines.old ++ cond wanted (m ∷ []) []) }
{
    if wanted {
        machines.push(m)?;
    }
    Ok(())
}

// The machines that have a column.
fn columns_of(
    alloc: Global,
    net: &Network,
    entries: &[Entry],
    flags: &List<bool>,
) -> Result<List<u64>, NoMemory>
    requires { flags.now ≡ map (has_column entries.now) (upto (length net.now.machines)) }
    ensures { IfOk result (λ machines. machines ≡ columns net.now entries.now) }
{
    let mut machines = List::new(alloc);
    for m in 0..net.machines.len() {
        push_if(*flags.get(m), m, &mut machines)?;
    }
    Ok(machines)
}

// The greater of two lengths.
fn greater(a: u64, b: u64) -> u64
    requires one { a < 2 ^ 63 }
    requires other { b < 2 ^ 63 }
    ensures is { result ≡ max a b }
    ensures small { result < 2 ^ 63 }
{
    a.max(b)
}

// The greater of a length and that of a text.
fn longer(longest: u64, text: &[u8]) -> u64
    requires { longest < 2 ^ 63 }
    ensures is { result ≡ max longest (length text.now) }
    ensures small { result < 2 ^ 63 }
{
    greater(longest, text.len() as u64)
}

// The greatest length of the names of the columns' parties.
fn longest_name(net: &Network, entries: &[Entry], machines: &List<u64>) -> u64
    requires { machines.now ≡ columns net.now entries.now }
    ensures is { result ≡ greatest (party_names net.now entries.now) }
    ensures small { result < 2 ^ 63 }
{
    let mut longest = b"env".len() as u64;
    for k in 0..machines.len() {
        let machine = net.machines.get(*machines.get(k));
        longest = longer(longest, machine.name.bytes());
    }
    longest
}

// The length of what an entry delivers, 0 where it is a reaction. The bytes are room to write it.
fn item_length(net: &Network, entry: &Entry, item: &mut Bytes) -> Result<u64, NoMemory>
    requires { FitsNetwork net.now entry.now }
    ensures is { IfOk result (λ n. n ≡ greatest (filter_map (item_of net.now) (entry.now ∷ []))) }
    ensures small { IfOk result (λ n. n < 2 ^ 63) }
{
    item.clear();
    if let Entry::Dep { event, code, .. } = entry {
        push_event(net, *event, *code, item)?;
    }
    Ok(item.as_slice().len() as u64)
}

// The greatest length of what the entries deliver.
fn longest_item(alloc: Global, net: &Network, entries: &[Entry]) -> Result<u64, NoMemory>
    requires { IsJournal net.now entries.now }
    ensures is { IfOk result (λ n. n ≡ greatest (filter_map (item_of net.now) entries.now)) }
    ensures small { IfOk result (λ n. n < 2 ^ 63) }
{
    let mut item = Bytes::new(alloc);
    let mut longest = 0;
    for entry in entries {
        let count = item_length(net, entry, &mut item)?;
        longest = greater(longest, count);
    }
    Ok(longest)
}

// Appends a column with nothing but its axis, where it is wanted.
fn push_bare_if(wanted: bool, width: u64, bare: &mut Bytes) -> Result<(), NoMemory>
    ensures { OnOk result (bare.new ≡ bare.old ++ cond wanted (cell width (codes "|")) []) }
{
    if wanted {
        push_cell(width, b"|", bare)?;
    }
    Ok(())
}

// The columns, where these machines have one, and each column has so many bytes.
fn layout_of(
    alloc: Global,
    net: &Network,
    entries: &[Entry],
    flags: &List<bool>,
    width: u64,
) -> Result<Layout, NoMemory>
    requires flags { flags.now ≡ map (has_column entries.now) (upto (length net.now.machines)) }
    requires width { width ≡ width_of net.now entries.now }
    ensures { IfOk result (IsLayout net.now entries.now) }
{
    let mut bare = Bytes::new(alloc);
    let mut places = List::new(alloc);
    push_cell(width, b"|", &mut bare)?;
    for m in 0..net.machines.len() {
        places.push(bare.as_slice().len() as u64 + width / 2)?;
        push_bare_if(*flags.get(m), width, &mut bare)?;
    }
    Ok(Layout {
        width,
        places,
        bare,
    })
}

// Appends the names of the columns' parties, each on its axis.
fn push_names(
    net: &Network,
    entries: &[Entry],
    machines: &List<u64>,
    width: u64,
    into: &mut Bytes,
) -> Result<(), NoMemory>
    requires { machines.now ≡ columns net.now entries.now }
    ensures { OnOk result (into.new ≡ into.old ++ cells width (party_names net.now entries.now)) }
{
    push_cell(width, b"env", into)?;
    for k in 0..machines.len() {
        let machine = net.machines.get(*machines.get(k));
        push_cell(width, machine.name.bytes(), into)?;
    }
    Ok(())
}

// Appends the line of the names of the columns' parties.
fn push_head(
    net: &Network,
    entries: &[Entry],
    machines: &List<u64>,
    width: u64,
    into: &mut Bytes,
) -> Result<(), NoMemory>
    requires machines { machines.now ≡ columns net.now entries.now }
    requires width { width ≡ width_of net.now entries.now }
    ensures { OnOk result (into.new ≡ into.old ++ head_line net.now entries.now) }
{
    let mut names = into.beside();
    push_names(net, entries, machines, width, &mut names)?;
    push_repeated(b' ', 7, into)?;
    push_trimmed(names.as_slice(), into)?;
    into.push(b"\n")
}

/// Appends the line of the names of the columns' parties, and says where the columns stand.
pub(crate) fn begin(
    alloc: Global,
    net: &Network,
    entries: &[Entry],
    into: &mut Bytes,
) -> Result<Layout, NoMemory>
    requires { IsJournal net.now entries.now }
    ensures layout { IfOk result (IsLayout net.now entries.now) }
    ensures head { OnOk result (into.new ≡ into.old ++ head_line net.now entries.now) }
{
    let flags = flags_of(alloc, net, entries)?;
    let machines = columns_of(alloc, net, entries, &flags)?;
    let item = longest_item(alloc, net, entries)?;
    let name = longest_name(net, entries, &machines);
    let width = 6 + greater(name, item);
    push_head(net, entries, &machines, width, into)?;
    let layout = layout_of(alloc, net, entries, &flags, width)?;
    Ok(layout)
}

impl Layout {
    /// Where the axis of a party stands.
    pub(crate) fn axis_of(&self, net: &Network, entries: &[Entry], party: Party) -> u64
        requires layout { IsLayout net.now entries.now self.now }
        requires party { IsTrue (is_party net.now party) }
        ensures { result ≡ party_axis net.now entries.now party }
    {
        match party {
            Party::Env => self.width / 2,
            Party::Machine(m) => *self.places.get(m as u64),
        }
    }
}
