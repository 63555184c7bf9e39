// What a chart says of a machine's reaction.
ghost use Rattle.std.specs.Prelude.{◌≡◌, ◌<◌, ◌∷◌, ◌++◌, [], cond, codes, length, nat_le, nat_lt, take, true, false, IfOk, OnOk, IsTrue};
ghost use Rattle.std.specs.List.{list_all};
ghost use Rattle.transition_table.specs.NetworkFacts.{has_vars, has_outputs};
ghost use Rattle.transition_table.specs.NetworkNames.{event_name};
ghost use Rattle.transition_table.specs.Transitions.{IsDeterministic, IsSnapshot, IsOutcome};
ghost use Rattle.journal_text.specs.Texts.{event_items, set_items};
ghost use Rattle.journal_chart.specs.Notes.{emission_notes, sight_note, unused_notes};
ghost use Rattle.journal_chart.specs.inner.Lines.{bracketed, reaction_line, word_note};

use crate::items::{event_texts, set_texts};
use crate::pictures::centre;
use crate::pieces::first_ones;
use crate::texts::{Texts, push_joined, push_line, push_spaced};
use crate::uses::{is_jammed, is_unused};
use polis_base::{Bytes, List, NoMemory};
use std::alloc::Global;
use transition_table::{Machine, Network, Outcome, Snapshot};

/// A reaction of a machine of a network.
#[derive(Clone, Copy)]
pub(crate) struct Reaction<'a> {
    pub(crate) net: &'a Network,
    pub(crate) machine: &'a Machine,
    pub(crate) snapshot: &'a Snapshot,
    pub(crate) outcome: &'a Outcome,
    pub ghost sized_vars: { IsTrue (has_vars net.now.domains net.now.events machine.now) },
    pub ghost sized_outputs: { IsTrue (has_outputs net.now.domains net.now.events machine.now) },
    pub ghost numbered: { IsTrue (list_all (λ e. nat_lt e (length net.now.events)) machine.now.inputs) },
    pub ghost deterministic: { IsDeterministic machine.now },
    pub ghost reads: { IsSnapshot machine.now snapshot.now },
    pub ghost gives: { IsOutcome machine.now outcome.now },
}

// These texts in brackets.
fn bracket(alloc: Global, texts: &Texts) -> Result<Bytes, NoMemory>
    ensures { IfOk result (λ made. made ≡ bracketed texts.now) }
{
    let mut made = Bytes::new(alloc);
    made.push(b"[")?;
    push_joined(b" ", texts, &mut made)?;
    made.push(b"]")?;
    Ok(made)
}

// The label of a firing that sets this, where the column has room for it.
fn firing_label<'a>(width: u64, settings: &'a [u8]) -> &'a [u8]
    ensures { result.now ≡ cond (nat_le (length settings.now) width) settings.now (codes "[..]") }
{
    if settings.len() as u64 <= width {
        settings
    } else {
        b"[..]"
    }
}

// The label of a reaction that doesn't fire.
fn idle_label(jammed: bool) -> &'static [u8]
    ensures { result.now ≡ cond jammed (codes "jammed") (codes "idle") }
{
    if jammed { b"jammed" } else { b"idle" }
}

// Puts a note of a word and these texts at the end.
fn push_note(alloc: Global, word: &[u8], texts: &Texts, notes: &mut Texts) -> Result<(), NoMemory>
    ensures { OnOk result (notes.new ≡ notes.old ++ word_note word.now texts.now ∷ []) }
{
    let mut note = Bytes::new(alloc);
    note.push(word)?;
    push_spaced(texts, &mut note)?;
    notes.push(note)
}

// Puts a note of a word and these texts at the end, where it is wanted.
fn push_note_if(
    alloc: Global,
    wanted: bool,
    word: &[u8],
    texts: &Texts,
    notes: &mut Texts,
) -> Result<(), NoMemory>
    ensures { OnOk result (notes.new
        ≡ notes.old ++ cond wanted (word_note word.now texts.now ∷ []) []) }
{
    if wanted {
        push_note(alloc, word, texts, notes)?;
    }
    Ok(())
}

// What the firing sets.
fn settings_of(alloc: Global, r: &Reaction) -> Result<Texts, NoMemory>
    ensures { IfOk result (λ items. items
        ≡ set_items r.now.net.now r.now.machine.now.states r.now.outcome.now.next) }
{
    let states = r.machine.states.as_slice();
    let items = set_texts(alloc, r.net, states, r.outcome.next.as_slice())?;
    Ok(items)
}

// What the firing emits.
fn emissions_of(alloc: Global, r: &Reaction) -> Result<Texts, NoMemory>
    ensures { IfOk result (λ items. items
        ≡ event_items r.now.net.now r.now.machine.now.outputs r.now.outcome.now.outs) }
{
    let outputs = r.machine.outputs.as_slice();
    let items = event_texts(alloc, r.net, outputs, r.outcome.outs.as_slice())?;
    Ok(items)
}

// What the reaction has present.
fn sights_of(alloc: Global, r: &Reaction) -> Result<Texts, NoMemory>
    ensures { IfOk result (λ items. items ≡ event_items r.now.net.now r.now.machine.now.inputs
        (take (length r.now.machine.now.inputs) r.now.snapshot.now.codes)) }
{
    let inputs = r.machine.inputs.as_slice();
    let codes = first_ones(r.snapshot.codes.as_slice(), inputs.len() as u64);
    let items = event_texts(alloc, r.net, inputs, codes)?;
    Ok(items)
}

// Puts a note at the end, where an input, which has this event, is unused.
fn push_unused_note(
    alloc: Global,
    net: &Network,
    unused: bool,
    e: u32,
    notes: &mut Texts,
) -> Result<(), NoMemory>
    requires { e < length net.now.events }
    ensures { OnOk result (notes.new ≡ notes.old
        ++ cond unused ((codes "unused " ++ event_name net.now e) ∷ []) []) }
{
    if unused {
        let mut note = Bytes::new(alloc);
        note.push(b"unused ")?;
        note.push(net.events.get(e as u64).name.bytes())?;
        notes.push(note)?;
    }
    Ok(())
}

// Puts a note at the end for each input that is unused.
fn push_unused_notes(alloc: Global, r: &Reaction, notes: &mut Texts) -> Result<(), NoMemory>
    ensures { OnOk result (notes.new ≡ notes.old
        ++ unused_notes r.now.net.now r.now.machine.now r.now.snapshot.now.codes) }
{
    for i in 0..r.machine.inputs.len() {
        let unused = is_unused(alloc, r.machine, r.snapshot, i)?;
        push_unused_note(alloc, r.net, unused, *r.machine.inputs.get(i), notes)?;
    }
    Ok(())
}

// The notes of a firing, which sets this, and for which the column has room or hasn't.
fn firing_notes(alloc: Global, r: &Reaction, wide: bool, items: &Texts) -> Result<Texts, NoMemory>
    ensures { IfOk result (λ notes. notes ≡ cond wide (word_note (codes "sets ") items.now ∷ []) []
        ++ emission_notes r.now.net.now r.now.machine.now r.now.outcome.now
        ++ unused_notes r.now.net.now r.now.machine.now r.now.snapshot.now.codes) }
{
    let mut notes = List::new(alloc);
    push_note_if(alloc, wide, b"sets ", items, &mut notes)?;
    let emitted = emissions_of(alloc, r)?;
    push_note_if(alloc, emitted.len() > 0, b"emits ", &emitted, &mut notes)?;
    push_unused_notes(alloc, r, &mut notes)?;
    Ok(notes)
}

// The notes of a reaction that doesn't fire.
fn idle_notes(alloc: Global, r: &Reaction) -> Result<Texts, NoMemory>
    ensures { IfOk result (λ notes. notes
        ≡ sight_note r.now.net.now r.now.machine.now r.now.snapshot.now.codes ∷ []) }
{
    let mut notes = List::new(alloc);
    let seen = sights_of(alloc, r)?;
    push_note(alloc, b"sees ", &seen, &mut notes)?;
    Ok(notes)
}

// Appends the line of a firing, which is the entry at place p, with its label on an axis.
fn push_firing(
    alloc: Global,
    r: &Reaction,
    p: u64,
    width: u64,
    bare: &Bytes,
    axis: u64,
    into: &mut Bytes,
) -> Result<(), NoMemory>
    requires { r.now.outcome.now.fires ≡ true }
    ensures { OnOk result (into.new ≡ into.old
        ++ reaction_line r.now.net.now width r.now.machine.now r.now.snapshot.now
        r.now.outcome.now bare.now axis p) }
{
    let items = settings_of(alloc, r)?;
    let set = bracket(alloc, &items)?;
    let text = firing_label(width, set.as_slice());
    let picture = centre(bare, axis, text)?;
    let wide = set.as_slice().len() as u64 > width;
    let notes = firing_notes(alloc, r, wide, &items)?;
    push_line(p, picture.as_slice(), &notes, into)
}

// Appends the line of a reaction that doesn't fire.
fn push_idle(
    alloc: Global,
    r: &Reaction,
    p: u64,
    width: u64,
    bare: &Bytes,
    axis: u64,
    into: &mut Bytes,
) -> Result<(), NoMemory>
    requires { r.now.outcome.now.fires ≡ false }
    ensures { OnOk result (into.new ≡ into.old
        ++ reaction_line r.now.net.now width r.now.machine.now r.now.snapshot.now
        r.now.outcome.now bare.now axis p) }
{
    let text = idle_label(is_jammed(alloc, r.machine, r.snapshot)?);
    let picture = centre(bare, axis, text)?;
    let notes = idle_notes(alloc, r)?;
    push_line(p, picture.as_slice(), &notes, into)
}

/// Appends the line of a reaction, which is the entry at place p, with its label on an axis.
pub(crate) fn push_reaction(
    alloc: Global,
    r: &Reaction,
    p: u64,
    width: u64,
    bare: &Bytes,
    axis: u64,
    into: &mut Bytes,
) -> Result<(), NoMemory>
    ensures { OnOk result (into.new ≡ into.old
        ++ reaction_line r.now.net.now width r.now.machine.now r.now.snapshot.now
        r.now.outcome.now bare.now axis p) }
{
    if r.outcome.fires {
        push_firing(alloc, r, p, width, bare, axis, into)
    } else {
        push_idle(alloc, r, p, width, bare, axis, into)
    }
}
