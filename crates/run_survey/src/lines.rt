// The lines of a survey.
ghost use Rattle.std.specs.Prelude.{◌≡◌, ◌≤◌, ◌+◌, ◌++◌, cond, decimal, drop, flat_map, length, map, option_copied, take, IfOk, OnErr, OnOk};
ghost use Rattle.std.specs.List.{zip};
ghost use Rattle.polis_base.specs.Pieces.{pieces};
ghost use Rattle.event_accounts.specs.Accounts.{buffers};
ghost use Rattle.run_survey.specs.Runs.{IsShapedBy, all_rows};
ghost use Rattle.run_survey.specs.SurveyLines.{first_items, jammed_line, kind_line, kinds_line, line_count, most_taken, named_line, never_lines, number_lines, others_line, runs_line, spaced_item, spread_text, survey_lines};

use crate::last_line::push_ending;
use crate::told::{Kind, Others, Spread, Survey};
use event_accounts::{InputLine, push_inputs};
use polis_base::{Bytes, List, NoMemory, next_line};
use std::alloc::Global;
use table_use::{Tally, push_never};
use transition_table::{Machine, Network};

// How many emissions of a kind a line shows.
const SHOWN: u64 = 8;

/// Appends a word and a number after it.
pub(crate) fn push_count(word: &[u8], n: u64, into: &mut Bytes) -> Result<(), NoMemory>
    ensures { OnOk result (into.new ≡ into.old ++ word.now ++ decimal n) }
{
    into.push(word)?;
    into.push_decimal(n)?;
    Ok(())
}

// Appends `runs R complete C` and `kinds K`.
fn push_counts(survey: &Survey, into: &mut Bytes) -> Result<(), NoMemory>
    ensures { OnOk result (into.new
        ≡ into.old ++ (runs_line survey.now ++ kinds_line survey.now.kinds.items)) }
{
    push_count(b"runs ", survey.runs, into)?;
    push_count(b" complete ", survey.complete, into)?;
    push_count(b"\nkinds ", survey.kinds.len() as u64, into)?;
    into.push(b"\n")
}

// How many lines a text of outputs has.
fn count_lines(text: &[u8]) -> u64
    ensures { result ≡ line_count text.now }
{
    text.iter().filter(|c| **c == b'\n').count() as u64
}

// Appends the first so many lines, each with a space before it.
fn push_items(text: &[u8], count: u64, into: &mut Bytes) -> Result<(), NoMemory>
    requires { count ≤ line_count text.now }
    ensures { OnOk result (into.new
        ≡ into.old ++ flat_map spaced_item (take count (pieces 10 text.now))) }
{
    let mut rest = text;
    for _ in 0..count {
        let (item, after) = next_line(rest);
        into.push(b" ")?;
        into.push(item)?;
        match after {
            Some(after) => rest = after,
            None => unreachable!(),
        }
    }
    Ok(())
}

// Appends the first items of a text of outputs.
fn push_first_items(text: &[u8], into: &mut Bytes) -> Result<(), NoMemory>
    ensures { OnOk result (into.new ≡ into.old ++ first_items text.now) }
{
    let count = count_lines(text);
    if count == 0 {
        return into.push(b" -");
    }
    push_items(text, count.min(SHOWN), into)?;
    if count > SHOWN {
        into.push(b" ..")?;
    }
    Ok(())
}

// Appends `kind COUNT seed S outputs N : O`.
fn push_kind(kind: &Kind, into: &mut Bytes) -> Result<(), NoMemory>
    ensures { OnOk result (into.new ≡ into.old ++ kind_line kind.now) }
{
    let text = kind.outputs.as_slice();
    push_count(b"kind ", kind.count, into)?;
    push_count(b" seed ", kind.seed, into)?;
    push_count(b" outputs ", count_lines(text), into)?;
    into.push(b" :")?;
    push_first_items(text, into)?;
    into.push(b"\n")
}

// Appends the lines of the kinds.
fn push_kinds(kinds: &[Kind], into: &mut Bytes) -> Result<(), NoMemory>
    ensures { OnOk result (into.new ≡ into.old ++ flat_map kind_line kinds.now) }
{
    for kind in kinds {
        push_kind(kind, into)?;
    }
    Ok(())
}

// Appends the line of the others, where there are some.
fn push_others(others: Option<Others>, into: &mut Bytes) -> Result<(), NoMemory>
    ensures { OnOk result (into.new ≡ into.old ++ others_line others) }
{
    if let Some(others) = others {
        push_count(b"others ", others.count, into)?;
        push_count(b" seed ", others.seed, into)?;
        into.push(b"\n")?;
    }
    Ok(())
}

// Appends ` least A most B seed S runs C`.
fn push_spread(spread: &Spread, into: &mut Bytes) -> Result<(), NoMemory>
    ensures { OnOk result (into.new ≡ into.old ++ spread_text spread.now) }
{
    push_count(b" least ", spread.least, into)?;
    push_count(b" most ", spread.most, into)?;
    push_count(b" seed ", spread.seed, into)?;
    push_count(b" runs ", spread.runs, into)
}

// Appends the line of an input, where some run has more than 0.
fn push_input(
    word: &[u8],
    machine: &[u8],
    event: &[u8],
    spread: &Spread,
    into: &mut Bytes,
) -> Result<(), NoMemory>
    ensures { OnOk result (into.new ≡ into.old
        ++ named_line word.now machine.now event.now spread.now) }
{
    if spread.most == 0 {
        return Ok(());
    }
    into.push(word)?;
    into.push(b" ")?;
    into.push(machine)?;
    into.push(b" ")?;
    into.push(event)?;
    push_spread(spread, into)?;
    into.push(b"\n")
}

// Prints the numbers of an input after a word.
struct NumberLine<'a> {
    word: &'a [u8],
}

impl<'a> InputLine<Spread> for NumberLine<'a> {
    ghost line = { λ l. named_line l.word.now };

    fn push_line(
        &self,
        machine: &[u8],
        event: &[u8],
        spread: &Spread,
        into: &mut Bytes,
    ) -> Result<(), NoMemory> {
        push_input(self.word, machine, event, spread, into)
    }
}

// Appends the line of a machine that some run has jammed.
fn push_jammed_one(machine: &Machine, spread: &Spread, into: &mut Bytes) -> Result<(), NoMemory>
    ensures { OnOk result (into.new ≡ into.old ++ jammed_line (machine.now, spread.now)) }
{
    if spread.most == 0 {
        return Ok(());
    }
    into.push(b"jammed ")?;
    into.push(machine.name.bytes())?;
    push_spread(spread, into)?;
    into.push(b"\n")
}

// Appends the lines of the machines that some run has jammed.
fn push_jammed(net: &Network, spreads: &List<Spread>, into: &mut Bytes) -> Result<(), NoMemory>
    ensures { OnOk result (into.new ≡ into.old
        ++ flat_map jammed_line (zip net.now.machines spreads.now)) }
{
    let count = net.machines.len().min(spreads.len());
    for m in 0..count {
        push_jammed_one(net.machines.get(m), spreads.get(m), into)?;
    }
    Ok(())
}

// So many rows from a place on, each with the most firings of a run that took it.
fn most_of(
    alloc: Global,
    rows: &List<Spread>,
    first: u64,
    count: u64,
) -> Result<List<Tally>, NoMemory>
    requires { first + count ≤ length rows.now }
    ensures { IfOk result (λ tallies. tallies
        ≡ map most_taken (take count (drop first rows.now))) }
{
    let _ = rows.len();
    let mut tallies = List::with_room(alloc, count)?;
    for k in 0..count {
        tallies.push(Tally {
            count: rows.get(first + k).most,
            first: None,
        })?;
    }
    Ok(tallies)
}

// Appends the line of each machine with rows that no run took.
fn push_never_taken(
    alloc: Global,
    net: &Network,
    rows: &List<Spread>,
    into: &mut Bytes,
) -> Result<(), NoMemory>
    requires { length rows.now ≡ length (all_rows net.now) }
    ensures { OnOk result (into.new ≡ into.old ++ never_lines net.now.machines rows.now) }
{
    let _count = rows.len();
    let mut first = 0;
    for m in 0..net.machines.len() {
        let machine = net.machines.get(m);
        let count = machine.rows.len();
        let tallies = most_of(alloc, rows, first, count)?;
        push_never(machine, &tallies, into)?;
        first += count;
    }
    Ok(())
}

// Appends the lines of the numbers of inputs, machines and rows.
fn push_numbers(net: &Network, survey: &Survey, into: &mut Bytes) -> Result<(), NoMemory>
    requires lost { length survey.now.lost ≡ length (buffers net.now) }
    requires unused { length survey.now.unused ≡ length (buffers net.now) }
    requires taken { length survey.now.taken ≡ length (all_rows net.now) }
    ensures { OnOk result (into.new ≡ into.old ++ number_lines net.now survey.now) }
{
    let alloc = *survey.kinds.allocator();
    push_inputs(&NumberLine { word: b"lost" }, net, &survey.lost, into)?;
    push_inputs(&NumberLine { word: b"unused" }, net, &survey.unused, into)?;
    push_jammed(net, &survey.jammed, into)?;
    push_never_taken(alloc, net, &survey.taken, into)
}

// Appends all lines.
fn push_lines(
    net: &Network,
    monitor: Option<&Network>,
    survey: &Survey,
    into: &mut Bytes,
) -> Result<(), NoMemory>
    requires { IsShapedBy net.now (option_copied monitor) survey.now }
    ensures { OnOk result (into.new
        ≡ into.old ++ survey_lines net.now (option_copied monitor.entry) survey.now) }
{
    push_counts(survey, into)?;
    push_kinds(&survey.kinds, into)?;
    push_others(survey.others, into)?;
    push_numbers(net, survey, into)?;
    push_ending(monitor, survey, into)
}

/// Appends the lines that tell a survey of runs of a network, with the last one where a monitor is
/// given.
pub fn push_survey(
    net: &Network,
    monitor: Option<&Network>,
    survey: &Survey,
    into: &mut Bytes,
) -> Result<(), NoMemory>
    requires { IsShapedBy net.now (option_copied monitor) survey.now }
    ensures ok { OnOk result (into.new
        ≡ into.old ++ survey_lines net.now (option_copied monitor.entry) survey.now) }
    ensures err { OnErr result (into.new ≡ into.old) }
{
    let mut text = into.beside();
    push_lines(net, monitor, survey, &mut text)?;
    into.push(text.as_slice())
}
