// What the program says of its command line, and its version.
ghost use Rattle.std.specs.Prelude.{◌≡◌, ◌≤◌, ◌↔◌, ◌⊎◌, codes, length, IfOk, IfSome, IsTrue};

use polis_base::{Bytes, NoMemory, Words};
use std::alloc::Global;

// A command: its name, the words that follow it, and what it does.
struct Entry(&'static str, &'static [u8], &'static [u8]);

// Commands under one title.
struct Section {
    title: &'static [u8],
    entries: &'static [Entry],
}

const RUNS_AND_CODE: &[Entry] = &[
    Entry(
        "run",
        b"NET TRACE STEM [--workers W] [--limit N] [--image IMAGE]",
        b"    Runs the network text NET on the trace text TRACE. Saves the output events as
    STEM.out, the journal as STEM.jnl and the listing of the compiled machines as
    STEM.lst, and shows a summary. W is the number of workers, from 1 to 8, and 1 if not
    given. N is the largest number of journal entries, from 1 to 60000, and 60000 if not
    given. With --image, runs the code in the file IMAGE, after checking it against the
    tables of NET, and saves no listing.",
    ),
    Entry(
        "shuffle",
        b"NET TRACE STEM SEED [--order ORDER] [--limit N]",
        b"    Runs the network text NET on the trace text TRACE, and draws each entry of the
    journal from those that may come next. SEED, a number below 2^64, determines all
    draws. Saves the output events as STEM.out and the journal as STEM.jnl, and shows
    the number of entries and of lost deliveries. With ORDER free, all legal entries may
    come next; with settled, the environment waits at each settle until the network can
    do nothing more; with scheduled, the network also follows its scheduler; with mixed,
    and without the option, one of these three is drawn first. N is as for run.",
    ),
    Entry(
        "survey",
        b"NET TRACE RUNS [--seed S] [--order ORDER] [--limit N] [--workers W] [--watch MONITOR]",
        b"    Draws RUNS runs, from 1 to 100000, as shuffle does, from the seeds S, S + 1 and so
    on, and shows what they have in common: how many are complete; which outputs they
    have, which events were lost or consumed without effect, and at which machines
    events blocked each other, each with a seed that shows it; and which rows no run
    took. S is 0 if not given. W is the number of workers that draw the runs, from 1 to
    8, and 1 if not given; the lines shown are the same for each W. With --watch, the
    last line says of how many runs the network text MONITOR complains, as watch does.
    ORDER and N are as for shuffle.",
    ),
    Entry(
        "compile",
        b"NET STEM",
        b"    Compiles the machines of the network text NET, saves their listing as STEM.lst, and
    shows how large their graphs and their code are.",
    ),
    Entry(
        "image",
        b"NET STEM",
        b"    Compiles the machines of the network text NET, saves their code as the image
    STEM.img, and shows how many bytes it has.",
    ),
    Entry(
        "demo",
        b"SEED",
        b"    Draws a network of 24 to 48 machines and a trace of 2000 events from the number
    SEED, below 2^64, runs the network on the trace, and shows a summary. Reads and
    saves no file.",
    ),
];

const NETWORKS: &[Entry] = &[
    Entry(
        "check",
        b"NET",
        b"    Says whether the network text NET is accepted, and shows how large it is.",
    ),
    Entry(
        "explain",
        b"NET [TRACE [JOURNAL]]",
        b"    Judges these files as check and replay do. Where one is refused, or JOURNAL isn't
    legal, also shows where and why.",
    ),
    Entry(
        "equiv",
        b"NET NET2",
        b"    Says whether the network texts NET and NET2, which may differ in rows and priorities
    alone, have the same tables, and so the same legal runs. Otherwise shows the first
    machine and the first snapshot on which they differ.",
    ),
    Entry(
        "bound",
        b"NET [T S G H]",
        b"    Compiles the machines of the network text NET, and shows for each machine the most
    and the least that a reaction costs, each with the first snapshot that costs it. T,
    S, G and H are the costs of a test, a set, a goto and a halt, from 0 to 1000000
    each, and 1 each if not given.",
    ),
    Entry(
        "lint",
        b"NET",
        b"    Judges NET as check does, and shows for each machine what its table leaves open:
    snapshots on which events block each other, rows that are never enabled or that
    repeat another one, inputs and state variables that change nothing, outputs that are
    never emitted, inputs that are consumed without effect, and whether the machine is
    too large for the order of its variables to be searched. Then shows the domains that
    no event and no state variable has.",
    ),
    Entry(
        "draw",
        b"NET STEM",
        b"    Compiles the machines of the network text NET, saves pictures of the network and of
    the machines' graphs as STEM.dot, for Graphviz, and shows what compile shows.",
    ),
];

const JOURNALS: &[Entry] = &[
    Entry(
        "replay",
        b"NET TRACE JOURNAL",
        b"    Says whether the journal text JOURNAL is a legal run of NET on TRACE, with rising
    stamps where it has any, and whether it is complete.",
    ),
    Entry(
        "migrate",
        b"NET TRACE JOURNAL STEM",
        b"    Judges JOURNAL as replay does, and saves it with its least stamps as STEM.jnl.",
    ),
    Entry(
        "losses",
        b"NET TRACE JOURNAL",
        b"    Judges JOURNAL as replay does, and shows for each input of each machine how many
    deliveries came, were read and were lost, whether one is left unread, and which
    entry was the first to overwrite one.",
    ),
    Entry(
        "chart",
        b"NET TRACE JOURNAL [--from A] [--to B]",
        b"    Judges JOURNAL as replay does, and shows it as a chart of messages: a line for each
    entry, and a column for the environment and for each machine that takes part. Shows
    the entries from number A on and below number B, both from 0 to 60000; A is 0 and B
    is 60000 if not given.",
    ),
    Entry(
        "cover",
        b"NET TRACE JOURNAL",
        b"    Judges JOURNAL as replay does, and shows for each machine how often it fired, how
    often it did nothing, and how often this was because events blocked each other,
    which rows were taken and which never, and for each input how often it was read, and
    how often without effect.",
    ),
    Entry(
        "watch",
        b"NET TRACE JOURNAL MONITOR",
        b"    Judges JOURNAL as replay does, and runs the network text MONITOR on its output
    events, after each of which MONITOR runs until it can do nothing more. Shows the
    first output event of MONITOR with the entry of JOURNAL that led to it; or held if
    there is none; or unfinished if there is none and MONITOR's run was cut off at 60000
    entries.",
    ),
    Entry(
        "wave",
        b"NET TRACE JOURNAL STEM",
        b"    Judges JOURNAL as replay does, and saves the run entry by entry as STEM.vcd, for
    wave viewers.",
    ),
];

const SECTIONS: &[Section] = &[
    Section {
        title: b"Runs and code",
        entries: RUNS_AND_CODE,
    },
    Section {
        title: b"Networks",
        entries: NETWORKS,
    },
    Section {
        title: b"Journals",
        entries: JOURNALS,
    },
];

const THIS_PROGRAM: &[u8] = b"This program
  polis --help [COMMAND]
    Shows this text, or only the part about COMMAND. help and -h mean the same, and all
    three may stand after the command instead, as in polis run --help. A file of such a
    name is given as ./help.
  polis --version
    Shows the version.

docs/GUIDE.md shows each command on examples, and docs/FORMATS.md states each text.
";

const VERSION: &[u8] = b"polis 0.1.0\n";

// Whether a word asks for help.
fn is_help(word: &str) -> bool
    ensures { IsTrue result
        ↔ ((word.now ≡ codes "help") ⊎ (word.now ≡ codes "--help") ⊎ (word.now ≡ codes "-h")) }
{
    matches!(word, "help" | "--help" | "-h")
}

// The command of this name, if there is one.
fn entry_of(name: &str) -> Option<&'static Entry> {
    for section in SECTIONS {
        for entry in section.entries {
            if entry.0 == name {
                return Some(entry);
            }
        }
    }
    None
}

fn push_entry(into: &mut Bytes, entry: &Entry) -> Result<(), NoMemory> {
    let Entry(name, form, text) = entry;
    into.push(b"  polis ")?;
    into.push(name.as_bytes())?;
    into.push(b" ")?;
    into.push(form)?;
    into.push(b"\n")?;
    into.push(text)?;
    into.push(b"\n")
}

fn push_section(into: &mut Bytes, section: &Section) -> Result<(), NoMemory> {
    into.push(section.title)?;
    into.push(b"\n")?;
    for entry in section.entries {
        push_entry(into, entry)?;
    }
    into.push(b"\n")
}

// What is said of one command, or of all.
fn text_of(alloc: Global, entry: Option<&Entry>) -> Result<Bytes, NoMemory> {
    let mut text = Bytes::new(alloc);
    match entry {
        Some(entry) => push_entry(&mut text, entry)?,
        None => {
            for section in SECTIONS {
                push_section(&mut text, section)?;
            }
            text.push(THIS_PROGRAM)?;
        }
    }
    Ok(text)
}

// Of two words, the command that one of them names where the other one asks for help.
fn asked_entry(first: &str, second: &str) -> Option<&'static Entry> {
    if is_help(second) {
        return entry_of(first);
    }
    if is_help(first) {
        return entry_of(second);
    }
    None
}

// The help that the words ask for, where they ask for help and for nothing else: by a word that
// does, alone or beside the name of a command.
fn asked_help(alloc: Global, words: &Words) -> Result<Option<Bytes>, NoMemory>
    ensures { IfOk result (λ text. IfSome text (λ _. length words.now ≤ 2)) }
{
    let entry = match words.len() {
        1 if is_help(words.get(0)) => None,
        2 => match asked_entry(words.get(0), words.get(1)) {
            Some(entry) => Some(entry),
            None => return Ok(None),
        },
        _ => return Ok(None),
    };
    let text = text_of(alloc, entry)?;
    Ok(Some(text))
}

/// The text that the words ask for, where they ask for the help or the version and for nothing else.
pub fn asked_text(alloc: Global, words: &Words) -> Result<Option<Bytes>, NoMemory>
    ensures { IfOk result (λ text. IfSome text (λ _. length words.now ≤ 2)) }
{
    if words.len() == 1 && words.get(0) == "--version" {
        let mut text = Bytes::new(alloc);
        text.push(VERSION)?;
        return Ok(Some(text));
    }
    asked_help(alloc, words)
}

/// The help on the command that the first word names, or all of it.
pub fn help_for(alloc: Global, words: &Words) -> Result<Bytes, NoMemory> {
    let entry = if words.len() == 0 {
        None
    } else {
        entry_of(words.get(0))
    };
    text_of(alloc, entry)
}
