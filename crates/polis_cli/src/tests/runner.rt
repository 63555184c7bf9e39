// Tries whole calls that stand as cases in texts, over files in memory. The texts are in
// sample_networks, src/cases/.
//
// A text has parts, which begin with `:: given`, and a part has cases, which begin with
// `:: case NAME`. Both have directives, which a line begins with `:: ` each; what is given comes
// before what each case of the part says. A case ends as it is wanted where each of its calls
// answers and shows what is wanted, and each file is then held as it was before, or as it is wanted.
//
//     :: file NAME TEXT            a file that is held before the call
//     :: repeat NAME COUNT TEXT    puts a text at the end of such a file, so many times
//     :: change NAME @SHARED A => B    a file with B where a shared text first has A
//     :: fail CALL                 a call of the host that fails, by its number
//     :: tear CALL BYTES           one that fails after so many bytes
//     :: call WORDS                the words of the next call; "" is an empty word
//     :: shows STATUS TEXT         calls, and wants this status and all shown texts to be this
//     :: ends STATUS TEXT          calls, and wants the shown texts to end with this
//     :: holds NAME TEXT           a file that is wanted to be held then
//     :: any NAME                  a file that is wanted to be held then, with any bytes
//     :: faults LOADS WRITES       how many calls of the host are wanted to have failed, if any
//     :: note TEXT                 nothing
//
// A text begins on the directive's line or below it. `@NAME` there stands for a shared text: a
// section `:: text NAME` of `listings`, or NAME of examples/. Each line ends with a line feed, but
// for one with `\` at its end, and `\xHH` is a byte.
use crate::tests::samples::sample;
use crate::top::polis;
use event_buffer::Gate;
use polis_base::{Bytes, MemoryHost, NoMemory, Words};
use polis_words::Status;
use sample_networks::cases::listings::SHARED;
use std::alloc::Global;
use std::process::Abort;
use std::sync::Wait;
use std::thread::Threads;

// What a call may put at the end of a name.
const ENDINGS: &[&str] = &["", ".out", ".jnl", ".lst", ".img", ".vcd", ".dot"];

// A directive: all of it, its first two words, and the rest of its line and the lines below it.
#[derive(Clone, Copy)]
struct Directive<'a> {
    all: &'a str,
    word: &'a str,
    name: &'a str,
    line: &'a str,
    below: &'a str,
}

// A case as it is tried: its host, a host that holds what is wanted, the words of the next call,
// the names that it speaks of, the faults that are wanted, and what went wrong first.
#[derive(Drop)]
struct Stage<'a> {
    alloc: Global,
    host: MemoryHost,
    wanted: MemoryHost,
    words: &'a str,
    names: String,
    faults: (u64, u64),
    wrong: &'static str,
}

/// What stands before a mark in a text, and after it.
pub fn cut<'a>(text: &'a str, mark: &str) -> (&'a str, &'a str) {
    text.split_once(mark).unwrap_or((text, ""))
}

fn directive_of(all: &str) -> Directive<'_> {
    let (first, below) = cut(all, "\n");
    let (word, rest) = cut(first, " ");
    let (name, line) = cut(rest, " ");
    Directive {
        all,
        word,
        name,
        line,
        below,
    }
}

// What stands after a title in the shared texts, up to the next one.
fn titled(title: &str) -> &'static str {
    let (_, rest) = cut(SHARED, title);
    let (text, _) = cut(rest, "\n:: text ");
    text
}

/// The shared text of a name, without its last line end.
pub fn shared(alloc: Global, name: &str) -> Result<&'static str, NoMemory> {
    let title = format!(in alloc; "\n:: text {name}\n")?;
    let text = titled(title.as_str());
    Ok(if text.is_empty() { sample(name) } else { text })
}

fn push_byte(made: &mut Bytes, text: &str) -> Result<(), NoMemory> {
    match text.split_at_checked(2) {
        Some((code, rest)) => {
            let byte = u8::from_str_radix(code, 16).unwrap_or(0);
            made.push(&[byte])?;
            made.push(rest.as_bytes())
        }
        None => Ok(()),
    }
}

// What stands after a backslash, up to the next one.
fn push_escaped(made: &mut Bytes, text: &str) -> Result<(), NoMemory> {
    if let Some(line) = text.strip_prefix("\n") {
        return made.push(line.as_bytes());
    }
    match text.strip_prefix("x") {
        Some(rest) => push_byte(made, rest),
        None => made.push(text.as_bytes()),
    }
}

fn push_text(made: &mut Bytes, text: &str) -> Result<(), NoMemory> {
    let (plain, rest) = cut(text, "\\");
    made.push(plain.as_bytes())?;
    for escaped in rest.split("\\") {
        push_escaped(made, escaped)?;
    }
    Ok(())
}

fn push_lines(made: &mut Bytes, lines: &str) -> Result<(), NoMemory> {
    if lines.is_empty() {
        return Ok(());
    }
    push_text(made, lines)?;
    if lines.ends_with("\\") {
        return Ok(());
    }
    made.push(b"\n")
}

// The text of a line alone.
fn line_text(alloc: Global, line: &str) -> Result<Bytes, NoMemory> {
    match line.strip_prefix("@") {
        Some(name) => shared_text(alloc, name),
        None => bytes_of(alloc, line),
    }
}

// The text that begins on a line and goes on below it.
fn text_of(alloc: Global, line: &str, below: &str) -> Result<Bytes, NoMemory> {
    let mut made = line_text(alloc, line)?;
    push_lines(&mut made, below)?;
    Ok(made)
}

fn bytes_of(alloc: Global, lines: &str) -> Result<Bytes, NoMemory> {
    let mut made = Bytes::new(alloc);
    push_lines(&mut made, lines)?;
    Ok(made)
}

/// A shared text.
pub fn shared_text(alloc: Global, name: &str) -> Result<Bytes, NoMemory> {
    bytes_of(alloc, shared(alloc, name)?)
}

fn number(text: &str) -> u64 {
    text.parse::<u64>().unwrap_or(0)
}

fn start<'a>(alloc: Global) -> Stage<'a> {
    Stage {
        alloc,
        host: MemoryHost::new(alloc),
        wanted: MemoryHost::new(alloc),
        words: "",
        names: String::new(alloc),
        faults: (0, 0),
        wrong: "nothing is called",
    }
}

// Keeps what goes wrong first.
fn expect_that(stage: &mut Stage<'_>, is_right: bool, wrong: &'static str) {
    if !is_right && stage.wrong.is_empty() {
        stage.wrong = wrong;
    }
}

fn add_name(stage: &mut Stage<'_>, name: &str) -> Result<(), NoMemory> {
    stage.names.push_str(" ")?;
    stage.names.push_str(name)?;
    Ok(())
}

fn want(stage: &mut Stage<'_>, name: &str, bytes: &[u8]) -> Result<(), NoMemory> {
    add_name(stage, name)?;
    stage.wanted.put(name, bytes)
}

fn put(stage: &mut Stage<'_>, name: &str, bytes: &[u8]) -> Result<(), NoMemory> {
    stage.host.put(name, bytes)?;
    stage.wanted.put(name, bytes)
}

fn put_file(stage: &mut Stage<'_>, file: &Directive<'_>) -> Result<(), NoMemory> {
    let text = text_of(stage.alloc, file.line, file.below)?;
    add_name(stage, file.name)?;
    put(stage, file.name, text.as_slice())
}

// A file with a part at its end, so many times.
fn lengthened(stage: &Stage<'_>, name: &str, part: &[u8], count: u64) -> Result<Bytes, NoMemory> {
    let mut text = Bytes::new(stage.alloc);
    text.push(stage.wanted.file(name).unwrap_or(b""))?;
    for _ in 0..count {
        text.push(part)?;
    }
    Ok(text)
}

fn repeat(stage: &mut Stage<'_>, repeat: &Directive<'_>) -> Result<(), NoMemory> {
    let (count, line) = cut(repeat.line, " ");
    let part = text_of(stage.alloc, line, repeat.below)?;
    let text = lengthened(stage, repeat.name, part.as_slice(), number(count))?;
    put(stage, repeat.name, text.as_slice())
}

// A text in which another part stands in place of one.
fn changed(alloc: Global, text: &str, change: &str) -> Result<Bytes, NoMemory> {
    let (part, other) = cut(change, " =>");
    let (before, after) = cut(text, part);
    let mut made = Bytes::new(alloc);
    push_text(&mut made, before)?;
    push_text(&mut made, other.strip_prefix(" ").unwrap_or(other))?;
    push_lines(&mut made, after)?;
    Ok(made)
}

fn change(stage: &mut Stage<'_>, directive: &Directive<'_>) -> Result<(), NoMemory> {
    let (_, rest) = cut(directive.all, " @");
    let (name, change) = cut(rest, " ");
    let text = shared(stage.alloc, name)?;
    let (part, _) = cut(change, " =>");
    if !text.contains(part) {
        stage.wrong = "a change";
    }
    let text = changed(stage.alloc, text, change)?;
    add_name(stage, directive.name)?;
    put(stage, directive.name, text.as_slice())
}

fn hold(stage: &mut Stage<'_>, held: &Directive<'_>) -> Result<(), NoMemory> {
    let text = text_of(stage.alloc, held.line, held.below)?;
    want(stage, held.name, text.as_slice())
}

fn hold_any(stage: &mut Stage<'_>, name: &str) -> Result<(), NoMemory> {
    match stage.host.file(name) {
        Some(bytes) => stage.wanted.put(name, bytes),
        None => {
            expect_that(stage, false, "a file that isn't held");
            Ok(())
        }
    }
}

// Follows a directive on a file or on the host.
fn prepare(stage: &mut Stage<'_>, directive: &Directive<'_>) -> Result<(), NoMemory> {
    let word = directive.word;
    if word == "file" {
        return put_file(stage, directive);
    }
    if word == "repeat" {
        return repeat(stage, directive);
    }
    if word == "change" {
        return change(stage, directive);
    }
    if word == "holds" {
        return hold(stage, directive);
    }
    if word == "any" {
        return hold_any(stage, directive.name);
    }
    fail(stage, directive)
}

// Follows a directive on calls that fail.
fn fail(stage: &mut Stage<'_>, directive: &Directive<'_>) -> Result<(), NoMemory> {
    if directive.word == "fail" {
        return stage.host.fail(number(directive.name));
    }
    if directive.word == "tear" {
        return stage
            .host
            .tear(number(directive.name), number(directive.line));
    }
    if directive.word == "faults" {
        stage.faults = (number(directive.name), number(directive.line));
        return Ok(());
    }
    if directive.word != "note" {
        stage.wrong = "a directive";
    }
    Ok(())
}

fn name_of(status: Status) -> &'static str {
    match status {
        Status::Done => "Done",
        Status::Usage => "Usage",
        Status::ReadFault => "ReadFault",
        Status::Refused => "Refused",
        Status::Limit => "Limit",
        Status::WriteFault => "WriteFault",
        Status::NoMemory => "NoMemory",
        Status::Illegal => "Illegal",
        Status::Differ => "Differ",
        Status::Found => "Found",
    }
}

/// The words of a line. No words stand in an empty one, and `""` is an empty word.
pub fn words_in(alloc: Global, line: &str) -> Result<Words, NoMemory> {
    let mut made = Words::new(alloc);
    if line.is_empty() {
        return Ok(made);
    }
    for word in line.split(" ") {
        made.push(if word == "\"\"" { "" } else { word })?;
    }
    Ok(made)
}

// The one place where tests call `polis`. It says nothing of what the call gives, so that what is
// proved of the call isn't carried through the tests.
fn call_words<T: Threads + Wait + Sync, G: Gate + Sync>(
    rt: &T,
    alloc: Global,
    words: &Words,
    host: &mut MemoryHost,
    gate: &G,
) -> Status {
    polis(rt, alloc, words, host, gate)
}

/// What a call answers whose words stand in a line.
pub fn call<T: Threads + Wait + Sync, G: Gate + Sync>(
    rt: &T,
    alloc: Global,
    line: &str,
    host: &mut MemoryHost,
    gate: &G,
) -> Result<Status, NoMemory> {
    let words = words_in(alloc, line)?;
    Ok(call_words(rt, alloc, &words, host, gate))
}

// Whether the host shows this, or ends with it.
fn has_shown(host: &MemoryHost, word: &str, text: &[u8]) -> bool {
    if word == "ends" {
        return host.shown().ends_with(text);
    }
    host.shown() == text
}

// Looks at what a call answered and showed.
fn judge(stage: &mut Stage<'_>, wanted: &Directive<'_>, status: Status) -> Result<(), NoMemory> {
    let text = text_of(stage.alloc, wanted.line, wanted.below)?;
    let is_shown = has_shown(&stage.host, wanted.word, text.as_slice());
    expect_that(stage, name_of(status) == wanted.name, "status");
    expect_that(stage, is_shown, "shown text");
    Ok(())
}

// Makes the call, and looks at what it answers and shows.
fn perform<T: Threads + Wait + Sync, G: Gate + Sync>(
    rt: &T,
    stage: &mut Stage<'_>,
    wanted: &Directive<'_>,
    gate: &G,
) -> Result<(), NoMemory> {
    let status = call(rt, stage.alloc, stage.words, &mut stage.host, gate)?;
    if stage.wrong == "nothing is called" {
        stage.wrong = "";
    }
    judge(stage, wanted, status)
}

// Follows a directive.
fn follow<'a, T: Threads + Wait + Sync, G: Gate + Sync>(
    rt: &T,
    stage: &mut Stage<'a>,
    directive: &Directive<'a>,
    gate: &G,
) -> Result<(), NoMemory> {
    if directive.word == "call" {
        let (first, _) = cut(directive.all, "\n");
        let (_, words) = cut(first, " ");
        stage.words = words;
        return add_name(stage, words);
    }
    if directive.word == "shows" || directive.word == "ends" {
        return perform(rt, stage, directive, gate);
    }
    prepare(stage, directive)
}

// Follows the directives of a block, and answers what stands before them.
fn follow_all<'a, T: Threads + Wait + Sync, G: Gate + Sync>(
    rt: &T,
    stage: &mut Stage<'a>,
    block: &'a str,
    gate: &G,
) -> Result<&'a str, NoMemory> {
    let (name, directives) = cut(block, "\n:: ");
    if directives.is_empty() {
        return Ok(name);
    }
    for directive in directives.split("\n:: ") {
        follow(rt, stage, &directive_of(directive), gate)?;
    }
    Ok(name)
}

fn ended(alloc: Global, name: &str, ending: &str) -> Result<String, NoMemory> {
    let mut made = String::from_str(alloc, name)?;
    made.push_str(ending)?;
    Ok(made)
}

// Whether what is held under a name is what is wanted.
fn is_same(stage: &Stage<'_>, name: &str) -> bool {
    stage.host.file(name) == stage.wanted.file(name)
}

// Whether it is, under each name that a call makes of this one.
fn are_same(stage: &Stage<'_>, name: &str) -> Result<bool, NoMemory> {
    for ending in ENDINGS {
        let name = ended(stage.alloc, name, ending)?;
        if !is_same(stage, name.as_str()) {
            return Ok(false);
        }
    }
    Ok(true)
}

// Whether all files are held as they are wanted.
fn is_held(stage: &Stage<'_>) -> Result<bool, NoMemory> {
    for name in stage.names.split(" ") {
        if !are_same(stage, name)? {
            return Ok(false);
        }
    }
    Ok(true)
}

// What is wrong after all directives, or nothing.
fn wrong_in(stage: &mut Stage<'_>) -> Result<&'static str, NoMemory> {
    let is_held = is_held(stage)?;
    expect_that(stage, is_held, "held files");
    let faults = (stage.host.load_faults(), stage.host.write_faults());
    let are_counted = faults == stage.faults;
    expect_that(stage, are_counted, "faults");
    Ok(stage.wrong)
}

/// Fails the test where something of a case is wrong.
pub fn expect_none<T: Abort>(rt: &T, case: &str, wrong: &str) {
    assert!(rt; wrong.is_empty(), "{case}: {wrong}");
}

// Follows a case, and answers its name and what is wrong then.
fn follow_case<'a, T: Threads + Wait + Sync, G: Gate + Sync>(
    rt: &T,
    stage: &mut Stage<'a>,
    given: &'a str,
    case: &'a str,
    gate: &G,
) -> Result<(&'a str, &'static str), NoMemory> {
    follow_all(rt, stage, given, gate)?;
    let name = follow_all(rt, stage, case, gate)?;
    let wrong = wrong_in(stage)?;
    Ok((name, wrong))
}

fn try_case<T: Abort + Threads + Wait + Sync, G: Gate + Sync>(
    rt: &T,
    alloc: Global,
    given: &str,
    case: &str,
    gate: &G,
) -> Result<(), NoMemory> {
    let mut stage = start(alloc);
    let (name, wrong) = follow_case(rt, &mut stage, given, case, gate)?;
    expect_none(rt, name, wrong);
    Ok(())
}

fn try_part<T: Abort + Threads + Wait + Sync, G: Gate + Sync>(
    rt: &T,
    alloc: Global,
    part: &str,
    gate: &G,
) -> Result<(), NoMemory> {
    let (given, cases) = cut(part, "\n:: case ");
    if cases.is_empty() {
        return Ok(());
    }
    for case in cases.split("\n:: case ") {
        try_case(rt, alloc, given, case, gate)?;
    }
    Ok(())
}

/// Tries each case of a text.
pub fn try_cases<T: Abort + Threads + Wait + Sync, G: Gate + Sync>(
    rt: &T,
    alloc: Global,
    text: &str,
    gate: &G,
) -> Result<(), NoMemory> {
    let text = text.strip_suffix("\n").unwrap_or(text);
    for part in text.split("\n:: given") {
        try_part(rt, alloc, part, gate)?;
    }
    Ok(())
}
