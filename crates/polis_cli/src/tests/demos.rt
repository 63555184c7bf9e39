// Demos, over a host that holds no file, and the texts of one, reckoned outside by a script of the
// definition.
use crate::tests::runner::{call, expect_none};
use event_buffer::OpenGate;
use net_gen::{Generated, generate};
use polis_base::{Bytes, MemoryHost, NoMemory};
use polis_words::Status;
use std::alloc::Global;
use std::process::Abort;
use std::sync::Wait;
use std::test::Fail;
use std::thread::Threads;

// Whether the first line of a text ends with `complete`.
fn ends_complete(text: &[u8]) -> bool {
    match text.iter().position(|byte| *byte == b'\n') {
        Some(end) => text[..end].ends_with(b" complete"),
        None => false,
    }
}

// A host without files after a demo, and how the demo ended.
fn shown_by<T: Threads + Wait + Sync>(
    rt: &T,
    alloc: Global,
    line: &str,
) -> Result<(MemoryHost, Status), NoMemory> {
    let mut host = MemoryHost::new(alloc);
    let status = call(rt, alloc, line, &mut host, &OpenGate)?;
    Ok((host, status))
}

// Whether a demo is done, and what it shows is complete.
fn is_done<T: Threads + Wait + Sync>(rt: &T, alloc: Global, line: &str) -> Result<bool, NoMemory> {
    let (host, status) = shown_by(rt, alloc, line)?;
    Ok(status == Status::Done && ends_complete(host.shown()))
}

// Whether two demos of one seed show the same.
fn shows_the_same<T: Threads + Wait + Sync>(
    rt: &T,
    alloc: Global,
    line: &str,
) -> Result<bool, NoMemory> {
    let (first, _) = shown_by(rt, alloc, line)?;
    let (second, _) = shown_by(rt, alloc, line)?;
    Ok(first.shown() == second.shown())
}

fn try_demos<T: Abort + Threads + Wait + Sync>(rt: &T, alloc: Global) -> Result<(), NoMemory> {
    for line in DEMOS.split("\n") {
        let is_done = is_done(rt, alloc, line)?;
        expect_none(rt, line, if is_done { "" } else { "shown text" });
    }
    Ok(())
}

#[test]
fn demos_are_complete(rt: HostRuntime) -> Result<(), Fail> {
    try_demos(&rt, rt.alloc())?;
    Ok(())
}

#[test]
fn a_demo_shows_the_same_again(rt: HostRuntime) -> Result<(), Fail> {
    assert!(rt; shows_the_same(&rt, rt.alloc(), "demo 7")?);
    Ok(())
}

const DEMOS: &str = "demo 0
demo 1
demo 7
demo 18446744073709551615";

const FIRST_LINES: &str =
    "network demo version 1\ndomain d = 0 .. 7\nevent t0 from env\nevent e0 : d\nevent o0 to env\nevent t1 from env\n";

const FIRST_MACHINE: &str =
    "machine m0 priority 3 {\n  input t0, e0\n  output e1, o0\n  state s : d = 0\n  when t0, absent e0, s = 0 do s := 1, emit e1 = 1\n  when t0, absent e0, s = 1 do s := 1, emit e1 = 3\n  when t0, absent e0, s = 2 do s := 0, emit e1 = 4\n  when t0, absent e0, s = 3 do s := 3, emit e1 = 6\n  when t0, absent e0, s = 4 do s := 3, emit e1 = 3\n  when t0, absent e0, s = 5 do s := 0, emit e1 = 0\n  when t0, absent e0, s = 6 do s := 5, emit e1 = 2\n  when t0, absent e0, s = 7 do s := 5, emit e1 = 3\n  when e0 = 1 do s := 4, emit e1 = 0\n  when e0 = 2 do s := 7, emit e1 = 1\n  when e0 = 3 do s := 0, emit e1 = 2\n  when e0 = 4 do s := 1, emit e1 = 3\n  when e0 = 5 do s := 6, emit e1 = 4\n  when e0 = 6 do s := 2, emit e1 = 5\n  when e0 = 7 do s := 5, emit e1 = 6\n  when e0 = 0 do s := 0, emit o0\n}\n";

// Where the machine's text begins.
const FIRST_MACHINE_AT: usize = 1361;

const FIRST_TICKS: &str = "t20\nt17\nt4\nt21\nt8\nt4\nt17\nt8\nt5\nt25\nsettle\nt18\nt10\n";

// The text has these bytes from a place on.
fn has_at(text: &Bytes, place: usize, wanted: &str) -> bool {
    let bytes = text.as_slice();
    match bytes.get(place..) {
        Some(rest) => rest.starts_with(wanted.as_bytes()),
        None => false,
    }
}

fn begins_as_said(made: &Generated) -> bool {
    has_at(&made.net, 0, FIRST_LINES)
        && has_at(&made.net, FIRST_MACHINE_AT, FIRST_MACHINE)
        && has_at(&made.trace, 0, FIRST_TICKS)
}

fn draws_as_said(alloc: Global) -> bool {
    match generate(alloc, 7) {
        Ok(made) => begins_as_said(&made),
        Err(_) => false,
    }
}

#[test]
fn the_first_lines(rt: HostRuntime) {
    assert!(rt; draws_as_said(rt.alloc()));
}
