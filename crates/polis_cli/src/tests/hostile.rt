// Each beginning of a network, and each image of the lamp that is cut off or has another byte.
use crate::tests::runner::{call, expect_none, shared_text};
use event_buffer::OpenGate;
use polis_base::{Bytes, MemoryHost, NoMemory};
use polis_words::Status;
use sample_networks::texts::LAMP;
use std::alloc::Global;
use std::process::Abort;
use std::sync::Wait;
use std::test::Fail;
use std::thread::Threads;

// How many bytes of the lamp's text stand before its last brace.
const BEFORE_LAST: usize = 214;

// How many bytes the image of the lamp has.
const IMAGE_BYTES: usize = 56;

fn is_one_line(shown: &[u8]) -> bool {
    shown.starts_with(b"refused net ")
        && shown.ends_with(b"\n")
        && shown.iter().filter(|byte| **byte == b'\n').count() == 1
}

fn saves_none(host: &MemoryHost) -> bool {
    host.file("o.out").is_none() && host.file("o.jnl").is_none() && host.file("o.lst").is_none()
}

// A host that holds these bytes of a network or an image, beside the lamp and one press.
fn host_with(alloc: Global, name: &str, bytes: &[u8]) -> Result<MemoryHost, NoMemory> {
    let mut host = MemoryHost::new(alloc);
    host.put("net", LAMP.as_bytes())?;
    host.put("trc", b"press\n")?;
    host.put(name, bytes)?;
    Ok(host)
}

// Whether a run of the first bytes of the lamp's text is refused by one line, and saves nothing.
fn refuses_beginning<T: Threads + Wait + Sync>(
    rt: &T,
    alloc: Global,
    len: usize,
) -> Result<bool, NoMemory> {
    let text = LAMP.as_bytes();
    let mut host = host_with(alloc, "net", &text[..len.min(text.len())])?;
    let status = call(rt, alloc, "run net trc o", &mut host, &OpenGate)?;
    Ok(status == Status::Refused && is_one_line(host.shown()) && saves_none(&host))
}

fn try_beginnings<T: Abort + Threads + Wait + Sync>(rt: &T, alloc: Global) -> Result<(), NoMemory> {
    for len in 0..=BEFORE_LAST {
        let is_refused = refuses_beginning(rt, alloc, len)?;
        expect_none(
            rt,
            "a beginning",
            if is_refused { "" } else { "not refused" },
        );
    }
    Ok(())
}

// Whether the call was refused, or gave the lamp's run.
fn is_right(host: &MemoryHost, status: Status, pressed: &[u8]) -> bool {
    match status {
        Status::Refused => host.file("p.jnl").is_none(),
        Status::Done => host.file("p.jnl") == Some(pressed),
        _ => false,
    }
}

// Whether a run by an image is so.
fn runs_right<T: Threads + Wait + Sync>(
    rt: &T,
    alloc: Global,
    image: &[u8],
    pressed: &[u8],
) -> Result<bool, NoMemory> {
    let mut host = host_with(alloc, "o.img", image)?;
    let status = call(
        rt,
        alloc,
        "run net trc p --image o.img",
        &mut host,
        &OpenGate,
    )?;
    Ok(is_right(&host, status, pressed))
}

// The image up to a place, another byte there, and what stands after it.
fn changed(alloc: Global, image: &[u8], place: usize) -> Result<Bytes, NoMemory> {
    let (before, rest) = image.split_at(place.min(image.len()));
    let mut made = Bytes::new(alloc);
    made.push(before)?;
    if let Some((byte, after)) = rest.split_first() {
        made.push(&[*byte ^ 1])?;
        made.push(after)?;
    }
    Ok(made)
}

// Whether a run by the image is so with another byte at a place, and where it is cut off there.
fn runs_right_at<T: Threads + Wait + Sync>(
    rt: &T,
    alloc: Global,
    (image, pressed): (&[u8], &[u8]),
    place: usize,
) -> Result<bool, NoMemory> {
    let other = changed(alloc, image, place)?;
    let of_other = runs_right(rt, alloc, other.as_slice(), pressed)?;
    let of_first = runs_right(rt, alloc, &image[..place.min(image.len())], pressed)?;
    Ok(of_other && of_first)
}

fn try_images<T: Abort + Threads + Wait + Sync>(rt: &T, alloc: Global) -> Result<(), NoMemory> {
    let image = shared_text(alloc, "lamp.img")?;
    let pressed = shared_text(alloc, "pressed.jnl")?;
    for place in 0..IMAGE_BYTES {
        let is_right = runs_right_at(rt, alloc, (image.as_slice(), pressed.as_slice()), place)?;
        expect_none(rt, "an image", if is_right { "" } else { "not right" });
    }
    Ok(())
}

#[test]
fn refuses_each_beginning_of_a_network(rt: HostRuntime) -> Result<(), Fail> {
    try_beginnings(&rt, rt.alloc())?;
    Ok(())
}

#[test]
fn never_runs_wrong_images(rt: HostRuntime) -> Result<(), Fail> {
    try_images(&rt, rt.alloc())?;
    Ok(())
}
