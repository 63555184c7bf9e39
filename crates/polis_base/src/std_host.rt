// The system's files and standard output as a host: the trusted edge.
ghost use Rattle.std.specs.Prelude.{◌≡◌, ◌≢◌, ◌↔◌, ℕ, ◌+◌, ◌<◌, ◌≤◌, List, [], None, length, take, IfSome};
ghost use Rattle.std.specs.IoError.{error_kind};
ghost use Rattle.std.specs.Io.KnownBytes.{Appends, Consumes, Keeps};
ghost use Rattle.polis_base.specs.Faults.{no_faults};
ghost use Rattle.polis_base.specs.Host.{CountsFault, load_failed, save_failed};

use crate::bytes::Bytes;
use crate::host::{Host, Load, Save};
use std::alloc::Global;
use std::io::{ErrorKind, Read, Write};
use std::marker::Model;
use std::{fs, io};

// How many bytes one read asks for at most.
const PIECE: usize = 65_536;

/// The system's files and standard output. A name is a path. It tells neither what the files hold
/// nor what was shown.
#[derive(Drop)]
pub struct StdHost {
    rt: HostRuntime,
    alloc: Global,
    load_faults: u64,
    write_faults: u64,
}

impl Model for StdHost {
    ghost use Rattle.polis_base.specs.Faults.{Faults};

    ghost Value = { Faults };

    ghost view = { λ h. record { load_faults = h.load_faults; write_faults = h.write_faults } };
}

impl StdHost {
    /// A host that keeps the runtime and the allocator, and has no faults yet.
    pub fn new(rt: &HostRuntime, alloc: Global) -> StdHost
        ensures { result ≡ no_faults }
    {
        StdHost {
            rt: *rt,
            alloc,
            load_faults: 0,
            write_faults: 0,
        }
    }

    // Counts a load that failed.
    fn count_load(&mut self, answer: Load) -> Load
        ensures answer { result ≡ answer }
        ensures load_faults { CountsFault (load_failed answer) self.old.load_faults self.new.load_faults }
        ensures write_faults { self.new.write_faults ≡ self.old.write_faults }
    {
        if answer == Load::Failed {
            self.load_faults = self.load_faults.saturating_add(1);
        }
        answer
    }

    // Counts a save or a show that failed.
    fn count_write(&mut self, answer: Save) -> Save
        ensures answer { result ≡ answer }
        ensures load_faults { self.new.load_faults ≡ self.old.load_faults }
        ensures write_faults { CountsFault (save_failed answer) self.old.write_faults self.new.write_faults }
    {
        if answer == Save::Failed {
            self.write_faults = self.write_faults.saturating_add(1);
        }
        answer
    }
}

// What a load answers where a file can't be opened.
fn unopened(error: &io::Error) -> Load
    ensures absent { result ≡ Load.Absent ↔ error_kind error.now ≡ ErrorKind.NotFound }
    ensures no_memory { result ≡ Load.NoMemory ↔ error_kind error.now ≡ ErrorKind.OutOfMemory }
    ensures unread { result ≢ Load.Read }
    ensures unmeasured { result ≢ Load.TooLong }
{
    match error.kind() {
        ErrorKind::NotFound => Load::Absent,
        ErrorKind::OutOfMemory => Load::NoMemory,
        _ => Load::Failed,
    }
}

// Reads to the end, and at most one byte more than `max`. A read that gives nothing is the end;
// each other takes at least one byte.
fn read_whole<R: Read>(reader: &mut R, max: u64, piece: &mut [u8], into: &mut Bytes) -> Load
    requires empty { into.old ≡ [] }
    requires room { 0 < length piece.old }
    ensures within { result ≡ Load.Read → length into.new ≤ max }
    ensures whole { result ≡ Load.Read
        → IfSome (R.remaining reader.old) (λ bytes. into.new ≡ bytes) }
    ensures long { result ≡ Load.TooLong
        → IfSome (R.remaining reader.old) (λ bytes. max < length bytes) }
    ensures found { result ≢ Load.Absent }
    ensures bounded { (bs : List ℕ) × Consumes (R.remaining reader.old) (R.remaining reader.new) bs
        × (length bs ≤ max + 1) }
{
    let mut room = max;
    loop {
        let wanted = room.saturating_add(1).min(piece.len() as u64) as usize;
        let count = match reader.read(&mut piece[..wanted]) {
            Ok(count) => count,
            Err(error) if error.kind() == ErrorKind::OutOfMemory => return Load::NoMemory,
            Err(_) => return Load::Failed,
        };
        if count == 0 {
            return Load::Read;
        }
        if count as u64 > room {
            return Load::TooLong;
        }
        if into.push(&piece[..count]).is_err() {
            return Load::NoMemory;
        }
        room -= count as u64;
    }
}

// Writes all bytes. A write that takes nothing of a piece that isn't empty is a fault. Running out
// of memory is told apart only where nothing was written.
fn write_whole<W: Write>(writer: &mut W, bytes: &[u8]) -> Save
    ensures written { result ≡ Save.Written
        → Appends (W.contents writer.old) (W.contents writer.new) bytes.now }
    ensures kept { result ≡ Save.NoMemory → Keeps (W.contents writer.old) (W.contents writer.new) }
    ensures prefix { (k : ℕ)
        × Appends (W.contents writer.old) (W.contents writer.new) (take k bytes.now) }
{
    let mut rest = bytes;
    while !rest.is_empty() {
        match writer.write(rest) {
            Ok(0) => return Save::Failed,
            Ok(count) => rest = &rest[count..],
            Err(error) if error.kind() == ErrorKind::OutOfMemory && rest.len() == bytes.len() => {
                return Save::NoMemory;
            }
            Err(_) => return Save::Failed,
        }
    }
    match writer.flush() {
        Ok(()) => Save::Written,
        Err(_) => Save::Failed,
    }
}

// Loads a file.
fn read_file(rt: &HostRuntime, alloc: Global, name: &str, max: u64, into: &mut Bytes) -> Load
    requires { into.old ≡ [] }
    ensures { result ≡ Load.Read → length into.new ≤ max }
{
    let Ok(mut piece) = Vec::from_elem(alloc, 0, PIECE) else {
        return Load::NoMemory;
    };
    match fs::open(rt, name) {
        Ok(mut file) => read_whole(&mut file, max, &mut piece, into),
        Err(error) => unopened(&error),
    }
}

// Saves a file. Once it is opened its old content is lost, so running out of memory is a fault from
// then on.
fn write_file(rt: &HostRuntime, name: &str, bytes: &[u8]) -> Save {
    match fs::create(rt, name) {
        Ok(mut file) => match write_whole(&mut file, bytes) {
            Save::Written => Save::Written,
            Save::Failed | Save::NoMemory => Save::Failed,
        },
        Err(error) if error.kind() == ErrorKind::OutOfMemory => Save::NoMemory,
        Err(_) => Save::Failed,
    }
}

impl Host for StdHost {
    ghost files = { λ _. None };

    ghost shown = { λ _. None };

    ghost load_faults = { λ h. h.load_faults };

    ghost write_faults = { λ h. h.write_faults };

    fn load(&mut self, name: &str, max: u64, into: &mut Bytes) -> Load {
        let answer = read_file(&self.rt, self.alloc, name, max, into);
        self.count_load(answer)
    }

    fn save(&mut self, name: &str, bytes: &[u8]) -> Save {
        let answer = write_file(&self.rt, name, bytes);
        self.count_write(answer)
    }

    fn show(&mut self, bytes: &[u8]) -> Save {
        let answer = write_whole(&mut io::writer(&self.rt), bytes);
        self.count_write(answer)
    }
}
