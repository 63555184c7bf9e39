// A host over the system's files.
ghost use Rattle.std.specs.Prelude.{◌≡◌, []};

use polis_base::{Bytes, Host, Load, Save, StdHost};
use std::alloc::Global;
use std::fs;
use std::test::Fail;

const NAME: &str = "polis_cli.saved";

const TEXT: &[u8] = b"a saved text";

fn saves(host: &mut StdHost) -> bool {
    host.save(NAME, TEXT) == Save::Written
}

fn shows(host: &mut StdHost) -> bool {
    host.show(b"") == Save::Written
}

// What a load of at most so many bytes answers.
fn load(host: &mut StdHost, name: &str, max: u64, into: &mut Bytes) -> Load
    requires { into.old ≡ [] }
{
    host.load(name, max, into)
}

fn answers(alloc: Global, host: &mut StdHost, name: &str, max: u64, wanted: Load) -> bool {
    let mut into = Bytes::new(alloc);
    load(host, name, max, &mut into) == wanted
}

fn loads_all(alloc: Global, host: &mut StdHost) -> bool {
    let mut into = Bytes::new(alloc);
    load(host, NAME, 12, &mut into) == Load::Read && into.as_slice() == TEXT
}

// The file of twelve bytes is loaded within that limit, and not within a smaller one.
fn loads_up_to_twelve(alloc: Global, host: &mut StdHost) -> bool {
    loads_all(alloc, host) && answers(alloc, host, NAME, 11, Load::TooLong)
}

// No file has this name, and a folder is no file.
fn loads_nothing(alloc: Global, host: &mut StdHost) -> bool {
    answers(alloc, host, NAME, 12, Load::Absent) && answers(alloc, host, ".", 12, Load::Failed)
}

#[test]
fn goes_over_the_systems_files(rt: HostRuntime) -> Result<(), Fail> {
    let mut host = StdHost::new(&rt, rt.alloc());
    assert!(rt; saves(&mut host));
    let saved = fs::read(&rt, NAME)?;
    assert!(rt; saved.as_slice() == TEXT);
    assert!(rt; loads_up_to_twelve(rt.alloc(), &mut host));
    fs::remove_file(&rt, NAME)?;
    assert!(rt; loads_nothing(rt.alloc(), &mut host));
    assert!(rt; shows(&mut host));
    Ok(())
}
