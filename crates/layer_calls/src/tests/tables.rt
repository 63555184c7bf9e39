// What a journal used of a network's tables, and what these leave open.
ghost use Rattle.std.specs.Prelude.{IfOk};
ghost use Rattle.journals.specs.Journals.{IsJournal};
ghost use Rattle.table_use.specs.Coverage.{AreTablesOf};
ghost use Rattle.table_use.specs.Memos.{AreMemos};

use crate::inputs::network_of;
use journal_text::read_journal;
use journals::Journal;
use polis_base::{Bytes, NoMemory};
use sample_networks::texts::{JOIN, LAMP};
use std::alloc::Global;
use std::test::Fail;
use table_use::{
    Memos, Tables, coverage, coverage_with, lint, memos_of, push_coverage, push_lint,
    push_unused_domain, tables_of, unused_domains,
};
use transition_table::Network;

// A machine that leaves much open.
const ODD: &str = "network odd version 1
domain bit = { off, on }
domain spare = 0 .. 3
event a from env
event b from env
event c from env
event x to env
event y to env
machine m priority 0 {
  input a, b, c
  output x, y
  state k : bit = off
  when a, absent b do emit x
  when b, absent a do k := on
  when a, absent b, absent c do emit x
  when a, absent a do emit y
}
";

const ODD_JOURNAL: &str = "polis journal 1
dep env m c
dep env m b
fire m : b c ; k=off -> k=on ; -
dep env m a
dep env m b
idle m : a b ; k=on
end 6 complete
";

const ODD_USED: &str = "machine m fired 1 idle 1 jammed 1 first 5
row m 1 taken 1
never m 3 : 0 2 3
input m a read 0 unused 0 first -
input m b read 1 unused 0 first -
input m c read 1 unused 1 first 2
";

const JOIN_JOURNAL: &str = "polis journal 1
dep env m a
dep env m a
dep env m b
fire m : a b ; - -> - ; c
end 4 complete
";

const JOIN_USED: &str = "machine m fired 1 idle 0 jammed 0 first -
row m 0 taken 1
input m a read 1 unused 0 first -
input m b read 1 unused 0 first -
";

const ODD_OPEN: &str = "machine m seen 14 fire 8 jam 4
jam m first a b ; k=off
row m 3 never
row m 2 repeats 0
input m c ignored
state m k ignored
output m y never
unused m c 4 first b c ; k=off
domain 1 unused
";

const JOIN_OPEN: &str = "machine m seen 3 fire 1 jam 0
";

const LAMP_OPEN: &str = "machine lamp_ctl seen 2 fire 1 jam 0
";

// The journal of a text that fits the network. Of any other text it is out of memory.
fn journal_of(alloc: Global, net: &Network, text: &str) -> Result<Journal, NoMemory>
    ensures { IfOk result (λ journal. IsJournal net.now journal) }
{
    match read_journal(alloc, net, text.as_bytes()) {
        Ok(read) => Ok(read.journal),
        Err(_) => Err(NoMemory),
    }
}

// Whether the lines of what a journal used are these.
fn is_used(alloc: Global, net: &str, journal: &str, wanted: &str) -> Result<bool, NoMemory> {
    let net = network_of(alloc, net)?;
    let journal = journal_of(alloc, &net, journal)?;
    let used = coverage(alloc, &net, &journal)?;
    let mut text = Bytes::new(alloc);
    push_coverage(&net, &used, &mut text)?;
    Ok(text.as_slice() == wanted.as_bytes())
}

// The same by what is known of snapshots.
fn is_used_with(
    alloc: Global,
    net: &Network,
    tables: &Tables,
    memos: &mut Memos,
    journal: &str,
    wanted: &str,
) -> Result<bool, NoMemory>
    requires tables { AreTablesOf net.now tables.now }
    requires memos { AreMemos net.now tables.now memos.old.items }
    ensures { IfOk result (λ same. AreMemos net.now tables.now memos.new.items) }
{
    let journal = journal_of(alloc, net, journal)?;
    let used = coverage_with(alloc, net, tables, memos, &journal)?;
    let mut text = Bytes::new(alloc);
    push_coverage(net, &used, &mut text)?;
    Ok(text.as_slice() == wanted.as_bytes())
}

// Whether they are the same where all snapshots are known that the journal meets.
fn is_used_twice(alloc: Global, net: &str, journal: &str, wanted: &str) -> Result<bool, NoMemory> {
    let net = network_of(alloc, net)?;
    let tables = tables_of(alloc, &net)?;
    let mut memos = memos_of(alloc, &net, &tables)?;
    let first = is_used_with(alloc, &net, &tables, &mut memos, journal, wanted)?;
    let second = is_used_with(alloc, &net, &tables, &mut memos, journal, wanted)?;
    Ok(first && second)
}

#[test]
fn journals_use_known_snapshots(rt: HostRuntime) -> Result<(), Fail> {
    assert!(rt; is_used_twice(rt.alloc(), ODD, ODD_JOURNAL, ODD_USED)?);
    assert!(rt; is_used_twice(rt.alloc(), JOIN, JOIN_JOURNAL, JOIN_USED)?);
    Ok(())
}

#[test]
fn journals_use_tables(rt: HostRuntime) -> Result<(), Fail> {
    assert!(rt; is_used(rt.alloc(), ODD, ODD_JOURNAL, ODD_USED)?);
    assert!(rt; is_used(rt.alloc(), JOIN, JOIN_JOURNAL, JOIN_USED)?);
    Ok(())
}

// Appends the lines of each machine.
fn push_machines(alloc: Global, net: &Network, into: &mut Bytes) -> Result<(), NoMemory> {
    for m in 0..net.machines.len() as u32 {
        let found = lint(alloc, net, m)?;
        push_lint(net, m, &found, into)?;
    }
    Ok(())
}

// Appends the lines of the domains that none has, each with its number in the name's place.
fn push_domains(alloc: Global, net: &Network, into: &mut Bytes) -> Result<(), NoMemory> {
    let unused = unused_domains(alloc, net)?;
    for d in unused.as_slice() {
        let mut number = Bytes::new(alloc);
        number.push_decimal(u64::from(*d))?;
        push_unused_domain(number.as_slice(), into)?;
    }
    Ok(())
}

// Whether the lines of what the tables of a network leave open are these.
fn is_open(alloc: Global, net: &str, wanted: &str) -> Result<bool, NoMemory> {
    let net = network_of(alloc, net)?;
    let mut text = Bytes::new(alloc);
    push_machines(alloc, &net, &mut text)?;
    push_domains(alloc, &net, &mut text)?;
    Ok(text.as_slice() == wanted.as_bytes())
}

#[test]
fn tables_leave_open(rt: HostRuntime) -> Result<(), Fail> {
    assert!(rt; is_open(rt.alloc(), ODD, ODD_OPEN)?);
    assert!(rt; is_open(rt.alloc(), JOIN, JOIN_OPEN)?);
    assert!(rt; is_open(rt.alloc(), LAMP, LAMP_OPEN)?);
    Ok(())
}
