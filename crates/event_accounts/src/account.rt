// Accounts of what became of deliveries.
ghost use Rattle.std.specs.Prelude.{◌≡◌, ℕ, ◌<◌, ◌+◌, ◌^◌, [], length, flat_map, slice_get, slice_index, Some, IfOk, OnOk, ◌++◌};
ghost use Rattle.std.specs.List.{All};
ghost use Rattle.journals.specs.Journals.{IsJournal};
ghost use Rattle.event_accounts.specs.Accounts.{accounts_of};
ghost use Rattle.event_accounts.specs.Samples.{untouched};
ghost use Rattle.event_accounts.specs.inner.Steps.{AreFew, HasCode, account_after, after_delivery, after_firing, rows_of};
ghost use Rattle.event_accounts.specs.declared.account.Account.{Account};

use journals::{Entry, Journal};
use polis_base::{List, NoMemory};
use std::alloc::Global;
use transition_table::{Machine, Network};

/// What became of the deliveries of an event to a machine.
#[derive(Clone, Copy, Debug, PartialEq, Eq)]
pub struct Account {
    /// How many deliveries came.
    pub delivered: u64,
    /// How many firings of the machine read one.
    pub read: u64,
    /// How many were overwritten by the next before the machine read them.
    pub lost: u64,
    /// Whether one stands in the buffer at the end.
    pub left: bool,
    /// The place in the journal of the first entry that overwrote one.
    pub first: Option<u64>,
}

/// The accounts of buffers, in order.
pub type AccountList = List<Account>;

// No deliveries yet.
const fn untouched() -> Account
    ensures { result ≡ untouched }
{
    Account {
        delivered: 0,
        read: 0,
        lost: 0,
        left: false,
        first: None,
    }
}

impl Account {
    // The entry at place p delivers to the buffer.
    fn deliver(&mut self, p: u64)
        requires room { p + 1 < 2 ^ 64 }
        requires few { AreFew p self.old }
        ensures { self.new ≡ after_delivery p self.old }
    {
        if self.left {
            self.lost += 1;
            self.first = self.first.or(Some(p));
        }
        self.delivered += 1;
        self.left = true;
    }

    // A firing of the buffer's machine, whose snapshot has this code at the input.
    fn consume(&mut self, p: u64, code: u8)
        requires room { p + 1 < 2 ^ 64 }
        requires few { AreFew p self.old }
        ensures { self.new ≡ after_firing code self.old }
    {
        if code != 0 {
            self.read += 1;
        }
        self.left = false;
    }
}

// The account after the entry at place p, which is of the buffer's machine. Its input i has the
// event e.
fn next_account(p: u64, i: u64, e: u32, entry: &Entry, before: &Account) -> Account
    requires room { p + 1 < 2 ^ 64 }
    requires few { AreFew p before.now }
    requires code { HasCode i entry.now }
    ensures { result ≡ account_after p i e entry.now before.now }
{
    let mut after = *before;
    match entry {
        Entry::Dep { event, .. } => {
            if *event == e {
                after.deliver(p);
            }
        }
        Entry::Rea {
            snapshot,
            outcome,
            ..
        } => {
            if outcome.fires {
                after.consume(p, *snapshot.codes.get(i));
            }
        }
    }
    after
}

// Makes the accounts of the entry's machine those after the entry, which is at place p.
fn count_entry(machine: &Machine, p: u64, entry: &Entry, row: &mut AccountList)
    requires many { length row.old ≡ length machine.now.inputs }
    requires room { p + 1 < 2 ^ 64 }
    requires few { All (AreFew p) row.old }
    requires codes { (i : ℕ) → i < length machine.now.inputs → HasCode i entry.now }
    ensures many { length row.new ≡ length row.old }
    ensures each { (i : ℕ) (a : Account) → slice_get row.old i ≡ Some a
        → slice_get row.new i
        ≡ Some (account_after p i (slice_index machine.now.inputs i) entry.now a) }
{
    for i in 0..machine.inputs.len() {
        let after = next_account(p, i, *machine.inputs.get(i), entry, row.get(i));
        row.set(i, after);
    }
}

// The accounts of each machine after the empty journal.
fn first_rows(alloc: Global, net: &Network) -> Result<Vec<AccountList>, NoMemory>
    ensures { IfOk result (λ rows. rows.items ≡ rows_of net.now []) }
{
    let mut rows = Vec::new(alloc);
    for m in 0..net.machines.len() {
        let inputs = net.machines.get(m).inputs.len();
        rows.push(List::filled(alloc, inputs, untouched())?)?;
    }
    Ok(rows)
}

// Puts the accounts of a machine at the end.
fn push_row(row: &AccountList, into: &mut AccountList) -> Result<(), NoMemory>
    ensures { OnOk result (into.new ≡ into.old ++ row.now) }
{
    for account in row.as_slice() {
        into.push(*account)?;
    }
    Ok(())
}

// The accounts of all machines, one after the other.
fn all_accounts(alloc: Global, rows: &[AccountList]) -> Result<AccountList, NoMemory>
    ensures { IfOk result (λ accounts. accounts ≡ flat_map (λ row. row) rows.now) }
{
    let mut accounts = List::new(alloc);
    for row in rows {
        push_row(row, &mut accounts)?;
    }
    Ok(accounts)
}

/// What became of the deliveries of a journal: one account for each input of each machine, by
/// machine and then by input.
pub fn accounts(alloc: Global, net: &Network, j: &Journal) -> Result<AccountList, NoMemory>
    requires { IsJournal net.now j.now }
    ensures { IfOk result (λ accounts. accounts ≡ accounts_of net.now j.now) }
{
    let mut rows = first_rows(alloc, net)?;
    for p in 0..j.len() {
        let entry = j.get(p);
        let m = entry.machine();
        count_entry(net.machines.get(m as u64), p, entry, &mut rows[m as usize]);
    }
    all_accounts(alloc, &rows)
}
