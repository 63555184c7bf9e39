// The lines of accounts.
ghost use Rattle.std.specs.Prelude.{◌≡◌, ◌++◌, cond, codes, decimal, length, OnOk, OnErr};
ghost use Rattle.event_accounts.specs.AccountLines.{account_line, accounts_text, place_or_dash};
ghost use Rattle.event_accounts.specs.Accounts.{buffers};

use crate::account::{Account, AccountList};
use crate::input_lines::{InputLine, push_inputs};
use polis_base::{Bytes, NoMemory};
use transition_table::Network;

// Appends a word and a number after it.
fn push_count(word: &[u8], n: u64, into: &mut Bytes) -> Result<(), NoMemory>
    ensures { OnOk result (into.new ≡ into.old ++ word.now ++ decimal n) }
{
    into.push(word)?;
    into.push_decimal(n)?;
    Ok(())
}

// Appends the place of an entry, or `-` where there is none.
fn push_place(first: Option<u64>, into: &mut Bytes) -> Result<(), NoMemory>
    ensures { OnOk result (into.new ≡ into.old ++ place_or_dash first) }
{
    match first {
        Some(place) => into.push_decimal(place)?,
        None => into.push(b"-")?,
    }
    Ok(())
}

// Appends whether a delivery is left.
fn push_left(left: bool, into: &mut Bytes) -> Result<(), NoMemory>
    ensures { OnOk result (into.new ≡ into.old ++ cond left (codes "1") (codes "0")) }
{
    into.push(if left { b"1" } else { b"0" })?;
    Ok(())
}

// Appends the line of an account of a machine and an event with these names.
fn push_account(
    machine: &[u8],
    event: &[u8],
    account: &Account,
    into: &mut Bytes,
) -> Result<(), NoMemory>
    ensures { OnOk result (into.new ≡ into.old
        ++ account_line machine.now event.now account.now) }
{
    into.push(b"buffer ")?;
    into.push(machine)?;
    into.push(b" ")?;
    into.push(event)?;
    push_count(b" delivered ", account.delivered, into)?;
    push_count(b" read ", account.read, into)?;
    push_count(b" lost ", account.lost, into)?;
    into.push(b" left ")?;
    push_left(account.left, into)?;
    into.push(b" first ")?;
    push_place(account.first, into)?;
    into.push(b"\n")?;
    Ok(())
}

// Prints an account.
struct AccountLine;

impl InputLine<Account> for AccountLine {
    ghost line = { λ _. account_line };

    fn push_line(
        &self,
        machine: &[u8],
        event: &[u8],
        account: &Account,
        into: &mut Bytes,
    ) -> Result<(), NoMemory> {
        push_account(machine, event, account, into)
    }
}

/// Appends a line for each account of the buffers of a network.
pub fn push_accounts(
    net: &Network,
    accounts: &AccountList,
    into: &mut Bytes,
) -> Result<(), NoMemory>
    requires { length accounts.now ≡ length (buffers net.now) }
    ensures ok { OnOk result (into.new ≡ into.old ++ accounts_text net.now accounts.now) }
    ensures err { OnErr result (into.new ≡ into.old) }
{
    push_inputs(&AccountLine, net, accounts, into)?;
    Ok(())
}
