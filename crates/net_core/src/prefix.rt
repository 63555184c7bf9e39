// How far a journal is legal.
ghost use Rattle.std.specs.Prelude.{◌≡◌, ◌<◌, [], length, take, None, IfOk};
ghost use Rattle.journals.specs.Journals.{IsJournal, IsTrace};
ghost use Rattle.net_core.specs.Prefixes.{IsLegalPrefix, IsLegalUpTo, IsReason};
ghost use Rattle.net_core.specs.Tables.{AreTables};

use crate::answer::Why;
use crate::blanks::Blanks;
use crate::config::{Tables, first_tables};
use journals::{Journal, Trace, laws};
use polis_base::NoMemory;
use std::alloc::Global;
use transition_table::{Network, Reactor};

/// The legal entries that a journal begins with.
#[derive(Clone, Copy)]
pub struct Prefix {
    /// How many there are. The entry of this number, if there is one, can't follow them.
    pub count: u64,
    /// Whether they are complete.
    pub complete: bool,
    /// The cause against the entry after them, if there is one: the first that holds of it.
    pub against: Option<Why>,
}

// Takes the first entries of a journal as long as they may follow. It answers how many, and the
// cause against the next one, if there is one.
fn take_legal<R: Reactor>(
    tables: &mut Tables,
    r: &R,
    net: &Network,
    trace: &Trace,
    j: &Journal,
    blanks: &mut Blanks<'_>,
) -> Result<(u64, Option<Why>), NoMemory>
    requires start { AreTables net.now trace.now [] tables.old.readers.items
        tables.old.moments.items tables.old.woken tables.old.cursors tables.old.owed }
    requires fits { IsJournal net.now j.now }
    requires network { R.meaning r.now ≡ net.now }
    requires blanks { blanks.old ≡ net.now }
    ensures current { IfOk result (λ p. AreTables net.now trace.now (take p.0 j.now)
        tables.new.readers.items tables.new.moments.items tables.new.woken tables.new.cursors
        tables.new.owed) }
    ensures longest { IfOk result (λ p. IsLegalUpTo net.now trace.now j.now p.0) }
    ensures reason { IfOk result
        (λ p. p.0 < length j.now → IsReason net.now trace.now j.now p.0 p.1) }
    ensures no_reason { IfOk result (λ p. p.0 ≡ length j.now → p.1 ≡ None) }
{
    laws();
    for i in 0..j.len() {
        let entry = j.get(i);
        let is_right = blanks.is_right(r, entry);
        match tables.against(net, trace, entry, is_right) {
            Some(why) => return Ok((i, Some(why))),
            None => tables.take_next(net, trace, entry)?,
        }
    }
    Ok((j.len(), None))
}

/// The legal entries that a journal begins with. Each reaction is made again and compared. None of
/// the entries is copied.
pub fn legal_prefix<R: Reactor>(
    alloc: Global,
    r: &R,
    trace: &Trace,
    j: &Journal,
) -> Result<Prefix, NoMemory>
    requires trace { IsTrace (R.meaning r.now) trace.now }
    requires fits { IsJournal (R.meaning r.now) j.now }
    ensures { IfOk result
        (λ p. IsLegalPrefix (R.meaning r.now) trace.now j.now p.count p.complete p.against) }
{
    let net = r.network();
    let mut tables = first_tables(alloc, net, trace)?;
    let mut blanks = Blanks::new(alloc, net)?;
    let (count, against) = take_legal(&mut tables, r, net, trace, j, &mut blanks)?;
    let complete = tables.is_complete(net, trace);
    Ok(Prefix {
        count,
        complete,
        against,
    })
}
