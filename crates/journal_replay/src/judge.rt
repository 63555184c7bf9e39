// Judging a journal from its first entry on.
ghost use Rattle.std.specs.Prelude.{◌≡◌, ◌<◌, ◌≤◌, length, take, IfOk};
ghost use Rattle.journals.specs.Journals.{IsJournal, IsTrace};
ghost use Rattle.net_core.specs.Prefixes.{IsLegalPrefix};
ghost use Rattle.journal_replay.specs.Verdicts.{IsVerdict, IsStampedVerdict};

use net_core::{Journal, Prefix, Stamps, Trace, Why, first_not_rising, laws, legal_prefix};
use polis_base::{Duplicate, NoMemory};
use std::alloc::Global;
use transition_table::{Network, Reactor};

/// What is found of a journal.
#[derive(Clone, Copy)]
pub enum Verdict {
    /// It is legal.
    Legal {
        /// Whether all that was sent is delivered and no machine is woken.
        complete: bool,
    },
    /// It isn't legal.
    Illegal {
        /// The number of the first entry that can't follow those before it, or whose stamp doesn't
        /// rise.
        entry: u64,
        /// Why it can't follow them, or None where it may and its stamp doesn't rise.
        why: Option<Why>,
    },
}

/// Judges a journal of the reactor's network on a trace. Each reaction is made again and compared.
pub fn replay<R: Reactor>(
    alloc: Global,
    r: &R,
    trace: &Trace,
    j: &Journal,
) -> Result<Verdict, NoMemory>
    requires trace { IsTrace (R.meaning r.now) trace.now }
    requires fits { IsJournal (R.meaning r.now) j.now }
    ensures { IfOk result (λ v. IsVerdict (R.meaning r.now) trace.now j.now v) }
{
    let prefix = legal_prefix(alloc, r, trace, j)?;
    let count = prefix.count;
    if count < j.len() {
        return Ok(Verdict::Illegal {
            entry: count,
            why: prefix.against,
        });
    }
    Ok(Verdict::Legal {
        complete: prefix.complete,
    })
}

// The first stamps, so many.
fn first_stamps(alloc: Global, s: &Stamps, count: u64) -> Result<Stamps, NoMemory>
    requires { count ≤ length s.now }
    ensures { IfOk result (λ first. first ≡ take count s.now) }
{
    let mut first = Stamps::new(alloc);
    for i in 0..count {
        first.push(*s.get(i))?;
    }
    Ok(first)
}

// The first entries, so many.
fn first_entries(alloc: Global, j: &Journal, count: u64) -> Result<Journal, NoMemory>
    requires { count ≤ length j.now }
    ensures { IfOk result (λ first. first ≡ take count j.now) }
{
    let mut first = Journal::new(alloc);
    for i in 0..count {
        first.push(j.get(i).copy()?)?;
    }
    Ok(first)
}

// What is found of a journal that isn't legal: the first entry of its legal prefix whose stamp
// doesn't rise, or else the one after it.
fn first_wrong(
    alloc: Global,
    net: &Network,
    trace: &Trace,
    j: &Journal,
    s: &Stamps,
    legal: Prefix,
) -> Result<Verdict, NoMemory>
    requires legal { IsLegalPrefix net.now trace.now j.now legal.count legal.complete
        legal.against }
    requires more { legal.count < length j.now }
    requires many { length s.now ≡ length j.now }
    ensures { IfOk result (λ v. IsStampedVerdict net.now trace.now j.now s.now v) }
{
    laws();
    let entries = first_entries(alloc, j, legal.count)?;
    let stamps = first_stamps(alloc, s, legal.count)?;
    match first_not_rising(alloc, net, trace, &entries, &stamps)? {
        Some(entry) => Ok(Verdict::Illegal { entry, why: None }),
        None => Ok(Verdict::Illegal {
            entry: legal.count,
            why: legal.against,
        }),
    }
}

/// Judges a journal with its stamps, one for each entry. An entry whose stamp doesn't rise is as
/// wrong as one that can't follow: the first of either kind is named.
pub fn replay_stamped<R: Reactor>(
    alloc: Global,
    r: &R,
    trace: &Trace,
    j: &Journal,
    s: &Stamps,
) -> Result<Verdict, NoMemory>
    requires trace { IsTrace (R.meaning r.now) trace.now }
    requires fits { IsJournal (R.meaning r.now) j.now }
    requires many { length s.now ≡ length j.now }
    ensures { IfOk result (λ v. IsStampedVerdict (R.meaning r.now) trace.now j.now s.now v) }
{
    laws();
    let prefix = legal_prefix(alloc, r, trace, j)?;
    if prefix.count < j.len() {
        return first_wrong(alloc, r.network(), trace, j, s, prefix);
    }
    match first_not_rising(alloc, r.network(), trace, j, s)? {
        Some(entry) => Ok(Verdict::Illegal { entry, why: None }),
        None => Ok(Verdict::Legal {
            complete: prefix.complete,
        }),
    }
}
