// What the tables of a journal say of the next entry, and of the journal's end.
ghost use Rattle.std.specs.Prelude.{List, ◌≡◌, ◌<◌, length, slice_get, Some, IsTrue, ◌↔◌, ◌&&◌, ◌==◌, ◌||◌, not, option_map};
ghost use Rattle.polis_base.specs.Lists.{head_of};
ghost use Rattle.journals.specs.Journals.{FitsNetwork, is_party};
ghost use Rattle.journals.specs.Legality.{Complete, MayFollow, MayFollowIfReaction};
ghost use Rattle.journals.specs.Schedules.{owed_by_env};
ghost use Rattle.journals.specs.declared.entry.Entry.{Entry};
ghost use Rattle.journals.specs.declared.entry.Entry.TheVariants.{Dep};
ghost use Rattle.journals.specs.declared.entry.TraceItem.TheVariants.{Event};
ghost use Rattle.net_core.specs.Judging.{IsCauseAgainst};
ghost use Rattle.net_core.specs.Tables.{AreTables};
ghost use Rattle.net_core.specs.inner.Outcomes.{SaysOutcome};

use crate::answer::{NextEnv, Why};
use crate::config::cursors::is_settled;
use crate::config::tables::Tables;
use domains::Codes;
use journals::{Entry, Owed, Trace, TraceItem, sending_laws};
use transition_table::{Network, Outcome, Party};

// The item at a place is this event with this code.
fn is_item(trace: &Trace, place: u64, event: u32, code: u8) -> bool
    ensures { IsTrue result ↔ (slice_get trace.now place ≡ Some (Event event code)) }
{
    if place >= trace.len() {
        return false;
    }
    match *trace.get(place) {
        TraceItem::Event { event: e, code: c } => e == event && c == code,
        TraceItem::Settle => false,
    }
}

// The delivery is of this event with this code.
fn brings(owed: &Owed, event: u32, code: u8) -> bool
    ensures { result ≡ (owed.now.event == event && owed.now.code == code) }
{
    owed.event == event && owed.code == code
}

pub(crate) fn same_codes(a: &Codes, b: &Codes) -> bool
    ensures { IsTrue result ↔ (a.now ≡ b.now) }
{
    a.as_slice() == b.as_slice()
}

pub(crate) fn same_outcome(a: &Outcome, b: &Outcome) -> bool
    ensures { IsTrue result ↔ (a.now ≡ b.now) }
{
    a.fires == b.fires && same_codes(&a.next, &b.next) && same_codes(&a.outs, &b.outs)
}

fn none_of(a: bool, b: bool, c: bool) -> bool
    ensures { result ≡ not (a || b || c) }
{
    !(a || b || c)
}

impl Tables {
    // The first delivery of the environment that is owed, and whether it is ready.
    pub(crate) fn next_env(&self, net: &Network, trace: &Trace) -> Option<NextEnv>
        requires { (journal : List Entry) × AreTables net.now trace.now journal
            self.now.readers.items self.now.moments.items self.now.woken self.now.cursors
            self.now.owed }
        ensures { (journal : List Entry) → AreTables net.now trace.now journal
            self.now.readers.items self.now.moments.items self.now.woken self.now.cursors
            self.now.owed
            → option_map (λ next. (next.owed, not next.ready)) result
            ≡ head_of (owed_by_env net.now trace.now journal) }
    {
        sending_laws();
        if net.machines.len() == 0 {
            return None;
        }
        let m = self.cursors.first() as u32;
        let place = self.cursors.get(m as u64);
        if place >= trace.len() {
            return None;
        }
        match *trace.get(place) {
            TraceItem::Event { event, code } => Some(NextEnv {
                owed: Owed {
                    from: Party::Env,
                    to: m,
                    event,
                    code,
                },
                ready: !is_settled(trace, place),
            }),
            // No cursor stands at one.
            TraceItem::Settle => None,
        }
    }

    // Whether all that was sent is delivered, and no machine is woken.
    pub(crate) fn is_complete(&self, net: &Network, trace: &Trace) -> bool
        requires { (journal : List Entry) × AreTables net.now trace.now journal
            self.now.readers.items self.now.moments.items self.now.woken self.now.cursors
            self.now.owed }
        ensures { (journal : List Entry) → AreTables net.now trace.now journal
            self.now.readers.items self.now.moments.items self.now.woken self.now.cursors
            self.now.owed
            → IsTrue result ↔ Complete net.now trace.now journal }
    {
        sending_laws();
        let owes = self.owed.first().is_some();
        let env = self.next_env(net, trace).is_some();
        none_of(owes, env, !self.woken.is_empty())
    }

    // Whether a delivery is the next of what its sender has sent to its receiver.
    fn may_land(
        &self,
        net: &Network,
        trace: &Trace,
        from: Party,
        to: u32,
        event: u32,
        code: u8,
    ) -> bool
        requires to { to < length net.now.machines }
        requires from { IsTrue (is_party net.now from) }
        requires current { (journal : List Entry) × AreTables net.now trace.now journal
            self.now.readers.items self.now.moments.items self.now.woken self.now.cursors
            self.now.owed }
        ensures { (journal : List Entry) → AreTables net.now trace.now journal
            self.now.readers.items self.now.moments.items self.now.woken self.now.cursors
            self.now.owed
            → IsTrue result ↔ MayFollow net.now trace.now journal (Dep from to event code) }
    {
        sending_laws();
        match from {
            Party::Env => is_item(trace, self.cursors.get(to as u64), event, code),
            Party::Machine(s) => match self.owed.first_between(s, to) {
                Some(owed) => brings(&owed, event, code),
                None => false,
            },
        }
    }

    // The cause against an entry, if there is one. A reaction is one that may follow.
    pub(crate) fn against_delivery(
        &self,
        net: &Network,
        trace: &Trace,
        entry: &Entry,
    ) -> Option<Why>
        requires fits { FitsNetwork net.now entry.now }
        requires current { (journal : List Entry) × AreTables net.now trace.now journal
            self.now.readers.items self.now.moments.items self.now.woken self.now.cursors
            self.now.owed }
        ensures { (journal : List Entry) → MayFollowIfReaction net.now trace.now journal entry.now
            → AreTables net.now trace.now journal self.now.readers.items self.now.moments.items
            self.now.woken self.now.cursors self.now.owed
            → IsCauseAgainst net.now trace.now journal entry.now result }
    {
        match entry {
            Entry::Dep {
                from,
                to,
                event,
                code,
            } => {
                if self.may_land(net, trace, *from, *to, *event, *code) {
                    None
                } else {
                    Some(Why::NotOwed)
                }
            }
            Entry::Rea { .. } => None,
        }
    }

    // The cause against an entry, if there is one. Whether the outcome of a reaction is the
    // machine's is told.
    pub(crate) fn against(
        &self,
        net: &Network,
        trace: &Trace,
        entry: &Entry,
        is_right: bool,
    ) -> Option<Why>
        requires fits { FitsNetwork net.now entry.now }
        requires right { SaysOutcome net.now entry.now is_right }
        requires current { (journal : List Entry) × AreTables net.now trace.now journal
            self.now.readers.items self.now.moments.items self.now.woken self.now.cursors
            self.now.owed }
        ensures { (journal : List Entry) → AreTables net.now trace.now journal
            self.now.readers.items self.now.moments.items self.now.woken self.now.cursors
            self.now.owed
            → IsCauseAgainst net.now trace.now journal entry.now result }
    {
        match entry {
            Entry::Dep { .. } => self.against_delivery(net, trace, entry),
            Entry::Rea {
                machine,
                snapshot,
                ..
            } => {
                if !self.woken.has(*machine) {
                    return Some(Why::NotWoken);
                }
                if !same_codes(&snapshot.codes, &self.moments[*machine as usize].codes) {
                    return Some(Why::Snapshot);
                }
                if is_right { None } else { Some(Why::Outcome) }
            }
        }
    }
}
