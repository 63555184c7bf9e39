// The environment's deliveries.
ghost use Rattle.std.specs.Prelude.{◌≡◌, ◌<◌, ◌≤◌, ◌+◌, true, false, drop, length, map, slice_get, option_map, IfOk, IfSome, IsTrue};
ghost use Rattle.polis_base.specs.Lists.{head_of};
ghost use Rattle.journals.specs.Journals.{IsTrace, is_trace_item};
ghost use Rattle.journals.specs.Schedules.{trace_deliveries, item_deliveries};
ghost use Rattle.event_buffer.specs.Arrivals.{is_arrival, arrival_of};
ghost use Rattle.event_buffer.specs.Feeds.{all_deliveries, IsNext};

use crate::arrival::Arrival;
use journals::{Trace, TraceItem, sending_laws};
use polis_base::NoMemory;
use std::marker::Model;
use transition_table::{Network, Party};

/// The environment's deliveries that are left, by item and then by receiver. It keeps a place in
/// the trace and a place among the receivers of the event there, and no list of deliveries.
#[derive(Drop)]
pub struct Feed<'a> {
    net: &'a Network,
    trace: &'a Trace,
    item: u64,
    receiver: u64,
}

impl<'a> Model for Feed<'a> {
    ghost use Rattle.std.specs.Prelude.{slice_get, ◌≤◌, length};
    ghost use Rattle.journals.specs.Journals.{IsTrace};
    ghost use Rattle.event_buffer.specs.Feeds.{FeedState, left_at, IsNext};

    ghost Value = { FeedState };

    ghost view = { λ f. record {
      net = f.net.now;
      trace = f.trace.now;
      left = left_at f.net.now f.trace.now f.item f.receiver;
    } };

    ghost invariant = { λ f. IsTrace f.net.now f.trace.now
        × (f.item ≤ length f.trace.now)
        × IsNext f.net.now f.receiver (slice_get f.trace.now f.item) };
}

// How many deliveries an item gives.
fn count_of(net: &Network, item: TraceItem) -> u64
    requires { IsTrue (is_trace_item net.now item) }
    ensures { result ≡ length (item_deliveries net.now item) }
{
    match item {
        TraceItem::Event { event, .. } => net.events.get(event as u64).receivers.len(),
        TraceItem::Settle => 0,
    }
}

// Whether a further receiver comes after this one.
fn has_next(receiver: u64, count: u64) -> bool
    requires { receiver < count }
    ensures more { result ≡ true → receiver + 1 < count }
    ensures last { result ≡ false → count ≤ receiver + 1 }
{
    receiver + 1 < count
}

// A delivery of an item by its number.
fn arrival_at(net: &Network, item: TraceItem, receiver: u64) -> Option<Arrival>
    requires { IsTrue (is_trace_item net.now item) }
    ensures { result
        ≡ option_map (arrival_of 0) (slice_get (item_deliveries net.now item) receiver) }
{
    match item {
        TraceItem::Event { event, code } => {
            let receivers = &net.events.get(event as u64).receivers;
            if receiver >= receivers.len() {
                return None;
            }
            Some(Arrival {
                from: Party::Env,
                to: *receivers.get(receiver),
                event,
                code,
                stamp: 0,
            })
        }
        TraceItem::Settle => None,
    }
}

// The place of the first item from a place on that gives a delivery, or the trace's end.
fn next_item(net: &Network, trace: &Trace, from: u64) -> u64
    requires trace { IsTrace net.now trace.now }
    requires from { from ≤ length trace.now }
    ensures within { result ≤ length trace.now }
    ensures left { all_deliveries net.now (drop result trace.now)
        ≡ all_deliveries net.now (drop from trace.now) }
    ensures next { IsNext net.now 0 (slice_get trace.now result) }
{
    for i in from..trace.len() {
        if count_of(net, *trace.get(i)) > 0 {
            return i;
        }
    }
    trace.len()
}

impl<'a> Feed<'a> {
    /// All deliveries of a trace.
    pub fn new(net: &'a Network, trace: &'a Trace) -> Result<Feed<'a>, NoMemory>
        requires { IsTrace net.now trace.now }
        ensures { IfOk result (λ f. f ≡ record {
          net = net.now;
          trace = trace.now;
          left = map (λ d. d.0) (trace_deliveries net.now false trace.now);
        }) }
    {
        let item = next_item(net, trace, 0);
        Ok(Feed {
            net,
            trace,
            item,
            receiver: 0,
        })
    }

    /// The next delivery, if one is left. It takes no memory.
    pub fn peek(&self) -> Option<Arrival>
        ensures next { result ≡ option_map (arrival_of 0) (head_of self.now.left) }
        ensures arrival { IfSome result (λ a. IsTrue (is_arrival self.now.net a)) }
    {
        sending_laws();
        if self.item < self.trace.len() {
            arrival_at(self.net, *self.trace.get(self.item), self.receiver)
        } else {
            None
        }
    }

    /// Takes the next delivery away. It takes no memory.
    pub fn advance(&mut self)
        requires { 0 < length self.old.left }
        ensures { self.new ≡ record self.old { left = drop 1 self.old.left } }
    {
        if self.item < self.trace.len() {
            let count = count_of(self.net, *self.trace.get(self.item));
            if has_next(self.receiver, count) {
                self.receiver += 1;
            } else {
                self.item = next_item(self.net, self.trace, self.item + 1);
                self.receiver = 0;
            }
        }
    }
}
