// The deliveries of one firing that are under way.
ghost use Rattle.std.specs.Prelude.{◌≡◌, ◌<◌, ◌≤◌, ◌↔◌, [], take, drop, length, None, IfSome, Some};
ghost use Rattle.polis_base.specs.Lists.{head_of};

use crate::arrival::Arrival;
use polis_base::List;
use std::marker::Model;

/// The deliveries of one firing that are under way. It must be spent, by `Cell::free` or by
/// `abandon`.
pub struct Outgoing {
    machine: u32,
    stamp: u64,
    arrivals: List<Arrival>,
    next: u64,
    end: u64,
}

impl Model for Outgoing {
    ghost use Rattle.std.specs.Prelude.{◌≤◌, take, drop, length};
    ghost use Rattle.event_buffer.specs.Arrivals.{OutgoingState};

    ghost Value = { OutgoingState };

    ghost view = { λ o. record {
      machine = o.machine;
      stamp = o.stamp;
      arrivals = drop o.next (take o.end o.arrivals);
    } };

    ghost invariant = { λ o. (o.next ≤ o.end) × (o.end ≤ length o.arrivals) };
}

impl Outgoing {
    // The first ones of a list, up to the end.
    pub(crate) fn new(machine: u32, stamp: u64, arrivals: List<Arrival>, end: u64) -> Outgoing
        requires { end ≤ length arrivals }
        ensures { result ≡ record {
          machine = machine;
          stamp = stamp;
          arrivals = take end arrivals;
        } }
    {
        Outgoing {
            machine,
            stamp,
            arrivals,
            next: 0,
            end,
        }
    }

    /// The machine that fired.
    pub fn machine(&self) -> u32
        ensures { result ≡ self.now.machine }
    {
        self.machine
    }

    /// The stamp of the firing.
    pub fn stamp(&self) -> u64
        ensures { result ≡ self.now.stamp }
    {
        self.stamp
    }

    /// The first delivery that is left, if any is.
    pub fn first(&self) -> Option<&Arrival>
        ensures some { IfSome result (λ a. head_of self.now.arrivals ≡ Some a.now) }
        ensures none { (result ≡ None) ↔ (self.now.arrivals ≡ []) }
    {
        if self.next < self.end {
            Some(self.arrivals.get(self.next))
        } else {
            None
        }
    }

    /// Takes the first delivery away.
    pub fn pass(&mut self)
        requires { 0 < length self.old.arrivals }
        ensures { self.new ≡ record self.old { arrivals = drop 1 self.old.arrivals } }
    {
        if self.next < self.end {
            self.next += 1;
        }
    }

    /// Gives it up. Its cell stays busy for good.
    pub fn abandon(self) {
        let Outgoing {
            machine: _,
            stamp: _,
            arrivals: _,
            next: _,
            end: _,
        } = self;
    }
}
