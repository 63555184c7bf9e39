// What a busy machine has in hand.
ghost use Rattle.std.specs.Prelude.{◌≡◌, drop};
ghost use Rattle.polis_base.specs.Lists.{head_of};

use journals::Owed;
use polis_base::List;
use std::marker::Model;

/// Deliveries that are to be made, in order.
#[derive(Drop)]
pub struct Queue {
    items: List<Owed>,
    passed: u64,
}

impl Model for Queue {
    ghost use Rattle.std.specs.Prelude.{List, drop, ◌≤◌, length};
    ghost use Rattle.journals.specs.declared.entry.Owed.{Owed};

    ghost Value = { List Owed };

    ghost view = { λ q. drop q.passed q.items };

    ghost invariant = { λ q. q.passed ≤ length q.items };
}

impl Queue {
    /// A queue of these deliveries.
    pub fn new(items: List<Owed>) -> Queue
        ensures { result ≡ items }
    {
        Queue { items, passed: 0 }
    }

    /// The first one.
    pub fn first(&self) -> Option<Owed>
        ensures { result ≡ head_of self.now }
    {
        if self.passed < self.items.len() {
            Some(*self.items.get(self.passed))
        } else {
            None
        }
    }

    /// Takes the first one away, if there is one.
    pub fn pass(&mut self)
        ensures { self.new ≡ drop 1 self.old }
    {
        if self.passed < self.items.len() {
            self.passed += 1;
        }
    }
}

/// What a busy machine has in hand.
#[derive(Drop)]
pub struct Hand {
    /// The stamp of the firing.
    pub stamp: u64,
    /// The deliveries of the firing that haven't landed.
    pub deliveries: Queue,
}
