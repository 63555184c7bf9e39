// What the core keeps, and its steps.
ghost use Rattle.std.specs.Prelude.{◌≡◌, ◌&&◌, ◌<◌, [], ◌∷◌, ◌++◌, length, set, get_or, is_none, max, None, IfOk, OnOk, OnErr, IsTrue, IsFalse};
ghost use Rattle.std.specs.Bool.{then_some};
ghost use Rattle.transition_table.specs.Transitions.{OfMachine};
ghost use Rattle.journals.specs.Logs.{clock as clock_of, entries};
ghost use Rattle.journals.specs.Moved.{machine_of, SuitsMachine};
ghost use Rattle.journals.specs.Reactions.{reaction as reaction_of};
ghost use Rattle.journals.specs.declared.stamped.CoreStep.TheVariants.{React, Land, Free, Feed};
ghost use Rattle.worker_core.specs.Cores.{taken_up as taken_up_by, with_entry, may_react as can_react, may_land, landing, delivering, take_step};
ghost use Rattle.worker_core.specs.Parts.{state_of, own_moments, AreParts};
ghost use Rattle.worker_core.specs.inner.Parts.{HasMoments, ends_in_delivery, first_held, passed};

use crate::state::{Hand, Queue};
use journals::{
    CoreStep, Entry, Log, LogList, Moments, Owed, Stamped, Trace, deliveries, laws, moving_laws,
    next_moment,
};
use polis_base::limits::MAX_STAMP;
use polis_base::{Duplicate, NoMemory};
use std::alloc::Global;
use transition_table::{Network, Reactor};

#[derive(Drop)]
pub(crate) struct Parts {
    pub(crate) logs: LogList,
    pub(crate) hands: Vec<Option<Hand>>,
    pub(crate) rest: Queue,
    pub(crate) moments: Moments,
}

// The last stamp, or 0.
fn clock(log: &Log) -> u64
    ensures { result ≡ clock_of log.now }
{
    let n = log.len();
    if n == 0 {
        return 0;
    }
    log.get(n - 1).stamp
}

// The last entry is a delivery.
fn is_delivered(log: &Log) -> bool
    ensures { result ≡ ends_in_delivery log.now }
{
    let n = log.len();
    if n == 0 {
        return false;
    }
    log.get(n - 1).entry.is_delivery()
}

fn all_three(a: bool, b: bool, c: bool) -> bool
    ensures { result ≡ (a && b && c) }
{
    a && b && c
}

// The entry of a delivery.
fn delivery(owed: Owed) -> Entry
    ensures { result ≡ delivering owed }
{
    Entry::Dep {
        from: owed.from,
        to: owed.to,
        event: owed.event,
        code: owed.code,
    }
}

// The first delivery leaves the hand.
fn pass_first(hand: &mut Option<Hand>)
    ensures { hand.new ≡ passed hand.old }
{
    if let Some(hand) = hand {
        hand.deliveries.pass();
    }
}

// The deliveries come into hand, if there are any.
fn taken_up(stamp: u64, deliveries: Queue) -> Option<Hand>
    ensures { result ≡ taken_up_by stamp deliveries }
{
    if deliveries.first().is_none() {
        return None;
    }
    Some(Hand { stamp, deliveries })
}

impl Parts {
    // Puts an entry at the end of its machine's log.
    fn append(&mut self, alloc: Global, net: &Network, m: u32, x: Stamped) -> Result<(), NoMemory>
        requires machine { m < length net.now.machines }
        requires parts { HasMoments net.now self.old }
        requires own { machine_of x.entry ≡ m }
        requires suits { OfMachine net.now m (λ machine. SuitsMachine machine x.entry) }
        ensures logs { OnOk result (self.new.logs ≡ with_entry (state_of self.old) m x) }
        ensures moments { OnOk result (self.new.moments ≡ own_moments net.now self.new.logs) }
        ensures others { (self.new.hands ≡ self.old.hands) × (self.new.rest ≡ self.old.rest) }
        ensures err { OnErr result (self.new ≡ self.old) }
    {
        moving_laws();
        let moment = next_moment(
            alloc,
            net.machines.get(m as u64),
            &x.entry,
            self.moments.get(m as u64),
        )?;
        self.logs.push_at(m, x)?;
        self.moments.set(m as u64, moment);
        Ok(())
    }

    fn is_idle(&self, m: u32) -> bool
        requires { m < length self.now.hands.items }
        ensures { result ≡ is_none (get_or self.now.hands.items m None) }
    {
        self.hands[m as usize].is_none()
    }

    // The machine isn't busy and is woken, and its clock isn't full.
    fn may_react(&self, net: &Network, trace: &Trace, m: u32) -> bool
        requires parts { AreParts net.now trace.now self.now }
        requires machine { m < length net.now.machines }
        ensures { result ≡ can_react m (get_or self.now.logs m [])
            (get_or self.now.hands.items m None) }
    {
        moving_laws();
        let idle = self.is_idle(m);
        let woken = is_delivered(self.logs.get(m));
        let room = clock(self.logs.get(m)) < MAX_STAMP;
        all_three(idle, woken, room)
    }

    // The reaction of a machine after its log.
    fn reaction<R: Reactor>(
        &self,
        alloc: Global,
        net: &Network,
        trace: &Trace,
        r: &R,
        m: u32,
    ) -> Result<Entry, NoMemory>
        requires network { R.meaning r.now ≡ net.now }
        requires parts { AreParts net.now trace.now self.now }
        requires machine { m < length net.now.machines }
        ensures { IfOk result (λ entry.
            entry ≡ reaction_of net.now m (entries (get_or self.now.logs m []))) }
    {
        laws();
        transition_table::laws();
        let snapshot = self.moments.get(m as u64).copy()?;
        let mut outcome = net.blank(alloc, m)?;
        r.react(m, &snapshot, &mut outcome);
        Ok(Entry::Rea {
            machine: m,
            snapshot,
            outcome,
        })
    }

    // A machine reacts, if it may.
    pub(crate) fn react<R: Reactor>(
        &mut self,
        alloc: Global,
        net: &Network,
        trace: &Trace,
        r: &R,
        m: u32,
    ) -> Result<bool, NoMemory>
        requires network { R.meaning r.now ≡ net.now }
        requires parts { AreParts net.now trace.now self.old }
        requires machine { m < length net.now.machines }
        ensures step { IfOk result (λ taken.
            then_some taken (state_of self.new) ≡ take_step net.now (state_of self.old) (React m)) }
        ensures idle { IfOk result (λ taken. IsFalse taken → self.new ≡ self.old) }
        ensures moments { OnOk result (self.new.moments ≡ own_moments net.now self.new.logs) }
        ensures err { OnErr result (self.new ≡ self.old) }
    {
        laws();
        if !self.may_react(net, trace, m) {
            return Ok(false);
        }
        let entry = self.reaction(alloc, net, trace, r, m)?;
        let stamp = clock(self.logs.get(m)) + 1;
        let given = deliveries(alloc, net, &entry)?;
        self.append(alloc, net, m, Stamped { stamp, entry })?;
        self.hands[m as usize] = taken_up(stamp, Queue::new(given));
        Ok(true)
    }

    fn first_in_hand(&self, s: u32) -> Option<(Owed, u64)>
        requires { s < length self.now.hands.items }
        ensures { result ≡ first_held (get_or self.now.hands.items s None) }
    {
        match &self.hands[s as usize] {
            Some(hand) => hand.deliveries.first().map(|owed| (owed, hand.stamp)),
            None => None,
        }
    }

    // Puts a delivery of a firing of this stamp at the end of its receiver's log, unless the
    // stamps are used up.
    fn deliver(
        &mut self,
        alloc: Global,
        net: &Network,
        owed: Owed,
        stamp: u64,
    ) -> Result<bool, NoMemory>
        requires machine { owed.to < length net.now.machines }
        requires parts { HasMoments net.now self.old }
        ensures taken { IfOk result (λ taken.
            taken ≡ may_land (get_or self.old.logs owed.to []) stamp) }
        ensures logs { IfOk result (λ taken.
            IsTrue taken → self.new.logs ≡ with_entry (state_of self.old) owed.to
            (landing (get_or self.old.logs owed.to []) stamp owed)) }
        ensures moments { OnOk result (self.new.moments ≡ own_moments net.now self.new.logs) }
        ensures others { (self.new.hands ≡ self.old.hands) × (self.new.rest ≡ self.old.rest) }
        ensures idle { IfOk result (λ taken. IsFalse taken → self.new ≡ self.old) }
        ensures err { OnErr result (self.new ≡ self.old) }
    {
        let last = clock(self.logs.get(owed.to)).max(stamp);
        if last >= MAX_STAMP {
            return Ok(false);
        }
        let landed = Stamped {
            stamp: last + 1,
            entry: delivery(owed),
        };
        self.append(alloc, net, owed.to, landed)?;
        Ok(true)
    }

    // The first delivery in a machine's hand lands, if there is one.
    pub(crate) fn land(
        &mut self,
        alloc: Global,
        net: &Network,
        trace: &Trace,
        s: u32,
    ) -> Result<bool, NoMemory>
        requires parts { AreParts net.now trace.now self.old }
        requires machine { s < length net.now.machines }
        ensures step { IfOk result (λ taken.
            then_some taken (state_of self.new) ≡ take_step net.now (state_of self.old) (Land s)) }
        ensures moments { OnOk result (self.new.moments ≡ own_moments net.now self.new.logs) }
        ensures idle { IfOk result (λ taken. IsFalse taken → self.new ≡ self.old) }
        ensures err { OnErr result (self.new ≡ self.old) }
    {
        let (owed, stamp) = match self.first_in_hand(s) {
            Some(first) => first,
            None => return Ok(false),
        };
        let taken = self.deliver(alloc, net, owed, stamp)?;
        if taken {
            pass_first(&mut self.hands[s as usize]);
        }
        Ok(taken)
    }

    // A machine with nothing in hand is no longer busy.
    pub(crate) fn free(&mut self, net: &Network, trace: &Trace, s: u32) -> bool
        requires parts { AreParts net.now trace.now self.old }
        requires machine { s < length net.now.machines }
        ensures step { then_some result (state_of self.new)
            ≡ take_step net.now (state_of self.old) (Free s) }
        ensures moments { self.new.moments ≡ own_moments net.now self.new.logs }
        ensures idle { IsFalse result → self.new ≡ self.old }
    {
        if self.is_idle(s) || self.first_in_hand(s).is_some() {
            return false;
        }
        self.hands[s as usize] = None;
        true
    }

    // The next delivery of the environment lands, if there is one.
    pub(crate) fn feed(
        &mut self,
        alloc: Global,
        net: &Network,
        trace: &Trace,
    ) -> Result<bool, NoMemory>
        requires parts { AreParts net.now trace.now self.old }
        ensures step { IfOk result (λ taken.
            then_some taken (state_of self.new) ≡ take_step net.now (state_of self.old) Feed) }
        ensures moments { OnOk result (self.new.moments ≡ own_moments net.now self.new.logs) }
        ensures idle { IfOk result (λ taken. IsFalse taken → self.new ≡ self.old) }
        ensures err { OnErr result (self.new ≡ self.old) }
    {
        let owed = match self.rest.first() {
            Some(first) => first,
            None => return Ok(false),
        };
        let taken = self.deliver(alloc, net, owed, 0)?;
        if taken {
            self.rest.pass();
        }
        Ok(taken)
    }

    // Takes a step, if it can be taken.
    pub(crate) fn step<R: Reactor>(
        &mut self,
        alloc: Global,
        net: &Network,
        trace: &Trace,
        r: &R,
        step: CoreStep,
    ) -> Result<bool, NoMemory>
        requires network { R.meaning r.now ≡ net.now }
        requires parts { AreParts net.now trace.now self.old }
        ensures step { IfOk result (λ taken.
            then_some taken (state_of self.new) ≡ take_step net.now (state_of self.old) step) }
        ensures moments { OnOk result (self.new.moments ≡ own_moments net.now self.new.logs) }
        ensures idle { IfOk result (λ taken. IsFalse taken → self.new ≡ self.old) }
        ensures err { OnErr result (self.new ≡ self.old) }
    {
        let machines = net.machines.len();
        match step {
            CoreStep::React { machine } => {
                if (machine as u64) < machines {
                    self.react(alloc, net, trace, r, machine)
                } else {
                    Ok(false)
                }
            }
            CoreStep::Land { machine } => {
                if (machine as u64) < machines {
                    self.land(alloc, net, trace, machine)
                } else {
                    Ok(false)
                }
            }
            CoreStep::Free { machine } => {
                if (machine as u64) < machines {
                    Ok(self.free(net, trace, machine))
                } else {
                    Ok(false)
                }
            }
            CoreStep::Feed => self.feed(alloc, net, trace),
        }
    }
}
