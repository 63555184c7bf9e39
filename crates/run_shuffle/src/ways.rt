// What a run keeps beside its configuration, so that an entry costs what it changes.
ghost use Rattle.std.specs.Prelude.{◌≡◌, ◌<◌, ◌≤◌, ℕ, [], ◌∷◌, ◌++◌, Some, length, slice_set, IfOk, IfSome, OnOk};
ghost use Rattle.std.specs.List.{sum_by};
ghost use Rattle.journals.specs.Journals.{FitsNetwork};
ghost use Rattle.journals.specs.Legality.{MayFollow};
ghost use Rattle.journals.specs.declared.entry.Entry.TheVariants.{Dep, Rea};
ghost use Rattle.transition_table.specs.declared.decl.Party.TheVariants.{Env, Machine as Sender};
ghost use Rattle.run_shuffle.specs.Blocks.{block_to as its_block};
ghost use Rattle.run_shuffle.specs.inner.Blocks.{settles};
ghost use Rattle.run_shuffle.specs.inner.Runs.{IsTaken};
ghost use Rattle.run_shuffle.specs.inner.Ways.{AreWays, IsSetOf, begun_table, blocks_table, env_owes, how_many, is_of_block};

use crate::blocks::settles_of;
use crate::emitted::with_outcome;
use crate::offers::same_block;
use net_core::{Config, Entry, Trace, moving_laws, sending_laws};
use polis_base::{List, NoMemory, SmallSet};
use scheduler_gen::{Plan, plan};
use std::alloc::Global;
use transition_table::{Outcome, Party, Snapshot};

/// What a run keeps beside its configuration: the order in which the scheduler tries machines,
/// which deliveries may come next, and which reactions.
#[derive(Drop)]
pub(crate) struct Ways {
    pub(crate) plan: Plan,
    // for each machine those to which it owes a delivery
    pub(crate) sends: List<SmallSet>,
    // how many they are together
    pub(crate) owed: u64,
    // those to which the environment owes one
    pub(crate) env: SmallSet,
    pub(crate) woken: SmallSet,
    // the block of each place of the trace
    pub(crate) blocks: List<u64>,
    // which blocks have begun
    pub(crate) begun: List<bool>,
    // those to which the environment's next delivery is of this block
    pub(crate) of_block: SmallSet,
    pub(crate) block: Option<u64>,
}

// The block of each place of the trace, and how many `settle` items there are.
fn blocks_of(alloc: Global, trace: &Trace) -> Result<(List<u64>, u64), NoMemory>
    ensures blocks { IfOk result (λ p. p.0 ≡ blocks_table trace.now) }
    ensures all { IfOk result (λ p. p.1 ≡ settles trace.now) }
    ensures few { IfOk result (λ p. p.1 ≤ length trace.now) }
{
    let mut blocks = List::with_room(alloc, trace.len())?;
    let mut block = 0;
    for i in 0..trace.len() {
        blocks.push(block)?;
        block += settles_of(*trace.get(i));
    }
    Ok((blocks, block))
}

// The machines to which the environment owes a delivery.
fn owed_by_env(config: &Config<'_>) -> SmallSet
    ensures { IsSetOf (length config.now.net.machines)
        (env_owes config.now.net config.now.trace config.now.journal) result }
{
    let last = config.trace().len();
    let mut set = SmallSet::empty();
    for m in 0..config.network().machines.len() {
        set = set.marked(m as u32, config.place(m as u32) < last);
    }
    set
}

impl Ways {
    // What is kept beside an empty journal.
    pub(crate) fn start(alloc: Global, config: &Config<'_>) -> Result<Ways, NoMemory>
        requires { config.now.journal ≡ [] }
        ensures { IfOk result (λ ways. AreWays config.now ways) }
    {
        let net = config.network();
        let plan = plan(alloc, net)?;
        let (blocks, last) = blocks_of(alloc, config.trace())?;
        let mut begun = List::filled(alloc, last, false)?;
        begun.push(false)?;
        let none = SmallSet::empty();
        let sends = List::filled(alloc, net.machines.len(), none)?;
        Ok(Ways {
            plan,
            sends,
            owed: 0,
            env: owed_by_env(config),
            woken: none,
            blocks,
            begun,
            of_block: none,
            block: None,
        })
    }

    // The block of the first delivery that the environment owes to a machine.
    pub(crate) fn block_to(&self, config: &Config<'_>, m: u32) -> Option<u64>
        requires blocks { self.now.blocks ≡ blocks_table config.now.trace }
        requires machine { m < length config.now.net.machines }
        ensures block { result ≡ its_block config.now.net config.now.trace config.now.journal m }
        ensures within { IfSome result (λ block. block ≤ settles config.now.trace) }
    {
        sending_laws();
        let place = config.place(m);
        if place < self.blocks.len() {
            Some(*self.blocks.get(place))
        } else {
            None
        }
    }

    // The machines to which the environment's next delivery is of a block.
    fn set_of_block(&self, config: &Config<'_>, block: Option<u64>) -> SmallSet
        requires { AreWays config.now self.now }
        ensures { IsSetOf (length config.now.net.machines)
            (is_of_block config.now.net config.now.trace config.now.journal block) result }
    {
        let mut set = SmallSet::empty();
        for m in 0..config.network().machines.len() {
            let own = self.block_to(config, m as u32);
            set = set.marked(m as u32, same_block(own, block));
        }
        set
    }

    // The same, which is kept until another block is asked for.
    pub(crate) fn to_block(&mut self, config: &Config<'_>, block: u64) -> SmallSet
        requires { AreWays config.now self.old }
        ensures set { IsSetOf (length config.now.net.machines)
            (is_of_block config.now.net config.now.trace config.now.journal (Some block)) result }
        ensures ways { AreWays config.now self.new }
    {
        if !same_block(self.block, Some(block)) {
            self.of_block = self.set_of_block(config, Some(block));
            self.block = Some(block);
        }
        self.of_block
    }

    // Marks the block that begins with the environment's next delivery to a machine.
    fn begin(&mut self, config: &Config<'_>, to: u32)
        requires ways { AreWays config.now self.old }
        requires machine { to < length config.now.net.machines }
        ensures begun { (e c : ℕ) → self.new.begun ≡ begun_table config.now.net config.now.trace
            (config.now.journal ++ Dep Env to e c ∷ []) }
        ensures same { self.new ≡ record self.old { begun = self.new.begun } }
    {
        sending_laws();
        if let Some(block) = self.block_to(config, to) {
            self.begun.set(block, true);
        }
    }

    // Takes the environment's next delivery to a machine.
    fn take_from_env(
        &mut self,
        config: &mut Config<'_>,
        to: u32,
        event: u32,
        code: u8,
    ) -> Result<(), NoMemory>
        requires ways { AreWays config.old self.old }
        requires fits { FitsNetwork config.old.net (Dep Env to event code) }
        requires follows { MayFollow config.old.net config.old.trace config.old.journal
            (Dep Env to event code) }
        ensures taken { OnOk result (IsTaken (Dep Env to event code) config.old config.new) }
        ensures ways { OnOk result (AreWays config.new self.new) }
    {
        moving_laws();
        sending_laws();
        let _journal = config.journal();
        self.begin(config, to);
        config.take(Entry::Dep {
            from: Party::Env,
            to,
            event,
            code,
        })?;
        self.env = self.env.marked(to, config.place(to) < config.trace().len());
        self.woken = self.woken.with(to);
        let own = self.block_to(config, to);
        self.of_block = self.of_block.marked(to, same_block(own, self.block));
        Ok(())
    }

    // Puts other receivers in the place of a sender's.
    fn set_receivers(&mut self, sender: u32, receivers: SmallSet)
        requires sender { sender < length self.old.sends }
        requires few { length self.old.sends ≤ 64 }
        requires owed { self.old.owed ≡ sum_by how_many self.old.sends }
        ensures sends { self.new.sends ≡ slice_set self.old.sends sender receivers }
        ensures owed { self.new.owed ≡ sum_by how_many self.new.sends }
        ensures same { self.new
            ≡ record self.old { sends = self.new.sends; owed = self.new.owed } }
    {
        let before = self.sends.get(sender as u64).len();
        self.owed = self.owed - before + receivers.len();
        self.sends.set(sender as u64, receivers);
    }

    // Takes a machine's next delivery to another.
    fn take_between(
        &mut self,
        config: &mut Config<'_>,
        from: u32,
        to: u32,
        event: u32,
        code: u8,
    ) -> Result<(), NoMemory>
        requires ways { AreWays config.old self.old }
        requires fits { FitsNetwork config.old.net (Dep (Sender from) to event code) }
        requires follows { MayFollow config.old.net config.old.trace config.old.journal
            (Dep (Sender from) to event code) }
        ensures taken { OnOk result
            (IsTaken (Dep (Sender from) to event code) config.old config.new) }
        ensures ways { OnOk result (AreWays config.new self.new) }
    {
        moving_laws();
        sending_laws();
        let _journal = config.journal();
        config.take(Entry::Dep {
            from: Party::Machine(from),
            to,
            event,
            code,
        })?;
        let owed = *self.sends.get(from as u64);
        let left = config.owed_between(from, to).is_some();
        self.set_receivers(from, owed.marked(to, left));
        self.woken = self.woken.with(to);
        Ok(())
    }

    // Takes the reaction of a machine.
    fn take_reaction(
        &mut self,
        config: &mut Config<'_>,
        machine: u32,
        snapshot: Snapshot,
        outcome: Outcome,
    ) -> Result<(), NoMemory>
        requires ways { AreWays config.old self.old }
        requires fits { FitsNetwork config.old.net (Rea machine snapshot outcome) }
        requires follows { MayFollow config.old.net config.old.trace config.old.journal
            (Rea machine snapshot outcome) }
        ensures taken { OnOk result (IsTaken (Rea machine snapshot outcome) config.old config.new) }
        ensures ways { OnOk result (AreWays config.new self.new) }
    {
        moving_laws();
        sending_laws();
        let _journal = config.journal();
        let owed = *self.sends.get(machine as u64);
        let owes = with_outcome(config.network(), machine, &outcome, owed);
        config.take(Entry::Rea {
            machine,
            snapshot,
            outcome,
        })?;
        self.set_receivers(machine, owes);
        self.woken = self.woken.without(machine);
        Ok(())
    }

    // Takes an entry that may come.
    pub(crate) fn take(&mut self, config: &mut Config<'_>, entry: Entry) -> Result<(), NoMemory>
        requires ways { AreWays config.old self.old }
        requires fits { FitsNetwork config.old.net entry }
        requires follows { MayFollow config.old.net config.old.trace config.old.journal entry }
        ensures taken { OnOk result (IsTaken entry config.old config.new) }
        ensures ways { OnOk result (AreWays config.new self.new) }
    {
        match entry {
            Entry::Dep {
                from,
                to,
                event,
                code,
            } => match from {
                Party::Env => self.take_from_env(config, to, event, code),
                Party::Machine(s) => self.take_between(config, s, to, event, code),
            },
            Entry::Rea {
                machine,
                snapshot,
                outcome,
            } => self.take_reaction(config, machine, snapshot, outcome),
        }
    }
}
