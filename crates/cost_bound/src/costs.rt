// What instructions cost.
ghost use Rattle.std.specs.Prelude.{◌≡◌, ◌≤◌};
ghost use Rattle.polis_base.specs.declared.limits.TheConstants.{COST_MAX};

use task_code::Instr;

/// What the instructions of each kind cost, each at most 1,000,000.
#[derive(Clone, Copy)]
pub struct Costs {
    /// The cost of a test.
    pub test: u32,
    /// The cost of a set.
    pub set: u32,
    /// The cost of a goto.
    pub jump: u32,
    /// The cost of a halt.
    pub halt: u32,
    pub ghost few_test: { test ≤ COST_MAX },
    pub ghost few_set: { set ≤ COST_MAX },
    pub ghost few_jump: { jump ≤ COST_MAX },
    pub ghost few_halt: { halt ≤ COST_MAX },
}

impl Costs {
    ghost use Rattle.cost_bound.specs.Costs.{cost_of};

    /// Each instruction costs 1, so that a cost is a number of steps.
    pub fn ones() -> Costs
        ensures test { result.test ≡ 1 }
        ensures set { result.set ≡ 1 }
        ensures jump { result.jump ≡ 1 }
        ensures halt { result.halt ≡ 1 }
    {
        Costs {
            test: 1,
            set: 1,
            jump: 1,
            halt: 1,
        }
    }

    /// What an instruction costs.
    pub fn of(&self, instr: &Instr) -> u64
        ensures cost { result ≡ cost_of self.now instr.now }
        ensures few { result ≤ COST_MAX }
    {
        let costs = *self;
        match instr {
            Instr::Test { .. } => u64::from(costs.test),
            Instr::Set { .. } => u64::from(costs.set),
            Instr::Goto { .. } => u64::from(costs.jump),
            Instr::Halt => u64::from(costs.halt),
        }
    }
}
