// What may come next in a run, and what each order offers of that, against lists worked out by hand.
ghost use Rattle.transition_table.specs.Transitions.{AreDeterministic};
ghost use Rattle.journals.specs.Journals.{IsTrace};

use crate::inputs::inputs_of;
use crate::runs::merged;
use crate::tests::expect;
use input_files::Inputs;
use net_core::{Config, Pick};
use polis_base::{Bytes, NoMemory};
use run_shuffle::{Moves, RunOrder, all_moves, offered};
use scheduler_gen::plan;
use std::alloc::Global;
use std::process::Abort;
use std::test::Fail;
use transition_table::Party;
use worker_core::CoreStep;

// The machine 0 sends p to 1, and then q to 1 and 2. The events go, stop, p and q are 0 to 3, and
// the code of q is 3.
const NET: &str = "network steps version 1
domain d = 0 .. 3
event go from env
event stop from env
event p
event q : d
machine a priority 2 {
  input go
  output p, q
  when go do emit p, emit q = 2
}
machine b priority 1 {
  input p, q, stop
  when p do nothing
}
machine c priority 0 {
  input go, stop, q
  when go do nothing
}
";

// The three blocks have deliveries to a and c, to b and c, and to a and c.
const TRACE: &str = "go\nsettle\nstop\nsettle\ngo\n";

// Steps that lead from the start to a journal in which the second block has begun.
const STEPS: &[CoreStep] = &[
    CoreStep::Feed,
    CoreStep::React { machine: 0 },
    CoreStep::Land { machine: 0 },
    CoreStep::Land { machine: 0 },
    CoreStep::Land { machine: 0 },
    CoreStep::Feed,
    CoreStep::React { machine: 1 },
    CoreStep::React { machine: 2 },
    CoreStep::Feed,
];

// What may come next after so many of the steps: all of it, and what each order offers of the
// environment's moves and then of the network's. A delivery is SENDER>RECEIVER:EVENT=CODE, a
// reaction !MACHINE.
#[derive(Clone, Copy)]
struct After<'a> {
    case: &'a str,
    steps: usize,
    all: &'a [u8],
    free: &'a [u8],
    settled: &'a [u8],
    scheduled: &'a [u8],
}

// The first block alone may come before a `settle`.
const AT_START: &After<'_> = &After {
    case: "at the start",
    steps: 0,
    all: b" env>0:0=1 env>1:1=1 env>2:0=1",
    free: b" env>0:0=1 env>1:1=1 env>2:0=1 |",
    settled: b" env>0:0=1 env>2:0=1 |",
    scheduled: b" env>0:0=1 |",
};

// Of what a owes b the first comes next. The last delivery to a is of the third block.
const A_FIRED: &After<'_> = &After {
    case: "a fired",
    steps: 2,
    all: b" env>0:0=1 env>1:1=1 env>2:0=1 0>1:2=1 0>2:3=3",
    free: b" env>0:0=1 env>1:1=1 env>2:0=1 | 0>1:2=1 0>2:3=3",
    settled: b" env>2:0=1 | 0>1:2=1 0>2:3=3",
    scheduled: b" env>2:0=1 | 0>1:2=1",
};

// The second block waits for b and c, of which c has the smaller priority.
const ALL_LANDED: &After<'_> = &After {
    case: "all landed",
    steps: 6,
    all: b" env>0:0=1 env>1:1=1 env>2:1=1 !1 !2",
    free: b" env>0:0=1 env>1:1=1 env>2:1=1 | !1 !2",
    settled: b" | !1 !2",
    scheduled: b" | !2",
};

// The network has no move.
const AT_REST: &After<'_> = &After {
    case: "at rest",
    steps: 8,
    all: b" env>0:0=1 env>1:1=1 env>2:1=1",
    free: b" env>0:0=1 env>1:1=1 env>2:1=1 |",
    settled: b" env>1:1=1 env>2:1=1 |",
    scheduled: b" env>1:1=1 |",
};

// The second block has begun, and goes on beside b. Nothing more comes to b.
const BLOCK_BEGUN: &After<'_> = &After {
    case: "a block has begun",
    steps: 9,
    all: b" env>0:0=1 env>2:1=1 !1",
    free: b" env>0:0=1 env>2:1=1 | !1",
    settled: b" env>2:1=1 | !1",
    scheduled: b" env>2:1=1 | !1",
};

const CASES: &[&After<'_>] = &[AT_START, A_FIRED, ALL_LANDED, AT_REST, BLOCK_BEGUN];

fn push_party(party: Party, into: &mut Bytes) -> Result<(), NoMemory> {
    match party {
        Party::Env => into.push(b"env"),
        Party::Machine(s) => into.push_decimal(u64::from(s)),
    }
}

fn push_delivery(from: Party, codes: [u64; 3], into: &mut Bytes) -> Result<(), NoMemory> {
    let [to, event, code] = codes;
    push_party(from, into)?;
    into.push(b">")?;
    into.push_decimal(to)?;
    into.push(b":")?;
    into.push_decimal(event)?;
    into.push(b"=")?;
    into.push_decimal(code)
}

fn push_move(next: Pick, into: &mut Bytes) -> Result<(), NoMemory> {
    into.push(b" ")?;
    match next {
        Pick::Deliver {
            from,
            to,
            event,
            code,
        } => push_delivery(
            from,
            [u64::from(to), u64::from(event), u64::from(code)],
            into,
        ),
        Pick::React { machine } => {
            into.push(b"!")?;
            into.push_decimal(u64::from(machine))
        }
        Pick::Stop => into.push(b"stop"),
    }
}

// Appends the moves, each with a space before it.
fn push_moves(moves: &Moves, into: &mut Bytes) -> Result<(), NoMemory> {
    for next in moves.as_slice() {
        push_move(*next, into)?;
    }
    Ok(())
}

// Whether these are all moves.
fn are_all(alloc: Global, config: &Config<'_>, wanted: &[u8]) -> Result<bool, NoMemory> {
    let moves = all_moves(alloc, config)?;
    let mut text = Bytes::new(alloc);
    push_moves(&moves, &mut text)?;
    Ok(text.as_slice() == wanted)
}

// Whether an order offers these moves.
fn are_offered(
    alloc: Global,
    config: &Config<'_>,
    order: RunOrder,
    wanted: &[u8],
) -> Result<bool, NoMemory> {
    let plan = plan(alloc, config.network())?;
    let offer = offered(alloc, &plan, config, order)?;
    let mut text = Bytes::new(alloc);
    push_moves(&offer.env, &mut text)?;
    text.push(b" |")?;
    push_moves(&offer.network, &mut text)?;
    Ok(text.as_slice() == wanted)
}

// Whether all that is said of a journal holds.
fn are_next(alloc: Global, config: &Config<'_>, after: &After<'_>) -> Result<bool, NoMemory> {
    let all = are_all(alloc, config, after.all)?;
    let free = are_offered(alloc, config, RunOrder::Free, after.free)?;
    let settled = are_offered(alloc, config, RunOrder::Settled, after.settled)?;
    let scheduled = are_offered(alloc, config, RunOrder::Scheduled, after.scheduled)?;
    Ok(all && free && settled && scheduled)
}

// The same of the journal that the steps make.
fn are_next_after(alloc: Global, inputs: &Inputs, after: &After<'_>) -> Result<bool, NoMemory>
    requires fits { IsTrace inputs.now.net inputs.now.trace }
    requires deterministic { AreDeterministic inputs.now.net }
{
    let journal = merged(alloc, inputs, &STEPS[..after.steps.min(STEPS.len())])?;
    let config = Config::resume(alloc, &inputs.net, &inputs.trace, journal)?;
    are_next(alloc, &config, after)
}

fn try_cases<T: Abort>(rt: &T, alloc: Global) -> Result<(), NoMemory> {
    let inputs = inputs_of(alloc, NET, TRACE)?;
    for after in CASES {
        let are_next = are_next_after(alloc, &inputs, after)?;
        expect(rt, after.case, are_next);
    }
    Ok(())
}

#[test]
fn moves_are_offered_by_order(rt: HostRuntime) -> Result<(), Fail> {
    try_cases(&rt, rt.alloc())?;
    Ok(())
}
