// Numbers that each run has.
ghost use Rattle.std.specs.Prelude.{◌≡◌, ◌+◌, ◌<◌, ◌^◌, ◌∷◌, [], length, IfOk};
ghost use Rattle.run_survey.specs.Spreads.{spread_of};
ghost use Rattle.run_survey.specs.inner.Joining.{AreJoined, HaveRoom, joined, singles};

use crate::told::Spread;
use polis_base::{List, NoMemory};
use std::alloc::Global;

impl Spread {
    /// A number that one run has.
    pub(crate) fn of_one(seed: u64, number: u64) -> Spread
        ensures { result ≡ spread_of seed (number ∷ []) }
    {
        Spread {
            least: number,
            most: number,
            seed,
            runs: u64::from(number > 0),
        }
    }

    /// The number over these runs and over the ones after them.
    pub(crate) fn join(&mut self, next: &Spread)
        requires { self.old.runs + next.now.runs < 2 ^ 64 }
        ensures { self.new ≡ joined self.old next.now }
    {
        self.least = self.least.min(next.least);
        if self.most < next.most {
            self.most = next.most;
            self.seed = next.seed;
        }
        self.runs += next.runs;
    }
}

/// The numbers of one run.
pub(crate) fn spreads_of_one(
    alloc: Global,
    seed: u64,
    numbers: &List<u64>,
) -> Result<List<Spread>, NoMemory>
    ensures { IfOk result (λ spreads. spreads ≡ singles seed numbers.now) }
{
    let mut spreads = List::with_room(alloc, numbers.len())?;
    for number in numbers.as_slice() {
        spreads.push(Spread::of_one(seed, *number))?;
    }
    Ok(spreads)
}

/// The numbers over some runs and over the ones after them, of which there are as many.
pub(crate) fn join_spreads(own: &mut List<Spread>, next: &List<Spread>)
    requires alike { length own.old ≡ length next.now }
    requires room { HaveRoom own.old next.now }
    ensures { AreJoined own.old next.now own.new }
{
    for i in 0..next.len() {
        let mut spread = *own.get(i);
        spread.join(next.get(i));
        own.set(i, spread);
    }
}
