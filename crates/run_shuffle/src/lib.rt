// Runs that are drawn from a number: one legal journal for each seed and order.
#![tactic(auto)]

mod blocks;
mod chances;
mod choice;
mod draws;
mod emitted;
mod law;
mod moves;
mod offers;
mod order;
mod run;
mod sets;
mod ways;
mod worked;

pub use law::laws;
pub use moves::{Moves, all_moves};
pub use offers::{Offer, offered};
pub use order::{Order, RunOrder};
pub use run::shuffle;
pub use scheduler_gen::Finished;
pub use worked::{worked_belt, worked_seeds, worked_shuffles};
