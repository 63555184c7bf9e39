// Workers in threads over cells, each of which stands under a lock of its own. All locked values
// are of one network.
#![tactic(auto)]

mod budget;
mod gathering;
mod in_hand;
mod locked;
mod logs;
mod worker;

pub use gathering::{Gathered, GatheredOn, gather, gather_on};
