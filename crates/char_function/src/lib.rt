// What the results of a machine depend on, its first order, and the diagram of its characteristic
// function.
#![tactic(auto)]

mod allowed;
mod column;
mod first;
mod fixing;
mod group;
mod known;
mod law;
mod levels;
mod rising;
mod root;
mod support;
mod support_lists;

pub use allowed::is_allowed;
pub use first::first_order;
pub use law::laws;
pub use root::{characteristic, diagram};
pub use support::{supports, supports_in};
pub use support_lists::Supports;
