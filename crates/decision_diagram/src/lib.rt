// Reduced ordered decision diagrams over variables of several values.
#![tactic(auto)]

mod apply;
mod count;
mod law;
mod node;
mod noted;
mod operation;
mod order;
mod store;
mod worked;

pub use law::laws;
pub use node::{NodeId, Shape};
pub use order::Order;
pub use store::{Root, Store};
pub use worked::worked_sizes;
