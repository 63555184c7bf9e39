// The network that declarations give, or the first rule that they break.
#![tactic(auto)]

mod codes;
mod domain_list;
mod events;
mod machine_list;
mod resolving;
mod row_list;
mod sizes;
mod worked;

pub use resolving::{ResolveFault, resolve, resolve_whole};
pub use worked::{laws, network_laws, worked_network};
