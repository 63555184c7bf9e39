// What stands under the locks of the workers: the cell of each machine, whose reaction is frozen
// under the lock, run without it and settled under it again; the deliveries that a firing has
// under way; and those of the environment.
#![tactic(auto)]

mod arrival;
mod cell;
mod feed;
mod frozen;
mod gate;
mod law;
mod look;
mod outgoing;
mod pending;
mod room;
mod sharing;

pub use arrival::Arrival;
pub use cell::Cell;
pub use feed::Feed;
pub use frozen::Frozen;
pub use gate::{Gate, OpenGate};
pub use law::cell_laws;
pub use look::{CellError, Look};
pub use outgoing::Outgoing;
