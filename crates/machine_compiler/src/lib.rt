// Machines compiled: an order, a graph and code for each, their listing, and the lines that say how
// large they are.
#![tactic(auto)]

mod compiled;
mod compiling;
mod kept;
mod law;
mod lines;
mod listing;
mod shares;
mod tallies;
mod texts;

pub use compiled::{Compiled, CompiledList, codes_of};
pub use compiling::{compile_machine, compile_network};
pub use kept::{Graphs, compile_codes, compile_graphs};
pub use law::laws;
pub use lines::{print_code_tries, print_tries};
pub use listing::print_listing;
pub use shares::compile_network_by;
pub use texts::{Texts, compile_texts};
