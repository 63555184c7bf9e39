// The files that a call reads: networks, traces and journals, what they say, or why one isn't
// accepted, with what explains that.
#![tactic(auto)]

mod accept;
mod explanation;
mod inputs;
mod load;

pub use accept::{DeclaredNet, FileFault, declared_network_in, network_in};
pub use explanation::explain_entry;
pub use inputs::{Inputs, load_inputs};
pub use load::{Detail, JournalFile, load_declared, load_journal, load_net, load_text, load_trace};
