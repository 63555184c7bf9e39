// What the names of a network's declarations stand for.
#![tactic(auto)]

mod counts;
mod directions;
mod gather;
mod machine_names;
mod machines;
mod names;
mod places;
mod scope;
mod table;
mod values;
mod vars;

pub use counts::{count_at, event_codes, value_count};
pub use directions::{is_from_env, is_to_env};
pub use gather::{Gather, append, gather_all, gather_into};
pub use machine_names::MachineNames;
pub use machines::names_of_machines;
pub use names::{
    cond_name, cond_word, domain_words, event_words, machine_words, state_words, var_words,
};
pub use places::{sooner, unless};
pub use scope::Scope;
pub use table::{Table, number_all};
pub use values::{count_of, has_name, is_same, no_value, place_of, times_up_to, value_in};
pub use vars::{Var, var_numbered, var_of, vars_of};
