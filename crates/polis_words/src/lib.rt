// What a command line asks for, and the texts that a call of the program shows.
#![tactic(auto)]

mod cause;
mod law;
mod lines;
mod print;
mod requests;
mod sentences;
mod status;

pub use cause::{Cause, Conflict, Failure, LexKind};
pub use law::laws;
pub use lines::{failure_text, fault_line};
pub use print::{
    print_accepted, print_drawn, print_image, print_items, print_legal, print_machine_snapshot,
    print_migrated, print_same, print_snapshot, print_summary, print_waved,
};
pub use requests::{
    Bound, Chart, Check, Demo, Equiv, Explain, FromJournal, FromNet, GivenCosts, GivenOrder,
    NetStem, NetTrace, OnJournal, OnNet, Replay, ReplayStem, Request, Run, Shuffle, Survey, Watch,
    needs_workers, request_of,
};
pub use sentences::{
    ABSENT, end_sentence, first_row_sentence, journal_sentence, lex_sentence, long_sentence,
    place_sentence, rule_sentence, second_row_sentence, trace_sentence, why_sentence,
};
pub use status::Status;
