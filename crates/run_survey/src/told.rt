// What is told of many runs.
use polis_base::{Bytes, List};
use run_watch::Complaint;

/// Runs with the same outputs.
#[derive(Drop)]
pub struct Kind {
    /// Their outputs, as a text.
    pub outputs: Bytes,
    /// How many runs have these.
    pub count: u64,
    /// The seed of the first of them.
    pub seed: u64,
}

/// Runs of some sort, as those with the outputs of none of the kinds that are told apart.
#[derive(Clone, Copy)]
pub struct Others {
    /// How many.
    pub count: u64,
    /// The seed of the first.
    pub seed: u64,
}

/// Runs of which a monitor complains.
#[derive(Clone, Copy)]
pub struct FoundRuns {
    /// How many.
    pub count: u64,
    /// The seed of the first.
    pub seed: u64,
    /// The complaint of the first.
    pub complaint: Complaint,
}

/// A number that each run has.
#[derive(Clone, Copy)]
pub struct Spread {
    /// The least.
    pub least: u64,
    /// The greatest.
    pub most: u64,
    /// The seed of the first run that has the greatest.
    pub seed: u64,
    /// How many runs have one above 0.
    pub runs: u64,
}

/// What is told of the runs of neighbouring seeds.
#[derive(Drop)]
pub struct Survey {
    /// The seed of the first run.
    pub seed: u64,
    /// How many runs there are.
    pub runs: u64,
    /// How many of them are complete.
    pub complete: u64,
    /// The first 32 different outputs, in the order of their first runs.
    pub kinds: Vec<Kind>,
    /// The runs that have none of these.
    pub others: Option<Others>,
    /// What each input lost, by machine and then by input.
    pub lost: List<Spread>,
    /// The firings on which each input was unused, likewise.
    pub unused: List<Spread>,
    /// The reactions of each machine that were jammed.
    pub jammed: List<Spread>,
    /// The firings that took each row, by machine and then by row.
    pub taken: List<Spread>,
    /// The runs of which the monitor complains. Without a monitor there are none.
    pub found: Option<FoundRuns>,
    /// The runs that leave the monitor unfinished, likewise.
    pub unfinished: Option<Others>,
}
