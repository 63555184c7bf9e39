// The limits of what is accepted and made.

/// The most machines of a network.
pub const MACHINES_MAX: u64 = 64;

/// The most events of a network.
pub const EVENTS_MAX: u64 = 256;

/// The most domains of a network.
pub const DOMAINS_MAX: u64 = 64;

/// The most inputs of a machine.
pub const INPUTS_MAX: u64 = 16;

/// The most outputs of a machine.
pub const OUTPUTS_MAX: u64 = 16;

/// The most state variables of a machine.
pub const STATES_MAX: u64 = 8;

/// The most rows of a machine.
pub const ROWS_MAX: u64 = 512;

/// The most values of a domain.
pub const DOMAIN_SIZE_MAX: u64 = 32;

/// The most snapshots of a machine: the product of the sizes of its inputs and state variables.
pub const SNAPSHOTS_MAX: u64 = 65_536;

/// The most snapshots of a machine whose order is sifted.
pub const SIFTED_SNAPSHOTS_MAX: u64 = 1_024;

/// The most bytes of a name.
pub const NAME_MAX: usize = 24;

/// The greatest priority.
pub const PRIORITY_MAX: u64 = 255;

/// The most items of a trace, those that wait for the network to settle counted.
pub const TRACE_ITEMS_MAX: u64 = 10_000;

/// The most entries of a journal.
pub const ENTRIES_MAX: u64 = 60_000;

/// The most workers of a run.
pub const WORKERS_MAX: u64 = 8;

/// The most runs of a survey.
pub const RUNS_MAX: u64 = 100_000;

/// The most bytes of a network file and of a trace file.
pub const TEXT_MAX: u64 = 4_194_304;

/// The most bytes of a journal file and of an image file, read or written.
pub const LONG_FILE_MAX: u64 = 268_435_456;

/// The most bytes of a word that names a file.
pub const FILE_NAME_MAX: u64 = 200;

/// The greatest stamp of a cell.
pub const MAX_STAMP: u64 = 1_099_511_627_776;

/// The greatest cost of an instruction.
pub const COST_MAX: u64 = 1_000_000;
