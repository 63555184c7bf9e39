// What threads may share, and what one may hand to another.
use crate::entry::{Entry, Journal, Trace};
use crate::stamped::{Log, LogList, Stamps};

fn shared<T: Sync>(_: &T) {}

fn sent<T: Send>(_: &T) {}

// Threads may share traces, journals and stamps, and hand entries, logs and journals to one
// another. No clause says so: these calls need the types to be `Sync` and `Send`.
fn cross_threads(
    trace: &Trace,
    journal: &Journal,
    stamps: &Stamps,
    entry: &Entry,
    log: &Log,
    logs: &LogList,
) {
    shared(trace);
    shared(journal);
    shared(stamps);
    shared(logs);
    sent(entry);
    sent(log);
    sent(logs);
    sent(journal);
}
