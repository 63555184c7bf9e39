// What one thread may hand to another.
use crate::cell::Cell;
use crate::feed::Feed;

fn sent<T: Send>(_: &T) {}

// Threads may hand cells and feeds to one another. No clause says so: these calls need the types
// to be `Send`.
fn cross_threads(cell: &Cell<'_>, feed: &Feed<'_>) {
    sent(cell);
    sent(feed);
}
