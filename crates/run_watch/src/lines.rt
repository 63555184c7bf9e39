// The line of an answer.
ghost use Rattle.std.specs.Prelude.{◌≡◌, ◌++◌, IsTrue, OnErr, OnOk};
ghost use Rattle.journals.specs.Journals.{is_event_code};
ghost use Rattle.run_watch.specs.WatchLines.{IsShown, complaint_line, watched_line};

use crate::answer::{Complaint, Watched};
use journal_text::push_event;
use polis_base::{Bytes, NoMemory};
use transition_table::Network;

// Appends `found K : E`.
fn push_complaint(
    monitor: &Network,
    complaint: &Complaint,
    into: &mut Bytes,
) -> Result<(), NoMemory>
    requires { IsTrue (is_event_code monitor.now complaint.now.event complaint.now.code) }
    ensures { OnOk result (into.new ≡ into.old ++ complaint_line monitor.now complaint.now) }
{
    into.push(b"found ")?;
    into.push_decimal(complaint.place)?;
    into.push(b" : ")?;
    push_event(monitor, complaint.event, complaint.code, into)?;
    into.push(b"\n")?;
    Ok(())
}

fn push_line(monitor: &Network, watched: &Watched, into: &mut Bytes) -> Result<(), NoMemory>
    requires { IsShown monitor.now watched.now }
    ensures { OnOk result (into.new ≡ into.old ++ watched_line monitor.now watched.now) }
{
    match watched {
        Watched::Held => into.push(b"held\n")?,
        Watched::Unfinished => into.push(b"unfinished\n")?,
        Watched::Found(complaint) => push_complaint(monitor, complaint, into)?,
    }
    Ok(())
}

/// Appends the line of what a monitor says: `held`, `unfinished`, or `found K : E`, K being the
/// place and E the event.
pub fn push_watched(monitor: &Network, watched: &Watched, into: &mut Bytes) -> Result<(), NoMemory>
    requires { IsShown monitor.now watched.now }
    ensures ok { OnOk result (into.new ≡ into.old ++ watched_line monitor.now watched.now) }
    ensures err { OnErr result (into.new ≡ into.old) }
{
    let mut text = into.beside();
    push_line(monitor, watched, &mut text)?;
    into.push(text.as_slice())
}
