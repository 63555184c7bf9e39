// The item of one line.
ghost use Rattle.std.specs.Prelude.{◌≡◌, option_copied};
ghost use Rattle.trace_text.specs.Traces.{env_event, sent_item, is_settle, item_of_words, item_of_line, AddsItem};

use crate::cut::{next_word, text_of};
use crate::fault::TraceKind;
use crate::sent::Sent;
use journals::{TraceItem, code_of_word};

// The item of an event of this name with the word after it.
fn item_of_event(
    sent: &Sent,
    name: &[u8],
    word: Option<&[u8]>,
) -> Result<Option<TraceItem>, TraceKind>
    ensures item { result ≡ sent_item sent.now.net.now (env_event sent.now.net.now name.now)
        (option_copied word.entry) }
    ensures fits { AddsItem sent.now.net.now result }
{
    let net = sent.net;
    match sent.event(name) {
        None => Err(TraceKind::Event),
        Some(e) => match code_of_word(net, net.events.get(e as u64).domain, word) {
            None => Err(TraceKind::Value),
            Some(code) => Ok(Some(TraceItem::Event { event: e, code })),
        },
    }
}

fn is_settle_word(word: &[u8]) -> bool
    ensures { result ≡ is_settle word.now }
{
    word == b"settle".as_slice()
}

/// The item that a line is, if it is one, or the first kind of fault that applies to it.
pub fn read_line(sent: &Sent, line: &[u8]) -> Result<Option<TraceItem>, TraceKind>
    ensures item { result ≡ item_of_line sent.now.net.now line.now }
    ensures fits { AddsItem sent.now.net.now result }
{
    let Some((first, rest)) = next_word(text_of(line)) else {
        return Ok(None);
    };
    match next_word(rest) {
        None if is_settle_word(first) => Ok(Some(TraceItem::Settle)),
        None => item_of_event(sent, first, None),
        Some((second, rest)) => {
            if is_settle_word(first) || next_word(rest).is_some() {
                Err(TraceKind::Shape)
            } else {
                item_of_event(sent, first, Some(second))
            }
        }
    }
}
