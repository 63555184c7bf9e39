// What the words of a line name.
ghost use Rattle.std.specs.Prelude.{◌≡◌, ◌<◌, ◌∷◌, List, length, option_copied, Some, Err, IfOk, IfErr, IfSome, IfNone, IsTrue};
ghost use Rattle.journals.specs.Journals.{is_party};
ghost use Rattle.journal_text.specs.Items.{name_part, value_part_of, party_named, as_state};
ghost use Rattle.polis_base.specs.Pieces.{left};
ghost use Rattle.journal_text.specs.Steps.{Steps, Stops, GivesValue, StopsValues};

use crate::fault::JournalKind;
use crate::index::Index;
use journals::code_of_word;
use polis_base::next_piece;
use transition_table::{Network, Party, StateDecl};

/// The name of an item, up to its first `=`, and what stands after that.
pub fn split(item: &[u8]) -> (&[u8], Option<&[u8]>)
    ensures name { result.0.now ≡ name_part item.now }
    ensures value { option_copied result.1 ≡ value_part_of item.now }
{
    next_piece(item, b'=')
}

/// The party of this name: the environment by `env`, or a machine.
pub fn party_of_name(index: &Index, word: &[u8]) -> Option<Party>
    ensures { result ≡ party_named index.now.net.now word.now }
{
    if word == b"env".as_slice() {
        return Some(Party::Env);
    }
    Some(Party::Machine(index.machine(word)?))
}

/// The code that the next item gives a thing of this name and domain, with the items after it; or 0
/// and all items, where the next item has another name or there is none. None where its value is at
/// fault.
pub fn code_of_next<'a>(
    net: &Network,
    name: &[u8],
    domain: Option<u32>,
    items: Option<&'a [u8]>,
) -> Option<(u8, Option<&'a [u8]>)>
    requires { IfSome domain (λ d. d < length net.now.domains) }
    ensures some { IfSome result (λ r.
        Steps net.now (name.now, domain) (left 32 (option_copied items.entry)) r.0
        (left 32 (option_copied r.1))) }
    ensures none { IfNone result
        (Stops net.now (name.now, domain) (left 32 (option_copied items.entry))) }
{
    let Some(text) = items else {
        return Some((0, None));
    };
    let (item, after) = next_piece(text, b' ');
    let (found, value) = split(item);
    if name == found {
        Some((code_of_word(net, domain, value)?, after))
    } else {
        Some((0, Some(text)))
    }
}

/// The value that the next item gives a state variable, with the items after it; or the kind of
/// fault, where the next item isn't of that variable, or there is none, or its value is at fault.
pub fn value_of_next<'a>(
    net: &Network,
    variable: &StateDecl,
    items: Option<&'a [u8]>,
) -> Result<(u8, Option<&'a [u8]>), JournalKind>
    requires { variable.now.domain < length net.now.domains }
    ensures ok { IfOk result
        (λ r. GivesValue net.now (as_state variable.now) (left 32 (option_copied items.entry)) r.0
        (left 32 (option_copied r.1))) }
    ensures fault { IfErr result (λ kind.
        StopsValues net.now (as_state variable.now) (left 32 (option_copied items.entry)) kind) }
{
    let Some(text) = items else {
        return Err(JournalKind::Name);
    };
    let (item, after) = next_piece(text, b' ');
    let (found, value) = split(item);
    if variable.name.bytes() == found {
        match code_of_word(net, Some(variable.domain), value) {
            Some(code) => Ok((code - 1, after)),
            None => Err(JournalKind::Value),
        }
    } else {
        Err(JournalKind::Name)
    }
}
