// The forms of a line.
ghost use Rattle.std.specs.Prelude.{◌≡◌, [], ◌∷◌, true, is_some, Some, None, IfSome, IfNone, IsFalse};
ghost use Rattle.journal_text.specs.Forms.{words_of, list_of, two_lists, four_lists, decimal_of, ending_of, stamp_of, last_form, stamped_form, dep_form, reaction_form, entry_form};
ghost use Rattle.journal_text.specs.Cursors.{items_in, AreLists};
ghost use Rattle.journal_text.specs.inner.Cursors.{three_of};
ghost use Rattle.journal_text.specs.Lines.{as_form, HasLists};
ghost use Rattle.journal_text.specs.inner.Lines.{NoReaction, fire_words, idle_words};

use crate::cut::{cut_at, is_a_list, is_a_word, next_word};
use polis_base::{next_piece, read_decimal};

/// The form of an entry's line, with its words and lists.
#[derive(Clone, Copy)]
pub enum Form<'a> {
    /// A delivery.
    Delivery {
        /// The sender.
        from: &'a [u8],
        /// The receiver.
        to: &'a [u8],
        /// The event, with its value.
        event: &'a [u8],
    },
    /// A reaction that fires.
    Firing {
        /// The machine.
        machine: &'a [u8],
        /// The present inputs, and the state.
        seen: (&'a [u8], &'a [u8]),
        /// The state variables that are set, and the events that are emitted.
        given: (&'a [u8], &'a [u8]),
    },
    /// A reaction that doesn't fire.
    Try {
        /// The machine.
        machine: &'a [u8],
        /// The present inputs, and the state.
        seen: (&'a [u8], &'a [u8]),
    },
}

/// The two lists of `L ; L`, and None where the words aren't of that form.
pub fn cut_two(words: &[u8]) -> Option<(&[u8], &[u8])>
    ensures some { IfSome result (λ r.
        two_lists (words_of words.now) ≡ Some (items_in r.0.now, items_in r.1.now)) }
    ensures lists { IfSome result (λ r. AreLists r.0.now r.1.now) }
    ensures none { IfNone result (two_lists (words_of words.now) ≡ None) }
{
    let (first, second) = cut_at(words, b";")?;
    if is_a_list(first) && is_a_list(second) {
        Some((first, second))
    } else {
        None
    }
}

/// The four lists of `L ; L -> L ; L`, and None where the words aren't of that form.
pub fn cut_four(words: &[u8]) -> Option<((&[u8], &[u8]), (&[u8], &[u8]))>
    ensures some { IfSome result (λ r.
        four_lists (words_of words.now) ≡ Some
        ((items_in r.0.0.now, items_in r.0.1.now), (items_in r.1.0.now, items_in r.1.1.now))) }
    ensures seen { IfSome result (λ r. AreLists r.0.0.now r.0.1.now) }
    ensures given { IfSome result (λ r. AreLists r.1.0.now r.1.1.now) }
    ensures none { IfNone result (four_lists (words_of words.now) ≡ None) }
{
    let (seen, given) = cut_at(words, b"->")?;
    Some((cut_two(seen)?, cut_two(given)?))
}

// The three words of a text that has just three.
fn three_words(text: &[u8]) -> Option<(&[u8], &[u8], &[u8])>
    ensures some { IfSome result (λ r. words_of text.now ≡ r.0.now ∷ r.1.now ∷ r.2.now ∷ []) }
    ensures none { IfNone result (three_of (words_of text.now) ≡ None) }
{
    let (first, after) = next_piece(text, b' ');
    let Some(rest) = after else {
        return None;
    };
    let (second, after) = next_piece(rest, b' ');
    let Some(rest) = after else {
        return None;
    };
    let (third, after) = next_piece(rest, b' ');
    match after {
        None => Some((first, second, third)),
        Some(_) => None,
    }
}

// The number of a decimal text below 2^64.
fn decimal(text: &[u8]) -> Option<u64>
    ensures { result ≡ decimal_of text.now }
{
    match read_decimal(text) {
        Some(number) => Some(number),
        None => None,
    }
}

// Whether the last word says that the journal is complete.
fn ending(word: &[u8]) -> Option<bool>
    ensures { result ≡ ending_of word.now }
{
    if word == b"complete".as_slice() {
        return Some(true);
    }
    if word == b"limit".as_slice() {
        return Some(false);
    }
    None
}

// Whether the line may be a last one. Of most lines the first byte shows that they are none.
fn may_be_last(line: &[u8]) -> bool
    ensures { IsFalse result → last_form (words_of line.now) ≡ None }
{
    match line.split_first() {
        Some((first, _)) => *first == b'e',
        None => false,
    }
}

/// The number and the last word of a last line, and None where the line is none.
pub fn last_line(line: &[u8]) -> Option<(u64, bool)>
    ensures { result ≡ last_form (words_of line.now) }
{
    if !may_be_last(line) {
        return None;
    }
    let Some((first, number, last)) = three_words(line) else {
        return None;
    };
    if first != b"end".as_slice() {
        return None;
    }
    match (decimal(number), ending(last)) {
        (Some(number), Some(complete)) => Some((number, complete)),
        _ => None,
    }
}

// The form of `W W W`.
fn delivery(words: &[u8]) -> Option<Form<'_>>
    ensures some { IfSome result (λ f. dep_form (words_of words.now) ≡ Some (as_form f)) }
    ensures lists { IfSome result HasLists }
    ensures none { IfNone result (dep_form (words_of words.now) ≡ None) }
{
    let Some((from, after)) = next_word(words) else {
        return None;
    };
    let Some(rest) = after else {
        return None;
    };
    let Some((to, after)) = next_word(rest) else {
        return None;
    };
    let Some(rest) = after else {
        return None;
    };
    let Some((event, after)) = next_word(rest) else {
        return None;
    };
    match after {
        None => Some(Form::Delivery { from, to, event }),
        Some(_) => None,
    }
}

// The machine of `W :` with more words, and these words.
fn reaction(words: &[u8]) -> Option<(&[u8], &[u8])>
    ensures some { IfSome result (λ r.
        reaction_form (words_of words.now) ≡ Some (r.0.now, words_of r.1.now)) }
    ensures none { IfNone result (NoReaction (words_of words.now)) }
{
    let (machine, after) = next_piece(words, b' ');
    let Some(rest) = after else {
        return None;
    };
    let (colon, after) = next_piece(rest, b' ');
    let Some(rest) = after else {
        return None;
    };
    if is_a_word(machine) && colon == b":".as_slice() {
        Some((machine, rest))
    } else {
        None
    }
}

// The form of `W : L ; L -> L ; L`.
fn firing(words: &[u8]) -> Option<Form<'_>>
    ensures some { IfSome result (λ f. fire_words (words_of words.now) ≡ Some (as_form f)) }
    ensures lists { IfSome result HasLists }
    ensures none { IfNone result (fire_words (words_of words.now) ≡ None) }
{
    let Some((machine, rest)) = reaction(words) else {
        return None;
    };
    let Some((seen, given)) = cut_four(rest) else {
        return None;
    };
    Some(Form::Firing {
        machine,
        seen,
        given,
    })
}

// The form of `W : L ; L`.
fn trying(words: &[u8]) -> Option<Form<'_>>
    ensures some { IfSome result (λ f. idle_words (words_of words.now) ≡ Some (as_form f)) }
    ensures lists { IfSome result HasLists }
    ensures none { IfNone result (idle_words (words_of words.now) ≡ None) }
{
    let Some((machine, rest)) = reaction(words) else {
        return None;
    };
    let Some(seen) = cut_two(rest) else {
        return None;
    };
    Some(Form::Try { machine, seen })
}

// The form of an entry's line without its stamp.
fn entry_line(line: &[u8]) -> Option<Form<'_>>
    ensures some { IfSome result (λ f. entry_form (words_of line.now) ≡ Some (as_form f)) }
    ensures lists { IfSome result HasLists }
    ensures none { IfNone result (entry_form (words_of line.now) ≡ None) }
{
    let (first, after) = next_piece(line, b' ');
    let Some(rest) = after else {
        return None;
    };
    if first == b"dep".as_slice() {
        return delivery(rest);
    }
    if first == b"fire".as_slice() {
        return firing(rest);
    }
    if first == b"idle".as_slice() {
        return trying(rest);
    }
    None
}

// The stamp that a first word writes.
fn stamp(word: &[u8]) -> Option<u64>
    ensures { result ≡ stamp_of word.now }
{
    match word.split_first() {
        Some((first, digits)) if *first == b'@' => decimal(digits),
        _ => None,
    }
}

/// The form of an entry's line with its stamp, or with 0 where lines have no stamps. None where the
/// line is of none.
pub fn stamped_line(stamped: bool, line: &[u8]) -> Option<(u64, Form<'_>)>
    ensures some { IfSome result (λ r.
        stamped_form stamped (words_of line.now) ≡ Some (r.0, as_form r.1)) }
    ensures lists { IfSome result (λ r. HasLists r.1) }
    ensures none { IfNone result (stamped_form stamped (words_of line.now) ≡ None) }
{
    if !stamped {
        return entry_line(line).map(|form| (0, form));
    }
    let (first, after) = next_piece(line, b' ');
    let Some(rest) = after else {
        return None;
    };
    match (stamp(first), entry_line(rest)) {
        (Some(stamp), Some(form)) => Some((stamp, form)),
        _ => None,
    }
}
