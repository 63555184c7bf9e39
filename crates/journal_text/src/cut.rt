// Words, and the signs between lists.
ghost use Rattle.std.specs.Prelude.{◌≡◌, ◌<◌, ◌≤◌, ◌+◌, ◌++◌, ◌∷◌, [], ℕ, true, false, length, IfSome, IfNone, is_some, option_copied, Some, None};
ghost use Rattle.std.specs.List.{list_all, prefix_len};
ghost use Rattle.journal_text.specs.Forms.{is_word_byte, is_word, is_sign, lines_of, words_of, list_of, dash};
ghost use Rattle.polis_base.specs.Pieces.{pieces, lacks, left};
ghost use Rattle.domains.specs.Names.{is_same};
ghost use Rattle.journal_text.specs.Cursors.{items_in, CutAt, NoCut};
ghost use Rattle.journal_text.specs.inner.Cursors.{SkippedTo};
ghost use Rattle.memchr.specs.Find.{IsFirstByte, is_byte};

use memchr::memrchr;
use polis_base::{first_place, next_piece};

fn is_a_word_byte(byte: u8) -> bool
    ensures { result ≡ is_word_byte byte }
{
    !matches!(byte, b' ' | b'\t' | b'\r' | b'\n')
}

fn all_word_bytes(word: &[u8]) -> bool
    ensures { result ≡ list_all is_word_byte word.now }
{
    word.iter().all(|byte| is_a_word_byte(*byte))
}

fn is_a_sign(word: &[u8]) -> bool
    ensures { result ≡ is_sign word.now }
{
    word == b"-".as_slice()
        || word == b":".as_slice()
        || word == b";".as_slice()
        || word == b"->".as_slice()
}

/// Whether it is a word of a form: some bytes, none of them space, tab, CR or LF, and no sign.
pub fn is_a_word(word: &[u8]) -> bool
    ensures { result ≡ is_word word.now }
{
    !word.is_empty() && all_word_bytes(word) && !is_a_sign(word)
}

// Whether bytes that words have are a word.
fn is_plain_word(word: &[u8]) -> bool
    requires { list_all is_word_byte word.now ≡ true }
    ensures { result ≡ is_word word.now }
{
    !word.is_empty() && !is_a_sign(word)
}

// How many bytes that words have a text begins with.
fn plain_len(text: &[u8]) -> usize
    ensures plain { result ≡ prefix_len is_word_byte text.now }
    ensures within { result ≤ length text.now }
{
    text.iter()
        .take_while(|byte| is_a_word_byte(**byte))
        .count()
}

// The first piece between spaces, where it has just bytes that words have, and what stands after
// the space that ends it.
fn next_plain(text: &[u8]) -> Option<(&[u8], Option<&[u8]>)>
    ensures some { IfSome result (λ r.
        words_of text.now ≡ r.0.now ∷ left 32 (option_copied r.1)) }
    ensures plain { IfSome result (λ r. list_all is_word_byte r.0.now ≡ true) }
    ensures shorter { IfSome result (λ r.
        IfSome r.1 (λ rest. length rest.now < length text.now)) }
    ensures none { IfNone result (list_all is_word (words_of text.now) ≡ false) }
{
    let end = plain_len(text);
    if end == text.len() {
        return Some((text, None));
    }
    if text[end] == b' ' {
        Some((&text[..end], Some(&text[end + 1..])))
    } else {
        None
    }
}

/// The first piece between spaces, where it is a word, and what stands after the space that ends
/// it.
pub fn next_word(text: &[u8]) -> Option<(&[u8], Option<&[u8]>)>
    ensures some { IfSome result (λ r.
        words_of text.now ≡ r.0.now ∷ left 32 (option_copied r.1)) }
    ensures word { IfSome result (λ r. is_word r.0.now ≡ true) }
    ensures shorter { IfSome result (λ r.
        IfSome r.1 (λ rest. length rest.now < length text.now)) }
    ensures none { IfNone result (list_all is_word (words_of text.now) ≡ false) }
{
    let Some((word, after)) = next_plain(text) else {
        return None;
    };
    if is_plain_word(word) {
        Some((word, after))
    } else {
        None
    }
}

// Whether all pieces between single spaces are words.
fn all_words(words: &[u8]) -> bool
    ensures { result ≡ list_all is_word (words_of words.now) }
{
    let mut rest = words;
    loop {
        let Some((_, after)) = next_word(rest) else {
            return false;
        };
        match after {
            None => return true,
            Some(more) => rest = more,
        }
    }
}

/// Whether it is `-` alone.
pub fn is_dash(words: &[u8]) -> bool
    ensures { result ≡ is_same words.now dash }
{
    words == b"-".as_slice()
}

/// Whether it is a list: `-`, or words with single spaces between them.
pub fn is_a_list(words: &[u8]) -> bool
    ensures { result ≡ is_some (list_of (words_of words.now)) }
{
    is_dash(words) || all_words(words)
}

/// The items of a list, to be walked one by one.
pub fn items_of(list: &[u8]) -> Option<&[u8]>
    requires { is_some (list_of (words_of list.now)) ≡ true }
    ensures { left 32 (option_copied result) ≡ items_in list.now }
{
    if is_dash(list) { None } else { Some(list) }
}

// The place of the first word that has such a byte: what stands before it lacks the byte.
fn next_with(text: &[u8], mark: u8) -> Option<usize>
    ensures some { IfSome result (λ at. SkippedTo mark text.now at) }
    ensures within { IfSome result (λ at. at ≤ length text.now) }
    ensures none { IfNone result (lacks mark text.now ≡ true) }
{
    let Some(found) = first_place(text, mark) else {
        return None;
    };
    match memrchr(b' ', &text[..found]) {
        Some(space) => Some(space + 1),
        None => Some(0),
    }
}

/// What stands before the first such sign among words, and what stands after it. None where there
/// is no such sign, or nothing before it or after it.
pub fn cut_at<'a>(words: &'a [u8], sign: &[u8]) -> Option<(&'a [u8], &'a [u8])>
    requires { 0 < length sign.now }
    ensures some { IfSome result (λ r.
        CutAt sign.now (words_of words.now) (words_of r.0.now) (words_of r.1.now)) }
    ensures none { IfNone result (NoCut sign.now (words_of words.now)) }
{
    let mut from = 0;
    loop {
        let Some(skipped) = next_with(&words[from..], sign[0]) else {
            return None;
        };
        let at = from + skipped;
        let (word, after) = next_piece(&words[at..], b' ');
        let Some(rest) = after else {
            return None;
        };
        if word == sign {
            return if at == 0 {
                None
            } else {
                Some((&words[..at - 1], rest))
            };
        }
        from = words.len() - rest.len();
    }
}
