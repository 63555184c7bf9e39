// The words that are no names.
ghost use Rattle.std.specs.Prelude.{◌≡◌, ◌∷◌};
ghost use Rattle.polis_base.specs.inner.Keywords.{keyword_of as keyword_in_table};

use crate::token::Keyword;

// The keyword that `a` and these bytes are, if they are one.
#[inline(always)]
fn after_a(rest: &[u8]) -> Option<Keyword>
    ensures { result ≡ keyword_in_table (97 ∷ rest.now) }
{
    if rest == b"bsent".as_slice() {
        return Some(Keyword::KwAbsent);
    }
    None
}

// The keyword that `d` and these bytes are, if they are one.
#[inline(always)]
fn after_d(rest: &[u8]) -> Option<Keyword>
    ensures { result ≡ keyword_in_table (100 ∷ rest.now) }
{
    if rest == b"omain".as_slice() {
        return Some(Keyword::KwDomain);
    }
    if rest == b"o".as_slice() {
        return Some(Keyword::KwDo);
    }
    None
}

// The keyword that `e` and these bytes are, if they are one.
#[inline(always)]
fn after_e(rest: &[u8]) -> Option<Keyword>
    ensures { result ≡ keyword_in_table (101 ∷ rest.now) }
{
    if rest == b"vent".as_slice() {
        return Some(Keyword::KwEvent);
    }
    if rest == b"mit".as_slice() {
        return Some(Keyword::KwEmit);
    }
    if rest == b"nv".as_slice() {
        return Some(Keyword::KwEnv);
    }
    None
}

// The keyword that `f` and these bytes are, if they are one.
#[inline(always)]
fn after_f(rest: &[u8]) -> Option<Keyword>
    ensures { result ≡ keyword_in_table (102 ∷ rest.now) }
{
    if rest == b"rom".as_slice() {
        return Some(Keyword::KwFrom);
    }
    None
}

// The keyword that `i` and these bytes are, if they are one.
#[inline(always)]
fn after_i(rest: &[u8]) -> Option<Keyword>
    ensures { result ≡ keyword_in_table (105 ∷ rest.now) }
{
    if rest == b"nput".as_slice() {
        return Some(Keyword::KwInput);
    }
    if rest == b"n".as_slice() {
        return Some(Keyword::KwIn);
    }
    None
}

// The keyword that `m` and these bytes are, if they are one.
#[inline(always)]
fn after_m(rest: &[u8]) -> Option<Keyword>
    ensures { result ≡ keyword_in_table (109 ∷ rest.now) }
{
    if rest == b"achine".as_slice() {
        return Some(Keyword::KwMachine);
    }
    None
}

// The keyword that `n` and these bytes are, if they are one.
#[inline(always)]
fn after_n(rest: &[u8]) -> Option<Keyword>
    ensures { result ≡ keyword_in_table (110 ∷ rest.now) }
{
    if rest == b"etwork".as_slice() {
        return Some(Keyword::KwNetwork);
    }
    if rest == b"othing".as_slice() {
        return Some(Keyword::KwNothing);
    }
    None
}

// The keyword that `o` and these bytes are, if they are one.
#[inline(always)]
fn after_o(rest: &[u8]) -> Option<Keyword>
    ensures { result ≡ keyword_in_table (111 ∷ rest.now) }
{
    if rest == b"utput".as_slice() {
        return Some(Keyword::KwOutput);
    }
    None
}

// The keyword that `p` and these bytes are, if they are one.
#[inline(always)]
fn after_p(rest: &[u8]) -> Option<Keyword>
    ensures { result ≡ keyword_in_table (112 ∷ rest.now) }
{
    if rest == b"riority".as_slice() {
        return Some(Keyword::KwPriority);
    }
    None
}

// The keyword that `s` and these bytes are, if they are one.
#[inline(always)]
fn after_s(rest: &[u8]) -> Option<Keyword>
    ensures { result ≡ keyword_in_table (115 ∷ rest.now) }
{
    if rest == b"tate".as_slice() {
        return Some(Keyword::KwState);
    }
    if rest == b"ettle".as_slice() {
        return Some(Keyword::KwSettle);
    }
    None
}

// The keyword that `t` and these bytes are, if they are one.
#[inline(always)]
fn after_t(rest: &[u8]) -> Option<Keyword>
    ensures { result ≡ keyword_in_table (116 ∷ rest.now) }
{
    if rest == b"o".as_slice() {
        return Some(Keyword::KwTo);
    }
    None
}

// The keyword that `v` and these bytes are, if they are one.
#[inline(always)]
fn after_v(rest: &[u8]) -> Option<Keyword>
    ensures { result ≡ keyword_in_table (118 ∷ rest.now) }
{
    if rest == b"ersion".as_slice() {
        return Some(Keyword::KwVersion);
    }
    if rest == b"alue".as_slice() {
        return Some(Keyword::KwValue);
    }
    None
}

// The keyword that `w` and these bytes are, if they are one.
#[inline(always)]
fn after_w(rest: &[u8]) -> Option<Keyword>
    ensures { result ≡ keyword_in_table (119 ∷ rest.now) }
{
    if rest == b"hen".as_slice() {
        return Some(Keyword::KwWhen);
    }
    None
}

/// The keyword that a word is, if it is one. The first byte comes first, so that a name is compared
/// with the few keywords that begin with it, or with none.
#[inline(always)]
pub(crate) fn keyword_of(word: &[u8]) -> Option<Keyword>
    ensures { result ≡ keyword_in_table word.now }
{
    let Some((first, rest)) = word.split_first() else {
        return None;
    };
    match *first {
        b'a' => after_a(rest),
        b'd' => after_d(rest),
        b'e' => after_e(rest),
        b'f' => after_f(rest),
        b'i' => after_i(rest),
        b'm' => after_m(rest),
        b'n' => after_n(rest),
        b'o' => after_o(rest),
        b'p' => after_p(rest),
        b's' => after_s(rest),
        b't' => after_t(rest),
        b'v' => after_v(rest),
        b'w' => after_w(rest),
        _ => None,
    }
}
