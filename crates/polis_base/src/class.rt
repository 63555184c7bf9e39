// The classes of bytes, by a table.
ghost use Rattle.std.specs.Prelude.{◌≡◌};
ghost use Rattle.polis_base.specs.inner.Classes.{class_of, is_alone};
ghost use Rattle.polis_base.specs.Names.{continues_name};
ghost use Rattle.polis_base.specs.Tokens.{is_blank};

/// Space, tab, CR or LF.
pub(crate) const BLANK: u8 = b'0';

// A sign of one byte with which none of two begins.
const SIGN: u8 = b'1';

/// `#`.
pub(crate) const HASH: u8 = b'2';

/// `0`.
pub(crate) const ZERO: u8 = b'4';

/// A digit `1` to `9`.
pub(crate) const DIGIT: u8 = b'5';

/// A letter or `_`.
pub(crate) const LETTER: u8 = b'6';

static CLASSES: [u8; 256] = *b"\
    33333333300330333333333333333333\
    03323333333113334555555555333133\
    36666666666666666666666666633336\
    36666666666666666666666666613133\
    33333333333333333333333333333333\
    33333333333333333333333333333333\
    33333333333333333333333333333333\
    33333333333333333333333333333333";

/// The class of a byte: one of the constants, or `3` where it is of none of them.
pub(crate) fn class_of(byte: u8) -> u8
    ensures { result ≡ class_of byte }
{
    CLASSES[byte as usize]
}

pub(crate) fn is_blank(byte: u8) -> bool
    ensures { result ≡ is_blank byte }
{
    CLASSES[byte as usize] <= BLANK
}

/// A blank, or a sign of one byte with which none of two begins.
pub(crate) fn is_alone(byte: u8) -> bool
    ensures { result ≡ is_alone byte }
{
    CLASSES[byte as usize] <= SIGN
}

/// A letter, `_` or a digit.
pub(crate) fn continues(byte: u8) -> bool
    ensures { result ≡ continues_name byte }
{
    CLASSES[byte as usize] >= ZERO
}
