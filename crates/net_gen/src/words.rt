// The names of a ring of machines.
ghost use Rattle.std.specs.Prelude.{◌≡◌, ◌<◌, ◌++◌, [], ◌∷◌, IsTrue, codes, decimal};
ghost use Rattle.polis_base.specs.Names.{is_name};
ghost use Rattle.net_gen.specs.Networks.{named, tick, valued, output, word};

use net_reader::Word;
use polis_base::Name;

// A letter with a number after it.
fn named(letter: u8, i: u64) -> Word
    requires small { i < 48 }
    requires name { IsTrue (is_name (letter ∷ decimal i)) }
    ensures { result ≡ named (letter ∷ []) i }
{
    let ones = b'0' + (i % 10) as u8;
    let name = if i < 10 {
        Name::of_token(&[letter, ones])
    } else {
        Name::of_token(&[letter, b'0' + (i / 10) as u8, ones])
    };
    Word { name, at: 0 }
}

// The event from the environment.
pub(crate) fn tick(i: u64) -> Word
    requires { i < 48 }
    ensures { result ≡ tick i }
{
    named(b't', i)
}

// The event with a value.
pub(crate) fn valued(i: u64) -> Word
    requires { i < 48 }
    ensures { result ≡ valued i }
{
    named(b'e', i)
}

// The event to the environment.
pub(crate) fn output(i: u64) -> Word
    requires { i < 48 }
    ensures { result ≡ output i }
{
    named(b'o', i)
}

pub(crate) fn machine(i: u64) -> Word
    requires { i < 48 }
    ensures { result ≡ named (codes "m") i }
{
    named(b'm', i)
}

// The state variable of each machine.
pub(crate) fn state() -> Word
    ensures { result ≡ word (codes "s") }
{
    Word {
        name: Name::of_token(b"s"),
        at: 0,
    }
}

// The domain of all values.
pub(crate) fn domain() -> Word
    ensures { result ≡ word (codes "d") }
{
    Word {
        name: Name::of_token(b"d"),
        at: 0,
    }
}

pub(crate) fn demo() -> Word
    ensures { result ≡ word (codes "demo") }
{
    Word {
        name: Name::of_token(b"demo"),
        at: 0,
    }
}
