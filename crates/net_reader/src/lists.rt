// Lists of parts: loops, so that a long text needs no deep stack.
ghost use Rattle.std.specs.Prelude.{◌≡◌, ℕ, true, List};
ghost use Rattle.polis_base.specs.declared.token.Kind.{Kind};
ghost use Rattle.polis_base.specs.declared.token.Sign.{Sign};
ghost use Rattle.net_reader.specs.Reading.{Rule, Gives, Adds, Shrinks, is, is_fixed, many, some, listed, with_before, with_one};

use crate::raw::{RawValue, Word};
use crate::reader::{Reader, Stop};
use polis_base::{Kind, List, Sign};

// How many parts most lists of names and values have. Where a list has just so many, none of its
// room is given up, nor is more asked for.
pub(crate) const FEW: u64 = 2;

// What a rule of the grammar reads in a sentence of some version.
pub(crate) trait Part: Drop {
    ghost rule: { ℕ → Rule Self };

    // Reads one, and puts it after those that are made.
    fn read(reader: &mut Reader, version: u32, made: &mut List<Self>) -> Result<(), Stop>
        ensures { Adds result reader.new made.new (with_one made.old (rule version reader.old)) };
}

// More parts after these, as long as one begins with this kind of token.
fn more<T: Part>(
    reader: &mut Reader,
    version: u32,
    begins: Kind,
    made: List<T>,
) -> Result<List<T>, Stop>
    requires fixed { is_fixed begins ≡ true }
    requires shrinks { Shrinks (T.rule version) }
    ensures { Gives result reader.new
        (with_before made (many (is begins) (T.rule version) reader.old)) }
{
    let mut made = made;
    while reader.sees(begins) {
        T::read(reader, version, &mut made)?;
    }
    made.shrink();
    Ok(made)
}

// None or more parts that begin with this kind of token.
pub(crate) fn many<T: Part>(
    reader: &mut Reader,
    version: u32,
    begins: Kind,
) -> Result<List<T>, Stop>
    requires fixed { is_fixed begins ≡ true }
    requires shrinks { Shrinks (T.rule version) }
    ensures { Gives result reader.new (many (is begins) (T.rule version) reader.old) }
{
    let none = List::new(reader.alloc());
    more(reader, version, begins, none)
}

// One or more parts that begin with this kind of token.
pub(crate) fn some<T: Part>(
    reader: &mut Reader,
    version: u32,
    begins: Kind,
) -> Result<List<T>, Stop>
    requires fixed { is_fixed begins ≡ true }
    requires shrinks { Shrinks (T.rule version) }
    ensures { Gives result reader.new (some (is begins) (T.rule version) reader.old) }
{
    let mut made = List::new(reader.alloc());
    T::read(reader, version, &mut made)?;
    more(reader, version, begins, made)
}

// One or more parts with commas between them, with room for so many before the first is read.
pub(crate) fn listed<T: Part>(reader: &mut Reader, version: u32, room: u64) -> Result<List<T>, Stop>
    requires { Shrinks (T.rule version) }
    ensures { Gives result reader.new (listed (T.rule version) reader.old) }
{
    let mut made = List::with_room(reader.alloc(), room)?;
    loop {
        T::read(reader, version, &mut made)?;
        if !reader.takes(Kind::Sign(Sign::Comma)) {
            made.shrink();
            return Ok(made);
        }
    }
}

impl Part for Word {
    ghost use Rattle.net_reader.specs.Reading.{word_at};

    ghost rule = { λ _. word_at };

    fn read(reader: &mut Reader, _: u32, made: &mut List<Word>) -> Result<(), Stop> {
        let name = reader.name()?;
        made.push(name.word())?;
        Ok(())
    }
}

impl Part for RawValue {
    ghost use Rattle.net_reader.specs.Reading.{value_at};

    ghost rule = { λ _. value_at };

    fn read(reader: &mut Reader, _: u32, made: &mut List<RawValue>) -> Result<(), Stop> {
        let value = reader.value()?;
        made.push(value)?;
        Ok(())
    }
}
