// Words of declarations, gathered into one list.
ghost use Rattle.std.specs.Prelude.{◌≡◌, ◌++◌, flat_map, IfOk, OnOk};

use net_reader::Word;
use polis_base::{List, NoMemory};
use std::alloc::Global;

/// What takes words from items of one kind.
pub trait Gather<T> {
    ghost use Rattle.std.specs.Prelude.{List};
    ghost use Rattle.net_reader.specs.declared.raw.Word.{Word};

    // The words that an item gives.
    ghost words: { Self → T → List Word };

    // Puts them after the others.
    fn gather(&self, item: &T, into: &mut List<Word>) -> Result<(), NoMemory>
        ensures { OnOk result (into.new ≡ into.old ++ words self.now item.now) };
}

// The words that the items give, in order.
fn gather_each<T, G: Gather<T>>(
    alloc: Global,
    from: &G,
    items: &[T],
) -> Result<List<Word>, NoMemory>
    ensures { IfOk result (λ words. words ≡ flat_map (G.words from.now) items.now) }
{
    let mut words = List::new(alloc);
    for item in items {
        from.gather(item, &mut words)?;
    }
    Ok(words)
}

// Puts words after others.
fn append_each(words: &[Word], into: &mut List<Word>) -> Result<(), NoMemory>
    ensures { OnOk result (into.new ≡ into.old ++ words.now) }
{
    for word in words {
        into.push(*word)?;
    }
    Ok(())
}

/// The words that the items of a list give, in order.
pub fn gather_all<T, G: Gather<T>>(
    alloc: Global,
    from: &G,
    items: &List<T>,
) -> Result<List<Word>, NoMemory>
    ensures { IfOk result (λ words. words ≡ flat_map (G.words from.now) items.now) }
{
    gather_each(alloc, from, items.as_slice())
}

/// Puts words after others.
pub fn append(words: &List<Word>, into: &mut List<Word>) -> Result<(), NoMemory>
    ensures { OnOk result (into.new ≡ into.old ++ words.now) }
{
    append_each(words.as_slice(), into)
}

// Puts the words that the items give after others.
fn gather_more<T, G: Gather<T>>(
    from: &G,
    items: &[T],
    into: &mut List<Word>,
) -> Result<(), NoMemory>
    ensures { OnOk result (into.new ≡ into.old ++ flat_map (G.words from.now) items.now) }
{
    for item in items {
        from.gather(item, into)?;
    }
    Ok(())
}

/// Puts the words that the items of a list give after others.
pub fn gather_into<T, G: Gather<T>>(
    from: &G,
    items: &List<T>,
    into: &mut List<Word>,
) -> Result<(), NoMemory>
    ensures { OnOk result (into.new ≡ into.old ++ flat_map (G.words from.now) items.now) }
{
    gather_more(from, items.as_slice(), into)
}
