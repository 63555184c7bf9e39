// Words with names that aren't declared, or that repeat.
ghost use Rattle.std.specs.Prelude.{◌≡◌, ◌++◌, IfOk};
ghost use Rattle.net_names.specs.Places.{sooner, least_place};
ghost use Rattle.net_names.specs.Numbers.{missing, repeated, no_name, is_name_of};
ghost use Rattle.rule_judge.specs.Rules.{beyond};
ghost use Rattle.net_names.specs.Tables.{has};
ghost use Rattle.rule_judge.specs.inner.Sorting.{taken_before};

use crate::sorted::repeated_many;
use net_names::{Table, has_name, sooner, unless};
use net_reader::Word;
use polis_base::{List, Name, NoMemory};
use std::alloc::Global;

// So many words are compared with all others, and more of them are sorted.
const FEW_WORDS: u64 = 8;

// The least of what was found and of the places of the words without a number.
fn missing_each(table: &Table, words: &[Word], found: Option<u64>) -> Option<u64>
    ensures { result ≡ sooner found (least_place (missing (has table.now) words.now)) }
{
    let mut found = found;
    for word in words {
        if !table.has(word.name) {
            found = sooner(found, word.at);
        }
    }
    found
}

// The least of what was found and of the places of the words without a number.
pub(crate) fn missing(table: &Table, words: &List<Word>, found: Option<u64>) -> Option<u64>
    ensures { result ≡ sooner found (least_place (missing (has table.now) words.now)) }
{
    missing_each(table, words.as_slice(), found)
}

// Whether the name is that of a word before, or is taken.
fn is_taken(taken: &[Word], before: &[Word], name: &Name) -> bool
    ensures { result ≡ taken_before taken.now before.now name.now }
{
    has_name(before, name) || has_name(taken, name)
}

// The least of what was found and of the places of the words whose names are taken or stand before,
// each compared with all of these.
fn repeated_few(taken: &[Word], words: &[Word], found: Option<u64>) -> Option<u64>
    ensures { result ≡ sooner found (least_place (repeated (is_name_of taken.now) words.now)) }
{
    let mut found = found;
    for (place, word) in words.iter().enumerate() {
        let stands = is_taken(taken, &words[..place], &word.name);
        found = unless(!stands, word.at, found);
    }
    found
}

// The least of what was found and of the places of the words whose names are taken or stand before.
pub(crate) fn repeated(
    alloc: Global,
    taken: &List<Word>,
    words: &List<Word>,
    found: Option<u64>,
) -> Result<Option<u64>, NoMemory>
    ensures { IfOk result (λ place. place
        ≡ sooner found (least_place (repeated (is_name_of taken.now) words.now))) }
{
    if words.len() <= FEW_WORDS {
        return Ok(repeated_few(taken.as_slice(), words.as_slice(), found));
    }
    repeated_many(alloc, taken, words, found)
}

// The least of what was found and of the places of the words whose names stand before.
pub(crate) fn repeats(
    alloc: Global,
    words: &List<Word>,
    found: Option<u64>,
) -> Result<Option<u64>, NoMemory>
    ensures { IfOk result (λ place. place ≡ sooner found (least_place (repeated no_name words.now))) }
{
    let none = List::new(alloc);
    let place = repeated(alloc, &none, words, found)?;
    Ok(place)
}

// The least of what was found and of the place of the first word beyond so many.
pub(crate) fn beyond(words: &List<Word>, most: u64, found: Option<u64>) -> Option<u64>
    ensures { result ≡ sooner found (least_place (beyond most words.now)) }
{
    if most < words.len() {
        sooner(found, words.get(most).at)
    } else {
        found
    }
}

// The least of what was found and of the places of the words that aren't declared or whose names
// stand before.
pub(crate) fn not_once(
    alloc: Global,
    declared: &Table,
    words: &List<Word>,
    found: Option<u64>,
) -> Result<Option<u64>, NoMemory>
    ensures { IfOk result (λ place. place
        ≡ sooner found (least_place (missing (has declared.now) words.now
        ++ repeated no_name words.now))) }
{
    let found = missing(declared, words, found);
    repeats(alloc, words, found)
}
