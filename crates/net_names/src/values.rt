// Values of declared domains, and numbers of snapshots.
ghost use Rattle.std.specs.Prelude.{◌≡◌, ◌≤◌, ◌*◌, min, Some, None, length, option_copied};
ghost use Rattle.domains.specs.Names.{is_same};
ghost use Rattle.net_names.specs.Places.{unless, sooner, least_place};
ghost use Rattle.net_names.specs.Numbers.{names_of, number_in, is_name_of};
ghost use Rattle.net_names.specs.Values.{value_in, is_value, no_value, count_of, place_of};

use crate::places::unless;
use net_reader::{RawShape, RawValue, Word};
use polis_base::Name;

/// Whether two names are the same.
pub fn is_same(a: &Name, b: &Name) -> bool
    ensures { result ≡ is_same a.now b.now }
{
    a.same(b)
}

/// Whether a word has the name.
pub fn has_name(words: &[Word], name: &Name) -> bool
    ensures { result ≡ is_name_of words.now name.now }
{
    for word in words {
        if is_same(name, &word.name) {
            return true;
        }
    }
    false
}

// The number of a name: its first place among the words.
fn number_of(words: &[Word], name: Name) -> Option<u64>
    ensures { result ≡ number_in (names_of words.now) name }
{
    for (number, word) in words.iter().enumerate() {
        if is_same(&name, &word.name) {
            return Some(number as u64);
        }
    }
    None
}

/// The number of a value in a domain of this shape.
pub fn value_in(shape: &RawShape, value: &RawValue) -> Option<u64>
    ensures { result ≡ value_in shape.now value.now }
{
    match shape {
        RawShape::Names(words) => match value {
            RawValue::Name(word) => number_of(words.as_slice(), word.name),
            RawValue::Number(_) => None,
        },
        RawShape::Range { first, last } => match value {
            RawValue::Name(_) => None,
            RawValue::Number(n) => {
                if first.number <= n.number && n.number <= last.number {
                    Some(u64::from(n.number - first.number))
                } else {
                    None
                }
            }
        },
    }
}

/// How many values there are.
pub fn count_of(shape: &RawShape) -> u64
    ensures { result ≡ count_of shape.now }
{
    match shape {
        RawShape::Names(words) => words.len(),
        RawShape::Range { first, last } => {
            u64::from(last.number.saturating_sub(first.number)) + 1
        }
    }
}

/// So many values, or 65,537 where there are more.
pub(crate) fn count_up_to(shape: &RawShape) -> u64
    ensures { result ≡ min 65537 (count_of shape.now) }
{
    let count = count_of(shape);
    if count < 65537 { count } else { 65537 }
}

/// A product, or 65,537 where it is more, of numbers that are at most that.
pub fn times_up_to(a: u64, b: u64) -> u64
    requires first { a ≤ 65537 }
    requires second { b ≤ 65537 }
    ensures { result ≡ min 65537 (a * b) }
{
    let product = a * b;
    if product < 65537 { product } else { 65537 }
}

/// Where a value stands in the text.
pub fn place_of(value: &RawValue) -> u64
    ensures { result ≡ place_of value.now }
{
    match value {
        RawValue::Name(word) => word.at,
        RawValue::Number(n) => n.at,
    }
}

// Whether it is a value of the domain, where there is one.
fn is_value(shape: Option<&RawShape>, value: &RawValue) -> bool
    ensures { result ≡ is_value (option_copied shape.entry) value.now }
{
    match shape {
        Some(shape) => value_in(shape, value).is_some(),
        None => false,
    }
}

/// The least of what was found and of the value's place, where it is no value of the domain.
pub fn no_value(shape: Option<&RawShape>, value: &RawValue, found: Option<u64>) -> Option<u64>
    ensures { result ≡ sooner found (least_place (no_value (option_copied shape.entry) value.now)) }
{
    unless(is_value(shape, value), place_of(value), found)
}
