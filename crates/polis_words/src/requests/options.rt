// The options of runs, surveys and charts.
ghost use Rattle.std.specs.Prelude.{◌≡◌, ◌↔◌, ◌+◌, ◌≤◌, ◌<◌, ◌^◌, length, drop, IfSome, IfNone, IsTrue};
ghost use Rattle.polis_words.specs.FileWords.{IsFileWord};
ghost use Rattle.polis_words.specs.RunOptions.{RunOption, Said, Says, AskOptions};
ghost use Rattle.polis_words.specs.inner.Run.{IsOptionOf, SaysAt, option_of};

use crate::requests::file_word::is_file_word;
use crate::requests::number::{read_at_most, read_number, read_seed};
use crate::requests::order::{GivenOrder, read_order};
use polis_base::Words;
use polis_base::limits::{ENTRIES_MAX, WORKERS_MAX};
use std::marker::Model;

// One option.
#[derive(Clone, Copy)]
enum Given<'a> {
    Workers(u64),
    Limit(u64),
    Image(&'a str),
    Order(GivenOrder),
    Seed(u64),
    Watch(&'a str),
    From(u64),
    To(u64),
}

/// What the options say.
#[derive(Drop)]
pub struct Options<'a> {
    /// How many workers run the network.
    pub workers: Option<u64>,
    /// The most entries that the journal may have.
    pub limit: Option<u64>,
    /// The name of an image.
    pub image: Option<&'a str>,
    /// Which moves are offered.
    pub order: Option<GivenOrder>,
    /// The number from which the first run is drawn.
    pub seed: Option<u64>,
    /// The name of a monitor.
    pub watch: Option<&'a str>,
    /// The first entry that is shown.
    pub from: Option<u64>,
    /// The first entry after it that isn't shown.
    pub to: Option<u64>,
}

impl<'a> Model for Options<'a> {
    ghost use Rattle.std.specs.Prelude.{option_map};
    ghost use Rattle.polis_words.specs.RunOptions.{Said};

    ghost Value = { Said };

    ghost view = { λ o. record {
      workers = o.workers;
      limit = o.limit;
      image = option_map (λ name. name.now) o.image;
      order = o.order;
      seed = o.seed;
      watch = option_map (λ name. name.now) o.watch;
      from = o.from;
      to = o.to;
    } };
}

impl<'a> Options<'a> {
    ghost use Rattle.polis_words.specs.RunOptions.{DrawsMany, DrawsNothing, DrawsOne, ShowsAll, ShowsPart};

    // Whether they say nothing of which entries are shown.
    fn shows_all(&self) -> bool
        ensures { IsTrue result ↔ ShowsAll self.now }
    {
        self.from.is_none() && self.to.is_none()
    }

    /// Whether they say nothing but the workers, the limit and an image.
    pub fn draws_nothing(&self) -> bool
        ensures { IsTrue result ↔ DrawsNothing self.now }
    {
        self.order.is_none() && self.seed.is_none() && self.watch.is_none() && self.shows_all()
    }

    /// Whether they say nothing but an order and a limit.
    pub fn draws_one(&self) -> bool
        ensures { IsTrue result ↔ DrawsOne self.now }
    {
        self.workers.is_none()
            && self.image.is_none()
            && self.seed.is_none()
            && self.watch.is_none()
            && self.shows_all()
    }

    /// Whether they name no image, and say nothing of which entries are shown.
    pub fn draws_many(&self) -> bool
        ensures { IsTrue result ↔ DrawsMany self.now }
    {
        self.image.is_none() && self.shows_all()
    }

    /// Whether they say nothing but which entries are shown.
    pub fn shows_part(&self) -> bool
        ensures { IsTrue result ↔ ShowsPart self.now }
    {
        self.workers.is_none()
            && self.limit.is_none()
            && self.image.is_none()
            && self.order.is_none()
            && self.seed.is_none()
            && self.watch.is_none()
    }
}

// A word that may be a file's name.
fn read_name(word: &str) -> Option<&str>
    ensures some { IfSome result (λ name. (word.now ≡ name.now) × IsFileWord name.now) }
    ensures none { IfNone result (¬ IsFileWord word.now) }
{
    if is_file_word(word) { Some(word) } else { None }
}

// The option with this flag and the word after it.
fn option_with<'a>(flag: &str, value: &'a str) -> Option<Given<'a>>
    ensures some { IfSome result (λ o. IsOptionOf flag.now value.now (option_of o)) }
    ensures none { IfNone result ((o : RunOption) → ¬ IsOptionOf flag.now value.now o) }
{
    match flag {
        "--workers" => Some(Given::Workers(read_number(value, WORKERS_MAX)?)),
        "--limit" => Some(Given::Limit(read_number(value, ENTRIES_MAX)?)),
        "--image" => Some(Given::Image(read_name(value)?)),
        "--order" => Some(Given::Order(read_order(value)?)),
        "--seed" => Some(Given::Seed(read_seed(value)?)),
        "--watch" => Some(Given::Watch(read_name(value)?)),
        "--from" => Some(Given::From(read_at_most(value, ENTRIES_MAX)?)),
        "--to" => Some(Given::To(read_at_most(value, ENTRIES_MAX)?)),
        _ => None,
    }
}

// What is said with one option more, where none before said the same.
fn say<'a>(old: Options<'a>, option: Given<'a>) -> Option<Options<'a>>
    ensures some { IfSome result (λ new. Says old.entry (option_of option.entry) new) }
    ensures none { IfNone result ((new : Said) → ¬ Says old.entry (option_of option.entry) new) }
{
    match option {
        Given::Workers(n) if old.workers.is_none() => Some(Options {
            workers: Some(n),
            ..old
        }),
        Given::Limit(n) if old.limit.is_none() => Some(Options {
            limit: Some(n),
            ..old
        }),
        Given::Image(name) if old.image.is_none() => Some(Options {
            image: Some(name),
            ..old
        }),
        Given::Order(order) if old.order.is_none() => Some(Options {
            order: Some(order),
            ..old
        }),
        Given::Seed(seed) if old.seed.is_none() => Some(Options {
            seed: Some(seed),
            ..old
        }),
        Given::Watch(name) if old.watch.is_none() => Some(Options {
            watch: Some(name),
            ..old
        }),
        Given::From(n) if old.from.is_none() => Some(Options {
            from: Some(n),
            ..old
        }),
        Given::To(n) if old.to.is_none() => Some(Options { to: Some(n), ..old }),
        _ => None,
    }
}

// What is said with the option at this place more.
fn say_at<'a>(words: &'a Words, place: u64, old: Options<'a>) -> Option<Options<'a>>
    requires room { place + 1 < length words.now }
    requires small { place + 1 < 2 ^ 64 }
    ensures some { IfSome result (λ new. SaysAt words.now place old.entry new) }
    ensures none { IfNone result ((new : Said) → ¬ SaysAt words.now place old.entry new) }
{
    match option_with(words.get(place), words.get(place + 1)) {
        Some(option) => say(old, option),
        None => None,
    }
}

/// What the options after the first so many words say, if these are options.
pub fn options_of(words: &Words, first: u64) -> Option<Options<'_>>
    requires { first ≤ length words.now }
    ensures some { IfSome result (λ said. AskOptions (drop first words.now) said) }
    ensures none { IfNone result ((said : Said) → ¬ AskOptions (drop first words.now) said) }
{
    let count = words.len() - first;
    if count % 2 != 0 {
        return None;
    }
    let mut options = Options {
        workers: None,
        limit: None,
        image: None,
        order: None,
        seed: None,
        watch: None,
        from: None,
        to: None,
    };
    for k in 0..count / 2 {
        options = match say_at(words, first + 2 * k, options) {
            Some(options) => options,
            None => return None,
        };
    }
    Some(options)
}
