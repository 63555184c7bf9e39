// What a call makes before it saves anything.
ghost use Rattle.std.specs.Prelude.{◌≡◌, ◌++◌, IfOk, string_bytes};
ghost use Rattle.polis_words.specs.Lines.{write_fault_line};

use polis_base::{Bytes, List, NoMemory};
use polis_words::{Status, fault_line};
use std::alloc::Global;
use std::marker::Model;

/// A text to be saved under a name, with the line that is shown where it can't be saved.
#[derive(Drop)]
pub struct Saving {
    name: String,
    text: Bytes,
    line: Bytes,
}

impl Model for Saving {
    ghost use Rattle.std.specs.Prelude.{◌≡◌, string_bytes};
    ghost use Rattle.polis_words.specs.Lines.{write_fault_line};
    ghost use Rattle.output_files.specs.Saves.{Save};

    ghost Value = { Save };

    ghost view = { λ s. record { name = string_bytes s.name; text = s.text } };

    ghost invariant = { λ s. s.line ≡ write_fault_line (string_bytes s.name) };
}

fn with_ending(alloc: Global, stem: &str, ending: &str) -> Result<String, NoMemory>
    ensures { IfOk result (λ name. string_bytes name ≡ stem.now ++ ending.now) }
{
    let mut name = String::from_str(alloc, stem)?;
    name.push_str(ending)?;
    Ok(name)
}

impl Saving {
    /// A text to be saved under a stem with an ending.
    pub fn new(alloc: Global, stem: &str, ending: &str, text: Bytes) -> Result<Saving, NoMemory>
        ensures { IfOk result (λ saving. saving
            ≡ record { name = stem.now ++ ending.now; text = text }) }
    {
        let name = with_ending(alloc, stem, ending)?;
        let line = fault_line(alloc, name.as_str())?;
        Ok(Saving { name, text, line })
    }

    /// The name.
    pub fn name(&self) -> &str
        ensures { result.now ≡ self.now.name }
    {
        self.name.as_str()
    }

    /// The text.
    pub fn text(&self) -> &[u8]
        ensures { result.now ≡ self.now.text }
    {
        self.text.as_slice()
    }

    /// The line that is shown where the text can't be saved.
    pub fn line(&self) -> &[u8]
        ensures { result.now ≡ write_fault_line self.now.name }
    {
        self.line.as_slice()
    }
}

/// How a call ends that made and wrote what was asked for.
#[derive(Clone, Copy, Debug, PartialEq, Eq)]
pub enum End {
    /// All of it; the journal of a run is complete.
    Done,
    /// The journal of a run ended at its limit of entries, or a monitor hasn't seen all.
    Limit,
    /// All of it, and a monitor complains.
    Found,
}

impl End {
    ghost use Rattle.output_files.specs.Ends.{end_status};

    /// The status of a call that ends so.
    pub fn status(self) -> Status
        ensures { result ≡ end_status self }
    {
        match self {
            End::Done => Status::Done,
            End::Limit => Status::Limit,
            End::Found => Status::Found,
        }
    }
}

/// What a call makes before it saves anything: the texts that are saved, in order, then the text
/// that is shown, and how the call then ends.
#[derive(Drop)]
pub struct Product {
    /// The texts to be saved.
    pub saves: List<Saving>,
    /// What is shown after all saves.
    pub shown: Bytes,
    /// How the call then ends.
    pub end: End,
}

impl Product {
    ghost use Rattle.output_files.specs.Products.{saves_one, shows_and_ends, shows_only};

    /// What saves nothing, shows a text, and ends so.
    pub fn ending(alloc: Global, shown: Bytes, end: End) -> Product
        ensures { result ≡ shows_and_ends shown end }
    {
        Product {
            saves: List::new(alloc),
            shown,
            end,
        }
    }

    /// What saves nothing, and shows a text.
    pub fn showing(alloc: Global, shown: Bytes) -> Product
        ensures { result ≡ shows_only shown }
    {
        Product::ending(alloc, shown, End::Done)
    }

    /// What saves one text, under a stem with an ending, and shows another.
    pub fn saving_one(
        alloc: Global,
        stem: &str,
        ending: &str,
        text: Bytes,
        shown: Bytes,
    ) -> Result<Product, NoMemory>
        ensures { IfOk result
            (λ product. product ≡ saves_one (stem.now ++ ending.now) text shown) }
    {
        let saving = Saving::new(alloc, stem, ending, text)?;
        let mut saves = List::new(alloc);
        saves.push(saving)?;
        Ok(Product {
            saves,
            shown,
            end: End::Done,
        })
    }
}
