// The command `replay`: whether a journal is legal.
ghost use Rattle.commands.specs.JournalProducts.{replay_meaning};
ghost use Rattle.input_files.specs.Loads.{LeftByLoads, fails_unread};
ghost use Rattle.commands.specs.Made.{IsMade};

use crate::judging::judge_journal;
use input_files::Detail;
use output_files::Product;
use polis_base::{Host, NoMemory};
use polis_words::{Failure, Replay, print_legal};
use std::alloc::Global;

/// What a replay makes of the files, with so much said of one that is refused or of a journal that
/// isn't legal.
pub fn make_replay<'a, H: Host>(
    alloc: Global,
    host: &mut H,
    asked: &'a Replay<'_>,
    detail: Detail,
) -> Result<Product, Failure<'a>>
    ensures made { IsMade (replay_meaning detail asked.now) (H.files host.old) result }
    ensures left { LeftByLoads ⟦<H as Host>⟧ (fails_unread result) host.old host.new }
{
    let judged = match judge_journal(alloc, host, asked, detail) {
        Ok(judged) => judged,
        Err(failure) => return Err(failure),
    };
    match print_legal(alloc, judged.read.journal.len(), judged.complete) {
        Ok(shown) => Ok(Product::showing(alloc, shown)),
        Err(NoMemory) => Err(Failure::NoMemory),
    }
}
