// Requests that more than one worker does.
ghost use Rattle.std.specs.Prelude.{◌≡◌, ◌↔◌, IsTrue};
ghost use Rattle.polis_words.specs.Workers.{NeedsWorkers, workers_of};

use crate::requests::{Request, request_of};
use polis_base::Words;

impl<'a> Request<'a> {
    /// How many workers do what is asked for; one worker is the calling thread.
    pub fn workers(&self) -> u32
        ensures { result ≡ workers_of self.now }
    {
        match self {
            Request::Run(run) => run.workers(),
            Request::Survey(survey) => survey.workers(),
            _ => 1,
        }
    }
}

/// Whether the command line asks for something that more than one worker does.
pub fn needs_workers(words: &Words) -> bool
    ensures { IsTrue result ↔ NeedsWorkers words.now }
{
    match request_of(words) {
        Some(request) => request.workers() > 1,
        None => false,
    }
}
