// The program: its command line, its files and its one call that does the work.
#![tactic(auto)]

mod help;
mod law;
mod survey;
mod survey_inputs;
#[cfg(test)]
mod tests;
mod top;
mod worked;

use crate::help::{asked_text, help_for};
use crate::top::polis;
use event_buffer::OpenGate;
pub use machine_compiler::{Compiled, compile_machine};
use polis_base::{Host, NoMemory, Save, StdHost, Words};
use polis_words::Status;
use std::alloc::Global;
use std::env;
use std::io::ErrorKind;
use std::process::ExitCode;

// The words after the program's name, and none where they aren't text.
fn read_words(rt: &HostRuntime) -> Result<Words, NoMemory> {
    let mut words = Words::new(rt.alloc());
    match env::args(rt) {
        Ok(args) => {
            for word in args.skip(1) {
                words.push(word.as_str())?;
            }
        }
        Err(error) if error.kind() == ErrorKind::OutOfMemory => return Err(NoMemory),
        Err(_) => {}
    }
    Ok(words)
}

// Shows that memory has run out.
fn no_memory(host: &mut StdHost) -> Status {
    let _ = host.show(b"no memory\n");
    Status::NoMemory
}

// Answers the words that the program answers by itself: those that ask for its help or its version.
fn answer(alloc: Global, host: &mut StdHost, words: &Words) -> Option<Status> {
    let Ok(asked) = asked_text(alloc, words) else {
        return Some(no_memory(host));
    };
    let status = match host.show(asked?.as_slice()) {
        Save::Written => Status::Done,
        Save::Failed => Status::WriteFault,
        Save::NoMemory => Status::NoMemory,
    };
    Some(status)
}

// Shows the help after a call of which the words ask for nothing.
fn help_after(alloc: Global, host: &mut StdHost, words: &Words, status: Status) {
    if let Status::Usage = status {
        if let Ok(text) = help_for(alloc, words) {
            let _ = host.show(text.as_slice());
        }
    }
}

fn main(rt: HostRuntime) -> ExitCode {
    let mut host = StdHost::new(&rt, rt.alloc());
    let status = match read_words(&rt) {
        Ok(words) => match answer(rt.alloc(), &mut host, &words) {
            Some(status) => status,
            None => {
                let status = polis(&rt, rt.alloc(), &words, &mut host, &OpenGate);
                help_after(rt.alloc(), &mut host, &words, status);
                status
            }
        },
        Err(NoMemory) => no_memory(&mut host),
    };
    ExitCode::from(status as u8)
}
