//! The command `jmm`: hands its words to the top call, with the machine's files and standard output.
#![tactic(auto)]

mod texts;
mod words;

use crate::texts::{HELP, VERSION};
use crate::words::{Asked, words_of};
use ports::{RealFiles, RealOut, put_all};
use std::process::ExitCode;
use verdict::{Status, run};

/// Puts a text to standard output, and answers the number of the status.
fn print(rt: &HostRuntime, text: &str) -> u8 {
    match put_all(&mut RealOut::new(rt), text.as_bytes()) {
        Ok(()) => 0,
        Err(_) => Status::WriteFault.number(),
    }
}

fn main(rt: HostRuntime) -> ExitCode {
    let number = match words_of(&rt) {
        Asked::Help => print(&rt, HELP),
        Asked::Version => print(&rt, VERSION),
        Asked::Words(words) => run(
            rt.alloc(),
            &words,
            &mut RealFiles::new(&rt),
            &mut RealOut::new(&rt),
        )
        .number(),
        Asked::Memory => Status::Memory.number(),
    };
    ExitCode::from(number)
}
