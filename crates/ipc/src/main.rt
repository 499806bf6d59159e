//! The program `ipc`: the top call over the system's files and standard output.
#![tactic(auto)]

use ipc_top::ipc_run;
use shelf_io::{OsShelf, OsSink};
use std::process::ExitCode;
use std::rt::Env;
use std::{env, io};

/// The status where memory for the words is wanting, as the top call answers it.
const NO_MEMORY: u8 = 8;

/// The status where the system doesn't give the words for another cause. The top call never answers it.
const NO_WORDS: u8 = 70;

// The words after the program's name. Words that aren't UTF-8 are of no known form, as no words are.
fn words(rt: &(impl Env + AllocGlobal)) -> io::Result<Vec<String>> {
    let mut words = Vec::new(rt.alloc());
    match env::args(rt) {
        Ok(all) => {
            for word in all.skip(1) {
                words.push(word)?;
            }
        }
        Err(e) if e.kind() == io::ErrorKind::InvalidData => {}
        Err(e) => return Err(e),
    }
    Ok(words)
}

fn main(rt: HostRuntime) -> ExitCode {
    let words = match words(&rt) {
        Ok(words) => words,
        Err(e) if e.kind() == io::ErrorKind::OutOfMemory => return ExitCode::from(NO_MEMORY),
        Err(_) => return ExitCode::from(NO_WORDS),
    };
    let mut shelf = OsShelf::new(&rt);
    let mut console = OsSink::new(&rt);
    ExitCode::from(ipc_run(rt.alloc(), &words, &mut shelf, &mut console))
}
