//! A shelf and a console in memory, and the last command on them.

use ipc_top::ipc_run;
use shelf_io::{MemShelf, MemSink};
use std::alloc::{AllocError, Global};

#[derive(Drop)]
struct File {
    name: String,
    text: String,
}

/// The files that a command finds, and what the last command did with them.
#[derive(Drop)]
pub struct Desk {
    alloc: Global,
    files: Vec<File>,
    shelf_fault: u64,
    console_fault: u64,
    shelf: MemShelf,
    console: MemSink,
    /// The status of the last command.
    pub status: u8,
}

impl Desk {
    /// No file, and no command yet.
    pub fn new(alloc: Global) -> Self {
        Desk {
            alloc,
            files: Vec::new(alloc),
            shelf_fault: 0,
            console_fault: 0,
            shelf: MemShelf::new(alloc),
            console: MemSink::new(alloc),
            status: 255,
        }
    }

    /// Adds a file that each later command finds, in the place of one of its name.
    pub fn put(&mut self, name: &str, text: String) -> Result<(), AllocError> {
        let name = String::from_str(self.alloc, name)?;
        self.files.push(File { name, text })?;
        Ok(())
    }

    /// The text of the file of this name that commands find.
    pub fn text(&self, name: &str) -> Option<&str> {
        for file in self.files.iter().rev() {
            if file.name.as_str() == name {
                return Some(file.text.as_str());
            }
        }
        None
    }

    /// Lets the shelf of the next command fail at this call. The calls are numbered from 1.
    pub fn fail_shelf_at(&mut self, call: u64) {
        self.shelf_fault = call;
    }

    /// Lets the console of the next command fail at this call.
    pub fn fail_console_at(&mut self, call: u64) {
        self.console_fault = call;
    }

    /// Does what these words ask for, with the files that were put and an empty console.
    pub fn obey(&mut self, words: &[String]) -> Result<(), AllocError> {
        self.shelf = filled(self.alloc, &self.files)?;
        self.shelf.fail_at(self.shelf_fault)?;
        self.console = MemSink::new(self.alloc);
        self.console.fail_at(self.console_fault)?;
        self.shelf_fault = 0;
        self.console_fault = 0;
        self.status = ipc_run(self.alloc, words, &mut self.shelf, &mut self.console);
        Ok(())
    }

    /// What the last command said.
    pub fn said(&self) -> &[u8] {
        self.console.bytes()
    }

    /// The bytes of a file after the last command, if it is there.
    pub fn left(&self, name: &str) -> Option<&[u8]> {
        self.shelf.file(name)
    }

    /// The name of the file at which the last command failed, if it did.
    pub fn failed_name(&self) -> Option<&str> {
        self.shelf.failed_name()
    }
}

// A shelf with these files.
fn filled(alloc: Global, files: &[File]) -> Result<MemShelf, AllocError> {
    let mut shelf = MemShelf::new(alloc);
    for file in files {
        shelf.put(file.name.as_str(), file.text.as_bytes())?;
    }
    Ok(shelf)
}
