//! The shelf and the sink of the system, the trusted edge: they tell nothing of content, and count each error.
ghost use Rattle.std.specs.Prelude.{◌≡◌, None, IsTrue, OnErr, false};
ghost use Rattle.shelf_io.specs.Shelf.{Opens, Reads, Creates, Writes, Says, nothing_told, next_count};
ghost use Rattle.shelf_io.specs.OsState.{os_told, output_told};

use crate::faults::count_fault;
use crate::{Failed, Shelf, Sink};
use std::fs;
use std::io::{Read, Write};
use std::rt::Files;

/// The files of the system.
#[derive(Drop)]
pub struct OsShelf<R: Files + Drop> {
    files: R,
    opened: Option<R::File>,
    making: Option<R::File>,
    taken: u64,
    read_faults: u64,
    write_faults: u64,
}

impl<R: Files + Drop> OsShelf<R> {
    /// A shelf of the files that the runtime reaches, with no file open and none being made.
    pub fn new(files: R) -> Self
        ensures { ⟦<OsShelf<R> as Shelf>⟧.state result ≡ nothing_told false false 0 0 0 }
    {
        OsShelf {
            files,
            opened: None,
            making: None,
            taken: 0,
            read_faults: 0,
            write_faults: 0,
        }
    }
}

impl<R: Files + Drop> Shelf for OsShelf<R> {
    ghost state = { λ s. os_told s };

    ghost tells = { λ _. record { opened = tt; unread = tt; making = tt } };

    fn open(&mut self, name: &str) -> Result<(), Failed>
        ensures opens { Opens name.now (os_told self.old) result (os_told self.new) }
        ensures counted { OnErr result (self.new.read_faults ≡ next_count self.old.read_faults) }
    {
        self.making = None;
        self.taken = 0;
        match fs::open(&self.files, name) {
            Ok(file) => {
                self.opened = Some(file);
                Ok(())
            }
            Err(_) => {
                self.opened = None;
                Err(count_fault(&mut self.read_faults))
            }
        }
    }

    fn read(&mut self, buf: &mut [u8]) -> Result<usize, Failed>
        requires { IsTrue (os_told self.old).reading }
        ensures reads { Reads buf.new (os_told self.old) result (os_told self.new) }
        ensures counted { OnErr result (self.new.read_faults ≡ next_count self.old.read_faults) }
    {
        if let Some(file) = &mut self.opened
            && let Ok(n) = file.read(buf)
        {
            self.taken = self.taken.saturating_add(n as u64);
            return Ok(n);
        }
        Err(count_fault(&mut self.read_faults))
    }

    fn create(&mut self, name: &str) -> Result<(), Failed>
        ensures creates { Creates name.now (os_told self.old) result (os_told self.new) }
        ensures counted { OnErr result (self.new.write_faults ≡ next_count self.old.write_faults) }
    {
        self.opened = None;
        match fs::create(&self.files, name) {
            Ok(file) => {
                self.making = Some(file);
                Ok(())
            }
            Err(_) => {
                self.making = None;
                Err(count_fault(&mut self.write_faults))
            }
        }
    }

    fn write(&mut self, piece: &[u8]) -> Result<usize, Failed>
        requires { IsTrue (os_told self.old).writing }
        ensures writes { Writes piece.now (os_told self.old) result (os_told self.new) }
        ensures counted { OnErr result (self.new.write_faults ≡ next_count self.old.write_faults) }
    {
        if let Some(file) = &mut self.making
            && let Ok(n) = file.write(piece)
            && (n > 0 || piece.is_empty())
        {
            return Ok(n);
        }
        Err(count_fault(&mut self.write_faults))
    }

    fn finish(&mut self) -> Result<(), Failed> {
        self.making = None;
        Ok(())
    }
}

/// Standard output.
#[derive(Drop)]
pub struct OsSink<R: Print + Drop> {
    out: R,
    faults: u64,
}

impl<R: Print + Drop> OsSink<R> {
    /// A sink of the standard output that the runtime reaches.
    pub fn new(out: R) -> Self
        ensures { ⟦<OsSink<R> as Sink>⟧.state result ≡ record { written = None; faults = 0 } }
    {
        OsSink { out, faults: 0 }
    }
}

impl<R: Print + Drop> Sink for OsSink<R> {
    ghost state = { λ s. output_told s };

    fn write(&mut self, piece: &[u8]) -> Result<usize, Failed>
        ensures says { Says piece.now (output_told self.old) result (output_told self.new) }
        ensures counted { OnErr result (self.new.faults ≡ next_count self.old.faults) }
    {
        if let Ok(n) = self.out.write_some(piece)
            && (n > 0 || piece.is_empty())
        {
            return Ok(n);
        }
        Err(count_fault(&mut self.faults))
    }
}
