//! A shelf in memory, of which chosen calls fail.
ghost use Rattle.std.specs.Prelude.{◌≡◌, ◌⊎◌, ◌↔◌, length, None, IsTrue, IfSome, IfOk, IsErr, OnOk, OnErr, option_copied};
ghost use Rattle.std.specs.FinMap.{get};
ghost use Rattle.shelf_io.specs.Shelf.{Opens, Reads, Creates, Writes, Finishes, next_count};
ghost use Rattle.shelf_io.specs.MemState.{IsDue, after_call, failing_at, empty_shelf, shelf_with, FillsUp, shelf_told, shelf_tells};

use crate::faults::{Schedule, count_fault};
use crate::mem_files::{MemFile, bytes_of, set_file};
use crate::mem_work::{
    Work, add_piece, copy_of, made_name, make_file, making_name, opened_name, read_head, read_piece,
};
use crate::{Failed, Shelf};
use std::alloc::{AllocError, Global};
use std::marker::Model;
use std::mem;

/// Files in memory. It tells all of them.
#[derive(Drop)]
pub struct MemShelf {
    alloc: Global,
    files: Vec<MemFile>,
    work: Work,
    taken: u64,
    failed: Option<String>,
    schedule: Schedule,
    read_faults: u64,
    write_faults: u64,
}

impl Model for MemShelf {
    ghost use Rattle.shelf_io.specs.MemState.{MemFiles};
    ghost use Rattle.shelf_io.specs.MemCode.{shelf_code};

    ghost Value = { MemFiles };

    ghost coded = { shelf_code };

    ghost use Rattle.shelf_io.specs.MemView.{shelf_view};

    ghost view = { shelf_view };
}

impl MemShelf {
    /// No file, and no call that is to fail.
    pub fn new(alloc: Global) -> Self
        ensures { result ≡ empty_shelf }
    {
        MemShelf {
            alloc,
            files: Vec::new(alloc),
            work: Work::Nothing,
            taken: 0,
            failed: None,
            schedule: Schedule::new(alloc),
            read_faults: 0,
            write_faults: 0,
        }
    }

    /// Sets the file of this name, and leaves no file open and none being made.
    pub fn put(&mut self, name: &str, bytes: &[u8]) -> Result<(), AllocError>
        ensures ok { OnOk result (self.new ≡ shelf_with name.now bytes.now self.old) }
        ensures err { OnErr result (self.new ≡ self.old) }
    {
        let bytes = Vec::from_slice(self.alloc, bytes)?;
        set_file(self.alloc, &mut self.files, name, bytes)?;
        self.work = Work::Nothing;
        Ok(())
    }

    /// Lets the call of this number fail. The calls of the trait are numbered from 1.
    pub fn fail_at(&mut self, call: u64) -> Result<(), AllocError>
        ensures ok { OnOk result (self.new ≡ record self.old { schedule = failing_at call self.old.schedule }) }
        ensures err { OnErr result (self.new ≡ self.old) }
    {
        self.schedule.add(call)
    }

    /// The bytes of a file, or None where there is no file of this name.
    pub fn file(&self, name: &str) -> Option<&[u8]>
        ensures { option_copied result ≡ get self.now.files name.now }
    {
        bytes_of(&self.files, name)
    }

    /// The name of the file of the last call that failed, where it is told.
    pub fn failed_name(&self) -> Option<&str>
        ensures { option_copied result ≡ self.now.failed }
    {
        match &self.failed {
            Some(name) => Some(name.as_str()),
            None => None,
        }
    }
}

impl Shelf for MemShelf {
    ghost state = { shelf_told };

    ghost tells = { shelf_tells };

    /// Fails exactly where its number is listed or there is no file of this name.
    fn open(&mut self, name: &str) -> Result<(), Failed>
        ensures opens { Opens name.now (shelf_told self.old) result (shelf_told self.new) }
        ensures exactly { IsErr result ↔ (IsDue self.old.schedule ⊎ (get self.old.files name.now ≡ None)) }
        ensures counted { OnErr result (self.new.read_faults ≡ next_count self.old.read_faults) }
        ensures schedule { self.new.schedule ≡ after_call self.old.schedule }
    {
        self.work = Work::Nothing;
        self.taken = 0;
        let due = self.schedule.count_call();
        match read_head(due, &self.files, name) {
            Some(head) => {
                self.work = Work::Reading(head);
                Ok(())
            }
            None => {
                self.failed = copy_of(self.alloc, name);
                Err(count_fault(&mut self.read_faults))
            }
        }
    }

    /// Reads as much as fits. Fails exactly where its number is listed.
    fn read(&mut self, buf: &mut [u8]) -> Result<usize, Failed>
        requires { IsTrue (shelf_told self.old).reading }
        ensures reads { Reads buf.new (shelf_told self.old) result (shelf_told self.new) }
        ensures fits { IfOk result (λ n. IfSome (shelf_told self.old).unread (FillsUp buf.new n)) }
        ensures exactly { IsErr result ↔ IsDue self.old.schedule }
        ensures counted { OnErr result (self.new.read_faults ≡ next_count self.old.read_faults) }
        ensures schedule { self.new.schedule ≡ after_call self.old.schedule }
    {
        let due = self.schedule.count_call();
        match read_piece(due, &self.files, &mut self.work, buf) {
            Some(n) => {
                self.taken = self.taken.saturating_add(n as u64);
                Ok(n)
            }
            None => {
                self.failed = opened_name(self.alloc, &self.files, &self.work);
                Err(count_fault(&mut self.read_faults))
            }
        }
    }

    /// Fails where its number is listed or there is no memory, and then changes no file.
    fn create(&mut self, name: &str) -> Result<(), Failed>
        ensures creates { Creates name.now (shelf_told self.old) result (shelf_told self.new) }
        ensures due { IsDue self.old.schedule → IsErr result }
        ensures unchanged { OnErr result (self.new.files ≡ self.old.files) }
        ensures counted { OnErr result (self.new.write_faults ≡ next_count self.old.write_faults) }
        ensures schedule { self.new.schedule ≡ after_call self.old.schedule }
    {
        self.work = Work::Nothing;
        let due = self.schedule.count_call();
        match make_file(due, self.alloc, &mut self.files, name) {
            Ok(making) => {
                self.work = Work::Making(making);
                Ok(())
            }
            Err(_) => {
                self.failed = copy_of(self.alloc, name);
                Err(count_fault(&mut self.write_faults))
            }
        }
    }

    /// Writes all of the piece. Fails where its number is listed or there is no memory, and then changes no file.
    fn write(&mut self, piece: &[u8]) -> Result<usize, Failed>
        requires { IsTrue (shelf_told self.old).writing }
        ensures writes { Writes piece.now (shelf_told self.old) result (shelf_told self.new) }
        ensures all { IfOk result (λ n. n ≡ length piece.now) }
        ensures due { IsDue self.old.schedule → IsErr result }
        ensures unchanged { OnErr result (self.new.files ≡ self.old.files) }
        ensures counted { OnErr result (self.new.write_faults ≡ next_count self.old.write_faults) }
        ensures schedule { self.new.schedule ≡ after_call self.old.schedule }
    {
        let due = self.schedule.count_call();
        match add_piece(due, &mut self.files, &self.work, piece) {
            Ok(()) => Ok(piece.len()),
            Err(_) => {
                self.failed = making_name(self.alloc, &self.work);
                Err(count_fault(&mut self.write_faults))
            }
        }
    }

    /// Fails exactly where its number is listed, and then tells the name: it needs no memory for it.
    fn finish(&mut self) -> Result<(), Failed>
        requires { IsTrue (shelf_told self.old).writing }
        ensures finishes { Finishes (shelf_told self.old) result (shelf_told self.new) }
        ensures told { OnErr result (self.new.failed ≡ self.old.making) }
        ensures exactly { IsErr result ↔ IsDue self.old.schedule }
        ensures counted { OnErr result (self.new.write_faults ≡ next_count self.old.write_faults) }
        ensures schedule { self.new.schedule ≡ after_call self.old.schedule }
    {
        let made = made_name(mem::replace(&mut self.work, Work::Nothing));
        if self.schedule.count_call() {
            self.failed = made;
            return Err(count_fault(&mut self.write_faults));
        }
        Ok(())
    }
}
