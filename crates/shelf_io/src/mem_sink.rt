//! A sink in memory, of which chosen calls fail.
ghost use Rattle.std.specs.Prelude.{◌≡◌, ◌++◌, OnOk, OnErr, IfOk, IsErr, false, length};
ghost use Rattle.shelf_io.specs.Shelf.{Says, next_count};
ghost use Rattle.shelf_io.specs.MemState.{IsDue, after_call, failing_at, empty_sink, sink_told};

use crate::faults::{Schedule, count_fault};
use crate::{Failed, Sink};
use std::alloc::{AllocError, Global};
use std::marker::Model;

/// A console in memory. It tells its bytes.
#[derive(Drop)]
pub struct MemSink {
    written: Vec<u8>,
    schedule: Schedule,
    faults: u64,
}

impl Model for MemSink {
    ghost use Rattle.shelf_io.specs.MemState.{MemBytes};
    ghost use Rattle.shelf_io.specs.MemCode.{sink_code};

    ghost Value = { MemBytes };

    ghost coded = { sink_code };

    ghost view = { λ s. record { written = s.written.items; schedule = s.schedule; faults = s.faults } };
}

impl MemSink {
    /// Nothing written, and no call that is to fail.
    pub fn new(alloc: Global) -> Self
        ensures { result ≡ empty_sink }
    {
        MemSink {
            written: Vec::new(alloc),
            schedule: Schedule::new(alloc),
            faults: 0,
        }
    }

    /// Lets the call of this number fail. The calls of the trait are numbered from 1.
    pub fn fail_at(&mut self, call: u64) -> Result<(), AllocError>
        ensures ok { OnOk result (self.new ≡ record self.old { schedule = failing_at call self.old.schedule }) }
        ensures err { OnErr result (self.new ≡ self.old) }
    {
        self.schedule.add(call)
    }

    /// What was written.
    pub fn bytes(&self) -> &[u8]
        ensures { result.now ≡ self.now.written }
    {
        &self.written
    }
}

impl Sink for MemSink {
    ghost state = { sink_told };

    /// Writes all of the piece. It fails where its number is listed or there is no memory, and then writes nothing.
    fn write(&mut self, piece: &[u8]) -> Result<usize, Failed>
        ensures says { Says piece.now (sink_told self.old) result (sink_told self.new) }
        ensures all { IfOk result (λ n. n ≡ length piece.now) }
        ensures due { IsDue self.old.schedule → IsErr result }
        ensures unchanged { OnErr result (self.new.written ≡ self.old.written) }
        ensures counted { OnErr result (self.new.faults ≡ next_count self.old.faults) }
        ensures schedule { self.new.schedule ≡ after_call self.old.schedule }
    {
        let due = self.schedule.count_call();
        match write_piece(due, &mut self.written, piece) {
            Ok(()) => Ok(piece.len()),
            Err(_) => Err(count_fault(&mut self.faults)),
        }
    }
}

// Writes the piece, unless the call is due to fail or there is no memory.
fn write_piece(due: bool, written: &mut Vec<u8>, piece: &[u8]) -> Result<(), Failed>
    ensures ok { OnOk result (written.new.items ≡ written.old.items ++ piece.now) }
    ensures undue { OnOk result (due ≡ false) }
    ensures err { OnErr result (written.new.items ≡ written.old.items) }
{
    if due {
        return Err(Failed);
    }
    written.extend_from_slice(piece).map_err(|_| Failed)
}
