//! The outside as two traits: a store of named files, and a console.
ghost use Rattle.std.specs.Prelude.{IsTrue};
ghost use Rattle.shelf_io.specs.Shelf.{ShelfState, SinkState, Tells, Opens, Reads, Creates, Writes, Finishes, Says};

/// The answer of a device that failed.
#[derive(Clone, Copy, Debug, PartialEq, Eq)]
pub struct Failed;

/// A store of named files. At most one of them is open, and at most one is being made.
///
/// It may tell its files or keep them to itself. It always tells whether a file is open, whether one is being made,
/// how many bytes were read since the last `open`, and two counts of faults, which never fall.
pub trait Shelf {
    ghost state: { Self → ShelfState };

    /// Opens a file for reading. A name that isn't there fails. Nothing is being made afterwards.
    fn open(&mut self, name: &str) -> Result<(), Failed>
        ensures { Opens name.now (state self.old) result (state self.new) };

    /// Reads the next bytes of the open file, at most as many as `buf` holds. It gives 0 only at the file's end or
    /// where `buf` is empty.
    fn read(&mut self, buf: &mut [u8]) -> Result<usize, Failed>
        requires { IsTrue (state self.old).reading }
        ensures { Reads buf.new (state self.old) result (state self.new) };

    /// Begins a file, empty, in the place of the one of that name. Nothing is open afterwards.
    fn create(&mut self, name: &str) -> Result<(), Failed>
        ensures { Creates name.now (state self.old) result (state self.new) };

    /// Adds the first bytes of `piece` at the end of the file that is being made, and gives their number: at least 1
    /// where `piece` isn't empty.
    fn write(&mut self, piece: &[u8]) -> Result<usize, Failed>
        requires { IsTrue (state self.old).writing }
        ensures { Writes piece.now (state self.old) result (state self.new) };

    /// Ends the file that is being made, whatever it answers.
    fn finish(&mut self) -> Result<(), Failed>
        requires { IsTrue (state self.old).writing }
        ensures { Finishes (state self.old) result (state self.new) };

    ghost tells: { (s : Self) → Tells (state s) };
}

/// A console. It may tell the bytes that were written, and always tells its count of faults.
pub trait Sink {
    ghost state: { Self → SinkState };

    /// Writes the first bytes of `piece`, and gives their number: at least 1 where `piece` isn't empty.
    fn write(&mut self, piece: &[u8]) -> Result<usize, Failed>
        ensures { Says piece.now (state self.old) result (state self.new) };
}
