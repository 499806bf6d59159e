//! Files that have no end.
ghost use Rattle.shelf_io.specs.Shelf.{nothing_told};

use ipc_top::ipc_run;
use shelf_io::{Failed, MemSink, Shelf};
use std::test::Fail;

// A shelf whose every file has no end.
#[derive(Drop)]
struct Endless {
    reading: bool,
    writing: bool,
    taken: u64,
}

impl Shelf for Endless {
    ghost state = { λ s. nothing_told s.reading s.writing s.taken 0 0 };

    ghost tells = { λ _. record { opened = tt; unread = tt; making = tt } };

    fn open(&mut self, _name: &str) -> Result<(), Failed> {
        self.reading = true;
        self.writing = false;
        self.taken = 0;
        Ok(())
    }

    fn read(&mut self, buf: &mut [u8]) -> Result<usize, Failed> {
        self.taken = self.taken.saturating_add(buf.len() as u64);
        Ok(buf.len())
    }

    fn create(&mut self, _name: &str) -> Result<(), Failed> {
        self.reading = false;
        self.writing = true;
        Ok(())
    }

    fn write(&mut self, piece: &[u8]) -> Result<usize, Failed> {
        Ok(piece.len())
    }

    fn finish(&mut self) -> Result<(), Failed> {
        self.writing = false;
        Ok(())
    }
}

#[test]
fn files_that_are_too_long(rt: HostRuntime) -> Result<(), Fail> {
    let cases = [
        (
            ["check", "0", "t.msh", "o"].as_slice(),
            "too long t.msh 268435457\n",
            268_435_457,
        ),
        (
            ["run", "f.toml"].as_slice(),
            "too long f.toml 1048577\n",
            1_048_577,
        ),
    ];
    for (list, line, taken) in cases {
        let mut shelf = Endless {
            reading: false,
            writing: false,
            taken: 0,
        };
        let mut console = MemSink::new(rt.alloc());
        let mut words = Vec::new(rt.alloc());
        for word in list {
            words.push(String::from_str(rt.alloc(), word)?)?;
        }
        assert!(rt; ipc_run(rt.alloc(), &words, &mut shelf, &mut console) == 10);
        assert!(rt; console.bytes() == line.as_bytes());
        assert!(rt; shelf.taken == taken);
    }
    Ok(())
}
