//! Files and consoles: that each call fails in its turn and names its file, and what the system's files do.
use dec_text::Snap;
use msh_text::read_msh;
use shelf_io::{Failed, MemShelf, MemSink, OsShelf, OsSink, ReadErr, read_all, say_all, write_all};
use std::alloc::{AllocError, Allocator, Global};
use std::fs::{Metadata, OpenFile, OpenOptions};
use std::io::{Read, Seek, SeekFrom, Write};
use std::rt::Files;
use std::test::Fail;
use std::{fs, io};

// A name of more than 200 bytes.
const NAME: &str =
    "a_name_of_many_letters_0123456789_0123456789_0123456789_0123456789_0123456789_0123456789_0123456789_0123456789_0123456789_0123456789_0123456789_0123456789_0123456789_0123456789_0123456789_0123456789.txt";

// More bytes than one read asks for.
const LENGTH: usize = 5000;

#[test]
fn each_reading_call_fails_in_turn(rt: HostRuntime) -> Result<(), Fail> {
    let alloc = rt.alloc();
    let bytes = vec![in alloc; 7u8; LENGTH]?;
    // It opens, reads two pieces, and finds the end.
    for call in 1..5u64 {
        let mut shelf = MemShelf::new(alloc);
        shelf.put(NAME, &bytes)?;
        shelf.fail_at(call)?;
        match read_all(alloc, &mut shelf, NAME, 5000) {
            Ok(_) => assert!(rt; false),
            Err(err) => assert_eq!(rt; err, ReadErr::Failed),
        }
        assert!(rt; shelf.failed_name() == Some(NAME), "at {call}");
        match read_all(alloc, &mut shelf, NAME, 5000) {
            Ok(read) => assert!(rt; read.as_slice() == bytes.as_slice()),
            Err(_) => assert!(rt; false),
        }
        assert!(rt; read_all(alloc, &mut shelf, "other", 5).is_err());
        assert!(rt; shelf.failed_name() == Some("other"));
    }
    Ok(())
}

#[test]
fn each_writing_call_fails_in_turn(rt: HostRuntime) -> Result<(), Fail> {
    let alloc = rt.alloc();
    let bytes = vec![in alloc; 7u8; LENGTH]?;
    for (call, left) in [
        (1u64, b"old".as_slice()),
        (2, b"".as_slice()),
        (3, bytes.as_slice()),
    ] {
        let mut shelf = MemShelf::new(alloc);
        shelf.put(NAME, b"old")?;
        shelf.fail_at(call)?;
        assert_eq!(rt; write_all(&mut shelf, NAME, &bytes), Err(Failed));
        assert!(rt; shelf.failed_name() == Some(NAME), "at {call}");
        assert!(rt; shelf.file(NAME) == Some(left), "at {call}");
        assert_eq!(rt; write_all(&mut shelf, NAME, &bytes), Ok(()));
        assert!(rt; shelf.file(NAME) == Some(bytes.as_slice()));
    }
    Ok(())
}

#[test]
fn a_console_fails_once(rt: HostRuntime) -> Result<(), Fail> {
    let mut console = MemSink::new(rt.alloc());
    console.fail_at(2)?;
    assert_eq!(rt; say_all(&mut console, b"one\n"), Ok(()));
    assert_eq!(rt; say_all(&mut console, b"two\n"), Err(Failed));
    assert_eq!(rt; say_all(&mut console, b"three\n"), Ok(()));
    assert_eq!(rt; console.bytes(), b"one\nthree\n".as_slice());
    let mut output = OsSink::new(&rt);
    assert_eq!(rt; say_all(&mut output, b"said\n"), Ok(()));
    Ok(())
}

#[test]
fn files_of_the_system(rt: HostRuntime) -> Result<(), Fail> {
    let alloc = rt.alloc();
    let bytes = vec![in alloc; 7u8; LENGTH]?;
    let mut shelf = OsShelf::new(&rt);
    assert_eq!(rt; write_all(&mut shelf, NAME, &bytes), Ok(()));
    match read_all(alloc, &mut shelf, NAME, 5000) {
        Ok(read) => assert!(rt; read.as_slice() == bytes.as_slice()),
        Err(_) => assert!(rt; false),
    }
    let refused = read_all(alloc, &mut shelf, NAME, 4999).err();
    assert!(rt; refused == Some(ReadErr::TooLong { taken: 5000 }));
    assert!(rt; fs::remove_file(&rt, NAME).is_ok());
    assert!(rt; read_all(alloc, &mut shelf, NAME, 5).err() == Some(ReadErr::Failed));
    // A folder is opened, and isn't read.
    assert!(rt; read_all(alloc, &mut shelf, ".", 5).err() == Some(ReadErr::Failed));
    assert_eq!(rt; write_all(&mut shelf, "no_folder/a", b"hello"), Err(Failed));
    Ok(())
}

#[test]
fn a_fault_in_mid_file_is_not_its_end(rt: HostRuntime) -> Result<(), Fail> {
    let mut shelf = OsShelf::new(BrokenFiles);
    let refused = read_all(rt.alloc(), &mut shelf, NAME, 5000).err();
    assert!(rt; refused == Some(ReadErr::Failed));
    assert_eq!(rt; write_all(&mut shelf, NAME, b"hello"), Err(Failed));
    Ok(())
}

#[test]
fn a_mesh_of_many_nodes(rt: HostRuntime) -> Result<(), Fail> {
    let alloc = rt.alloc();
    let mut shelf = MemShelf::new(alloc);
    for (last, accepted) in [("1048576", true), ("1048577", false)] {
        let text = mesh_text(alloc, last)?;
        shelf.put("t.msh", text.as_bytes())?;
        match read_all(alloc, &mut shelf, "t.msh", 1 << 20) {
            Ok(bytes) => {
                assert!(rt; bytes.len() > 4096);
                assert!(rt;
                    read_msh(alloc, &bytes, 0, Snap::Exact).is_ok() == accepted,
                    "at {last}"
                );
            }
            Err(_) => assert!(rt; false),
        }
    }
    Ok(())
}

// A mesh of 500 nodes and one tetrahedron. The last node has this height.
fn mesh_text(alloc: Global, last: &str) -> Result<String, AllocError> {
    let mut text = String::from_str(alloc, "$MeshFormat\n2.2 0 8\n$EndMeshFormat\n$Nodes\n500\n")?;
    for number in 1..500u32 {
        text.push_str(&format!(in alloc; "{number} {number} 0 0\n")?)?;
    }
    text.push_str("500 0 0 ")?;
    text.push_str(last)?;
    text.push_str("\n$EndNodes\n$Elements\n1\n1 4 2 0 1 1 2 3 500\n$EndElements\n")?;
    Ok(text)
}

// Files each of which gives one byte and then fails. None takes a byte.
#[derive(Drop)]
struct BrokenFiles;

#[derive(Drop)]
struct BrokenFile {
    is_read: bool,
}

impl Read for BrokenFile {
    fn read(&mut self, buf: &mut [u8]) -> io::Result<usize> {
        if self.is_read || buf.is_empty() {
            return Err(io::ErrorKind::Other.into());
        }
        self.is_read = true;
        buf[0] = 7;
        Ok(1)
    }
}

impl Write for BrokenFile {
    fn write(&mut self, _bytes: &[u8]) -> io::Result<usize> {
        Ok(0)
    }

    fn flush(&mut self) -> io::Result<()> {
        Ok(())
    }
}

impl Seek for BrokenFile {
    fn seek(&mut self, _to: SeekFrom) -> io::Result<u64> {
        Err(io::ErrorKind::Unsupported.into())
    }
}

impl OpenFile for BrokenFile {
    fn metadata(&self) -> io::Result<Metadata> {
        Err(io::ErrorKind::Unsupported.into())
    }

    fn set_len(&self, _size: u64) -> io::Result<()> {
        Err(io::ErrorKind::Unsupported.into())
    }

    fn sync_all(&self) -> io::Result<()> {
        Ok(())
    }

    fn sync_data(&self) -> io::Result<()> {
        Ok(())
    }
}

impl Files for BrokenFiles {
    type File = BrokenFile;

    type Dir = BrokenFile;

    fn open_file(&self, _how: &OpenOptions, _path: &str) -> io::Result<BrokenFile> {
        Ok(BrokenFile { is_read: false })
    }

    fn open_dir(&self, _path: &str) -> io::Result<BrokenFile> {
        Err(io::ErrorKind::Unsupported.into())
    }

    fn metadata(&self, _path: &str) -> io::Result<Metadata> {
        Err(io::ErrorKind::Unsupported.into())
    }

    fn symlink_metadata(&self, _path: &str) -> io::Result<Metadata> {
        Err(io::ErrorKind::Unsupported.into())
    }

    fn copy(&self, _from: &str, _to: &str) -> io::Result<u64> {
        Err(io::ErrorKind::Unsupported.into())
    }

    fn rename(&self, _from: &str, _to: &str) -> io::Result<()> {
        Err(io::ErrorKind::Unsupported.into())
    }

    fn remove_file(&self, _path: &str) -> io::Result<()> {
        Err(io::ErrorKind::Unsupported.into())
    }

    fn create_dir(&self, _path: &str) -> io::Result<()> {
        Err(io::ErrorKind::Unsupported.into())
    }

    fn remove_dir(&self, _path: &str) -> io::Result<()> {
        Err(io::ErrorKind::Unsupported.into())
    }

    fn remove_dir_all<B: Allocator>(&self, _alloc: B, _path: &str) -> io::Result<()> {
        Err(io::ErrorKind::Unsupported.into())
    }
}
