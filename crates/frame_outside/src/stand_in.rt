//! A stand-in for the files and the output of the system. A test says what each file holds, how much
//! one call gives or takes, and which call is interrupted or fails.

ghost use Rattle.std.specs.Prelude.{◌≤◌, length, IfOk};

use std::alloc::{Allocator, Global};
use std::cell::{Cell, RefCell};
use std::fmt::Display;
use std::fs::{Metadata, OpenFile, OpenOptions};
use std::io::{self, ErrorKind, Read, Seek, SeekFrom, Write};
use std::os::fd::{AsRawFd, RawFd};
use std::os::unix::fs::FileExt;
use std::rt::Files;

/// What the system does, and what it saw. Its files are one file under all names.
#[derive(Drop)]
pub struct System<'a> {
    /// What the file holds.
    pub held: &'a [u8],
    /// The most bytes that one call gives or takes.
    pub most: usize,
    /// The numbers of the reads and writes that are interrupted and that fail, counted from 1.
    pub interrupted: u64,
    pub failing: u64,
    /// How many files may be open at once.
    pub most_open: usize,
    /// The number that the next file is opened under.
    pub next_number: i32,
    pub calls: Cell<u64>,
    pub open: Cell<usize>,
    /// Whether a file was cut, and whether one was used under a standard stream's number.
    pub cut: Cell<bool>,
    pub used_a_stream: Cell<bool>,
    pub written: RefCell<Vec<u8>>,
}

impl System<'_> {
    pub fn new<'a>(alloc: Global, held: &'a [u8]) -> System<'a> {
        System {
            held,
            most: usize::MAX,
            interrupted: 0,
            failing: 0,
            most_open: usize::MAX,
            next_number: 3,
            calls: Cell::new(0),
            open: Cell::new(0),
            cut: Cell::new(false),
            used_a_stream: Cell::new(false),
            written: RefCell::new(Vec::new(alloc)),
        }
    }

    /// Whether these bytes were written, in all calls together.
    pub fn has_written(&self, bytes: &[u8]) -> bool {
        match self.written.try_borrow() {
            Ok(written) => written.as_slice() == bytes,
            Err(_) => false,
        }
    }

    /// One call on so many bytes: how many of them it passes.
    fn pass(&self, count: usize) -> io::Result<usize>
        ensures { IfOk result (λ n. n ≤ count) }
    {
        let number = self.calls.get().saturating_add(1);
        self.calls.set(number);
        if number == self.interrupted {
            return Err(io::Error::from(ErrorKind::Interrupted));
        }
        if number == self.failing {
            return Err(io::Error::from(ErrorKind::Other));
        }
        Ok(count.min(self.most))
    }

    fn read_from(&self, at: usize, into: &mut [u8]) -> io::Result<usize>
        ensures { IfOk result (λ n. n ≤ length into.new) }
    {
        let count = self.pass(into.len())?;
        let left = &self.held[at.min(self.held.len())..];
        let count = count.min(left.len());
        into[..count].copy_from_slice(&left[..count]);
        Ok(count)
    }

    fn write_on(&self, piece: &[u8]) -> io::Result<usize>
        ensures { IfOk result (λ n. n ≤ length piece.now) }
    {
        let count = self.pass(piece.len())?;
        match self.written.try_borrow_mut() {
            Ok(mut written) => {
                if written.extend_from_slice(&piece[..count]).is_err() {
                    return Err(io::Error::from(ErrorKind::OutOfMemory));
                }
                Ok(count)
            }
            Err(_) => Err(io::Error::from(ErrorKind::Other)),
        }
    }
}

/// The runtime of such a system.
#[derive(Clone, Copy)]
pub struct Runtime<'a> {
    pub system: &'a System<'a>,
}

impl<'a> Files for Runtime<'a> {
    type File = File<'a>;

    type Dir = io::Empty;

    fn open_file(&self, how: &OpenOptions, path: &str) -> io::Result<File<'a>> {
        let system = self.system;
        if path.trim() != path {
            return Err(io::Error::from(ErrorKind::NotFound));
        }
        if system.open.get() >= system.most_open {
            return Err(io::Error::from_raw_os_error(24));
        }
        if how.asks_truncate() {
            system.cut.set(true);
        }
        Ok(File::new(system, system.next_number))
    }

    fn open_dir(&self, _path: &str) -> io::Result<io::Empty> {
        Err(unsupported())
    }

    fn metadata(&self, _path: &str) -> io::Result<Metadata> {
        Err(unsupported())
    }

    fn symlink_metadata(&self, _path: &str) -> io::Result<Metadata> {
        Err(unsupported())
    }

    fn copy(&self, _from: &str, _to: &str) -> io::Result<u64> {
        Err(unsupported())
    }

    fn rename(&self, _from: &str, _to: &str) -> io::Result<()> {
        Err(unsupported())
    }

    fn remove_file(&self, _path: &str) -> io::Result<()> {
        Err(unsupported())
    }

    fn create_dir(&self, _path: &str) -> io::Result<()> {
        Err(unsupported())
    }

    fn remove_dir(&self, _path: &str) -> io::Result<()> {
        Err(unsupported())
    }

    fn remove_dir_all<B: Allocator>(&self, _alloc: B, _path: &str) -> io::Result<()> {
        Err(unsupported())
    }
}

impl Print for Runtime<'_> {
    fn print<D: Display + Drop>(&self, _value: D) -> io::Result<()> {
        Err(unsupported())
    }

    fn println<D: Display + Drop>(&self, _value: D) -> io::Result<()> {
        Err(unsupported())
    }

    fn write_all(&self, bytes: &[u8]) -> io::Result<()> {
        self.system.write_on(bytes)?;
        Ok(())
    }
}

fn unsupported() -> io::Error {
    io::Error::from(ErrorKind::Unsupported)
}

/// An open file.
pub struct File<'a> {
    system: &'a System<'a>,
    at: usize,
    number: RawFd,
}

impl<'a> File<'a> {
    fn new(system: &'a System<'a>, number: RawFd) -> Self {
        system.open.set(system.open.get().saturating_add(1));
        File {
            system,
            at: 0,
            number,
        }
    }

    fn note_use(&self) {
        if self.number <= 2 {
            self.system.used_a_stream.set(true);
        }
    }
}

impl Drop for File<'_> {
    fn drop(self) {
        let Self {
            system,
            at: _,
            number: _,
        } = self;
        system.open.set(system.open.get().saturating_sub(1));
    }
}

impl Read for File<'_> {
    fn read(&mut self, into: &mut [u8]) -> io::Result<usize> {
        self.note_use();
        let count = self.system.read_from(self.at, into)?;
        self.at = self.at.saturating_add(count);
        Ok(count)
    }
}

impl FileExt for File<'_> {
    fn read_at(&self, into: &mut [u8], at: u64) -> io::Result<usize> {
        // As the system does where a read would go past the last place.
        if into.len() as u64 > (i64::MAX as u64).saturating_sub(at) {
            return Err(io::Error::from(ErrorKind::InvalidInput));
        }
        self.system.read_from(at as usize, into)
    }

    fn write_at(&self, _piece: &[u8], _at: u64) -> io::Result<usize> {
        Err(unsupported())
    }
}

impl Write for File<'_> {
    fn write(&mut self, piece: &[u8]) -> io::Result<usize> {
        self.note_use();
        self.system.write_on(piece)
    }

    fn flush(&mut self) -> io::Result<()> {
        Ok(())
    }
}

impl Seek for File<'_> {
    fn seek(&mut self, _to: SeekFrom) -> io::Result<u64> {
        Err(unsupported())
    }
}

impl AsRawFd for File<'_> {
    fn as_raw_fd(&self) -> RawFd {
        self.number
    }
}

impl OpenFile for File<'_> {
    fn metadata(&self) -> io::Result<Metadata> {
        Ok(Metadata::of_file(self.system.held.len() as u64))
    }

    fn set_len(&self, _size: u64) -> io::Result<()> {
        self.system.cut.set(true);
        Ok(())
    }

    fn sync_all(&self) -> io::Result<()> {
        Ok(())
    }

    fn sync_data(&self) -> io::Result<()> {
        Ok(())
    }

    fn try_clone(&self) -> io::Result<Self> {
        Ok(File::new(self.system, self.number.saturating_add(3)))
    }
}
