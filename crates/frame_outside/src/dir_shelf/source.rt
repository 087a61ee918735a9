//! A file of the system that is read.

ghost use Rattle.std.specs.Prelude.{◌≡◌, ◌≤◌, length, Some, None, Ok, IfOk, IsErr, IsTrue, false};
ghost use Rattle.std.specs.Fs.{IsFile, file_type, metadata_len};

use super::identity::Identity;
use std::fs::Metadata;
use std::io::{self, Read};
use std::os::unix::fs::FileExt;

/// A file that is read, each time by one call of the system, made again where it was interrupted.
#[derive(Drop)]
pub struct Source<F> {
    /// `None` once the file was given back to the system, which is only after its end.
    file: Option<F>,
    identity: Option<Identity>,
    /// How long the file was when it was opened, where it has a length.
    length: Option<u64>,
    /// Whether the last bytes that were asked for were none.
    ended: bool,
}

impl<F: Drop> Source<F> {
    ghost use Rattle.frame_outside.specs.Opened.{is_spent, source_given_back};

    pub fn new(file: F, identity: Option<Identity>, metadata: &Metadata) -> Self
        ensures file { result.file ≡ Some file }
        ensures identity { result.identity ≡ identity }
        ensures length { IsFile (file_type metadata.now) →
            result.length ≡ Some (metadata_len metadata.now) }
        ensures no_length { (IsFile (file_type metadata.now) → ⊥) → result.length ≡ None }
        ensures ended { result.ended ≡ false }
    {
        Source {
            file: Some(file),
            identity,
            length: metadata.is_file().then_some(metadata.len()),
            ended: false,
        }
    }

    pub fn identity(&self) -> Option<Identity>
        ensures { result ≡ self.now.identity }
    {
        self.identity
    }

    pub fn length(&self) -> Option<u64>
        ensures { result ≡ self.now.length }
    {
        self.length
    }

    /// Gives the file back to the system where it was read to its end, and answers whether it did.
    pub fn give_back(&mut self) -> bool
        ensures value { result ≡ is_spent self.old }
        ensures after { self.new ≡ source_given_back self.old }
    {
        self.ended && self.file.take().is_some()
    }
}

impl<F: Read> Source<F> {
    /// The next bytes; none of a file that was given back.
    pub fn take(&mut self, into: &mut [u8]) -> io::Result<usize>
        ensures room { IfOk result (λ n. n ≤ length into.new) }
        ensures gone { self.old.file ≡ None → result ≡ Ok 0 }
        ensures ended { IfOk result (λ n. IsTrue self.new.ended → n ≡ 0) }
        ensures identity { self.new.identity ≡ self.old.identity }
        ensures length { self.new.length ≡ self.old.length }
    {
        let Some(file) = &mut self.file else {
            return Ok(0);
        };
        let count = read_some(file, into)?;
        self.ended = count == 0 && !into.is_empty();
        Ok(count)
    }
}

impl<F: FileExt> Source<F> {
    /// The bytes from a place on; an error where the file was given back.
    pub fn read_at(&self, at: u64, into: &mut [u8]) -> io::Result<usize>
        ensures room { IfOk result (λ n. n ≤ length into.new) }
        ensures gone { self.now.file ≡ None → IsErr result }
    {
        match &self.file {
            Some(file) => read_some_at(file, at, into),
            None => Err(io::Error::from(io::ErrorKind::NotFound)),
        }
    }
}

fn read_some<F: Read>(file: &mut F, into: &mut [u8]) -> io::Result<usize>
    ensures { IfOk result (λ n. n ≤ length into.new) }
{
    for _ in 0..u64::MAX {
        match file.read(into) {
            Err(error) if error.kind() == io::ErrorKind::Interrupted => {}
            answer => return answer,
        }
    }
    Err(io::Error::from(io::ErrorKind::Interrupted))
}

fn read_some_at<F: FileExt>(file: &F, at: u64, into: &mut [u8]) -> io::Result<usize>
    ensures { IfOk result (λ n. n ≤ length into.new) }
{
    // The system's places are signed, and it refuses a read that would go past the last of them.
    let most = LAST_PLACE.saturating_sub(at).min(into.len() as u64) as usize;
    if most == 0 {
        return Ok(0);
    }
    for _ in 0..u64::MAX {
        match file.read_at(&mut into[..most], at) {
            Err(error) if error.kind() == io::ErrorKind::Interrupted => {}
            answer => return answer,
        }
    }
    Err(io::Error::from(io::ErrorKind::Interrupted))
}

/// No file is longer.
const LAST_PLACE: u64 = i64::MAX as u64;
