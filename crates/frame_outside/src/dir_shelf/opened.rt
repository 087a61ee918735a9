//! One slot of the shelf of real files.

ghost use Rattle.std.specs.Prelude.{◌≡◌, ◌≤◌, length, IfOk, false, true};

use super::identity::Identity;
use super::source::Source;
use std::io::{self, Read, Write};
use std::os::unix::fs::FileExt;

/// An open file by its use.
#[derive(Drop)]
pub enum Opened<F> {
    Source(Source<F>),
    Target(Target<F>),
}

/// A file that is written.
#[derive(Drop)]
pub struct Target<F> {
    pub file: F,
    pub identity: Option<Identity>,
    /// The name that it was made by.
    pub name: String,
}

impl<F: Drop> Opened<F> {
    ghost use Rattle.frame_outside.specs.Opened.{is_written, identity_of, length_of, is_file_of};
    ghost use Rattle.frame_outside.specs.Opened.{is_other_name_of, can_give_back, given_back};

    fn identity(&self) -> Option<Identity>
        ensures { result ≡ identity_of self.now }
    {
        match self {
            Opened::Source(source) => source.identity(),
            Opened::Target(target) => target.identity,
        }
    }

    /// Whether this is the file of that identity. What has no identity is like no other file.
    pub fn is(&self, identity: Option<Identity>) -> bool
        ensures { result ≡ is_file_of identity self.now }
    {
        match (self.identity(), identity) {
            (Some(own), Some(other)) => own == other,
            _ => false,
        }
    }

    /// Whether this is the file of that identity, written under another name.
    pub fn is_written_as_another(&self, identity: Option<Identity>, name: &str) -> bool
        ensures { result ≡ is_other_name_of identity name.now self.now }
    {
        match self {
            Opened::Source(_) => false,
            Opened::Target(target) => self.is(identity) && target.name.as_str() != name,
        }
    }

    /// Gives a file that was read to its end back to the system, and answers whether it did.
    pub fn give_back(&mut self) -> bool
        ensures value { result ≡ can_give_back self.old }
        ensures after { self.new ≡ given_back self.old }
    {
        match self {
            Opened::Source(source) => source.give_back(),
            Opened::Target(_) => false,
        }
    }

    /// How long a source was when it was opened, where it has a length.
    pub fn length(&self) -> Option<u64>
        requires { is_written self.now ≡ false }
        ensures { result ≡ length_of self.now }
    {
        match self {
            Opened::Source(source) => source.length(),
            Opened::Target(_) => unreachable!(),
        }
    }
}

impl<F: Read> Opened<F> {
    ghost use Rattle.frame_outside.specs.Opened.{is_written, seen_of};

    /// The next bytes of a source.
    pub fn take(&mut self, into: &mut [u8]) -> io::Result<usize>
        requires { is_written self.old ≡ false }
        ensures room { IfOk result (λ n. n ≤ length into.new) }
        ensures kept { seen_of self.new ≡ seen_of self.old }
    {
        match self {
            Opened::Source(source) => source.take(into),
            Opened::Target(_) => unreachable!(),
        }
    }
}

impl<F: FileExt> Opened<F> {
    ghost use Rattle.frame_outside.specs.Opened.{is_written};

    /// The bytes of a source from a place on.
    pub fn read_at(&self, at: u64, into: &mut [u8]) -> io::Result<usize>
        requires { is_written self.now ≡ false }
        ensures { IfOk result (λ n. n ≤ length into.new) }
    {
        match self {
            Opened::Source(source) => source.read_at(at, into),
            Opened::Target(_) => unreachable!(),
        }
    }
}

impl<F: Write> Opened<F> {
    ghost use Rattle.frame_outside.specs.Opened.{is_written, seen_of};

    /// Appends the whole piece to a target.
    pub fn put(&mut self, piece: &[u8]) -> io::Result<()>
        requires { is_written self.old ≡ true }
        ensures { seen_of self.new ≡ seen_of self.old }
    {
        match self {
            Opened::Target(target) => target.file.write_all(piece),
            Opened::Source(_) => unreachable!(),
        }
    }
}
