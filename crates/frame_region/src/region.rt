//! The region. Bytes are reserved first and put then, so that only `reserve` asks for memory.

ghost use Rattle.std.specs.Prelude.{◌≡◌, ◌+◌, ◌-◌, ◌^◌, ◌<◌, ◌≤◌, ◌↔◌, [], ◌++◌, length, OnOk, OnErr};
ghost use Rattle.std.specs.Prelude.{IsErrOf, IsTrue};
ghost use Rattle.frame_region.specs.Region.{most_bytes, with_piece, with_written, overwrite_at};
ghost use Rattle.frame_region.specs.Region.{Held, IsLive, bytes_of, part_of, Gives, AreApart};
ghost use Rattle.frame_region.specs.Region.{KeepsSpans, KeepsBytes, EndsSpans};

use crate::span::Span;
use std::alloc::{AllocError, Global};
use std::marker::Model;
use thiserror::Error;

/// The most bytes that a region holds.
pub const MOST_BYTES: u32 = u32::MAX;

/// Why bytes could not be reserved.
#[derive(Clone, Copy, Debug, PartialEq, Eq, Error)]
pub enum RegionFault {
    /// The region would hold more than `MOST_BYTES`.
    #[error("Full")]
    Full,
    /// There was no memory.
    #[error("NoMemory")]
    NoMemory,
}

impl From<AllocError> for RegionFault {
    ghost use Rattle.std.specs.Prelude.{◌≡◌};
    ghost use Rattle.frame_region.specs.declared.region.RegionFault.TheVariants as fault;

    ghost from_gives = { λ _ result. result ≡ fault.NoMemory };

    fn from(_error: AllocError) -> RegionFault {
        RegionFault::NoMemory
    }
}

/// Bytes one after another, in memory that was reserved before.
///
/// Contracts see the bytes held, the spare, which is how many more may be put before memory is
/// needed, and how often the region was cleared.
#[derive(Drop)]
pub struct Region {
    bytes: Vec<u8>,
    spare: u32,
    clears: u64,
}

impl Model for Region {
    ghost use Rattle.std.specs.Prelude.{◌+◌, ◌≤◌, vec_len};
    ghost use Rattle.std.specs.Vec.{vec_capacity};
    ghost use Rattle.frame_region.specs.Region.{Held, most_bytes};

    ghost Value = { Held };

    ghost view = { λ r. record { bytes = r.bytes.items; spare = r.spare; clears = r.clears } };

    ghost invariant = { λ r. (vec_len r.bytes + r.spare ≤ vec_capacity r.bytes)
        × (vec_len r.bytes + r.spare ≤ most_bytes) };
}

impl Region {
    /// A region that holds nothing. It takes no memory yet.
    pub fn new(alloc: Global) -> Region
        ensures { result ≡ record { bytes = []; spare = 0; clears = 0 } }
    {
        Region {
            bytes: Vec::new(alloc),
            spare: 0,
            clears: 0,
        }
    }

    /// Makes the spare at least n. After a refusal nothing has changed.
    ///
    /// # Errors
    ///
    /// [`RegionFault::Full`] exactly where the bytes held and n more are more than [`MOST_BYTES`].
    pub fn reserve(&mut self, n: u32) -> Result<(), RegionFault>
        ensures full { IsErrOf result RegionFault.Full ↔ (most_bytes < length self.old.bytes + n) }
        ensures ok { OnOk result (n ≤ self.new.spare) }
        ensures kept { KeepsBytes self.old self.new }
        ensures spare { self.old.spare ≤ self.new.spare }
        ensures err { OnErr result (self.new ≡ self.old) }
    {
        if n <= self.spare {
            return Ok(());
        }
        let held = self.held();
        if n > MOST_BYTES - held {
            return Err(RegionFault::Full);
        }
        self.bytes.reserve(n as usize)?;
        let room = self.bytes.capacity().min(MOST_BYTES as usize);
        self.spare = room as u32 - held;
        Ok(())
    }

    /// Puts a piece that is not longer than the spare after the bytes held. It takes no memory.
    pub fn put(&mut self, piece: &[u8]) -> Span
        requires { length piece.now ≤ self.old.spare }
        ensures after { self.new ≡ with_piece self.old piece.now }
        ensures span { result ≡ record {
          at = length self.old.bytes;
          length = length piece.now;
          era = self.old.clears;
        } }
        ensures gives { Gives self.new result piece.now }
        ensures keeps { KeepsSpans self.old self.new }
    {
        let at = self.held();
        let length = self.append(piece);
        Span {
            at,
            length,
            era: self.clears,
        }
    }

    /// Puts a piece that is not longer than the spare behind a live span that ends where the bytes held
    /// end, and answers the longer span. The old one still names its part. It takes no memory.
    pub fn extend(&mut self, span: Span, piece: &[u8]) -> Span
        requires room { length piece.now ≤ self.old.spare }
        requires live { IsLive self.old span }
        requires last { span.at + span.length ≡ length self.old.bytes }
        ensures after { self.new ≡ with_piece self.old piece.now }
        ensures span { result ≡ record {
          at = span.at;
          length = span.length + length piece.now;
          era = span.era;
        } }
        ensures gives { Gives self.new result (bytes_of self.old span ++ piece.now) }
        ensures keeps { KeepsSpans self.old self.new }
    {
        let length = self.append(piece);
        Span {
            length: span.length + length,
            ..span
        }
    }

    /// The bytes that were given to a live span, as `write` has changed them since. It takes no memory.
    pub fn at(&self, span: Span) -> &[u8]
        requires { IsLive self.now span }
        ensures bytes { result.now ≡ bytes_of self.now span }
        ensures few { length result.now ≤ most_bytes }
    {
        let from = span.at as usize;
        &self.bytes[from..from + span.length as usize]
    }

    /// Writes a piece over bytes of a live span, from a place in it on. All spans stay live, and those
    /// apart from the bytes written name what they named. It takes no memory.
    pub fn write(&mut self, span: Span, at: u32, piece: &[u8])
        requires live { IsLive self.old span }
        requires within { at + length piece.now ≤ span.length }
        ensures after { self.new ≡ with_written self.old (span.at + at) piece.now }
        ensures gives { Gives self.new span (overwrite_at at piece.now (bytes_of self.old span)) }
        ensures live { (other : Span) → IsLive self.old other → IsLive self.new other }
        ensures others { (other : Span) → IsLive self.old other
            → AreApart (part_of span at (length piece.now)) other
            → bytes_of self.new other ≡ bytes_of self.old other }
    {
        self.overwrite(span.at as usize + at as usize, piece);
    }

    /// Whether a span is live: its era is the present one, and its bytes are held. It takes no memory.
    pub fn holds(&self, span: Span) -> bool
        ensures { IsTrue result ↔ IsLive self.now span }
    {
        span.era == self.clears && span.at as usize + span.length as usize <= self.bytes.len()
    }

    /// The bytes held.
    pub fn held(&self) -> u32
        ensures { result ≡ length self.now.bytes }
    {
        self.bytes.len() as u32
    }

    /// How many bytes may be put before memory is needed.
    pub fn spare(&self) -> u32
        ensures { result ≡ self.now.spare }
    {
        self.spare
    }

    /// How often the region was cleared.
    pub fn clears(&self) -> u64
        ensures { result ≡ self.now.clears }
    {
        self.clears
    }

    /// Holds nothing any more, and ends all spans. What was held is spare. Fewer than 2^64 - 1 clears
    /// came before. It takes no memory.
    pub fn clear(&mut self)
        requires { self.old.clears < 2 ^ 64 - 1 }
        ensures after { self.new ≡ record {
          bytes = [];
          spare = length self.old.bytes + self.old.spare;
          clears = self.old.clears + 1;
        } }
        ensures ends { EndsSpans self.old self.new }
    {
        self.spare += self.held();
        self.bytes.clear();
        self.clears += 1;
    }

    /// Puts a piece after the bytes held, and answers its length. The vector has room for it, so it takes
    /// no memory.
    fn append(&mut self, piece: &[u8]) -> u32
        requires { length piece.now ≤ self.old.spare }
        ensures after { self.new ≡ with_piece self.old piece.now }
        ensures length { result ≡ length piece.now }
        ensures within { length self.new.bytes ≤ most_bytes }
    {
        let spare = self.spare;
        let length = piece.len() as u32;
        match self.bytes.extend_from_slice(piece) {
            Ok(()) => self.spare = spare - length,
            Err(_) => unreachable!(),
        }
        length
    }

    /// Writes a piece over the bytes held from a place on.
    fn overwrite(&mut self, from: usize, piece: &[u8])
        requires { from + length piece.now ≤ length self.old.bytes }
        ensures { self.new ≡ with_written self.old from piece.now }
    {
        let bytes = self.bytes.as_mut_slice();
        let to = from + piece.len();
        bytes[from..to].copy_from_slice(piece);
    }
}
