//! The source of a file's structures.

ghost use Rattle.std.specs.Prelude.{◌≡◌, ℕ, ◌+◌, ◌-◌, ◌^◌, ◌<◌, ◌≤◌, [], min, length, take, drop};
ghost use Rattle.std.specs.Prelude.{IfOk, OnErr, IsErrOf};
ghost use Rattle.frame_outside.specs.Counts.{Rose};
ghost use Rattle.frame_outside.specs.Shelf.{Told, IsSource, reading_at};
ghost use Rattle.structure_source.specs.Source.{Stands, GoesOn, IsBounded, IsHead, PassesHead, PassesNext};
ghost use Rattle.structure_source.specs.Source.{Appends, Brings, left_at};

use frame_head::{Common, HEAD_SIZE, read_common};
use frame_outside::{Failed, Shelf, ShelfError, SlotReader};
use link_graph::Segment;
use scalar_types::Order;
use std::alloc::{AllocError, Global};
use std::marker::Model;

/// What stands at a place, as far as its first 14 bytes tell it.
#[derive(Clone, Copy, Debug, PartialEq, Eq)]
pub enum Head {
    /// Nothing: the end of the file.
    End,
    /// The file ends within the 14 bytes.
    Cut,
    Whole(Common),
}

/// The source of a file's structures: a file that is read through a slot from its beginning on, one pass
/// over it.
///
/// Every call with a shelf is to be given the shelf whose slot this is. The shelf is asked only where no
/// byte is ahead, for at most 65,536 bytes. After every answer, an error too, the source stands at the
/// place after the bytes that it passed, what it has drawn is known exactly, and it can be called again.
#[derive(Drop)]
pub struct StructureSource {
    reader: SlotReader,
    /// The place, in bytes from the beginning of the file.
    at: u64,
}

impl Model for StructureSource {
    ghost use Rattle.structure_source.specs.Source.{Position};

    ghost Value = { Position };

    ghost view = { λ s. record { slot = s.reader.slot; ahead = s.reader.ahead; at = s.at } };
}

impl StructureSource {
    /// A source at the beginning of the file of a slot that has given nothing yet. Nothing is drawn.
    pub fn new(alloc: Global, slot: u32) -> Result<StructureSource, AllocError>
        ensures { IfOk result (λ source. source ≡ record { slot = slot; ahead = []; at = 0 }) }
    {
        Ok(StructureSource {
            reader: SlotReader::new(alloc, slot)?,
            at: 0,
        })
    }

    /// The place, in bytes from the beginning of the file.
    pub fn place(&self) -> u64
        ensures { result ≡ self.now.at }
    {
        self.at
    }

    /// Passes the 14 bytes at the place, or those that are there, and answers what they tell.
    pub fn head<S: Shelf>(&mut self, shelf: &mut S, order: Order) -> Result<Head, Failed>
        requires stands { Stands (S.outside shelf.old) self.old }
        requires low { self.old.at < 2 ^ 63 }
        ensures head { IfOk result (λ head. Told (reading_at (S.outside shelf.old).slots self.old.slot)
            (λ reading. IsHead order reading.opened self.old.at head)) }
        ensures passes { IfOk result (λ head. PassesHead head self.old.at self.new.at) }
        ensures within { self.new.at ≤ self.old.at + 14 }
        ensures stands { Stands (S.outside shelf.new) self.new }
        ensures on { GoesOn (S.outside shelf.old) (S.outside shelf.new) self.old self.new }
        ensures bounded { IsBounded self.old 14 self.new }
        ensures failed { OnErr result (Rose (S.outside shelf.old).faults (S.outside shelf.new).faults) }
    {
        let mut head = [0; HEAD_SIZE];
        let read = self.fill(shelf, &mut head)?;
        if read == 0 {
            Ok(Head::End)
        } else if read < HEAD_SIZE {
            Ok(Head::Cut)
        } else {
            Ok(Head::Whole(read_common(order, &head)))
        }
    }

    /// Fills `into` as far as there are bytes, and answers how many: fewer than it has room for only at the
    /// end of the file. Nothing is said of the rest of `into`, and after `Failed` nothing of it at all.
    #[inline(always)]
    pub fn fill<S: Shelf>(&mut self, shelf: &mut S, into: &mut [u8]) -> Result<usize, Failed>
        requires stands { Stands (S.outside shelf.old) self.old }
        requires low { self.old.at + length into.old < 2 ^ 64 }
        ensures count { IfOk result (λ n. Told (reading_at (S.outside shelf.old).slots self.old.slot)
            (λ reading. n ≡ min (length into.new) (left_at reading.opened self.old.at))) }
        ensures filled { IfOk result (λ n. Told (reading_at (S.outside shelf.old).slots self.old.slot)
            (λ reading. take n into.new ≡ take n (drop self.old.at reading.opened))) }
        ensures room { IfOk result (λ n. n ≤ length into.new) }
        ensures moved { IfOk result (λ n. self.new.at ≡ self.old.at + n) }
        ensures within { self.new.at ≤ self.old.at + length into.old }
        ensures stands { Stands (S.outside shelf.new) self.new }
        ensures on { GoesOn (S.outside shelf.old) (S.outside shelf.new) self.old self.new }
        ensures bounded { IsBounded self.old (length into.old) self.new }
        ensures failed { OnErr result (Rose (S.outside shelf.old).faults (S.outside shelf.new).faults) }
    {
        if into.len() <= self.reader.ahead().len() {
            return Ok(self.give(into));
        }
        let mut filled = 0;
        while filled < into.len() {
            let count = self.ready(shelf, into.len() - filled)?;
            if count == 0 {
                return Ok(filled);
            }
            into[filled..filled + count].copy_from_slice(&self.reader.ahead()[..count]);
            self.pass(count);
            filled += count;
        }
        Ok(filled)
    }

    /// Puts the next n bytes at the end of a segment's pending body, in pieces of at most 65,536 bytes,
    /// each reserved before it is put, and answers whether there are so many. After every answer, an error
    /// too, exactly the bytes that were passed are put: where it is `false`, all that were left in the
    /// file.
    ///
    /// What the segment was given and n more are at most 4,294,967,295 bytes.
    #[inline(always)]
    pub fn bring_body<S: Shelf>(
        &mut self,
        shelf: &mut S,
        segment: &mut Segment,
        n: u32,
    ) -> Result<bool, ShelfError>
        requires stands { Stands (S.outside shelf.old) self.old }
        requires low { self.old.at < 2 ^ 63 }
        requires room { segment.old.given + n ≤ 4294967295 }
        ensures passes { IfOk result (λ whole.
            PassesNext (reading_at (S.outside shelf.old).slots self.old.slot) self.old self.new n whole) }
        ensures within { self.new.at ≤ self.old.at + n }
        ensures brings { Brings (reading_at (S.outside shelf.old).slots self.old.slot) self.old self.new
            segment.old segment.new }
        ensures stands { Stands (S.outside shelf.new) self.new }
        ensures on { GoesOn (S.outside shelf.old) (S.outside shelf.new) self.old self.new }
        ensures bounded { IsBounded self.old n self.new }
        ensures failed { IsErrOf result ShelfError.Failed
            → Rose (S.outside shelf.old).faults (S.outside shelf.new).faults }
    {
        let mut left = n as usize;
        while left > 0 {
            let count = match self.ready(shelf, left) {
                Ok(0) => return Ok(false),
                Ok(count) => count,
                Err(Failed) => return Err(ShelfError::Failed),
            };
            if segment.room(count as u32).is_err() {
                return Err(ShelfError::NoMemory);
            }
            segment.piece(&self.reader.ahead()[..count]);
            self.pass(count);
            left -= count;
        }
        Ok(true)
    }

    /// Appends the next n bytes to a list, in pieces of at most 65,536 bytes, each reserved before it is
    /// put, and answers whether there are so many. After every answer, an error too, exactly the bytes that
    /// were passed are appended: where it is `false`, all that were left in the file.
    pub fn bring_bytes<S: Shelf>(
        &mut self,
        shelf: &mut S,
        bytes: &mut Vec<u8>,
        n: u32,
    ) -> Result<bool, ShelfError>
        requires stands { Stands (S.outside shelf.old) self.old }
        requires low { self.old.at < 2 ^ 63 }
        ensures passes { IfOk result (λ whole.
            PassesNext (reading_at (S.outside shelf.old).slots self.old.slot) self.old self.new n whole) }
        ensures within { self.new.at ≤ self.old.at + n }
        ensures appends { Appends (reading_at (S.outside shelf.old).slots self.old.slot) self.old self.new
            bytes.old.items bytes.new.items }
        ensures stands { Stands (S.outside shelf.new) self.new }
        ensures on { GoesOn (S.outside shelf.old) (S.outside shelf.new) self.old self.new }
        ensures bounded { IsBounded self.old n self.new }
        ensures failed { IsErrOf result ShelfError.Failed
            → Rose (S.outside shelf.old).faults (S.outside shelf.new).faults }
    {
        let mut left = n as usize;
        while left > 0 {
            let count = match self.ready(shelf, left) {
                Ok(0) => return Ok(false),
                Ok(count) => count,
                Err(Failed) => return Err(ShelfError::Failed),
            };
            if bytes
                .extend_from_slice(&self.reader.ahead()[..count])
                .is_err()
            {
                return Err(ShelfError::NoMemory);
            }
            self.pass(count);
            left -= count;
        }
        Ok(true)
    }

    /// Passes over the next n bytes, and answers whether there are so many. Where it is `false`, all that
    /// were left in the file were passed.
    pub fn skip<S: Shelf>(&mut self, shelf: &mut S, n: u32) -> Result<bool, Failed>
        requires stands { Stands (S.outside shelf.old) self.old }
        requires low { self.old.at < 2 ^ 63 }
        ensures passes { IfOk result (λ whole.
            PassesNext (reading_at (S.outside shelf.old).slots self.old.slot) self.old self.new n whole) }
        ensures within { self.new.at ≤ self.old.at + n }
        ensures stands { Stands (S.outside shelf.new) self.new }
        ensures on { GoesOn (S.outside shelf.old) (S.outside shelf.new) self.old self.new }
        ensures bounded { IsBounded self.old n self.new }
        ensures failed { OnErr result (Rose (S.outside shelf.old).faults (S.outside shelf.new).faults) }
    {
        let mut left = n as usize;
        while left > 0 {
            let count = self.ready(shelf, left)?;
            if count == 0 {
                return Ok(false);
            }
            self.pass(count);
            left -= count;
        }
        Ok(true)
    }

    /// How many of the next `most` bytes are ahead, once the shelf was asked where none was: 0 only at the
    /// end of the file.
    fn ready<S: Shelf>(&mut self, shelf: &mut S, most: usize) -> Result<usize, Failed>
        requires stands { Stands (S.outside shelf.old) self.old }
        requires some { 0 < most }
        ensures count { IfOk result (λ count. count ≡ min (length self.new.ahead) most) }
        ensures end { IfOk result (λ count. count ≡ 0
            → Told (reading_at (S.outside shelf.old).slots self.old.slot)
            (λ reading. length reading.opened ≤ self.old.at)) }
        ensures still { self.new.at ≡ self.old.at }
        ensures stands { Stands (S.outside shelf.new) self.new }
        ensures on { GoesOn (S.outside shelf.old) (S.outside shelf.new) self.old self.new }
        ensures bounded { IsBounded self.old 1 self.new }
        ensures failed { OnErr result (Rose (S.outside shelf.old).faults (S.outside shelf.new).faults) }
    {
        let ahead = self.reader.ahead().len();
        if ahead > 0 {
            return Ok(ahead.min(most));
        }
        if !self.reader.has_more(shelf)? {
            return Ok(0);
        }
        Ok(self.reader.ahead().len().min(most))
    }

    /// Fills `into` with bytes that are ahead, and answers how many.
    #[inline(always)]
    fn give(&mut self, into: &mut [u8]) -> usize
        requires ahead { length into.old ≤ length self.old.ahead }
        requires low { self.old.at + length into.old < 2 ^ 64 }
        ensures count { result ≡ length into.old }
        ensures filled { into.new ≡ take (length into.old) self.old.ahead }
        ensures passed { self.new ≡ record {
          slot = self.old.slot;
          ahead = drop (length into.old) self.old.ahead;
          at = self.old.at + length into.old;
        } }
    {
        let count = into.len();
        into.copy_from_slice(&self.reader.ahead()[..count]);
        self.pass(count);
        count
    }

    /// Passes over bytes that are ahead.
    fn pass(&mut self, n: usize)
        requires ahead { n ≤ length self.old.ahead }
        requires low { self.old.at + n < 2 ^ 64 }
        ensures { self.new ≡ record {
          slot = self.old.slot;
          ahead = drop n self.old.ahead;
          at = self.old.at + n;
        } }
    {
        self.reader.consume(n);
        self.at += n as u64;
    }
}
