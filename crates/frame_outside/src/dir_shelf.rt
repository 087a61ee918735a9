//! The shelf of real files. It tells nothing of what they hold: with `StdSink` it is the trusted edge.

mod identity;
mod opened;
mod opening;
mod source;

ghost use Rattle.std.specs.Prelude.{◌≡◌, ◌≤◌, ◌^◌, length, map, [], IfOk, OnOk, OnErr, IsErrOf};
ghost use Rattle.std.specs.Prelude.{None, true, false, max, min, ◌+◌};
ghost use Rattle.frame_outside.specs.Counts.{Rose, next_count, counted_by};
ghost use Rattle.frame_outside.specs.Opened.{is_written};
ghost use Rattle.frame_outside.specs.Shelf.{Outside, Source, Told, IsSource, IsTarget, Opens};
ghost use Rattle.frame_outside.specs.Shelf.{Refuses, Makes, Passes, Gives, HandsOut, GivesFrom};
ghost use Rattle.frame_outside.specs.Shelf.{Writes, WritesPart, reading_at, untold, empty_outside};

use crate::traits::{Failed, Shelf, ShelfError};
use opened::Opened;
use opening::{open_source, open_target};
use std::alloc::Global;
use std::os::fd::AsRawFd;
use std::os::unix::fs::FileExt;
use std::rt::Files;

/// The files of the system. Each name is passed to the system as it stands.
///
/// `target` of a file that a slot reads or writes fails, under whatever name, and so does `source` of a
/// file that a slot writes under another name. What was written may be read again under its own name.
#[derive(Drop)]
pub struct DirShelf<'a, R: Files> {
    rt: &'a R,
    slots: Vec<Opened<R::File>>,
    faults: u64,
    taken: u64,
}

impl<'a, R: Files> DirShelf<'a, R>
where
    R::File: FileExt + AsRawFd,
{
    /// A shelf with no slot given and no fault counted.
    pub fn new(rt: &'a R, alloc: Global) -> Self
        ensures { ⟦<DirShelf<'a, R> as Shelf>⟧.outside result ≡ empty_outside }
    {
        DirShelf {
            rt,
            slots: Vec::new(alloc),
            faults: 0,
            taken: 0,
        }
    }

    /// Counts a fault of the system.
    fn fault(&mut self) -> Failed
        ensures faults { self.new.faults ≡ next_count self.old.faults }
        ensures taken { self.new.taken ≡ self.old.taken }
        ensures slots { self.new.slots ≡ self.old.slots }
    {
        self.faults = self.faults.saturating_add(1);
        Failed
    }

    /// Counts bytes that were handed out.
    fn hand_out(&mut self, count: usize)
        ensures faults { self.new.faults ≡ self.old.faults }
        ensures taken { self.new.taken ≡ counted_by self.old.taken count }
        ensures slots { self.new.slots ≡ self.old.slots }
    {
        self.taken = self.taken.saturating_add(count as u64);
    }
}

impl<R: Files> Shelf for DirShelf<'_, R>
where
    R::File: FileExt + AsRawFd,
{
    ghost outside = { λ shelf. untold is_written shelf.faults shelf.taken shelf.slots.items };

    /// `Failed` where the system does not open the file, or a slot writes it.
    fn source(&mut self, _alloc: Global, name: &str) -> Result<u32, ShelfError> {
        let (Ok(slot), Ok(opened)) = (
            u32::try_from(self.slots.len()),
            open_source(self.rt, &mut self.slots, name),
        ) else {
            self.fault();
            return Err(ShelfError::Failed);
        };
        if self.slots.push(opened).is_err() {
            return Err(ShelfError::NoMemory);
        }
        Ok(slot)
    }

    /// `Failed` where the system does not read.
    fn take(&mut self, slot: u32, into: &mut [u8]) -> Result<usize, Failed> {
        match self.slots[slot as usize].take(into) {
            Ok(count) => {
                self.hand_out(count);
                Ok(count)
            }
            Err(_) => Err(self.fault()),
        }
    }

    /// `Failed` where the file has no length, as a pipe and a device.
    fn size(&mut self, slot: u32) -> Result<u64, Failed> {
        match self.slots[slot as usize].length() {
            Some(length) => Ok(length),
            None => Err(self.fault()),
        }
    }

    /// `Failed` where the system does not read, or reads from no place, as of a pipe.
    fn read_at(&mut self, slot: u32, at: u64, into: &mut [u8]) -> Result<usize, Failed> {
        match self.slots[slot as usize].read_at(at, into) {
            Ok(count) => {
                self.hand_out(count);
                Ok(count)
            }
            Err(_) => Err(self.fault()),
        }
    }

    /// `Failed` where the system does not make or empty the file, or a slot has it open.
    fn target(&mut self, alloc: Global, name: &str) -> Result<u32, ShelfError> {
        let Ok(slot) = u32::try_from(self.slots.len()) else {
            self.fault();
            return Err(ShelfError::Failed);
        };
        // No file is emptied where there is no memory for its slot.
        let Ok(name) = String::from_str(alloc, name) else {
            return Err(ShelfError::NoMemory);
        };
        if self.slots.reserve(1).is_err() {
            return Err(ShelfError::NoMemory);
        }
        let Ok(opened) = open_target(self.rt, &mut self.slots, name) else {
            self.fault();
            return Err(ShelfError::Failed);
        };
        self.slots.push_reserved(opened);
        Ok(slot)
    }

    /// `Failed` where the system does not write, or takes nothing of what is left of the piece.
    fn put(&mut self, _alloc: Global, slot: u32, piece: &[u8]) -> Result<(), ShelfError> {
        match self.slots[slot as usize].put(piece) {
            Ok(()) => Ok(()),
            Err(_) => {
                self.fault();
                Err(ShelfError::Failed)
            }
        }
    }
}
