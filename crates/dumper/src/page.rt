//! Text on its way to a sink: it is composed on a page, and put in pieces of about 65,536 bytes.

ghost use Rattle.std.specs.Prelude.{◌≡◌, [], Err, OnOk, OnErr};
ghost use Rattle.frame_outside.specs.Sink.{Output};
ghost use Rattle.dumper.specs.Page.{pending, Prints};

use crate::beginnings::Beginnings;
use crate::headings::Headings;
use frame_outside::{ShelfError, Sink};
use std::alloc::{AllocError, Global};

/// From so many bytes on what is pending is put.
const FULL: usize = 65_536;

/// Text that the sink has not got yet.
#[derive(Drop)]
pub struct Page {
    pub alloc: Global,
    pub text: Vec<u8>,
    /// What stands before the values of fields.
    pub beginnings: Beginnings,
    /// What stands in first lines of structures.
    pub headings: Headings,
    /// Room for the numbers that the fields of a body are.
    pub numbers: Vec<u64>,
}

impl Page {
    /// A page with no text. Takes no memory.
    pub fn new(alloc: Global) -> Page
        ensures { pending result ≡ [] }
    {
        Page {
            alloc,
            text: Vec::new(alloc),
            beginnings: Beginnings::new(alloc),
            headings: Headings::new(alloc),
            numbers: Vec::new(alloc),
        }
    }

    /// Goes on after more text was composed: puts what is pending, where it is much. `NoMemory` where the text was not
    /// composed; else as `flush`.
    pub fn settle<O: Sink>(
        &mut self,
        out: &mut O,
        composed: Result<(), AllocError>,
    ) -> Result<(), ShelfError>
        ensures composed { OnOk composed (Prints (O.output out.old) (O.output out.new) self.old self.new [] result) }
        ensures refused { OnErr composed ((result ≡ Err ShelfError.NoMemory) × (O.output out.new ≡ O.output out.old)) }
    {
        if composed.is_err() {
            return Err(ShelfError::NoMemory);
        }
        if self.text.len() < FULL {
            return Ok(());
        }
        self.flush(out)
    }

    /// Puts what is pending. `Failed` where the sink fails, and `NoMemory` where it has no memory: the text stays then.
    pub fn flush<O: Sink>(&mut self, out: &mut O) -> Result<(), ShelfError>
        ensures put { Prints (O.output out.old) (O.output out.new) self.old self.new [] result }
        ensures empty { OnOk result (pending self.new ≡ []) }
    {
        if !self.text.is_empty() {
            out.put(self.alloc, self.text.as_slice())?;
            self.text.clear();
        }
        Ok(())
    }
}
