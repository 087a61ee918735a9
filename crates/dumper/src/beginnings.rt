//! What stands before the values of fields, as it was composed for an earlier structure: each name is escaped once.

ghost use Rattle.std.specs.Prelude.{◌≡◌, ◌<◌, ◌++◌, IfSome, OnOk, codes};
ghost use Rattle.dumper.specs.Printed.{escaped};

use crate::escapes::put_escaped;
use std::alloc::{AllocError, Global};

/// What stands before values is kept for the classes below this,
const CLASSES: usize = 64;

/// for so many fields of each, as far as its name has at most so many bytes.
const FIELDS: usize = 32;

const NAME: usize = 32;

/// A name, and what stands before a value of a field of this name.
#[derive(Drop)]
struct Beginning {
    name: Vec<u8>,
    text: Vec<u8>,
    ghost begins: { text.items ≡ codes "  " ++ (escaped name.items ++ codes " = ") },
}

/// What was composed for the fields of each class.
#[derive(Drop)]
pub struct Beginnings {
    alloc: Global,
    slots: Vec<Option<Beginning>>,
}

impl Beginnings {
    /// Nothing yet. Takes no memory.
    pub fn new(alloc: Global) -> Beginnings {
        Beginnings {
            alloc,
            slots: Vec::new(alloc),
        }
    }

    /// Appends what stands before a value of a class's field of this name. Fails only where memory is out.
    #[inline(always)]
    pub fn push(
        &mut self,
        text: &mut Vec<u8>,
        class: u8,
        field: usize,
        name: &[u8],
    ) -> Result<(), AllocError>
        ensures { OnOk result
            (text.new.items ≡ text.old.items ++ (codes "  " ++ (escaped name.now ++ codes " = "))) }
    {
        let class = class as usize;
        if class >= CLASSES || field >= FIELDS || name.len() > NAME {
            return push_begin(text, name);
        }
        let slot = class * FIELDS + field;
        if let Some(begin) = self.find(slot, name) {
            return text.extend_from_slice(begin);
        }
        self.keep(slot, name)?;
        push_begin(text, name)
    }

    /// What a slot has for a name.
    fn find(&self, slot: usize, name: &[u8]) -> Option<&[u8]>
        ensures { IfSome result (λ text. text.now ≡ codes "  " ++ (escaped name.now ++ codes " = ")) }
    {
        match self.slots.get(slot) {
            Some(Some(begin)) => begin.text_for(name),
            _ => None,
        }
    }

    /// Composes what a slot has for a name.
    #[inline(never)]
    fn keep(&mut self, slot: usize, name: &[u8]) -> Result<(), AllocError>
        requires { slot < 2048 }
    {
        let begin = begin_of(self.alloc, name)?;
        for _i in self.slots.len()..slot + 1 {
            self.slots.push(None)?;
        }
        if slot < self.slots.len() {
            self.slots[slot] = Some(begin);
        }
        Ok(())
    }
}

impl Beginning {
    /// The text, where it is that of this name.
    fn text_for(&self, name: &[u8]) -> Option<&[u8]>
        ensures { IfSome result (λ text. text.now ≡ codes "  " ++ (escaped name.now ++ codes " = ")) }
    {
        if self.name.as_slice() == name {
            return Some(self.text.as_slice());
        }
        None
    }
}

/// A name with what stands before a value.
fn begin_of(alloc: Global, name: &[u8]) -> Result<Beginning, AllocError> {
    let name = Vec::from_slice(alloc, name)?;
    let mut text = Vec::new(alloc);
    push_begin(&mut text, name.as_slice())?;
    Ok(Beginning { name, text })
}

/// Appends what stands before a value.
fn push_begin(text: &mut Vec<u8>, name: &[u8]) -> Result<(), AllocError>
    ensures { OnOk result
        (text.new.items ≡ text.old.items ++ (codes "  " ++ (escaped name.now ++ codes " = "))) }
{
    text.extend_from_slice(b"  ")?;
    put_escaped(text, name)?;
    text.extend_from_slice(b" = ")
}
