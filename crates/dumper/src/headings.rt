//! What stands in the first line of a structure between its place and its instance, as it was composed for an earlier
//! structure: each name is escaped once.

ghost use Rattle.std.specs.Prelude.{◌≡◌, ◌++◌, IfSome, OnOk};
ghost use Rattle.dumper.specs.Lines.{class_text};

use crate::escapes::put_escaped;
use crate::numbers::push_decimal;
use std::alloc::{AllocError, Global};

/// It is kept where the name has at most so many bytes.
const NAME: usize = 32;

/// A class and a name, and the text for them.
#[derive(Drop)]
struct Heading {
    class: u8,
    name: Vec<u8>,
    text: Vec<u8>,
    ghost is: { text.items ≡ class_text name.items class },
}

/// What was composed for each class.
#[derive(Drop)]
pub struct Headings {
    alloc: Global,
    classes: Vec<Option<Heading>>,
}

impl Headings {
    /// Nothing yet. Takes no memory.
    pub fn new(alloc: Global) -> Headings {
        Headings {
            alloc,
            classes: Vec::new(alloc),
        }
    }

    /// Appends what stands between place and instance of a structure of this class and name. Fails only where memory is
    /// out.
    pub fn push(&mut self, text: &mut Vec<u8>, class: u8, name: &[u8]) -> Result<(), AllocError>
        ensures { OnOk result (text.new.items ≡ text.old.items ++ class_text name.now class) }
    {
        if let Some(heading) = self.find(class, name) {
            return text.extend_from_slice(heading);
        }
        if name.len() <= NAME {
            self.keep(class, name)?;
        }
        push_heading(text, class, name)
    }

    /// What is kept for a class and a name.
    #[inline(always)]
    fn find(&self, class: u8, name: &[u8]) -> Option<&[u8]>
        ensures { IfSome result (λ text. text.now ≡ class_text name.now class) }
    {
        match self.classes.get(class as usize) {
            Some(Some(heading)) => heading.text_for(class, name),
            _ => None,
        }
    }

    /// Composes what is kept for a class and a name.
    #[inline(never)]
    fn keep(&mut self, class: u8, name: &[u8]) -> Result<(), AllocError> {
        let heading = heading_of(self.alloc, class, name)?;
        let at = class as usize;
        for _i in self.classes.len()..at + 1 {
            self.classes.push(None)?;
        }
        if at < self.classes.len() {
            self.classes[at] = Some(heading);
        }
        Ok(())
    }
}

impl Heading {
    /// The text, where it is that of this class and name.
    fn text_for(&self, class: u8, name: &[u8]) -> Option<&[u8]>
        ensures { IfSome result (λ text. text.now ≡ class_text name.now class) }
    {
        if self.class == class && self.name.as_slice() == name {
            return Some(self.text.as_slice());
        }
        None
    }
}

/// A class and a name with the text for them.
fn heading_of(alloc: Global, class: u8, name: &[u8]) -> Result<Heading, AllocError> {
    let name = Vec::from_slice(alloc, name)?;
    let mut text = Vec::new(alloc);
    push_heading(&mut text, class, name.as_slice())?;
    Ok(Heading { class, name, text })
}

/// Appends the text for a class and a name.
fn push_heading(text: &mut Vec<u8>, class: u8, name: &[u8]) -> Result<(), AllocError>
    ensures { OnOk result (text.new.items ≡ text.old.items ++ class_text name.now class) }
{
    text.push(b' ')?;
    put_escaped(text, name)?;
    text.extend_from_slice(b" class ")?;
    push_decimal(text, class as u64)?;
    text.extend_from_slice(b" instance ")
}
