//! A place in a body, from which items are taken one after another.

ghost use Rattle.std.specs.Prelude.{◌≡◌, ◌<◌, ◌^◌, ◌-◌, length, IfOk};
ghost use Rattle.scalar_types.specs.Number.{size_of};
ghost use Rattle.layout_plan.specs.Reading.{number_in, pair_in, text_in, link_in, bytes_in};
ghost use Rattle.record_reader.specs.Takes.{Takes, TakesOrStops};

use layout_plan::BodyReason;
use scalar_types::{Order, Width, read_num};
use std::alloc::{AllocError, Global};
use std::marker::Model;
use type_text::{Link, Name};

/// Why a value was not read.
#[derive(Clone, Copy)]
pub enum Stop {
    /// The bytes do not spell it.
    At(BodyReason),
    NoMemory,
}

impl From<BodyReason> for Stop {
    ghost use Rattle.record_reader.specs.declared.cursor.Stop.TheVariants as stop;

    ghost from_gives = { λ reason error. error ≡ stop.At reason };

    fn from(reason: BodyReason) -> Stop {
        Stop::At(reason)
    }
}

impl From<AllocError> for Stop {
    ghost use Rattle.record_reader.specs.declared.cursor.Stop.TheVariants as stop;

    ghost from_gives = { λ _ error. error ≡ stop.NoMemory };

    fn from(_error: AllocError) -> Stop {
        Stop::NoMemory
    }
}

/// The bytes that are left of a body.
#[derive(Drop)]
pub struct Cursor<'a> {
    rest: &'a [u8],
}

impl<'a> Model for Cursor<'a> {
    ghost use Rattle.std.specs.Prelude.{List, ℕ};

    ghost Value = { List ℕ };

    ghost view = { λ cursor. cursor.rest.now };
}

impl<'a> Cursor<'a> {
    pub fn new(body: &'a [u8]) -> Self
        ensures { result ≡ body.now }
    {
        Cursor { rest: body }
    }

    /// How many bytes are left.
    pub fn left(&self) -> usize
        ensures left { result ≡ length self.now }
        ensures fits { result < 2 ^ 64 - 1 }
    {
        self.rest.len()
    }

    /// A number of a width.
    pub fn number(&mut self, order: Order, width: Width) -> Result<u64, BodyReason>
        ensures takes { Takes (number_in order width self.old) result self.new }
        ensures fits { IfOk result (λ n. n < 256 ^ size_of width) }
    {
        let rest = self.rest;
        if rest.len() < width.size() {
            return Err(BodyReason::BodyShort);
        }
        self.rest = &rest[width.size()..];
        Ok(read_num(order, width, rest))
    }

    /// A pair of numbers.
    pub fn pair(&mut self, order: Order, width: Width) -> Result<(u64, u64), BodyReason>
        ensures { Takes (pair_in order width self.old) result self.new }
    {
        let first = self.number(order, width)?;
        let second = self.number(order, width)?;
        Ok((first, second))
    }

    /// A link: its class, then its instance.
    pub fn link(&mut self, order: Order) -> Result<Link, BodyReason>
        ensures { Takes (link_in order self.old) result self.new }
    {
        let class = self.number(order, Width::Two)?;
        let instance = self.number(order, Width::Four)?;
        Ok(Link {
            class: class as u16,
            instance: instance as u32,
        })
    }

    /// A text, without its closing zero byte.
    pub fn text(&mut self, alloc: Global, order: Order) -> Result<Name, Stop>
        ensures { TakesOrStops (text_in order self.old) result self.new }
    {
        let length = self.number(order, Width::Two)? as usize;
        let rest = self.rest;
        if length == 0 {
            return Ok(Name::new(alloc, &[])?);
        }
        if rest.len() < length {
            return Err(Stop::At(BodyReason::BodyShort));
        }
        if rest[length - 1] != 0 {
            return Err(Stop::At(BodyReason::BadText));
        }
        let text = Name::new(alloc, &rest[..length - 1])?;
        self.rest = &rest[length..];
        Ok(text)
    }

    /// So many bytes.
    pub fn bytes(&mut self, alloc: Global, count: usize) -> Result<Name, Stop>
        ensures { TakesOrStops (bytes_in count self.old) result self.new }
    {
        let rest = self.rest;
        if rest.len() < count {
            return Err(Stop::At(BodyReason::BodyShort));
        }
        let bytes = Name::new(alloc, &rest[..count])?;
        self.rest = &rest[count..];
        Ok(bytes)
    }
}
