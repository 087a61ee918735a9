//! The numbers of links, each found in at most thirteen steps whatever links there are.

ghost use Rattle.std.specs.Prelude.{◌≡◌, ◌<◌, ◌*◌, ◌+◌, ◌↔◌, [], ◌++◌, ◌∷◌, None, Some, OnOk, OnErr, IsErrOf};
ghost use Rattle.std.specs.Prelude.{IsSome, length};
ghost use Rattle.link_graph.specs.Index.{IsForward, digits_of, is_link, place_in, spot_of};

use std::alloc::Global;
use std::marker::Model;
use type_text::Link;

/// How many links may hang below one, by a digit.
const WIDTH: usize = 16;

/// Why a link is not put.
#[derive(Clone, Copy, Debug, PartialEq, Eq)]
pub enum PushFault {
    /// It has a number.
    Taken,
    /// There was no memory.
    NoMemory,
}

/// Where the walk to a link ends.
#[derive(Clone, Copy)]
enum Spot {
    /// At the number of the link.
    Taken(u32),
    /// At a place where nothing hangs.
    Free(usize),
}

/// Links, of which no two are the same, numbered in the order in which they came. Contracts see them in it.
///
/// The first link is the root of a tree. A walk to a link goes from there down to the one that hangs by its
/// next digit of four bits, lowest first, until it comes to the link. Two links have at most twelve digits in
/// common, so no file makes a walk long.
#[derive(Drop)]
pub struct Index {
    links: Vec<Link>,
    /// Of one link after another by digit, the number of the link that hangs there: 0 where none does, since
    /// the first hangs nowhere.
    children: Vec<u32>,
}

impl Model for Index {
    ghost use Rattle.std.specs.Prelude.{List};
    ghost use Rattle.type_text.specs.declared.types.Link.{Link};

    ghost Value = { List Link };

    ghost use Rattle.link_graph.specs.Index.{AreReached};

    ghost view = { λ i. i.links.items };

    ghost invariant = { λ i. AreReached i.links.items i.children.items };
}

impl Index {
    /// No link. It takes no memory yet.
    pub fn new(alloc: Global) -> Index
        ensures { result ≡ [] }
    {
        Index {
            links: Vec::new(alloc),
            children: Vec::new(alloc),
        }
    }

    /// The number of a link. The one after the number that is `near` is tried first, and the one found is
    /// near from then on.
    pub fn number(&self, to: Link, near: &mut u32) -> Option<u32>
        ensures { result ≡ place_in self.now to }
    {
        let next = *near as usize + 1;
        if next < self.links.len() && is_link(to, self.links[next]) {
            *near = next as u32;
            return Some(*near);
        }
        match spot_of(self.links.as_slice(), self.children.as_slice(), to) {
            Spot::Taken(number) => {
                *near = number;
                Some(number)
            }
            Spot::Free(_) => None,
        }
    }

    /// Puts a link behind the others, which are fewer than 4,294,967,295. After a refusal nothing has
    /// changed.
    ///
    /// # Errors
    ///
    /// [`PushFault::Taken`] exactly where the link is one of them.
    pub fn push(&mut self, link: Link) -> Result<(), PushFault>
        requires { length self.old < 4294967295 }
        ensures taken { IsErrOf result PushFault.Taken ↔ IsSome (place_in self.old link) }
        ensures ok { OnOk result (self.new ≡ self.old ++ link ∷ []) }
        ensures err { OnErr result (self.new ≡ self.old) }
    {
        let Spot::Free(place) = spot_of(self.links.as_slice(), self.children.as_slice(), link)
        else {
            return Err(PushFault::Taken);
        };
        let number = self.links.len();
        let count = self.children.len();
        if self.children.extend_from_slice(&[0; WIDTH]).is_err() {
            return Err(PushFault::NoMemory);
        }
        if self.links.push(link).is_err() {
            self.children.truncate(count);
            return Err(PushFault::NoMemory);
        }
        if number > 0 {
            self.children[place] = number as u32;
        }
        Ok(())
    }

    /// Leaves no link. It takes time by how many there were.
    pub fn clear(&mut self)
        ensures { self.new ≡ [] }
    {
        self.links.clear();
        self.children.clear();
    }
}

/// Where the walk to a link ends.
fn spot_of(links: &[Link], children: &[u32], to: Link) -> Spot
    requires size { length children.now ≡ length links.now * 16 }
    requires forward { IsForward (length links.now) children.now }
    ensures { result ≡ spot_of links.now children.now to }
{
    if links.is_empty() {
        return Spot::Free(0);
    }
    let mut number = 0;
    let mut digits = digits_of(to);
    while !is_link(to, links[number as usize]) {
        let place = number as usize * WIDTH + (digits % 16) as usize;
        number = children[place];
        if number == 0 {
            return Spot::Free(place);
        }
        digits /= 16;
    }
    Spot::Taken(number)
}

/// The digits of a link as one number: those of its instance, and above them those of its class.
fn digits_of(link: Link) -> u64
    ensures { result ≡ digits_of link }
{
    u64::from(link.class) * 0x1_0000_0000 + u64::from(link.instance)
}

/// Whether two links are the same.
fn is_link(link: Link, other: Link) -> bool
    ensures { result ≡ is_link link other }
{
    other.instance == link.instance && other.class == link.class
}
