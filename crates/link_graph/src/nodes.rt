//! The records of a frame, without their bodies.

ghost use Rattle.std.specs.Prelude.{◌≡◌};
ghost use Rattle.link_graph.specs.Collected.{link_to, same_root};

use frame_region::Span;
use type_text::Link;

/// Whether a record is a root of its frame, and which: its head, or one of its static data.
#[derive(Clone, Copy, Debug, PartialEq, Eq)]
pub enum Root {
    No,
    Head,
    Stat,
}

/// A record: its place in bytes from the beginning of the file, its class, its instance, and whether it is
/// a root.
#[derive(Clone, Copy, Debug, PartialEq, Eq)]
pub struct Node {
    pub at: u64,
    pub class: u8,
    pub instance: u32,
    pub root: Root,
}

/// A record, and where its body stands.
#[derive(Clone, Copy)]
pub struct Kept {
    pub node: Node,
    pub span: Span,
}

/// The link that leads to a record.
pub fn link_to(node: Node) -> Link
    ensures { result ≡ link_to node }
{
    Link {
        class: u16::from(node.class),
        instance: node.instance,
    }
}

/// Whether two are the same.
pub fn is_same(root: Root, other: Root) -> bool
    ensures { result ≡ same_root root other }
{
    match root {
        Root::No => matches!(other, Root::No),
        Root::Head => matches!(other, Root::Head),
        Root::Stat => matches!(other, Root::Stat),
    }
}
