//! The structures that have a part of their own in a file.

ghost use Rattle.std.specs.Prelude.{◌≡◌};
ghost use Rattle.file_grammar.specs.Kind.{kind_named, kind_of};

use dictionary::Dictionary;

/// What a structure is to the file that it stands in.
#[derive(Clone, Copy, Debug, PartialEq, Eq)]
pub enum Kind {
    /// Class 1: the beginning of a dictionary entry.
    FrSH,
    /// Class 2: an element of a dictionary entry.
    FrSE,
    /// The record that each frame has once.
    FrameH,
    /// The record that ends a frame.
    FrEndOfFrame,
    /// The contents table.
    FrTOC,
    /// The end of the file.
    FrEndOfFile,
    /// Any other record of a frame.
    Other,
}

/// The kind of a class by the dictionary. A class that is not held is `Other`.
pub fn kind_of(dictionary: &Dictionary, class: u8) -> Kind
    ensures { result ≡ kind_of dictionary.now class }
{
    match class {
        1 => Kind::FrSH,
        2 => Kind::FrSE,
        _ => match dictionary.get(class) {
            Some(entry) => kind_named(entry.name.bytes()),
            None => Kind::Other,
        },
    }
}

fn kind_named(name: &[u8]) -> Kind
    ensures { result ≡ kind_named name.now }
{
    if name == b"FrameH".as_slice() {
        Kind::FrameH
    } else if name == b"FrEndOfFrame".as_slice() {
        Kind::FrEndOfFrame
    } else if name == b"FrTOC".as_slice() {
        Kind::FrTOC
    } else if name == b"FrEndOfFile".as_slice() {
        Kind::FrEndOfFile
    } else {
        Kind::Other
    }
}
