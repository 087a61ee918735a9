//! The reasons for which a file is not accepted.

ghost use Rattle.std.specs.Prelude.{◌≡◌};
ghost use Rattle.file_grammar.specs.Reason.{number_of, name_of};

/// Why a file is not accepted. Where several reasons hold at one place, the one of the least number
/// is named.
#[derive(Clone, Copy, Debug, PartialEq, Eq)]
pub enum Reason {
    /// The file has fewer bytes than a header.
    CutHeader,
    /// A part of the header is not that of format version 8.
    BadHeader,
    /// The file ends within a structure.
    CutRecord,
    /// A structure's length is below the 14 bytes that each has.
    LengthSmall,
    /// A structure's length, or a record's weight, passes 4,294,967,295.
    RecordLimit,
    /// The weights of a frame's records together pass 4,294,967,295.
    FrameLimit,
    /// A structure's class is not in the dictionary.
    NoLayout,
    /// A structure's layout cannot be read.
    UnreadLayout,
    /// A body has fewer bytes than a field needs.
    BodyShort,
    /// A body has bytes after its fields that are not four.
    BodyLong,
    /// A text's last byte is not zero.
    BadText,
    /// An FrSE belongs to no entry.
    StrayElement,
    /// An entry's class is 0 or above 255.
    ClassRange,
    /// An entry differs from the one that is held for its class.
    Redefined,
    /// An entry's structure name is held for another class.
    NameTwice,
    /// An entry has more than 4,096 elements.
    ElementLimit,
    /// Two records of a frame have one class and instance.
    InstanceTwice,
    /// A frame has a second FrameH.
    FrameHTwice,
    /// A frame ends without a FrameH.
    NoFrameH,
    /// A link leads to no record of its frame.
    LooseLink,
    /// The closing comes while a frame is open.
    OpenFrame,
    /// FrEndOfFile's layout is not one that closes a file.
    BadClosing,
    /// A structure stands after FrTOC that may not.
    AfterTable,
    /// The file ends without an FrEndOfFile.
    NoEnd,
    /// FrEndOfFile tells another number of frames.
    FrameCount,
    /// FrEndOfFile tells another number of bytes.
    ByteCount,
    /// Bytes stand after FrEndOfFile.
    Trailing,
    /// A structure ends beyond 2^62 bytes.
    FileLimit,
    /// A file has more than 1,000,000 frames.
    FramesLimit,
}

impl Reason {
    /// The number of the reason, from 1 to 29.
    pub fn number(self) -> u8
        ensures { result ≡ number_of self }
    {
        self as u8 + 1
    }

    /// The name of the reason.
    pub fn name(self) -> &'static str
        ensures { result.now ≡ name_of self }
    {
        match self {
            Reason::CutHeader => "CutHeader",
            Reason::BadHeader => "BadHeader",
            Reason::CutRecord => "CutRecord",
            Reason::LengthSmall => "LengthSmall",
            Reason::RecordLimit => "RecordLimit",
            Reason::FrameLimit => "FrameLimit",
            Reason::NoLayout => "NoLayout",
            Reason::UnreadLayout => "UnreadLayout",
            Reason::BodyShort => "BodyShort",
            Reason::BodyLong => "BodyLong",
            Reason::BadText => "BadText",
            Reason::StrayElement => "StrayElement",
            Reason::ClassRange => "ClassRange",
            Reason::Redefined => "Redefined",
            Reason::NameTwice => "NameTwice",
            Reason::ElementLimit => "ElementLimit",
            Reason::InstanceTwice => "InstanceTwice",
            Reason::FrameHTwice => "FrameHTwice",
            Reason::NoFrameH => "NoFrameH",
            Reason::LooseLink => "LooseLink",
            Reason::OpenFrame => "OpenFrame",
            Reason::BadClosing => "BadClosing",
            Reason::AfterTable => "AfterTable",
            Reason::NoEnd => "NoEnd",
            Reason::FrameCount => "FrameCount",
            Reason::ByteCount => "ByteCount",
            Reason::Trailing => "Trailing",
            Reason::FileLimit => "FileLimit",
            Reason::FramesLimit => "FramesLimit",
        }
    }
}
