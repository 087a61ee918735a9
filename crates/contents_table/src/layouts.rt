//! Where the layouts of a dictionary have the links to channels, and the names of channels.

ghost use Rattle.std.specs.Prelude.{◌≡◌, ◌≤◌, ℕ, List, length, IfSome, IsSomeAnd};
ghost use Rattle.std.specs.Option.{option_map};
ghost use Rattle.dictionary.specs.declared.entries.Entry.{Entry};
ghost use Rattle.dictionary.specs.Dictionary.{IsDictionary};
ghost use Rattle.link_graph.specs.Collected.{Collected};
ghost use Rattle.link_graph.specs.Graph.{Layouts};
ghost use Rattle.contents_table.specs.Layouts.{layouts_of, list_of, list_in, head_in, elements_named};
ghost use Rattle.contents_table.specs.Layouts.{IsUnder, IsRawData, IsHeadField, IsNextField};
ghost use Rattle.contents_table.specs.Channels.{head_field, next_field, name_field, structure_of, raw_data};

use crate::kind::Kind;
use dictionary::{Dictionary, Element, first_named};
use file_grammar::closing::single_base;
use type_text::Base;

/// The structure that describes a frame.
pub const FRAME_HEADER: &[u8] = b"FrameH";

/// The structure under which raw data are.
pub const RAW_DATA: &[u8] = b"FrRawData";

/// A link to the first record of a list: the number of its field, and the class that it names.
#[derive(Clone, Copy)]
pub struct Head {
    pub(crate) field: u32,
    pub(crate) class: u8,
}

/// The fields that the channels of a kind hang on: the head of their list, the link to the next one, and the
/// name.
#[derive(Clone, Copy)]
pub struct ListLayout {
    pub(crate) head: Head,
    pub(crate) next: Option<u32>,
    pub(crate) name: Option<u32>,
}

/// Where the layouts of a dictionary have the links to channels and their names. It is found once for all
/// frames that are read by the dictionary, and again when that has got an entry.
#[derive(Clone, Copy)]
pub struct ChannelLayouts {
    pub(crate) frame_header: Option<u8>,
    pub(crate) raw_data: Option<Head>,
    pub(crate) adc: Option<ListLayout>,
    pub(crate) proc: Option<ListLayout>,
    pub(crate) sim: Option<ListLayout>,
    pub(crate) ser: Option<ListLayout>,
}

impl ChannelLayouts {
    /// Those of this dictionary. Takes no memory.
    pub fn of(dictionary: &Dictionary) -> ChannelLayouts
        ensures layouts { result ≡ layouts_of dictionary.now }
        ensures sound { IsDictionary dictionary.now }
    {
        ChannelLayouts {
            frame_header: dictionary.named(FRAME_HEADER),
            raw_data: head_in(dictionary, FRAME_HEADER, RAW_DATA),
            adc: list_of(dictionary, Kind::Adc),
            proc: list_of(dictionary, Kind::Proc),
            sim: list_of(dictionary, Kind::Sim),
            ser: list_of(dictionary, Kind::Ser),
        }
    }

    /// The field of the record above a kind's channels that is the head of their list.
    pub fn head_field(&self, kind: Kind) -> Option<u32>
        ensures { (held : List Entry) (plans : Layouts) (s : Collected) (n k : ℕ)
            → IsUnder held plans self.now s kind n k
            → IsSomeAnd result (IsHeadField held plans s (structure_of kind) n) }
    {
        Some(self.list(kind)?.head.field)
    }

    /// The field of a kind's channels that is the link to the next one.
    pub fn next_field(&self, kind: Kind) -> Option<u32>
        ensures { (held : List Entry) (plans : Layouts) (s : Collected) (n k : ℕ)
            → IsUnder held plans self.now s kind n k → IsNextField held plans s k result }
    {
        self.list(kind)?.next
    }

    /// The field of FrameH that is the link to FrRawData.
    pub fn raw_data_field(&self) -> Option<u32>
        ensures { (held : List Entry) (plans : Layouts) (s : Collected) (n m : ℕ)
            → IsRawData held plans self.now s n m
            → IsSomeAnd result (IsHeadField held plans s raw_data n) }
    {
        Some(self.raw_data?.field)
    }

    /// That of a kind.
    pub(crate) fn list(&self, kind: Kind) -> Option<ListLayout>
        ensures { result ≡ list_in self.now kind }
    {
        match kind {
            Kind::Adc => self.adc,
            Kind::Proc => self.proc,
            Kind::Sim => self.sim,
            Kind::Ser => self.ser,
        }
    }
}

fn list_of(dictionary: &Dictionary, kind: Kind) -> Option<ListLayout>
    ensures { result ≡ list_of dictionary.now kind }
{
    let upper = if kind.is_under_raw_data() {
        RAW_DATA
    } else {
        FRAME_HEADER
    };
    let head = head_in(dictionary, upper, kind.structure())?;
    let elements = elements_named(dictionary, kind.structure())?;
    Some(ListLayout {
        head,
        next: next_field(elements),
        name: name_field(elements),
    })
}

/// The first plain link of a structure that names another.
fn head_in(dictionary: &Dictionary, upper: &[u8], name: &[u8]) -> Option<Head>
    ensures { result ≡ head_in dictionary.now upper.now name.now }
{
    let class = dictionary.named(name)?;
    let field = head_field(name, elements_named(dictionary, upper)?)?;
    Some(Head { field, class })
}

/// The elements of the structure of a name.
fn elements_named<'a>(dictionary: &'a Dictionary, name: &[u8]) -> Option<&'a [Element]>
    ensures elements { option_map (λ elements. elements.now) result ≡ elements_named dictionary.now name.now }
    ensures few { IfSome result (λ elements. length elements.now ≤ 4096) }
{
    let entry = dictionary.get(dictionary.named(name)?)?;
    Some(entry.elements.as_slice())
}

/// The number of the first plain link whose type names a structure.
fn head_field(name: &[u8], elements: &[Element]) -> Option<u32>
    requires { length elements.now ≤ 4096 }
    ensures { result ≡ head_field name.now elements.now }
{
    for (i, element) in elements.iter().enumerate() {
        if let Some(Base::Ptr { to }) = single_base(element) {
            if name == to.bytes() {
                return Some(i as u32);
            }
        }
    }
    None
}

/// The plain link `next`.
fn next_field(elements: &[Element]) -> Option<u32>
    requires { length elements.now ≤ 4096 }
    ensures { result ≡ next_field elements.now }
{
    let (i, element) = first_named(elements, b"next")?;
    match single_base(element)? {
        Base::Ptr { .. } => Some(i as u32),
        _ => None,
    }
}

/// The text `name`.
fn name_field(elements: &[Element]) -> Option<u32>
    requires { length elements.now ≤ 4096 }
    ensures { result ≡ name_field elements.now }
{
    let (i, element) = first_named(elements, b"name")?;
    match single_base(element)? {
        Base::Str => Some(i as u32),
        _ => None,
    }
}
