//! The values of the records of a frame of the sample file, with the links between them in place.

ghost use Rattle.std.specs.Prelude.{◌≡◌, ◌<◌, ◌≤◌, [], ◌∷◌, map, IfOk};
ghost use Rattle.sample_file.specs.Sample.{channel_name, sample, numbers_below, end_values, vector_values};
ghost use Rattle.sample_file.specs.Drafts.{link_of, next_channel, header_linked, raw_linked, channel_linked};

use record_values::{NumList, TextList, Value};
use std::alloc::{AllocError, Global};
use type_text::{Link, Name};

/// The class of FrameH.
pub const FRAME_HEADER: u8 = 3;

/// The class of FrRawData.
pub const RAW_DATA: u8 = 4;

/// The class of FrAdcData, a channel.
pub const CHANNEL: u8 = 5;

/// The class of FrVect.
pub const VECTOR: u8 = 7;

/// The class of FrEndOfFrame.
pub const FRAME_END: u8 = 9;

/// How many channels a frame has.
pub const CHANNELS: u32 = 3;

/// How many samples a vector has, of a byte each.
const SAMPLES: u32 = 64;

/// When the first frame begins, in seconds.
const FIRST_SECOND: u64 = 1_000_000_000;

/// The pattern of 1.0.
const ONE_SECOND: u64 = 0x3ff0_0000_0000_0000;

/// The pattern of 64.0.
const SIXTY_FOUR: u64 = 0x4050_0000_0000_0000;

/// The pattern of 1/64.
const ONE_SIXTY_FOURTH: u64 = 0x3f90_0000_0000_0000;

/// FrameH of frame k.
pub fn header(alloc: Global, k: u32) -> Result<[Value; 11], AllocError>
    ensures { IfOk result (λ values. values ≡ header_linked k) }
{
    let name = Name::new(alloc, b"H1")?;
    let k = u64::from(k);
    Ok([
        Value::Text(name),
        Value::Num(1),
        Value::Num(k),
        Value::Num(FIRST_SECOND + k),
        Value::Num(0),
        Value::Num(ONE_SECOND),
        link(RAW_DATA, 0),
        null(),
        null(),
        null(),
        Value::Num(0),
    ])
}

/// FrRawData.
pub fn raw_data(alloc: Global) -> Result<[Value; 3], AllocError>
    ensures { IfOk result (λ values. values ≡ raw_linked) }
{
    let name = Name::new(alloc, b"raw")?;
    Ok([Value::Text(name), link(CHANNEL, 0), Value::Num(0)])
}

/// Channel j.
pub fn channel(alloc: Global, j: u32) -> Result<[Value; 6], AllocError>
    requires { j < 3 }
    ensures { IfOk result (λ values. values ≡ channel_linked j) }
{
    let name = channel_name(alloc, j)?;
    Ok([
        Value::Text(name),
        Value::Num(u64::from(j)),
        Value::Num(SIXTY_FOUR),
        link(VECTOR, j),
        next_channel(j),
        Value::Num(0),
    ])
}

/// The vector of channel j in frame k.
pub fn vector(alloc: Global, k: u32, j: u32) -> Result<[Value; 14], AllocError>
    requires frame { k ≤ 100000 }
    requires channel { j < 3 }
    ensures { IfOk result (λ values. values ≡ vector_values k j) }
{
    let name = channel_name(alloc, j)?;
    let data = samples(alloc, k, j)?;
    let count = one_number(alloc, u64::from(SAMPLES))?;
    let step = one_number(alloc, ONE_SIXTY_FOURTH)?;
    let start = one_number(alloc, 0)?;
    let mut units = TextList::new(alloc);
    units.push(Name::new(alloc, b"s")?)?;
    let no_unit = Name::new(alloc, b"")?;
    Ok([
        Value::Text(name),
        Value::Num(0),
        Value::Num(0),
        Value::Num(u64::from(SAMPLES)),
        Value::Num(u64::from(SAMPLES)),
        Value::Bytes(data),
        Value::Num(1),
        Value::Nums(count),
        Value::Nums(step),
        Value::Nums(start),
        Value::Texts(units),
        Value::Text(no_unit),
        null(),
        Value::Num(0),
    ])
}

/// FrEndOfFrame of frame k.
pub fn frame_end(k: u32) -> [Value; 3]
    ensures { result ≡ end_values k }
{
    [Value::Num(1), Value::Num(u64::from(k)), Value::Num(0)]
}

fn channel_name(alloc: Global, j: u32) -> Result<Name, AllocError>
    requires { j < 3 }
    ensures { IfOk result (λ name. name ≡ channel_name j) }
{
    let mut name = Vec::from_slice(alloc, b"H1:")?;
    name.push(b'A' + j as u8)?;
    Ok(Name::from(name))
}

/// The bytes of channel j in frame k.
fn samples(alloc: Global, k: u32, j: u32) -> Result<Name, AllocError>
    requires frame { k ≤ 100000 }
    requires channel { j < 3 }
    ensures { IfOk result (λ bytes. bytes ≡ map (sample k j) (numbers_below 64)) }
{
    let mut bytes = Vec::new(alloc);
    for i in 0..SAMPLES {
        bytes.push(((7 * k + 5 * j + i) % 256) as u8)?;
    }
    Ok(Name::from(bytes))
}

/// A list of one number.
fn one_number(alloc: Global, number: u64) -> Result<NumList, AllocError>
    ensures { IfOk result (λ list. list ≡ number ∷ []) }
{
    let mut list = NumList::new(alloc);
    list.push(number)?;
    Ok(list)
}

/// The link of channel j to the next one, which the last has not.
fn next_channel(j: u32) -> Value
    requires { j < 3 }
    ensures { result ≡ Value.Link (next_channel j) }
{
    if j < CHANNELS - 1 {
        link(CHANNEL, j + 1)
    } else {
        null()
    }
}

fn link(class: u8, instance: u32) -> Value
    ensures { result ≡ Value.Link (link_of class instance) }
{
    Value::Link(Link {
        class: u16::from(class),
        instance,
    })
}

fn null() -> Value
    ensures { result ≡ Value.Link (link_of 0 0) }
{
    link(0, 0)
}
