//! Numbers, patterns and links as they are printed. All fail only where memory is out, and a part may stand there then.

ghost use Rattle.std.specs.Prelude.{◌≡◌, ◌<◌, ◌≤◌, ◌^◌, ◌++◌, OnOk, length, codes};
ghost use Rattle.scalar_types.specs.Number.{size_of};
ghost use Rattle.layout_plan.specs.Layout.{form_of};
ghost use Rattle.layout_plan.specs.declared.fields.Form.TheVariants.{Number, Pair};
ghost use Rattle.scalar_types.specs.declared.Width.{Width as SpecWidth};
ghost use Rattle.dumper.specs.Printed.{signed_text, short_pattern, long_pattern, number_text, pair_text, link_text};
ghost use Rattle.hex.specs.Hex.{encode_lower};
ghost use Rattle.std.specs.Fmt.{decimal};

use itoa::Buffer;
use scalar_types::Width;
use std::alloc::AllocError;
use type_text::{Base, Link};

/// So many bytes are composed as hexadecimal digits at a time.
pub const CHUNK: usize = 64;

/// Appends a number of a field of this base, by its bits.
#[inline(always)]
pub fn push_number(text: &mut Vec<u8>, base: &Base, n: u64) -> Result<(), AllocError>
    requires fits { (width : SpecWidth) × (form_of base.now ≡ Number width) × (n < 256 ^ size_of width) }
    ensures { OnOk result (text.new.items ≡ text.old.items ++ number_text base.now n) }
{
    match base {
        Base::Int1S => push_signed(text, Width::One, n),
        Base::Int2S => push_signed(text, Width::Two, n),
        Base::Int4S => push_signed(text, Width::Four, n),
        Base::Int8S => push_signed(text, Width::Eight, n),
        Base::Real4 => push_short_pattern(text, n as u32),
        Base::Real8 => push_long_pattern(text, n),
        _ => push_decimal(text, n),
    }
}

/// Appends a signed number of this width, by its bits in two's complement.
fn push_signed(text: &mut Vec<u8>, width: Width, n: u64) -> Result<(), AllocError>
    requires { n < 256 ^ size_of width }
    ensures { OnOk result (text.new.items ≡ text.old.items ++ signed_text width n) }
{
    let sign = 1 << (8 * width.size() - 1);
    if n < sign {
        return push_decimal(text, n);
    }
    text.push(b'-')?;
    push_decimal(text, sign - (n - sign))
}

/// Appends the bit pattern of a real of four bytes.
fn push_short_pattern(text: &mut Vec<u8>, n: u32) -> Result<(), AllocError>
    ensures { OnOk result (text.new.items ≡ text.old.items ++ short_pattern n) }
{
    push_pattern(text, &n.to_be_bytes())
}

/// Appends the bit pattern of a real of eight bytes.
fn push_long_pattern(text: &mut Vec<u8>, n: u64) -> Result<(), AllocError>
    ensures { OnOk result (text.new.items ≡ text.old.items ++ long_pattern n) }
{
    push_pattern(text, &n.to_be_bytes())
}

/// Appends the bit pattern of a real that these bytes are, the highest first.
fn push_pattern(text: &mut Vec<u8>, bytes: &[u8]) -> Result<(), AllocError>
    requires { length bytes.now ≤ 8 }
    ensures { OnOk result (text.new.items ≡ text.old.items ++ (codes "0x" ++ encode_lower bytes.now)) }
{
    let mut room = [0; 16];
    let digits = &mut room[..2 * bytes.len()];
    hex::encode_to_slice(bytes, digits).unwrap();
    text.extend_from_slice(b"0x")?;
    text.extend_from_slice(digits)
}

/// Appends the hexadecimal digits of a few bytes.
pub fn push_digits(text: &mut Vec<u8>, bytes: &[u8]) -> Result<(), AllocError>
    requires { length bytes.now ≤ 64 }
    ensures { OnOk result (text.new.items ≡ text.old.items ++ encode_lower bytes.now) }
{
    let mut room = [0; 2 * CHUNK];
    let digits = &mut room[..2 * bytes.len()];
    hex::encode_to_slice(bytes, digits).unwrap();
    text.extend_from_slice(digits)
}

/// Appends a complex number of a field of this base: the patterns of both parts.
pub fn push_pair(
    text: &mut Vec<u8>,
    base: &Base,
    real: u64,
    imaginary: u64,
) -> Result<(), AllocError>
    requires fits { (width : SpecWidth) × (form_of base.now ≡ Pair width) × (real < 256 ^ size_of width)
        × (imaginary < 256 ^ size_of width) }
    ensures { OnOk result
        (text.new.items ≡ text.old.items ++ pair_text base.now (real, imaginary)) }
{
    if let Base::Complex8 = base {
        push_short_pattern(text, real as u32)?;
        text.push(b' ')?;
        return push_short_pattern(text, imaginary as u32);
    }
    push_long_pattern(text, real)?;
    text.push(b' ')?;
    push_long_pattern(text, imaginary)
}

/// Appends a link.
pub fn push_link(text: &mut Vec<u8>, link: Link) -> Result<(), AllocError>
    ensures { OnOk result (text.new.items ≡ text.old.items ++ link_text link) }
{
    if link.class == 0 {
        return text.extend_from_slice(b"null");
    }
    push_decimal(text, link.class as u64)?;
    text.push(b':')?;
    push_decimal(text, link.instance as u64)
}

/// Appends a number in decimal.
#[tactic(auto, using(std::proofs::lemmas::Fmt::decimal_digit, itoa::proofs::Decimal::decimal_two))]
#[inline(always)]
pub fn push_decimal(text: &mut Vec<u8>, n: u64) -> Result<(), AllocError>
    ensures { OnOk result (text.new.items ≡ text.old.items ++ decimal n) }
{
    if n < 10 {
        text.push(b'0' + n as u8)?;
        return Ok(());
    }
    if n < 100 {
        return text.extend_from_slice(&[b'0' + (n / 10) as u8, b'0' + (n % 10) as u8]);
    }
    push_digits_of(text, n)
}

/// The same of a number of any length.
#[inline(never)]
fn push_digits_of(text: &mut Vec<u8>, n: u64) -> Result<(), AllocError>
    ensures { OnOk result (text.new.items ≡ text.old.items ++ decimal n) }
{
    let mut buffer = Buffer::new();
    text.extend_from_slice(buffer.format(n).as_bytes())
}
