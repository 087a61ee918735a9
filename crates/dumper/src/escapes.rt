//! Bytes as they are printed: on one line of ASCII, from which they can be read back.

ghost use Rattle.std.specs.Prelude.{◌≡◌, ◌≤◌, ◌<◌, ◌++◌, OnOk, take, length, get_or, false};
ghost use Rattle.std.specs.String.{string_bytes};
ghost use Rattle.std.specs.Fmt.{digit_glyph};
ghost use Rattle.dumper.specs.Printed.{is_plain, escaped_byte, escaped, quoted};

use std::alloc::AllocError;
use std::fmt::Write;

/// Appends bytes as they are printed: each as itself where it is a printable character of ASCII other than `"` and `\`,
/// else as `\x` and two hexadecimal digits. Where memory is out, a part of them may stand there.
pub fn push_escaped(text: &mut String, bytes: &[u8]) -> Result<(), AllocError>
    ensures { OnOk result (string_bytes text.new ≡ string_bytes text.old ++ escaped bytes.now) }
{
    for byte in bytes {
        push_byte(text, *byte)?;
    }
    Ok(())
}

/// Appends a byte as it is printed: itself, or by its number.
fn push_byte(text: &mut String, byte: u8) -> Result<(), AllocError>
    ensures { OnOk result (string_bytes text.new ≡ string_bytes text.old ++ escaped_byte byte) }
{
    if is_plain(byte) {
        text.push(char::from(byte))
    } else {
        write!(text, "\\x{byte:02x}")
    }
}

/// Whether a byte is printed as itself: a printable character of ASCII, other than a quote and a backslash.
fn is_plain(byte: u8) -> bool
    ensures { result ≡ is_plain byte }
{
    matches!(byte, b' '..=b'~') && byte != b'"' && byte != b'\\'
}

/// Appends bytes to a page as they are printed: runs of those that are printed as themselves, and others between them.
pub fn put_escaped(text: &mut Vec<u8>, bytes: &[u8]) -> Result<(), AllocError>
    ensures { OnOk result (text.new.items ≡ text.old.items ++ escaped bytes.now) }
{
    let mut rest = bytes;
    loop {
        let plain = plain_length(rest);
        text.extend_from_slice(&rest[..plain])?;
        if plain == rest.len() {
            return Ok(());
        }
        put_by_digits(text, rest[plain])?;
        rest = &rest[plain + 1..];
    }
}

/// How many bytes at the front are printed as themselves.
fn plain_length(bytes: &[u8]) -> usize
    ensures within { result ≤ length bytes.now }
    ensures plain { escaped (take result bytes.now) ≡ take result bytes.now }
    ensures stops { result < length bytes.now → is_plain (get_or bytes.now result 0) ≡ false }
{
    let mut at = 0;
    while at < bytes.len() && is_plain(bytes[at]) {
        at += 1;
    }
    at
}

/// Appends a byte that is not printed as itself, by its number.
fn put_by_digits(text: &mut Vec<u8>, byte: u8) -> Result<(), AllocError>
    requires { is_plain byte ≡ false }
    ensures { OnOk result (text.new.items ≡ text.old.items ++ escaped_byte byte) }
{
    text.extend_from_slice(&[b'\\', b'x', digit(byte / 16), digit(byte % 16)])
}

/// The hexadecimal digit of a number below 16.
fn digit(n: u8) -> u8
    requires { n < 16 }
    ensures { result ≡ digit_glyph false n }
{
    if n < 10 { b'0' + n } else { b'a' + (n - 10) }
}

/// Appends a text between quotes to a page. Fails only where memory is out.
pub fn put_quoted(text: &mut Vec<u8>, bytes: &[u8]) -> Result<(), AllocError>
    ensures { OnOk result (text.new.items ≡ text.old.items ++ quoted bytes.now) }
{
    text.push(b'"')?;
    put_escaped(text, bytes)?;
    text.push(b'"')?;
    Ok(())
}
