// Texts in quotes.

ghost use Rattle.std.specs.Prelude.{◌≡◌, ◌<◌};
ghost use Rattle.std.specs.Bool.{OnTrue};
ghost use Rattle.std.specs.Char.{digit_char};
ghost use Rattle.json.specs.Print.{escape_letter, escape_byte, escape, quoted};
ghost use Rattle.plan_json.specs.Adds.{Adds};

use crate::write::bytes::{put, put_byte};
use std::alloc::AllocError;

/// Adds a text in quotes, with the escapes that JSON asks for.
pub(crate) fn put_quoted(out: &mut Vec<u8>, text: &str) -> Result<(), AllocError>
    ensures { Adds result out.old.items out.new.items (quoted text.now) }
{
    put_byte(out, b'"')?;
    put_escaped(out, text)?;
    put_byte(out, b'"')
}

/// Adds a text with its escapes.
fn put_escaped(out: &mut Vec<u8>, text: &str) -> Result<(), AllocError>
    ensures { Adds result out.old.items out.new.items (escape text.now) }
{
    if is_plain(text.as_bytes()) {
        return put(out, text.as_bytes());
    }
    put_bytes_escaped(out, text.as_bytes())
}

/// Whether a text needs no escape.
#[inline]
fn is_plain(text: &[u8]) -> bool
    ensures { OnTrue result (escape text.now ≡ text.now) }
{
    for byte in text {
        if *byte < 0x20 || *byte == b'"' || *byte == b'\\' {
            return false;
        }
    }
    true
}

/// Adds bytes with their escapes.
fn put_bytes_escaped(out: &mut Vec<u8>, text: &[u8]) -> Result<(), AllocError>
    ensures { Adds result out.old.items out.new.items (escape text.now) }
{
    for byte in text {
        put_byte_escaped(out, *byte)?;
    }
    Ok(())
}

/// Adds what stands for a byte in a text in quotes.
#[tactic(auto, unfolding(json::specs::Print::escape_byte))]
fn put_byte_escaped(out: &mut Vec<u8>, byte: u8) -> Result<(), AllocError>
    ensures { Adds result out.old.items out.new.items (escape_byte byte) }
{
    let letter = letter_of(byte);
    if letter > 0 {
        put_byte(out, b'\\')?;
        return put_byte(out, letter);
    }
    if byte < 0x20 {
        put(out, b"\\u00")?;
        put_byte(out, hex_digit(byte / 16))?;
        return put_byte(out, hex_digit(byte % 16));
    }
    put_byte(out, byte)
}

/// The letter of a byte's short escape, or 0 where it has none.
fn letter_of(byte: u8) -> u8
    ensures { result ≡ escape_letter byte }
{
    match byte {
        b'"' | b'\\' => byte,
        8 => b'b',
        12 => b'f',
        b'\n' => b'n',
        b'\r' => b'r',
        b'\t' => b't',
        _ => 0,
    }
}

fn hex_digit(digit: u8) -> u8
    requires { digit < 16 }
    ensures { result ≡ digit_char digit }
{
    if digit < 10 {
        b'0' + digit
    } else {
        b'a' - 10 + digit
    }
}
