// Pieces of text, each added to a buffer.

ghost use Rattle.std.specs.Prelude.{◌≡◌, ◌+◌, ◌<◌, decimal, ◌∷◌, []};
ghost use Rattle.std.specs.Fmt.{signed_decimal};
ghost use Rattle.plan_json.specs.Adds.{Adds};
ghost use Rattle.plan_json.specs.Digits.{four_digits};

use std::alloc::AllocError;

/// Adds a text as it is.
#[inline]
pub(crate) fn put(out: &mut Vec<u8>, text: &[u8]) -> Result<(), AllocError>
    ensures { Adds result out.old.items out.new.items text.now }
{
    out.extend_from_slice(text)
}

/// Adds a byte.
#[inline]
pub(crate) fn put_byte(out: &mut Vec<u8>, byte: u8) -> Result<(), AllocError>
    ensures { Adds result out.old.items out.new.items (byte ∷ []) }
{
    out.push(byte)?;
    Ok(())
}

/// The digit of a number below 10.
#[inline(always)]
fn digit(n: u16) -> u8
    requires { n < 10 }
    ensures { result ≡ 48 + n }
{
    b'0' + n as u8
}

/// Adds a number as four digits, with zeros in front.
#[inline(always)]
fn put_four(out: &mut Vec<u8>, n: u16) -> Result<(), AllocError>
    requires { n < 10000 }
    ensures { Adds result out.old.items out.new.items (four_digits n) }
{
    put(
        out,
        &[
            digit(n / 1_000),
            digit(n / 100 % 10),
            digit(n / 10 % 10),
            digit(n % 10),
        ],
    )
}

/// Adds a number of at most four digits in decimal. A piece of a known length, in line, is cheaper to add than a text that is
/// made first.
#[inline(always)]
#[tactic(auto, using(std::proofs::lemmas::Fmt::decimal_digit, itoa::proofs::Decimal::decimal_two, crate::proofs::Digits::decimal_three, crate::proofs::Digits::decimal_four))]
fn put_short(out: &mut Vec<u8>, n: u16) -> Result<(), AllocError>
    requires { n < 10000 }
    ensures { Adds result out.old.items out.new.items (decimal n) }
{
    if n < 10 {
        put_byte(out, digit(n))
    } else if n < 100 {
        put(out, &[digit(n / 10), digit(n % 10)])
    } else if n < 1_000 {
        put(out, &[digit(n / 100), digit(n / 10 % 10), digit(n % 10)])
    } else {
        put_four(out, n)
    }
}

/// Adds a number in decimal.
pub(crate) fn put_number(out: &mut Vec<u8>, n: u64) -> Result<(), AllocError>
    ensures { Adds result out.old.items out.new.items (decimal n) }
{
    if n < 10_000 {
        return put_short(out, n as u16);
    }
    if n < 100_000_000 {
        put_short(out, (n / 10_000) as u16)?;
        return put_four(out, (n % 10_000) as u16);
    }
    put_long(out, n)
}

/// Adds a number in decimal, whatever its length. Few numbers are so long that they come here: it stands apart from those
/// that aren't.
#[inline(never)]
fn put_long(out: &mut Vec<u8>, n: u64) -> Result<(), AllocError>
    ensures { Adds result out.old.items out.new.items (decimal n) }
{
    put(out, itoa::Buffer::new().format(n).as_bytes())
}

/// Adds a number in decimal, with a sign if it is below 0.
#[inline]
pub(crate) fn put_signed(out: &mut Vec<u8>, z: i64) -> Result<(), AllocError>
    ensures { Adds result out.old.items out.new.items (signed_decimal z) }
{
    if z < 0 {
        put_byte(out, b'-')?;
    }
    put_number(out, z.unsigned_abs())
}
