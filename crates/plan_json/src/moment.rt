// Texts that name moments, in the profile of RFC 3339 that stands at `Doc::moment`.

ghost use Rattle.std.specs.Prelude.{◌≡◌, ◌≤◌, ◌<◌, ◌+◌, ◌≤ℤ◌, pos, length, IsTrue, IfSome};
ghost use Rattle.jiff_core.specs.Date.{epoch_day};
ghost use Rattle.plan_json.specs.Moment.{is_utc, zeros_of, is_fraction, is_ending, has_digits, has_marks, has_form, two_digits, day_number};
ghost use Rattle.plan_json.specs.Moment.{second_of_day, second_of};
ghost use Rattle.plan_json.specs.MomentText.{MomentsAreRead};

use jiff::civil::Date;

/// Nothing, `Z` or `+00:00`.
fn is_utc(zone: &[u8]) -> bool
    ensures { result ≡ is_utc zone.now }
{
    zone.is_empty() || zone == b"Z".as_slice() || zone == b"+00:00".as_slice()
}

/// How many zeros stand at the front.
fn zeros_of(text: &[u8]) -> usize
    ensures value { result ≡ zeros_of text.now }
    ensures bound { result ≤ length text.now }
{
    text.iter().take_while(|digit| **digit == b'0').count()
}

/// 1 to 9 zeros, and then nothing, `Z` or `+00:00`.
fn is_fraction(text: &[u8]) -> bool
    ensures { result ≡ is_fraction text.now }
{
    let zeros = zeros_of(text);
    (1..=9).contains(&zeros) && is_utc(&text[zeros..])
}

/// A point with 1 to 9 zeros or no point, and then nothing, `Z` or `+00:00`.
#[tactic(auto, unfolding(crate::specs::Moment::is_ending))]
fn is_ending(text: &[u8]) -> bool
    ensures { result ≡ is_ending text.now }
{
    if text.is_empty() || text[0] != b'.' {
        return is_utc(text);
    }
    is_fraction(&text[1..])
}

/// Whether the digits of a moment are digits.
#[tactic(auto, unfolding(crate::specs::Moment::has_digits))]
fn has_digits(text: &[u8]) -> bool
    requires { 19 ≤ length text.now }
    ensures { result ≡ has_digits text.now }
{
    const PLACES: [usize; 14] = [0, 1, 2, 3, 5, 6, 8, 9, 11, 12, 14, 15, 17, 18];
    PLACES.iter().all(|at| text[*at].is_ascii_digit())
}

/// Whether what stands between the digits of a moment is `-`, `:`, and one `T` or space.
#[tactic(auto, unfolding(crate::specs::Moment::has_marks))]
fn has_marks(text: &[u8]) -> bool
    requires { 19 ≤ length text.now }
    ensures { result ≡ has_marks text.now }
{
    text[4] == b'-'
        && text[7] == b'-'
        && (text[10] == b'T' || text[10] == b' ')
        && text[13] == b':'
        && text[16] == b':'
}

/// Whether the text has the form of a moment, whatever its numbers are.
fn has_form(text: &[u8]) -> bool
    ensures value { result ≡ has_form text.now }
    ensures long { IsTrue result → 19 ≤ length text.now }
{
    if text.len() < 19 {
        return false;
    }
    has_digits(text) && has_marks(text) && is_ending(&text[19..])
}

/// The number that the digits at two places write.
fn two_digits(text: &[u8], at: usize) -> u32
    requires { at + 1 < length text.now }
    ensures value { result ≡ two_digits text.now at }
    ensures small { result ≤ 10000 }
{
    let tens = u32::from(text[at].saturating_sub(b'0'));
    let units = u32::from(text[at + 1].saturating_sub(b'0'));
    10 * tens + units
}

/// The day's number, 0 for 1970-01-01, if the calendar has that day and its year is 1970 or later.
fn day_number(year: u32, month: u32, day: u32) -> Option<u64>
    ensures value { result ≡ day_number year month day }
    ensures small { IfSome result (λ n. n ≤ 2_932_896) }
{
    if !(1970..=9999).contains(&year) || month > 12 || day > 31 {
        return None;
    }
    match Date::new(year as i16, month as i8, day as i8) {
        Ok(date) => Some(days_from_epoch(date)),
        Err(_) => None,
    }
}

/// The day's number, 0 for 1970-01-01.
fn days_from_epoch(date: Date) -> u64
    requires { pos 1970 ≤ℤ date.year }
    ensures value { pos result ≡ epoch_day date }
    ensures small { result ≤ 2_932_896 }
{
    date.to_plain().to_unix_epoch_day() as u64
}

/// The second's number in its day, if the day has it.
fn second_of_day(hour: u32, minute: u32, second: u32) -> Option<u64>
    ensures value { result ≡ second_of_day hour minute second }
    ensures small { IfSome result (λ n. n < 86_400) }
{
    if hour < 24 && minute < 60 && second < 60 {
        Some(u64::from(3600 * hour + 60 * minute + second))
    } else {
        None
    }
}

/// The second that the text names, if it is a moment.
pub(crate) fn second_of(text: &[u8]) -> Option<u64>
    ensures { result ≡ second_of text.now }
{
    if !has_form(text) {
        return None;
    }
    let year = 100 * two_digits(text, 0) + two_digits(text, 2);
    let day = day_number(year, two_digits(text, 5), two_digits(text, 8))?;
    let second = second_of_day(
        two_digits(text, 11),
        two_digits(text, 14),
        two_digits(text, 17),
    )?;
    Some(86_400 * day + second)
}

/// A law: a day of the calendar from 1970 on and a time of it, written in any of the forms, are read as their second.
pub fn moments_are_read()
    ensures { MomentsAreRead }
{}
