//! The words that a program is started with.
ghost use Rattle.std.specs.Prelude.{◌≡◌, [], ◌∷◌, map, bytes_eq, codes, string_bytes};
ghost use Rattle.std.specs.Char.{is_ascii_digit};
ghost use Rattle.std.specs.List.{list_all};
ghost use Rattle.session.specs.Words.{is_numeral, number_of, mode_named, mode_of};

/// What the words ask for.
#[derive(Clone, Copy)]
pub(crate) enum Mode {
    /// A session: the lines of the source are done.
    Session,
    /// The lines of the workload with this number are done.
    Workload(u32),
}

/// Whether a word only says that no flags come after it.
fn is_dashes(word: &str) -> bool
    ensures { result ≡ bytes_eq word.now (codes "--") }
{
    word == "--"
}

/// Whether all bytes are digits.
fn are_digits(word: &[u8]) -> bool
    ensures { result ≡ list_all is_ascii_digit word.now }
{
    word.iter().all(|byte| byte.is_ascii_digit())
}

/// Whether a word is one to ten digits.
fn is_numeral(word: &[u8]) -> bool
    ensures { result ≡ is_numeral word.now }
{
    if word.is_empty() || word.len() > 10 {
        return false;
    }
    are_digits(word)
}

/// The number of one to ten digits that a word is, if it has 32 bits.
fn number_of(word: &str) -> Option<u32>
    ensures { result ≡ number_of word.now }
{
    if !is_numeral(word.as_bytes()) {
        return None;
    }
    match word.parse() {
        Ok(number) => Some(number),
        Err(_) => None,
    }
}

fn alone(word: &str) -> Option<Mode>
    ensures { result ≡ mode_named (word.now ∷ []) }
{
    if word == "session" {
        return Some(Mode::Session);
    }
    None
}

fn with_number(word: &str, number: &str) -> Option<Mode>
    ensures { result ≡ mode_named (word.now ∷ number.now ∷ []) }
{
    if word == "workload" {
        return number_of(number).map(Mode::Workload);
    }
    None
}

fn of_one(first: &str) -> Option<Mode>
    ensures { result ≡ mode_of (first.now ∷ []) }
{
    if is_dashes(first) {
        return None;
    }
    alone(first)
}

fn of_two(first: &str, second: &str) -> Option<Mode>
    ensures { result ≡ mode_of (first.now ∷ second.now ∷ []) }
{
    if is_dashes(first) {
        return alone(second);
    }
    if is_dashes(second) {
        return alone(first);
    }
    with_number(first, second)
}

fn of_three(first: &str, second: &str, third: &str) -> Option<Mode>
    ensures { result ≡ mode_of (first.now ∷ second.now ∷ third.now ∷ []) }
{
    if is_dashes(first) {
        return with_number(second, third);
    }
    if is_dashes(second) {
        return with_number(first, third);
    }
    if is_dashes(third) {
        return with_number(first, second);
    }
    None
}

/// What the words ask for, none where they aren't a list that is defined.
pub(crate) fn mode_of(words: &[String]) -> Option<Mode>
    ensures { result ≡ mode_of (map string_bytes words.now) }
{
    match words {
        [first] => of_one(first.as_str()),
        [first, second] => of_two(first.as_str(), second.as_str()),
        [first, second, third] => of_three(first.as_str(), second.as_str(), third.as_str()),
        _ => None,
    }
}
