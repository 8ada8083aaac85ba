// Half-open spans of seconds.

use crate::number::Sec;

/// The seconds from `from` to the one before `to`; none where `from >= to`.
#[derive(Clone, Copy, PartialEq, Eq)]
pub struct Span {
    /// The first second: 0 to 10^12 in a snapshot.
    pub from: Sec,
    /// The second after the last: 0 to 10^12 in a snapshot.
    pub to: Sec,
}
