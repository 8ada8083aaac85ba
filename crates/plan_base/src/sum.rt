// A number that a loop changes.

/// A number that a loop changes, such as a sum that grows. As a field a proof sees it as the number that it is, where it
/// would see a variable of the loop as a word.
#[derive(Clone, Copy)]
pub struct Sum {
    /// What it is so far.
    pub value: i64,
}
