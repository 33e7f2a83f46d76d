//! In which form answers are printed.

/// In which form answers are printed.
#[derive(Clone, Copy, Debug, PartialEq, Eq)]
pub enum Form {
    /// Each answer is a line of words.
    Text,
    /// Each answer is a JSON object on a line of its own, and each line of input is followed by one
    /// with the number of its answers.
    Json,
}
