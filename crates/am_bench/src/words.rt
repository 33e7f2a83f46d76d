//! Reading numbers among the words of the command line.

/// The number that a word is, if it is there and is one.
pub(crate) fn number(words: &[String], at: usize) -> Option<u64> {
    words.get(at)?.as_str().parse::<u64>().ok()
}

/// As [`number`], up to the greatest u32.
pub(crate) fn small_number(words: &[String], at: usize) -> Option<u32> {
    words.get(at)?.as_str().parse::<u32>().ok()
}
