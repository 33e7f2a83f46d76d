//! The four ways in which a matcher compares.

/// How a matcher compares a label's value with its own (Alertmanager's `MatchType`).
#[derive(Clone, Copy, Debug, PartialEq, Eq)]
pub enum Operator {
    /// `=`: the values are equal.
    Equal,
    /// `!=`: they differ.
    NotEqual,
    /// `=~`: the pattern `^(?:value)$` finds a match in the label's value.
    MatchRegexp,
    /// `!~`: it finds none.
    MatchNotRegexp,
}
