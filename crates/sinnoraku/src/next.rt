//! What a reader shows once it has waited.

use am_alert::Alert;

/// What a reader shows once it has waited.
#[derive(Debug, Drop)]
pub enum Next {
    /// The next alert: a copy, which shares its texts.
    Alert(Alert),
    /// All that there is was shown, and no more will come.
    Closed,
    /// The reader was too slow and was cut off: nothing else is shown.
    Cut,
}
