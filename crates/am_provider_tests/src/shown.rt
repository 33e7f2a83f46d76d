//! What a reader was shown, and what a journal owes it.

use am_alert::Moment;
use am_provider::Settled;
use am_store::Call;

/// What a reader was shown, by the starts of its alerts, and whether it was answered `Closed`.
#[derive(Drop)]
pub struct Shown {
    pub starts: Vec<Moment>,
    pub closed: bool,
}

/// Whether the starts are those of the first accepted alerts, each once and in the journal's order.
pub fn is_front(settled: &Settled, starts: &[Moment]) -> bool {
    let mut at = 0;
    for call in &settled.journal.calls {
        if let Call::Posted { now: _, alerts } = call {
            for alert in alerts.as_slice() {
                if at < starts.len() {
                    if starts[at] != alert.start {
                        return false;
                    }
                    at += 1;
                }
            }
        }
    }
    at == starts.len()
}
