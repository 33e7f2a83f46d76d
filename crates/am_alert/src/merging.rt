//! How a stored report and a new one of the same label set become one (Alertmanager's
//! `types.Alert.Merge`, and the test before it in `provider/mem`'s Put).

ghost use Rattle.std.specs.Prelude.{◌≡◌, IfOk, OnOk};
ghost use Rattle.std.specs.Option.{option_copied};
ghost use Rattle.am_alert.specs.Merging.{absorbed, combined, merged, overlap};

use crate::alert::Alert;
use crate::moment::Moment;
use std::alloc::AllocError;

/// Whether the new report begins or ends strictly within the old one.
pub fn overlaps(old: &Alert, new: &Alert) -> bool
    ensures { result ≡ overlap old.now new.now }
{
    (new.end > old.start && new.end < old.end) || (new.start > old.start && new.start < old.end)
}

/// Two reports of one label set as one: the younger report, from the earlier of the two starts. The
/// older report's end is kept if it is later and still says something: both ended by `now`, or the
/// younger hasn't and the older's end was given.
pub fn merge(old: &Alert, new: &Alert, now: Moment) -> Result<Alert, AllocError>
    ensures { IfOk result (λ both. both ≡ merged now old.now new.now) }
{
    let mut both = new.copy()?;
    merge_in_place(old, &mut both, now)?;
    Ok(both)
}

// The same in place of the new report.
fn merge_in_place(old: &Alert, new: &mut Alert, now: Moment) -> Result<(), AllocError>
    ensures { OnOk result (new.new ≡ merged now old.now new.old) }
{
    if new.updated < old.updated {
        let mut both = old.copy()?;
        combine(new, &mut both, now);
        *new = both;
    } else {
        combine(old, new, now);
    }
    Ok(())
}

// Lets the younger report last for both.
fn combine(older: &Alert, younger: &mut Alert, now: Moment)
    ensures { younger.new ≡ combined now older.now younger.old }
{
    let end = combined_end(older, younger, now);
    younger.start = older.start.min(younger.start);
    younger.end = end;
}

fn combined_end(older: &Alert, younger: &Alert, now: Moment) -> Moment
    ensures { result ≡ (combined now older.now younger.now).end }
{
    let older_counts = if younger.resolved_at(now) {
        older.resolved_at(now)
    } else {
        !older.timeout
    };
    if older_counts && older.end > younger.end {
        older.end
    } else {
        younger.end
    }
}

/// What a label set holds once the new report of it came: both as one if they overlap, else the new
/// one. It shares their texts.
pub fn absorb(stored: Option<&Alert>, new: &Alert, now: Moment) -> Result<Alert, AllocError>
    ensures { IfOk result (λ alert. alert ≡ absorbed now (option_copied stored.entry) new.now) }
{
    let mut became = new.copy()?;
    absorb_in_place(stored, &mut became, now)?;
    Ok(became)
}

/// The same in place of the new report.
pub fn absorb_in_place(
    stored: Option<&Alert>,
    new: &mut Alert,
    now: Moment,
) -> Result<(), AllocError>
    ensures { OnOk result (new.new ≡ absorbed now (option_copied stored.entry) new.old) }
{
    match stored {
        Some(old) if overlaps(old, new) => merge_in_place(old, new, now),
        _ => Ok(()),
    }
}
