//! Instants as a system's clock counts them.

use am_alert::Moment;
use std::test::Fail;

// 9999-12-30T22:00:00.999999999Z.
const LAST: u128 = 253_402_207_200_999_999_999;

#[test]
fn instants_of_a_systems_clock(rt: HostRuntime) -> Result<(), Fail> {
    let first: Moment = "1970-01-01T00:00:00Z".parse()?;
    let later: Moment = "2023-11-14T22:13:20.000000001Z".parse()?;
    assert!(rt; Moment::from_unix_nanos(0) == Some(first));
    assert!(rt; Moment::from_unix_nanos(1_700_000_000_000_000_001) == Some(later));
    assert!(rt; Moment::from_unix_nanos(LAST) == Some(Moment::MAX));
    assert!(rt; Moment::from_unix_nanos(LAST + 1).is_none());
    assert!(rt; Moment::from_unix_nanos(u128::MAX).is_none());
    Ok(())
}
