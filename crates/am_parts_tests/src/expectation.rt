//! What a test expects.

use std::test::Fail;

pub(crate) fn expect(holds: bool, what: &'static str) -> Result<(), Fail> {
    if holds { Ok(()) } else { Err(Fail::from(what)) }
}
