//! Conversion of the numbers in tests.

use std::num::NonZeroU16;
use std::test::Fail;

/// Converts a number of rows, columns or bytes to a nonzero integer. Fails if the number is 0.
pub(crate) fn number(n: u16) -> Result<NonZeroU16, Fail> {
    Ok(NonZeroU16::new(n).ok_or("no number")?)
}

/// Converts a row count and a column count to nonzero integers. Fails if either count is 0.
pub(crate) fn size((rows, cols): (u16, u16)) -> Result<(NonZeroU16, NonZeroU16), Fail> {
    Ok((number(rows)?, number(cols)?))
}
