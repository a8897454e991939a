//! The rows for which a diff contains output.

use crate::row_costs::{Numbers, UNKNOWN};

/// A receiver that [`crate::write_contents_diff_in`] notifies after each row.
pub trait RowWatch<S> {
    /// Receives the sink after the output for row `row` has been written. Rows are passed from top
    /// to bottom.
    fn finish_row(&mut self, row: u16, sink: &S);
}

/// A receiver that ignores all rows.
impl<S> RowWatch<S> for () {
    #[inline(always)]
    fn finish_row(&mut self, _row: u16, _sink: &S) {}
}

/// The rows, among the first 256 rows of a picture, for which a diff contains output. The rest of
/// the first 256 rows are equal in both pictures.
#[derive(Drop)]
pub struct DrawnRows {
    /// [`UNKNOWN`] for each of these rows, and 0 for the rest, which cost nothing.
    costs: Numbers,

    /// The number of these rows.
    count: u16,

    /// The length of the diff, in bytes, after the previous row.
    len: usize,
}

impl DrawnRows {
    /// Creates an empty set of rows, for a diff that has not been written yet.
    pub fn new() -> DrawnRows {
        DrawnRows {
            costs: [0; 256],
            count: 0,
            len: 0,
        }
    }

    /// Returns what is known about the cost of each of the first 256 rows: [`UNKNOWN`] if the diff
    /// contains output for the row, otherwise 0, because the row is equal in both pictures.
    pub(crate) fn costs(&self) -> Numbers {
        self.costs
    }

    /// Returns the number of rows, among the first 256, for which the diff contains output.
    pub(crate) fn count(&self) -> u16 {
        self.count
    }
}

/// Records each row that has lengthened the string. Output before the first row, such as the
/// sequence that hides the cursor, counts for the first row.
impl RowWatch<String> for DrawnRows {
    fn finish_row(&mut self, row: u16, sink: &String) {
        let len = sink.len();
        if row < 256 && len > self.len {
            self.costs[usize::from(row)] = UNKNOWN;
            self.count = self.count.saturating_add(1);
        }
        self.len = len;
    }
}
