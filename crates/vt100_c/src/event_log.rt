//! The log that records the calls to a parser's callbacks, for C code to read.

ghost use Rattle.std.specs.Prelude.{◌≡◌, ◌&&◌, ◌<◌, OnErr, OnOk, length};
ghost use Rattle.std.specs.List.{slice_get};
ghost use Rattle.vt100_c.specs.Records.{LogsIt, bit_of, log_after_clear, is_wanted, nothing_logged, with_record};
ghost use Rattle.vt_screen.specs.Calls as calls;
ghost use Rattle.vt_screen.specs.Meanings.{call_of};

use crate::records::{self, ON_SCROLL};
use std::alloc::{AllocError, Global};
use std::marker::Model;
use vt_rows::Row;
use vt100::capture::RowContents;
use vt100::{Call, Callbacks, Screen};

/// The default size limit of a log, in bytes (1 MiB). Once the limit has been reached, further
/// records are lost.
pub(crate) const DEFAULT_LIMIT: usize = 1_048_576;

/// A log of callback invocations. It contains, in order, a record of each call of a wanted kind
/// made since the log was last cleared, and a copy of each row that these calls report.
///
/// If an allocation for a record fails, or the log has reached its limit, the
/// record is lost. After that, nothing is added until the log is cleared, so
/// that the records never have a gap in the middle.
#[derive(Drop)]
pub struct Events {
    alloc: Global,
    wanted: u16,

    /// The size limit of the log in bytes. Once it has been reached, further records are lost.
    limit: usize,

    /// The number of bytes left until the limit is reached. Records are lost if it is 0.
    room: usize,
    records: Vec<u8>,

    /// The reported rows, followed by spare rows. The memory of the spare rows
    /// is reused, so that most rows need no allocation.
    rows: Vec<Row>,
    row_count: usize,
    is_whole: bool,
}

impl Model for Events {
    ghost use Rattle.std.specs.Prelude.{◌≤◌, length, take};
    ghost use Rattle.vt100_c.specs.Records.{Logged};
    ghost use Rattle.vt_grid.specs.Internals.{AreRows};

    ghost Value = { Logged };

    ghost view = { λ e.
        record {
          wanted = e.wanted;
          limit = e.limit;
          room = e.room;
          records = e.records.items;
          rows = take e.row_count e.rows.items;
          is_whole = e.is_whole;
        } };

    ghost invariant = { λ e. AreRows e.rows.items × (e.row_count ≤ length e.rows.items) };
}

impl Events {
    /// Creates an empty log with a size limit of `limit` bytes. Calls of kind `k` are recorded if
    /// bit `k` of `wanted` is set, and rows are recorded without their text if bit 13 is set.
    pub(crate) fn new(alloc: Global, wanted: u16, limit: usize) -> Events
        ensures { result ≡ nothing_logged wanted limit }
    {
        Events {
            alloc,
            wanted,
            limit,
            room: limit,
            records: Vec::new(alloc),
            rows: Vec::new(alloc),
            row_count: 0,
            is_whole: true,
        }
    }

    /// Returns the bytes of the records.
    pub(crate) fn records(&self) -> &[u8]
        ensures { result.now ≡ self.now.records }
    {
        self.records.as_slice()
    }

    /// Returns the number of rows that the records report.
    pub(crate) fn row_count(&self) -> usize
        ensures { result ≡ length self.now.rows }
    {
        self.row_count
    }

    /// Returns the number of bytes left until the limit is reached, or 0 if it has been reached.
    pub(crate) fn room(&self) -> usize
        ensures { result ≡ self.now.room }
    {
        self.room
    }

    /// Returns the size limit of the log in bytes.
    pub(crate) fn limit(&self) -> usize
        ensures { result ≡ self.now.limit }
    {
        self.limit
    }

    /// Returns the reported row at `index`, counted from 0, or `None` if there
    /// is no such row.
    #[tactic(auto, using(crate::proofs::Logging::first_sound))]
    pub(crate) fn row(&self, index: usize) -> Option<RowContents<'_>>
        ensures { result ≡ slice_get self.now.rows index }
    {
        match self.rows[..self.row_count].get(index) {
            Some(row) => Some(row.contents()),
            None => None,
        }
    }

    /// Returns whether no record has been lost since the log was last cleared.
    pub(crate) fn is_whole(&self) -> bool
        ensures { result ≡ self.now.is_whole }
    {
        self.is_whole
    }

    /// Returns 1 if no record has been lost since the log was last cleared,
    /// otherwise 0.
    pub(crate) fn whole_bit(&self) -> u8
        ensures { result ≡ bit_of self.now.is_whole }
    {
        if self.is_whole { 1 } else { 0 }
    }

    /// Clears the log: the records, the rows that they report, and the flag that is set once
    /// records have been lost. If the log has reached its limit, also frees the memory of the rows.
    pub(crate) fn clear(&mut self)
        ensures { self.new ≡ log_after_clear self.old }
    {
        self.records.clear();
        if self.room == 0 {
            self.rows.clear();
        }
        self.row_count = 0;
        self.room = self.limit;
        self.is_whole = true;
    }

    /// Clears the log and sets its size limit to `limit` bytes.
    pub(crate) fn set_limit(&mut self, limit: usize)
        ensures { self.new ≡ nothing_logged self.old.wanted limit }
    {
        self.limit = limit;
        self.clear();
    }

    /// Returns whether calls of the given kind are currently recorded, that is, whether the kind is
    /// wanted and no record has been lost since the log was last cleared.
    fn keeps(&self, kind: u8) -> bool
        requires { kind < 16 }
        ensures { result ≡ (self.now.is_whole && is_wanted self.now.wanted kind) }
    {
        self.is_whole && records::is_wanted(self.wanted, kind)
    }

    /// Adds the record of a call if calls of its kind are currently recorded (see
    /// [`Events::keeps`]). The record is lost if the log has reached its limit or an allocation
    /// fails.
    fn note(&mut self, call: Call<'_>)
        ensures { LogsIt (call_of call.entry) self.old self.new }
    {
        if !self.keeps(records::kind_of(call)) {
            return;
        }
        if self.room == 0 || self.add(call).is_err() {
            self.is_whole = false;
        }
    }

    /// Adds the record of a call.
    ///
    /// # Errors
    ///
    /// Returns an error if an allocation fails. On error, the log is unchanged.
    fn add(&mut self, call: Call<'_>) -> Result<(), AllocError>
        ensures ok { OnOk result (self.new ≡ with_record (call_of call.entry) self.old) }
        ensures err { OnErr result (self.new ≡ self.old) }
    {
        let before = self.records.len();
        records::write_call(self.alloc, &mut self.records, call)?;
        self.room = self
            .room
            .saturating_sub(self.records.len().saturating_sub(before));
        Ok(())
    }

    /// Adds the record of a row if rows are currently recorded (see [`Events::keeps`]). The record
    /// is lost if the log has reached its limit or an allocation fails.
    fn note_row(&mut self, row: &RowContents<'_>, alternate: bool)
        ensures { LogsIt (calls.OnScroll row.now alternate) self.old self.new }
    {
        if !self.keeps(ON_SCROLL) {
            return;
        }
        if self.room == 0 || self.add_row(row, alternate).is_err() {
            self.is_whole = false;
        }
    }

    /// Adds the record of a row and a copy of the row to the log.
    ///
    /// # Errors
    ///
    /// Returns an error if an allocation fails. On error, the log is unchanged.
    fn add_row(&mut self, row: &RowContents<'_>, alternate: bool) -> Result<(), AllocError>
        ensures ok { OnOk result (self.new ≡ with_record (calls.OnScroll row.now alternate) self.old) }
        ensures err { OnErr result (self.new ≡ self.old) }
    {
        let before = self.records.len();
        records::hold_row(self.alloc, &mut self.rows, self.row_count, row)?;
        let is_bare = records::is_bare(self.wanted);
        records::write_row(self.alloc, &mut self.records, row, alternate, is_bare)?;
        self.row_count += 1;
        let room = self
            .room
            .saturating_sub(self.records.len().saturating_sub(before));
        self.room = room.saturating_sub(records::cells_size(row));
        Ok(())
    }
}

/// Callbacks that record each wanted call once, with its arguments, and do not
/// change the screen.
impl Callbacks for Events {
    ghost use Rattle.vt100_c.specs.Records.{Logs};

    ghost does = { Logs };

    fn otherwise(&mut self, _screen: &mut Screen, call: Call<'_>) {
        self.note(call);
    }

    fn on_scroll(&mut self, row: RowContents<'_>, alternate: bool) {
        self.note_row(&row, alternate);
    }

    /// Returns whether rows are currently recorded.
    fn wants_rows(&self) -> bool {
        self.keeps(ON_SCROLL)
    }
}
