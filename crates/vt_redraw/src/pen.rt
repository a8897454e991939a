//! The pen: the cursor position and attributes of the terminal that reads the output, and the form
//! of the output.

ghost use Rattle.std.specs.Prelude.{◌≡◌, ◌&&◌, ◌+◌, ◌≤◌, ◌++◌, OnOk, false, length, not, true};
ghost use Rattle.vt_cells.specs.Attrs.{default_attrs, same_attrs};
ghost use Rattle.vt_cells.specs.Op.{bytes_of_all};
ghost use Rattle.vt_redraw.specs.Internals.{AppendsOrStops};
ghost use Rattle.vt_redraw.specs.Script.{attr_ops, attr_ops_in, move_ops, is_at, pen_at, pen_in, pen_with};
ghost use Rattle.vt_redraw.specs.declared.form.Form.TheVariants.{Portable};

use crate::form::{Form, resets};
use vt_cells::term::{BufWrite, ChangeAttrs, MoveFromTo};
use vt_cells::{Attrs, Buffer, Pos, Sink};

/// The position of the terminal's cursor, the terminal's attributes, and the form of the output.
///
/// Methods that write return the sink's error; part of the output may have been
/// written by then.
#[derive(Clone, Copy, PartialEq, Eq, Debug)]
pub struct Pen {
    /// The row, counted from 0.
    pub row: u16,

    /// The column, counted from 0. A column one past the last means that a wrap
    /// is pending.
    pub col: u16,

    /// The terminal's current attributes.
    pub attrs: Attrs,

    /// The form in which output is written.
    pub form: Form,

    /// Whether terminals may have the cursor in a different position, because a glyph was printed on
    /// whose width they may disagree. The next movement then names the position.
    pub is_shifted: bool,
}

impl Pen {
    /// Creates the pen for a terminal that was just cleared: in the top left
    /// corner, with default attributes. It writes the fixed form.
    pub fn new() -> Self
        ensures { result ≡ pen_at 0 0 default_attrs }
    {
        Pen {
            row: 0,
            col: 0,
            attrs: Attrs::new(),
            form: Form::Fixed,
            is_shifted: false,
        }
    }

    /// Returns whether the pen is at the given position.
    #[inline]
    pub fn is_at(&self, row: u16, col: u16) -> bool
        ensures { result ≡ is_at self.now row col }
    {
        self.row == row && self.col == col
    }

    /// Returns whether the pen is at the given position and terminals agree that the cursor is there.
    #[inline]
    fn is_known_at(&self, row: u16, col: u16) -> bool
        ensures { result ≡ (is_at self.now row col && not self.now.is_shifted) }
    {
        self.is_at(row, col) && !self.is_shifted
    }

    /// Moves the pen to position `to`, and writes the cursor movement, or nothing if the pen is
    /// already there and terminals agree on its position.
    ///
    /// # Errors
    ///
    /// Returns the sink's error. Part of the output may have been written by
    /// then.
    #[inline]
    pub fn move_to<S: Sink>(&mut self, sink: &mut S, to: Pos) -> Result<(), S::Error>
        ensures ops { AppendsOrStops result (S.text sink.old) (S.text sink.new) (move_ops self.old to.row to.col) }
        ensures pen { OnOk result (self.new ≡ pen_in self.old.form to.row to.col self.old.attrs) }
    {
        if self.is_known_at(to.row, to.col) {
            return Ok(());
        }
        self.jump(sink, to)
    }

    /// Moves the pen to a position, and writes the cursor movement.
    #[inline(never)]
    #[tactic(auto, unfolding(vt_cells::specs::Internals::buffered_text))]
    fn jump<S: Sink>(&mut self, sink: &mut S, to: Pos) -> Result<(), S::Error>
        ensures ops { AppendsOrStops result (S.text sink.old) (S.text sink.new) (move_ops self.old to.row to.col) }
        ensures pen { OnOk result (self.new ≡ pen_in self.old.form to.row to.col self.old.attrs) }
    {
        let mut buffer = Buffer::new();
        self.push_jump(&mut buffer, to);
        buffer.flush(sink)
    }

    /// Changes the pen's attributes to `new`, and writes the SGR sequence for the change, or
    /// nothing if the attributes are equal.
    ///
    /// # Errors
    ///
    /// Returns the sink's error. Part of the output may have been written by
    /// then.
    #[inline]
    pub fn change_attrs<S: Sink>(&mut self, sink: &mut S, new: Attrs) -> Result<(), S::Error>
        ensures ops { AppendsOrStops result (S.text sink.old) (S.text sink.new) (attr_ops_in self.old.form self.old.attrs new) }
        ensures pen { OnOk result (self.new ≡ pen_with self.old new) }
    {
        if self.attrs.is_same(&new) {
            return Ok(());
        }
        write_change_in(sink, self.form, self.attrs, new)?;
        self.attrs = new;
        Ok(())
    }

    /// Moves the pen to position `to`, and appends the cursor movement to `buffer`, or nothing if
    /// the pen is already there and terminals agree on its position.
    #[inline]
    pub fn push_move(&mut self, buffer: &mut Buffer, to: Pos)
        requires { length buffer.old + 25 ≤ 256 }
        ensures text { buffer.new ≡ buffer.old ++ bytes_of_all (move_ops self.old to.row to.col) }
        ensures room { length buffer.new ≤ length buffer.old + 25 }
        ensures pen { self.new ≡ pen_in self.old.form to.row to.col self.old.attrs }
    {
        if self.is_known_at(to.row, to.col) {
            return;
        }
        self.push_jump(buffer, to);
    }

    /// Moves the pen to a position, and appends the cursor movement to `buffer`.
    #[inline(never)]
    #[tactic(auto, unfolding(crate::specs::Script::move_ops))]
    fn push_jump(&mut self, buffer: &mut Buffer, to: Pos)
        requires { length buffer.old + 25 ≤ 256 }
        ensures text { buffer.new ≡ buffer.old ++ bytes_of_all (move_ops self.old to.row to.col) }
        ensures room { length buffer.new ≤ length buffer.old + 25 }
        ensures pen { self.new ≡ pen_in self.old.form to.row to.col self.old.attrs }
    {
        if self.is_shifted {
            self.push_place(buffer, to);
            return;
        }
        let from = Pos {
            row: self.row,
            col: self.col,
        };
        MoveFromTo { from, to }.push(buffer);
        self.row = to.row;
        self.col = to.col;
    }

    /// Moves the pen to a position, and appends the cursor movement that names the position to
    /// `buffer`. Terminals must disagree on the pen's current position.
    #[inline(never)]
    #[tactic(auto, unfolding(crate::specs::Script::move_ops))]
    fn push_place(&mut self, buffer: &mut Buffer, to: Pos)
        requires fits { length buffer.old + 25 ≤ 256 }
        requires shifted { self.old.is_shifted ≡ true }
        ensures text { buffer.new ≡ buffer.old ++ bytes_of_all (move_ops self.old to.row to.col) }
        ensures room { length buffer.new ≤ length buffer.old + 25 }
        ensures pen { self.new ≡ pen_in self.old.form to.row to.col self.old.attrs }
    {
        buffer.push_place(to);
        self.is_shifted = false;
        self.row = to.row;
        self.col = to.col;
    }

    /// Changes the pen's attributes to `new`, and appends the SGR sequence for the change to
    /// `buffer`, or nothing if the attributes are equal.
    #[inline]
    pub fn push_attrs(&mut self, buffer: &mut Buffer, new: Attrs)
        requires { length buffer.old + 67 ≤ 256 }
        ensures text { buffer.new ≡ buffer.old ++ bytes_of_all (attr_ops_in self.old.form self.old.attrs new) }
        ensures room { length buffer.new ≤ length buffer.old + 67 }
        ensures pen { self.new ≡ pen_with self.old new }
    {
        if self.attrs.is_same(&new) {
            return;
        }
        push_change(buffer, self.form, self.attrs, new);
        self.attrs = new;
    }
}

/// Appends the SGR sequences that change the attributes from `was` to `new` in the given form. The
/// two must differ.
#[inline(always)]
fn push_change(buffer: &mut Buffer, form: Form, was: Attrs, new: Attrs)
    requires fits { length buffer.old + 67 ≤ 256 }
    requires differ { same_attrs was new ≡ false }
    ensures text { buffer.new ≡ buffer.old ++ bytes_of_all (attr_ops_in form was new) }
    ensures room { length buffer.new ≤ length buffer.old + 67 }
{
    match form {
        Form::Fixed => push_fixed_change(buffer, was, new),
        Form::Portable => push_portable_change(buffer, was, new),
    }
}

/// Appends the SGR sequence that changes the attributes from `was` to `new` in the fixed form. The
/// two must differ: callers have already tested that.
#[inline(never)]
#[tactic(auto, using(crate::proofs::Writing::plain_written, crate::proofs::Writing::styled_written))]
fn push_fixed_change(buffer: &mut Buffer, was: Attrs, new: Attrs)
    requires fits { length buffer.old + 67 ≤ 256 }
    requires differ { same_attrs was new ≡ false }
    ensures text { buffer.new ≡ buffer.old ++ bytes_of_all (attr_ops was new) }
    ensures room { length buffer.new ≤ length buffer.old + 67 }
{
    if new.is_same(&Attrs::new()) {
        buffer.push("\x1b[m");
    } else {
        buffer.push_change(was, new);
    }
}

/// Appends the SGR sequences that change the attributes from `was` to `new` in the portable form, or
/// nothing if they are equal.
#[inline(never)]
fn push_portable_change(buffer: &mut Buffer, was: Attrs, new: Attrs)
    requires { length buffer.old + 67 ≤ 256 }
    ensures text { buffer.new ≡ buffer.old ++ bytes_of_all (attr_ops_in Portable was new) }
    ensures room { length buffer.new ≤ length buffer.old + 67 }
{
    if resets(Form::Portable, was, new) {
        buffer.push("\x1b[m");
        ChangeAttrs {
            was: Attrs::new(),
            new,
        }
        .push(buffer);
        return;
    }
    ChangeAttrs { was, new }.push(buffer);
}

/// Writes the SGR sequence that changes the attributes from `was` to `new`, or
/// nothing if they are equal.
///
/// # Errors
///
/// Returns the sink's error. Part of the output may have been written by then.
#[inline(never)]
#[tactic(auto, using(crate::proofs::Writing::change_written))]
pub fn write_change<S: Sink>(sink: &mut S, was: Attrs, new: Attrs) -> Result<(), S::Error>
    ensures { AppendsOrStops result (S.text sink.old) (S.text sink.new) (attr_ops was new) }
{
    ChangeAttrs { was, new }.write_buf(sink)
}

/// Writes the SGR sequences that change the attributes from `was` to `new` in the given form, or
/// nothing if they are equal.
///
/// # Errors
///
/// Returns the sink's error. Part of the output may have been written by then.
#[inline(never)]
#[tactic(auto, unfolding(vt_cells::specs::Internals::buffered_text))]
pub fn write_change_in<S: Sink>(
    sink: &mut S,
    form: Form,
    was: Attrs,
    new: Attrs,
) -> Result<(), S::Error>
    ensures { AppendsOrStops result (S.text sink.old) (S.text sink.new) (attr_ops_in form was new) }
{
    if was.is_same(&new) {
        return Ok(());
    }
    let mut buffer = Buffer::new();
    push_change(&mut buffer, form, was, new);
    buffer.flush(sink)
}
