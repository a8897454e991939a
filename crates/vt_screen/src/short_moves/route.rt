//! Short ways to move the cursor.

ghost use Rattle.std.specs.Prelude.{◌≡◌, ◌++◌, ◌∷◌, ◌≤◌, ℕ, [], IfSome, OnOk, IsTrue, decimal, length, replicate, string_bytes};
ghost use Rattle.vt_cells.specs.Refusals.{OnlyOutOfMemory};
ghost use Rattle.vt_redraw.specs.declared.form.Form.TheVariants.{Portable};
ghost use Rattle.vt_screen.specs.ShortMoves.{IsBackWithin, IsLast, IsPortableRoute, IsRoute, column_after_tabs, last_text, next_stop, route_text};

use vt_cells::term::{BufWrite, MoveRight};
use vt_cells::{Error, Pos, Sink};
use vt_redraw::Form;

/// The last part of a [`Route`]: the cursor movement after its tabs.
#[derive(Clone, Copy, PartialEq, Eq, Debug)]
pub enum Last {
    /// The cursor is already at the destination.
    Stay,

    /// The cursor moves left by the given number of columns (BS).
    Back(u16),

    /// The cursor moves right by the given number of columns (CUF).
    Right(u16),

    /// The cursor moves to the given column, counted from 0 (CHA).
    Column(u16),
}

/// A cursor movement that consists of line feeds, a carriage return, tabs, and a last part, in this
/// order.
#[derive(Clone, Copy, PartialEq, Eq, Debug)]
pub struct Route {
    /// The number of line feeds.
    pub feeds: u16,

    /// Whether a carriage return follows the line feeds.
    pub returns: bool,

    /// The number of tabs.
    pub tabs: u16,

    /// The part of the route after the tabs.
    pub last: Last,
}

/// A way to a column of the cursor's row: tabs, a last part, and the length of their output.
#[derive(Clone, Copy, PartialEq, Eq, Debug)]
struct Way {
    /// The number of tabs.
    tabs: u16,

    /// The part after the tabs.
    last: Last,

    /// The length of the output, in bytes.
    cost: usize,
}

impl Route {
    /// Returns whether the route leads from `from` to `to` on a terminal with `cols` columns.
    pub fn leads(&self, from: Pos, to: Pos, cols: u16) -> bool
        ensures { IsTrue result → IsRoute cols self.now from to }
    {
        if to.row < from.row || to.row - from.row != self.feeds {
            return false;
        }
        let start = if self.returns { 0 } else { from.col };
        let stop = column_after_tabs(start, self.tabs, cols);
        self.last.column_after(stop, cols) == Some(to.col)
    }

    /// Returns whether the route may be used in output of the given form, starting in column `col`.
    #[inline]
    pub fn is_allowed(&self, form: Form, col: u16) -> bool
        ensures { IsTrue result → form ≡ Portable → IsPortableRoute self.now col }
    {
        match form {
            Form::Fixed => true,
            Form::Portable => self.is_portable(col),
        }
    }

    /// Returns whether terminals agree on the effect of the route, starting in column `col`: it has
    /// no tabs, which may be cleared, and no BS in the first column, from which some terminals move
    /// to the row above.
    fn is_portable(&self, col: u16) -> bool
        ensures { IsTrue result → IsPortableRoute self.now col }
    {
        let start = if self.returns { 0 } else { col };
        self.tabs == 0 && self.last.is_back_within(start)
    }

    /// Returns the number of bytes that the route takes in the output.
    #[tactic(auto, using(crate::proofs::ReadRoutes::route_length))]
    pub fn len(&self) -> usize
        ensures { result ≡ length (route_text self.now) }
    {
        let before = usize::from(self.feeds) + usize::from(self.returns) + usize::from(self.tabs);
        before + self.last.len()
    }

    /// Appends to `text` the control characters and the control sequence, if any, that make up the
    /// route.
    ///
    /// # Errors
    ///
    /// Returns `Error::OutOfMemory` if the string cannot grow.
    pub fn write(&self, text: &mut String) -> Result<(), Error>
        ensures text { OnOk result (string_bytes text.new ≡ string_bytes text.old ++ route_text self.now) }
        ensures memory { OnlyOutOfMemory result }
    {
        write_repeated(text, "\n", self.feeds)?;
        if self.returns {
            text.write_str("\r")?;
        }
        write_repeated(text, "\t", self.tabs)?;
        self.last.write(text)
    }
}

impl Last {
    /// Returns the column to which this part of a route moves the cursor from column `col` on a
    /// terminal with `cols` columns. Returns `None` if `cols` is 0, if the part is `Right(0)`, or
    /// if it is `Column` with a column that the terminal does not have.
    fn column_after(self, col: u16, cols: u16) -> Option<u16>
        ensures { IfSome result (λ after. IsLast cols self col after) }
    {
        if cols == 0 {
            return None;
        }
        match self {
            Last::Stay => Some(col),
            Last::Back(count) => Some(col.saturating_sub(count)),
            Last::Right(0) => None,
            Last::Right(count) => Some(col.saturating_add(count).min(cols - 1)),
            Last::Column(target) if target < cols => Some(target),
            Last::Column(_) => None,
        }
    }

    /// Returns whether each BS of this part of a route moves the cursor, starting in column `col`.
    fn is_back_within(self, col: u16) -> bool
        ensures { IsTrue result → IsBackWithin self col }
    {
        match self {
            Last::Back(count) => count <= col,
            _ => true,
        }
    }

    /// Appends to `text` the BS characters or the control sequence for this part of a route.
    /// Appends nothing for [`Last::Stay`].
    ///
    /// # Errors
    ///
    /// Returns `Error::OutOfMemory` if the string cannot grow.
    fn write(self, text: &mut String) -> Result<(), Error>
        ensures text { OnOk result (string_bytes text.new ≡ string_bytes text.old ++ last_text self) }
        ensures memory { OnlyOutOfMemory result }
    {
        match self {
            Last::Stay => Ok(()),
            Last::Back(count) => write_repeated(text, "\x08", count),
            Last::Right(count) => write_right(text, count),
            Last::Column(target) => write_column(text, target),
        }
    }

    /// Returns the number of bytes that this part of a route takes in the output.
    #[inline]
    #[tactic(auto, using(crate::proofs::ReadRoutes::back_length, crate::proofs::ReadRoutes::right_length, crate::proofs::ReadRoutes::column_length))]
    fn len(self) -> usize
        ensures bytes { result ≡ length (last_text self) }
        ensures small { result ≤ 65535 }
    {
        match self {
            Last::Stay => 0,
            Last::Back(count) => usize::from(count),
            Last::Right(0) => 0,
            Last::Right(1) => 3,
            Last::Right(count) => 3 + digits(u32::from(count)),
            Last::Column(target) => 3 + digits(u32::from(target) + 1),
        }
    }
}

impl Way {
    /// Creates a way that consists of `tabs` tabs and the part `last`.
    #[inline]
    fn new(tabs: u16, last: Last) -> Self {
        Way {
            tabs,
            last,
            cost: usize::from(tabs).saturating_add(last.len()),
        }
    }

    /// Returns the way to column `col`, to the right of column `start`, whose output is probably the
    /// shortest on a terminal with `cols` columns. `start` must not be to the right of `col`. In the
    /// portable form, the way has no tabs.
    #[inline]
    fn forward(form: Form, start: u16, col: u16, cols: u16) -> Self {
        if col <= start {
            return Way::new(0, Last::Stay);
        }
        let right = Way::new(0, Last::Right(col - start));
        if form == Form::Portable {
            return right;
        }
        let tabs = (col / 8).saturating_sub(start / 8);
        let back = next_stop(col, cols).saturating_sub(col);
        let past = Way::new(tabs.saturating_add(1), Last::Back(back));
        if tabs == 0 {
            return right.or(past);
        }
        let last = match col % 8 {
            0 => Last::Stay,
            more => Last::Right(more),
        };
        right.or(Way::new(tabs, last)).or(past)
    }

    /// Returns the cheaper of this way and `other`, or this way if both cost the same.
    #[inline]
    fn or(self, other: Way) -> Self {
        if other.cost < self.cost { other } else { self }
    }
}

/// Appends `byte`, a string of one byte, `count` times to `text`.
///
/// # Errors
///
/// Returns `Error::OutOfMemory` if the string cannot grow.
#[tactic(auto, using(crate::proofs::ReadTexts::one_more))]
fn write_repeated(text: &mut String, byte: &str, count: u16) -> Result<(), Error>
    ensures text { (b : ℕ) → byte.now ≡ b ∷ [] →
        OnOk result (string_bytes text.new ≡ string_bytes text.old ++ replicate count b) }
    ensures memory { OnlyOutOfMemory result }
{
    for _copy in 0..count {
        text.write_str(byte)?;
    }
    Ok(())
}

/// Appends to `text` the sequence that moves the cursor right by `count` columns (CUF).
///
/// # Errors
///
/// Returns `Error::OutOfMemory` if the string cannot grow.
fn write_right(text: &mut String, count: u16) -> Result<(), Error>
    ensures text { OnOk result (string_bytes text.new ≡ string_bytes text.old ++ last_text (Last.Right count)) }
    ensures memory { OnlyOutOfMemory result }
{
    match (MoveRight { count }).write_buf(text) {
        Ok(()) => Ok(()),
        Err(_) => Err(Error::OutOfMemory),
    }
}

/// Appends to `text` the sequence that moves the cursor to column `target`, counted from 0 (CHA).
///
/// # Errors
///
/// Returns `Error::OutOfMemory` if the string cannot grow.
fn write_column(text: &mut String, target: u16) -> Result<(), Error>
    ensures text { OnOk result (string_bytes text.new ≡ string_bytes text.old ++ last_text (Last.Column target)) }
    ensures memory { OnlyOutOfMemory result }
{
    let mut buffer = itoa::Buffer::new();
    text.write_str("\x1b[")?;
    text.write_str(buffer.format(u32::from(target) + 1))?;
    text.write_str("G")
}

/// Returns the column of the first tab stop to the right of column `col`, or the last column if
/// there is none. Tab stops are at every eighth column. Columns are counted from 0, and the
/// terminal has `cols` of them.
fn next_stop(col: u16, cols: u16) -> u16
    ensures { result ≡ next_stop cols col }
{
    let last = cols.saturating_sub(1);
    let stop = (u32::from(col) / 8 + 1) * 8;
    match u16::try_from(stop) {
        Ok(stop) => stop.min(last),
        Err(_) => last,
    }
}

/// Returns the column to which `count` tabs move the cursor from column `col` on a terminal with
/// `cols` columns and a tab stop at every eighth column. Columns are counted from 0.
#[tactic(auto, using(crate::proofs::ReadTexts::next_tab))]
fn column_after_tabs(col: u16, count: u16, cols: u16) -> u16
    ensures { result ≡ column_after_tabs cols count col }
{
    let mut stop = col;
    for _tab in 0..count {
        stop = next_stop(stop, cols);
    }
    stop
}

/// Returns the route from `from` to `to`, in output of the given form, whose output is probably the
/// shortest on a terminal with `cols` columns. Returns `None` if `to` is in a row above `from`, or if
/// no route is likely to take fewer than `len` bytes.
pub fn likely_route(form: Form, from: Pos, to: Pos, cols: u16, len: usize) -> Option<Route> {
    let feeds = to.row.checked_sub(from.row)?;
    // Every route takes at least this many bytes. This test alone rejects most movements.
    if usize::from(feeds) + usize::from(to.col != from.col) >= len {
        return None;
    }
    let returned = Way::forward(form, 0, to.col, cols);
    let direct = if to.col < from.col {
        Way::new(0, Last::Back(from.col - to.col)).or(Way::new(0, Last::Column(to.col)))
    } else {
        Way::forward(form, from.col, to.col, cols)
    };
    let returns = returned.cost < direct.cost;
    let way = if returns { returned } else { direct };
    let cost = way
        .cost
        .saturating_add(usize::from(returns))
        .saturating_add(usize::from(feeds));
    if cost >= len {
        return None;
    }
    Some(Route {
        feeds,
        returns,
        tabs: way.tabs,
        last: way.last,
    })
}

/// Returns the number of decimal digits of `number`, which must be at most 65536.
#[tactic(auto, using(crate::proofs::ReadRoutes::digits_one, crate::proofs::ReadRoutes::digits_two, crate::proofs::ReadRoutes::digits_three, crate::proofs::ReadRoutes::digits_four, crate::proofs::ReadRoutes::digits_five))]
pub fn digits(number: u32) -> usize
    requires { number ≤ 65536 }
    ensures count { result ≡ length (decimal number) }
    ensures small { result ≤ 5 }
{
    match number {
        0..=9 => 1,
        10..=99 => 2,
        100..=999 => 3,
        1000..=9999 => 4,
        _ => 5,
    }
}
