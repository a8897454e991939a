//! Generation of text and escape sequences from screens.

ghost use Rattle.std.specs.Prelude.{◌≡◌, ◌<◌, ◌≤◌, ◌&&◌, IfErr, IfOk, IsErr, Ok, false, length};
ghost use Rattle.std.specs.Prelude.{nat_lt, string_bytes, true};
ghost use Rattle.vt_cells.specs.Refusals.{OnlyOutOfMemory};
ghost use Rattle.vt_grid.specs.Page.{SameSize};
ghost use Rattle.vt_screen.specs.Contents.{between_of};
ghost use Rattle.vt100_c.specs.Due.{IsAnswer, IsSomeAnd, OnBoth, any_screens, due_on, due_on_both, start_status};
ghost use Rattle.vt100_c.specs.Due.{same_size, sizes_status, status_in};
ghost use Rattle.vt100_c.specs.Held.{screen_in};
ghost use Rattle.vt100_c.specs.Status.{ok, out_of_memory};
ghost use Rattle.vt100_c.specs.Texts.{HasDifference, HasText, IsDifference, due_for, due_for_both, options_of};
ghost use Rattle.vt100_c.specs.Texts.{redraw_options_of, repeat_of, text_of};
ghost use Rattle.vt100_c.specs.declared.output.Difference.TheVariants as between;

use crate::object::{Source, screen_of};
use crate::status::{BAD_ARGUMENT, OK, OTHER_SIZE, OUT_OF_MEMORY, WRONG_KIND};
use vt100::{DiffOptions, Error, RedrawOptions, Repeat, Screen};

/// A kind of text or escape sequences that can be generated from a screen.
#[derive(Clone, Copy)]
pub enum Text {
    /// The displayed rows, without attributes.
    Contents,

    /// The text between two positions, without attributes. The values are the row and column of the
    /// start, and the row and column of the end, all counted from 0.
    Between(u16, u16, u16, u16),

    /// The escape sequences that redraw the screen.
    Formatted,

    /// The escape sequences that redraw the screen, generated with the given options.
    FormattedWith(RedrawOptions),

    /// The escape sequences that redraw the screen on a terminal, whatever its
    /// scroll region and origin mode are.
    FormattedReset,

    /// The displayed rows, with SGR sequences as the only escape sequences.
    FormattedBasic,

    /// The escape sequences that redraw the screen and set its input modes.
    State,

    /// The escape sequences that redraw the screen, generated with the given options, and set its
    /// input modes.
    StateWith(RedrawOptions),

    /// The escape sequences that move the cursor and hide or show it.
    CursorState,

    /// The escape sequences that set the current attributes.
    Attributes,

    /// The escape sequences that set the input modes.
    InputMode,
}

/// A kind of output that turns one screen into another.
#[derive(Clone, Copy)]
pub enum Difference {
    /// The escape sequences that change the display.
    Contents,

    /// The escape sequences that change the display. They may begin by moving rows or columns.
    Scrolling,

    /// The escape sequences that change the display, generated with the given options.
    With(DiffOptions),

    /// The escape sequences that change the display and the input modes.
    State,

    /// The escape sequences that change the display, generated with the given options, and the
    /// input modes.
    StateWith(DiffOptions),

    /// The escape sequences that change the input modes.
    InputMode,
}

/// Generates the text or output of the given kind from a source's screen.
///
/// # Errors
///
/// Returns `WRONG_KIND` if the source has no screen, `BAD_ARGUMENT` if the start column of a range
/// of several rows is greater than the number of columns, or `OUT_OF_MEMORY` if an allocation
/// fails.
pub(crate) fn text_in(source: &Source, text: Text) -> Result<String, u8>
    ensures text { IfOk result
        (λ made. IsSomeAnd (screen_in source.now) (λ screen. string_bytes made ≡ text_of text screen)) }
    ensures answer { IsAnswer (due_on (due_for text) (screen_in source.now)) (status_in result) }
    ensures nonempty { status_in result ≡ out_of_memory → IsSomeAnd (screen_in source.now) (HasText text) }
    ensures refused { IfErr result (λ status. ¬ (status ≡ ok)) }
{
    match screen_of(source) {
        Some(screen) => text_of(screen, text),
        None => Err(WRONG_KIND),
    }
}

/// Generates the text or output of the given kind from a screen.
///
/// # Errors
///
/// Returns `BAD_ARGUMENT` if the start column of a range of several rows is greater than the number
/// of columns, or `OUT_OF_MEMORY` if an allocation fails.
fn text_of(screen: &Screen, text: Text) -> Result<String, u8>
    ensures text { IfOk result (λ made. string_bytes made ≡ text_of text screen.now) }
    ensures answer { IsAnswer (due_for text screen.now) (status_in result) }
    ensures nonempty { status_in result ≡ out_of_memory → HasText text screen.now }
    ensures refused { IfErr result (λ status. ¬ (status ≡ ok)) }
{
    match text {
        Text::Contents => or_status(screen.contents()),
        Text::Between(start_row, start_col, end_row, end_col) => {
            between(screen, (start_row, start_col), (end_row, end_col))
        }
        Text::Formatted => or_status(screen.contents_formatted()),
        Text::FormattedWith(options) => or_status(screen.contents_formatted_with(options)),
        Text::FormattedReset => or_status(screen.contents_formatted_reset()),
        Text::FormattedBasic => or_status(screen.contents_formatted_basic()),
        Text::State => or_status(screen.state_formatted()),
        Text::StateWith(options) => or_status(screen.state_formatted_with(options)),
        Text::CursorState => or_status(screen.cursor_state_formatted()),
        Text::Attributes => or_status(screen.attributes_formatted()),
        Text::InputMode => or_status(screen.input_mode_formatted()),
    }
}

/// Returns the text between two positions, each given as a row and a column, both counted from 0.
///
/// # Errors
///
/// Returns `BAD_ARGUMENT` if the range spans several rows and its start column is greater than the
/// number of columns, or `OUT_OF_MEMORY` if an allocation fails.
#[tactic(auto, using(crate::proofs::Refused::where_some))]
fn between(screen: &Screen, start: (u16, u16), end: (u16, u16)) -> Result<String, u8>
    ensures text { IfOk result
        (λ made. string_bytes made ≡ between_of start.0 start.1 end.0 end.1 screen.now) }
    ensures answer { IsAnswer (start_status start.0 start.1 end.0 screen.now) (status_in result) }
    ensures nonempty { status_in result ≡ out_of_memory →
        0 < length (between_of start.0 start.1 end.0 end.1 screen.now) }
    ensures refused { IfErr result (λ status. ¬ (status ≡ ok)) }
{
    if is_outside(screen, start, end.0) {
        return Err(BAD_ARGUMENT);
    }
    or_status(screen.contents_between(start.0, start.1, end.0, end.1))
}

/// Returns whether a range spans several rows and its start column is greater than the number of
/// columns. `start` is the row and column of the range's start, and `end_row` is its last row.
fn is_outside(screen: &Screen, start: (u16, u16), end_row: u16) -> bool
    ensures value { result ≡ (nat_lt start.0 end_row && nat_lt screen.now.page.width start.1) }
    ensures inside { result ≡ false → start.0 < end_row → start.1 ≤ screen.now.page.width }
{
    let (_, cols) = screen.size();
    start.0 < end_row && cols.get() < start.1
}

/// Generates the diff of the given kind from the screen of `prev` to the screen
/// of `source`.
///
/// # Errors
///
/// Returns `WRONG_KIND` if either source has no screen, `OTHER_SIZE` if the two
/// screens differ in size and diffs of the given kind require equal sizes, or
/// `OUT_OF_MEMORY` if an allocation fails.
pub(crate) fn difference_in(
    source: &Source,
    prev: &Source,
    difference: Difference,
) -> Result<String, u8>
    ensures text { IfOk result (λ made. OnBoth (screen_in source.now) (screen_in prev.now)
        (λ screen prev. IsDifference difference screen prev (string_bytes made))) }
    ensures answer { IsAnswer (due_on_both (due_for_both difference) (screen_in source.now) (screen_in prev.now))
        (status_in result) }
    ensures nonempty { status_in result ≡ out_of_memory →
        OnBoth (screen_in source.now) (screen_in prev.now) (HasDifference difference) }
    ensures refused { IfErr result (λ status. ¬ (status ≡ ok)) }
{
    let Some(screen) = screen_of(source) else {
        return Err(WRONG_KIND);
    };
    match screen_of(prev) {
        Some(prev) => difference_of(screen, prev, difference),
        None => Err(WRONG_KIND),
    }
}

/// Generates the diff of the given kind from `prev` to `screen`.
///
/// # Errors
///
/// Returns `OTHER_SIZE` if the two screens differ in size and diffs of the
/// given kind require equal sizes, or `OUT_OF_MEMORY` if an allocation fails.
fn difference_of(screen: &Screen, prev: &Screen, difference: Difference) -> Result<String, u8>
    ensures text { IfOk result (λ made. IsDifference difference screen.now prev.now (string_bytes made)) }
    ensures answer { IsAnswer (due_for_both difference screen.now prev.now) (status_in result) }
    ensures nonempty { status_in result ≡ out_of_memory → HasDifference difference screen.now prev.now }
    ensures refused { IfErr result (λ status. ¬ (status ≡ ok)) }
{
    match difference {
        Difference::Contents => contents_diff(screen, prev),
        Difference::Scrolling => contents_diff_scrolling(screen, prev),
        Difference::With(options) => contents_diff_with(screen, prev, options),
        Difference::State => state_diff(screen, prev),
        Difference::StateWith(options) => state_diff_with(screen, prev, options),
        Difference::InputMode => input_mode_diff(screen, prev),
    }
}

/// Returns the escape sequences that turn the display of `prev` into that of
/// `screen`.
///
/// # Errors
///
/// Returns `OTHER_SIZE` if the two screens differ in size, or `OUT_OF_MEMORY`
/// if an allocation fails.
#[tactic(auto, using(crate::proofs::Refused::where_some))]
fn contents_diff(screen: &Screen, prev: &Screen) -> Result<String, u8>
    ensures text { IfOk result (λ made. IsDifference between.Contents screen.now prev.now (string_bytes made)) }
    ensures answer { IsAnswer (sizes_status screen.now prev.now) (status_in result) }
    ensures nonempty { status_in result ≡ out_of_memory → HasDifference between.Contents screen.now prev.now }
    ensures refused { IfErr result (λ status. ¬ (status ≡ ok)) }
{
    if !is_sized_as(screen, prev) {
        return Err(OTHER_SIZE);
    }
    or_status(screen.contents_diff(prev))
}

/// Returns the escape sequences that turn the display of `prev` into that of `screen`. The output
/// may begin by moving rows or columns.
///
/// # Errors
///
/// Returns `OTHER_SIZE` if the two screens differ in size, or `OUT_OF_MEMORY` if an allocation
/// fails.
#[tactic(auto, using(crate::proofs::Refused::where_some))]
fn contents_diff_scrolling(screen: &Screen, prev: &Screen) -> Result<String, u8>
    ensures text { IfOk result (λ made. IsDifference between.Scrolling screen.now prev.now (string_bytes made)) }
    ensures answer { IsAnswer (sizes_status screen.now prev.now) (status_in result) }
    ensures nonempty { status_in result ≡ out_of_memory → HasDifference between.Scrolling screen.now prev.now }
    ensures refused { IfErr result (λ status. ¬ (status ≡ ok)) }
{
    if !is_sized_as(screen, prev) {
        return Err(OTHER_SIZE);
    }
    or_status(screen.contents_diff_scrolling(prev))
}

/// Returns a diff with the given options: the escape sequences that turn the
/// display of `prev` into that of `screen`.
///
/// # Errors
///
/// Returns `OTHER_SIZE` if the two screens differ in size, or `OUT_OF_MEMORY`
/// if an allocation fails.
#[tactic(auto, using(crate::proofs::Refused::where_some))]
fn contents_diff_with(screen: &Screen, prev: &Screen, options: DiffOptions) -> Result<String, u8>
    ensures text { IfOk result (λ made. IsDifference (between.With options) screen.now prev.now (string_bytes made)) }
    ensures answer { IsAnswer (sizes_status screen.now prev.now) (status_in result) }
    ensures nonempty { status_in result ≡ out_of_memory → HasDifference (between.With options) screen.now prev.now }
    ensures refused { IfErr result (λ status. ¬ (status ≡ ok)) }
{
    if !is_sized_as(screen, prev) {
        return Err(OTHER_SIZE);
    }
    or_status(screen.contents_diff_with(prev, options))
}

/// Returns the escape sequences that turn the display and the input modes of
/// `prev` into those of `screen`.
///
/// # Errors
///
/// Returns `OTHER_SIZE` if the two screens differ in size, or `OUT_OF_MEMORY`
/// if an allocation fails.
#[tactic(auto, using(crate::proofs::Refused::where_some))]
fn state_diff(screen: &Screen, prev: &Screen) -> Result<String, u8>
    ensures text { IfOk result (λ made. IsDifference between.State screen.now prev.now (string_bytes made)) }
    ensures answer { IsAnswer (sizes_status screen.now prev.now) (status_in result) }
    ensures nonempty { status_in result ≡ out_of_memory → HasDifference between.State screen.now prev.now }
    ensures refused { IfErr result (λ status. ¬ (status ≡ ok)) }
{
    if !is_sized_as(screen, prev) {
        return Err(OTHER_SIZE);
    }
    or_status(screen.state_diff(prev))
}

/// Returns a diff with the given options: the escape sequences that turn the display and the input
/// modes of `prev` into those of `screen`.
///
/// # Errors
///
/// Returns `OTHER_SIZE` if the two screens differ in size, or `OUT_OF_MEMORY` if an allocation
/// fails.
#[tactic(auto, using(crate::proofs::Refused::where_some))]
fn state_diff_with(screen: &Screen, prev: &Screen, options: DiffOptions) -> Result<String, u8>
    ensures text { IfOk result (λ made. IsDifference (between.StateWith options) screen.now prev.now (string_bytes made)) }
    ensures answer { IsAnswer (sizes_status screen.now prev.now) (status_in result) }
    ensures nonempty { status_in result ≡ out_of_memory → HasDifference (between.StateWith options) screen.now prev.now }
    ensures refused { IfErr result (λ status. ¬ (status ≡ ok)) }
{
    if !is_sized_as(screen, prev) {
        return Err(OTHER_SIZE);
    }
    or_status(screen.state_diff_with(prev, options))
}

/// Returns the escape sequences that change the input modes of `prev` to those
/// of `screen`.
///
/// # Errors
///
/// Returns `OUT_OF_MEMORY` if an allocation fails.
#[tactic(auto, using(crate::proofs::Refused::where_some))]
fn input_mode_diff(screen: &Screen, prev: &Screen) -> Result<String, u8>
    ensures text { IfOk result (λ made. IsDifference between.InputMode screen.now prev.now (string_bytes made)) }
    ensures answer { IsAnswer (any_screens screen.now prev.now) (status_in result) }
    ensures nonempty { status_in result ≡ out_of_memory → HasDifference between.InputMode screen.now prev.now }
    ensures refused { IfErr result (λ status. ¬ (status ≡ ok)) }
{
    or_status(screen.input_mode_diff(prev))
}

/// Returns the options that `bits` selects: bit 0 allows a diff to begin by moving rows or columns,
/// bit 1 allows REP for all characters, and bit 2 allows it for printable ASCII characters. Bit 2
/// has no effect if bit 1 is set. Bit 3 makes the diff portable. The other bits are ignored.
pub(crate) fn options_in(bits: u8) -> DiffOptions
    ensures { result ≡ options_of bits }
{
    DiffOptions {
        scroll: bits % 2 == 1,
        repeat: repeat_in(bits),
        portable: bits / 8 % 2 == 1,
    }
}

/// Returns the options for a redraw that `bits` selects: bit 3 makes it portable. The other bits are
/// ignored.
pub(crate) fn redraw_options_in(bits: u8) -> RedrawOptions
    ensures { result ≡ redraw_options_of bits }
{
    RedrawOptions {
        portable: bits / 8 % 2 == 1,
    }
}

/// Returns the characters that REP may repeat, which bits 1 and 2 of `bits` select.
fn repeat_in(bits: u8) -> Repeat
    ensures { result ≡ repeat_of bits }
{
    if bits / 2 % 2 == 1 {
        Repeat::Any
    } else if bits / 4 % 2 == 1 {
        Repeat::Ascii
    } else {
        Repeat::Never
    }
}

/// Returns whether two screens have the same size.
pub(crate) fn is_sized_as(screen: &Screen, prev: &Screen) -> bool
    ensures value { result ≡ same_size screen.now.page prev.now.page }
    ensures size { result ≡ true → SameSize screen.now.page prev.now.page }
{
    let (rows, cols) = screen.size();
    let (prev_rows, prev_cols) = prev.size();
    rows.get() == prev_rows.get() && cols.get() == prev_cols.get()
}

/// Converts the error of a result, which must be [`Error::OutOfMemory`], to its status code. A
/// string is returned unchanged.
pub(crate) fn or_status(made: Result<String, Error>) -> Result<String, u8>
    requires { OnlyOutOfMemory made }
    ensures text { IfOk result (λ text. made ≡ Ok text) }
    ensures answer { IsAnswer ok (status_in result) }
    ensures memory { status_in result ≡ out_of_memory → IsErr made }
    ensures refused { IfErr result (λ status. ¬ (status ≡ ok)) }
{
    match made {
        Ok(text) => Ok(text),
        Err(_) => Err(OUT_OF_MEMORY),
    }
}

/// Moves the string in `made` to `place`, stores its length in `len` and returns `OK`. If `made` is
/// an error, stores nothing and returns the error, which is a status code.
pub(crate) fn keep(place: &mut String, made: Result<String, u8>, len: &mut usize) -> u8
    requires { IfErr made (λ status. ¬ (status ≡ ok)) }
    ensures status { result ≡ status_in made }
    ensures text { result ≡ ok → made ≡ Ok place.new }
    ensures len { result ≡ ok → len.new ≡ length (string_bytes place.new) }
    ensures refused { ¬ (result ≡ ok) → place.new ≡ place.old }
    ensures refused_len { ¬ (result ≡ ok) → len.new ≡ len.old }
{
    match made {
        Ok(text) => {
            *len = text.len();
            *place = text;
            OK
        }
        Err(status) => status,
    }
}
