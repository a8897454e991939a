//! A single cell of the screen.

ghost use Rattle.std.specs.Prelude.{◌≡◌, ◌↔◌, length, IsTrue, bytes_eq};
ghost use Rattle.std.specs.Int.{to_le_bytes, w64};
ghost use Rattle.vt_cells.specs.Attrs.{is_bold, is_dim, same_attrs};
ghost use Rattle.vt_cells.specs.Cell.{is_wide, is_blank, is_glyph, is_right_half};
ghost use Rattle.vt_cells.specs.Cell.{text_of, attrs_of, same_cell, IsCell};
ghost use Rattle.vt_cells.specs.Internals.{first_eight_bytes, head_of_cell, same_head};
ghost use Rattle.vt_cells.specs.Glyph.{is_wide_text};

mod editing;
mod making;
mod short;

use crate::attrs::Attrs;
use crate::color::Color;
use crate::head::Head;
pub use editing::{append, clear, set_ascii, set_attrs, set_glyph, set_right_half, set_wide};
pub use making::{ascii, blank, default_blank, glyph, right_half, space};
pub use short::{are_short, put_short};
use std::marker::Model;
use std::str;
use unicode_width::UnicodeWidthStr;

/// The text length, in bytes, at which a cell stops accepting combining characters.
pub const MARK_LIMIT: u8 = 26;

/// The size of a cell's text array in bytes: [`MARK_LIMIT`] bytes plus the four bytes of the
/// longest UTF-8 character.
const TEXT_ROOM: usize = 30;

/// A cell of the screen: a blank, a glyph, or the continuation cell of the wide glyph before it.
///
/// A glyph is one character of width 1 or 2, followed by any combining characters added to it. Its
/// text is at most 29 bytes of UTF-8.
#[derive(Clone, Copy, Debug)]
pub struct Cell {
    head: Head,
    contents: [u8; TEXT_ROOM],
}

impl Model for Cell {
    ghost use Rattle.vt_cells.specs.Cell.{CellValue, text_of};
    ghost use Rattle.vt_cells.specs.Internals.{IsStored, cell_of_parts, head_of_cell, padded_text, stored_contents};
    ghost use Rattle.vt_cells.specs.Internals.{stored_head};

    ghost Value = { CellValue };

    ghost view = { λ c. cell_of_parts c.head c.contents };

    ghost invariant = { λ c. IsStored c.head c.contents };

    ghost inverse = { λ v. record { head = head_of_cell v; contents = padded_text (text_of v) } };

    ghost inverse_ok = { λ c h. λ i. record {
      head = stored_head c.head c.contents h i;
      contents = stored_contents c.head c.contents h i;
    } };
}

impl Cell {
    /// Returns the cell's text: a character and its combining characters, 1 to 29 bytes of UTF-8.
    /// The text of a blank or a continuation cell is empty.
    #[inline]
    pub fn contents(&self) -> &str
        ensures value { result.now ≡ text_of self.now }
        ensures sound { IsCell self.now }
    {
        let bytes = &self.contents[..usize::from(self.head.shape().len())];
        unsafe { str::from_utf8_unchecked(bytes) }
    }

    /// Returns whether the cell has text, that is, whether it is a glyph.
    #[inline]
    pub fn has_contents(&self) -> bool
        ensures { result ≡ is_glyph self.now }
    {
        self.head.shape().len() > 0
    }

    /// Returns whether the cell is the first of the two cells of a wide glyph.
    #[inline]
    pub fn is_wide(&self) -> bool
        ensures { result ≡ is_wide self.now }
    {
        self.head.shape().wide()
    }

    /// Returns whether the cell is the continuation cell of a wide glyph.
    #[inline]
    pub fn is_wide_continuation(&self) -> bool
        ensures { result ≡ is_right_half self.now }
    {
        self.head.shape().is_right_half()
    }

    /// Returns whether the two cells are of the same kind (blank, glyph or continuation cell) and
    /// have the same text, width and attributes.
    #[inline]
    fn is_same(&self, other: &Cell) -> bool
        ensures { result ≡ same_cell self.now other.now }
    {
        if !has_head_of(self, other) {
            return false;
        }
        self.has_text_of(other)
    }

    /// Returns whether the two cells have the same text. The texts must have the same length.
    ///
    /// The first eight bytes are compared as one word. Few cells have longer text.
    #[inline]
    fn has_text_of(&self, other: &Cell) -> bool
        requires { length (text_of self.now) ≡ length (text_of other.now) }
        ensures { result ≡ bytes_eq (text_of self.now) (text_of other.now) }
    {
        if self.front_word() != other.front_word() {
            return false;
        }
        if !self.head.is_long() {
            return true;
        }
        self.has_bytes_of(other)
    }

    /// Returns whether the two cells have the same text, comparing every byte.
    #[inline(never)]
    fn has_bytes_of(&self, other: &Cell) -> bool
        ensures { result ≡ bytes_eq (text_of self.now) (text_of other.now) }
    {
        self.contents() == other.contents()
    }

    /// Returns a bit mask that is nonzero if the two cells differ.
    ///
    /// The mask is also nonzero if `self` has more than seven bytes of text. Such cells must be
    /// compared byte by byte instead, because the mask covers only the first eight bytes of the
    /// texts.
    #[inline(always)]
    pub(crate) fn odd_bits(&self, other: &Cell) -> u64
        ensures { result ≡ 0 → self.now ≡ other.now }
    {
        self.head.odd_bits(&other.head) | (self.front_word() ^ other.front_word())
    }

    /// Returns the first eight bytes of the text array as a little-endian word. Bytes after the end
    /// of the text are zero.
    #[inline(always)]
    fn front_word(&self) -> u64
        ensures { to_le_bytes w64 result ≡ first_eight_bytes (text_of self.now) }
    {
        let bytes = &self.contents;
        u64::from_le_bytes([
            bytes[0], bytes[1], bytes[2], bytes[3], bytes[4], bytes[5], bytes[6], bytes[7],
        ])
    }

    /// Returns the foreground color.
    #[inline]
    pub fn fgcolor(&self) -> Color
        ensures { result ≡ (attrs_of self.now).fgcolor }
    {
        self.head.attrs().fgcolor()
    }

    /// Returns the background color.
    #[inline]
    pub fn bgcolor(&self) -> Color
        ensures { result ≡ (attrs_of self.now).bgcolor }
    {
        self.head.attrs().bgcolor()
    }

    /// Returns whether the cell is bold.
    #[inline]
    pub fn bold(&self) -> bool
        ensures { result ≡ is_bold (attrs_of self.now) }
    {
        self.head.attrs().bold()
    }

    /// Returns whether the cell is dim.
    #[inline]
    pub fn dim(&self) -> bool
        ensures { result ≡ is_dim (attrs_of self.now) }
    {
        self.head.attrs().dim()
    }

    /// Returns whether the cell is italic.
    #[inline]
    pub fn italic(&self) -> bool
        ensures { result ≡ (attrs_of self.now).italic }
    {
        self.head.attrs().italic()
    }

    /// Returns whether the cell is underlined.
    #[inline]
    pub fn underline(&self) -> bool
        ensures { result ≡ (attrs_of self.now).underline }
    {
        self.head.attrs().underline()
    }

    /// Returns whether the cell's foreground and background colors are swapped (inverse video).
    #[inline]
    pub fn inverse(&self) -> bool
        ensures { result ≡ (attrs_of self.now).inverse }
    {
        self.head.attrs().inverse()
    }
}

impl PartialEq for Cell {
    ghost use Rattle.std.specs.Prelude.{◌≡◌, ◌↔◌, IsTrue};
    ghost use Rattle.std.specs.Cmp.{partial_equiv_from_equiv};
    ghost use Rattle.vt_cells.specs.Cell.{same_cell};
    ghost use Rattle.vt_cells.specs.CellEq.{cell_eq, cell_eq_equiv};

    ghost eq = { cell_eq };

    ghost laws = { partial_equiv_from_equiv cell_eq_equiv };

    /// Returns whether the two cells are of the same kind (blank, glyph or continuation cell) and
    /// have the same text, width and attributes.
    #[inline]
    fn eq(&self, other: &Self) -> bool
        ensures value { result ≡ cell_eq self.now other.now }
        ensures test { result ≡ same_cell self.now other.now }
        ensures same { IsTrue result ↔ (self.now ≡ other.now) }
    {
        self.is_same(other)
    }
}

impl Eq for Cell {
    ghost use Rattle.vt_cells.specs.CellEq.{cell_eq_equiv};

    ghost laws = { cell_eq_equiv };
}

/// Returns whether the cell is a blank: no text, and not a continuation cell.
#[tactic(auto, using(crate::proofs::Cells::blank_kept), unfolding(crate::specs::Internals::same_shape))]
#[inline]
pub fn is_blank(cell: &Cell) -> bool
    ensures { result ≡ is_blank cell.now }
{
    cell.head.shape().is_blank()
}

/// Returns whether the two cells agree in everything except the bytes of their texts, that is, in
/// text length, width and attributes, and in whether they are continuation cells.
#[inline]
pub fn has_head_of(cell: &Cell, other: &Cell) -> bool
    ensures value { result ≡ same_head (head_of_cell cell.now) (head_of_cell other.now) }
    ensures sound { IsCell cell.now }
    ensures other { IsCell other.now }
{
    cell.head.is_same(&other.head)
}

/// Returns whether the cell's whole text is more than one column wide according to `unicode_width`.
#[tactic(auto, unfolding(crate::specs::Glyph::is_wide_text))]
pub fn is_wide_text(cell: &Cell) -> bool
    ensures { result ≡ is_wide_text (text_of cell.now) }
{
    cell.contents().width() > 1
}

/// Returns the attributes of the cell. A continuation cell has default attributes.
#[inline]
pub fn attrs(cell: &Cell) -> Attrs
    ensures { result ≡ attrs_of cell.now }
{
    cell.head.attrs()
}

/// Returns whether the attributes of the cell equal `attrs`.
#[inline]
pub fn has_attrs(cell: &Cell, attrs: &Attrs) -> bool
    ensures { result ≡ same_attrs attrs.now (attrs_of cell.now) }
{
    attrs.is_same(&cell.head.attrs())
}
