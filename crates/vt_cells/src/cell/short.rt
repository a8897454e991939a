//! Functions that overwrite cells. If the old text of a cell has at most seven bytes, the bytes of
//! its text array after the first eight are already zero and are not written again.

ghost use Rattle.std.specs.Prelude.{◌≡◌, ◌<◌, ◌++◌, All, IsTrue, drop, length};
ghost use Rattle.std.specs.Int.{to_le_bytes, w64};
ghost use Rattle.vt_cells.specs.Attrs.{default_attrs};
ghost use Rattle.vt_cells.specs.Cell.{IsShort, blank, text_of};

use super::making::default_blank;
use super::{Cell, TEXT_ROOM};

/// Overwrites a cell with `new`, whose text must have at most seven bytes.
#[inline(always)]
pub(super) fn overwrite(cell: &mut Cell, new: Cell)
    requires { IsShort new }
    ensures { cell.new ≡ new }
{
    make_short(cell);
    put_short(cell, &new);
}

/// Turns a cell with more than seven bytes of text into a default blank; leaves any other cell
/// unchanged.
#[inline(always)]
fn make_short(cell: &mut Cell)
    ensures short { IsShort cell.old → cell.new ≡ cell.old }
    ensures long { 7 < length (text_of cell.old) → cell.new ≡ blank default_attrs }
    ensures made { IsShort cell.new }
{
    if cell.head.is_long() {
        *cell = default_blank();
    }
}

/// Overwrites a cell with a copy of `new`. Neither cell may have more than seven bytes of text.
///
/// Only the head and the first eight bytes of the text array are written.
#[inline(always)]
pub fn put_short(cell: &mut Cell, new: &Cell)
    requires old { IsShort cell.old }
    requires new { IsShort new.now }
    ensures { cell.new ≡ new.now }
{
    put_word(&mut cell.contents, new.front_word());
    cell.head = new.head;
}

/// Overwrites the first eight bytes of a text array with `word`, in little-endian order.
#[inline(always)]
fn put_word(contents: &mut [u8; TEXT_ROOM], word: u64)
    ensures { contents.new ≡ to_le_bytes w64 word ++ drop 8 contents.old }
{
    if let Some(front) = contents.first_chunk_mut::<8>() {
        *front = word.to_le_bytes();
    }
}

/// Returns whether all cells have at most seven bytes of text.
///
/// The text lengths are combined into one word, which is tested once.
#[inline(always)]
pub fn are_short(cells: &[Cell]) -> bool
    ensures all { IsTrue result → All IsShort cells.now }
    ensures complete { All IsShort cells.now → IsTrue result }
{
    let mut bits = 0;
    for cell in cells.iter() {
        bits |= cell.head.long_bits();
    }
    bits == 0
}
