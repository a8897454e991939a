//! The escape sequences that make a terminal move a band of its rows.

ghost use Rattle.std.specs.Prelude.{◌≡◌, ◌++◌, OnOk, length};
ghost use Rattle.vt_redraw.specs.Moved.{IsBand, band_text, down_text, lines_deleted_text};
ghost use Rattle.vt_redraw.specs.Moved.{lines_inserted_text, moving_text, up_text};

use crate::band::Band;
use crate::pen::write_change;
use crate::view::View;
use vt_cells::term::{BufWrite, DeleteLines, InsertLines, MoveTo};
use vt_cells::{Attrs, Pos, Sink};

/// Writes the sequences that move the cursor to row `row` and delete `count` rows there (CUP, then
/// DL).
fn write_deleted<S: Sink>(sink: &mut S, row: u16, count: u16) -> Result<(), S::Error>
    ensures { OnOk result (S.text sink.new ≡ S.text sink.old ++ lines_deleted_text row count) }
{
    MoveTo {
        pos: Pos { row, col: 0 },
    }
    .write_buf(sink)?;
    DeleteLines { count }.write_buf(sink)
}

/// Writes the sequences that move the cursor to row `row` and insert `count` blank rows there (CUP,
/// then IL).
fn write_inserted<S: Sink>(sink: &mut S, row: u16, count: u16) -> Result<(), S::Error>
    ensures { OnOk result (S.text sink.new ≡ S.text sink.old ++ lines_inserted_text row count) }
{
    MoveTo {
        pos: Pos { row, col: 0 },
    }
    .write_buf(sink)?;
    InsertLines { count }.write_buf(sink)
}

/// Writes the sequences that move a band up, in a picture of `height` rows.
#[tactic(auto, unfolding(crate::specs::Moved::up_text))]
fn write_up<S: Sink>(sink: &mut S, height: u16, band: Band) -> Result<(), S::Error>
    requires { IsBand height band }
    ensures { OnOk result (S.text sink.new ≡ S.text sink.old ++ up_text height band) }
{
    let Band {
        top,
        bottom,
        count,
        up: _,
    } = band;
    if bottom == height {
        return write_deleted(sink, top, count);
    }
    write_deleted(sink, top, count)?;
    write_inserted(sink, bottom - count, count)
}

/// Writes the sequences that move a band down, in a picture of `height` rows.
#[tactic(auto, unfolding(crate::specs::Moved::down_text))]
fn write_down<S: Sink>(sink: &mut S, height: u16, band: Band) -> Result<(), S::Error>
    requires { IsBand height band }
    ensures { OnOk result (S.text sink.new ≡ S.text sink.old ++ down_text height band) }
{
    let Band {
        top,
        bottom,
        count,
        up: _,
    } = band;
    if bottom == height {
        return write_inserted(sink, top, count);
    }
    write_deleted(sink, bottom - count, count)?;
    write_inserted(sink, top, count)
}

/// Writes the sequences that move a band, in a picture of `height` rows.
fn write_band<S: Sink>(sink: &mut S, height: u16, band: Band) -> Result<(), S::Error>
    requires { IsBand height band }
    ensures { OnOk result (S.text sink.new ≡ S.text sink.old ++ band_text height band) }
{
    if band.up {
        write_up(sink, height, band)
    } else {
        write_down(sink, height, band)
    }
}

/// Writes the sequences that move a band of the terminal's rows. `prev` is the picture that the
/// terminal displays. Afterward, the terminal has default attributes.
///
/// # Errors
///
/// Returns the sink's error. Part of the output may have been written by then.
pub fn write_moves<S: Sink>(sink: &mut S, prev: &View<'_>, band: Band) -> Result<(), S::Error>
    requires { IsBand (length prev.now.rows) band }
    ensures { OnOk result (S.text sink.new ≡ S.text sink.old ++ moving_text band prev.now) }
{
    write_change(sink, prev.pen().attrs, Attrs::new())?;
    write_band(sink, prev.rows(), band)
}
