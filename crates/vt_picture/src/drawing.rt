//! Drawing a picture of a screen.

ghost use Rattle.std.specs.Prelude.{◌-◌, IfSome, length, slice_get};
ghost use Rattle.vt_picture.specs.Spots.{IsExtent};

use crate::color::{INK, PAPER};
use crate::spot::{Mark, Spot, cursor_col, spots_of};
use std::alloc::{AllocError, Global};
use std::fmt;
use vt100::Screen;

/// The width of a column, in SVG units.
const WIDTH: u32 = 9;

/// The height of a row, in SVG units.
const HEIGHT: u32 = 17;

/// The distance of the text's baseline from the top of its row, in SVG units.
const BASE: u32 = 13;

/// The distance of the screen from each side of the picture, in SVG units.
const MARGIN: u32 = 9;

const FONTS: &str = "'DejaVu Sans Mono', Menlo, Consolas, monospace";

/// The style sheet of the picture. It preserves blanks and arranges glyphs from left to right in
/// the order of their columns.
const STYLE: &str = "text { white-space: pre; direction: ltr; unicode-bidi: bidi-override }";

/// Returns a picture of a screen as SVG, which draws first the backgrounds and then the text.
///
/// Each text element begins at its column and is as wide as its columns, whatever font displays it.
pub fn svg(alloc: Global, screen: &Screen) -> Result<String, AllocError> {
    let mut out = String::new(alloc);
    write_head(&mut out, screen)?;
    write_rows(alloc, &mut out, screen)?;
    writeln!(out, "</g>\n</svg>")?;
    Ok(out)
}

/// Writes the size, the style sheet and the background of the whole picture, and begins the group
/// that contains all rows.
fn write_head(out: &mut String, screen: &Screen) -> Result<(), AllocError> {
    let (rows, cols) = screen.size();
    let width = u32::from(cols.get()) * WIDTH + 2 * MARGIN;
    let height = u32::from(rows.get()) * HEIGHT + 2 * MARGIN;
    writeln!(
        out,
        r#"<svg xmlns="http://www.w3.org/2000/svg" width="{width}" height="{height}" xml:space="preserve">"#
    )?;
    writeln!(out, "<style>{STYLE}</style>")?;
    writeln!(
        out,
        r#"<rect width="{width}" height="{height}" fill="{PAPER}"/>"#
    )?;
    write!(
        out,
        r#"<g transform="translate({MARGIN} {MARGIN})" font-family="{FONTS}" font-size="15""#
    )?;
    writeln!(out, r#" fill="{INK}" shape-rendering="crispEdges">"#)
}

/// Writes the backgrounds of all rows, and then their texts.
fn write_rows(alloc: Global, out: &mut String, screen: &Screen) -> Result<(), AllocError> {
    let (rows, _) = screen.size();
    for row in 0..rows.get() {
        write_papers(out, spots_of(alloc, screen, row)?.as_slice(), row)?;
    }
    for row in 0..rows.get() {
        let spots = spots_of(alloc, screen, row)?;
        write_texts(out, spots.as_slice(), row)?;
        write_mark(out, screen, spots.as_slice(), row)?;
    }
    Ok(())
}

/// Writes a rectangle for each run of cells with the same background color, unless that is the
/// background color of the whole picture.
fn write_papers(out: &mut String, spots: &[Spot<'_>], row: u16) -> Result<(), AllocError> {
    for stretch in spots.chunk_by(|one, next| one.paint.paper == next.paint.paper) {
        write_paper(out, stretch, row)?;
    }
    Ok(())
}

fn write_paper(out: &mut String, stretch: &[Spot<'_>], row: u16) -> Result<(), AllocError> {
    let [first, ..] = stretch else {
        return Ok(());
    };
    let paper = first.paint.paper;
    if paper == PAPER {
        return Ok(());
    }
    let (x, width) = extent(stretch);
    let y = u32::from(row) * HEIGHT;
    writeln!(
        out,
        r#"<rect x="{x}" y="{y}" width="{width}" height="{HEIGHT}" fill="{paper}"/>"#
    )
}

/// Writes a text element for each run of ASCII with the same style, without the blanks at its ends,
/// and for each other glyph.
fn write_texts(out: &mut String, spots: &[Spot<'_>], row: u16) -> Result<(), AllocError> {
    for stretch in spots.chunk_by(|one, next| one.goes_on_in(next)) {
        if let Some(inked) = inked(stretch) {
            write_text(out, inked, row)?;
        }
    }
    Ok(())
}

/// Returns the part of a run from its first to its last spot that is not blank, or `None` if all
/// spots are blank.
fn inked<'a, 'b>(stretch: &'a [Spot<'b>]) -> Option<&'a [Spot<'b>]> {
    let first = stretch.iter().position(|spot| !spot.is_blank())?;
    let last = stretch.iter().rposition(|spot| !spot.is_blank())?;
    stretch.get(first..=last)
}

fn write_text(out: &mut String, stretch: &[Spot<'_>], row: u16) -> Result<(), AllocError> {
    let [first, ..] = stretch else {
        return Ok(());
    };
    let (x, width) = extent(stretch);
    let y = u32::from(row) * HEIGHT + BASE;
    write!(out, r#"<text x="{x}" y="{y}" textLength="{width}""#)?;
    write_style(out, first)?;
    out.push('>')?;
    for spot in stretch {
        let text = if spot.text.is_empty() { " " } else { spot.text };
        write!(out, "{}", Escaped(text))?;
    }
    writeln!(out, "</text>")
}

/// Writes the attributes in which the spot differs from unstyled text. A glyph outside ASCII is
/// stretched to its columns.
fn write_style(out: &mut String, spot: &Spot<'_>) -> Result<(), AllocError> {
    let paint = spot.paint;
    if !spot.text.is_ascii() {
        out.push_str(r#" lengthAdjust="spacingAndGlyphs""#)?;
    }
    if paint.ink != INK {
        write!(out, r#" fill="{}""#, paint.ink)?;
    }
    if paint.bold {
        out.push_str(r#" font-weight="bold""#)?;
    }
    if paint.italic {
        out.push_str(r#" font-style="italic""#)?;
    }
    if paint.underline {
        out.push_str(r#" text-decoration="underline""#)?;
    }
    Ok(())
}

/// Returns the position and the width of a run, in SVG units.
fn extent(stretch: &[Spot<'_>]) -> (u32, u32)
    ensures { IfSome (slice_get stretch.now 0) (λ first.
        IfSome (slice_get stretch.now (length stretch.now - 1)) (λ last. IsExtent first last result)) }
{
    let (Some(first), Some(last)) = (stretch.first(), stretch.last()) else {
        return (0, 0);
    };
    extent_between(first, last)
}

/// Returns the position and the width, in SVG units, of a run that begins with `first` and ends with `last`.
fn extent_between(first: &Spot<'_>, last: &Spot<'_>) -> (u32, u32)
    ensures { IsExtent first.now last.now result }
{
    let begin = u32::from(first.col);
    let cols = last.end().saturating_sub(begin);
    (begin * WIDTH, cols.saturating_mul(WIDTH))
}

/// Writes the cursor if it is an underline or a bar; a block cursor is painted with the text.
fn write_mark(
    out: &mut String,
    screen: &Screen,
    spots: &[Spot<'_>],
    row: u16,
) -> Result<(), AllocError> {
    let Some(col) = cursor_col(screen, row) else {
        return Ok(());
    };
    let Some(spot) = spots.iter().find(|spot| spot.covers(col)) else {
        return Ok(());
    };
    let x = u32::from(spot.col) * WIDTH;
    let top = u32::from(row) * HEIGHT;
    let (y, width, height) = match Mark::of(screen.cursor_style()) {
        Mark::Block => return Ok(()),
        Mark::Underline => (top + HEIGHT - 2, u32::from(spot.cols) * WIDTH, 2),
        Mark::Bar => (top, 2, HEIGHT),
    };
    writeln!(
        out,
        r#"<rect x="{x}" y="{y}" width="{width}" height="{height}"/>"#
    )
}

/// Text escaped for use between two tags. The two characters U+FFFE and U+FFFF, which XML does not
/// allow, are written as U+FFFD.
#[derive(Clone, Copy)]
struct Escaped<'a>(&'a str);

impl fmt::Display for Escaped<'_> {
    fn fmt<W: fmt::Write>(&self, f: &mut fmt::Formatter<W>) -> fmt::Result {
        for c in self.0.chars() {
            match c {
                '&' => write!(f, "&amp;")?,
                '<' => write!(f, "&lt;")?,
                '>' => write!(f, "&gt;")?,
                '\u{fffe}' | '\u{ffff}' => write!(f, "\u{fffd}")?,
                _ => write!(f, "{c}")?,
            }
        }
        Ok(())
    }
}
