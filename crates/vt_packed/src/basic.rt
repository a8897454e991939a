//! The basic text of a packed row: its text with SGR sequences, written from the packed form.

ghost use Rattle.std.specs.Prelude.{◌≡◌, ◌<◌, [], ◌∷◌, ◌++◌, if◌then◌else◌, false};
ghost use Rattle.std.specs.Prelude.{length, true, IfOk, IsErr, OnErr, OnOk};
ghost use Rattle.vt_cells.specs.Cell.{attrs_of};
ghost use Rattle.vt_cells.specs.Op.{change_text};
ghost use Rattle.vt_cells.specs.Sinks.{IsStopped};
ghost use Rattle.vt_rows.specs.Basic.{attrs_after, attrs_after_all, cells_text, shown_text};
ghost use Rattle.vt_rows.specs.Internals.{Gathers, cell_text};
ghost use Rattle.vt_packed.specs.Items.{cells_of, first_cell};

use crate::items::{Item, Items};
use std::str;
use vt_cells::term::ChangeAttrs;
use vt_cells::{Attrs, Buffer, Sink};

/// Writes `\n` if `is_due` is true.
///
/// # Errors
///
/// Returns the sink's error.
pub fn write_line_end<S: Sink>(sink: &mut S, is_due: bool) -> Result<(), S::Error>
    ensures text { OnOk result (S.text sink.new ≡ S.text sink.old ++ (if is_due then 0x0A ∷ [] else [])) }
    ensures stopped { OnErr result
        (IsStopped S.refuses (S.text sink.old) (if is_due then 0x0A ∷ [] else []) (S.text sink.new)) }
    ensures due { IsErr result → is_due ≡ true }
{
    if is_due { sink.write_str("\n") } else { Ok(()) }
}

/// Writes the text of the cells of `items`, with an SGR sequence wherever the attributes change.
/// `attrs` are the attributes in effect before the text. Returns the attributes in effect after it.
///
/// # Errors
///
/// Returns the sink's error. Part of the output may have been written by then.
#[tactic(auto, using(vt_cells::proofs::Sinks::nothing_gathered))]
pub fn write_item_texts<S: Sink>(
    sink: &mut S,
    items: &mut Items,
    attrs: Attrs,
) -> Result<Attrs, S::Error>
    ensures text { OnOk result (S.text sink.new ≡ S.text sink.old ++ cells_text attrs (cells_of items.old)) }
    ensures attrs { IfOk result (λ last. last ≡ attrs_after_all attrs (cells_of items.old)) }
    ensures stopped { OnErr result
        (IsStopped S.refuses (S.text sink.old) (cells_text attrs (cells_of items.old)) (S.text sink.new)) }
    ensures nonempty { OnErr result (0 < length (cells_text attrs (cells_of items.old))) }
{
    let mut buffer = Buffer::new();
    let mut last = attrs;
    while let Some(item) = items.next() {
        add_item(sink, &mut buffer, &item, &mut last)?;
    }
    buffer.flush(sink)?;
    Ok(last)
}

/// Appends the text of an item to `buffer`. If the item's attributes differ from `attrs`, the
/// attributes written last, first appends the SGR sequence that changes them and updates `attrs`.
/// Flushes the buffer to `sink` when it lacks room.
///
/// A default blank is written without a change of attributes.
///
/// # Errors
///
/// Returns the sink's error. Part of the output may have been written by then.
#[inline]
fn add_item<S: Sink>(
    sink: &mut S,
    buffer: &mut Buffer,
    item: &Item,
    attrs: &mut Attrs,
) -> Result<(), S::Error>
    ensures added { OnOk result
        (Gathers (S.text sink.old) buffer.old (cell_text attrs.old (first_cell item.now)) (S.text sink.new) buffer.new) }
    ensures attrs { OnOk result (attrs.new ≡ attrs_after attrs.old (first_cell item.now)) }
    ensures stopped { OnErr result
        (IsStopped S.refuses (S.text sink.old) (buffer.old ++ cell_text attrs.old (first_cell item.now)) (S.text sink.new)) }
    ensures nonempty { OnErr result (0 < length (cell_text attrs.old (first_cell item.now))) }
{
    if keeps_attrs(item, attrs) {
        return buffer.add(sink, shown(item));
    }
    let was = *attrs;
    *attrs = item_attrs(item);
    ChangeAttrs { was, new: *attrs }.add(sink, buffer)?;
    buffer.add(sink, shown(item))
}

/// Returns the attributes of an item.
#[inline]
fn item_attrs(item: &Item) -> Attrs
    ensures { result ≡ attrs_of (first_cell item.now) }
{
    item.attrs
}

/// Returns whether an item is written without an SGR sequence, that is, whether it is a default
/// blank or has `attrs`, the attributes written last.
#[inline]
fn keeps_attrs(item: &Item, attrs: &Attrs) -> bool
    ensures yes { result ≡ true → (attrs_after attrs.now (first_cell item.now) ≡ attrs.now)
        × (change_text attrs.now (attrs_after attrs.now (first_cell item.now)) ≡ []) }
    ensures no { result ≡ false → attrs_after attrs.now (first_cell item.now) ≡ attrs_of (first_cell item.now) }
{
    if attrs.is_same(&item.attrs) {
        return true;
    }
    if !item.text.is_empty() {
        return false;
    }
    item.attrs.is_same(&Attrs::new())
}

/// Returns the text that is written for an item: the text of a glyph, or a space for a blank.
#[inline]
fn shown<'a>(item: &Item<'a>) -> &'a str
    ensures { result.now ≡ shown_text (first_cell item.now) }
{
    if item.text.is_empty() {
        " "
    } else {
        unsafe { str::from_utf8_unchecked(item.text) }
    }
}
