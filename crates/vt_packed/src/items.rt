//! The items of a packed row, read from left to right.

ghost use Rattle.std.specs.Prelude.{◌≡◌, [], ◌∷◌, MatchOption};
ghost use Rattle.vt_packed.specs.Items.{Item};
ghost use Rattle.vt_packed.specs.Packed.{AreCounted, AreItems, items_from, styles_of};

use crate::runs::Run;
use crate::texts::split_first;
use std::marker::Model;
use vt_cells::Attrs;

/// An item of a packed row: a blank, a narrow glyph, or a wide glyph with its continuation cell.
///
/// The text is UTF-8, and is empty if the item is a blank.
#[derive(Drop)]
pub struct Item<'a> {
    pub attrs: Attrs,
    pub wide: bool,
    pub text: &'a [u8],
}

impl<'a> Model for Item<'a> {
    ghost use Rattle.vt_packed.specs.Items.{IsItemText, Item, style_of};

    ghost Value = { Item };

    ghost view = { λ i. record { style = style_of i.attrs i.wide; text = i.text.now } };

    ghost invariant = { λ i. IsItemText i.wide i.text.now };
}

/// The items of a packed row that have not been read.
#[derive(Drop)]
pub struct Items<'a> {
    /// The runs after the current one.
    runs: &'a [Run],
    /// The number of items of the current run that have not been read.
    left: u16,
    attrs: Attrs,
    wide: bool,
    /// The texts of the items that have not been read.
    text: &'a [u8],
}

impl<'a> Model for Items<'a> {
    ghost use Rattle.std.specs.Prelude.{List, ◌++◌, replicate};
    ghost use Rattle.vt_packed.specs.Items.{Item, style_of};
    ghost use Rattle.vt_packed.specs.Packed.{AreCounted, AreItems, items_from, styles_of};

    ghost Value = { List Item };

    ghost view = { λ i. items_from (replicate i.left (style_of i.attrs i.wide) ++ styles_of i.runs.now) i.text.now };

    ghost invariant = { λ i. AreCounted i.runs.now
        × AreItems (items_from (replicate i.left (style_of i.attrs i.wide) ++ styles_of i.runs.now) i.text.now) i.text.now };
}

/// Returns the items of the given runs, whose texts are stored in `text`.
pub fn items_of<'a>(runs: &'a [Run], text: &'a [u8]) -> Items<'a>
    requires counted { AreCounted runs.now }
    requires items { AreItems (items_from (styles_of runs.now) text.now) text.now }
    ensures { result ≡ items_from (styles_of runs.now) text.now }
{
    Items {
        runs,
        left: 0,
        attrs: Attrs::new(),
        wide: false,
        text,
    }
}

impl<'a> Items<'a> {
    ghost use Rattle.std.specs.Prelude.{◌≡◌, [], ◌∷◌, MatchOption};

    /// Returns the next item, or `None` if all items have been read.
    pub fn next(&mut self) -> Option<Item<'a>>
        ensures { MatchOption result (self.old ≡ []) (λ item. self.old ≡ item ∷ self.new) }
    {
        if self.left > 0 {
            let (text, rest) = split_first(self.text);
            self.left -= 1;
            self.text = rest;
            return Some(Item {
                attrs: self.attrs,
                wide: self.wide,
                text,
            });
        }
        let (run, runs) = self.runs.split_first()?;
        let (text, rest) = split_first(self.text);
        self.runs = runs;
        self.left = run.count - 1;
        self.attrs = run.attrs;
        self.wide = run.wide;
        self.text = rest;
        Some(Item {
            attrs: self.attrs,
            wide: self.wide,
            text,
        })
    }
}
