//! Theorems about packed rows. The functions do nothing; a proof may cite their clauses.

ghost use Rattle.std.specs.Prelude.{◌≡◌, List, map};
ghost use Rattle.std.specs.List.{AllByRecursion};
ghost use Rattle.vt_cells.specs.Cell.{CellValue, IsCell};
ghost use Rattle.vt_rows.specs.Cells.{IsPaired};
ghost use Rattle.vt_packed.specs.Items.{Item, IsItem, cells_of, items_of, stored_texts};
ghost use Rattle.vt_packed.specs.Packed.{items_from};

/// States that packing loses nothing: the cells of the items of a row are the cells of the row, and
/// items are the same once their texts are stored one after the other and read back.
pub fn round_trip()
    ensures cells { (cells : List CellValue) → IsPaired cells → AllByRecursion IsCell cells →
        cells_of (items_of cells) ≡ cells }
    ensures texts { (items : List Item) → AllByRecursion IsItem items →
        items_from (map (λ item. item.style) items) (stored_texts items) ≡ items }
{}
