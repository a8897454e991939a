//! Laws about every terminal that obeys the laws of `specs/Laws.antt`, and two terminals that obey
//! them. These functions do nothing when called; their clauses state what is proved.
//!
//! A *black box* is a terminal given by what is observed of it after each sequence of bytes that it
//! has read. It is *lawful* if it obeys the laws (`IsLawful`). `near` is any set of positions that
//! contains all those that glyphs on whose width terminals may disagree can change (`HasRoom`);
//! nothing is stated of the cells at these positions. If a picture has no such glyphs, the set can be
//! empty.

ghost use Rattle.std.specs.Prelude.{◌≡◌, ◌++◌, ℕ, List, true};
ghost use Rattle.std.specs.List.{AllByRecursion};
ghost use Rattle.vt_cells.specs.Op.{FitsAttrs, bytes_of_all};
ghost use Rattle.vt_redraw.specs.Picture.{IsPicture, Picture, SamePictureSize};
ghost use Rattle.vt_redraw.specs.Redraw.{difference_in, last_picture, redraw_in};
ghost use Rattle.vt_redraw.specs.declared.form.Form.TheVariants.{Portable};
ghost use Rattle.vt_terminals.specs.BlackBox.{BlackBox, CanShow, IsLawful, ShowsAfter, portable_changes};
ghost use Rattle.vt_terminals.specs.CanvasTerminal.{canvas_terminal};
ghost use Rattle.vt_terminals.specs.DecTerminal.{dec_terminal};
ghost use Rattle.vt_terminals.specs.Laws.{Laws};
ghost use Rattle.vt_terminals.specs.Room.{IsPlaced};
ghost use Rattle.vt_terminals.specs.Terminal.{Positions};

/// States that every lawful black box displays a picture after it has read the picture's portable
/// redraw, whatever it has read before.
pub fn redraw_displays()
    ensures everywhere { (box : BlackBox) → IsLawful box → (near : Positions) → (self : Picture) → (before : List ℕ) →
        CanShow box near self → box.is_ready before ≡ true →
        ShowsAfter box near self (before ++ bytes_of_all (redraw_in Portable self)) }
{}

/// States that every lawful black box that displays a picture `prev` displays the picture `self`
/// after it has read the portable diff from `prev` to `self`. The picture `prev` need not be steady.
/// In it, no wrap may be pending after a glyph on whose width terminals may disagree.
pub fn difference_displays()
    ensures everywhere { (box : BlackBox) → IsLawful box → (near : Positions) → (self prev : Picture) →
        (before : List ℕ) → CanShow box near self → IsPicture prev → FitsAttrs prev.attrs → SamePictureSize self prev →
        IsPlaced prev → ShowsAfter box near prev before →
        ShowsAfter box near self (before ++ bytes_of_all (difference_in Portable self prev)) }
{}

/// States that every lawful black box displays the last of several pictures after it has read the
/// portable redraw of the first, and then the portable diff from each picture to the next, whatever
/// it has read before.
pub fn chain_displays()
    ensures everywhere { (box : BlackBox) → IsLawful box → (near : Positions) → (self : Picture) →
        (nexts : List Picture) → (before : List ℕ) → CanShow box near self → AllByRecursion (CanShow box near) nexts →
        box.is_ready before ≡ true → ShowsAfter box near (last_picture self nexts)
        (before ++ (bytes_of_all (redraw_in Portable self) ++ portable_changes self nexts)) }
{}

/// States that this project's own model of a terminal obeys the laws.
pub fn canvas_obeys()
    ensures laws { (height width : ℕ) → Laws (canvas_terminal height width) }
{}

/// States that a terminal that differs from this project's model wherever real terminals do obeys
/// the laws: its cursor stays in the last column when a wrap is pending, bold and dim add up, erased
/// cells show only their background, what is printed over the right half of a wide glyph is lost,
/// halves of a wide glyph become junk, and characters on whose width terminals may disagree take
/// another width.
pub fn dec_obeys()
    ensures laws { (height width : ℕ) → Laws (dec_terminal height width) }
{}
