//! Laws about what screens display. These functions do nothing when called;
//! their clauses state what is proved.

ghost use Rattle.std.specs.Prelude.{[], codes, ◌≡◌, ◌+◌, ◌<◌, ◌≤◌, ◌↔◌, ℕ, List, suc, ◌++◌, false, length, replicate, true};
ghost use Rattle.vt_grid.specs.Page.{SameSize};
ghost use Rattle.vt_redraw.specs.Locality.{row_of_picture};
ghost use Rattle.vt_redraw.specs.Picture.{IsPicture, SamePictureSize};
ghost use Rattle.vt_redraw.specs.Steady.{IsSteady};
ghost use Rattle.vt_rows.specs.Basic.{nothing_written};
ghost use Rattle.vt_rows.specs.Cells.{at};
ghost use Rattle.vt_scan.specs.Automaton.{State};
ghost use Rattle.vt_scan.specs.Selectors.{ReadsNoSelector};
ghost use Rattle.vt_screen.specs.Capture.{basic_texts};
ghost use Rattle.vt_screen.specs.Contents.{between_of, contents_of};
ghost use Rattle.vt_screen.specs.Diffs.{diff_controls, finals_with};
ghost use Rattle.vt_screen.specs.Escapes.{HasOnlyControls, HasOnlyEscapes, moving_controls};
ghost use Rattle.vt_screen.specs.MadeOf.{IsMadeOf, capture_finals, drawing_controls, drawing_finals, plain_controls};
ghost use Rattle.vt_screen.specs.MadeOf.{reset_controls, shortened_controls, shortened_finals, state_controls};
ghost use Rattle.vt_screen.specs.Pages.{screen_after_resize};
ghost use Rattle.vt_screen.specs.Screen.{IsScreen, ScreenValue, fresh_screen, scrolled_back, visible_row, visible_rows};
ghost use Rattle.vt_screen.specs.Selectors.{HasNoSelectors};
ghost use Rattle.vt_screen.specs.Shown.{ShowSamePage, ShowsNoSelector, ShowsOwnPage, display};
ghost use Rattle.vt_screen.specs.States.{state_diff_controls};
ghost use Rattle.vt_screen.specs.Steps.{EraseScrollback, screen_after};
ghost use Rattle.vt_screen.specs.Streamed.{AreSameTrimmed, HasNoRis, HasWideFlags, without_scrollback, rows_of_calls, sent_off_in};
ghost use Rattle.vt_screen.specs.CallsOfRun.{calls_in, screen_in};
ghost use Rattle.vt_screen.specs.declared.repeat.Repeat.{Repeat};

/// States that the display of a screen has the screen's size, and that two screens have the same
/// size if and only if their displays do (clause `sizes`).
///
/// If no scrollback is displayed, the rows of the display are the rows that the getters return
/// (clause `own`). Displayed rows of scrollback are cut to the screen's width. Even then, all cells
/// left of the last column are the cells that the getters return (clause `inner`). A wide character
/// that is cut in two at the last column is displayed as a blank.
#[tactic(auto, using(crate::proofs::Shown::shown_cell, crate::proofs::Shown::shown_rows, crate::proofs::Shown::size_from_shown, crate::proofs::Shown::shown_height, crate::proofs::Shown::shown_is, crate::proofs::Shown::same_shown))]
pub fn shown_is()
    ensures picture { (screen : ScreenValue) → IsScreen screen → IsPicture (display screen) }
    ensures rows { (screen : ScreenValue) → length (display screen).rows ≡ length screen.page.rows }
    ensures sizes { (screen other : ScreenValue) →
        SameSize screen.page other.page ↔ SamePictureSize (display screen) (display other) }
    ensures own { (screen : ScreenValue) → IsScreen screen → ShowsOwnPage screen →
        (display screen).rows ≡ visible_rows screen }
    ensures inner { (screen : ScreenValue) (row col : ℕ) → IsScreen screen → col + 1 < screen.page.width →
        at (row_of_picture (display screen) row).cells col ≡ at (visible_row screen row).cells col }
{}

/// States that the getters of two screens with the same display return the same
/// values, as far as the display determines them.
///
/// The screens agree on the size, the cursor, the attributes, whether the
/// cursor is hidden, and the cells left of the last column. If neither screen
/// displays scrollback, they also agree on the cells of all displayed rows, on
/// which rows are wrapped, and on the text of the screen and of each range.
#[tactic(auto, using(crate::proofs::Shown::same_between, crate::proofs::Shown::same_cell_shown, crate::proofs::Shown::same_contents, crate::proofs::Shown::same_row, crate::proofs::Shown::same_rows, crate::proofs::Shown::size_of_shown))]
pub fn same_shown()
    ensures size { (screen other : ScreenValue) → display screen ≡ display other → SameSize screen.page other.page }
    ensures row { (screen other : ScreenValue) → display screen ≡ display other → screen.page.row ≡ other.page.row }
    ensures column { (screen other : ScreenValue) → display screen ≡ display other →
        screen.page.column ≡ other.page.column }
    ensures attrs { (screen other : ScreenValue) → display screen ≡ display other → screen.attrs ≡ other.attrs }
    ensures hidden { (screen other : ScreenValue) → display screen ≡ display other → screen.hidden ≡ other.hidden }
    ensures inner { (screen other : ScreenValue) (row col : ℕ) → IsScreen screen → IsScreen other →
        display screen ≡ display other → col + 1 < screen.page.width →
        at (visible_row screen row).cells col ≡ at (visible_row other row).cells col }
    ensures rows { (screen other : ScreenValue) → ShowSamePage screen other → visible_rows screen ≡ visible_rows other }
    ensures cells { (screen other : ScreenValue) (row : ℕ) → ShowSamePage screen other →
        visible_row screen row ≡ visible_row other row }
    ensures contents { (screen other : ScreenValue) → ShowSamePage screen other →
        contents_of screen ≡ contents_of other }
    ensures between { (start_row start_col end_row end_col : ℕ) (screen other : ScreenValue) →
        ShowSamePage screen other →
        between_of start_row start_col end_row end_col screen ≡ between_of start_row start_col end_row end_col other }
{}

/// States that a screen is steady if no displayed cell contains U+FE0F,
/// whatever the widths of its characters are.
#[tactic(auto, using(crate::proofs::Shown::steady_without))]
pub fn steady_without_selectors()
    ensures { (screen : ScreenValue) → IsScreen screen → ShowsNoSelector screen → IsSteady (display screen) }
{}

/// States that a screen contains no U+FE0F unless it has read that character. The clauses are:
///
/// - `fresh`: a fresh screen contains no U+FE0F on either page or in scrollback.
/// - `ran`, `sized`, `scrolled_back`: a screen without U+FE0F still contains none after it has read
///   input without U+FE0F (if callbacks leave the screen alone), after a resize, and after
///   scrolling back.
/// - `shown`: a screen without U+FE0F displays no cell that contains U+FE0F, so the screen is
///   steady by `steady_without_selectors`.
///
/// By `vt_scan::laws::selectors`, input without the bytes EF B8 8F contains no U+FE0F.
pub fn no_selectors()
    ensures fresh { (rows cols capacity : ℕ) → HasNoSelectors (fresh_screen rows cols capacity) }
    ensures ran { (scan : State) (screen : ScreenValue) (bytes : List ℕ) → IsScreen screen →
        HasNoSelectors screen → ReadsNoSelector scan bytes → HasNoSelectors (screen_in scan screen bytes) }
    ensures sized { (rows cols : ℕ) (screen : ScreenValue) → IsScreen screen → HasNoSelectors screen →
        HasNoSelectors (screen_after_resize rows cols screen) }
    ensures scrolled_back { (rows : ℕ) (screen : ScreenValue) → IsScreen screen → HasNoSelectors screen →
        HasNoSelectors (scrolled_back rows screen) }
    ensures shown { (screen : ScreenValue) → HasNoSelectors screen → ShowsNoSelector screen }
{}

/// States that the capture of a fresh screen (the output of `Screen::contents_formatted_basic`)
/// consists only of newlines, one fewer than the screen has rows.
pub fn fresh_capture()
    ensures { (rows cols capacity : ℕ) →
        basic_texts nothing_written (visible_rows (fresh_screen (suc rows) cols capacity)) ≡ replicate rows 0x0A }
{}

/// States which rows scroll off the main page while a terminal reads input, provided that callbacks
/// leave the screen alone. The clauses are:
///
/// - `kept`: two lists of rows match. The first list consists of the rows that are reported to
///   `on_scroll` with `false`, followed by the scrollback after the input. The second list consists
///   of the scrollback before the input, followed by the rows that scrolled off the top of the main
///   page. Matching rows have the same cells, apart from trailing default blanks, and are either
///   both wrapped or both not wrapped. The premises are that the input contains no RIS and that no
///   wrapped row of scrollback was narrower than the screen.
/// - `sent`, `rest`: the rows that scroll off, and everything on the screen except its scrollback,
///   depend on neither the capacity nor the contents of scrollback.
#[tactic(auto, using(crate::proofs::StepScrollback::both_screen_in, crate::proofs::StepScrollback::both_sent_in, crate::proofs::StepEvents::run_streams, crate::proofs::Streaming::held_screen))]
pub fn streams()
    ensures kept { (scan : State) (screen : ScreenValue) (bytes : List ℕ) → IsScreen screen → HasWideFlags screen →
        HasNoRis scan bytes →
        AreSameTrimmed (rows_of_calls (calls_in scan screen bytes) ++ (screen_in scan screen bytes).scrollback.rows)
        (screen.scrollback.rows ++ sent_off_in scan screen bytes) }
    ensures sent { (scan : State) (screen other : ScreenValue) (bytes : List ℕ) →
        without_scrollback screen ≡ without_scrollback other → sent_off_in scan screen bytes ≡ sent_off_in scan other bytes }
    ensures rest { (scan : State) (screen other : ScreenValue) (bytes : List ℕ) →
        without_scrollback screen ≡ without_scrollback other → without_scrollback (screen_in scan screen bytes) ≡ without_scrollback (screen_in scan other bytes) }
{}

/// States when every wrapped row of scrollback is at least as wide as the screen, which is a
/// premise of `streams`.
///
/// The property holds for a fresh screen. It is preserved by reading any input, even RIS, with
/// callbacks that leave the screen alone, by scrolling back, by erasing scrollback, and by a resize
/// that adds no columns.
///
/// A resize to more columns may break the property, because a wrapped row of scrollback keeps its
/// old width. For example, print `abc` on a screen with two rows, one column and a scrollback of
/// one row. The row of `a` is then in scrollback, one column wide and wrapped, and it stays that
/// way when the screen gets more columns.
#[tactic(auto, using(crate::proofs::StepEvents::wide_cleared, crate::proofs::StepEvents::wide_fresh, crate::proofs::StepEvents::wide_resized, crate::proofs::StepEvents::wide_run, crate::proofs::StepEvents::wide_view))]
pub fn wide_flags()
    ensures fresh { (rows cols capacity : ℕ) → HasWideFlags (fresh_screen rows cols capacity) }
    ensures run { (scan : State) (screen : ScreenValue) (bytes : List ℕ) → IsScreen screen →
        HasWideFlags screen → HasWideFlags (screen_in scan screen bytes) }
    ensures view { (rows : ℕ) (screen : ScreenValue) → HasWideFlags screen → HasWideFlags (scrolled_back rows screen) }
    ensures cleared { (screen : ScreenValue) → HasWideFlags screen → HasWideFlags (screen_after EraseScrollback screen) }
    ensures resized { (rows cols : ℕ) (screen : ScreenValue) → IsScreen screen → cols ≤ screen.page.width →
        HasWideFlags screen → HasWideFlags (screen_after_resize rows cols screen) }
{}

/// States which controls and escape sequences can occur in the output of each
/// function, based on the function's clause `controls`.
///
/// Once decoded, the output contains no controls (C0, C1 or DEL) except BS, LF,
/// CR and ESC and, in scrolling diffs, HT (clauses `shortened`,
/// `with_scrolling`, `state_with_scrolling`). In output that draws (clauses
/// `drawing`, `shortened`, `with_options`, `with_scrolling`, `reset`), each ESC
/// is followed by `[`, `7` or `8`. In output that also sets modes (clauses
/// `state`, `state_with_options`, `state_with_scrolling`), an ESC may also be
/// followed by `=` or `>`. In captures, each ESC is followed by `[`. Plain text
/// contains no ESC. The clauses `with_options` and `with_scrolling` are for
/// `contents_diff_with`, and `state_with_options` and `state_with_scrolling`
/// for `state_diff_with`, each without and with the option `scroll`.
pub fn escapes()
    ensures drawing { (text : List ℕ) → IsMadeOf drawing_finals drawing_controls text →
        HasOnlyEscapes (codes "[78") text }
    ensures shortened { (text : List ℕ) → IsMadeOf shortened_finals shortened_controls text →
        HasOnlyControls moving_controls (codes "[78") text }
    ensures with_options { (repeat : Repeat) (text : List ℕ) → IsMadeOf (finals_with repeat false) (diff_controls false) text →
        HasOnlyEscapes (codes "[78") text }
    ensures with_scrolling { (repeat : Repeat) (text : List ℕ) → IsMadeOf (finals_with repeat true) (diff_controls true) text →
        HasOnlyControls moving_controls (codes "[78") text }
    ensures reset { (text : List ℕ) → IsMadeOf drawing_finals reset_controls text → HasOnlyEscapes (codes "[78") text }
    ensures state { (text : List ℕ) → IsMadeOf drawing_finals state_controls text → HasOnlyEscapes (codes "[78=>") text }
    ensures state_with_options { (repeat : Repeat) (text : List ℕ) →
        IsMadeOf (finals_with repeat false) (state_diff_controls false) text → HasOnlyEscapes (codes "[78=>") text }
    ensures state_with_scrolling { (repeat : Repeat) (text : List ℕ) →
        IsMadeOf (finals_with repeat true) (state_diff_controls true) text →
        HasOnlyControls moving_controls (codes "[78=>") text }
    ensures capture { (text : List ℕ) → IsMadeOf capture_finals plain_controls text → HasOnlyEscapes (codes "[") text }
    ensures plain { (text : List ℕ) → IsMadeOf [] plain_controls text → HasOnlyEscapes [] text }
{}
