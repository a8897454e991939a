//! Laws about sequences of calls. The functions of this module do nothing when called; their
//! clauses state what is proved.

ghost use Rattle.std.specs.List.{AllByRecursion, FoldsTo};
ghost use Rattle.std.specs.Prelude.{◌≡◌, ◌<◌, ℕ, Bool, false, true, List, [], ◌∷◌, ◌++◌, Some, length, map};
ghost use Rattle.vt100.specs.Parser.{IsHarmless, ParserValue, Ran, Stopped, parser_value, pieces_joined, does_nothing};
ghost use Rattle.vt100.specs.Parser.{stage};
ghost use Rattle.vt100.specs.Pieces.{AreDiffs, AreFine, HasRead, IsFine, IsPlainAgain, IsPlainParser, IsPlainWithModes};
ghost use Rattle.vt100.specs.Pieces.{IsUnscrolledParser, ReadDiff, ReadsDiff, last_of};
ghost use Rattle.vt100.specs.Pieces.{Processes, Processing, ShowsLast, bytes_in};
ghost use Rattle.vt100.specs.Streams.{IsFreshParser, IsRecorder, MakesCall, ParserCall, Process, bytes_of_calls};
ghost use Rattle.vt100.specs.Streams.{screen_by, calls_by, whole_text};
ghost use Rattle.vt_grid.specs.Page.{SameSize};
ghost use Rattle.vt_rows.specs.Basic.{Written, nothing_written};
ghost use Rattle.vt_scan.specs.Automaton.{State, run, start};
ghost use Rattle.vt_scan.specs.Scanner.{StandsFor};
ghost use Rattle.vt_screen.specs.Again.{KeepsPlain, MakesPlain};
ghost use Rattle.vt_screen.specs.Capture.{all_rows, basic_texts};
ghost use Rattle.vt_screen.specs.Chain.{CanShowOn, chain_text, last_screen};
ghost use Rattle.vt_screen.specs.Diffs.{KeepsScreensPlain};
ghost use Rattle.vt_screen.specs.Pages.{screen_after_resize};
ghost use Rattle.vt_screen.specs.Reading.{Terminal, terminal_after, terminal};
ghost use Rattle.vt_screen.specs.Run.{Performs};
ghost use Rattle.vt_screen.specs.Screen.{IsScreen, ScreenValue, fresh_screen};
ghost use Rattle.vt_screen.specs.Shown.{display};
ghost use Rattle.vt_screen.specs.States.{AreModes, HasDefaultMouseAndStyle, SetsModesPlainly, SetsModesOnScreens};
ghost use Rattle.vt_screen.specs.Streamed.{AreSameTrimmed, HasNoRis, HasWideFlags, without_scrollback, rows_of_calls, sent_off_in};
ghost use Rattle.vt_screen.specs.Streamed.{streamed_text};
ghost use Rattle.vt_screen.specs.CallsOfRun.{CalledOnSomeScreen, LeavesScreen, calls_in};
ghost use Rattle.vt_screen.specs.declared.modes.Modes.{Modes};

use vt_screen::Callbacks;

/// States that input may be split anywhere. One call to `process` on all the bytes and several
/// calls on consecutive chunks can have exactly the same effects, with the same callbacks in the
/// same order. The clauses are:
///
/// - `two`, `list`: everything that the calls on the chunks can do, one call on
///   the whole input can also do.
/// - `parted`, `parted_list`: everything that one call on the whole input can
///   do, the calls on the chunks can also do, with the same final state. For
///   two chunks, `parted` also states that the parser has not failed between
///   them.
///
/// The clauses `parted` and `parted_list` assume that the parser's scanner represents at least one
/// state of the automaton. By the clause `stands` of `Parser::screen`, every parser's scanner meets
/// this premise.
pub fn pieces<CB: Callbacks>()
    ensures two { (p q r : ParserValue CB) (a b : List ℕ) →
        Ran CB.does p a q → Ran CB.does q b r → Ran CB.does p (a ++ b) r }
    ensures list { (p q : ParserValue CB) (pieces : List (List ℕ)) →
        FoldsTo (Ran CB.does) p pieces q → Ran CB.does p (pieces_joined pieces) q }
    ensures parted { (p r : ParserValue CB) (a b : List ℕ) →
        ∥ ((state : State) × StandsFor p.scanner state) ∥₁ → Ran CB.does p (a ++ b) r →
        ∥ ((q : ParserValue CB) × (q.is_failed ≡ false) × Ran CB.does p a q × Ran CB.does q b r) ∥₁ }
    ensures parted_list { (p r : ParserValue CB) (piece : List ℕ) (pieces : List (List ℕ)) →
        ∥ ((state : State) × StandsFor p.scanner state) ∥₁ →
        Ran CB.does p (pieces_joined (piece ∷ pieces)) r → ∥ FoldsTo (Ran CB.does) p (piece ∷ pieces) r ∥₁ }
{}

/// States that processing bytes never changes the size of the screen, provided
/// that the callbacks leave the screen alone. The clauses are:
///
/// - `ran`: a run that reaches the end of the input keeps the size.
/// - `stopped`: a run that stops because memory runs out keeps the size.
/// - `nobody`: callbacks that do nothing leave the screen alone.
///
/// By the clauses of `Screen::size` and `Parser::screen`, the premises about
/// the screen and the scanner hold for every parser.
pub fn sizes<CB: Callbacks>()
    ensures ran { (p q : ParserValue CB) (bytes : List ℕ) → LeavesScreen CB.does →
        IsScreen p.screen → ∥ ((state : State) × StandsFor p.scanner state) ∥₁ →
        Ran CB.does p bytes q → SameSize q.screen.page p.screen.page }
    ensures stopped { (p q : ParserValue CB) (bytes : List ℕ) → LeavesScreen CB.does →
        IsScreen p.screen → ∥ ((state : State) × StandsFor p.scanner state) ∥₁ →
        Stopped CB.does p bytes q → SameSize q.screen.page p.screen.page }
    ensures nobody { LeavesScreen does_nothing }
{}

/// States that a new parser has the requested size and scrollback capacity and
/// is plain: it has not failed and is in ground state, its scroll region is the
/// whole page, origin mode is off, and no scrollback is displayed.
///
/// The premises of `fresh` and `plain` hold for every parser that is returned
/// by `Parser::new`, `Parser::default` or `Parser::new_with_callbacks`. They
/// follow from the clauses `ground` and `shown` of these functions and the
/// clause `whole` of `Screen::size`.
#[tactic(auto, using(crate::proofs::PlainParsers::fresh_cols, crate::proofs::PlainParsers::fresh_parser, crate::proofs::PlainParsers::fresh_rows, crate::proofs::PlainParsers::plain_parser))]
pub fn fresh_parsers<CB: Callbacks>()
    ensures fresh { (rows cols capacity : ℕ) (p : ParserValue CB) → IsScreen p.screen → StandsFor p.scanner start
        → p ≡ parser_value p.scanner (fresh_screen rows cols capacity) p.callbacks
        → IsFreshParser rows cols capacity p }
    ensures plain { (rows cols capacity : ℕ) (p : ParserValue CB) → IsScreen p.screen → StandsFor p.scanner start
        → p ≡ parser_value p.scanner (fresh_screen rows cols capacity) p.callbacks → IsPlainParser p }
    ensures rows { (rows cols capacity : ℕ) (p : ParserValue CB) → IsFreshParser rows cols capacity p
        → length p.screen.page.rows ≡ rows }
    ensures cols { (rows cols capacity : ℕ) (p : ParserValue CB) → IsFreshParser rows cols capacity p
        → p.screen.page.width ≡ cols }
{}

/// States that a parser in ground state parses further bytes as a new parser does: the events are
/// those that the bytes have from the start, and they are performed on its own screen and callbacks.
///
/// The clause `start` of `Parser::is_ground` provides the premise that the parser is in ground
/// state, and the clause `ran` of `Parser::process` the premise that the bytes were parsed.
pub fn ground<CB: Callbacks>()
    ensures events { (p q : ParserValue CB) (bytes : List ℕ) → StandsFor p.scanner start → Ran CB.does p bytes q
        → FoldsTo (Performs CB.does) (stage p) (run start bytes).events (stage q) }
    ensures scanner { (p q : ParserValue CB) (bytes : List ℕ) → StandsFor p.scanner start → Ran CB.does p bytes q
        → StandsFor q.scanner (run start bytes).state }
{}

/// States that a resized parser has the new size, and that it is plain if it
/// was plain before. The clause `ok` of `Parser::set_size` provides the premise
/// that the resize succeeded.
pub fn resized_parsers<CB: Callbacks>()
    ensures plain { (rows cols : ℕ) (p q : ParserValue CB) → 0 < rows
        → q ≡ record p { screen = screen_after_resize rows cols p.screen; callbacks = q.callbacks }
        → IsPlainParser p → IsPlainParser q }
    ensures rows { (rows cols : ℕ) (p q : ParserValue CB)
        → q ≡ record p { screen = screen_after_resize rows cols p.screen; callbacks = q.callbacks }
        → length q.screen.page.rows ≡ rows }
    ensures cols { (rows cols : ℕ) (p q : ParserValue CB)
        → q ≡ record p { screen = screen_after_resize rows cols p.screen; callbacks = q.callbacks }
        → q.screen.page.width ≡ cols }
{}

/// States that input whose parsing invokes no callbacks and allocates nothing
/// has the same effect in every run, whatever the callbacks are. The clauses
/// are:
///
/// - `ran`: if the parser has not failed after the run, it is in the state that
///   reading the bytes produces.
/// - `made`: calls to `process` on chunks of the bytes produce the same state.
/// - `harmless`: a run on this input never runs out of memory, so `process`
///   returns `Ok`.
pub fn quiet_runs<CB: Callbacks>()
    ensures ran { (p q : ParserValue CB) (bytes : List ℕ) (state : State) (after : Terminal)
        → StandsFor p.scanner state → terminal_after (terminal state p.screen) bytes ≡ Some after
        → Ran CB.does p bytes q → q.is_failed ≡ false → HasRead p after q }
    ensures made { (p q : ParserValue CB) (pieces : List (List ℕ)) (state : State) (after : Terminal)
        → StandsFor p.scanner state
        → terminal_after (terminal state p.screen) (pieces_joined pieces) ≡ Some after
        → FoldsTo (MakesCall CB.does) p (map Process pieces) q → q.is_failed ≡ false → HasRead p after q }
    ensures harmless { (p : ParserValue CB) (bytes : List ℕ) (state : State) (after : Terminal)
        → StandsFor p.scanner state → terminal_after (terminal state p.screen) bytes ≡ Some after
        → IsHarmless CB.does p bytes }
{}

/// States that input whose parsing invokes no callbacks and allocates nothing
/// may be split into any chunks, including empty ones. Each call to `process`
/// returns `Ok`. The parser ends in the state that reading all the bytes at
/// once produces, and its callbacks are unchanged.
///
/// The clause `quiet` of `Parser::process` states the same guarantee for a
/// single call.
pub fn quiet_pieces<CB: Callbacks>()
    ensures { (p q : ParserValue CB) → (calls : List Processing) → (state : State) → (after : Terminal) →
        p.is_failed ≡ false → StandsFor p.scanner state → terminal_after (terminal state p.screen) (bytes_in calls) ≡ Some after →
        FoldsTo Processes p calls q → AllByRecursion IsFine calls × HasRead p after q }
{}

/// States that a full redraw followed by any chain of diffs, each from the
/// previous screen to the next, makes a plain terminal display the last screen.
/// The bytes may be split into any chunks. The screens must be steady and have
/// the terminal's size.
///
/// Each call to `process` returns `Ok`. Callbacks, scrollback, the inactive
/// page and the modes are unchanged.
pub fn chain<CB: Callbacks>()
    ensures shows { (self : ScreenValue) → (nexts : List ScreenValue) → (p q : ParserValue CB) →
        (calls : List Processing) → IsScreen p.screen → IsPlainParser p → CanShowOn p.screen self →
        AllByRecursion (CanShowOn p.screen) nexts → bytes_in calls ≡ chain_text self nexts →
        FoldsTo Processes p calls q → AllByRecursion IsFine calls × ShowsLast p (last_screen self nexts) q }
{}

/// States that a caller's own chain of diffs works: a plain terminal that displays a screen and
/// reads diffs of any kind, each from the previous screen to the next, displays the last screen.
/// The diffs may come from `contents_diff`, `contents_diff_scrolling` and `contents_diff_with`, in
/// any order (see their clauses `redraws`), and each may be split into any chunks. The screens must
/// be steady and have the same size.
///
/// Each call to `process` returns `Ok`. Callbacks, scrollback, the inactive page and the modes are
/// unchanged.
///
/// A terminal displays the first screen after it has read a redraw (see `chain` with no diffs). The
/// premises about screens hold for every parser by the clause `whole` of `Screen::size`.
pub fn diffs<CB: Callbacks>()
    ensures shows { (was : ScreenValue) → (diffs : List ReadDiff) → (p q : ParserValue CB) → IsScreen p.screen →
        IsPlainParser p → display p.screen ≡ display was → AreDiffs was diffs → FoldsTo ReadsDiff p diffs q →
        AllByRecursion AreFine diffs × ShowsLast p (last_of was diffs) q }
{}

/// States that a plain terminal is plain again after it has read a redraw of
/// any screen or a diff from one screen to another, even if the screen to be
/// displayed is not steady. The clauses are:
///
/// - `kept` applies to output that keeps every plain terminal plain. The output of
///   `contents_formatted`, `contents_diff`, `contents_diff_scrolling` and `cursor_state_formatted`
///   does so (see their clauses `again`).
/// - `screens` is the same for output that keeps every plain terminal plain whose screen is valid,
///   as the screen of every parser is (see the clause `whole` of `Screen::size`). The output of
///   `contents_diff_with` does so (see its clause `again`).
/// - `made` applies to output that makes every terminal without displayed scrollback plain. The
///   output of `contents_formatted_reset` does so (see its clause `again`).
/// - `state` and `state_diff` apply to output that keeps every plain terminal plain that has the
///   default mouse modes and cursor style or all modes of a given screen, and that sets its modes.
///   The output of `state_formatted`, `state_formatted_with` and `state_diff` does so (see their
///   clauses `again`).
/// - `state_screens` is the same as `state_diff` for output that does so to every such terminal whose
///   screen is valid. The output of `state_diff_with` does so (see its clause `again`).
///
/// The output may be split into any chunks. Whatever the callbacks are, only
/// `on_scroll` is invoked, for rows that scroll off the top. The inactive page
/// and the size are unchanged. So are the input modes and the cursor style,
/// except in the clauses `state`, `state_diff` and `state_screens`. Therefore the
/// next redraw of a steady screen displays that screen, whatever was drawn
/// before.
///
/// The premise that the parser has not failed holds after calls to `process`
/// that returned `Ok`.
pub fn again<CB: Callbacks>()
    ensures kept { (p q : ParserValue CB) (chunks : List (List ℕ)) → KeepsPlain (pieces_joined chunks) →
        IsPlainParser p → FoldsTo (Ran CB.does) p chunks q → q.is_failed ≡ false → IsPlainAgain CB.does p q }
    ensures screens { (p q : ParserValue CB) (chunks : List (List ℕ)) → KeepsScreensPlain (pieces_joined chunks) →
        IsScreen p.screen → IsPlainParser p → FoldsTo (Ran CB.does) p chunks q → q.is_failed ≡ false →
        IsPlainAgain CB.does p q }
    ensures state { (modes : Modes) (p q : ParserValue CB) (chunks : List (List ℕ)) →
        SetsModesPlainly HasDefaultMouseAndStyle modes (pieces_joined chunks) → HasDefaultMouseAndStyle p.screen.modes →
        IsPlainParser p → FoldsTo (Ran CB.does) p chunks q → q.is_failed ≡ false → IsPlainWithModes CB.does modes p q }
    ensures state_diff { (was modes : Modes) (p q : ParserValue CB) (chunks : List (List ℕ)) →
        SetsModesPlainly (AreModes was) modes (pieces_joined chunks) → p.screen.modes ≡ was → IsPlainParser p →
        FoldsTo (Ran CB.does) p chunks q → q.is_failed ≡ false → IsPlainWithModes CB.does modes p q }
    ensures state_screens { (was modes : Modes) (p q : ParserValue CB) (chunks : List (List ℕ)) →
        SetsModesOnScreens (AreModes was) modes (pieces_joined chunks) → p.screen.modes ≡ was → IsScreen p.screen →
        IsPlainParser p → FoldsTo (Ran CB.does) p chunks q → q.is_failed ≡ false → IsPlainWithModes CB.does modes p q }
    ensures made { (p q : ParserValue CB) (chunks : List (List ℕ)) → MakesPlain (pieces_joined chunks) →
        IsUnscrolledParser p → FoldsTo (Ran CB.does) p chunks q → q.is_failed ≡ false → IsPlainAgain CB.does p q }
{}

/// States that the text of a recording does not depend on the scrollback
/// capacity. The text is a capture of the rows for which `on_scroll` was called
/// with `false`, followed by a capture of `BasicFormattedCaptureRange::Full`
/// that continues from the same capture state.
///
/// The theorem applies to a fresh parser and any sequence of calls to `process`
/// and `Screen::set_scrollback` that ends on the main page. The clauses are:
///
/// - `called`: callbacks that leave the screen alone receive exactly the calls
///   that the model predicts, each once and in order.
/// - `text`: the text consists of all rows that the bytes scroll off the top of
///   the main page, followed by the page itself.
/// - `one`: because of `text`, the recorded text is the same for every
///   capacity, however the bytes are split and however far the screen is
///   scrolled back in between.
/// - `recorded`: callbacks that store the captured text and its capture state
///   hold this text once a full capture is appended, provided that their sink
///   accepted everything.
/// - `kept`: for one call to `process` on any parser, two lists of rows match.
///   The first list consists of the rows reported with `false`, followed by the
///   scrollback after the call. The second list consists of the scrollback
///   before the call, followed by the rows that scrolled off the top of the
///   main page. The clause assumes that no wrapped row of scrollback was
///   narrower than the screen.
/// - `apart`: the rows that scroll off, and everything on the screen after the
///   call except its scrollback, depend on neither the capacity nor the
///   contents of scrollback. Two parsers whose screens differ only in their
///   scrollback agree on all of these.
///
/// The premises are that each call returned `Ok`, that the bytes contain no
/// RIS, and that the callbacks leave the screen alone.
pub fn one_text<CB: Callbacks>()
    ensures called { (p q : ParserValue CB) (calls : List ParserCall) (scan : State) → LeavesScreen CB.does →
        StandsFor p.scanner scan → FoldsTo (MakesCall CB.does) p calls q →
        (q.screen ≡ screen_by scan p.screen calls)
        × FoldsTo (CalledOnSomeScreen CB.does) p.callbacks (calls_by scan p.screen calls) q.callbacks }
    ensures kept { (p q : ParserValue CB) (bytes : List ℕ) (scan : State) → LeavesScreen CB.does →
        StandsFor p.scanner scan → Ran CB.does p bytes q → IsScreen p.screen → HasWideFlags p.screen →
        HasNoRis scan bytes →
        FoldsTo (CalledOnSomeScreen CB.does) p.callbacks (calls_in scan p.screen bytes) q.callbacks
        × AreSameTrimmed (rows_of_calls (calls_in scan p.screen bytes) ++ q.screen.scrollback.rows)
        (p.screen.scrollback.rows ++ sent_off_in scan p.screen bytes) }
    ensures apart { (p q r s : ParserValue CB) (bytes : List ℕ) (scan : State) → LeavesScreen CB.does →
        StandsFor p.scanner scan → StandsFor r.scanner scan → without_scrollback p.screen ≡ without_scrollback r.screen →
        Ran CB.does p bytes q → Ran CB.does r bytes s →
        (sent_off_in scan p.screen bytes ≡ sent_off_in scan r.screen bytes) × (without_scrollback q.screen ≡ without_scrollback s.screen) }
    ensures text { (rows cols capacity : ℕ) (p q : ParserValue CB) (calls : List ParserCall) →
        LeavesScreen CB.does → IsFreshParser rows cols capacity p → HasNoRis start (bytes_of_calls calls) →
        FoldsTo (MakesCall CB.does) p calls q → q.screen.is_alternate ≡ false →
        streamed_text (calls_by start p.screen calls) q.screen ≡ whole_text rows cols (bytes_of_calls calls) }
    ensures recorded { (text_of : CB → List ℕ) (state_of : CB → Written) (is_whole : CB → Bool)
        (rows cols capacity : ℕ) (p q : ParserValue CB) (calls : List ParserCall) →
        IsRecorder CB.does text_of state_of is_whole → IsFreshParser rows cols capacity p → text_of p.callbacks ≡ [] →
        state_of p.callbacks ≡ nothing_written → HasNoRis start (bytes_of_calls calls) →
        FoldsTo (MakesCall CB.does) p calls q → q.screen.is_alternate ≡ false → is_whole q.callbacks ≡ true →
        text_of q.callbacks ++ basic_texts (state_of q.callbacks) (all_rows q.screen)
        ≡ whole_text rows cols (bytes_of_calls calls) }
    ensures one { (rows cols capacity other : ℕ) (p q r s : ParserValue CB) (calls others : List ParserCall) →
        LeavesScreen CB.does → IsFreshParser rows cols capacity p → IsFreshParser rows cols other r →
        bytes_of_calls calls ≡ bytes_of_calls others → HasNoRis start (bytes_of_calls calls) →
        FoldsTo (MakesCall CB.does) p calls q → FoldsTo (MakesCall CB.does) r others s →
        q.screen.is_alternate ≡ false → s.screen.is_alternate ≡ false →
        streamed_text (calls_by start p.screen calls) q.screen ≡ streamed_text (calls_by start r.screen others) s.screen }
{}
