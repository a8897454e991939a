//! Laws about sequences of calls. The functions of this module do nothing when called; their
//! clauses state what is proved.

ghost use Rattle.std.specs.List.{AllByRecursion, FoldsTo};
ghost use Rattle.std.specs.Prelude.{◌≡◌, ◌∷◌, ℕ, List};
ghost use Rattle.vt_grid.specs.Page.{SameSize};
ghost use Rattle.vt_mirror.specs.Healing.{GoesAny, ShowsSteady};
ghost use Rattle.vt_mirror.specs.Mirror.{MirrorValue, next_number};
ghost use Rattle.vt_mirror.specs.Runs.{IsUpdatedAfter, screens_to_end, text_to_end};
ghost use Rattle.vt_mirror.specs.Watching.{CountUp, Goes, IsFresh, IsNew, MirrorCall, MirrorDoes};
ghost use Rattle.vt_mirror.specs.Watching.{ShowsSeen, Watching, numbers_given};
ghost use Rattle.vt_redraw.specs.Steady.{IsSteady};
ghost use Rattle.vt_scan.specs.Automaton.{start};
ghost use Rattle.vt_screen.specs.Screen.{IsScreen, ScreenValue};
ghost use Rattle.vt_screen.specs.Shown.{display};
ghost use Rattle.vt_screen.specs.CallsOfRun.{screen_in};
ghost use Rattle.vt100.specs.Parser.{ParserValue};
ghost use Rattle.vt100.specs.Pieces.{IsFine, IsPlainParser, Processes, Processing, ShowsLast, bytes_in};

use vt100::Callbacks;

/// States that a viewer displays the screen as it was at the viewer's last
/// update, after any sequence of calls to a fresh [`Mirror`](crate::Mirror),
/// including failed calls.
///
/// - `shows`: the viewer may be any parser, with any callbacks, that meets
///   three conditions. The parser was plain before its first update. Before
///   reading each full update, it was resized to the size of that update with
///   `Parser::set_size`. It read all its updates in order, each split into
///   arbitrary chunks. Each update may come from
///   [`update`](crate::Mirror::update),
///   [`update_scrolling`](crate::Mirror::update_scrolling) or
///   [`update_with`](crate::Mirror::update_with). The viewer may have joined
///   late, may have missed any number of calls, and may have left since.
/// - `numbers`: no viewer number is returned twice; successful calls to
///   [`join`](crate::Mirror::join) return consecutive numbers.
///
/// The premises are that the mirror's screen was steady at these updates (see
/// `Screen::contents_formatted`) and that the viewer's own calls to `set_size`
/// returned `Ok`. The viewer's calls to `process` return `Ok` by
/// `vt100::laws::quiet_pieces`. The premise that the viewer's screen is valid
/// (`IsScreen`) holds for every parser, by the clause `whole` of
/// `Screen::size`.
#[tactic(auto, using(crate::proofs::Watching::numbers_count, crate::proofs::Watching::viewer_shows))]
pub fn viewers<CB: Callbacks>()
    ensures shows { (number : ℕ) (calls : List MirrorCall) (old new : Watching CB) →
        IsFresh old.mirror → IsNew old → FoldsTo (Goes number) old calls new → ShowsSeen new }
    ensures numbers { (old new : MirrorValue) (calls : List MirrorCall) →
        FoldsTo MirrorDoes old calls new → CountUp (next_number old.viewers.last) (numbers_given calls) }
{}

/// States that a viewer whose updates all come from
/// [`update_scrolling`](crate::Mirror::update_scrolling), or from
/// [`update_with`](crate::Mirror::update_with) with `scroll`, recovers from
/// screens that are not steady. After any sequence of calls to a fresh
/// [`Mirror`](crate::Mirror), such a viewer displays the screen as it was at its
/// last update, if that screen was steady, whatever screens came before.
///
/// The viewer is a plain terminal even if the screen at its last update was not
/// steady. The viewer may be any parser that [`viewers`] allows and whose calls
/// to `process` and `set_size` all return `Ok`.
#[tactic(auto, using(crate::proofs::Healing::viewer_heals))]
pub fn heals<CB: Callbacks>()
    ensures shows { (number : ℕ) (calls : List MirrorCall) (old new : Watching CB) →
        IsFresh old.mirror → IsNew old → FoldsTo (GoesAny CB.does number) old calls new → ShowsSteady new }
{}

/// States that a plain terminal that reads the output of [`run`](crate::run),
/// split into any chunks, is plain afterward and displays the final screen of
/// the run. Each call to `process` returns `Ok`. Callbacks, scrollback, the
/// inactive page and the modes are unchanged.
///
/// The premises are that the terminal has the size of the run and that the
/// screen was steady at each update (see `Screen::contents_formatted`). The
/// premise `IsUpdatedAfter`, which states that each of these screens is valid
/// and that all have the same size, is guaranteed by a successful run.
pub fn runs<CB: Callbacks>()
    ensures shows { (first : ScreenValue) (every : ℕ) (input : List ℕ) (p q : ParserValue CB) (calls : List Processing) →
        IsScreen p.screen → IsPlainParser p → SameSize first.page p.screen.page →
        AllByRecursion (IsUpdatedAfter first) (first ∷ screens_to_end first every input) →
        AllByRecursion (λ screen. IsSteady (display screen)) (first ∷ screens_to_end first every input) →
        bytes_in calls ≡ text_to_end first every input → FoldsTo Processes p calls q →
        AllByRecursion IsFine calls × ShowsLast p (screen_in start first input) q }
{}
