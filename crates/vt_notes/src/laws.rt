//! Theorems about what notes and recorders contain after a parser has read input. The functions do
//! nothing when called; proofs may cite their clauses.

ghost use Rattle.std.specs.List.{FoldsTo};
ghost use Rattle.std.specs.Prelude.{◌≡◌, ℕ, List, ◌++◌, false, true};
ghost use Rattle.vt100.specs.Parser.{ParserValue, Ran};
ghost use Rattle.vt100.specs.Streams.{IsFreshParser, IsRecorder, MakesCall, ParserCall, bytes_of_calls, whole_text};
ghost use Rattle.vt_notes.specs.Noting.{Noted, NotesIt, Recorded, Records, nothing_recorded};
ghost use Rattle.vt_scan.specs.Automaton.{State, start};
ghost use Rattle.vt_scan.specs.Scanner.{StandsFor};
ghost use Rattle.vt_screen.specs.Capture.{all_rows, basic_texts};
ghost use Rattle.vt_screen.specs.Streamed.{HasNoRis};
ghost use Rattle.vt_screen.specs.CallsOfRun.{calls_in, screen_in};

/// States the effect of parsing bytes with callbacks that record each call in a note. The screen
/// changes exactly as the bytes require. If no note is missing afterward, the notes that were added
/// record exactly the calls that the bytes cause, each once and in order.
pub fn runs()
    ensures shown { (old new : ParserValue Noted) (bytes : List ℕ) (scan : State) → Ran NotesIt old bytes new →
        StandsFor old.scanner scan → new.screen ≡ screen_in scan old.screen bytes }
    ensures complete { (old new : ParserValue Noted) (bytes : List ℕ) (scan : State) → Ran NotesIt old bytes new →
        StandsFor old.scanner scan → new.callbacks.is_complete ≡ true → old.callbacks.is_complete ≡ true }
    ensures noted { (old new : ParserValue Noted) (bytes : List ℕ) (scan : State) →
        Ran NotesIt old bytes new → StandsFor old.scanner scan → new.callbacks.is_complete ≡ true →
        new.callbacks.calls ≡ old.callbacks.calls ++ calls_in scan old.screen bytes }
{}

/// States which rows the text of a recorder contains once a full capture is appended: the rows that
/// the recorder's input scrolled off the main page, followed by the rows of the page itself.
///
/// This text does not depend on the scrollback capacity, on how the input was split, or on how far
/// the screen was scrolled back in between.
pub fn recorded()
    ensures recorder { IsRecorder Records (λ recorded. recorded.text)
        (λ recorded. recorded.state) (λ recorded. recorded.is_whole) }
    ensures text { (rows cols capacity : ℕ) (p q : ParserValue Recorded) (calls : List ParserCall) →
        IsFreshParser rows cols capacity p → p.callbacks ≡ nothing_recorded → HasNoRis start (bytes_of_calls calls) →
        FoldsTo (MakesCall Records) p calls q → q.screen.is_alternate ≡ false → q.callbacks.is_whole ≡ true →
        q.callbacks.text ++ basic_texts q.callbacks.state (all_rows q.screen)
        ≡ whole_text rows cols (bytes_of_calls calls) }
{}
