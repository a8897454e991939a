//! Theorems about sequences of calls. The functions do nothing when called;
//! their clauses state what is proved.

ghost use Rattle.std.specs.Prelude.{◌≡◌, ◌<◌, ℕ, List, length};
ghost use Rattle.vt_scan.specs.Automaton.{State, run};
ghost use Rattle.vt_scan.specs.Scanner.{StandsFor};
ghost use Rattle.vt_screen.specs.CallsOfRun.{calls_in, screen_in};
ghost use Rattle.vt100.specs.Erasures.{erasures_after};
ghost use Rattle.vt100.specs.Parser.{ParserValue, pieces_joined};
ghost use Rattle.vt100_c.specs.Gathering.{ReadsInParts, records_of_calls};
ghost use Rattle.vt100_c.specs.Records.{Logged, log_after_clear};
ghost use Rattle.vt100_c.specs.Walking.{ArePlacesOfPieces, ArePlacesOfRows, FindAllPlain, FindAllRows, no_place};

/// States that repeated calls find all chunks and rows of a capture, in order.
///
/// - `pieces`: calls to `vt100_next_plain` find all chunks outside SGR sequences. The first call
///   starts at byte 0, and each later call starts at the end of the previous chunk, until a call
///   finds none.
/// - `rows`: calls to `vt100_next_row` find all rows. The first call starts at byte 0, and each
///   later call starts at the index that the previous call stored, until a call stores `SIZE_MAX`.
///   A string in memory is always shorter than `SIZE_MAX` bytes.
#[tactic(auto, using(crate::proofs::Walking::whole_pieces, crate::proofs::Walking::whole_rows))]
pub fn whole_captures()
    ensures pieces { (text : List ℕ) (places : List (ℕ × ℕ)) →
        FindAllPlain text 0 places → ArePlacesOfPieces text places }
    ensures rows { (text : List ℕ) (width : ℕ) (places : List (ℕ × ℕ)) → length text < no_place →
        FindAllRows text width 0 places → ArePlacesOfRows text width places }
{}

/// States that input may be cut anywhere: calls to `vt100_process_until` and
/// `vt100_process_until_full`, in any order, each of which reads the next part of the input, have the
/// effect of the whole input, and log the events that the whole input causes. The caller reads and
/// clears the log after each call. The clauses are:
///
/// - `screen`, `scanner`, `erased`: the screen, the state of the scanner and the count of erasures
///   depend only on the joined parts.
/// - `records`: the records that the caller reads, joined, are those of the requested events that
///   the joined parts cause, each once and in order, if the log was empty at first.
///
/// The premises are that each call returns `VT100_OK` and that the log has lost no record
/// (`vt100_events` stores 1 in `is_whole`). The clause `call` of the two functions provides the
/// premise that a call reads a part.
pub fn parts()
    ensures screen { (p q : ParserValue Logged) (parts : List (List ℕ)) (records : List ℕ) (scan : State) →
        StandsFor p.scanner scan → ReadsInParts p parts records q →
        q.screen ≡ screen_in scan p.screen (pieces_joined parts) }
    ensures scanner { (p q : ParserValue Logged) (parts : List (List ℕ)) (records : List ℕ) (scan : State) →
        StandsFor p.scanner scan → ReadsInParts p parts records q →
        StandsFor q.scanner (run scan (pieces_joined parts)).state }
    ensures erased { (p q : ParserValue Logged) (parts : List (List ℕ)) (records : List ℕ) (scan : State) →
        StandsFor p.scanner scan → ReadsInParts p parts records q →
        q.erasures ≡ erasures_after p.erasures (run scan (pieces_joined parts)).events }
    ensures records { (p q : ParserValue Logged) (parts : List (List ℕ)) (records : List ℕ) (scan : State) →
        StandsFor p.scanner scan → p.callbacks ≡ log_after_clear p.callbacks → ReadsInParts p parts records q →
        records ≡ records_of_calls p.callbacks.wanted (calls_in scan p.screen (pieces_joined parts)) }
{}
