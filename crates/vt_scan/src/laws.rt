//! Theorems about the byte automaton. The functions do nothing; a proof may cite their clauses.
//!
//! In these clauses, `run` parses bytes from a given state and returns the state that is reached
//! and all events. `start` is the ground state with no incomplete character. `back_with` is the
//! result of a run that returns to `start` and causes the given events.

ghost use Rattle.std.specs.Char.{IsScalar, encode_utf8};
ghost use Rattle.std.specs.List.{All, AllByRecursion};
ghost use Rattle.std.specs.Prelude.{◌≡◌, ◌≢◌, ℕ, ◌<◌, ◌≤◌, List, [], ◌∷◌, ◌++◌, decimal, encode_utf8_all, length, map};
ghost use Rattle.vt_cells.specs.Op.{csi, semicolon_list, place};
ghost use Rattle.vt_scan.specs.Automaton.{Character, CsiDispatch, EscDispatch, Executed, State, run, start};
ghost use Rattle.vt_scan.specs.Parameters.{table_of};
ghost use Rattle.vt_scan.specs.Scanner.{ScannerValue, StandsFor};
ghost use Rattle.vt_scan.specs.Selectors.{ReadsNoSelector, SpellsNoSelector};
ghost use Rattle.vt_scan.specs.Texts.{IsParameterText, back_with, place_groups};

/// States that input may be split anywhere: the second chunk is parsed from the state after the
/// first chunk, and its events follow the events of the first chunk.
pub fn pieces()
    ensures state { (state : State) (a b : List ℕ) → (run state (a ++ b)).state ≡ (run (run state a).state b).state }
    ensures events { (state : State) (a b : List ℕ) →
        (run state (a ++ b)).events ≡ (run state a).events ++ (run (run state a).state b).events }
{}

/// States that the contents of a scanner determine how it parses all further input.
///
/// If the contents of a scanner represent two states of the automaton, the same bytes yield the
/// same events from both states. Contents that represent one of the two resulting states also
/// represent the other.
#[tactic(auto, using(crate::proofs::Alike::both_stand, crate::proofs::Alike::other_stands, crate::proofs::Alike::runs_alike))]
pub fn futures()
    ensures events { (held : ScannerValue) (s t : State) (bytes : List ℕ) → StandsFor held s →
        StandsFor held t → (run s bytes).events ≡ (run t bytes).events }
    ensures stands { (held after : ScannerValue) (s t : State) (bytes : List ℕ) → StandsFor held s →
        StandsFor held t → StandsFor after (run s bytes).state → StandsFor after (run t bytes).state }
{}

/// States that a character encoded in UTF-8 is parsed as that character, and that a control
/// character other than ESC is executed.
#[tactic(auto, using(crate::proofs::Readback::read_ascii, crate::proofs::Readback::read_written, crate::proofs::Readback::read_text, crate::proofs::Readback::read_control))]
pub fn characters()
    ensures ascii { (b : ℕ) → 0x20 ≤ b → b ≤ 0x7F → run start (b ∷ []) ≡ back_with (Character b ∷ []) }
    ensures unicode { (c : ℕ) → IsScalar c → 0x20 ≤ c → run start (encode_utf8 c) ≡ back_with (Character c ∷ []) }
    ensures text { (cs : List ℕ) → AllByRecursion (λ c. IsScalar c × (0x20 ≤ c)) cs →
        run start (encode_utf8_all cs) ≡ back_with (map Character cs) }
    ensures control { (b : ℕ) → b < 0x20 → b ≢ 0x1B → run start (b ∷ []) ≡ back_with (Executed b ∷ []) }
{}

/// States that input without the bytes EF B8 8F, the encoding of U+FE0F, never yields that
/// character when parsed from the ground state (Unicode Standard, section 3.9).
#[tactic(auto, using(crate::proofs::Selectors::reads_none))]
pub fn selectors()
    ensures { (bytes : List ℕ) → SpellsNoSelector bytes → ReadsNoSelector start bytes }
{}

/// States that complete sequences are parsed as written: ESC with a final byte that introduces no
/// other sequence, and CSI with an optional `?`, any parameter bytes and a final byte.
#[tactic(auto, using(crate::proofs::Readback::read_escape, crate::proofs::Readback::read_csi, crate::proofs::Readback::read_private))]
pub fn sequences()
    ensures escape { (b : ℕ) → 0x30 ≤ b → b ≤ 0x7E → b ≢ 0x5B → b ≢ 0x5D → b ≢ 0x50 → b ≢ 0x58 →
        b ≢ 0x5E → b ≢ 0x5F → run start (0x1B ∷ b ∷ []) ≡ back_with (EscDispatch [] b ∷ []) }
    ensures plain { (text : List ℕ) (final : ℕ) → IsParameterText text → 0x40 ≤ final → final ≤ 0x7E →
        run start (csi text final) ≡ back_with (CsiDispatch (table_of text).groups [] final ∷ []) }
    ensures private { (text : List ℕ) (final : ℕ) → IsParameterText text → 0x40 ≤ final → final ≤ 0x7E →
        run start (csi (0x3F ∷ text) final) ≡ back_with (CsiDispatch (table_of text).groups (0x3F ∷ []) final ∷ []) }
{}

/// States that decimal numbers up to 65535 are parsed as written: each of up to 32 numbers joined
/// by `;` forms its own group, and an empty parameter string yields the single number 0.
#[tactic(auto, using(crate::proofs::ParameterNumbers::empty_groups, crate::proofs::ParameterNumbers::decimal_groups, crate::proofs::ParameterNumbers::joined_groups, crate::proofs::ParameterNumbers::place_groups_are))]
pub fn numbers()
    ensures empty { (table_of []).groups ≡ (0 ∷ []) ∷ [] }
    ensures one { (n : ℕ) → n ≤ 65535 → (table_of (decimal n)).groups ≡ (n ∷ []) ∷ [] }
    ensures several { (ns : List ℕ) → 0 < length ns → length ns ≤ 32 →
        All (λ n. n ≤ 65535) ns → (table_of (semicolon_list ns)).groups ≡ map (λ n. n ∷ []) ns }
    ensures place { (row col : ℕ) → row < 65535 → col < 65535 →
        (table_of (place row col)).groups ≡ place_groups row col }
{}

/// States that decimal numbers joined by `;` consist of parameter bytes.
#[tactic(auto, using(crate::proofs::ParameterNumbers::decimal_is_parameter, crate::proofs::ParameterNumbers::joined_is_parameter, crate::proofs::ParameterNumbers::place_is_parameter))]
pub fn parameter_texts()
    ensures one { (n : ℕ) → n ≤ 65535 → IsParameterText (decimal n) }
    ensures several { (ns : List ℕ) → All (λ n. n ≤ 65535) ns → IsParameterText (semicolon_list ns) }
    ensures place { (row col : ℕ) → row < 65535 → col < 65535 → IsParameterText (place row col) }
{}
