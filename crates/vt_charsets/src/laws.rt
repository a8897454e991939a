//! Theorems about the translation. The functions do nothing; a proof may cite their clauses.
//!
//! In these clauses, `translation r bytes` is the translation of `bytes` from the point `r` of the
//! input, `reading_after r bytes` is the point after them, and `start` is the start of the input.

ghost use Rattle.std.specs.Prelude.{◌≡◌, ◌≤◌, ◌*◌, List, ℕ, ◌++◌, length};
ghost use Rattle.vt_charsets.specs.Ascii.{DesignatesNoGraphics, IsAscii};
ghost use Rattle.vt_charsets.specs.Events.{drawn_events};
ghost use Rattle.vt_charsets.specs.Translation.{Reading, reading_after, start, translation};
ghost use Rattle.vt_scan.specs.Automaton.{State, run};

/// States that input may be split anywhere: the second chunk is translated from the point after the
/// first chunk, and its translation follows that of the first chunk.
#[tactic(auto, using(crate::proofs::Joined::reading_cut, crate::proofs::Joined::translation_cut))]
pub fn pieces()
    ensures reading { (r : Reading) (a b : List ℕ) → reading_after r (a ++ b) ≡ reading_after (reading_after r a) b }
    ensures output { (r : Reading) (a b : List ℕ) →
        translation r (a ++ b) ≡ translation r a ++ translation (reading_after r a) b }
{}

/// States that a translation is at most three times as long as the input.
#[tactic(auto, using(crate::proofs::Lengths::translation_length))]
pub fn lengths()
    ensures { (r : Reading) (bytes : List ℕ) → length (translation r bytes) ≤ 3 * length bytes }
{}

/// States that input in which no escape sequence designates DEC Special Graphics is unchanged, if
/// DEC Special Graphics is neither designated nor saved before it, as at the start.
#[tactic(auto, using(crate::proofs::Identity::ascii_identity, crate::proofs::Identity::ascii_after, crate::proofs::Identity::initial_is))]
pub fn identity()
    ensures start { IsAscii start.state }
    ensures output { (r : Reading) (bytes : List ℕ) → IsAscii r.state → DesignatesNoGraphics r bytes →
        translation r bytes ≡ bytes }
    ensures after { (r : Reading) (bytes : List ℕ) → IsAscii r.state → DesignatesNoGraphics r bytes →
        IsAscii (reading_after r bytes).state }
{}

/// States that translating a translation again, from the same point of the input, changes nothing,
/// and that the second translator is then at the same point as the first one.
#[tactic(auto, using(crate::proofs::Twice::translation_twice, crate::proofs::Twice::reading_twice))]
pub fn idempotence()
    ensures output { (r : Reading) (bytes : List ℕ) → translation r (translation r bytes) ≡ translation r bytes }
    ensures after { (r : Reading) (bytes : List ℕ) → reading_after r (translation r bytes) ≡ reading_after r bytes }
{}

/// States that the parser reads the translation of input as it reads the input, but for the
/// characters of DEC Special Graphics.
///
/// The parser and the translator are always in the same kind of state. The translation leaves the
/// parser in the same state as the input, and it causes the same events, except that each character
/// from U+005F to U+007E is replaced by its Unicode character if DEC Special Graphics is in effect.
#[tactic(auto, using(crate::proofs::Parsed::run_kind, crate::proofs::Parsed::reads_as))]
pub fn parsing()
    ensures kind { (s : State) (r : Reading) (bytes : List ℕ) → s.kind ≡ r.kind →
        (run s bytes).state.kind ≡ (reading_after r bytes).kind }
    ensures reads { (s : State) (r : Reading) (bytes : List ℕ) → s.kind ≡ r.kind →
        run s (translation r bytes) ≡ record { state = (run s bytes).state; events = drawn_events s r bytes } }
{}
