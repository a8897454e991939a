//! Theorems about captures. The functions do nothing; a proof may cite their clauses.

ghost use Rattle.std.specs.Prelude.{◌≡◌, ◌↔◌, ℕ, List, IsUtf8, length, true};
ghost use Rattle.vt_rows.specs.CaptureRows.{AreRowsOf};
ghost use Rattle.vt_rows.specs.Pieces.{ArePiecesOf, Piece};
ghost use Rattle.vt_rows.specs.Stretches.{IsInStretch, ends_within};

/// States that a capture uniquely determines the list of its chunks outside SGR sequences.
#[tactic(auto, using(crate::proofs::CaptureRows::pieces_are_one))]
pub fn pieces_are_one()
    ensures { (capture : List ℕ) (pieces others : List Piece) →
        ArePiecesOf capture pieces → ArePiecesOf capture others → pieces ≡ others }
{}

/// States that a UTF-8 capture and a terminal width uniquely determine the list of the capture's
/// rows.
#[tactic(auto, using(crate::proofs::CutRows::rows_are_one))]
pub fn rows_are_one()
    ensures { (width : ℕ) (capture : List ℕ) (rows others : List Piece) → IsUtf8 capture →
        AreRowsOf width capture rows → AreRowsOf width capture others → rows ≡ others }
{}

/// States that a string ends inside an SGR sequence if and only if it contains an ESC with no `m`
/// after it.
#[tactic(auto, using(crate::proofs::Pieces::within_by_places))]
pub fn stretch_is_open()
    ensures { (text : List ℕ) → (ends_within text ≡ true) ↔ IsInStretch text (length text) }
{}
