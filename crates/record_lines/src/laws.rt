//! What is written is read, and what is read is written so.
ghost use Rattle.std.specs.Prelude.{◌≡◌, ℕ, List, Some, true};
ghost use Rattle.record_lines.specs.declared.line.Line.{Line};
ghost use Rattle.record_lines.specs.Fits.{line_fits};
ghost use Rattle.record_lines.specs.Reading.{line_read};
ghost use Rattle.record_lines.specs.Writing.{line_text};

/// What a line can show is read from its text.
#[tactic(auto, using(crate::proofs::ReadLaws::line_back))]
pub fn lines_are_read_back()
    ensures { (l : Line) → line_fits l ≡ true → line_read (line_text l) ≡ Some l }
{}

/// What is read is something that a line can show, and the line is its text.
#[tactic(auto, using(crate::proofs::ReadLaws::read_spelled, crate::proofs::ReadLaws::read_fits))]
pub fn what_is_read_is_spelled_so()
    ensures spelled { (b : List ℕ) (l : Line) → line_read b ≡ Some l → line_text l ≡ b }
    ensures fits { (b : List ℕ) (l : Line) → line_read b ≡ Some l → line_fits l ≡ true }
{}
