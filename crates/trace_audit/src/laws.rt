//! Theorems over the definitions of lines and of differences alone. The functions do nothing: each theorem is a contract.
ghost use Rattle.std.specs.Prelude.{◌≡◌, true, ◌<◌, ◌++◌, codes, IfSome, List, ℕ};
ghost use Rattle.std.specs.List.{list_all};
ghost use Rattle.trace_audit.specs.Cutting.{is_no_feed};
ghost use Rattle.trace_audit.specs.Grammar.{HasParts};
ghost use Rattle.trace_audit.specs.Written.{IsReadable, IsReadableFrame, parts_of_line, text_of_line};
ghost use Rattle.trace_audit.specs.declared.line.LineText.{LineText};
ghost use Rattle.lapm_frames.specs.declared.frame.Frame.{Frame};
ghost use Rattle.lapm_frames.specs.Parts.{parts_of};
ghost use Rattle.line_texts.specs.FrameText.{IsInformation};
ghost use Rattle.line_texts.specs.LineText.{line_text};
ghost use Rattle.line_texts.specs.declared.trace_line.TraceLine.{TraceLine};
ghost use Rattle.trace_audit.specs.Differences.{FirstDiffers, IsCut, text_of};
ghost use Rattle.shared_terms.specs.declared.audit_cause.AuditCause.{AuditCause};

/// A line has one reading, and parts stand for one line.
pub fn readings_are_one()
    ensures parts { (line : List ℕ) (a b : LineText) → HasParts line a → HasParts line b → a ≡ b }
    ensures line { (a b : List ℕ) (text : LineText) → HasParts a text → HasParts b text → a ≡ b }
{}

/// What was written of a line, without its line feed, is read as its parts. Frames that an end may send are read back.
pub fn written_lines_are_read()
    ensures text { (line : TraceLine) → line_text line ≡ text_of_line line ++ codes "\n" }
    ensures sendable { (frame : Frame) → IfSome (parts_of frame).ns (λ ns. ns < 128) → IfSome (parts_of frame).nr (λ nr. nr < 128) → IfSome (parts_of frame).info IsInformation → IsReadableFrame frame }
    ensures parts { (line : TraceLine) → IsReadable line → HasParts (text_of_line line) (parts_of_line line) }
{}

/// No line feed stands in a line that is read.
pub fn read_lines_are_whole()
    ensures { (line : List ℕ) (text : LineText) → HasParts line text → list_all is_no_feed line ≡ true }
{}

/// A text differs from lines first in one of them at most and in one part of it, and not at all where it is their text.
pub fn differences_are_one()
    ensures one { (lines : List (List ℕ)) (text : List ℕ) (m n : ℕ) (c d : AuditCause) → FirstDiffers lines text m c → FirstDiffers lines text n d → (m ≡ n) × (c ≡ d) }
    ensures none { (lines : List (List ℕ)) (text : List ℕ) (n : ℕ) (c : AuditCause) → text ≡ text_of lines → FirstDiffers lines text n c → ⊥ }
{}

/// The lines of a text are known.
pub fn texts_have_one_cut()
    ensures { (text : List ℕ) (lines others : List (List ℕ)) → IsCut text lines → IsCut text others → lines ≡ others }
{}
