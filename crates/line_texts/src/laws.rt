//! Theorems over the definitions of texts alone. The functions do nothing: each theorem is a contract.
ghost use Rattle.std.specs.Prelude.{◌≤◌, length};
ghost use Rattle.lapm_frames.specs.declared.frame.Frame.{Frame};
ghost use Rattle.line_texts.specs.FrameText.{IsPrintable, frame_text};
ghost use Rattle.line_texts.specs.LineText.{IsPrintableLine, line_text};
ghost use Rattle.line_texts.specs.declared.trace_line.TraceLine.{TraceLine};
ghost use Rattle.line_texts.specs.declared.words.TheConstants.{TEXT};

/// The text of a frame whose numbers are octets fits a [`FrameText`](crate::FrameText).
pub fn texts_fit()
    ensures { (frame : Frame) → IsPrintable frame → length (frame_text frame) ≤ TEXT }
{}

/// The text of a line whose turn has 64 bits fits a [`LineText`](crate::LineText).
pub fn lines_fit()
    ensures { (line : TraceLine) → IsPrintableLine line → length (line_text line) ≤ TEXT }
{}
