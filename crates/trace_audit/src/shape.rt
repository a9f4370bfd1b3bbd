// Which words the texts of frames have.
ghost use Rattle.std.specs.Prelude.{◌≡◌};
ghost use Rattle.trace_audit.specs.Grammar.{shape_of, shape_named};

use lapm_frames::FrameKind;

/// The shape of a kind of frame's texts.
#[derive(Clone, Copy)]
pub enum Shape {
    /// Both numbers, and a count: I.
    Numbered,
    /// The direction and N(R): RR, RNR, REJ, SREJ.
    Supervisory,
    /// Commands alone: SABME, DISC.
    Commanding,
    /// Responses alone: UA, DM.
    Responding,
    /// Responses with a count: FRMR.
    Rejecting,
    /// Both directions, with a count: XID, TEST.
    Exchanging,
    /// Both directions, with a break's word or a count: UI.
    Unnumbered,
}

/// The shape of a kind's texts: what its frames have, as commands and as responses.
fn shape_of(kind: FrameKind) -> Shape
    ensures { result ≡ shape_of kind }
{
    let command = kind.parts(true, 0, 0, false, &[]);
    let response = kind.parts(false, 0, 0, false, &[]);
    if command.ns.is_some() {
        return Shape::Numbered;
    }
    if command.nr.is_some() {
        return Shape::Supervisory;
    }
    if let FrameKind::Ui = kind {
        return Shape::Unnumbered;
    }
    if command.command != response.command {
        return Shape::Exchanging;
    }
    if command.command {
        return Shape::Commanding;
    }
    if command.info.is_some() {
        return Shape::Rejecting;
    }
    Shape::Responding
}

/// The shape of the texts that begin with this name.
pub(crate) fn shape_named(name: &[u8]) -> Option<Shape>
    ensures { result ≡ shape_named name.now }
{
    match FrameKind::named(name) {
        Some(kind) => Some(shape_of(kind)),
        None => None,
    }
}
