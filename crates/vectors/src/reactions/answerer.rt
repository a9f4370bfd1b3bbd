// What an answerer does.
use super::Reaction::{self, Breaks, Sends};
use super::slot::Kind::{Command, Response};
use super::slot::Says::{Brk, BrkAck, Offer};
use super::slot::Slot::{self, *};
use super::slot::Supervisory::{Rej, Rnr, Rr, Srej};
use super::{bad_ack, reset};
use lapm_link::LinkFault::PeerRefused;
use lapm_link::Phase::{Closed, Connected, Detecting, Negotiating};

/// Detecting: only what the other end begins with counts.
pub(super) fn detecting(heard: Slot) -> Reaction {
    match heard {
        Odp => Sends(Detecting, Adp),
        Xid(Command, Offer) => Sends(Negotiating, Xid(Response, Offer)),
        Sabme(pf) => Sends(Connected, Ua(pf)),
        _ => Sends(Detecting, Mark),
    }
}

/// Negotiating: the other end's SABME is awaited.
pub(super) fn offer_answered(heard: Slot) -> Reaction {
    match heard {
        Xid(Command, Offer) => Sends(Negotiating, Xid(Response, Offer)),
        Sabme(pf) => Sends(Connected, Ua(pf)),
        Disc(pf) => Sends(Negotiating, Dm(pf)),
        _ => Sends(Negotiating, Flags),
    }
}

/// What each connected answerer does that has V(A) = 0, V(S) = 0 and this V(R), and sends this where the link goes on: 0 is the only
/// N(R) that is right, and no SREJ is.
fn connected(vr: u64, heard: Slot, sends: Slot) -> Reaction {
    match heard {
        I(_, 1, _) | S(_, _, 1, _) => bad_ack(1, 0, 0),
        S(Srej, _, 0, _) => bad_ack(0, 0, 0),
        Frmr(_) => reset(0, vr),
        Dm(_) => Breaks(PeerRefused),
        Disc(pf) => Sends(Closed, Ua(pf)),
        _ => Sends(Connected, sends),
    }
}

/// The same, where no SABME may come again.
fn settled(vr: u64, heard: Slot, sends: Slot) -> Reaction {
    match heard {
        Sabme(_) => reset(0, vr),
        _ => connected(vr, heard, sends),
    }
}

/// Connected: V(A) = 0, V(S) = 0, V(R) = 0. The segment waits until an I frame or a supervisory frame is heard, and until then a
/// SABME may come again. 0 is the only N(R) that is right, and no SREJ is.
pub(super) fn nothing_heard(heard: Slot) -> Reaction {
    let sends = match heard {
        I(0, _, true) => S(Rr, Response, 1, true),
        I(0, _, false) => I(0, 1, false),
        I(1, _, true) => S(Rr, Response, 0, true),
        I(127, _, _) => I(0, 0, false),
        I(..) => S(Rej, Response, 0, false),
        S(_, Command, _, true) => S(Rr, Response, 0, true),
        S(Rnr, ..) => Flags,
        S(..) => I(0, 0, false),
        Ui(_, _, Brk(n, length)) => Ui(Command, false, BrkAck(n, length)),
        Sabme(pf) => Ua(pf),
        _ => Flags,
    };
    connected(0, heard, sends)
}

/// Connected: V(A) = 0, V(S) = 0, V(R) = 1. There is no segment to send.
pub(super) fn segment_taken(heard: Slot) -> Reaction {
    let sends = match heard {
        I(0, _, pf) => S(Rr, Response, 1, pf),
        I(1, _, pf) => S(Rr, Response, 2, pf),
        I(127, _, _) => S(Rr, Response, 1, false),
        I(..) => S(Rej, Response, 1, false),
        S(_, Command, _, true) => S(Rr, Response, 1, true),
        Ui(_, _, Brk(n, length)) => Ui(Command, false, BrkAck(n, length)),
        _ => Flags,
    };
    settled(1, heard, sends)
}

/// Connected: V(A) = 0, V(S) = 0, V(R) = 0. There is no segment to send, and no second REJ goes before the segment 0 has come.
pub(super) fn rej_sent(heard: Slot) -> Reaction {
    let sends = match heard {
        I(0, _, pf) => S(Rr, Response, 1, pf),
        I(1, _, true) => S(Rr, Response, 0, true),
        I(127, _, _) => S(Rr, Response, 0, false),
        S(_, Command, _, true) => S(Rr, Response, 0, true),
        Ui(_, _, Brk(n, length)) => Ui(Command, false, BrkAck(n, length)),
        _ => Flags,
    };
    settled(0, heard, sends)
}

/// Connected: V(A) = 0, V(S) = 0, V(R) = 0. There is no segment to send. The REJ is still to be sent, also where the segment 0 has
/// come meanwhile, and only the reply to a poll and a BRKACK go before it.
pub(super) fn rej_held_back(heard: Slot) -> Reaction {
    let sends = match heard {
        I(0, _, true) => S(Rr, Response, 1, true),
        I(0, _, false) => S(Rej, Response, 1, false),
        I(1, _, true) => S(Rr, Response, 0, true),
        S(_, Command, _, true) => S(Rr, Response, 0, true),
        Ui(_, _, Brk(n, length)) => Ui(Command, false, BrkAck(n, length)),
        _ => S(Rej, Response, 0, false),
    };
    settled(0, heard, sends)
}

/// Connected: V(A) = 0, V(S) = 0, V(R) = 0. There is no segment to send. In the turn after a BRKACK no other one goes, nor a BRK, but a
/// REJ does. A SABME may come again.
pub(super) fn break_answered(heard: Slot) -> Reaction {
    let sends = match heard {
        I(0, _, pf) => S(Rr, Response, 1, pf),
        I(1, _, true) => S(Rr, Response, 0, true),
        I(127, _, _) => S(Rr, Response, 0, false),
        I(..) => S(Rej, Response, 0, false),
        S(_, Command, _, true) => S(Rr, Response, 0, true),
        Sabme(pf) => Ua(pf),
        _ => Flags,
    };
    connected(0, heard, sends)
}

/// Connected: V(A) = 0, V(S) = 0, V(R) = 0. There is no segment to send. A segment that comes too early is held, and the missing
/// one is asked for.
pub(super) fn srej_agreed(heard: Slot) -> Reaction {
    let sends = match heard {
        I(0, _, pf) => S(Rr, Response, 1, pf),
        I(1, _, true) => S(Rr, Response, 0, true),
        I(127, _, _) => S(Rr, Response, 0, false),
        I(..) => S(Srej, Response, 0, false),
        S(_, Command, _, true) => S(Rr, Response, 0, true),
        Ui(_, _, Brk(n, length)) => Ui(Command, false, BrkAck(n, length)),
        _ => Flags,
    };
    settled(0, heard, sends)
}

/// Connected: V(A) = 0, V(S) = 0, V(R) = 0, and the segment 1 is held. With the segment 0 it is taken too. In the turn after an
/// SREJ no other one goes, and no BRKACK.
pub(super) fn srej_sent(heard: Slot) -> Reaction {
    let sends = match heard {
        I(0, _, pf) => S(Rr, Response, 2, pf),
        I(1, _, pf) => S(Rr, Response, 0, pf),
        I(127, _, _) => S(Rr, Response, 0, false),
        S(_, Command, _, true) => S(Rr, Response, 0, true),
        _ => Flags,
    };
    settled(0, heard, sends)
}

/// Connected: V(A) = 0, V(S) = 0, V(R) = 0. There is no segment to send. The end is busy, and its answer to a poll was RNR. It still takes what
/// comes, sends RNR where it would send RR, and asks for nothing.
pub(super) fn busy(heard: Slot) -> Reaction {
    let sends = match heard {
        I(0, _, pf) => S(Rnr, Response, 1, pf),
        I(1, _, true) => S(Rnr, Response, 0, true),
        I(127, _, _) => S(Rnr, Response, 0, false),
        S(_, Command, _, true) => S(Rnr, Response, 0, true),
        Ui(_, _, Brk(n, length)) => Ui(Command, false, BrkAck(n, length)),
        _ => Flags,
    };
    settled(0, heard, sends)
}

/// Connected: the same, but the other end isn't told yet. Before all but a reply, a BRKACK and an answer goes an RNR that tells it.
pub(super) fn busy_untold(heard: Slot) -> Reaction {
    let sends = match heard {
        I(0, _, pf) => S(Rnr, Response, 1, pf),
        I(1, _, true) => S(Rnr, Response, 0, true),
        S(_, Command, _, true) => S(Rnr, Response, 0, true),
        Ui(_, _, Brk(n, length)) => Ui(Command, false, BrkAck(n, length)),
        _ => S(Rnr, Response, 0, false),
    };
    settled(0, heard, sends)
}
