// What an originator does.
use super::Reaction::{self, Breaks, Sends};
use super::slot::Kind::{Command, Response};
use super::slot::Says::{Brk, BrkAck, Offer};
use super::slot::Slot::{self, *};
use super::slot::Supervisory::{Rej, Rnr, Rr, Srej};
use super::{bad_ack, reset};
use lapm_link::LinkFault::PeerRefused;
use lapm_link::Phase::{Closed, Connected, Detecting, Establishing, Negotiating, Releasing};

/// Detecting: the ODP goes in each turn.
pub(super) fn detecting(heard: Slot) -> Reaction {
    match heard {
        Adp => Sends(Negotiating, Xid(Command, Offer)),
        _ => Sends(Detecting, Odp),
    }
}

/// Negotiating: an answer to the XID command is awaited.
pub(super) fn offer_sent(heard: Slot) -> Reaction {
    match heard {
        Xid(Response, Offer) => Sends(Establishing, Sabme(true)),
        Dm(_) => Breaks(PeerRefused),
        _ => Sends(Negotiating, Flags),
    }
}

/// Establishing: an answer to the SABME is awaited.
pub(super) fn sabme_sent(heard: Slot) -> Reaction {
    match heard {
        Ua(true) => Sends(Connected, S(Rr, Command, 0, true)),
        Dm(true) => Breaks(PeerRefused),
        _ => Sends(Establishing, Flags),
    }
}

/// What each connected originator does that has this V(A) and V(R), and sends this where the link goes on.
fn connected(va: u64, vr: u64, heard: Slot, sends: Slot) -> Reaction {
    match heard {
        Sabme(_) | Frmr(_) => reset(va, vr),
        Dm(_) | Disc(_) => Breaks(PeerRefused),
        _ => Sends(Connected, sends),
    }
}

/// The same with V(A) = 0, V(S) = 0, V(R) = 0: 0 is the only N(R) that is right, and no SREJ is.
fn none_sent(heard: Slot, sends: Slot) -> Reaction {
    match heard {
        I(_, 1, _) | S(_, _, 1, _) => bad_ack(1, 0, 0),
        S(Srej, _, 0, _) => bad_ack(0, 0, 0),
        _ => connected(0, 0, heard, sends),
    }
}

/// The same with V(A) = 0, V(S) = 1, V(R) = 0: 0 and 1 are right as N(R), and SREJ may ask for 0.
fn one_sent(heard: Slot, sends: Slot) -> Reaction {
    match heard {
        S(Srej, _, 1, _) => bad_ack(1, 0, 1),
        _ => connected(0, 0, heard, sends),
    }
}

/// The same with V(A) = 1, V(S) = 1, V(R) = 1: 1 is the only N(R) that is right, and no SREJ is.
fn one_acknowledged(heard: Slot, sends: Slot) -> Reaction {
    match heard {
        I(_, 0, _) | S(_, _, 0, _) => bad_ack(0, 1, 1),
        S(Srej, _, 1, _) => bad_ack(1, 1, 1),
        _ => connected(1, 1, heard, sends),
    }
}

/// Connected: V(A) = 0, V(S) = 0, V(R) = 0. An answer to the poll is awaited, and the segment waits for it. 0 is the only N(R)
/// that is right, and no SREJ is.
pub(super) fn poll_sent(heard: Slot) -> Reaction {
    let sends = match heard {
        I(0, _, pf) => S(Rr, Response, 1, pf),
        I(1, _, true) => S(Rr, Response, 0, true),
        I(127, _, _) => S(Rr, Response, 0, false),
        I(..) => S(Rej, Response, 0, false),
        S(_, Command, _, true) => S(Rr, Response, 0, true),
        S(Rnr, Response, _, true) => Flags,
        S(_, Response, _, true) => I(0, 0, false),
        Ui(_, _, Brk(n, length)) => Ui(Command, false, BrkAck(n, length)),
        _ => Flags,
    };
    none_sent(heard, sends)
}

/// Connected: V(A) = 0, V(S) = 1, V(R) = 0. The segment goes again where it is asked for. 0 and 1 are right as N(R), and SREJ
/// may ask for 0.
pub(super) fn segment_sent(heard: Slot) -> Reaction {
    let sends = match heard {
        I(0, _, pf) => S(Rr, Response, 1, pf),
        I(1, _, true) => S(Rr, Response, 0, true),
        I(127, _, _) => S(Rr, Response, 0, false),
        I(..) => S(Rej, Response, 0, false),
        S(Srej, _, 0, _) => I(0, 0, false),
        S(_, Command, _, true) => S(Rr, Response, 0, true),
        S(Rej, _, 0, _) => I(0, 0, false),
        Ui(_, _, Brk(n, length)) => Ui(Command, false, BrkAck(n, length)),
        _ => Flags,
    };
    one_sent(heard, sends)
}

/// Connected: V(A) = 0, V(S) = 1, V(R) = 0. An answer to the poll is awaited, and before it the segment doesn't go again.
pub(super) fn poll_sent_again(heard: Slot) -> Reaction {
    let sends = match heard {
        I(0, _, pf) => S(Rr, Response, 1, pf),
        I(1, _, true) => S(Rr, Response, 0, true),
        I(127, _, _) => S(Rr, Response, 0, false),
        I(..) => S(Rej, Response, 0, false),
        S(Srej, _, 0, _) => Flags,
        S(_, Command, _, true) => S(Rr, Response, 0, true),
        S(Rnr, Response, 0, true) => Flags,
        S(_, Response, 0, true) => I(0, 0, false),
        Ui(_, _, Brk(n, length)) => Ui(Command, false, BrkAck(n, length)),
        _ => Flags,
    };
    one_sent(heard, sends)
}

/// Connected: V(A) = 0, V(S) = 1, V(R) = 0. The poll is still to be sent, also where its answer seems to have come, and only the
/// reply to the other end's poll goes before it.
pub(super) fn poll_held_back(heard: Slot) -> Reaction {
    let sends = match heard {
        I(0, _, true) => S(Rr, Response, 1, true),
        I(0, _, false) => S(Rr, Command, 1, true),
        I(_, _, true) => S(Rr, Response, 0, true),
        S(Srej, _, 0, _) => S(Rr, Command, 0, true),
        S(_, Command, _, true) => S(Rr, Response, 0, true),
        _ => S(Rr, Command, 0, true),
    };
    one_sent(heard, sends)
}

/// Connected: V(A) = 1, V(S) = 1, V(R) = 1. 1 is the only N(R) that is right, and no SREJ is.
pub(super) fn segment_acknowledged(heard: Slot) -> Reaction {
    let sends = match heard {
        I(0, _, _) => S(Rr, Response, 1, false),
        I(1, _, _) => S(Rr, Response, 2, false),
        S(_, Command, _, true) => S(Rr, Response, 1, true),
        Ui(_, _, Brk(n, length)) => Ui(Command, false, BrkAck(n, length)),
        _ => Flags,
    };
    one_acknowledged(heard, sends)
}

/// Connected: V(A) = 0, V(S) = 0, V(R) = 0. The answer to the poll was that the other end is busy. The segment goes once it shows by RR or
/// REJ that it no longer is; an I frame doesn't show it. 0 is the only N(R) that is right, and no SREJ is.
pub(super) fn paused(heard: Slot) -> Reaction {
    let sends = match heard {
        I(0, _, pf) => S(Rr, Response, 1, pf),
        I(1, _, true) => S(Rr, Response, 0, true),
        I(127, _, _) => S(Rr, Response, 0, false),
        I(..) => S(Rej, Response, 0, false),
        S(_, Command, _, true) => S(Rr, Response, 0, true),
        S(Rr | Rej, ..) => I(0, 0, false),
        Ui(_, _, Brk(n, length)) => Ui(Command, false, BrkAck(n, length)),
        _ => Flags,
    };
    none_sent(heard, sends)
}

/// Releasing: an answer to the DISC is awaited.
pub(super) fn disc_sent(heard: Slot) -> Reaction {
    match heard {
        Ua(true) | Dm(true) => Sends(Closed, Flags),
        _ => Sends(Releasing, Flags),
    }
}
