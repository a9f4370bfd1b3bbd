// The check that an end's frames with numbers have, turn by turn.
use super::end::Standing;
use super::slot::{Kind, Says, Slot, Supervisory, offer};
use frame_check::Check;
use lapm_link::Setup;
use shared_terms::Role;
use std::alloc::Global;

/// An end that offers the check of 32 bits or not, and in each turn what it hears and the check that it then has.
struct Agreement {
    name: &'static str,
    role: Role,
    offers: bool,
    turns: &'static [(Slot, Check)],
}

const NONE: Slot = Slot::Flags;

const UA: Slot = Slot::Ua(true);

const SABME: Slot = Slot::Sabme(true);

const DISC: Slot = Slot::Disc(true);

const POLL: Slot = Slot::S(Supervisory::Rr, Kind::Command, 0, true);

const REPLY: Slot = Slot::S(Supervisory::Rr, Kind::Response, 0, true);

/// What the rules ask for: the check changes as the end hears on what it agrees, and then stays.
const AGREEMENTS: &[Agreement] = &[
    Agreement {
        name: "the originator agrees as it hears the XID response",
        role: Role::Originator,
        offers: true,
        turns: &[
            (NONE, Check::Sixteen),
            (Slot::Adp, Check::Sixteen),
            (
                Slot::Xid(Kind::Response, Says::OfferWithCheck),
                Check::ThirtyTwo,
            ),
            (UA, Check::ThirtyTwo),
            (REPLY, Check::ThirtyTwo),
        ],
    },
    Agreement {
        name: "the other end offers no such check",
        role: Role::Originator,
        offers: true,
        turns: &[
            (NONE, Check::Sixteen),
            (Slot::Adp, Check::Sixteen),
            (Slot::Xid(Kind::Response, Says::Offer), Check::Sixteen),
            (UA, Check::Sixteen),
            (REPLY, Check::Sixteen),
        ],
    },
    Agreement {
        name: "this one offers none",
        role: Role::Originator,
        offers: false,
        turns: &[
            (NONE, Check::Sixteen),
            (Slot::Adp, Check::Sixteen),
            (
                Slot::Xid(Kind::Response, Says::OfferWithCheck),
                Check::Sixteen,
            ),
            (UA, Check::Sixteen),
        ],
    },
    Agreement {
        name: "the answerer agrees as it hears an XID command, and keeps its check when the link is over",
        role: Role::Answerer,
        offers: true,
        turns: &[
            (NONE, Check::Sixteen),
            (
                Slot::Xid(Kind::Command, Says::OfferWithCheck),
                Check::ThirtyTwo,
            ),
            (SABME, Check::ThirtyTwo),
            (POLL, Check::ThirtyTwo),
            (DISC, Check::ThirtyTwo),
        ],
    },
    Agreement {
        name: "the last offer that isn't refused counts",
        role: Role::Answerer,
        offers: true,
        turns: &[
            (Slot::Xid(Kind::Command, Says::Nothing), Check::Sixteen),
            (
                Slot::Xid(Kind::Command, Says::OfferWithCheck),
                Check::ThirtyTwo,
            ),
            (Slot::Xid(Kind::Command, Says::Nothing), Check::ThirtyTwo),
            (Slot::Xid(Kind::Command, Says::Offer), Check::Sixteen),
            (SABME, Check::Sixteen),
        ],
    },
    Agreement {
        name: "a SABME that comes without an offer counts as the default one",
        role: Role::Answerer,
        offers: true,
        turns: &[(SABME, Check::Sixteen), (POLL, Check::Sixteen)],
    },
    Agreement {
        name: "an answerer that offers none",
        role: Role::Answerer,
        offers: false,
        turns: &[
            (
                Slot::Xid(Kind::Command, Says::OfferWithCheck),
                Check::Sixteen,
            ),
            (SABME, Check::Sixteen),
        ],
    },
];

/// Whether an end has the checks of this agreement, turn by turn.
fn has_checks(alloc: Global, agreement: &Agreement) -> bool {
    let setup = Setup {
        role: agreement.role,
        offer: offer(false, agreement.offers),
        tries: 5,
        period: 60,
    };
    let Ok(mut standing) = Standing::new(alloc, setup) else {
        return false;
    };
    for &(heard, check) in agreement.turns {
        match standing.behind(heard, b"", false, false) {
            Some(next) => standing = next,
            None => return false,
        }
        if standing.end.check() != check {
            return false;
        }
    }
    true
}

#[test]
fn the_check_changes_with_the_agreement(rt: HostRuntime) {
    for agreement in AGREEMENTS {
        let holds = has_checks(rt.alloc(), agreement);
        assert!(rt; holds, "{}", agreement.name);
    }
}
