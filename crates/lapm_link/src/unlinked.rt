// What an end has before it is connected.
ghost use Rattle.lapm_frames.specs.Sendable.{IsSendable};
ghost use Rattle.std.specs.Prelude.{◌≡◌, ℕ, ◌≤◌, ◌<◌, Some, None, IfOk};
ghost use Rattle.xid_params.specs.Offers.{IsAllowed};
ghost use Rattle.lapm_link.specs.Fits.{IsSetUp, Fits, agreed_by};

use crate::answer::{slot_of, without_adp};
use crate::connected::Connected;
use crate::offers::terms_of;
use crate::terms::{size_for, window_for};
use crate::{Sent, Setup};
use lapm_receiver::Receiver;
use lapm_sender::Sender;
use link_account::Answer;
use shared_terms::NoMemory;
use std::alloc::Global;
use xid_params::{Offer, Terms};

/// An end that isn't connected yet, with all the memory that it will need.
pub(crate) struct Unlinked {
    /// The setup that the end was made with.
    pub(crate) setup: Setup,
    /// The answer that it owes.
    pub(crate) answer: Option<Answer>,
    /// Not begun: its window is 0.
    sender: Sender,
    /// Not begun: its window is 0.
    receiver: Receiver,
    ghost set_up: { IsSetUp setup },
    ghost sender_room: { sender.room ≡ setup.offer.tx_window },
    ghost sender_rests: { sender.window ≡ 0 },
    ghost receiver_room: { receiver.room ≡ setup.offer.rx_window },
    ghost receiver_rests: { receiver.window ≡ 0 },
}

impl Drop for Unlinked {
    // for the prover: so it is dropped by a call, and its fields are not dropped anew wherever one is.
    fn drop(self) {
        let Unlinked {
            setup: _,
            answer: _,
            sender: _,
            receiver: _,
        } = self;
    }
}

/// An end that isn't connected yet, and has agreed on these terms.
#[derive(Drop)]
pub(crate) struct Agreed {
    /// What the end will need once it is connected.
    pub(crate) memory: Unlinked,
    /// Windows, lengths, selective reject and check.
    pub(crate) terms: Terms,
    ghost fits: { Fits memory.setup terms },
}

impl Unlinked {
    ghost use Rattle.link_account.specs.Account.{Account, fresh};
    ghost use Rattle.link_account.specs.Hear.{on_nothing, owing};
    ghost use Rattle.lapm_link.specs.Stands.{IsUnlinked};

    /// An end that is set up so. It takes all its memory here.
    pub(crate) fn new(alloc: Global, setup: Setup) -> Result<Unlinked, NoMemory>
        requires { IsSetUp setup }
        ensures { IfOk result (λ memory. IsUnlinked memory.setup memory.answer (fresh setup)) }
    {
        let sender = Sender::new(alloc, setup.offer.tx_window)?;
        let receiver = Receiver::new(alloc, setup.offer.rx_window)?;
        Ok(Unlinked {
            setup,
            answer: None,
            sender,
            receiver,
        })
    }

    /// An answer becomes due.
    pub(crate) fn owe(&mut self, answer: Answer)
        ensures account { (a : Account) → IsUnlinked self.old.setup self.old.answer a
            → IsUnlinked self.new.setup self.new.answer (owing answer a) }
        ensures setup { self.new.setup ≡ self.old.setup }
    {
        self.answer = Some(answer);
    }

    /// Nothing was heard.
    pub(crate) fn hear_nothing(&mut self)
        ensures account { (a : Account) → IsUnlinked self.old.setup self.old.answer a
            → IsUnlinked self.new.setup self.new.answer (on_nothing a) }
        ensures setup { self.new.setup ≡ self.old.setup }
    {
        self.answer = without_adp(self.answer);
    }
}

impl Unlinked {
    ghost use Rattle.link_account.specs.Account.{Account};
    ghost use Rattle.link_account.specs.Speak.{Said, answering, else_says, says};
    ghost use Rattle.lapm_link.specs.Stands.{IsUnlinked, SaysUnlinked};

    /// The answer that is due, or else this.
    pub(crate) fn say_answer(&mut self, otherwise: Sent) -> Sent
        ensures account { (a : Account) → IsUnlinked self.old.setup self.old.answer a
            → SaysUnlinked (else_says (answering a.owes.answer a) (says otherwise a)) self.new.setup self.new.answer a result }
        ensures setup { self.new.setup ≡ self.old.setup }
        ensures sendable { IsSendable otherwise → IsSendable result }
    {
        match self.answer {
            None => otherwise,
            Some(answer) => {
                self.answer = None;
                slot_of(answer, &self.setup)
            }
        }
    }

    /// Agrees on what both ends offer.
    pub(crate) fn agree(self, theirs: &Offer) -> Agreed
        requires { IsAllowed theirs.now }
        ensures setup { result.memory.setup ≡ self.setup }
        ensures answer { result.memory.answer ≡ self.answer }
        ensures terms { result.terms ≡ agreed_by self.setup.role self.setup.offer theirs.now }
    {
        let terms = terms_of(self.setup.role, &self.setup.offer, theirs);
        Agreed {
            memory: self,
            terms,
        }
    }
}

impl Unlinked {
    ghost use Rattle.link_account.specs.Account.{Account};
    ghost use Rattle.link_account.specs.Hear.{connected};
    ghost use Rattle.lapm_link.specs.Stands.{IsUnlinked, Links};

    /// The link is up on these terms.
    fn connect(self, terms: Terms, turn: u64) -> Connected
        requires fits { Fits self.setup terms }
        ensures links { (a : Account) → IsUnlinked self.setup self.answer a → terms ≡ a.terms → Links result (connected turn a) }
        ensures counted { result.receiver.taken ≡ 0 }
    {
        let Unlinked {
            setup,
            answer,
            mut sender,
            mut receiver,
        } = self;
        let originates = setup.role.is_originator();
        let window = window_for(setup.role, &terms);
        let size = size_for(setup.role, &terms);
        let their_window = window_for(setup.role.other(), &terms);
        sender.begin(window, size, setup.tries, originates);
        receiver.begin(their_window, terms.srej);
        Connected::new(setup, answer, terms, sender, receiver, turn)
    }
}

impl Agreed {
    ghost use Rattle.link_account.specs.Account.{Account};
    ghost use Rattle.link_account.specs.Hear.{connected, owing};
    ghost use Rattle.link_account.specs.declared.answer.Answer.{Answer};
    ghost use Rattle.lapm_link.specs.Stands.{IsUnlinked, Links};

    /// The link is up.
    pub(crate) fn connect(self, turn: u64) -> Connected
        ensures links { (a : Account) → IsUnlinked self.memory.setup self.memory.answer a → self.terms ≡ a.terms
            → Links result (connected turn a) }
        ensures counted { result.receiver.taken ≡ 0 }
    {
        self.memory.connect(self.terms, turn)
    }

    /// The link is up at an answerer, which owes a UA.
    pub(crate) fn accept(self, pf: bool, turn: u64) -> Connected
        ensures links { (a : Account) → IsUnlinked self.memory.setup self.memory.answer a → self.terms ≡ a.terms
            → Links result (owing (Answer.Ua pf) (connected turn a)) }
        ensures counted { result.receiver.taken ≡ 0 }
    {
        let mut agreed = self;
        agreed.memory.owe(Answer::Ua { pf });
        agreed.connect(turn)
    }
}
