// What there is of each end of a tapped line.
ghost use Rattle.std.specs.Prelude.{◌≡◌, ℕ, ◌+◌, ◌*◌, ◌<◌, ◌≤◌, ◌^◌, true, List, [], ◌++◌, length, take, IfOk, IfSome, IfNone, vec_len};
ghost use Rattle.shared_terms.specs.Role.{other};
ghost use Rattle.link_account.specs.Account.{window_for};
ghost use Rattle.link_run.specs.Listened.{check_by};
ghost use Rattle.frame_check.specs.declared.sizes.TheConstants.{SLOT};
ghost use Rattle.bit_stuffing.specs.declared.slot_writer.TheConstants.{HEAD, TAIL};
ghost use Rattle.frame_check.specs.declared.check.Check.{Check as CheckValue};
ghost use Rattle.shared_terms.specs.declared.role.Role.{Role as RoleValue};
ghost use Rattle.lapm_frames.specs.declared.sent.Sent.{Sent as SentValue};
ghost use Rattle.line_run.specs.Fitting.{AreFit};
ghost use Rattle.link_run.specs.Run.{Turn};
ghost use Rattle.line_run.specs.Sampled.{Wire, signals};
ghost use Rattle.line_tap.specs.Reader.{IsInStep};
ghost use Rattle.line_tap.specs.Tapping.{HoldsNext};

use crate::SlotReader;
use crate::limits::DLCI;
use crate::listener::{EndListener, agreed_check};
use bit_stuffing::{HEAD, TAIL};
use frame_check::SLOT;
use lapm_frames::Sent;
use sample_line::{Framing, LabelSlot};
use shared_terms::{NoMemory, Role};
use std::alloc::Global;
use xid_params::Terms;

/// What there is of an end.
pub struct TappedEnd {
    /// Who hears what passes to it.
    pub listener: EndListener,
    /// What reads its slots.
    pub reader: SlotReader,
    /// The octets of a slot of its recording.
    pub piece: Vec<u8>,
}

impl Drop for TappedEnd {
    // for the prover: so it is dropped by a call, and its fields are not dropped anew wherever one is.
    fn drop(self) {
        let TappedEnd {
            listener: _,
            reader: _,
            piece: _,
        } = self;
    }
}

/// A vector of so many octets, each 0.
fn zeros(alloc: Global, count: usize) -> Result<Vec<u8>, NoMemory>
    requires { count < 2 ^ 20 }
    ensures { IfOk result (λ octets. length octets.items ≡ count) }
{
    match vec![in alloc; 0u8; count] {
        Ok(octets) => Ok(octets),
        Err(_) => Err(NoMemory),
    }
}

impl TappedEnd {
    ghost use Rattle.line_tap.specs.declared.end.TappedEnd.{TappedEnd};
    ghost use Rattle.line_tap.specs.End.{ReadsOn, ReadsNext, slot_as};
    ghost use Rattle.line_tap.specs.EndListener.{IsIdle, ListensFor};

    /// An end before the first turn, by these terms, whose slots have so many symbols. It takes all its memory.
    pub fn new(
        alloc: Global,
        role: Role,
        terms: &Terms,
        symbols: u16,
    ) -> Result<TappedEnd, NoMemory>
        requires window_low { 1 ≤ window_for (other role) terms.now }
        requires window_high { window_for (other role) terms.now ≤ 127 }
        requires window_srej { terms.now.srej ≡ true → window_for (other role) terms.now ≤ 64 }
        requires low { HEAD + TAIL < symbols }
        requires high { symbols ≤ SLOT }
        ensures listens { IfOk result (λ end. ListensFor end.listener terms.now role []) }
        ensures idle { IfOk result (λ end. IsIdle end.listener 0) }
        ensures reads { IfOk result (λ end. (c : Wire) → c.symbols ≡ symbols → c.dlci ≡ 0 → ReadsOn end.reader c (check_by terms.now) role [] []) }
        ensures room { IfOk result (λ end. length end.piece.items ≡ 4 * symbols) }
    {
        let framing = Framing {
            check: agreed_check(terms),
            sender: role,
            dlci: DLCI,
        };
        Ok(TappedEnd {
            listener: EndListener::new(alloc, role, terms)?,
            reader: SlotReader::new(framing, symbols),
            piece: zeros(alloc, 4 * usize::from(symbols))?,
        })
    }

    /// What is sent in the slot that the first so many octets of the piece are, whose labels take the place of what is in these. None where they
    /// are fewer than a slot has, or no slot's.
    pub fn read(&mut self, count: usize, labels: &mut LabelSlot) -> Option<Sent>
        requires writer { IsInStep self.old.reader }
        requires size { vec_len self.old.piece ≡ 4 * self.old.reader.symbols }
        requires count { count ≤ vec_len self.old.piece }
        ensures some { (c : Wire) (check : CheckValue) (role : RoleValue) (ts : List Turn) (body : List ℕ) → ReadsOn self.old.reader c check role ts body
            → IfSome result (λ sent. ReadsNext self.new.reader c check role ts (body ++ take count self.old.piece.items) (slot_as sent labels.new)) }
        ensures none { (c : Wire) (check : CheckValue) (role : RoleValue) (ts : List Turn) (body : List ℕ) → ReadsOn self.old.reader c check role ts body
            → AreFit (4 * c.symbols) 0 (signals c role ts)
            → IfNone result ((s : SentValue) → HoldsNext c check role ts (body ++ take count self.old.piece.items) s → ⊥) }
        ensures listener { self.new.listener ≡ self.old.listener }
        ensures piece { self.new.piece ≡ self.old.piece }
    {
        if count < self.piece.len() {
            return None;
        }
        self.reader.read(&self.piece, labels)
    }
}
