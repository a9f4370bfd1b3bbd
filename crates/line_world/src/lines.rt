// The two directions of the line, with what codes what both ends send.
ghost use Rattle.std.specs.Prelude.{◌≡◌, ℕ, ◌*◌, ◌<◌, ◌≤◌, List, [], ◌∷◌, ◌++◌, length, map, Option, IfOk};
ghost use Rattle.shared_terms.specs.declared.role.Role.{Role};
ghost use Rattle.shared_terms.specs.Both.{Both, of};
ghost use Rattle.bit_stuffing.specs.BitSlot.{line_bits};
ghost use Rattle.detection.specs.Slots.{Signal};
ghost use Rattle.lapm_frames.specs.Sendable.{IsSendable};
ghost use Rattle.sample_line.specs.Line.{bits_behind};
ghost use Rattle.link_account.specs.Numbers.{IsNumbered};
ghost use Rattle.link_run.specs.Run.{Turn, arrival};
ghost use Rattle.line_run.specs.Sampled.{Wire};
ghost use Rattle.line_run.specs.Scripted.{wire_at};
ghost use Rattle.line_run.specs.Stream.{Carried, carried_signal};
ghost use Rattle.line_world.specs.Lines.{LinesWait, HaveArrived, AreDue, ArrivesSo, AreCodable, ArePut, PassedFew, and_more, from, none_sent};

use crate::directions::slot_symbols;
use crate::end_coder::EndCoder;
use crate::{Directions, LineEnd};
use bit_stuffing::BitSlot;
use frame_check::Check;
use lapm_frames::Sent;
use noise_script::Script;
use sample_line::{Heard, Line};
use shared_terms::{Both, NoMemory, Role};
use std::alloc::Global;

/// The line of a script with its ends' coders: what they send is coded once, where it is sent.
pub struct Lines {
    /// On which the slots go.
    pub directions: Directions,
    /// What codes what the originator sends.
    orig: EndCoder,
    /// The coder of the answerer.
    answ: EndCoder,
}

impl Drop for Lines {
    // for the prover: so it is dropped by a call, and its fields are not dropped anew wherever one is.
    fn drop(self) {
        let Lines {
            directions: _,
            orig: _,
            answ: _,
        } = self;
    }
}

impl Lines {
    ghost use Rattle.line_world.specs.declared.lines.Lines.{Lines};

    /// A script's line before the first turn, on which so many links send. It takes all its memory.
    pub fn new(alloc: Global, script: &Script, links: u8) -> Result<Lines, NoMemory>
        requires { 1 ≤ links }
        ensures { IfOk result (λ lines. (dlci : ℕ) (beside : Role → ℕ → Option Signal) → LinesWait lines (wire_at script.now dlci beside) links none_sent) }
    {
        let symbols = slot_symbols(script);
        Ok(Lines {
            directions: Directions::new(alloc, script, links)?,
            orig: EndCoder::new(Role::Originator, symbols),
            answ: EndCoder::new(Role::Answerer, symbols),
        })
    }

    /// What both ends of a link hear in this turn, with these checks on this channel, or how the line ends the run: the originator's slot first.
    pub fn arrive(
        &mut self,
        script: &Script,
        turn: u64,
        checks: &Both<Check>,
        dlci: u8,
    ) -> Result<Both<Heard>, LineEnd>
        requires channel { dlci < 64 }
        requires few { PassedFew self.old.directions }
        requires due { (c : Wire) × (links : ℕ) × (ts : List Turn) × (streams : Both (List Carried)) × LinesWait self.old c links streams
            × AreDue c links ts streams × (c.script ≡ script.now) × (turn ≡ length ts) }
        ensures arrives { (c : Wire) (links : ℕ) (ts : List Turn) (streams : Both (List Carried)) → LinesWait self.old c links streams
            → AreDue c links ts streams → c.script ≡ script.now → c.dlci ≡ dlci → turn ≡ length ts
            → ArrivesSo (HaveArrived self.new c links streams) c ts checks.now result }
        ensures orig_numbered { IfOk result (λ heard. IsNumbered (arrival heard.orig)) }
        ensures answ_numbered { IfOk result (λ heard. IsNumbered (arrival heard.answ)) }
    {
        self.directions.arrive(script, turn, checks, dlci)
    }

    /// Puts what both ends of a link send in this turn on the line, with these checks on this channel.
    pub fn send(&mut self, sent: Both<Sent>, checks: &Both<Check>, dlci: u8)
        requires channel { dlci < 64 }
        requires orig_sendable { IsSendable sent.orig }
        requires answ_sendable { IsSendable sent.answ }
        requires codable { AreCodable self.old sent checks.now dlci }
        requires room { (c : Wire) × (links : ℕ) × (streams : Both (List Carried)) × HaveArrived self.old c links streams }
        ensures waits { (c : Wire) (links : ℕ) (streams : Both (List Carried)) (more : Both Carried) → HaveArrived self.old c links streams
            → ArePut more sent checks.now dlci → LinesWait self.new c links (and_more streams more) }
    {
        let labels = self.orig.code(&sent.orig, checks.orig, dlci);
        self.directions.from_orig.put(sent.orig, labels);
        let labels = self.answ.code(&sent.answ, checks.answ, dlci);
        self.directions.from_answ.put(sent.answ, labels);
    }

    /// The bits of the slot that this role sent last.
    pub fn newest(&self, role: Role) -> &BitSlot
        ensures { (c : Wire) (links : ℕ) (streams : Both (List Carried)) (front : List Carried) (x : Carried) → LinesWait self.now c links streams
            → of role streams ≡ front ++ x ∷ []
            → line_bits result.now ≡ bits_behind (4 * c.symbols) (map (carried_signal role) front) (carried_signal role x) }
    {
        match role {
            Role::Originator => self.orig.newest(),
            Role::Answerer => self.answ.newest(),
        }
    }

    /// The direction in which this role sends.
    pub fn line(&self, role: Role) -> &Line
        ensures { result.now ≡ (from role self.now.directions).line }
    {
        self.directions.line(role)
    }
}
