// A direction of the line, with the slots that are on their way.
ghost use Rattle.std.specs.Prelude.{◌≡◌, ℕ, ◌+◌, ◌*◌, ◌<◌, ◌≤◌, ◌^◌, List, [], ◌∷◌, ◌++◌, length, IfOk};
ghost use Rattle.detection.specs.Slots.{Signal};
ghost use Rattle.lapm_frames.specs.Sendable.{IsSendable};
ghost use Rattle.noise_script.specs.Script.{ScriptValue};
ghost use Rattle.link_account.specs.Numbers.{IsNumbered};
ghost use Rattle.link_run.specs.Run.{arrival};
ghost use Rattle.line_run.specs.Stream.{Carried};
ghost use Rattle.line_world.specs.Way.{Stands, CodesNext, Arrival};

use crate::slot::SentSlot;
use circular_buffer::HeapCircularBuffer;
use exact_decoder::Lost;
use frame_check::Check;
use lapm_frames::Sent;
use line_run::direction::losses_stay;
use noise_script::Script;
use sample_line::laws::recordings_grow;
use sample_line::{Heard, LabelSlot, Line};
use shared_terms::{NoMemory, Role};
use std::alloc::Global;

/// A direction of the line: what its sender sends arrives so many turns later, behind what was sent before.
pub struct DelayedLine {
    /// What makes samples of slots, and hears them.
    line: Line,
    /// The end that sends.
    sender: Role,
    /// How many turns a slot is on its way.
    delay: u8,
    /// How many slots are on their way at a time: those of so many turns, of each link.
    lag: u16,
    /// The slots on their way, the oldest first.
    slots: HeapCircularBuffer<SentSlot>,
}

impl Drop for DelayedLine {
    // for the prover: so it is dropped by a call, and its fields are not dropped anew wherever one is.
    fn drop(self) {
        let DelayedLine {
            line: _,
            sender: _,
            delay: _,
            lag: _,
            slots: _,
        } = self;
    }
}

impl DelayedLine {
    ghost use Rattle.line_world.specs.declared.direction.DelayedLine.{DelayedLine};

    /// A direction on which nothing was sent, whose slots have so many symbols, and of which so many links send one in each turn. It takes all
    /// its memory.
    pub fn new(
        alloc: Global,
        sender: Role,
        symbols: u16,
        delay: u8,
        links: u8,
    ) -> Result<DelayedLine, NoMemory>
        ensures sender { IfOk result (λ direction. direction.sender ≡ sender) }
        ensures symbols { IfOk result (λ direction. direction.line.symbols ≡ symbols) }
        ensures delay { IfOk result (λ direction. direction.delay ≡ delay) }
        ensures lag { IfOk result (λ direction. direction.lag ≡ links * delay) }
        ensures stands { IfOk result (λ direction. (script : ScriptValue) → Stands direction script [] []) }
    {
        let lag = u16::from(links) * u16::from(delay);
        Ok(DelayedLine {
            line: Line::new(alloc, sender, symbols)?,
            sender,
            delay,
            lag,
            slots: HeapCircularBuffer::with_capacity(alloc, usize::from(lag))?,
        })
    }

    /// What arrives in this turn, for a hearer with this check on this channel: what becomes of the oldest slot on its way, or nothing before
    /// the line is full. `Lost` comes with the symbol, counted from 0 over all slots, at which the line is lost.
    pub fn arrive(
        &mut self,
        script: &Script,
        turn: u64,
        check: Check,
        dlci: u8,
    ) -> Result<Heard, Lost>
        requires channel { dlci < 64 }
        requires few { self.old.line.passed < 2 ^ 40 }
        requires late { self.old.lag ≤ length self.old.slots.items → self.old.delay ≤ turn }
        requires some { 1 ≤ self.old.lag }
        requires stands { (passed : List Signal) × (way : List Carried) × Stands self.old script.now passed way }
        ensures arrives { (passed : List Signal) (way : List Carried) → Stands self.old script.now passed way
            → Arrival self.old self.new script.now passed way turn check dlci result }
        ensures sender { self.new.sender ≡ self.old.sender }
        ensures delay { self.new.delay ≡ self.old.delay }
        ensures lag { self.new.lag ≡ self.old.lag }
        ensures symbols { self.new.line.symbols ≡ self.old.line.symbols }
        ensures numbered { IfOk result (λ heard. IsNumbered (arrival heard)) }
    {
        recordings_grow();
        losses_stay();
        if self.slots.len() < usize::from(self.lag) {
            return Ok(Heard::Nothing);
        }
        match self.slots.pop_front() {
            None => Ok(Heard::Nothing),
            Some(slot) => {
                let loses = script.loses(self.sender, turn - u64::from(self.delay));
                let sent = slot.sent;
                self.line
                    .hear(script, &slot.labels, sent, loses, check, dlci)
            }
        }
    }

    /// Puts a slot on its way behind what was sent before: what is sent in it, and the labels that it was coded as.
    pub fn put(&mut self, sent: Sent, labels: LabelSlot)
        requires sendable { IsSendable sent }
        requires room { length self.old.slots.items < self.old.lag }
        ensures stands { (script : ScriptValue) (passed : List Signal) (way : List Carried) (x : Carried) → Stands self.old script passed way
            → CodesNext self.old passed way x labels → x.spoken.sent ≡ sent → Stands self.new script passed (way ++ x ∷ []) }
        ensures sender { self.new.sender ≡ self.old.sender }
        ensures delay { self.new.delay ≡ self.old.delay }
        ensures lag { self.new.lag ≡ self.old.lag }
        ensures line { self.new.line ≡ self.old.line }
    {
        // It is taken: fewer slots are on their way than the ring was made for.
        let _ = self.slots.push_back(SentSlot { labels, sent });
    }

    /// The line through which the slots pass that have arrived.
    pub fn line(&self) -> &Line
        ensures { result.now ≡ self.now.line }
    {
        &self.line
    }
}
