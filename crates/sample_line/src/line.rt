// One direction of the line.
ghost use Rattle.std.specs.Prelude.{◌≡◌, ℕ, ◌+◌, ◌*◌, ◌^◌, ◌<◌, ◌≤◌, nat_eq, List, [], IfOk, None, OnOk};
ghost use Rattle.detection.specs.Slots.{Signal, signal_bits};
ghost use Rattle.symbol_map.specs.declared.sample.Sample.{Sample};
ghost use Rattle.symbol_map.specs.Points.{point_of};
ghost use Rattle.trellis_tables.specs.Table.{next_state};
ghost use Rattle.exact_decoder.specs.Decoder.{DecoderStands};
ghost use Rattle.noise_script.specs.Script.{ScriptValue};
ghost use Rattle.sample_line.specs.Recorded.{Records};
ghost use Rattle.exact_decoder.specs.Surviving.V32.{line_depth};
ghost use Rattle.sample_line.specs.Line.{LineStands, Passes, size_of, sender_of, decoder_of};
ghost use Rattle.sample_line.specs.Coder.{IsCodedAs};

use crate::hearer::LineDecoder;
use crate::path::Path;
use crate::receiver::Slot;
use crate::tally::copy_of;
use crate::{Framing, Heard, LabelSlot};
use exact_decoder::Lost;
use frame_check::Check;
use lapm_frames::Sent;
use noise_script::Script;
use shared_terms::{NoMemory, Role};
use std::alloc::Global;
use std::marker::Model;

/// One direction of the line: slots that were coded where they are sent pass, in the same order, to the end that hears them.
pub struct Line {
    /// How many a slot has.
    symbols: u16,
    /// How many slots have passed.
    passed: u64,
    /// From labels to what is heard.
    path: Path,
}

impl Drop for Line {
    // for the prover: so it is dropped by a call, and its fields are not dropped anew wherever one is.
    fn drop(self) {
        let Line {
            symbols: _,
            passed: _,
            path: _,
        } = self;
    }
}

impl Model for Line {
    ghost use Rattle.std.specs.Prelude.{◌≡◌, ◌*◌, ◌≤◌};
    ghost use Rattle.frame_check.specs.declared.sizes.TheConstants.{SLOT};
    ghost use Rattle.std.specs.Prelude.{None, []};
    ghost use Rattle.sample_line.specs.Line.{Kept};

    ghost Value = { Kept };

    ghost view = { λ l. record { symbols = l.symbols; passed = l.passed; path = l.path } };

    ghost invariant = { λ l. (l.path.transmitter.symbol ≤ SLOT * l.passed) × (l.path.hearer.reader.decoder.count ≤ SLOT * l.passed)
        × (l.path.hearer.reader.decoder.lost ≡ None → l.path.hearer.reader.decoder.pending ≡ []) };
}

impl Line {
    /// A line before its first slot, whose slots have so many symbols. All its memory is taken here.
    pub fn new(alloc: Global, sender: Role, symbols: u16) -> Result<Line, NoMemory>
        ensures sender { IfOk result (λ line. sender_of line ≡ sender) }
        ensures symbols { IfOk result (λ line. line.symbols ≡ symbols) }
        ensures passed { IfOk result (λ line. line.passed ≡ 0) }
        ensures not_lost { IfOk result (λ line. (decoder_of line).lost ≡ None) }
        ensures taken { IfOk result (λ line. (decoder_of line).pending ≡ []) }
        ensures stands { IfOk result (λ line. (script : ScriptValue) → LineStands line script []) }
    {
        Ok(Line {
            symbols,
            passed: 0,
            path: Path::new(alloc, sender)?,
        })
    }

    /// Passes the next slot, as the labels that it was coded as, and answers what becomes of it, with what was sent itself. `Lost` comes with the
    /// symbol, counted from 0 over all slots, at which the line is lost.
    pub fn hear(
        &mut self,
        script: &Script,
        labels: &LabelSlot,
        sent: Sent,
        loses: bool,
        check: Check,
        dlci: u8,
    ) -> Result<Heard, Lost>
        requires channel { dlci < 64 }
        requires few { self.old.passed < 2 ^ 40 }
        requires not_lost { (decoder_of self.old).lost ≡ None }
        ensures passes { (passed : List Signal) (signal : Signal) → LineStands self.old script.now passed
            → IsCodedAs (sender_of self.old) (size_of self.old) passed signal labels.now
            → Passes self.new script.now passed signal check dlci loses sent result }
        ensures sender { sender_of self.new ≡ sender_of self.old }
        ensures symbols { self.new.symbols ≡ self.old.symbols }
        ensures count { self.new.passed ≡ self.old.passed + 1 }
        ensures not_lost { OnOk result ((decoder_of self.new).lost ≡ None) }
        ensures taken { OnOk result ((decoder_of self.new).pending ≡ []) }
    {
        let slot = Slot {
            sent: &sent,
            framing: Framing {
                check,
                sender: self.path.transmitter.sender,
                dlci,
            },
        };
        self.passed += 1;
        let tally = self.path.pass(script, labels, slot)?;
        Ok(tally.outcome(sent, loses))
    }

    /// As [`Line::hear`], for a caller that keeps what was sent.
    pub fn pass(
        &mut self,
        script: &Script,
        labels: &LabelSlot,
        sent: &Sent,
        loses: bool,
        check: Check,
        dlci: u8,
    ) -> Result<Heard, Lost>
        requires channel { dlci < 64 }
        requires few { self.old.passed < 2 ^ 40 }
        requires not_lost { (decoder_of self.old).lost ≡ None }
        ensures passes { (passed : List Signal) (signal : Signal) → LineStands self.old script.now passed
            → IsCodedAs (sender_of self.old) (size_of self.old) passed signal labels.now
            → Passes self.new script.now passed signal check dlci loses sent.now result }
        ensures sender { sender_of self.new ≡ sender_of self.old }
        ensures symbols { self.new.symbols ≡ self.old.symbols }
        ensures count { self.new.passed ≡ self.old.passed + 1 }
        ensures not_lost { OnOk result ((decoder_of self.new).lost ≡ None) }
        ensures taken { OnOk result ((decoder_of self.new).pending ≡ []) }
    {
        self.hear(script, labels, copy_of(sent), loses, check, dlci)
    }

    /// The decoder of this direction.
    pub fn decoder(&self) -> &LineDecoder
        ensures value { result.now ≡ decoder_of self.now }
        ensures heard { (script : ScriptValue) (passed : List Signal) → LineStands self.now script passed
            → (samples : List Sample) × (taken : List ℕ) × Records script (sender_of self.now) (signal_bits (size_of self.now) passed) samples
            × DecoderStands next_state point_of (λ state. nat_eq state 0) line_depth result.now samples taken × (result.now.pending ≡ []) }
        ensures taken { result.now.lost ≡ None → result.now.pending ≡ [] }
    {
        self.path.hearer.reader.decoder()
    }
}
