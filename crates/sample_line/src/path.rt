// The way of labels from the end that sends to the end that hears.
ghost use Rattle.std.specs.Prelude.{◌≡◌, ◌+◌, ◌<◌, ◌≤◌, ◌^◌, ◌%◌, Bool, List, [], ◌++◌, map, length, take, IfOk, None, OnOk};
ghost use Rattle.frame_check.specs.declared.sizes.TheConstants.{SLOT};
ghost use Rattle.symbol_map.specs.declared.sample.Sample.{Sample};
ghost use Rattle.symbol_map.specs.Points.{point_of};
ghost use Rattle.noise_script.specs.Script.{ScriptValue};
ghost use Rattle.sample_line.specs.Path.{Carries, CarriesBetween, Arrives, PassesPoints};

use crate::hearer::Hearer;
use crate::receiver::Slot;
use crate::tally::Tally;
use crate::transmitter::{BATCH, Transmitter};
use crate::{LabelSlot, mode_of};
use exact_decoder::Lost;
use noise_script::Script;
use shared_terms::{NoMemory, Role};
use std::alloc::Global;
use symbol_map::Sample;

/// What makes samples of labels, and what hears them.
#[derive(Drop)]
pub(crate) struct Path {
    /// From labels to samples.
    pub transmitter: Transmitter,
    /// From samples to pieces and patterns.
    pub hearer: Hearer,
}

impl Path {
    /// A path before its first label. All its memory is taken here.
    pub fn new(alloc: Global, sender: Role) -> Result<Path, NoMemory>
        ensures sender { IfOk result (λ path. path.transmitter.sender ≡ sender) }
        ensures symbol { IfOk result (λ path. path.transmitter.symbol ≡ 0) }
        ensures count { IfOk result (λ path. path.hearer.reader.decoder.count ≡ 0) }
        ensures pending { IfOk result (λ path. path.hearer.reader.decoder.pending ≡ []) }
        ensures lost { IfOk result (λ path. path.hearer.reader.decoder.lost ≡ None) }
        ensures stands { IfOk result (λ path. (script : ScriptValue) → Carries path script [] []) }
    {
        Ok(Path {
            transmitter: Transmitter::new(sender),
            hearer: Hearer::new(alloc, mode_of(sender))?,
        })
    }

    /// The tally once the labels of a slot from a multiple of eight on, so many, have come to the hearer, as samples.
    fn arrive(
        &mut self,
        script: &Script,
        labels: &LabelSlot,
        at: usize,
        count: usize,
        slot: Slot<'_>,
        tally: Tally,
    ) -> Result<Tally, Lost>
        requires channel { slot.framing.dlci < 64 }
        requires multiple { at % 8 ≡ 0 }
        requires within { at + count ≤ length labels.now }
        requires early { at ≤ SLOT }
        requires few { count ≤ BATCH }
        requires symbol { self.old.transmitter.symbol < 2 ^ 55 }
        requires count { self.old.hearer.reader.decoder.count < 2 ^ 55 }
        requires pending { self.old.hearer.reader.decoder.pending ≡ [] }
        requires lost { self.old.hearer.reader.decoder.lost ≡ None }
        ensures arrives { (before : List Sample) (earlier : List Bool)
            → CarriesBetween self.old script.now (before ++ map point_of (take at labels.now)) slot.entry.framing.check slot.entry.framing.sender slot.entry.framing.dlci slot.entry.sent.now earlier tally
            → Arrives self.new script.now (before ++ map point_of (take (at + count) labels.now)) slot.entry.framing.check slot.entry.framing.sender slot.entry.framing.dlci slot.entry.sent.now earlier result }
        ensures sender { self.new.transmitter.sender ≡ self.old.transmitter.sender }
        ensures symbol { self.new.transmitter.symbol ≡ self.old.transmitter.symbol + count }
        ensures count { self.new.hearer.reader.decoder.count ≤ self.old.hearer.reader.decoder.count + count }
        ensures pending { OnOk result (self.new.hearer.reader.decoder.pending ≡ []) }
        ensures lost { OnOk result (self.new.hearer.reader.decoder.lost ≡ None) }
        ensures taken { self.new.hearer.reader.decoder.lost ≡ None → self.new.hearer.reader.decoder.pending ≡ [] }
    {
        let mut samples = [Sample { re: 0, im: 0 }; BATCH];
        self.transmitter
            .send_some(script, labels, at, count, &mut samples);
        self.hearer.hear(&samples[..count], slot, tally)
    }

    /// What is received of a slot of labels.
    pub fn pass(
        &mut self,
        script: &Script,
        labels: &LabelSlot,
        slot: Slot<'_>,
    ) -> Result<Tally, Lost>
        requires channel { slot.framing.dlci < 64 }
        requires symbol { self.old.transmitter.symbol < 2 ^ 54 }
        requires count { self.old.hearer.reader.decoder.count < 2 ^ 54 }
        requires pending { self.old.hearer.reader.decoder.pending ≡ [] }
        requires lost { self.old.hearer.reader.decoder.lost ≡ None }
        ensures passes { (before : List Sample) (earlier : List Bool) → Carries self.old script.now before earlier
            → PassesPoints self.new script.now before (map point_of labels.now) slot.entry.framing.check slot.entry.framing.sender slot.entry.framing.dlci slot.entry.sent.now earlier result }
        ensures sender { self.new.transmitter.sender ≡ self.old.transmitter.sender }
        ensures symbol { self.new.transmitter.symbol ≤ self.old.transmitter.symbol + SLOT }
        ensures count { self.new.hearer.reader.decoder.count ≤ self.old.hearer.reader.decoder.count + SLOT }
        ensures pending { OnOk result (self.new.hearer.reader.decoder.pending ≡ []) }
        ensures lost { OnOk result (self.new.hearer.reader.decoder.lost ≡ None) }
        ensures taken { self.new.hearer.reader.decoder.lost ≡ None → self.new.hearer.reader.decoder.pending ≡ [] }
    {
        let mut tally = Tally::Silent;
        let mut at = 0;
        while at < labels.len() {
            let count = (labels.len() - at).min(BATCH);
            tally = self.arrive(script, labels, at, count, slot, tally)?;
            at += count;
        }
        Ok(tally)
    }
}
