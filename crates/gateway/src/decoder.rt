// Samples to bits, as they come, into room that the caller has.
ghost use Rattle.std.specs.Prelude.{◌≡◌, ◌≢◌, ◌+◌, ◌*◌, ◌<◌, ◌≤◌, ◌^◌, ◌++◌, ℕ, Bool, List, [], None, All, length, take, IfOk, IfErr, MatchOption, MatchResult};
ghost use Rattle.scramblers.specs.declared.mode.Mode.{Mode};
ghost use Rattle.symbol_map.specs.declared.sample.Sample.{Sample};
ghost use Rattle.gateway.specs.declared.any_reader.LineKind.{LineKind};
ghost use Rattle.gateway.specs.Decoding.{decoding_of};
ghost use Rattle.gateway.specs.Given.{given, samples_in, AreBits};
ghost use Rattle.gateway.specs.Reads.{Read, ReadsAs, Ends};
ghost use Rattle.gateway.specs.Stopped.{IsIdle, IsStopped, IsUnfinished};

use crate::any_reader::{AnyReader, LineKind};
use crate::label_bits::{LabelBits, put_bits, put_octet};
use crate::parts::{BATCH, copy_samples};
use line_coding::{Demodulate, Demodulator};
use rate_4800::Demodulator as QuarterDemodulator;
use scramblers::Mode;
use shared_terms::NoMemory;
use std::alloc::Global;
use symbol_map::Sample;

/// No line has more samples.
pub(crate) const MOST: u64 = 1 << 50;

/// The most bits that `finish` gives.
pub const LAST_BITS: usize = 512;

/// Where a push stops.
#[derive(Clone, Copy, PartialEq, Eq)]
pub enum DecoderStop {
    /// All samples are read, and all bits are given.
    All,
    /// There is no room for the bits of a label more.
    Full,
    /// All bits are given, and the line is lost since this symbol, counted from 0.
    Lost(u64),
    /// No line has so many samples: none was read.
    Late,
}

/// How far a push came.
#[derive(Clone, Copy)]
pub struct Pushed {
    /// Samples that were read.
    pub read: usize,
    /// Bits that were given.
    pub written: usize,
    /// Where it stopped.
    pub stop: DecoderStop,
}

/// Samples on their way to bits.
#[derive(Drop)]
pub struct SampleDecoder {
    reader: AnyReader,
    samples: u64,
    ghost few: { (decoding_of reader).lost ≡ None → (decoding_of reader).count ≤ samples },
    ghost early: { samples ≤ 2 ^ 50 },
}

/// Gives the bits of the labels that are released, of two at a time, while there are two and there is room: the place behind them.
fn take_octets(reader: &mut AnyReader, bits: &mut [u8], at: usize) -> usize
    requires { at ≤ length bits.old }
    ensures length { length bits.new ≡ length bits.old }
    ensures next { result ≤ length bits.new }
    ensures reads { (line : LineKind) (mode : Mode) (samples : List Sample) (before : List Bool) → ReadsAs line mode reader.old samples (before ++ given at bits.old)
        → ReadsAs line mode reader.new samples (before ++ given result bits.new) }
    ensures bits { AreBits at bits.old → AreBits result bits.new }
    ensures lost { (decoding_of reader.new).lost ≡ (decoding_of reader.old).lost }
    ensures count { (decoding_of reader.new).count ≡ (decoding_of reader.old).count }
{
    let mut next = at;
    while bits.len() - next >= 8 {
        match reader.take_octet() {
            None => return next,
            Some(octet) => next = put_octet(octet, bits, next),
        }
    }
    next
}

/// Gives the bits of the labels that are released, while there is room: the place behind them.
fn take_bits(reader: &mut AnyReader, bits: &mut [u8], at: usize) -> usize
    requires { at ≤ length bits.old }
    ensures length { length bits.new ≡ length bits.old }
    ensures next { result ≤ length bits.new }
    ensures reads { (line : LineKind) (mode : Mode) (samples : List Sample) (before : List Bool) → ReadsAs line mode reader.old samples (before ++ given at bits.old)
        → ReadsAs line mode reader.new samples (before ++ given result bits.new) }
    ensures bits { AreBits at bits.old → AreBits result bits.new }
    ensures full { (decoding_of reader.new).pending ≢ [] → length bits.new < result + 4 }
    ensures lost { (decoding_of reader.new).lost ≡ (decoding_of reader.old).lost }
    ensures count { (decoding_of reader.new).count ≡ (decoding_of reader.old).count }
{
    if reader.pending() == 0 {
        return at;
    }
    let mut next = take_octets(reader, bits, at);
    while bits.len() - next >= 4 {
        match reader.take() {
            None => return next,
            Some(taken) => next = put_bits(taken, bits, next),
        }
    }
    next
}

/// Why no sample more can be read, if that is so.
fn stop_of(reader: &AnyReader) -> Option<DecoderStop>
    ensures { MatchOption result (IsIdle (decoding_of reader.now)) (λ stop. IsStopped stop (decoding_of reader.now)) }
{
    if reader.pending() > 0 {
        return Some(DecoderStop::Full);
    }
    match reader.lost() {
        Some(lost) => Some(DecoderStop::Lost(lost.symbol)),
        None => None,
    }
}

/// Gives the bits of these labels: how many.
fn put_labels<D: Demodulate<LABELS>, const LABELS: usize>(
    mut demodulator: D,
    labels: &[u8],
    count: u8,
    bits: &mut [u8],
) -> usize
    requires count { count ≤ 4 }
    requires room { 4 * length labels.now ≤ length bits.old }
    requires small { All (λ label. label < LABELS) labels.now }
    requires carries { count ≡ D.BITS }
    ensures reads { (mode : Mode) (before : List ℕ) (read : List Bool) → D.reads mode demodulator before read
        → Read (D.reads mode) (before ++ labels.now) (read ++ given result bits.new) }
    ensures bits { AreBits result bits.new }
    ensures length { length bits.new ≡ length bits.old }
    ensures within { result ≤ length bits.new }
{
    let mut at = 0;
    for label in labels {
        let number = demodulator.push(*label);
        at = put_bits(LabelBits { count, number }, bits, at);
    }
    at
}

/// How many of so many samples were read, the last of which lost the line with this symbol, behind so many others.
fn read_until(symbol: u64, before: u64, most: usize) -> usize
    requires { 1 ≤ most }
    ensures some { 1 ≤ result }
    ensures within { result ≤ most }
    ensures value { before ≤ symbol → symbol < before + most → before + result ≡ symbol + 1 }
{
    (symbol.saturating_sub(before).min(most as u64 - 1) + 1) as usize
}

impl SampleDecoder {
    ghost use Rattle.gateway.specs.Decoded.{HasDecoded};
    ghost use Rattle.gateway.specs.Stops.{StopsSo};

    /// A decoder before the first sample of the modem of that mode. All memory is taken here.
    pub fn new(alloc: Global, line: LineKind, mode: Mode) -> Result<SampleDecoder, NoMemory>
        ensures { IfOk result (λ decoder. HasDecoded line mode decoder [] []) }
    {
        Ok(SampleDecoder {
            reader: AnyReader::new(alloc, line, mode)?,
            samples: 0,
        })
    }

    /// Hears as many of the samples as there is room for: how many. Behind the one that loses the line none is read.
    fn hear(&mut self, samples: &[Sample]) -> usize
        requires idle { IsIdle (decoding_of self.old.reader) }
        requires some { 1 ≤ length samples.now }
        requires early { self.old.samples + length samples.now ≤ 2 ^ 50 }
        ensures decodes { (line : LineKind) (mode : Mode) (past : List Sample) (bits : List Bool) → HasDecoded line mode self.old past bits
            → HasDecoded line mode self.new (past ++ take result samples.now) bits }
        ensures some { 1 ≤ result }
        ensures within { result ≤ length samples.now }
        ensures samples { self.new.samples ≡ self.old.samples + result }
    {
        match self.reader.push_some(samples) {
            Ok(read) => {
                self.samples += read as u64;
                read
            }
            Err(lost) => {
                let read = read_until(lost.symbol, self.samples, samples.len());
                self.samples += read as u64;
                read
            }
        }
    }

    /// Samples more, a real and an imaginary part each, and the bits of the labels that they release, an octet each. Once the line is lost
    /// no sample more is read: what waits is given, and `Lost` comes again.
    pub fn push(&mut self, parts: &[i16], bits: &mut [u8]) -> Pushed
        ensures decodes { (line : LineKind) (mode : Mode) (samples : List Sample) (before : List Bool) → HasDecoded line mode self.old samples before
            → HasDecoded line mode self.new (samples ++ samples_in result.read parts.now) (before ++ given result.written bits.new) }
        ensures bits { AreBits result.written bits.new }
        ensures stops { StopsSo result.stop self.old (length parts.now) (length bits.new) result.read result.written self.new }
        ensures late { result.stop ≡ DecoderStop.Late → bits.new ≡ bits.old }
        ensures length { length bits.new ≡ length bits.old }
        ensures read { 2 * result.read ≤ length parts.now }
        ensures written { result.written ≤ length bits.new }
    {
        let count = parts.len() / 2;
        if count as u64 > MOST - self.samples {
            return Pushed {
                read: 0,
                written: 0,
                stop: DecoderStop::Late,
            };
        }
        let mut samples = [Sample { re: 0, im: 0 }; BATCH];
        let mut written = 0;
        let mut read = 0;
        while read < count {
            written = take_bits(&mut self.reader, bits, written);
            if let Some(stop) = stop_of(&self.reader) {
                return Pushed {
                    read,
                    written,
                    stop,
                };
            }
            let copied = copy_samples(parts, read, count, &mut samples);
            read += self.hear(&samples[..copied]);
        }
        written = take_bits(&mut self.reader, bits, written);
        let stop = match stop_of(&self.reader) {
            Some(stop) => stop,
            None => DecoderStop::All,
        };
        Pushed {
            read: count,
            written,
            stop,
        }
    }

    /// The bits of the labels that still waited, at the line's end: how many. Where bits wait that weren't given, where the line is lost,
    /// and where there is no room for as many as there can be, it stays as it is.
    pub fn finish(self, bits: &mut [u8]) -> Result<usize, (SampleDecoder, DecoderStop)>
        ensures ends { (line : LineKind) (mode : Mode) (samples : List Sample) (before : List Bool) → HasDecoded line mode self samples before
            → IfOk result (λ written. Ends line mode samples before (given written bits.new)) }
        ensures bits { IfOk result (λ written. AreBits written bits.new) }
        ensures answer { MatchResult result (λ _. IsIdle (decoding_of self.reader) × (512 ≤ length bits.new))
            (λ stopped. (stopped.0 ≡ self) × IsUnfinished stopped.1 (decoding_of self.reader) (length bits.new)) }
        ensures room { IfErr result (λ _. bits.new ≡ bits.old) }
        ensures length { length bits.new ≡ length bits.old }
        ensures written { IfOk result (λ written. written ≤ length bits.new) }
    {
        if let Some(stop) = stop_of(&self.reader) {
            return Err((self, stop));
        }
        if bits.len() < LAST_BITS {
            return Err((self, DecoderStop::Full));
        }
        let SampleDecoder { reader, samples: _ } = self;
        match reader {
            AnyReader::Begun(reader) => {
                let (tail, demodulator) = reader.finish();
                Ok(put_labels::<Demodulator, 32>(demodulator, tail.as_slice(), 4, bits))
            }
            AnyReader::Quarters(reader) => {
                let (tail, demodulator) = reader.finish();
                Ok(put_labels::<QuarterDemodulator, 4>(demodulator, tail.as_slice(), 2, bits))
            }
            AnyReader::Middle(_reader) => Ok(0),
        }
    }
}
