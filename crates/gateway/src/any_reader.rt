// The readers of a line from its beginning, at both rates, and from its middle, as one.
ghost use Rattle.std.specs.Prelude.{◌≡◌, ◌+◌, ◌<◌, ◌≤◌, ◌^◌, ◌++◌, ◌∷◌, Bool, List, [], Some, None, length, drop, IfOk, IfSome, MatchOption, MatchResult};
ghost use Rattle.frame_check.specs.Bits.{low_bits};
ghost use Rattle.scramblers.specs.declared.mode.Mode.{Mode};
ghost use Rattle.symbol_map.specs.declared.sample.Sample.{Sample};
ghost use Rattle.exact_decoder.specs.Batches.{heard_of};
ghost use Rattle.exact_decoder.specs.Surviving.V32.{line_depth};
ghost use Rattle.line_coding.specs.MiddleReading.{MiddleRead, bits_of_taken};
ghost use Rattle.line_coding.specs.Reading.{bits_in};
ghost use Rattle.gateway.specs.declared.any_reader.LineKind.{LineKind};
ghost use Rattle.gateway.specs.Decoding.{decoding_of};
ghost use Rattle.gateway.specs.Reads.{ReadsAs};
ghost use Rattle.gateway.specs.Taken.{taken_bits};

use crate::label_bits::LabelBits;
use exact_decoder::{Lost, Tail};
use line_coding::{DEPTH, Demodulate, LineReader, MiddleReader, Taken};
use rate_4800::{QuarterReader, Rate4800};
use scramblers::Mode;
use shared_terms::NoMemory;
use std::alloc::Global;
use symbol_map::Sample;
use trellis_tables::V32Code;

/// What a line is, and where it is heard from.
#[derive(Clone, Copy, PartialEq, Eq)]
pub enum LineKind {
    /// 9600 bit/s, from the first symbol on.
    Begun,
    /// 9600 bit/s, from any symbol on.
    Middle,
    /// 4800 bit/s, from the first symbol on.
    Quarters,
}

/// Reads the labels of a line.
#[derive(Drop)]
pub enum AnyReader {
    /// 9600 bit/s, from the first symbol on.
    Begun(LineReader<DEPTH>),
    /// 9600 bit/s, from any symbol on.
    Middle(MiddleReader<DEPTH>),
    /// 4800 bit/s, from the first symbol on.
    Quarters(QuarterReader<DEPTH>),
}

/// The bits of a label that carries so many, if there is one.
fn bits_of(number: Option<u8>, count: u8) -> Option<LabelBits>
    requires { count ≤ 4 }
    ensures { MatchOption result (number ≡ None) (λ bits. (bits.count ≡ count) × (number ≡ Some bits.number)) }
{
    match number {
        Some(number) => Some(LabelBits { count, number }),
        None => None,
    }
}

/// The bits that a label of a line's middle gives.
fn bits_taken(taken: Taken) -> LabelBits
    ensures few { result.count ≤ 4 }
    ensures bits { low_bits result.count result.number ≡ bits_of_taken taken }
{
    match taken {
        Taken::Nothing => LabelBits {
            count: 0,
            number: 0,
        },
        Taken::LastBit(bit) => LabelBits {
            count: 1,
            number: u8::from(bit),
        },
        Taken::Four(number) => LabelBits { count: 4, number },
    }
}

impl AnyReader {
    /// A reader before a line's first sample. All memory is taken here.
    pub fn new(alloc: Global, line: LineKind, mode: Mode) -> Result<AnyReader, NoMemory>
        ensures reads { IfOk result (λ r. ReadsAs line mode r [] []) }
        ensures count { IfOk result (λ r. (decoding_of r).count ≡ 0) }
    {
        match line {
            LineKind::Begun => Ok(AnyReader::Begun(LineReader::new(alloc, V32Code, 0, mode)?)),
            LineKind::Middle => Ok(AnyReader::Middle(MiddleReader::new(alloc, mode)?)),
            LineKind::Quarters => Ok(AnyReader::Quarters(QuarterReader::new(
                alloc, Rate4800, 0, mode,
            )?)),
        }
    }

    /// As many of the samples as there is room for, at least one where there is one: how many. `Lost` comes with the first sample that loses
    /// the line.
    pub fn push_some(&mut self, samples: &[Sample]) -> Result<usize, Lost>
        requires taken { (decoding_of self.old).pending ≡ [] }
        requires lost { (decoding_of self.old).lost ≡ None }
        requires count { (decoding_of self.old).count + length samples.now ≤ 2 ^ 56 }
        ensures reads { (line : LineKind) (mode : Mode) (past : List Sample) (bits : List Bool) → ReadsAs line mode self.old past bits
            → ReadsAs line mode self.new (past ++ heard_of result samples.now) bits }
        ensures answer { MatchResult result (λ _. (decoding_of self.new).lost ≡ None) (λ lost. (decoding_of self.new).lost ≡ Some lost.symbol) }
        ensures within { IfOk result (λ heard. heard ≤ length samples.now) }
        ensures some { IfOk result (λ heard. 1 ≤ length samples.now → 1 ≤ heard) }
        ensures count { IfOk result (λ heard. (decoding_of self.new).count ≤ (decoding_of self.old).count + heard) }
    {
        match self {
            AnyReader::Begun(reader) => reader.push_some(samples),
            AnyReader::Middle(reader) => reader.push_some(samples),
            AnyReader::Quarters(reader) => reader.push_some(samples),
        }
    }

    /// The bits of the oldest label that is released and not yet taken.
    pub fn take(&mut self) -> Option<LabelBits>
        ensures reads { (line : LineKind) (mode : Mode) (samples : List Sample) (bits : List Bool) → ReadsAs line mode self.old samples bits
            → ReadsAs line mode self.new samples (bits ++ taken_bits result) }
        ensures first { MatchOption result ((decoding_of self.old).pending ≡ [])
            (λ bits. (bits.count ≤ 4) × (length (decoding_of self.old).pending ≡ length (decoding_of self.new).pending + 1)) }
        ensures pending { (decoding_of self.new).pending ≡ drop 1 (decoding_of self.old).pending }
        ensures count { (decoding_of self.new).count ≡ (decoding_of self.old).count }
        ensures lost { (decoding_of self.new).lost ≡ (decoding_of self.old).lost }
    {
        match self {
            AnyReader::Begun(reader) => bits_of(reader.take(), 4),
            AnyReader::Middle(reader) => match reader.take() {
                Some(taken) => Some(bits_taken(taken)),
                None => None,
            },
            AnyReader::Quarters(reader) => bits_of(reader.take(), 2),
        }
    }

    /// The bits of the two oldest labels that are released and not yet taken, at 9600 bit/s, where there are two and both give four bits.
    pub fn take_octet(&mut self) -> Option<u8>
        ensures reads { (line : LineKind) (mode : Mode) (samples : List Sample) (bits : List Bool) → ReadsAs line mode self.old samples bits
            → ReadsAs line mode self.new samples (bits ++ bits_in 8 result) }
        ensures two { IfSome result (λ _. length (decoding_of self.old).pending ≡ length (decoding_of self.new).pending + 2) }
        ensures stays { result ≡ None → self.new ≡ self.old }
        ensures count { (decoding_of self.new).count ≡ (decoding_of self.old).count }
        ensures lost { (decoding_of self.new).lost ≡ (decoding_of self.old).lost }
    {
        match self {
            AnyReader::Begun(reader) => reader.take_two(),
            AnyReader::Middle(reader) => reader.take_octet(),
            AnyReader::Quarters(_reader) => None,
        }
    }

    /// How many labels are released and not taken.
    pub fn pending(&self) -> usize
        ensures value { result ≡ length (decoding_of self.now).pending }
        ensures few { result ≤ DEPTH + 1 }
    {
        match self {
            AnyReader::Begun(reader) => reader.pending(),
            AnyReader::Middle(reader) => reader.pending(),
            AnyReader::Quarters(reader) => reader.pending(),
        }
    }

    /// Where the line was lost.
    pub fn lost(&self) -> Option<Lost>
        ensures { MatchOption result ((decoding_of self.now).lost ≡ None) (λ lost. (decoding_of self.now).lost ≡ Some lost.symbol) }
    {
        match self {
            AnyReader::Begun(reader) => reader.lost(),
            AnyReader::Middle(reader) => reader.lost(),
            AnyReader::Quarters(reader) => reader.lost(),
        }
    }
}
