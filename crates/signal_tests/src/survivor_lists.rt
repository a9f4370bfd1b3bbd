// The decoder beside survivors as whole lists, which is the definition as plainly as can be.
ghost use Rattle.std.specs.Prelude.{◌≡◌, ◌<◌, ◌≤◌, ◌^◌, [], length, None, IsTrue};

use super::{Row, assert_rows};
use exact_decoder::{Decoder, Lost};
use std::alloc::Global;
use symbol_map::{Sample, distance};
use trellis_tables::{Encoder, TrellisCode, V32Code};

type Line = Decoder<V32Code, 8, 32, 128>;

/// As many symbols as a stream has.
const SYMBOLS: usize = 400;

/// Labels in order, at most one for each symbol. A plain value, so that nothing is to be dropped.
#[derive(Clone, Copy)]
struct Labels {
    labels: [u8; SYMBOLS],
    count: usize,
}

impl Labels {
    fn new() -> Labels {
        Labels {
            labels: [0; SYMBOLS],
            count: 0,
        }
    }

    // One label more. Whether there was room for it.
    fn push(&mut self, label: u8) -> bool {
        if self.count >= SYMBOLS {
            return false;
        }
        self.labels[self.count] = label;
        self.count += 1;
        true
    }

    fn as_slice(&self) -> &[u8] {
        match self.labels.split_at_checked(self.count) {
            Some((labels, _)) => labels,
            None => &self.labels,
        }
    }
}

/// The nearest sequence to a state, with its cost.
#[derive(Clone, Copy)]
struct Survivor {
    cost: u64,
    labels: Labels,
}

/// How many labels at the front of both lists are the same.
fn shared(a: &[u8], b: &[u8]) -> usize {
    let most = a.len().min(b.len());
    for place in 0..most {
        if a[place] != b[place] {
            return place;
        }
    }
    most
}

/// The survivor of each state to which a sequence from state 0 leads.
#[derive(Clone, Copy)]
struct Survivors {
    of_states: [Option<Survivor>; 8],
}

impl Survivors {
    fn new() -> Survivors {
        let mut of_states = [None; 8];
        of_states[0] = Some(Survivor {
            cost: 0,
            labels: Labels::new(),
        });
        Survivors { of_states }
    }

    fn of(&self, state: u8) -> Option<&Survivor> {
        match self.of_states.get(state as usize) {
            Some(Some(survivor)) => Some(survivor),
            _ => None,
        }
    }

    // What entering a state by this label from the survivor of the state before costs, and that state.
    fn by(&self, state: u8, label: u8, sample: Sample) -> Option<(u64, u8)>
        requires state { state < 8 }
        requires label { label < 32 }
    {
        let before = V32Code.before(state, label)?;
        let survivor = self.of(before)?;
        let far = distance(V32Code.point(label), sample);
        Some((survivor.cost.saturating_add(far), before))
    }

    // The survivor of a state, with one label more and this cost.
    fn gone_on(&self, cost: u64, label: u8, before: u8) -> Option<Survivor> {
        let mut labels = self.of(before)?.labels;
        if labels.push(label) {
            Some(Survivor { cost, labels })
        } else {
            None
        }
    }

    // The survivor of a state once one sample more was heard.
    fn entered(&self, state: u8, sample: Sample) -> Option<Survivor>
        requires { state < 8 }
    {
        let mut least: Option<(u64, u8, u8)> = None;
        for label in 0..32u8 {
            if let Some((cost, before)) = self.by(state, label, sample) {
                match least {
                    Some((known, _, _)) if known <= cost => {}
                    _ => least = Some((cost, label, before)),
                }
            }
        }
        let (cost, label, before) = least?;
        self.gone_on(cost, label, before)
    }

    fn push(&mut self, sample: Sample) {
        let mut of_states = [None; 8];
        for state in 0..8u8 {
            of_states[state as usize] = self.entered(state, sample);
        }
        self.of_states = of_states;
    }

    // The released labels, and those behind them in the least survivor.
    fn released(&self) -> (&[u8], &[u8]) {
        let labels = self.least();
        let mut count = labels.len();
        for survivor in self.of_states.iter() {
            if let Some(survivor) = survivor {
                count = count.min(shared(labels, survivor.labels.as_slice()));
            }
        }
        labels.split_at_checked(count).unwrap_or((labels, &[]))
    }

    // The labels of the least survivor, of equal ones that of the smallest state.
    fn least(&self) -> &[u8] {
        let mut least: Option<&Survivor> = None;
        for survivor in self.of_states.iter() {
            if let Some(survivor) = survivor {
                match least {
                    Some(known) if known.cost <= survivor.cost => {}
                    _ => least = Some(survivor),
                }
            }
        }
        match least {
            Some(survivor) => survivor.labels.as_slice(),
            None => &[],
        }
    }
}

/// The points of quads that are drawn by chance, with offsets of less than half the spread.
#[derive(Drop)]
struct Stream {
    encoder: Encoder,
    word: u32,
}

impl Stream {
    fn draw(&mut self, below: u32) -> u32
        requires { 1 ≤ below }
        ensures { result < below }
    {
        self.word = self
            .word
            .wrapping_mul(1_664_525)
            .wrapping_add(1_013_904_223);
        (self.word >> 16) % below
    }

    fn displaced(&mut self, coordinate: i16, spread: u32) -> i16
        requires low { 1 ≤ spread }
        requires high { spread < 2 ^ 12 }
    {
        let offset = self.draw(spread) as i16;
        coordinate
            .saturating_add(offset)
            .saturating_sub((spread / 2) as i16)
    }

    // A coordinate on a half unit of the map.
    fn half_units(&mut self) -> i16 {
        (1024 * self.draw(64) as i32 - 32768) as i16
    }

    // The sample of a symbol. From the symbol `middle` on all lie in the middle of the map.
    fn sample_at(&mut self, symbol: u32, middle: u32, spread: u32) -> Sample
        requires { spread < 2 ^ 12 }
    {
        if symbol < middle {
            self.sample(spread)
        } else {
            Sample { re: 0, im: 0 }
        }
    }

    // One of a code sequence, or without a spread one by chance, to which many labels are equally near.
    fn sample(&mut self, spread: u32) -> Sample
        requires { spread < 2 ^ 12 }
    {
        if spread == 0 {
            return Sample {
                re: self.half_units(),
                im: self.half_units(),
            };
        }
        let quad = self.draw(16) as u8;
        let point = V32Code.point(self.encoder.push(quad));
        Sample {
            re: self.displaced(point.re, spread),
            im: self.displaced(point.im, spread),
        }
    }
}

// Takes all labels that are released, where there is room for them.
fn take_all(decoder: &mut Line, taken: &mut Labels) -> bool
    ensures pending { IsTrue result → decoder.new.pending ≡ [] }
    ensures count { decoder.new.count ≡ decoder.old.count }
{
    for _ in 0..decoder.pending() {
        if let Some(label) = decoder.take() {
            if !taken.push(label) {
                return false;
            }
        }
    }
    decoder.pending() == 0
}

// Whether what all survivors begin with was taken, and the line is lost with this symbol where they have too much behind it.
fn agree(survivors: &Survivors, taken: &Labels, pushed: &Result<(), Lost>, symbol: u32) -> bool {
    let (released, unreleased) = survivors.released();
    let expected = if unreleased.len() > 128 {
        Err(Lost {
            symbol: u64::from(symbol),
        })
    } else {
        Ok(())
    };
    taken.as_slice() == released && *pushed == expected
}

// Whether what was taken, and the labels behind it, are the least survivor.
fn ends_alike(decoder: Line, survivors: &Survivors, taken: &Labels) -> bool
    requires taken { decoder.pending ≡ [] }
    requires not_lost { decoder.lost ≡ None }
{
    let tail = decoder.finish();
    let mut whole = *taken;
    for label in tail.as_slice() {
        if !whole.push(*label) {
            return false;
        }
    }
    whole.as_slice() == survivors.least()
}

// Whether a decoder that is handed at most so many samples at once gives these labels, and loses the line with this symbol. As many
// calls as there are samples are enough.
fn is_batched(
    decoder: &mut Line,
    samples: &[Sample],
    batch: usize,
    labels: &Labels,
    lost: Option<u64>,
) -> bool
    requires few { length samples.now ≤ 400 }
    requires count { decoder.old.count ≡ 0 }
    requires pending { decoder.old.pending ≡ [] }
{
    let mut taken = Labels::new();
    let mut at = 0usize;
    let mut ended = None;
    for _ in 0..samples.len() {
        let end = samples.len().min(at.saturating_add(batch));
        let pushed = decoder.push_some(&samples[at..end]);
        if !take_all(decoder, &mut taken) {
            return false;
        }
        match pushed {
            Ok(heard) => at += heard,
            Err(lost) => {
                ended = Some(lost.symbol);
                break;
            }
        }
    }
    ended == lost && taken.as_slice() == labels.as_slice()
}

/// How many samples a decoder is handed at once.
const BATCHES: &[usize] = &[2, 7, 128, 400];

// Whether decoders that hear several samples at once give these labels, and lose the line with this symbol.
fn batches_alike(alloc: Global, samples: &[Sample], labels: &Labels, lost: Option<u64>) -> bool
    requires { length samples.now ≤ 400 }
{
    for &batch in BATCHES {
        let is_alike = match Decoder::new(alloc, V32Code, 0) {
            Ok(mut decoder) => is_batched(&mut decoder, samples, batch, labels, lost),
            Err(_) => false,
        };
        if !is_alike {
            return false;
        }
    }
    true
}

// Whether the decoder releases after each sample of a stream what all survivors begin with, up to the one that loses the line: from the
// symbol `middle` on all lie in the middle of the map.
fn hear_alike(
    decoder: &mut Line,
    survivors: &mut Survivors,
    taken: &mut Labels,
    samples: &mut [Sample; SYMBOLS],
    spread: u32,
    middle: u32,
) -> bool
    requires spread { spread < 2 ^ 12 }
    requires count { decoder.old.count ≡ 0 }
    requires pending { decoder.old.pending ≡ [] }
    ensures { IsTrue result → decoder.new.pending ≡ [] }
{
    let mut stream = Stream {
        encoder: Encoder::new(),
        word: 1,
    };
    for symbol in 0..400u32 {
        let sample = stream.sample_at(symbol, middle, spread);
        samples[symbol as usize] = sample;
        survivors.push(sample);
        let pushed = decoder.push(sample);
        if !take_all(decoder, taken) || !agree(survivors, taken, &pushed, symbol) {
            return false;
        }
        if pushed.is_err() {
            break;
        }
    }
    true
}

/// A spread, the symbol from which on all samples lie in the middle, and whether the line is lost, where that is known beforehand.
struct Heard(u32, u32, Option<bool>);

impl Heard {
    /// Whether a decoder releases the same as the survivors, one sample by one and in batches, and loses the line as it is known beforehand.
    fn is_alike(&self, alloc: Global, mut decoder: Line) -> bool
        requires count { decoder.count ≡ 0 }
        requires pending { decoder.pending ≡ [] }
    {
        let mut survivors = Survivors::new();
        let mut taken = Labels::new();
        let mut samples = [Sample { re: 0, im: 0 }; SYMBOLS];
        let (spread, middle) = (self.0 % 4096, self.1);
        if !hear_alike(
            &mut decoder,
            &mut survivors,
            &mut taken,
            &mut samples,
            spread,
            middle,
        ) {
            return false;
        }
        let lost = match decoder.lost() {
            Some(lost) => Some(lost.symbol),
            None => None,
        };
        let is_known = match self.2 {
            Some(known) => known == lost.is_some(),
            None => true,
        };
        is_known
            && batches_alike(alloc, &samples, &taken, lost)
            && (decoder.lost().is_some() || ends_alike(decoder, &survivors, &taken))
    }
}

impl Row for Heard {
    fn holds(&self, alloc: Global) -> bool {
        match Decoder::new(alloc, V32Code, 0) {
            Ok(decoder) => self.is_alike(alloc, decoder),
            Err(_) => false,
        }
    }
}

const STREAMS: &[(&str, Heard)] = &[
    ("points themselves", Heard(1, 400, Some(false))),
    ("a spread of 1001", Heard(1001, 400, Some(false))),
    ("a spread of 3001", Heard(3001, 400, Some(false))),
    (
        "a spread of 1001, and the middle",
        Heard(1001, 40, Some(true)),
    ),
    ("the middle", Heard(1, 0, Some(true))),
    ("half units", Heard(0, 400, None)),
];

#[test]
fn both_release_the_same(rt: HostRuntime) {
    assert_rows(&rt, rt.alloc(), STREAMS);
}
