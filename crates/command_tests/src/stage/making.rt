// Statements that make files: slots of a line, recordings that are turned, and scripts that move what was sent.
use super::Stage;
use super::octets::{add_quoted, count, word_at};
use super::verb::Verb;

/// The octets of a slot of 464 symbols.
const SLOT: usize = 232;

/// The flags before a frame.
const HEAD: [u8; 4] = [0x7e; 4];

/// The bits of a flag.
const FLAG: [bool; 8] = [false, true, true, true, true, true, true, false];

/// How many samples the header of a recording is as long as.
const HEADER: usize = 2;

/// The units of a coordinate that a unit of the map has.
const UNIT: i32 = 2048;

/// Where these octets stand first.
pub(super) fn place_of(part: &[u8], octets: &[u8]) -> Option<usize> {
    for place in 0..octets.len() {
        if octets.get(place..)?.starts_with(part) {
            return Some(place);
        }
    }
    None
}

/// Writes so many octets that differ from their neighbours.
fn add_ramp(octets: &mut Vec<u8>, length: &str) -> Option<()> {
    for place in 0..count(length)? {
        octets.push((place % 251) as u8).ok()?;
    }
    Some(())
}

/// Writes the bits of a frame, the low one of an octet first and a zero behind five ones, and those of flags, as many as a slot has.
fn add_bits(bits: &mut Vec<bool>, frame: &[u8]) -> Option<()> {
    let mut ones = 0u32;
    for octet in frame {
        for place in 0..8u32 {
            let bit = (octet >> place) & 1 == 1;
            bits.push(bit).ok()?;
            ones = if bit { ones.saturating_add(1) } else { 0 };
            if ones == 5 {
                bits.push(false).ok()?;
                ones = 0;
            }
        }
    }
    for _ in 0..SLOT {
        bits.extend_from_slice(&FLAG).ok()?;
    }
    Some(())
}

/// The octet of the eight bits from a place on, the low one first.
fn octet_at(bits: &[bool], start: usize) -> u8 {
    let mut octet = 0u8;
    for place in 0..8u32 {
        if bits.get(start.saturating_add(place as usize)) == Some(&true) {
            octet |= 1 << place;
        }
    }
    octet
}

/// Writes the octets that bits are, up to a slot's end behind the flags of its head.
fn add_octets(octets: &mut Vec<u8>, bits: &[bool]) -> Option<()> {
    for place in 0..SLOT - HEAD.len() {
        octets.push(octet_at(bits, 8 * place)).ok()?;
    }
    Some(())
}

/// Where a sample of a recording begins.
fn place_of_sample(number: usize) -> usize {
    number.saturating_add(HEADER).saturating_mul(4)
}

/// The coordinates of a sample of a recording.
fn sample(recording: &[u8], number: usize) -> Option<(i16, i16)> {
    match recording.get(place_of_sample(number)..)? {
        [a, b, c, d, ..] => Some((i16::from_le_bytes([*a, *b]), i16::from_le_bytes([*c, *d]))),
        _ => None,
    }
}

/// The coordinate that a text spells.
fn coordinate(text: &str) -> Option<i16> {
    text.parse().ok()
}

/// Writes a sample turned by a quarter and then moved that far.
fn add_sample(octets: &mut Vec<u8>, old: (i16, i16), re: i16, im: i16) -> Option<()> {
    let (old_re, old_im) = old;
    let turned = 0i16.saturating_sub(old_re).saturating_add(im);
    octets
        .extend_from_slice(&old_im.saturating_add(re).to_le_bytes())
        .ok()?;
    octets.extend_from_slice(&turned.to_le_bytes()).ok()
}

/// Writes a recording with the samples from one number to another, or to its end, turned by a quarter and then moved that far.
fn add_turned(octets: &mut Vec<u8>, before: &[u8], text: &str) -> Option<()> {
    let from = count(word_at(text, 0))?;
    let to = count(word_at(text, 1))?;
    let re = coordinate(word_at(text, 2))?;
    let im = coordinate(word_at(text, 3))?;
    octets
        .extend_from_slice(before.get(..place_of_sample(from))?)
        .ok()?;
    for number in from..to {
        match sample(before, number) {
            Some(old) => add_sample(octets, old, re, im)?,
            None => break,
        }
    }
    let rest = before.get(octets.len()..)?;
    octets.extend_from_slice(rest).ok()
}

/// Puts the line into a script that moves a symbol of an end's so far. Where there is no memory for that, a scenario that goes on from it fails.
fn write_hit(script: &mut String, role: &str, symbol: usize, re: i32, im: i32) {
    let _ = write!(script, "hit {role} {symbol} 1 {re} {im}\n");
}

/// Puts the line into a script that moves an end's sample from that of one recording to that of another, where both have it.
fn write_way(
    script: &mut String,
    role: &str,
    symbol: usize,
    sent: &[u8],
    aimed: &[u8],
) -> Option<()> {
    let (old_re, old_im) = sample(sent, symbol)?;
    let (re, im) = sample(aimed, symbol)?;
    let re = i32::from(re).wrapping_sub(i32::from(old_re));
    let im = i32::from(im).wrapping_sub(i32::from(old_im));
    write_hit(script, role, symbol, re, im);
    Some(())
}

/// Puts lines into a script that move an end's samples from one on, each as many units of the map as a pair says.
fn write_moves(script: &mut String, text: &str) -> Option<()> {
    let mut symbol = count(word_at(text, 1))?;
    for pair in text.split(' ').skip(2) {
        let (re, im) = pair.split_once(',')?;
        let re = i32::from(coordinate(re)?).wrapping_mul(UNIT);
        let im = i32::from(coordinate(im)?).wrapping_mul(UNIT);
        write_hit(script, word_at(text, 0), symbol, re, im);
        symbol = symbol.saturating_add(1);
    }
    Some(())
}

impl Stage {
    /// Plays a line that makes a file, or adds to one, or lets one grow while the next command runs.
    pub(super) fn make(&mut self, verb: Verb, name: &str, text: &str) -> Option<bool> {
        let mut octets = Vec::new(self.alloc);
        self.write(&mut octets, verb, name, text)?;
        if matches!(verb, Verb::Grows) {
            return Some(self.later.put(name, &octets).is_ok());
        }
        if self.files.get(name).is_none() {
            let _ = write!(self.names, "{name} ");
        }
        let is_put = self.files.put(name, &octets).is_ok();
        Some(is_put && self.ran.folder.put(name, &octets).is_ok())
    }

    /// Writes what a file has once the line was played that makes it.
    fn write(&self, octets: &mut Vec<u8>, verb: Verb, name: &str, text: &str) -> Option<()> {
        let before = self.ran.left(name).unwrap_or_default();
        match verb {
            Verb::File => self.add(octets, text),
            Verb::Ramp => add_ramp(octets, text),
            Verb::Swap => self.add_swapped(octets, before, text),
            Verb::Turn => add_turned(octets, before, text),
            _ => self.add_behind(octets, before, verb, text),
        }
    }

    /// Writes what a file has once the line was played that puts more behind its octets.
    fn add_behind(
        &self,
        octets: &mut Vec<u8>,
        before: &[u8],
        verb: Verb,
        text: &str,
    ) -> Option<()> {
        octets.extend_from_slice(before).ok()?;
        match verb {
            Verb::Add | Verb::Grows => self.add(octets, text),
            Verb::Slot => self.add_slot(octets, text),
            Verb::Frame => self.add_frame(octets, text),
            Verb::Hits | Verb::Moves => self.add_script(octets, verb, text),
            _ => None,
        }
    }

    /// A slot: all pieces but the first one, and the octet of that one up to the slot's end.
    fn add_slot(&self, octets: &mut Vec<u8>, text: &str) -> Option<()> {
        let end = octets.len().saturating_add(SLOT);
        let (fill, text) = text.strip_prefix('"')?.split_once('"')?;
        self.add(octets, text)?;
        for _ in octets.len()..end {
            add_quoted(octets, fill)?;
        }
        Some(())
    }

    /// A slot: flags, the frame that all pieces are, with zeros put in, and flags up to the slot's end.
    fn add_frame(&self, octets: &mut Vec<u8>, text: &str) -> Option<()> {
        octets.extend_from_slice(&HEAD).ok()?;
        let start = octets.len();
        self.add(octets, text)?;
        let mut bits = Vec::new(self.alloc);
        add_bits(&mut bits, octets.get(start..).unwrap_or_default())?;
        octets.truncate(start);
        add_octets(octets, &bits)
    }

    /// The octets before with the other pieces in the first one's place.
    fn add_swapped(&self, octets: &mut Vec<u8>, before: &[u8], text: &str) -> Option<()> {
        let (old, text) = text.strip_prefix('"')?.split_once('"')?;
        add_quoted(octets, old)?;
        let place = place_of(octets, before)?;
        let end = place.saturating_add(octets.len());
        octets.clear();
        octets.extend_from_slice(before.get(..place)?).ok()?;
        self.add(octets, text)?;
        octets.extend_from_slice(before.get(end..)?).ok()
    }

    /// Puts lines into a script that move an end's samples from those of one recording to those of another.
    fn write_hits(&self, script: &mut String, text: &str) -> Option<()> {
        let sent = self.ran.octets(word_at(text, 1))?;
        let aimed = self.ran.octets(word_at(text, 2))?;
        for symbol in 0..sent.len() {
            if write_way(script, word_at(text, 0), symbol, sent, aimed).is_none() {
                return Some(());
            }
        }
        Some(())
    }

    /// Lines of a script that move an end's samples.
    fn add_script(&self, octets: &mut Vec<u8>, verb: Verb, text: &str) -> Option<()> {
        let mut script = String::new(self.alloc);
        let written = match verb {
            Verb::Hits => self.write_hits(&mut script, text),
            _ => write_moves(&mut script, text),
        };
        written?;
        octets.extend_from_slice(script.as_bytes()).ok()
    }
}
