// Octets as lines of a scenario write them.
use super::Stage;
use super::noting::Ran;

/// The number that a text spells.
pub(super) fn count(text: &str) -> Option<usize> {
    text.parse().ok()
}

/// The end of a range that a text spells, or this one where it is left out.
fn bound(text: &str, none: usize) -> Option<usize> {
    if text.is_empty() {
        Some(none)
    } else {
        count(text)
    }
}

/// A word of a text.
pub(super) fn word_at(text: &str, place: usize) -> &str {
    text.split(' ').nth(place).unwrap_or_default()
}

impl Ran {
    /// What was left under a name: what was printed, the calls that were made, or the octets of a file.
    pub(crate) fn left(&self, name: &str) -> Option<&[u8]> {
        match name {
            "said" => Some(self.folder.said()),
            "calls" => Some(self.notes.as_bytes()),
            _ => self.folder.get(name),
        }
    }

    /// What was left under a name, or the part of it that stands in brackets behind the name: from one place to another, both of which may be left out.
    pub(super) fn octets(&self, word: &str) -> Option<&[u8]> {
        let (name, range) = word.split_once('[').unwrap_or((word, "..]"));
        let octets = self.left(name)?;
        let (from, to) = range.strip_suffix(']')?.split_once("..")?;
        octets.get(bound(from, 0)?..bound(to, octets.len())?)
    }

    /// What was left under a name, where that is a text.
    pub(super) fn text(&self, name: &str) -> Option<&str> {
        str::from_utf8(self.octets(name)?).ok()
    }
}

/// The number that a hexadecimal digit is.
fn digit(octet: u8) -> Option<u8> {
    match octet {
        b'0'..=b'9' => Some(octet - b'0'),
        b'a'..=b'f' => Some(octet - b'a' + 10),
        _ => None,
    }
}

/// Puts the octet behind others that is named behind a backslash, and what stands behind its name.
fn add_named(octets: &mut Vec<u8>, text: &str) -> Option<()> {
    let (octet, rest) = match text.as_bytes() {
        [b'n', rest @ ..] => (b'\n', rest),
        [b'r', rest @ ..] => (b'\r', rest),
        [b'0', rest @ ..] => (0, rest),
        [b'x', high, low, rest @ ..] => (digit(*high)? << 4 | digit(*low)?, rest),
        _ => return None,
    };
    octets.push(octet).ok()?;
    octets.extend_from_slice(rest).ok()
}

/// Puts the octets behind others that stand in a text between quotes.
pub(super) fn add_quoted(octets: &mut Vec<u8>, text: &str) -> Option<()> {
    let mut is_named = false;
    for part in text.split('\\') {
        if is_named {
            add_named(octets, part)?;
        } else {
            octets.extend_from_slice(part.as_bytes()).ok()?;
        }
        is_named = true;
    }
    Some(())
}

impl Stage {
    /// Repeats what stands from a place on.
    fn repeat(&self, octets: &mut Vec<u8>, start: usize, times: &str) -> Option<()> {
        let all = octets.get(start..)?.repeat(self.alloc, count(times)?).ok()?;
        octets.truncate(start);
        octets.extend_from_slice(&all).ok()
    }

    /// Puts the octets behind others that words are: what was left under a name, or what stands from a place on so many times.
    fn add_named_files(&self, octets: &mut Vec<u8>, start: usize, text: &str) -> Option<()> {
        for word in text.split_whitespace() {
            match word.strip_prefix('*') {
                Some(times) => self.repeat(octets, start, times)?,
                None => octets.extend_from_slice(self.ran.octets(word)?).ok()?,
            }
        }
        Some(())
    }

    /// Puts the octets of pieces behind others: texts between quotes, which may be repeated, and names of what was left. Every second part of the text
    /// stands between quotes.
    pub(super) fn add(&self, octets: &mut Vec<u8>, text: &str) -> Option<()> {
        let mut start = 0usize;
        let mut is_quoted = false;
        for part in text.split('"') {
            if is_quoted {
                start = octets.len();
                add_quoted(octets, part)?;
            } else {
                self.add_named_files(octets, start, part)?;
            }
            is_quoted = !is_quoted;
        }
        Some(())
    }
}
