// Statements that look at how a command ended, and at what it printed and left.
use super::Stage;
use super::making::place_of;
use super::noting::Ran;
use super::octets::count;
use super::verb::Verb;
use outside_core::MemoryFolder;

/// Whether the files of these names in two folders are as a line says: there are none, or each begins the other one, or is the same.
pub(super) fn agree(verb: Verb, left: &MemoryFolder, other: &MemoryFolder, names: &str) -> bool {
    for name in names.split_whitespace() {
        let (left, other) = (left.get(name), other.get(name));
        let holds = match verb {
            Verb::IsNone => left.is_none(),
            Verb::Sweep => other
                .unwrap_or_default()
                .starts_with(left.unwrap_or_default()),
            _ => left == other,
        };
        if !holds {
            return false;
        }
    }
    true
}

/// Whether a line is the only one of the texts between quotes, or begins with the first one and ends with one of the others.
fn is_meant(line: &str, texts: &str) -> bool {
    let Some((begin, ends)) = texts.split_once("\" \"") else {
        return line == texts;
    };
    for end in ends.split("\" \"") {
        if line.starts_with(begin) && line.ends_with(end) {
            return true;
        }
    }
    false
}

/// Whether one of the lines of a text is meant.
fn has_meant(lines: &str, texts: &str) -> bool {
    for line in lines.split('\n') {
        if is_meant(line, texts) {
            return true;
        }
    }
    false
}

/// All lines but the last one.
fn lines_before_the_last(text: &[u8]) -> &[u8] {
    let mut lines = b"".as_slice();
    let mut end = 0usize;
    for octet in text {
        end = end.saturating_add(1);
        if *octet == b'\n' && end < text.len() {
            lines = text.get(..end).unwrap_or_default();
        }
    }
    lines
}

/// Whether a number is the one that a text spells.
pub(super) fn is_number(number: usize, text: &str) -> Option<bool> {
    Some(count(text)? == number)
}

impl Ran {
    /// How many lines were left under a name.
    pub(crate) fn count_lines(&self, name: &str) -> usize {
        let mut count = 0usize;
        for octet in self.left(name).unwrap_or_default() {
            if *octet == b'\n' {
                count = count.saturating_add(1);
            }
        }
        count
    }

    /// Whether a fault of the folder is the answer, with its line, unless that was what was not printed: before it stands at most what the whole run
    /// prints before its last line. No more calls are made than in that run, and what was left under these names begins what that one left.
    pub(super) fn is_cut_from(&self, whole: &Ran, names: &str) -> bool {
        let said = self.folder.said();
        let before = match self.code {
            5 => said.strip_suffix(b"read fault\n"),
            6 => Some(said.strip_suffix(b"write fault\n").unwrap_or(said)),
            _ => None,
        };
        match before {
            Some(before) => {
                lines_before_the_last(whole.folder.said()).starts_with(before)
                    && self.folder.calls() <= whole.folder.calls()
                    && agree(Verb::Sweep, &self.folder, &whole.folder, names)
            }
            None => false,
        }
    }
}

impl Stage {
    /// Whether it is so that what was left has a line that is meant by these texts, or that it has none.
    pub(super) fn has_line(&self, name: &str, text: &str, is_there: bool) -> Option<bool> {
        let texts = text.strip_prefix('"')?.strip_suffix('"')?;
        Some(has_meant(self.ran.text(name)?, texts) == is_there)
    }

    /// Whether what was left is all pieces, begins with them, ends with them, or has them somewhere.
    pub(super) fn compares(&self, verb: Verb, name: &str, text: &str) -> Option<bool> {
        let octets = self.ran.octets(name)?;
        let mut pieces = Vec::new(self.alloc);
        self.add(&mut pieces, text)?;
        Some(match verb {
            Verb::Leaves => octets == pieces.as_slice(),
            Verb::Begins => octets.starts_with(&pieces),
            Verb::Ends => octets.ends_with(&pieces),
            _ => place_of(&pieces, octets).is_some(),
        })
    }
}
