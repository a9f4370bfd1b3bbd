// Statements that ask for a command.
use super::Stage;
use super::looking::agree;
use super::noting::Ran;
use super::octets::count;
use super::verb::Verb;
use crate::USAGE;
use modem_cli::modem;
use outside_core::MemoryFolder;
use std::alloc::Global;

/// The number, from 1, of the call that a text means, where it is among those that were noted: the texts name its kind, its file, and which of these
/// calls it is. A file is made once.
fn number_of(call: &str, notes: &str) -> Option<u64> {
    let (begin, number) = match call.strip_prefix("create ") {
        Some(_) => (call, "1"),
        None => call.rsplit_once(' ')?,
    };
    let mut left = count(number)?;
    let mut place = 0u64;
    for note in notes.lines() {
        place = place.saturating_add(1);
        let rest = note.strip_prefix(begin).unwrap_or_default();
        if rest.starts_with(' ') {
            left = left.checked_sub(1)?;
            if left == 0 {
                return Some(place);
            }
        }
    }
    None
}

impl Stage {
    /// Puts the words of a command behind others. Behind an @ stands the name of a file that has the word.
    fn add_words(&self, words: &mut Vec<String>, text: &str) -> Option<()> {
        for word in text.split_whitespace() {
            let word = match word.strip_prefix('@') {
                Some(name) => self.ran.text(name)?,
                None => word,
            };
            let word = String::from_str(self.alloc, word).ok()?;
            words.push(word).ok()?;
        }
        Some(())
    }

    /// Puts the files into a folder, and what that has which grows.
    fn fill(&self, ran: &mut Ran) -> Option<()> {
        for name in self.names.split_whitespace() {
            let octets = self.files.get(name).unwrap_or_default();
            ran.folder.put(name, octets).ok()?;
            if let Some(octets) = self.later.get(name) {
                ran.later.put(name, octets).ok()?;
            }
        }
        Some(())
    }

    /// Does what words say over a folder of the files, which fails at these calls.
    pub(crate) fn run_over(&self, words: &[String], fails: &[u64]) -> Option<Ran> {
        let mut ran = Ran::new(self.alloc);
        self.fill(&mut ran)?;
        ran.folder.fail_at(fails).ok()?;
        ran.code = modem(self.alloc, words, &mut ran).code();
        Some(ran)
    }

    /// Puts the numbers of the calls behind others that are to fail, as the command makes its calls where none fails, if it makes all of them.
    fn add_fails(&self, fails: &mut Vec<u64>) -> Option<()> {
        if self.fails.is_empty() {
            return Some(());
        }
        let whole = self.run_over(&self.words, &[])?;
        for call in self.fails.lines() {
            fails.push(number_of(call, &whole.notes)?).ok()?;
        }
        Some(())
    }

    /// Does what words say.
    pub(super) fn ask(&mut self, text: &str) -> Option<bool> {
        let mut words = Vec::new(self.alloc);
        self.add_words(&mut words, text)?;
        self.words = words;
        let mut fails = Vec::new(self.alloc);
        self.add_fails(&mut fails)?;
        self.ran = self.run_over(&self.words, &fails)?;
        self.fails = String::new(self.alloc);
        self.later = MemoryFolder::new(self.alloc);
        Some(true)
    }

    /// Lets files that were left stand before the next command.
    pub(super) fn keep(&mut self, names: &str) -> Option<bool> {
        for name in names.split_whitespace() {
            self.make(Verb::File, name, name)?;
        }
        Some(true)
    }

    /// Whether words that are no command's are answered by how the program is used, and no file is made that they name.
    pub(super) fn is_no_command(&mut self, text: &str) -> Option<bool> {
        self.ask(text)?;
        let told = self.ran.code == 2 && self.ran.folder.said() == USAGE.as_bytes();
        Some(told && agree(Verb::Kept, &self.ran.folder, &self.files, text))
    }

    /// Whether other words leave each file that they name as the last ones left it.
    pub(super) fn is_left_alike(&self, text: &str) -> Option<bool> {
        let mut words = Vec::new(self.alloc);
        self.add_words(&mut words, text)?;
        let other = self.run_over(&words, &[])?;
        Some(agree(Verb::Alike, &other.folder, &self.ran.folder, text))
    }

    /// Lets each call of the last command fail in turn: whether each answer blames the folder, and what is left under these names begins what
    /// is left without a fault.
    pub(super) fn is_cut_at_each_call(&mut self, names: &str) -> Option<bool> {
        let whole = self.run_over(&self.words, &[])?;
        for number in 1..=whole.folder.calls() {
            let ran = self.run_over(&self.words, &[number])?;
            if !ran.is_cut_from(&whole, names) {
                self.ran = ran;
                return Some(false);
            }
        }
        Some(true)
    }
}
