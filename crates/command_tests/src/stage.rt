// What plays scenarios: it goes over their lines, keeps the files and what the last command left, and names the line that doesn't hold.
//
// A step that can't be played answers `None`: a word is missing or wrong in its line, or memory wasn't found.
use looking::{agree, is_number};
use noting::Ran;
use outside_core::MemoryFolder;
use std::alloc::Global;
use std::process::Abort;
use verb::{Verb, verb_of};

mod asking;
mod looking;
mod making;
mod noting;
mod octets;
mod verb;

/// The line of a file of scenarios in which their text begins.
const FIRST_LINE: u64 = 4;

/// A scenario as far as it was played.
pub(crate) struct Stage {
    /// The names of the files that a command finds, with a space behind each.
    names: String,
    /// What these files have.
    files: MemoryFolder,
    /// What the file has that grows while the next command runs.
    later: MemoryFolder,
    /// The calls of the folder that fail while it runs, a line each.
    fails: String,
    /// The words of the last command.
    pub(crate) words: Vec<String>,
    /// What it left.
    pub(crate) ran: Ran,
    alloc: Global,
}

impl Drop for Stage {
    // for the prover, as that of what it left
    fn drop(self) {
        let Stage {
            names: _,
            files: _,
            later: _,
            fails: _,
            words: _,
            ran: _,
            alloc: _,
        } = self;
    }
}

impl Stage {
    /// The beginning of a scenario, without files.
    fn new(alloc: Global) -> Stage {
        Stage {
            names: String::new(alloc),
            files: MemoryFolder::new(alloc),
            later: MemoryFolder::new(alloc),
            fails: String::new(alloc),
            words: Vec::new(alloc),
            ran: Ran::new(alloc),
            alloc,
        }
    }

    /// Begins anew.
    fn begin(&mut self) -> Option<bool> {
        *self = Stage::new(self.alloc);
        Some(true)
    }

    /// Lets one call more fail while the next command runs. Where there is no memory for that, it doesn't.
    fn fail_at(&mut self, call: &str) -> Option<bool> {
        let _ = write!(self.fails, "{call}\n");
        Some(true)
    }

    /// Plays a line: whether what it says holds.
    pub(crate) fn step(&mut self, line: &str) -> Option<bool> {
        let line = line.trim();
        let (word, rest) = line.split_once(' ').unwrap_or((line, ""));
        let verb = verb_of(word)?;
        match verb {
            Verb::Nothing => Some(true),
            Verb::Scenario => self.begin(),
            Verb::Fails => self.fail_at(rest),
            Verb::Ask => self.ask(rest),
            Verb::Keep => self.keep(rest),
            Verb::Usage => self.is_no_command(rest),
            Verb::Alike => self.is_left_alike(rest),
            Verb::Sweep => self.is_cut_at_each_call(rest),
            Verb::Exit => is_number(usize::from(self.ran.code), rest),
            Verb::Says => self.compares(Verb::Leaves, "said", rest),
            Verb::IsNone | Verb::Kept => Some(agree(verb, &self.ran.folder, &self.files, rest)),
            _ => self.step_of(verb, rest),
        }
    }

    /// Plays a line whose second word is the name of a file.
    fn step_of(&mut self, verb: Verb, rest: &str) -> Option<bool> {
        let (name, text) = rest.split_once(' ')?;
        match verb {
            Verb::Lines => is_number(self.ran.count_lines(name), text),
            Verb::Length => is_number(self.ran.octets(name)?.len(), text),
            Verb::Leaves | Verb::Begins | Verb::Ends | Verb::Holds => {
                self.compares(verb, name, text)
            }
            Verb::Line => self.has_line(name, text, true),
            Verb::Lacks => self.has_line(name, text, false),
            _ => self.make(verb, name, text),
        }
    }
}

/// The stage behind lines of a file, the first of which has this number. The test ends at the first one that doesn't hold.
pub(crate) fn stage_behind(
    rt: &impl Abort,
    alloc: Global,
    file: &str,
    first: u64,
    lines: &str,
) -> Stage {
    let mut stage = Stage::new(alloc);
    let mut number = first;
    for line in lines.lines() {
        let holds = stage.step(line);
        let said = stage.ran.text("said").unwrap_or("no text");
        assert!(rt;
            holds == Some(true),
            "{file}:{number}: {line}\n{holds:?}, and it said {said}"
        );
        number = number.saturating_add(1);
    }
    stage
}

/// Plays the scenarios of a file, and ends the test at the first line that doesn't hold.
pub(crate) fn play(rt: &impl Abort, alloc: Global, file: &str, scenarios: &str) {
    let _ = stage_behind(rt, alloc, file, FIRST_LINE, scenarios);
}
