// The words with which lines of a scenario begin.

/// What a line of a scenario does or looks at.
#[derive(Clone, Copy)]
pub(super) enum Verb {
    Nothing,
    Scenario,
    File,
    Add,
    Ramp,
    Slot,
    Frame,
    Swap,
    Turn,
    Hits,
    Moves,
    Fails,
    Grows,
    Ask,
    Keep,
    Exit,
    Says,
    Leaves,
    Begins,
    Ends,
    Holds,
    IsNone,
    Kept,
    Line,
    Lacks,
    Lines,
    Length,
    Usage,
    Alike,
    Sweep,
}

/// Each of them by its word.
const VERBS: &[(&str, Verb)] = &[
    ("", Verb::Nothing),
    ("#", Verb::Nothing),
    ("scenario", Verb::Scenario),
    ("file", Verb::File),
    ("add", Verb::Add),
    ("ramp", Verb::Ramp),
    ("slot", Verb::Slot),
    ("frame", Verb::Frame),
    ("swap", Verb::Swap),
    ("turn", Verb::Turn),
    ("hits", Verb::Hits),
    ("moves", Verb::Moves),
    ("fails", Verb::Fails),
    ("grows", Verb::Grows),
    ("ask", Verb::Ask),
    ("keep", Verb::Keep),
    ("exit", Verb::Exit),
    ("says", Verb::Says),
    ("leaves", Verb::Leaves),
    ("begins", Verb::Begins),
    ("ends", Verb::Ends),
    ("holds", Verb::Holds),
    ("none", Verb::IsNone),
    ("kept", Verb::Kept),
    ("line", Verb::Line),
    ("lacks", Verb::Lacks),
    ("lines", Verb::Lines),
    ("length", Verb::Length),
    ("usage", Verb::Usage),
    ("alike", Verb::Alike),
    ("sweep", Verb::Sweep),
];

/// What a line does that begins with this word.
pub(super) fn verb_of(word: &str) -> Option<Verb> {
    for (name, verb) in VERBS {
        if *name == word {
            return Some(*verb);
        }
    }
    None
}
