// What is wrong with a line of a script.
ghost use Rattle.std.specs.Prelude.{◌≡◌, ◌≤◌, length};
ghost use Rattle.shared_terms.specs.Cause.{cause_word};

/// What is wrong with a line of a script.
#[derive(Clone, Copy, Debug, PartialEq, Eq)]
pub enum Cause {
    /// A word that isn't known there.
    Word,
    /// Fewer or more words than the line's form has.
    Count,
    /// A word that is no number.
    Number,
    /// A number outside its range.
    Range,
    /// A line that may stand once stands again.
    Repeated,
    /// A line more of its kind than there may be.
    Limit,
}

impl Cause {
    /// The word that says the cause, as ASCII characters.
    pub fn word(self) -> &'static str
        ensures word { result.now ≡ cause_word self }
        ensures short { length result.now ≤ 8 }
    {
        match self {
            Cause::Word => "word",
            Cause::Count => "count",
            Cause::Number => "number",
            Cause::Range => "range",
            Cause::Repeated => "repeated",
            Cause::Limit => "limit",
        }
    }
}
