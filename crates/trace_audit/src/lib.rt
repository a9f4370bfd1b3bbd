//! The text of a trace against the lines of a run. A reader of one line, a pure function of its octets: [`read_text`] accepts exactly the lines
//! that `specs/Grammar.antt` describes, and gives their parts as a [`LineText`]. And where two traces differ: the first line in which a text
//! differs from the lines of a run, and in what, by these lines one by one and what the text has at each. The central type is [`Comparison`].
//!
//! The command `audit`: whether a trace is that of the run of two files and a script. A pure function of the words and of the folder that are
//! handed in, which it only reads. [`audit_words`] reads the words, and [`audit`] does what they say.
#![tactic(auto)]

mod command;
mod comparing;
mod comparison;
mod cutting;
mod difference;
pub mod laws;
mod line;
mod names;
mod pieces;
pub mod promises;
pub mod readable;
mod reader;
mod shape;
mod turns;
mod watching;
mod words;

pub use command::{TRACE_LIMIT, audit};
pub use comparison::{Comparison, Difference};
pub use difference::{WINDOW, cut_line};
pub use line::{LineText, Spelling, Words};
pub use reader::read_text;
pub use shared_terms::AuditCause;
pub use words::{AuditWords, audit_words};
