//! Worked runs of each command, over files in memory: scenarios, which `stage` plays line by line.
//!
//! It has no call of its own. In their own crates these tests would prove each crate's whole code once more. Each test of `playing` plays files of
//! scenarios: what one costs to prove hardly grows with them.
//!
//! A line of a scenario is a word and what belongs to it. PIECES are octets: texts between quotes, in which `\n`, `\r`, `\0` and `\x1f` are one
//! octet each, `"ab"*3` for `ababab`, and NAMES of files as they were left last, or parts of them, as `r[8..12]`, `r[..8]` and `r[8..]`. `said` is
//! the name of all that the last command printed, `calls` that of the calls of the folder that it made. FILL, OLD, PIECE, BEGIN and END are one text
//! between quotes each; in the last three nothing is named behind a backslash.
//!
//! | Line | What it does |
//! |---|---|
//! | `# WORDS` | nothing |
//! | `scenario WORDS` | begins anew, without files; the words say what is shown |
//! | `file NAME PIECES`, `add NAME PIECES` | a file has these octets, or these behind its own |
//! | `ramp NAME COUNT` | it has so many octets that differ from their neighbours |
//! | `slot NAME FILL PIECES` | it has a slot of 232 octets more: these, and the octet FILL up to its end |
//! | `frame NAME PIECES` | it has a slot more: four flags, this frame with zeros put in, and flags |
//! | `swap NAME OLD PIECES` | it has these octets where OLD stands first |
//! | `turn NAME FROM TO RE IM` | the samples of a recording from one number to another are turned by a quarter, and then moved that far |
//! | `hits NAME ROLE SENT AIMED` | a script has lines more that move an end's first samples from those of one recording to those of another |
//! | `moves NAME ROLE SYMBOL RE,IM ..` | the same, from a symbol on, each as many units of the map as a pair says |
//! | `fails read NAME N`, `fails append NAME N`, `fails create NAME`, `fails say N` | the N-th such call of the next command fails: which of all its calls that is shows the command without a fault, and it has to make it |
//! | `grows NAME PIECES` | a file has these octets more while the next command runs, from its second read on: the first one looks at its length |
//! | `ask WORDS` | a command runs over a folder of the files; `@NAME` is the word that stands in a file |
//! | `keep NAME ..` | files that it left stand before the next command |
//! | `exit NUMBER` | it ended with this status |
//! | `says PIECES` | this is all that was printed |
//! | `leaves NAME PIECES` | it left a file of these octets; so `begins`, `ends` and `holds`, where they are a part of them |
//! | `none NAME ..`, `kept NAME ..` | it left no such file, or the file as it was |
//! | `line NAME PIECE`, `line NAME BEGIN END ..` | a file has this line, or one that begins and ends so, by one of the ends |
//! | `lacks NAME BEGIN END` | it has none that begins and ends so |
//! | `lines NAME COUNT`, `length NAME COUNT` | it has so many lines, or octets |
//! | `usage WORDS` | these words are answered by the usage, and leave all files that they name as they were |
//! | `alike WORDS` | other words leave each file that they name as the last ones left it |
//! | `sweep NAME ..` | each call of the last command fails in turn: the answer blames the folder, and each file begins what was left without a fault |
#![tactic(auto)]

#[cfg(test)]
mod auditing;
#[cfg(test)]
mod choosing;
#[cfg(test)]
mod cutting;
#[cfg(test)]
mod decoding;
#[cfg(test)]
mod encoding;
#[cfg(test)]
mod ending;
#[cfg(test)]
mod explaining;
#[cfg(test)]
mod failing;
#[cfg(test)]
mod growing;
#[cfg(test)]
mod hits;
#[cfg(test)]
mod idling;
#[cfg(test)]
mod limits;
#[cfg(test)]
mod listing;
#[cfg(test)]
mod losses;
#[cfg(test)]
mod measuring;
#[cfg(test)]
mod mebibytes;
#[cfg(test)]
mod meeting;
#[cfg(test)]
mod opening;
#[cfg(test)]
mod order;
#[cfg(test)]
mod pairing;
#[cfg(test)]
mod picking;
#[cfg(test)]
mod playing;
#[cfg(test)]
mod recorded;
#[cfg(test)]
mod recording;
#[cfg(test)]
mod running;
#[cfg(test)]
mod saying;
#[cfg(test)]
mod soaking;
#[cfg(test)]
mod stage;
#[cfg(test)]
mod tapping;

/// What words that are no command's are answered.
#[cfg(test)]
const USAGE: &str =
    "usage: modem run, encode, decode, frames, xid, soak, peer, pickup, margin, encode4, decode4, record, tap, pair, audit\n";
