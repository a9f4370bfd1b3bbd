// The lines that answers print.
ghost use Rattle.std.specs.Prelude.{◌≡◌, ◌<◌, ◌≤◌, ◌+◌, ◌*◌, [], ◌++◌, map, length, decimal, codes};
ghost use Rattle.shared_terms.specs.Role.{role_word};
ghost use Rattle.command_base.specs.Lines.{xid_words, count_line, done_line, samples_line, octets_line, pieces_line, turns_line, both_done_line, true_line, soak_line, margin_line, listed_behind, usage_line, peer_words, short_line};
ghost use Rattle.shared_terms.specs.Cause.{cause_word};
ghost use Rattle.shared_terms.specs.AuditCause.{audit_word};

use crate::Status;
use frame_check::Octets;
use line_texts::put_decimal;
use shared_terms::{AuditCause, Cause, LinkFault, Role};
use xid_params::XidFault;

/// The most octets of a line that prints no word of the command line.
pub const LINE: usize = 160;

/// A line that is to be printed, with the line feed at its end.
pub type ResultLine = Octets<LINE>;

/// Puts a word, and the number of a place behind it.
fn put_place(line: &mut ResultLine, word: &str, at: usize)
    requires { length line.old + length word.now + 24 ≤ LINE }
    ensures text { line.new ≡ line.old ++ word.now ++ codes " at " ++ decimal at }
    ensures room { length line.new ≤ length line.old + length word.now + 24 }
{
    line.extend(word.as_bytes());
    line.extend(b" at ");
    put_decimal(line, at as u64);
}

/// Puts why a field spells no offer.
fn put_xid_fault(line: &mut ResultLine, fault: XidFault)
    requires { length line.old + 32 ≤ LINE }
    ensures text { line.new ≡ line.old ++ xid_words fault }
    ensures room { length line.new ≤ length line.old + 32 }
{
    match fault {
        XidFault::Format => line.extend(b"format"),
        XidFault::Group { at } => put_place(line, "group", at),
        XidFault::Length { at } => put_place(line, "length", at),
        XidFault::Value { at } => put_place(line, "value", at),
        XidFault::Repeated { at } => put_place(line, "repeated", at),
    }
}

/// Puts what an end can't take of its peer.
fn put_peer_fault(line: &mut ResultLine, fault: LinkFault)
    requires { length line.old + 90 ≤ LINE }
    ensures text { line.new ≡ line.old ++ peer_words fault }
    ensures room { length line.new ≤ length line.old + 90 }
{
    match fault {
        LinkFault::BadAck { nr, va, high } => {
            put_number(line, b"bad ack nr ", u64::from(nr));
            put_number(line, b" va ", u64::from(va));
            put_number(line, b" high ", u64::from(high));
        }
        LinkFault::PeerReset { va, vr } => {
            put_number(line, b"reset va ", va);
            put_number(line, b" vr ", vr);
        }
        LinkFault::PeerRefused => line.extend(b"refused"),
        LinkFault::NotDetected | LinkFault::Spent { .. } => {}
    }
}

/// The line of a word and a number.
pub fn count_line(word: &str, number: u64) -> ResultLine
    requires { length word.now ≤ 8 }
    ensures { result ≡ count_line word.now number }
{
    let mut line = ResultLine::new();
    line.extend(word.as_bytes());
    put_last_number(&mut line, b" ", number);
    line
}

/// The line of a run that is done, with its last turn.
pub fn done_line(turn: u64) -> ResultLine
    ensures { result ≡ done_line turn }
{
    count_line("done", turn)
}

/// The line of a recording that is written, with the number of its samples.
pub fn samples_line(samples: u64) -> ResultLine
    ensures { result ≡ samples_line samples }
{
    count_line("samples", samples)
}

/// The line of a recording that is read, with the number of octets found in it.
pub fn octets_line(octets: u64) -> ResultLine
    ensures { result ≡ octets_line octets }
{
    count_line("octets", octets)
}

/// The line behind the pieces of a stream of bits, with their number.
pub fn pieces_line(pieces: u64) -> ResultLine
    ensures { result ≡ pieces_line pieces }
{
    count_line("pieces", pieces)
}

/// The line of a line's tap, with the number of its turns.
pub fn turns_line(turns: u64) -> ResultLine
    ensures { result ≡ turns_line turns }
{
    count_line("turns", turns)
}

/// The line of two links that are done, each with its last turn.
pub fn both_done_line(first: u64, second: u64) -> ResultLine
    ensures { result ≡ both_done_line first second }
{
    let mut line = ResultLine::new();
    put_number(&mut line, b"done ", first);
    put_last_number(&mut line, b" ", second);
    line
}

/// The line of a trace that is a run's, with the number of its lines.
pub fn true_line(lines: u64) -> ResultLine
    ensures { result ≡ true_line lines }
{
    let mut line = ResultLine::new();
    put_number(&mut line, b"true ", lines);
    line.extend(b" lines\n");
    line
}

/// Puts a word, and a number in decimal digits behind it.
fn put_number(line: &mut ResultLine, word: &[u8], number: u64)
    requires { length line.old + length word.now + 20 ≤ LINE }
    ensures text { line.new ≡ line.old ++ word.now ++ decimal number }
    ensures room { length line.new ≤ length line.old + length word.now + 20 }
{
    line.extend(word);
    put_decimal(line, number);
}

/// The line of a soak that is done, with its seed, its last turn, how many slots were lost, and how many segments went again.
pub fn soak_line(seed: u64, turn: u64, lost: u64, again: u64) -> ResultLine
    ensures { result ≡ soak_line seed turn lost again }
{
    let mut line = ResultLine::new();
    put_number(&mut line, b"soak ", seed);
    put_number(&mut line, b" done ", turn);
    put_number(&mut line, b" lost ", lost);
    put_last_number(&mut line, b" again ", again);
    line
}

/// The line of octets that were held against a recording: what they cost, and whether that is so little that they are certain.
pub fn margin_line(cost: u64, sure: bool) -> ResultLine
    ensures { result ≡ margin_line cost sure }
{
    let mut line = ResultLine::new();
    put_number(&mut line, b"cost ", cost);
    if sure {
        line.extend(b" sure 1\n");
    } else {
        line.extend(b" sure 0\n");
    }
    line
}

/// Puts words behind the first one, each behind a comma.
fn put_behind(line: &mut ResultLine, words: &[&str])
    requires { length line.old + length (listed_behind (map (λ word. word.now) words.now)) ≤ LINE }
    ensures { line.new ≡ line.old ++ listed_behind (map (λ word. word.now) words.now) }
{
    match words.split_first() {
        None => {}
        Some((word, others)) => {
            line.extend(b", ");
            line.extend(word.as_bytes());
            put_behind(line, others);
        }
    }
}

/// The line that prints how the program is used: the words of its commands, in this order.
pub fn usage_line(commands: &[&str]) -> ResultLine
    requires { length (usage_line (map (λ word. word.now) commands.now)) ≤ LINE }
    ensures { result ≡ usage_line (map (λ word. word.now) commands.now) }
{
    let mut line = ResultLine::new();
    line.extend(b"usage: modem ");
    match commands.split_first() {
        None => {}
        Some((word, others)) => {
            line.extend(word.as_bytes());
            put_behind(&mut line, others);
        }
    }
    line.extend(b"\n");
    line
}

/// Puts words, a number in decimal digits behind them, and the line's end.
fn put_last_number(line: &mut ResultLine, words: &[u8], number: u64)
    requires { length line.old + length words.now + 21 ≤ LINE }
    ensures { line.new ≡ line.old ++ words.now ++ decimal number ++ codes "\n" }
{
    put_number(line, words, number);
    line.extend(b"\n");
}

/// Puts words, and the name of an end behind them.
fn put_role(line: &mut ResultLine, words: &[u8], role: Role)
    requires { length line.old + length words.now + 10 ≤ LINE }
    ensures text { line.new ≡ line.old ++ words.now ++ role_word role }
    ensures room { length line.new ≤ length line.old + length words.now + 10 }
{
    line.extend(words);
    line.extend(role.word().as_bytes());
}

/// Puts the line of a faulty script.
fn put_script_fault(line: &mut ResultLine, number: u32, cause: Cause)
    requires { line.old ≡ [] }
    ensures { line.new ≡ codes "bad script: line " ++ decimal number ++ codes ": " ++ cause_word cause ++ codes "\n" }
{
    put_number(line, b"bad script: line ", u64::from(number));
    line.extend(b": ");
    line.extend(cause.word().as_bytes());
    line.extend(b"\n");
}

/// Puts the line of a trace that isn't a run's.
fn put_audit_no(line: &mut ResultLine, number: u64, cause: AuditCause)
    requires { line.old ≡ [] }
    ensures { line.new ≡ codes "false line " ++ decimal number ++ codes ": " ++ audit_word cause ++ codes "\n" }
{
    put_number(line, b"false line ", number);
    line.extend(b": ");
    line.extend(cause.word().as_bytes());
    line.extend(b"\n");
}

/// Puts the line of a fault of an XID field.
fn put_bad_xid(line: &mut ResultLine, fault: XidFault)
    requires { line.old ≡ [] }
    ensures { line.new ≡ codes "bad xid: " ++ xid_words fault ++ codes "\n" }
{
    line.extend(b"bad xid: ");
    put_xid_fault(line, fault);
    line.extend(b"\n");
}

/// Puts words, the name of an end, words behind it, a number, and the line's end.
fn put_role_at(line: &mut ResultLine, words: &[u8], role: Role, behind: &[u8], number: u64)
    requires { length line.old + length words.now + length behind.now + 31 ≤ LINE }
    ensures { line.new ≡ line.old ++ words.now ++ role_word role ++ behind.now ++ decimal number ++ codes "\n" }
{
    put_role(line, words, role);
    put_last_number(line, behind, number);
}

/// Puts which end lost its link, with which segment, and when.
fn put_lost_link(line: &mut ResultLine, words: &[u8], role: Role, segment: u64, turn: u64)
    requires { length line.old + length words.now + 66 ≤ LINE }
    ensures { line.new ≡ line.old ++ words.now ++ role_word role ++ codes " segment " ++ decimal segment ++ codes " turn " ++ decimal turn ++ codes "\n" }
{
    put_role(line, words, role);
    put_number(line, b" segment ", segment);
    put_last_number(line, b" turn ", turn);
}

/// Puts the line of a peer that broke the link.
fn put_peer_turn(line: &mut ResultLine, fault: LinkFault, turn: u64)
    requires { line.old ≡ [] }
    ensures { line.new ≡ codes "peer fault: " ++ peer_words fault ++ codes " turn " ++ decimal turn ++ codes "\n" }
{
    line.extend(b"peer fault: ");
    put_peer_fault(line, fault);
    put_last_number(line, b" turn ", turn);
}

/// Puts the line of a link of a pair that is lost.
fn put_pair_lost_link(line: &mut ResultLine, link: u8, role: Role, segment: u64, turn: u64)
    requires { line.old ≡ [] }
    ensures { line.new ≡ codes "link lost: link " ++ decimal link ++ codes " " ++ role_word role ++ codes " segment " ++ decimal segment ++ codes " turn " ++ decimal turn ++ codes "\n" }
{
    put_number(line, b"link lost: link ", u64::from(link));
    put_lost_link(line, b" ", role, segment, turn);
}

/// Puts the line of a link of a pair whose originator saw no pattern.
fn put_pair_undetected(line: &mut ResultLine, link: u8, turn: u64)
    requires { line.old ≡ [] }
    ensures { line.new ≡ codes "not detected: link " ++ decimal link ++ codes " turn " ++ decimal turn ++ codes "\n" }
{
    put_number(line, b"not detected: link ", u64::from(link));
    put_last_number(line, b" turn ", turn);
}

/// Puts the line of a status that prints no word of the command line.
fn put_short(line: &mut ResultLine, status: Status)
    requires { line.old ≡ [] }
    ensures { line.new ≡ short_line status }
{
    match status {
        Status::Done | Status::Usage | Status::TooLong { .. } => {}
        Status::BadScript {
            line: number,
            cause,
        } => put_script_fault(line, number, cause),
        Status::BadRecording { at } => put_last_number(line, b"bad recording: at ", at),
        Status::BadHex { at } => put_last_number(line, b"bad hex: at ", at),
        Status::BadXid(fault) => put_bad_xid(line, fault),
        Status::ReadFault => line.extend(b"read fault\n"),
        Status::WriteFault => line.extend(b"write fault\n"),
        Status::LineLost { role, symbol } => {
            put_role_at(line, b"line lost: ", role, b" symbol ", symbol)
        }
        Status::NotDetected { turn } => put_last_number(line, b"not detected: turn ", turn),
        Status::LinkLost {
            role,
            segment,
            turn,
        } => put_lost_link(line, b"link lost: ", role, segment, turn),
        Status::ChanceMatch { role, turn } => {
            put_role_at(line, b"chance match: ", role, b" turn ", turn)
        }
        Status::NoMemory => line.extend(b"no memory\n"),
        Status::PeerFault { fault, turn } => put_peer_turn(line, fault, turn),
        Status::AuditNo {
            line: number,
            cause,
        } => put_audit_no(line, number, cause),
        Status::BadTap { role, turn } => put_role_at(line, b"bad tap: ", role, b" turn ", turn),
        Status::PairLinkLost {
            link,
            role,
            segment,
            turn,
        } => put_pair_lost_link(line, link, role, segment, turn),
        Status::PairNotDetected { link, turn } => put_pair_undetected(line, link, turn),
    }
}

/// The line of a status that prints no word of the command line.
pub(crate) fn short_line(status: Status) -> ResultLine
    ensures { result ≡ short_line status }
{
    let mut line = ResultLine::new();
    put_short(&mut line, status);
    line
}
