// The lines of a trace.
ghost use Rattle.std.specs.Prelude.{◌≡◌, OnOk, OnErr, IsErrOf};
ghost use Rattle.std.specs.Option.{option_map};
ghost use Rattle.outside_calls.specs.Folder.{OnlyWrites, HasCause, Appended, PartlyAppended, FaultsStand, CountsStand};
ghost use Rattle.shared_terms.specs.Both.{of};
ghost use Rattle.line_texts.specs.LineText.{chance_line, line_of, line_text};
ghost use Rattle.stations.specs.Texts.{lines_of};

use frame_check::Octets;
use lapm_frames::{Heard, Sent};
use line_texts::{LineText, TEXT, TraceLine, write_line, write_parts};
use outside_calls::{Folder, FolderFault};
use shared_terms::{Both, Role};

/// Appends one line to the trace of that name.
pub fn append_line<F: Folder>(
    folder: &mut F,
    name: &str,
    line: &TraceLine,
) -> Result<(), FolderFault>
    ensures ok { OnOk result (Appended (F.state folder.old) (F.state folder.new) name.now (line_text line.now)) }
    ensures err { OnErr result (PartlyAppended (F.state folder.old) (F.state folder.new) name.now (line_text line.now)) }
    ensures only { OnlyWrites (F.state folder.old) (F.state folder.new) name.now }
    ensures cause { HasCause ((F.state folder.old).write_faults name.now) ((F.state folder.new).write_faults name.now) (F.state folder.old).refusals (F.state folder.new).refusals result }
    ensures stand { OnOk result (CountsStand (F.state folder.old) (F.state folder.new)) }
    ensures spared { IsErrOf result FolderFault.NoMemory → FaultsStand (F.state folder.old) (F.state folder.new) }
    ensures came { F.came folder.old folder.new }
{
    let mut text = LineText::new();
    write_line(line, &mut text);
    folder.append(name, text.as_slice())
}

/// The most octets of both lines of a turn.
pub const TURN_TEXT: usize = 2 * TEXT;

/// The line of an end in a turn.
fn line_of(
    turn: u64,
    role: Role,
    arrived: &Heard,
    sent: Option<&Sent>,
    given: Option<u8>,
) -> LineText
    ensures { result ≡ line_of turn role arrived.now (option_map (λ slot. slot.now) sent.entry) given }
{
    let mut text = LineText::new();
    write_parts(turn, role, arrived, sent, given, &mut text);
    text
}

/// What this role's end sends, where both ends send.
fn sent_by(sent: Option<&Both<Sent>>, role: Role) -> Option<&Sent>
    ensures { option_map (λ slot. slot.now) result ≡ option_map (of role) (option_map (λ both. both.now) sent.entry) }
{
    match sent {
        Some(sent) => match role {
            Role::Originator => Some(&sent.orig),
            Role::Answerer => Some(&sent.answ),
        },
        None => None,
    }
}

/// Appends both lines of a turn, in which both ends send or neither does, to the trace of that name by one call.
pub fn append_turn<F: Folder>(
    folder: &mut F,
    name: &str,
    turn: u64,
    heard: &Both<Heard>,
    given: &Both<Option<u8>>,
    sent: Option<&Both<Sent>>,
) -> Result<(), FolderFault>
    ensures ok { OnOk result (Appended (F.state folder.old) (F.state folder.new) name.now (lines_of turn heard.now given.now (option_map (λ both. both.now) sent.entry))) }
    ensures err { OnErr result (PartlyAppended (F.state folder.old) (F.state folder.new) name.now (lines_of turn heard.now given.now (option_map (λ both. both.now) sent.entry))) }
    ensures only { OnlyWrites (F.state folder.old) (F.state folder.new) name.now }
    ensures cause { HasCause ((F.state folder.old).write_faults name.now) ((F.state folder.new).write_faults name.now) (F.state folder.old).refusals (F.state folder.new).refusals result }
    ensures stand { OnOk result (CountsStand (F.state folder.old) (F.state folder.new)) }
    ensures spared { IsErrOf result FolderFault.NoMemory → FaultsStand (F.state folder.old) (F.state folder.new) }
    ensures came { F.came folder.old folder.new }
{
    let sent_orig = sent_by(sent, Role::Originator);
    let sent_answ = sent_by(sent, Role::Answerer);
    let orig = line_of(turn, Role::Originator, &heard.orig, sent_orig, given.orig);
    let answ = line_of(turn, Role::Answerer, &heard.answ, sent_answ, given.answ);
    let mut both = Octets::<TURN_TEXT>::new();
    both.extend(orig.as_slice());
    both.extend(answ.as_slice());
    folder.append(name, both.as_slice())
}

/// Appends the one line of a turn in which that role's slot is a chance match to the trace of that name.
pub fn append_chance<F: Folder>(
    folder: &mut F,
    name: &str,
    turn: u64,
    role: Role,
) -> Result<(), FolderFault>
    ensures ok { OnOk result (Appended (F.state folder.old) (F.state folder.new) name.now (chance_line turn role)) }
    ensures err { OnErr result (PartlyAppended (F.state folder.old) (F.state folder.new) name.now (chance_line turn role)) }
    ensures only { OnlyWrites (F.state folder.old) (F.state folder.new) name.now }
    ensures cause { HasCause ((F.state folder.old).write_faults name.now) ((F.state folder.new).write_faults name.now) (F.state folder.old).refusals (F.state folder.new).refusals result }
    ensures stand { OnOk result (CountsStand (F.state folder.old) (F.state folder.new)) }
    ensures spared { IsErrOf result FolderFault.NoMemory → FaultsStand (F.state folder.old) (F.state folder.new) }
    ensures came { F.came folder.old folder.new }
{
    let text = line_of(turn, role, &Heard::Chance, None, None);
    folder.append(name, text.as_slice())
}
