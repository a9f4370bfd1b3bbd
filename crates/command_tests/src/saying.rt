// What no run of a command shows alone: the lines of all answers, single steps over a folder, and the texts of faults.
use crate::stage::stage_behind;
use command_base::{
    LinkFault, Status, Stop, append_output, are_apart, create_output, done_line, octets_line,
    pieces_line, read_file, read_piece, samples_line, say_line, tell_stop, usage_line,
    within_limit,
};
use lapm_frames::FrameFault;
use noise_script::{Generators, read_script};
use outside_calls::FolderFault;
use outside_core::MemoryFolder;
use shared_terms::{AuditCause, Cause, NoMemory, Role};
use std::alloc::Global;
use std::fmt::{Debug, Display};
use std::process::Abort;
use xid_params::XidFault;

/// Answers, the program's statuses, and their lines.
const LINES: &[(Status, u8, &str)] = &[
    (
        Status::BadScript {
            line: 3,
            cause: Cause::Range,
        },
        3,
        "bad script: line 3: range\n",
    ),
    (Status::BadRecording { at: 12 }, 3, "bad recording: at 12\n"),
    (Status::BadHex { at: 1 }, 3, "bad hex: at 1\n"),
    (Status::BadXid(XidFault::Format), 3, "bad xid: format\n"),
    (
        Status::BadXid(XidFault::Repeated { at: 7 }),
        3,
        "bad xid: repeated at 7\n",
    ),
    (Status::TooLong { word: 1 }, 4, "too long: o\n"),
    (
        Status::LineLost {
            role: Role::Answerer,
            symbol: 128,
        },
        7,
        "line lost: answ symbol 128\n",
    ),
    (
        Status::LinkLost {
            role: Role::Originator,
            segment: 0,
            turn: 120,
        },
        9,
        "link lost: orig segment 0 turn 120\n",
    ),
    (
        Status::NotDetected { turn: 120 },
        8,
        "not detected: turn 120\n",
    ),
    (
        Status::ChanceMatch {
            role: Role::Originator,
            turn: 1,
        },
        10,
        "chance match: orig turn 1\n",
    ),
    (
        Status::AuditNo {
            line: 3,
            cause: AuditCause::Arrived,
        },
        13,
        "false line 3: arrived\n",
    ),
    (
        Status::BadTap {
            role: Role::Answerer,
            turn: 11,
        },
        14,
        "bad tap: answ turn 11\n",
    ),
    (
        Status::PairNotDetected { link: 2, turn: 120 },
        8,
        "not detected: link 2 turn 120\n",
    ),
    (
        Status::PairLinkLost {
            link: 1,
            role: Role::Answerer,
            segment: 31,
            turn: 160,
        },
        9,
        "link lost: link 1 answ segment 31 turn 160\n",
    ),
    (
        Status::PeerFault {
            fault: LinkFault::BadAck {
                nr: 5,
                va: 0,
                high: 127,
            },
            turn: 7,
        },
        12,
        "peer fault: bad ack nr 5 va 0 high 127 turn 7\n",
    ),
    (
        Status::PeerFault {
            fault: LinkFault::PeerReset { va: 1, vr: 200 },
            turn: 7,
        },
        12,
        "peer fault: reset va 1 vr 200 turn 7\n",
    ),
    (
        Status::PeerFault {
            fault: LinkFault::PeerRefused,
            turn: 7,
        },
        12,
        "peer fault: refused turn 7\n",
    ),
];

/// Stops by faults of the folder, the answers, the program's statuses, and their lines.
const STOPS: &[(Stop, (Status, u8, &str))] = &[
    (
        Stop::Read(FolderFault::Failed),
        (Status::ReadFault, 5, "read fault\n"),
    ),
    (
        Stop::Write(FolderFault::Failed),
        (Status::WriteFault, 6, "write fault\n"),
    ),
    (Stop::Say(FolderFault::Failed), (Status::WriteFault, 6, "")),
    (
        Stop::Read(FolderFault::NoMemory),
        (Status::NoMemory, 11, "no memory\n"),
    ),
    (
        Stop::Write(FolderFault::NoMemory),
        (Status::NoMemory, 11, "no memory\n"),
    ),
    (Stop::Say(FolderFault::NoMemory), (Status::NoMemory, 11, "")),
    (Stop::NoMemory, (Status::NoMemory, 11, "no memory\n")),
];

/// Whether a stop of the command of these words has this answer, with its code, and prints its line.
fn tells(alloc: Global, words: &[String], stop: Stop, answer: &(Status, u8, &str)) -> bool {
    let (status, code, line) = answer;
    let mut folder = MemoryFolder::new(alloc);
    let told = tell_stop(&mut folder, words, stop);
    told == *status && status.code() == *code && folder.said() == line.as_bytes()
}

#[test]
fn each_answer_says_its_line(rt: HostRuntime) {
    let stage = stage_behind(&rt, rt.alloc(), "saying.rt", 1, "ask run o");
    for answer in LINES {
        let holds = tells(rt.alloc(), &stage.words, Stop::Own(answer.0), answer);
        assert!(rt; holds, "{}", answer.2);
    }
    for (stop, answer) in STOPS {
        let holds = tells(rt.alloc(), &stage.words, *stop, answer);
        assert!(rt; holds, "{}", answer.2);
    }
    assert!(rt; Status::Done.code() == 0 && Status::Usage.code() == 2);
}

/// Looks at a line.
fn is_line(rt: &impl Abort, line: &[u8], expected: &str) {
    assert!(rt; line == expected.as_bytes(), "{expected}");
}

#[test]
fn done_lines_have_their_numbers(rt: HostRuntime) {
    is_line(&rt, done_line(12).as_slice(), "done 12\n");
    is_line(&rt, samples_line(0).as_slice(), "samples 0\n");
    is_line(&rt, octets_line(64).as_slice(), "octets 64\n");
    is_line(&rt, pieces_line(1).as_slice(), "pieces 1\n");
    let usage = usage_line(&["run", "xid"]);
    is_line(&rt, usage.as_slice(), "usage: modem run, xid\n");
}

/// Whether inputs end at their limit, and a piece is read at its place.
fn inputs_are_read(folder: &mut MemoryFolder) -> bool {
    let long = Stop::Own(Status::TooLong { word: 1 });
    let ends = within_limit(folder, "f", 5, 1) == Ok(());
    let is_long = within_limit(folder, "f", 4, 1) == Err(long);
    let mut piece = [0u8; 3];
    let is_read = read_piece(folder, "f", 4, 2, &mut piece) == Ok(2);
    let no_file = read_piece(folder, "g", 4, 2, &mut [0u8; 3]) == Err(FolderFault::Failed);
    ends && is_long && is_read && piece == [b'c', b'd', 0] && no_file
}

/// Whether a file is read to its limit.
fn files_are_read(alloc: Global, folder: &mut MemoryFolder) -> bool {
    match read_file(alloc, folder, "f", 4) {
        Ok(file) => file.as_slice() == b"abcd".as_slice(),
        Err(_) => false,
    }
}

/// Whether an output is made empty and grows, and a line is said.
fn outputs_are_written(folder: &mut MemoryFolder) -> bool {
    let is_made = create_output(folder, "f") == Ok(());
    let is_written = append_output(folder, "f", b"xy") == Ok(());
    let is_said = say_line(folder, b"xy") == Ok(());
    let holds = folder.get("f") == Some(b"xy".as_slice()) && folder.said() == b"xy".as_slice();
    is_made && is_written && is_said && holds
}

#[test]
fn a_file_of_five_octets_is_read_and_written(rt: HostRuntime) {
    let mut folder = MemoryFolder::new(rt.alloc());
    let is_put = folder.put("f", b"abcde").is_ok();
    assert!(rt; is_put && inputs_are_read(&mut folder));
    assert!(rt; files_are_read(rt.alloc(), &mut folder));
    assert!(rt; outputs_are_written(&mut folder));
}

/// Names of files, names of outputs, and whether they are apart.
const NAMES: &[([&str; 2], [&str; 2], bool)] = &[
    (["o", "o"], ["p", "q"], true),
    (["o", "a"], ["p", "p"], false),
    (["o", "a"], ["p", "a"], false),
];

#[test]
fn names_of_outputs_are_apart_and_ends_have_their_words(rt: HostRuntime) {
    for (files, outputs, apart) in NAMES {
        assert!(rt; are_apart(files, outputs) == *apart);
    }
    let orig = Role::of_word(b"orig") == Some(Role::Originator);
    let answ = Role::of_word(b"answ") == Some(Role::Answerer);
    assert!(rt; orig && answ && Role::of_word(b"origin") == None);
}

/// Whether a script has these delays, tries and first break of the originator.
fn a_script_is_read(alloc: Global) -> bool {
    match read_script(alloc, b"delay 3 5\nbreak orig 5 30\n") {
        Ok(script) => {
            script.delay(Role::Originator) == 3
                && script.delay(Role::Answerer) == 5
                && script.tries() == 5
                && script.break_line(Role::Originator, 0) == Some((5, 30))
        }
        Err(_) => false,
    }
}

/// The first sample that an originator sends is (8192, -2048), as its recording shows: whether the noise of another script moves it to
/// (8387, -2281).
fn noise_moves_a_sample(alloc: Global) -> bool {
    match read_script(alloc, b"noise orig 0 2 500 42") {
        Ok(noise) => {
            let offset = noise.offset(&mut Generators::new(), Role::Originator, 0);
            (offset.re.wrapping_add(8192), offset.im.wrapping_sub(2048)) == (8387, -2281)
        }
        Err(_) => false,
    }
}

#[test]
fn scripts_say_what_the_line_does(rt: HostRuntime) {
    assert!(rt; a_script_is_read(rt.alloc()));
    assert!(rt; noise_moves_a_sample(rt.alloc()));
}

/// Looks at both texts of each fault, which stand one behind the other.
fn show<T: Display + Debug>(rt: &impl Abort, alloc: Global, faults: &[(T, &str)]) {
    for (fault, texts) in faults {
        let mut shown = String::new(alloc);
        let _ = write!(shown, "{fault}, {fault:?}");
        assert!(rt; shown.as_str() == *texts, "{texts}");
    }
}

/// Faults of fields and their texts.
const FIELD_FAULTS: &[(XidFault, &str)] = &[
    (XidFault::Format, "format, Format"),
    (XidFault::Group { at: 3 }, "group at 3, Group { at: 3 }"),
    (XidFault::Length { at: 4 }, "length at 4, Length { at: 4 }"),
    (XidFault::Value { at: 5 }, "value at 5, Value { at: 5 }"),
    (
        XidFault::Repeated { at: 16 },
        "repeated at 16, Repeated { at: 16 }",
    ),
];

/// Faults of frames and their texts.
const FRAME_FAULTS: &[(FrameFault, &str)] = &[
    (
        FrameFault::Address { octet: 0x0a },
        "address 0a, Address { octet: 10 }",
    ),
    (
        FrameFault::Control { octet: 0x7f },
        "control 7f, Control { octet: 127 }",
    ),
    (FrameFault::Short, "short, Short"),
    (FrameFault::Long { len: 131 }, "long 131, Long { len: 131 }"),
];

/// Faults of folders and their texts.
const FOLDER_FAULTS: &[(FolderFault, &str)] = &[
    (FolderFault::Failed, "the folder failed, Failed"),
    (
        FolderFault::NoMemory,
        "the folder found no memory, NoMemory",
    ),
];

#[test]
fn faults_have_their_texts(rt: HostRuntime) {
    show(&rt, rt.alloc(), FIELD_FAULTS);
    show(&rt, rt.alloc(), FRAME_FAULTS);
    show(&rt, rt.alloc(), FOLDER_FAULTS);
    show(&rt, rt.alloc(), &[(NoMemory, "no memory, NoMemory")]);
}
