// Folders in memory and on disk.
ghost use Rattle.std.specs.Prelude.{◌≤◌, IfOk};

use super::{Row, assert_rows};
use outside_calls::{Folder, FolderFault};
use outside_core::{DiskFolder, MemoryFolder, SureFolder, fill, write_all};
use std::alloc::Global;
use std::io::{self, ErrorKind, Read, Write};
use std::process::Abort;

/// The octets that stand in the file from these places on, as far as five: its front, its last ones, none at its end and past it.
const PARTS: &[(u64, &[u8])] = &[(0, b"one t"), (5, b"wo"), (7, b""), (8, b"")];

/// Makes a file where there is one already, and prints a line.
fn makes_file<F: Folder>(folder: &mut F) -> bool {
    folder.append("f", b"old").is_ok()
        && folder.create("f").is_ok()
        && folder.append("f", b"one ").is_ok()
        && folder.append("f", b"two").is_ok()
        && folder.say(b"said\n").is_ok()
}

/// Whether these octets are read of the file from that place on, where five are asked for.
fn has_part<F: Folder>(folder: &mut F, at: u64, octets: &[u8]) -> bool {
    let mut buf = [0u8; 5];
    match folder.read_at("f", at, &mut buf) {
        Ok(count) => &buf[..count] == octets,
        Err(_) => false,
    }
}

/// Makes a file and reads it back.
fn keeps_a_file<F: Folder>(rt: &impl Abort, folder: &mut F) {
    assert!(rt; makes_file(folder));
    for &(at, octets) in PARTS {
        assert!(rt; has_part(folder, at, octets), "at {at}");
    }
}

/// Whether a folder has the file and the line.
fn has_both(folder: &MemoryFolder) -> bool {
    folder.get("f") == Some(b"one two".as_slice()) && folder.said() == b"said\n".as_slice()
}

#[test]
fn a_folder_in_memory_keeps_files(rt: HostRuntime) {
    let mut folder = MemoryFolder::new(rt.alloc());
    assert!(rt; folder.put("f", b"put").is_ok());
    keeps_a_file(&rt, &mut folder);
    assert!(rt; has_both(&folder) && folder.calls() == 9);
}

/// Whether a failed append leaves the file.
fn append_fails(folder: &mut MemoryFolder) -> bool {
    folder.put("f", b"kept").is_ok()
        && folder.fail_at(&[2]).is_ok()
        && folder.append("f", b", longer").is_ok()
        && is_unwritable(folder, "f")
        && folder.get("f") == Some(b"kept, longer".as_slice())
        && folder.write_faults() == 1
}

/// Whether a missing name is a read fault.
fn read_fails(folder: &mut MemoryFolder) -> bool {
    folder.get("g").is_none()
        && folder.read_faults() == 0
        && is_unreadable(folder, "g")
        && folder.read_faults() == 1
}

#[test]
fn a_folder_in_memory_fails_when_it_is_told(rt: HostRuntime) {
    let mut folder = MemoryFolder::new(rt.alloc());
    assert!(rt; append_fails(&mut folder));
    assert!(rt; read_fails(&mut folder));
}

/// Whether a sure folder has the file and the line, and reads a missing one as an empty one.
fn has_both_and_none(folder: &mut SureFolder) -> bool {
    folder.get("f") == Some(b"one two".as_slice())
        && folder.said() == b"said\n".as_slice()
        && folder.read_at("g", 0, &mut [0u8; 4]) == Ok(0)
        && folder.calls() == 10
}

#[test]
fn a_sure_folder_keeps_files_and_reads_a_missing_one(rt: HostRuntime) {
    let mut folder = SureFolder::new(rt.alloc());
    assert!(rt; folder.put("f", b"put").is_ok());
    keeps_a_file(&rt, &mut folder);
    assert!(rt; has_both_and_none(&mut folder));
}

/// Whether nothing can be put under a name.
fn is_unwritable<F: Folder>(folder: &mut F, name: &str) -> bool {
    folder.append(name, b"lost") == Err(FolderFault::Failed)
}

/// Whether nothing can be read of a name.
fn is_unreadable<F: Folder>(folder: &mut F, name: &str) -> bool {
    folder.read_at(name, 0, &mut [0u8; 4]) == Err(FolderFault::Failed)
}

/// Names, and whether nothing can be read of them, or else no file of that name can be made or grow. The last one has no places to go to, as a pipe
/// has none.
const BAD_NAMES: &[(&str, bool)] = &[
    ("missing/f", false),
    ("/dev/full", false),
    (".", false),
    ("missing", true),
    (".", true),
    ("/dev/ptmx", true),
];

/// Whether nothing can be read of a name, or else nothing can be put under it.
fn is_bad<F: Folder>(folder: &mut F, name: &str, reads: bool) -> bool {
    if reads {
        is_unreadable(folder, name)
    } else {
        is_unwritable(folder, name)
    }
}

/// Fails at bad names.
fn fails_at_bad_names<F: Folder>(rt: &impl Abort, folder: &mut F) {
    assert!(rt; folder.create("missing/f") == Err(FolderFault::Failed));
    for &(name, reads) in BAD_NAMES {
        assert!(rt; is_bad(folder, name, reads), "{name}");
    }
}

/// Whether a long piece, of octets that differ from their neighbours, is read back whole.
fn keeps_a_long_piece<F: Folder>(folder: &mut F) -> bool {
    let mut piece = [0u8; 1500];
    for place in 0..1500usize {
        piece[place] = (place % 251) as u8;
    }
    if folder.append("long", &piece).is_err() {
        return false;
    }
    let mut buf = [0u8; 1600];
    match folder.read_at("long", 0, &mut buf) {
        Ok(count) => &buf[..count] == piece.as_slice(),
        Err(_) => false,
    }
}

/// It keeps long pieces too.
#[test]
fn the_disk_keeps_files_and_fails_at_bad_names(rt: HostRuntime) {
    let mut folder = DiskFolder::new(rt);
    keeps_a_file(&rt, &mut folder);
    fails_at_bad_names(&rt, &mut folder);
    assert!(rt; keeps_a_long_piece(&mut folder));
}

/// Reads and writes at most 700 octets at a time, while there are any left, and then fails or gives none.
#[derive(Drop)]
struct Slow {
    left: usize,
    fails: bool,
}

impl Slow {
    fn count(&mut self, wanted: usize) -> io::Result<usize>
        ensures { IfOk result (λ count. count ≤ wanted) }
    {
        let count = wanted.min(700).min(self.left);
        self.left -= count;
        if count == 0 && self.fails {
            Err(io::Error::from(ErrorKind::BrokenPipe))
        } else {
            Ok(count)
        }
    }
}

impl Read for Slow {
    fn read(&mut self, buf: &mut [u8]) -> io::Result<usize> {
        let count = self.count(buf.len())?;
        buf[..count].fill(b'r');
        Ok(count)
    }
}

impl Write for Slow {
    fn write(&mut self, buf: &[u8]) -> io::Result<usize> {
        self.count(buf.len())
    }

    fn flush(&mut self) -> io::Result<()> {
        Ok(())
    }
}

/// How many octets are asked for, how many are there, whether a fault comes behind them, and how many are read, where that is no fault.
struct Reading(usize, usize, bool, Option<usize>);

impl Reading {
    /// Whether the octets are read so.
    fn is_read(&self, buf: &mut [u8]) -> bool {
        let mut reader = Slow {
            left: self.1,
            fails: self.2,
        };
        match fill(&mut reader, buf) {
            Ok(count) => self.3 == Some(count) && are_read(&buf[..count]),
            Err(error) => self.3 == None && error.kind() == ErrorKind::BrokenPipe,
        }
    }
}

/// Whether all octets are those that are read.
fn are_read(octets: &[u8]) -> bool {
    for octet in octets {
        if *octet != b'r' {
            return false;
        }
    }
    true
}

impl Row for Reading {
    fn holds(&self, alloc: Global) -> bool {
        match vec![in alloc; 0u8; self.0] {
            Ok(mut buf) => self.is_read(&mut buf),
            Err(_) => false,
        }
    }
}

/// A fixed number, a piece of a recording, and what a script may have at most and more.
const READS: &[(&str, Reading)] = &[
    ("1500 of 2000", Reading(1500, 2000, false, Some(1500))),
    ("1500 of 1500", Reading(1500, 1500, true, Some(1500))),
    ("1500 of 751", Reading(1500, 751, false, Some(751))),
    ("1500 of 750", Reading(1500, 750, true, None)),
    ("4096 of 4596", Reading(4096, 4596, false, Some(4096))),
    ("4096 of 4096", Reading(4096, 4096, true, Some(4096))),
    ("4096 of 2049", Reading(4096, 2049, false, Some(2049))),
    ("4096 of 2048", Reading(4096, 2048, true, None)),
    (
        "66,560 of 67,060",
        Reading(66_560, 67_060, false, Some(66_560)),
    ),
    (
        "66,560 of 66,560",
        Reading(66_560, 66_560, true, Some(66_560)),
    ),
    (
        "66,560 of 33,281",
        Reading(66_560, 33_281, false, Some(33_281)),
    ),
    ("66,560 of 33,280", Reading(66_560, 33_280, true, None)),
];

#[test]
fn long_reads_end_with_the_reader_alone(rt: HostRuntime) {
    assert_rows(&rt, rt.alloc(), READS);
}

/// How many octets are written, how many there is room for, whether a fault comes behind them, and the fault, or how much room is left.
struct Writing(usize, usize, bool, Result<usize, ErrorKind>);

impl Row for Writing {
    fn holds(&self, alloc: Global) -> bool {
        let Ok(piece) = vec![in alloc; b'w'; self.0] else {
            return false;
        };
        let mut writer = Slow {
            left: self.1,
            fails: self.2,
        };
        match write_all(&mut writer, &piece) {
            Ok(()) => self.3 == Ok(writer.left),
            Err(error) => self.3 == Err(error.kind()),
        }
    }
}

const BROKEN: Result<usize, ErrorKind> = Err(ErrorKind::BrokenPipe);

const ZERO: Result<usize, ErrorKind> = Err(ErrorKind::WriteZero);

const WRITES: &[(&str, Writing)] = &[
    (
        "1500 with room for 2000",
        Writing(1500, 2000, false, Ok(500)),
    ),
    ("1500 with room for 1500", Writing(1500, 1500, true, Ok(0))),
    ("1500 with room for 750", Writing(1500, 750, true, BROKEN)),
    ("1500 with room for 751", Writing(1500, 751, false, ZERO)),
    (
        "4096 with room for 4596",
        Writing(4096, 4596, false, Ok(500)),
    ),
    ("4096 with room for 4096", Writing(4096, 4096, true, Ok(0))),
    ("4096 with room for 2048", Writing(4096, 2048, true, BROKEN)),
    ("4096 with room for 2049", Writing(4096, 2049, false, ZERO)),
    (
        "66,560 with room for 67,060",
        Writing(66_560, 67_060, false, Ok(500)),
    ),
    (
        "66,560 with room for 66,560",
        Writing(66_560, 66_560, true, Ok(0)),
    ),
    (
        "66,560 with room for 33,280",
        Writing(66_560, 33_280, true, BROKEN),
    ),
    (
        "66,560 with room for 33,281",
        Writing(66_560, 33_281, false, ZERO),
    ),
];

#[test]
fn long_writes_end_with_the_writer_alone(rt: HostRuntime) {
    assert_rows(&rt, rt.alloc(), WRITES);
}
