// The folder of the disk: the edge to the operating system.
ghost use Rattle.std.specs.Prelude.{◌≡◌, ◌≤◌, length, IfOk};
ghost use Rattle.outside_calls.specs.Folder.{HasCause};
ghost use Rattle.program_folders.specs.Disk.{disk_folder, CountsFault};

use crate::transfer::{fill_from, put_all};
use outside_calls::{Folder, FolderFault};
use std::fs::OpenOptions;
use std::io;
use std::marker::Model;
use std::rt::Files;

/// The folder that the program runs in, and its standard output. Nothing is known of what it holds.
///
/// Trusted is what the operating system does: which octets a file gives and takes, and that a file that is opened to be
/// appended to takes them at its end. Its three counts are proved.
#[derive(Drop)]
pub struct DiskFolder<R> {
    /// The files and the standard output of the process.
    rt: R,
    /// How many reads failed, of all names; it stands still at its last value.
    read_faults: u64,
    /// How many writes failed, of all names and of printed lines; it stands still at its last value.
    write_faults: u64,
    /// How many times memory was refused; it stands still at its last value.
    refusals: u64,
}

impl<R> Model for DiskFolder<R> {
    ghost use Rattle.program_folders.specs.Disk.{DiskCounts};

    ghost Value = { DiskCounts };

    ghost view = { λ f. record { read_faults = f.read_faults; write_faults = f.write_faults; refusals = f.refusals } };
}

impl<R: Files + Print + Clone + Drop> DiskFolder<R> {
    /// The folder that the program was started in.
    pub fn new(rt: R) -> DiskFolder<R>
        ensures { result ≡ record { read_faults = 0; write_faults = 0; refusals = 0 } }
    {
        DiskFolder {
            rt,
            read_faults: 0,
            write_faults: 0,
            refusals: 0,
        }
    }

    fn read_from(&self, name: &str, at: u64, buf: &mut [u8]) -> Result<usize, FolderFault>
        ensures { IfOk result (λ count. count ≤ length buf.old) }
    {
        let mut file = OpenOptions::new().read(true).open(&self.rt, name)?;
        fill_from(&mut file, at, buf)
    }

    fn make_empty(&self, name: &str) -> Result<(), FolderFault> {
        OpenOptions::new()
            .write(true)
            .create(true)
            .truncate(true)
            .open(&self.rt, name)?;
        Ok(())
    }

    fn write_behind(&self, name: &str, piece: &[u8]) -> Result<(), FolderFault> {
        let mut file = OpenOptions::new()
            .append(true)
            .create(true)
            .open(&self.rt, name)?;
        put_all(&mut file, piece)
    }

    fn write_out(&self, piece: &[u8]) -> Result<(), FolderFault> {
        put_all(&mut io::writer(&self.rt), piece)
    }
}

/// Passes an answer on, and counts its fault.
fn counted<T>(
    answer: Result<T, FolderFault>,
    faults: &mut u64,
    refusals: &mut u64,
) -> Result<T, FolderFault>
    ensures same { result ≡ answer }
    ensures counts { CountsFault answer faults.old faults.new refusals.old refusals.new }

    // What follows from these, as the trait's clauses ask it.
    ensures faults { faults.old ≤ faults.new }
    ensures refusals { refusals.old ≤ refusals.new }
    ensures cause { HasCause faults.old faults.new refusals.old refusals.new result }
{
    match answer {
        Err(FolderFault::Failed) => *faults = faults.saturating_add(1),
        Err(FolderFault::NoMemory) => *refusals = refusals.saturating_add(1),
        Ok(_) => {}
    }
    answer
}

impl<R: Files + Print + Clone + Drop> Folder for DiskFolder<R> {
    ghost state = { disk_folder };

    ghost came = { λ a b. Unit {0} };

    ghost came_none = { λ a. tt };

    ghost came_on = { λ a b c p q. tt };

    fn read_at(&mut self, name: &str, at: u64, buf: &mut [u8]) -> Result<usize, FolderFault> {
        let read = self.read_from(name, at, buf);
        counted(read, &mut self.read_faults, &mut self.refusals)
    }

    fn create(&mut self, name: &str) -> Result<(), FolderFault> {
        let created = self.make_empty(name);
        counted(created, &mut self.write_faults, &mut self.refusals)
    }

    fn append(&mut self, name: &str, piece: &[u8]) -> Result<(), FolderFault> {
        let appended = self.write_behind(name, piece);
        counted(appended, &mut self.write_faults, &mut self.refusals)
    }

    fn say(&mut self, piece: &[u8]) -> Result<(), FolderFault> {
        let said = self.write_out(piece);
        counted(said, &mut self.write_faults, &mut self.refusals)
    }
}
