// A folder in memory that notes what is asked of it, call by call, and in which a file may grow. No clause of a command says how many calls it makes.
ghost use Rattle.std.specs.Prelude.{◌≡◌, false};
ghost use Rattle.outside_core.specs.Memory.{memory_folder};

use outside_calls::{Folder, FolderFault};
use outside_core::MemoryFolder;
use std::alloc::Global;

/// What a command ran over and left. Each call of the folder is noted in a line: its kind, its name, the place that it reads from, and how many octets
/// it reads at most, or puts. No name is known of it, since a file of it may grow between two calls.
pub(crate) struct Ran {
    /// The files.
    pub(crate) folder: MemoryFolder,
    /// What the file that grows has from the second read of its name on: the first one looks at its length.
    pub(super) later: MemoryFolder,
    /// How many reads of it were made.
    reads: u64,
    /// The lines.
    pub(super) notes: String,
    /// The exit status.
    pub(crate) code: u8,
}

impl Drop for Ran {
    // for the prover: so it is dropped by a call, and its fields are not dropped anew wherever one is.
    fn drop(self) {
        let Ran {
            folder: _,
            later: _,
            reads: _,
            notes: _,
            code: _,
        } = self;
    }
}

impl Ran {
    /// What there is before the first command: a folder without files, of which nothing was asked.
    pub(super) fn new(alloc: Global) -> Ran {
        Ran {
            folder: MemoryFolder::new(alloc),
            later: MemoryFolder::new(alloc),
            reads: 0,
            notes: String::new(alloc),
            code: 0,
        }
    }

    /// Notes a call. Where there is no memory for that, a scenario that looks at the notes fails.
    fn note(&mut self, kind: &str, name: &str, at: u64, count: usize)
        ensures { self.new.folder ≡ self.old.folder }
    {
        let _ = write!(self.notes, "{kind} {name} {at} {count}\n");
    }

    /// Lets the file that grows have its octets, if it is the one that is read now. Where there is no memory for that it stays as it was.
    fn grow(&mut self, name: &str)
        ensures said { self.new.folder.said ≡ self.old.folder.said }
        ensures reads { self.new.folder.read_faults ≡ self.old.folder.read_faults }
        ensures writes { self.new.folder.write_faults ≡ self.old.folder.write_faults }
        ensures refusals { self.new.folder.refusals ≡ self.old.folder.refusals }
    {
        if let Some(octets) = self.later.get(name) {
            self.reads = self.reads.saturating_add(1);
            if self.reads == 2 {
                let _ = self.folder.put(name, octets);
            }
        }
    }
}

impl Folder for Ran {
    ghost state = { λ f. record (memory_folder f.folder) { tells = λ _. false } };

    ghost came = { λ a b. Unit {0} };

    ghost came_none = { λ a. tt };

    ghost came_on = { λ a b c p q. tt };

    fn read_at(&mut self, name: &str, at: u64, buf: &mut [u8]) -> Result<usize, FolderFault> {
        self.note("read", name, at, buf.len());
        self.grow(name);
        self.folder.read_at(name, at, buf)
    }

    fn create(&mut self, name: &str) -> Result<(), FolderFault> {
        self.note("create", name, 0, 0);
        self.folder.create(name)
    }

    fn append(&mut self, name: &str, piece: &[u8]) -> Result<(), FolderFault> {
        self.note("append", name, 0, piece.len());
        self.folder.append(name, piece)
    }

    fn say(&mut self, piece: &[u8]) -> Result<(), FolderFault> {
        self.note("say", "-", 0, piece.len());
        self.folder.say(piece)
    }
}
