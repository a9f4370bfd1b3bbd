// A folder in memory that fails where a test wants it to.
ghost use Rattle.std.specs.Prelude.{◌≡◌, ◌≤◌, ◌⊎◌, ◌++◌, [], ◌↔◌, length, unwrap_or, OnOk, OnErr, IfOk, IsErrOf, IsNone};
ghost use Rattle.std.specs.Option.{option_map};
ghost use Rattle.std.specs.FinMap as finite;
ghost use Rattle.outside_calls.specs.Folder.{ReadsFront, OnlyReads, OnlyWrites, OnlySays, HasCause, FaultsStand, CountsStand, TellsOctets, KeepsName, Appended, PartlyAppended, Created, Said, PartlySaid};
ghost use Rattle.outside_core.specs.Memory.{memory_folder, FailsNext, AfterRead, AfterWrite};

use outside_calls::{Folder, FolderFault};
use program_folders::{Store, copy_from};
use shared_terms::NoMemory;
use std::alloc::Global;
use std::marker::Model;

/// A folder in memory, for tests. Every name is known. It counts its calls, and fails at those whose numbers it was given.
///
/// A call fails exactly where its number is one of those, or where it reads a name that isn't held.
pub struct MemoryFolder {
    /// The files.
    store: Store,
    /// All that was printed.
    said: Vec<u8>,
    /// How many calls of a folder were made.
    calls: u64,
    /// The numbers of the calls that are to fail, from 1.
    fails: Vec<u64>,
    /// How many reads failed, of all names.
    read_faults: u64,
    /// How many writes failed, of all names and of printed lines.
    write_faults: u64,
    /// How many times memory was refused.
    refusals: u64,
    /// Where its memory comes from.
    alloc: Global,
}

impl Drop for MemoryFolder {
    // for the prover: so it is dropped by a call, and its fields are not dropped anew wherever one is.
    fn drop(self) {
        let MemoryFolder {
            store: _,
            said: _,
            calls: _,
            fails: _,
            read_faults: _,
            write_faults: _,
            refusals: _,
            alloc: _,
        } = self;
    }
}

impl Model for MemoryFolder {
    ghost use Rattle.outside_core.specs.Memory.{MemoryState, memory_code};

    ghost Value = { MemoryState };

    ghost coded = { memory_code };

    ghost view = { λ f. record { held = f.store; said = f.said.items; calls = f.calls; fails = f.fails.items; read_faults = f.read_faults; write_faults = f.write_faults; refusals = f.refusals } };
}

impl MemoryFolder {
    /// A folder that holds no name, and in which no call is to fail.
    pub fn new(alloc: Global) -> Self
        ensures { result ≡ record { held = finite.empty; said = []; calls = 0; fails = []; read_faults = 0; write_faults = 0; refusals = 0 } }
    {
        MemoryFolder {
            store: Store::new(alloc),
            said: Vec::new(alloc),
            calls: 0,
            fails: Vec::new(alloc),
            read_faults: 0,
            write_faults: 0,
            refusals: 0,
            alloc,
        }
    }

    /// Sets what a name holds. It is no call of [`Folder`], and isn't counted.
    pub fn put(&mut self, name: &str, octets: &[u8]) -> Result<(), NoMemory>
        ensures ok { OnOk result (self.new ≡ record self.old { held = finite.insert self.old.held name.now octets.now }) }
        ensures err { OnErr result (self.new ≡ self.old) }
    {
        self.store.put(name, octets)?;
        Ok(())
    }

    /// Sets the numbers of the calls that are to fail, in place of those set before. The first call has the number 1.
    pub fn fail_at(&mut self, calls: &[u64]) -> Result<(), NoMemory>
        ensures ok { OnOk result (self.new ≡ record self.old { fails = calls.now }) }
        ensures err { OnErr result (self.new ≡ self.old) }
    {
        self.fails = Vec::from_slice(self.alloc, calls)?;
        Ok(())
    }

    /// The octets that a name holds, `None` where it isn't held.
    pub fn get(&self, name: &str) -> Option<&[u8]>
        ensures { option_map (λ octets. octets.now) result ≡ finite.get self.now.held name.now }
    {
        self.store.get(name)
    }

    /// All that was printed, in order.
    pub fn said(&self) -> &[u8]
        ensures { result.now ≡ self.now.said }
    {
        &self.said
    }

    /// How many calls of `read_at` failed.
    pub fn read_faults(&self) -> u64
        ensures { result ≡ self.now.read_faults }
    {
        self.read_faults
    }

    /// How many calls of `create`, `append` and `say` failed.
    pub fn write_faults(&self) -> u64
        ensures { result ≡ self.now.write_faults }
    {
        self.write_faults
    }

    /// How many calls of [`Folder`] were made, whatever they answered.
    pub fn calls(&self) -> u64
        ensures { result ≡ self.now.calls }
    {
        self.calls
    }
}

impl Folder for MemoryFolder {
    ghost state = { memory_folder };

    ghost came = { λ a b. Unit {0} };

    ghost came_none = { λ a. tt };

    ghost came_on = { λ a b c p q. tt };

    fn read_at(&mut self, name: &str, at: u64, buf: &mut [u8]) -> Result<usize, FolderFault>
        ensures octets { IfOk result (ReadsFront (memory_folder self.old) name.now at buf.old buf.new) }
        ensures bound { IfOk result (λ count. count ≤ length buf.old) }
        ensures told { OnOk result (TellsOctets (memory_folder self.old) name.now) }
        ensures only { OnlyReads (memory_folder self.old) (memory_folder self.new) }
        ensures cause { HasCause self.old.read_faults self.new.read_faults self.old.refusals self.new.refusals result }
        ensures stand { OnOk result (CountsStand (memory_folder self.old) (memory_folder self.new)) }
        ensures spared { IsErrOf result FolderFault.NoMemory → FaultsStand (memory_folder self.old) (memory_folder self.new) }
        ensures came { Unit {0} }

        ensures failed { IsErrOf result FolderFault.Failed ↔ (FailsNext self.old ⊎ IsNone (finite.get self.old.held name.now)) }
        ensures after { AfterRead self.old self.new result }
        ensures buffer { OnErr result (buf.new ≡ buf.old) }
    {
        self.calls = self.calls.saturating_add(1);
        if self.fails.contains(&self.calls) {
            self.read_faults = self.read_faults.saturating_add(1);
            return Err(FolderFault::Failed);
        }
        match self.store.get(name) {
            Some(octets) => Ok(copy_from(octets, at, buf)),
            None => {
                self.read_faults = self.read_faults.saturating_add(1);
                Err(FolderFault::Failed)
            }
        }
    }

    #[tactic(auto, using(program_folders::proofs::Stored::stored_names))]
    fn create(&mut self, name: &str) -> Result<(), FolderFault>
        ensures ok { OnOk result (Created (memory_folder self.old) (memory_folder self.new) name.now) }
        ensures err { OnErr result (KeepsName (memory_folder self.old) (memory_folder self.new) name.now ⊎ Created (memory_folder self.old) (memory_folder self.new) name.now) }
        ensures only { OnlyWrites (memory_folder self.old) (memory_folder self.new) name.now }
        ensures cause { HasCause self.old.write_faults self.new.write_faults self.old.refusals self.new.refusals result }
        ensures stand { OnOk result (CountsStand (memory_folder self.old) (memory_folder self.new)) }
        ensures spared { IsErrOf result FolderFault.NoMemory → FaultsStand (memory_folder self.old) (memory_folder self.new) }
        ensures came { Unit {0} }

        ensures failed { IsErrOf result FolderFault.Failed ↔ FailsNext self.old }
        ensures after { AfterWrite self.old self.new (record self.old { held = finite.insert self.old.held name.now [] }) result }
    {
        self.calls = self.calls.saturating_add(1);
        if self.fails.contains(&self.calls) {
            self.write_faults = self.write_faults.saturating_add(1);
            return Err(FolderFault::Failed);
        }
        match self.store.put(name, &[]) {
            Ok(()) => Ok(()),
            Err(_) => {
                self.refusals = self.refusals.saturating_add(1);
                Err(FolderFault::NoMemory)
            }
        }
    }

    #[tactic(auto, using(program_folders::proofs::Stored::stored_names))]
    fn append(&mut self, name: &str, piece: &[u8]) -> Result<(), FolderFault>
        ensures ok { OnOk result (Appended (memory_folder self.old) (memory_folder self.new) name.now piece.now) }
        ensures err { OnErr result (PartlyAppended (memory_folder self.old) (memory_folder self.new) name.now piece.now) }
        ensures only { OnlyWrites (memory_folder self.old) (memory_folder self.new) name.now }
        ensures cause { HasCause self.old.write_faults self.new.write_faults self.old.refusals self.new.refusals result }
        ensures stand { OnOk result (CountsStand (memory_folder self.old) (memory_folder self.new)) }
        ensures spared { IsErrOf result FolderFault.NoMemory → FaultsStand (memory_folder self.old) (memory_folder self.new) }
        ensures came { Unit {0} }

        ensures failed { IsErrOf result FolderFault.Failed ↔ FailsNext self.old }
        ensures after { AfterWrite self.old self.new (record self.old { held = finite.insert self.old.held name.now (unwrap_or (finite.get self.old.held name.now) [] ++ piece.now) }) result }
    {
        self.calls = self.calls.saturating_add(1);
        if self.fails.contains(&self.calls) {
            self.write_faults = self.write_faults.saturating_add(1);
            return Err(FolderFault::Failed);
        }
        match self.store.append(name, piece) {
            Ok(()) => Ok(()),
            Err(_) => {
                self.refusals = self.refusals.saturating_add(1);
                Err(FolderFault::NoMemory)
            }
        }
    }

    fn say(&mut self, piece: &[u8]) -> Result<(), FolderFault>
        ensures ok { OnOk result (Said (memory_folder self.old) (memory_folder self.new) piece.now) }
        ensures err { OnErr result (PartlySaid (memory_folder self.old) (memory_folder self.new) piece.now) }
        ensures only { OnlySays (memory_folder self.old) (memory_folder self.new) }
        ensures cause { HasCause self.old.write_faults self.new.write_faults self.old.refusals self.new.refusals result }
        ensures stand { OnOk result (CountsStand (memory_folder self.old) (memory_folder self.new)) }
        ensures spared { IsErrOf result FolderFault.NoMemory → FaultsStand (memory_folder self.old) (memory_folder self.new) }
        ensures came { Unit {0} }

        ensures failed { IsErrOf result FolderFault.Failed ↔ FailsNext self.old }
        ensures after { AfterWrite self.old self.new (record self.old { said = self.old.said ++ piece.now }) result }
    {
        self.calls = self.calls.saturating_add(1);
        if self.fails.contains(&self.calls) {
            self.write_faults = self.write_faults.saturating_add(1);
            return Err(FolderFault::Failed);
        }
        match self.said.extend_from_slice(piece) {
            Ok(()) => Ok(()),
            Err(_) => {
                self.refusals = self.refusals.saturating_add(1);
                Err(FolderFault::NoMemory)
            }
        }
    }
}
