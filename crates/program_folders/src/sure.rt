// A folder in memory that never fails.
ghost use Rattle.std.specs.Prelude.{◌≡◌, ◌≤◌, ◌⊎◌, ◌++◌, [], length, unwrap_or, OnOk, OnErr, IfOk, IsOk, IsErrOf};
ghost use Rattle.std.specs.Option.{option_map};
ghost use Rattle.std.specs.FinMap as finite;
ghost use Rattle.outside_calls.specs.Folder.{ReadsFront, OnlyReads, OnlyWrites, OnlySays, HasCause, FaultsStand, CountsStand, TellsOctets, KeepsName, Appended, PartlyAppended, Created, Said, PartlySaid};
ghost use Rattle.program_folders.specs.Sure.{sure_folder, counted, AfterSureWrite};

use crate::store::Store;
use crate::transfer::copy_from;
use outside_calls::{Folder, FolderFault};
use shared_terms::NoMemory;
use std::alloc::Global;
use std::marker::Model;

/// A folder in memory that answers `NoMemory` at worst. Every name is known, and one that isn't held reads as empty.
pub struct SureFolder {
    /// The files.
    store: Store,
    /// All that was printed.
    said: Vec<u8>,
    /// How many calls of a folder were made.
    calls: u64,
    /// How many times memory was refused.
    refusals: u64,
}

impl Drop for SureFolder {
    // for the prover: so it is dropped by a call, and its fields are not dropped anew wherever one is.
    fn drop(self) {
        let SureFolder {
            store: _,
            said: _,
            calls: _,
            refusals: _,
        } = self;
    }
}

impl Model for SureFolder {
    ghost use Rattle.program_folders.specs.Sure.{SureState, sure_code};

    ghost Value = { SureState };

    ghost coded = { sure_code };

    ghost view = { λ f. record { held = f.store; said = f.said.items; calls = f.calls; refusals = f.refusals } };
}

impl SureFolder {
    /// A folder that holds no name.
    pub fn new(alloc: Global) -> Self
        ensures { result ≡ record { held = finite.empty; said = []; calls = 0; refusals = 0 } }
    {
        SureFolder {
            store: Store::new(alloc),
            said: Vec::new(alloc),
            calls: 0,
            refusals: 0,
        }
    }

    /// Sets what a name holds. It is no call of [`Folder`], and isn't counted.
    pub fn put(&mut self, name: &str, octets: &[u8]) -> Result<(), NoMemory>
        ensures ok { OnOk result (self.new ≡ record self.old { held = finite.insert self.old.held name.now octets.now }) }
        ensures err { OnErr result (self.new ≡ self.old) }
    {
        self.store.put(name, octets)?;
        Ok(())
    }

    /// The octets that a name holds, `None` where it isn't held.
    pub fn get(&self, name: &str) -> Option<&[u8]>
        ensures { option_map (λ octets. octets.now) result ≡ finite.get self.now.held name.now }
    {
        self.store.get(name)
    }

    /// All that was printed, in order.
    pub fn said(&self) -> &[u8]
        ensures { result.now ≡ self.now.said }
    {
        &self.said
    }

    /// How many calls of [`Folder`] were made, whatever they answered.
    pub fn calls(&self) -> u64
        ensures { result ≡ self.now.calls }
    {
        self.calls
    }
}

impl Folder for SureFolder {
    ghost state = { sure_folder };

    ghost came = { λ a b. Unit {0} };

    ghost came_none = { λ a. tt };

    ghost came_on = { λ a b c p q. tt };

    fn read_at(&mut self, name: &str, at: u64, buf: &mut [u8]) -> Result<usize, FolderFault>
        ensures octets { IfOk result (ReadsFront (sure_folder self.old) name.now at buf.old buf.new) }
        ensures bound { IfOk result (λ count. count ≤ length buf.old) }
        ensures told { OnOk result (TellsOctets (sure_folder self.old) name.now) }
        ensures only { OnlyReads (sure_folder self.old) (sure_folder self.new) }
        ensures cause { HasCause 0 0 self.old.refusals self.new.refusals result }
        ensures stand { OnOk result (CountsStand (sure_folder self.old) (sure_folder self.new)) }
        ensures spared { IsErrOf result FolderFault.NoMemory → FaultsStand (sure_folder self.old) (sure_folder self.new) }
        ensures came { Unit {0} }

        ensures sure { IsOk result }
        ensures after { self.new ≡ counted self.old }
    {
        self.calls = self.calls.saturating_add(1);
        match self.store.get(name) {
            Some(octets) => Ok(copy_from(octets, at, buf)),
            None => Ok(0),
        }
    }

    #[tactic(auto, using(crate::proofs::Stored::stored_names))]
    fn create(&mut self, name: &str) -> Result<(), FolderFault>
        ensures ok { OnOk result (Created (sure_folder self.old) (sure_folder self.new) name.now) }
        ensures err { OnErr result (KeepsName (sure_folder self.old) (sure_folder self.new) name.now ⊎ Created (sure_folder self.old) (sure_folder self.new) name.now) }
        ensures only { OnlyWrites (sure_folder self.old) (sure_folder self.new) name.now }
        ensures cause { HasCause 0 0 self.old.refusals self.new.refusals result }
        ensures stand { OnOk result (CountsStand (sure_folder self.old) (sure_folder self.new)) }
        ensures spared { IsErrOf result FolderFault.NoMemory → FaultsStand (sure_folder self.old) (sure_folder self.new) }
        ensures came { Unit {0} }

        ensures after { AfterSureWrite self.old self.new (record self.old { held = finite.insert self.old.held name.now [] }) result }
    {
        self.calls = self.calls.saturating_add(1);
        match self.store.put(name, &[]) {
            Ok(()) => Ok(()),
            Err(_) => {
                self.refusals = self.refusals.saturating_add(1);
                Err(FolderFault::NoMemory)
            }
        }
    }

    #[tactic(auto, using(crate::proofs::Stored::stored_names))]
    fn append(&mut self, name: &str, piece: &[u8]) -> Result<(), FolderFault>
        ensures ok { OnOk result (Appended (sure_folder self.old) (sure_folder self.new) name.now piece.now) }
        ensures err { OnErr result (PartlyAppended (sure_folder self.old) (sure_folder self.new) name.now piece.now) }
        ensures only { OnlyWrites (sure_folder self.old) (sure_folder self.new) name.now }
        ensures cause { HasCause 0 0 self.old.refusals self.new.refusals result }
        ensures stand { OnOk result (CountsStand (sure_folder self.old) (sure_folder self.new)) }
        ensures spared { IsErrOf result FolderFault.NoMemory → FaultsStand (sure_folder self.old) (sure_folder self.new) }
        ensures came { Unit {0} }

        ensures after { AfterSureWrite self.old self.new (record self.old { held = finite.insert self.old.held name.now (unwrap_or (finite.get self.old.held name.now) [] ++ piece.now) }) result }
    {
        self.calls = self.calls.saturating_add(1);
        match self.store.append(name, piece) {
            Ok(()) => Ok(()),
            Err(_) => {
                self.refusals = self.refusals.saturating_add(1);
                Err(FolderFault::NoMemory)
            }
        }
    }

    fn say(&mut self, piece: &[u8]) -> Result<(), FolderFault>
        ensures ok { OnOk result (Said (sure_folder self.old) (sure_folder self.new) piece.now) }
        ensures err { OnErr result (PartlySaid (sure_folder self.old) (sure_folder self.new) piece.now) }
        ensures only { OnlySays (sure_folder self.old) (sure_folder self.new) }
        ensures cause { HasCause 0 0 self.old.refusals self.new.refusals result }
        ensures stand { OnOk result (CountsStand (sure_folder self.old) (sure_folder self.new)) }
        ensures spared { IsErrOf result FolderFault.NoMemory → FaultsStand (sure_folder self.old) (sure_folder self.new) }
        ensures came { Unit {0} }

        ensures after { AfterSureWrite self.old self.new (record self.old { said = self.old.said ++ piece.now }) result }
    {
        self.calls = self.calls.saturating_add(1);
        match self.said.extend_from_slice(piece) {
            Ok(()) => Ok(()),
            Err(_) => {
                self.refusals = self.refusals.saturating_add(1);
                Err(FolderFault::NoMemory)
            }
        }
    }
}
