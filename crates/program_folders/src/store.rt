// Named files in memory.
ghost use Rattle.std.specs.Prelude.{◌≡◌, ◌≢◌, ℕ, List, [], ◌++◌, OnOk, OnErr, option_copied, unwrap_or, IfSome, IsSome, ◌↔◌, Some};
ghost use Rattle.std.specs.Option.{option_map};
ghost use Rattle.std.specs.FinMap as finite;

use std::alloc::{AllocError, Global};
use std::collections::BTreeMap;
use std::marker::Model;

/// Names and their octets, in memory.
#[derive(Drop)]
pub struct Store {
    /// By name.
    files: BTreeMap<String, Vec<u8>>,
    /// Where its memory comes from.
    alloc: Global,
}

impl Model for Store {
    ghost use Rattle.std.specs.FinMap as finite;
    ghost use Rattle.std.specs.Prelude.{ℕ};
    ghost use Rattle.std.specs.Coded.{coded_ℕ, coded_list};
    ghost use Rattle.outside_calls.specs.Folder.{Files};
    ghost use Rattle.program_folders.specs.Store.{files_of};

    ghost Value = { Files };

    ghost coded = { finite.code (coded_list coded_ℕ) (coded_list coded_ℕ) };

    ghost view = { λ s. files_of s.files.entries };
}

impl Store {
    /// A store that holds no name.
    pub fn new(alloc: Global) -> Self
        ensures { result ≡ finite.empty }
    {
        Store {
            files: BTreeMap::new(alloc),
            alloc,
        }
    }

    /// What a name holds, where it is held.
    pub fn get(&self, name: &str) -> Option<&[u8]>
        ensures { option_map (λ octets. octets.now) result ≡ finite.get self.now name.now }
    {
        match self.files.get(name) {
            Some(octets) => Some(octets.as_slice()),
            None => None,
        }
    }

    /// Sets what a name holds.
    pub fn put(&mut self, name: &str, octets: &[u8]) -> Result<(), AllocError>
        ensures ok { OnOk result (self.new ≡ finite.insert self.old name.now octets.now) }
        ensures others { (other : List ℕ) → other ≢ name.now → finite.get self.new other ≡ finite.get self.old other }
        ensures err { OnErr result (self.new ≡ self.old) }
    {
        let key = String::from_str(self.alloc, name)?;
        let value = Vec::from_slice(self.alloc, octets)?;
        self.files.insert(key, value)?;
        Ok(())
    }

    /// Puts octets behind what a name holds. A name that isn't held is made.
    pub fn append(&mut self, name: &str, piece: &[u8]) -> Result<(), AllocError>
        ensures ok { OnOk result (self.new ≡ finite.insert self.old name.now (unwrap_or (finite.get self.old name.now) [] ++ piece.now)) }
        ensures others { (other : List ℕ) → other ≢ name.now → finite.get self.new other ≡ finite.get self.old other }
        ensures err { OnErr result (self.new ≡ self.old) }
    {
        match self.files.get_mut(name) {
            Some(octets) => octets.extend_from_slice(piece),
            None => self.put(name, piece),
        }
    }
}
