ghost use Rattle.std.specs.Prelude.{◌≡◌, ℕ, ◌∷◌, Some, IfOk, OnOk, OnErr};
ghost use Rattle.std.specs.FinMap as map;
ghost use Rattle.std.specs.Option.{option_copied};
ghost use Rattle.std.specs.Ordering.{nat_cmp};
ghost use Rattle.std.specs.Cmp.Lexicographic.{slice_cmp};

use crate::faults::FileFault;
use crate::files::Files;
use hal_base::{Items, Memory};
use std::alloc::Global;
use std::collections::VecDeque;
use std::marker::Model;

/// Files in memory: what was written, the newest first. Contracts see the number of absents and the
/// map from names to bytes. It raises no fault.
#[derive(Drop)]
pub struct MemFiles {
    alloc: Global,
    written: VecDeque<(Items<u8>, Items<u8>)>,
    absents: u64,
}

impl Model for MemFiles {
    ghost use Rattle.std.specs.Prelude.{ℕ, List};
    ghost use Rattle.std.specs.Ordering.{nat_cmp};
    ghost use Rattle.std.specs.Cmp.Lexicographic.{slice_cmp};
    ghost use Rattle.std.specs.FinMap as map;
    ghost use Rattle.std.specs.Coded.{coded×, coded_ℕ, coded_list};

    ghost Value = { ℕ × map.FinMap (slice_cmp nat_cmp) (List ℕ) };

    ghost coded = { coded× coded_ℕ (map.code (coded_list coded_ℕ) (coded_list coded_ℕ)) };

    ghost view = { λ m. (m.absents, map.from_entries m.written.items) };
}

impl MemFiles {
    pub fn new(alloc: Global) -> MemFiles
        ensures { result ≡ (0, map.empty) }
    {
        MemFiles {
            alloc,
            written: VecDeque::new(alloc),
            absents: 0,
        }
    }

    /// The same files with this one set to these bytes.
    pub fn with(mut self, name: &str, bytes: &[u8]) -> Result<MemFiles, Memory>
        ensures { IfOk result (λ files. files ≡ (self.0, map.insert self.1 name.now bytes.now)) }
    {
        add(self.alloc, &mut self.written, name.as_bytes(), bytes)?;
        Ok(self)
    }

    /// The bytes of a file. `None` exactly where there is none of this name.
    pub fn bytes(&self, name: &str) -> Option<&[u8]>
        ensures { option_copied result ≡ map.get self.now.1 name.now }
    {
        match find(&self.written, name.as_bytes()) {
            Some(bytes) => Some(bytes.as_slice()),
            None => None,
        }
    }
}

impl Files for MemFiles {
    ghost faults = { λ m. 0 };

    ghost absents = { λ m. m.0 };

    ghost told = { λ m. Some m.1 };

    fn read(&mut self, alloc: Global, name: &str) -> Result<Option<Vec<u8>>, FileFault> {
        match find(&self.written, name.as_bytes()) {
            Some(bytes) => {
                let bytes = Vec::from_slice(alloc, bytes.as_slice())?;
                Ok(Some(bytes))
            }
            None => {
                self.absents = self.absents.saturating_add(1);
                Ok(None)
            }
        }
    }

    fn write(&mut self, name: &str, bytes: &[u8]) -> Result<(), FileFault> {
        Ok(add(self.alloc, &mut self.written, name.as_bytes(), bytes)?)
    }
}

fn add(
    alloc: Global,
    written: &mut VecDeque<(Items<u8>, Items<u8>)>,
    name: &[u8],
    bytes: &[u8],
) -> Result<(), Memory>
    ensures added { OnOk result (written.new.items ≡ (name.now, bytes.now) ∷ written.old.items) }
    ensures unchanged { OnErr result (written.new.items ≡ written.old.items) }
{
    let name = Items::from_vec(Vec::from_slice(alloc, name)?);
    let bytes = Items::from_vec(Vec::from_slice(alloc, bytes)?);
    written.push_front((name, bytes)).map_err(|_| Memory)
}

fn find<'a>(written: &'a VecDeque<(Items<u8>, Items<u8>)>, name: &[u8]) -> Option<&'a Items<u8>>
    ensures { option_copied result ≡ map.find (slice_cmp nat_cmp) name.now written.now.items }
{
    let mut at = 0;
    'entries: while at < written.len() {
        let entry = &written[at];
        if name.cmp(entry.0.as_slice()).is_eq() {
            return Some(&entry.1);
        }
        at += 1;
    }
    None
}
