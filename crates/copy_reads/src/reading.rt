ghost use Rattle.std.specs.Prelude.{◌≡◌, ◌<◌, ◌≤◌, ◌∷◌, [], List, IfErr, IfOk, IfSome, IsSome, None, OnErr, OnOk, Some, option_map, slice_get};
ghost use Rattle.hal_outside.specs.Told.{Rose};
ghost use Rattle.name_values.specs.Values.{World};
ghost use Rattle.replica_table.specs.Copies.{held};
ghost use Rattle.replica_table.specs.Order.{AreInOrder};
ghost use Rattle.run_model.specs.Lists.{number_of};
ghost use Rattle.run_model.specs.Plans.{gives};
ghost use Rattle.run_model.specs.Reading.{is_struck, tries_for};
ghost use Rattle.run_model.specs.State.{PlainCluster};
ghost use Rattle.valid_copies.specs.Files.{try_of};
ghost use Rattle.valid_copies.specs.Readings.{IsFile};
ghost use Rattle.valid_copies.specs.RightCalls.{RightWork};
ghost use Rattle.valid_copies.specs.Stands.{Stands};
ghost use Rattle.copy_reads.specs.Books.{Counted, IsOf};
ghost use Rattle.copy_reads.specs.Faults.{AtDevice, AtMisses};
ghost use Rattle.copy_reads.specs.Needs.{NeedRead, TriesStopped};
ghost use Rattle.copy_reads.specs.Keeping.{Keeps};
ghost use Rattle.copy_reads.specs.Readers.{IsThere, part_of, tries_by};
ghost use Rattle.copy_reads.specs.Tried.{TriedAs, TriedInVain};

use crate::books::Books;
use crate::fault::ReadFault;
use crate::reader::Reader;
use hal_base::{Memory, Records, Shape};
use hal_outside::Disks;
use node_files::{Fault, Fetched, FileRef};
use node_names::Name;
use std::alloc::Global;
use valid_copies::{Desk, fetch_copy, first_try, rows_of, up_file};

/// How many misses end a run.
const MOST_MISSES: u32 = 1000;

/// A file that was read, and the records for which its bytes stand.
#[derive(Drop)]
pub struct Found {
    pub file: FileRef,
    pub rows: Records,
}

impl Books {
    /// The file that is tried first for a need. `None` where there is none.
    fn first_file(&self, shape: &Shape, reader: Reader, name: &Name) -> Option<FileRef>
        requires { IsThere self.now.table.nodes reader }
        ensures first { (c : PlainCluster) → IsOf self.now c → slice_get (tries_by reader name.now c) 0 ≡ option_map try_of result }
        ensures file { IsFile name.now → IfSome result (λ file. IsFile file.name) }
        ensures kept { IfSome result (λ file. held file.name file.node self.now.table.copies ≡ Some file.digest) }
        ensures there { IfSome result (λ file. file.node < self.now.table.nodes) }
        ensures order { AreInOrder self.now.table.nodes self.now.table.copies }
    {
        let _names = self.table.len();
        match reader {
            Reader::Attempt { node, .. } => self.near_file(shape, node, name),
            Reader::End => up_file(&self.table, name),
        }
    }

    /// The file that an attempt on a node tries first. `None` where there is none.
    fn near_file(&self, shape: &Shape, own: u32, name: &Name) -> Option<FileRef>
        requires { own < self.now.table.nodes }
        ensures first { (c : PlainCluster) → IsOf self.now c → slice_get (tries_for c own name.now) 0 ≡ option_map try_of result }
        ensures file { IsFile name.now → IfSome result (λ file. IsFile file.name) }
        ensures kept { IfSome result (λ file. held file.name file.node self.now.table.copies ≡ Some file.digest) }
    {
        let desk = Desk {
            shape,
            table: &self.table,
            own,
            part: 0,
        };
        let file = first_try(&desk, name);
        let Desk {
            shape: _shape,
            table: _table,
            own: _own,
            part: _part,
        } = desk;
        file
    }

    /// Reads a file of which a digest is kept: the records for which its bytes stand, of a spill those of its section of a
    /// part. `None` where it is missed; its copy is struck then. docs/CLUSTER.md, "Reads and misses".
    pub fn try_file<D: Disks>(
        &mut self,
        alloc: Global,
        disks: &mut D,
        shape: &Shape,
        part: u32,
        file: &FileRef,
    ) -> Result<Option<Records>, ReadFault>
        requires node { file.now.node < self.old.table.nodes }
        requires file { IsFile file.now.name }
        requires kept { held file.now.name file.now.node self.old.table.copies ≡ Some file.now.digest }
        requires counted { Counted self.old }
        ensures tried { IfOk result (TriedAs shape.now part (D.shows_damage disks.old) file.now self.old self.new (D.told disks.old) (D.told disks.new)) }
        ensures stopped { IfErr result (TriedInVain file.now self.old self.new (D.told disks.old) (D.told disks.new)) }
        ensures full { IfErr result (λ fault. AtMisses fault (1000 ≤ number_of is_struck self.new.journal)) }
        ensures counted { OnOk result (Counted self.new) }
        ensures keeps { Keeps D.Disks self.old self.new disks.old disks.new }
        ensures calls { (w : World) → Stands w self.old.table.copies (D.told disks.old) → RightWork D.Disks w disks.old disks.new (IfOk result IsSome × IfErr result (λ fault. AtMisses fault ⊥)) }
        ensures device { IfErr result (λ fault. AtDevice fault (Rose (D.faults disks.old) (D.faults disks.new))) }
    {
        match fetch_copy(alloc, disks, file) {
            Ok(Fetched::Bytes(bytes)) => {
                match rows_of(alloc, shape, &file.name, bytes.as_slice(), part) {
                    Ok(rows) => Ok(Some(rows)),
                    Err(Memory) => Err(ReadFault::Memory),
                }
            }
            Ok(Fetched::Missed) => match self.note_miss(file) {
                Ok(()) => {
                    if self.misses < MOST_MISSES {
                        Ok(None)
                    } else {
                        Err(ReadFault::Misses)
                    }
                }
                Err(Memory) => Err(ReadFault::Memory),
            },
            Err(Fault::Device(device)) => Err(ReadFault::Device(device)),
            Err(Fault::Memory) => Err(ReadFault::Memory),
        }
    }

    /// Reads a need: for an attempt its copy on the own node, of a block its cache there, and then its copies on other up
    /// nodes, by node, until one is not missed; for the end of a run those on up nodes alone. `None` where none is left. Of
    /// a spill the records are those of its section of the reader's part. docs/CLUSTER.md, "Reads and misses".
    pub fn read_need<D: Disks>(
        &mut self,
        alloc: Global,
        disks: &mut D,
        shape: &Shape,
        reader: Reader,
        name: &Name,
    ) -> Result<Option<Found>, ReadFault>
        requires there { IsThere self.old.table.nodes reader }
        requires file { IsFile name.now }
        requires counted { Counted self.old }
        ensures read { IfOk result (NeedRead shape.now (D.shows_damage disks.old) reader name.now self.old self.new (D.told disks.old) (D.told disks.new)) }
        ensures stopped { IfErr result (TriesStopped self.old self.new (tries_by reader name.now) (D.told disks.old) (D.told disks.new)) }
        ensures counted { OnOk result (Counted self.new) }
        ensures keeps { Keeps D.Disks self.old self.new disks.old disks.new }
        ensures calls { (w : World) → Stands w self.old.table.copies (D.told disks.old) → RightWork D.Disks w disks.old disks.new (IfErr result (λ fault. AtMisses fault ⊥)) }
        ensures device { IfErr result (λ fault. AtDevice fault (Rose (D.faults disks.old) (D.faults disks.new))) }
    {
        'tries: loop {
            let Some(file) = self.first_file(shape, reader, name) else {
                return Ok(None);
            };
            match self.try_file(alloc, disks, shape, reader.part(), &file) {
                Ok(Some(rows)) => return Ok(Some(Found { file, rows })),
                Ok(None) => {}
                Err(fault) => return Err(fault),
            }
        }
    }
}
