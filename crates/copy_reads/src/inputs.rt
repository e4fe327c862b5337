ghost use Rattle.std.specs.Prelude.{◌≡◌, ◌<◌, ◌≤◌, ◌∷◌, ◌++◌, [], IfErr, IfOk, OnOk};
ghost use Rattle.std.specs.List.{AllByRecursion};
ghost use Rattle.hal_outside.specs.Told.{Rose};
ghost use Rattle.name_values.specs.Values.{World};
ghost use Rattle.valid_copies.specs.Inputs.{names_in};
ghost use Rattle.valid_copies.specs.Readings.{IsFile};
ghost use Rattle.valid_copies.specs.RightCalls.{RightWork};
ghost use Rattle.valid_copies.specs.Stands.{Stands};
ghost use Rattle.copy_reads.specs.Books.{Counted};
ghost use Rattle.copy_reads.specs.Faults.{AtDevice, AtMisses};
ghost use Rattle.copy_reads.specs.Inputs.{FilesOrStarved, FilesStopped, InputsOrStarved, InputsStopped};
ghost use Rattle.copy_reads.specs.Keeping.{Keeps};

use crate::books::Books;
use crate::fault::ReadFault;
use crate::reader::Reader;
use crate::reading::Found;
use hal_base::{Memory, Parts, Shape};
use hal_outside::Disks;
use node_files::FileRef;
use node_names::Name;
use std::alloc::Global;

impl Books {
    /// Reads needs of an attempt on a node, in order, and adds the files that were read to others: the records of each.
    /// `None` where no copy is left of one of them. docs/CLUSTER.md, "Reads and misses".
    pub fn read_files<D: Disks>(
        &mut self,
        alloc: Global,
        disks: &mut D,
        shape: &Shape,
        own: u32,
        part: u32,
        names: &[Name],
        files: &mut Vec<FileRef>,
    ) -> Result<Option<Parts>, ReadFault>
        requires own { own < self.old.table.nodes }
        requires all_files { AllByRecursion IsFile names.now }
        requires counted { Counted self.old }
        ensures read { IfOk result (FilesOrStarved shape.now (D.shows_damage disks.old) own part names.now self.old self.new (D.told disks.old) (D.told disks.new) files.old.items files.new.items) }
        ensures stopped { IfErr result (FilesStopped own names.now self.old self.new (D.told disks.old) (D.told disks.new)) }
        ensures counted { OnOk result (Counted self.new) }
        ensures keeps { Keeps D.Disks self.old self.new disks.old disks.new }
        ensures calls { (w : World) → Stands w self.old.table.copies (D.told disks.old) → RightWork D.Disks w disks.old disks.new (IfErr result (λ fault. AtMisses fault ⊥)) }
        ensures device { IfErr result (λ fault. AtDevice fault (Rose (D.faults disks.old) (D.faults disks.new))) }
    {
        let reader = Reader::Attempt { node: own, part };
        let mut lists = Parts::new(alloc);
        let mut rest = names;
        'names: while let Some((name, others)) = rest.split_first() {
            match self.read_need(alloc, disks, shape, reader, name) {
                Ok(Some(found)) => match keep(found, files, &mut lists) {
                    Ok(()) => rest = others,
                    Err(Memory) => return Err(ReadFault::Memory),
                },
                Ok(None) => return Ok(None),
                Err(fault) => return Err(fault),
            }
        }
        Ok(Some(lists))
    }

    /// Reads inputs of an attempt on a node in order, each of them needs in order, and adds the files that were read to others:
    /// for each input the records of its files. `None` where no copy is left of one of them. docs/CLUSTER.md, "Reads and
    /// misses".
    pub fn read_inputs<D: Disks>(
        &mut self,
        alloc: Global,
        disks: &mut D,
        shape: &Shape,
        own: u32,
        part: u32,
        inputs: &[Vec<Name>],
        files: &mut Vec<FileRef>,
    ) -> Result<Option<Vec<Parts>>, ReadFault>
        requires own { own < self.old.table.nodes }
        requires all_files { AllByRecursion (AllByRecursion IsFile) (names_in inputs.now) }
        requires counted { Counted self.old }
        ensures read { IfOk result (InputsOrStarved shape.now (D.shows_damage disks.old) own part (names_in inputs.now) self.old self.new (D.told disks.old) (D.told disks.new) files.old.items files.new.items) }
        ensures stopped { IfErr result (InputsStopped own (names_in inputs.now) self.old self.new (D.told disks.old) (D.told disks.new)) }
        ensures counted { OnOk result (Counted self.new) }
        ensures keeps { Keeps D.Disks self.old self.new disks.old disks.new }
        ensures calls { (w : World) → Stands w self.old.table.copies (D.told disks.old) → RightWork D.Disks w disks.old disks.new (IfErr result (λ fault. AtMisses fault ⊥)) }
        ensures device { IfErr result (λ fault. AtDevice fault (Rose (D.faults disks.old) (D.faults disks.new))) }
    {
        let mut lists = Vec::new(alloc);
        let mut rest = inputs;
        'inputs: while let Some((names, others)) = rest.split_first() {
            match self.read_files(alloc, disks, shape, own, part, names.as_slice(), files) {
                Ok(Some(parts)) => match keep_parts(&mut lists, parts) {
                    Ok(()) => rest = others,
                    Err(Memory) => return Err(ReadFault::Memory),
                },
                Ok(None) => return Ok(None),
                Err(fault) => return Err(fault),
            }
        }
        Ok(Some(lists))
    }
}

/// Adds what was read to files and lists.
fn keep(found: Found, files: &mut Vec<FileRef>, lists: &mut Parts) -> Result<(), Memory>
    ensures files { OnOk result (files.new.items ≡ files.old.items ++ found.file ∷ []) }
    ensures lists { OnOk result (lists.new ≡ lists.old ++ found.rows ∷ []) }
{
    files.push(found.file)?;
    lists.push(found.rows)
}

/// Adds what was read of an input to the lists.
fn keep_parts(lists: &mut Vec<Parts>, parts: Parts) -> Result<(), Memory>
    ensures { OnOk result (lists.new.items ≡ lists.old.items ++ parts ∷ []) }
{
    lists.push(parts)?;
    Ok(())
}
