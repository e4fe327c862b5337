ghost use Rattle.std.specs.Prelude.{◌≡◌, ◌≤◌, ◌∷◌, ◌++◌, [], IfErr, IfOk, OnOk};
ghost use Rattle.std.specs.List.{AllByRecursion};
ghost use Rattle.hal_outside.specs.Told.{Rose};
ghost use Rattle.name_values.specs.Values.{World};
ghost use Rattle.valid_copies.specs.Readings.{IsFile};
ghost use Rattle.valid_copies.specs.RightCalls.{RightWork};
ghost use Rattle.valid_copies.specs.Stands.{Stands};
ghost use Rattle.copy_reads.specs.Books.{Counted};
ghost use Rattle.copy_reads.specs.Faults.{AtDevice, AtMisses};
ghost use Rattle.copy_reads.specs.Keeping.{Keeps};
ghost use Rattle.copy_reads.specs.Parts.{PartsOrLeft, PartsStopped};

use crate::books::Books;
use crate::fault::ReadFault;
use crate::reader::Reader;
use hal_base::{Memory, Parts, Shape};
use hal_outside::Disks;
use node_names::Name;
use std::alloc::Global;

impl Books {
    /// Reads the parts at the end of a run in order, each from the up nodes that hold it, by node, until one is not missed:
    /// the records of each. `None` where no copy is left of one of them. docs/CLUSTER.md, "Reads and misses".
    pub fn read_parts<D: Disks>(
        &mut self,
        alloc: Global,
        disks: &mut D,
        shape: &Shape,
        names: &[Name],
    ) -> Result<Option<Parts>, ReadFault>
        requires all_files { AllByRecursion IsFile names.now }
        requires counted { Counted self.old }
        ensures read { IfOk result (PartsOrLeft shape.now (D.shows_damage disks.old) names.now self.old self.new (D.told disks.old) (D.told disks.new)) }
        ensures stopped { IfErr result (PartsStopped names.now self.old self.new (D.told disks.old) (D.told disks.new)) }
        ensures counted { OnOk result (Counted self.new) }
        ensures keeps { Keeps D.Disks self.old self.new disks.old disks.new }
        ensures calls { (w : World) → Stands w self.old.table.copies (D.told disks.old) → RightWork D.Disks w disks.old disks.new (IfErr result (λ fault. AtMisses fault ⊥)) }
        ensures device { IfErr result (λ fault. AtDevice fault (Rose (D.faults disks.old) (D.faults disks.new))) }
    {
        let mut lists = Parts::new(alloc);
        let mut rest = names;
        'names: while let Some((name, others)) = rest.split_first() {
            match self.read_need(alloc, disks, shape, Reader::End, name) {
                Ok(Some(found)) => match lists.push(found.rows) {
                    Ok(()) => rest = others,
                    Err(Memory) => return Err(ReadFault::Memory),
                },
                Ok(None) => return Ok(None),
                Err(fault) => return Err(fault),
            }
        }
        Ok(Some(lists))
    }
}
