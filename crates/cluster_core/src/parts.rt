ghost use Rattle.std.specs.Prelude.{IfErr, IfOk, IfSome, List, [], ◌∷◌, ◌≤◌};
ghost use Rattle.hal_base.specs.Shapes.{IsWellFormed};
ghost use Rattle.hal_outside.specs.Told.{Rose};
ghost use Rattle.name_values.specs.Values.{World};
ghost use Rattle.replica_table.specs.Copies.{Copy};
ghost use Rattle.run_model.specs.Tasks.{last_outs};
ghost use Rattle.valid_copies.specs.Calls.{PutStays};
ghost use Rattle.valid_copies.specs.Faults.{AtDevice, AtMissed};
ghost use Rattle.valid_copies.specs.Readings.{IsFile};
ghost use Rattle.valid_copies.specs.RightCalls.{RightWork};
ghost use Rattle.valid_copies.specs.Stands.{Stands};
ghost use Rattle.cluster_core.specs.Parts.{AreValuesOf, IsValueOf, PartFollows, PartStopped, PartsFollow, PartsStopped};
ghost use Rattle.valid_copies.specs.LastWrites.{ReadsCopies};
ghost use Rattle.cluster_core.specs.Origins.{AreAnswers};

use hal_base::{Memory, Parts, Records, Shape};
use hal_outside::Disks;
use loop_scheduler::last_step;
use node_names::Name;
use replica_table::Table;
use std::alloc::Global;
use valid_copies::{Desk, WorkFault, read_need, up_file};

/// Reads a part from the lowest node that is up and holds it. `None` exactly where no up node does.
pub fn read_part<D: Disks>(
    alloc: Global,
    disks: &mut D,
    table: &Table,
    shape: &Shape,
    name: &Name,
) -> Result<Option<Records>, WorkFault>
    requires { IsFile name.now }
    ensures read { IfOk result (PartFollows table.now name.now (D.told disks.old) (D.told disks.new)) }
    ensures stopped { IfErr result (PartStopped table.now name.now (D.told disks.old) (D.told disks.new)) }
    ensures value { IfOk result (IsValueOf shape.now table.now (D.shows_damage disks.old) (D.told disks.old) name.now) }
    ensures asked { ReadsCopies table.now.copies (D.told disks.old) (D.told disks.new) }
    ensures answers { IfOk result (λ found. IfSome found (λ rows. AreAnswers shape.now (rows ∷ []) (D.told disks.old) (D.told disks.new))) }
    ensures valid { (w : World) (copies : List Copy) → Stands w copies (D.told disks.old) → Stands w copies (D.told disks.new) }
    ensures puts_stay { PutStays (D.told disks.old) (D.told disks.new) }
    ensures faults_stay { D.faults disks.old ≤ D.faults disks.new }
    ensures misses_stay { D.misses disks.old ≤ D.misses disks.new }
    ensures damage_shown { D.shows_damage disks.old → D.shows_damage disks.new }
    ensures soundness_kept { D.sound disks.old → D.sound disks.new }
    ensures calls { (w : World) → Stands w table.now.copies (D.told disks.old) → RightWork D.Disks w disks.old disks.new (IfErr result (λ fault. AtMissed fault ⊥)) }
    ensures device { IfErr result (λ fault. AtDevice fault (Rose (D.faults disks.old) (D.faults disks.new))) }
    ensures missed { IfErr result (λ fault. AtMissed fault (Rose (D.misses disks.old) (D.misses disks.new))) }
{
    let Some(file) = up_file(table, name) else {
        return Ok(None);
    };
    let desk = Desk {
        shape,
        table,
        own: file.node,
        part: 0,
    };
    match read_need(alloc, disks, &desk, name) {
        Ok(Some(found)) => Ok(Some(found.rows)),
        Ok(None) => Ok(None),
        Err(fault) => Err(fault),
    }
}

/// Reads the parts of the last step in a round in order, each from the lowest node that is up and holds it. `None` where no
/// up node holds one of them.
pub fn read_parts<D: Disks>(
    alloc: Global,
    disks: &mut D,
    table: &Table,
    shape: &Shape,
    round: u32,
) -> Result<Option<Parts>, WorkFault>
    requires { IsWellFormed shape.now }
    ensures read { IfOk result (PartsFollow shape.now table.now round (D.told disks.old) (D.told disks.new)) }
    ensures stopped { IfErr result (PartsStopped shape.now table.now round (D.told disks.old) (D.told disks.new)) }
    ensures value { IfOk result (AreValuesOf shape.now table.now (D.shows_damage disks.old) (D.told disks.old) (last_outs shape.now round)) }
    ensures asked { ReadsCopies table.now.copies (D.told disks.old) (D.told disks.new) }
    ensures answers { IfOk result (λ found. IfSome found (λ parts. AreAnswers shape.now parts (D.told disks.old) (D.told disks.new))) }
    ensures valid { (w : World) (copies : List Copy) → Stands w copies (D.told disks.old) → Stands w copies (D.told disks.new) }
    ensures puts_stay { PutStays (D.told disks.old) (D.told disks.new) }
    ensures faults_stay { D.faults disks.old ≤ D.faults disks.new }
    ensures misses_stay { D.misses disks.old ≤ D.misses disks.new }
    ensures damage_shown { D.shows_damage disks.old → D.shows_damage disks.new }
    ensures soundness_kept { D.sound disks.old → D.sound disks.new }
    ensures calls { (w : World) → Stands w table.now.copies (D.told disks.old) → RightWork D.Disks w disks.old disks.new (IfErr result (λ fault. AtMissed fault ⊥)) }
    ensures device { IfErr result (λ fault. AtDevice fault (Rose (D.faults disks.old) (D.faults disks.new))) }
    ensures missed { IfErr result (λ fault. AtMissed fault (Rose (D.misses disks.old) (D.misses disks.new))) }
{
    let step = last_step(shape);
    let mut parts = Parts::new(alloc);
    'parts: for part in 0..shape.parts {
        match read_part(alloc, disks, table, shape, &Name::Out { round, step, part }) {
            Ok(Some(rows)) => match parts.push(rows) {
                Ok(()) => {}
                Err(Memory) => return Err(WorkFault::Memory),
            },
            Ok(None) => return Ok(None),
            Err(fault) => return Err(fault),
        }
    }
    Ok(Some(parts))
}
