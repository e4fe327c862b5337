ghost use Rattle.std.specs.Prelude.{◌≡◌, ◌<◌, ◌≤◌, ◌-◌, [], ◌∷◌, length, IfErr, IfOk, IsSome, OnErr, OnOk};
ghost use Rattle.hal_base.specs.declared.shape.Shape.{Shape};
ghost use Rattle.hal_outside.specs.DiskCalls as call;
ghost use Rattle.hal_outside.specs.Told.{OnTold, Rose};
ghost use Rattle.replica_table.specs.Copies.{holders};
ghost use Rattle.run_model.specs.Attempts.{nodes_for};
ghost use Rattle.name_values.specs.Values.{World, value_of};
ghost use Rattle.valid_copies.specs.Calls.{AddedAtMost};
ghost use Rattle.valid_copies.specs.Faults.{AtDevice, AtMissed};
ghost use Rattle.valid_copies.specs.Readings.{IsTextOf};
ghost use Rattle.valid_copies.specs.RightCalls.{RightWork};
ghost use Rattle.valid_copies.specs.Stands.{OthersStay, Stands};
ghost use Rattle.valid_copies.specs.Writes.{Wrote, WroteSome, write_at, writes_at};
ghost use Rattle.valid_copies.specs.steps.Further.{may_get, nodes_between, writes_between};

use crate::fault::WorkFault;
use crate::keeping::put_copy;
use hal_base::Memory;
use hal_outside::Disks;
use node_files::Fault;
use node_names::Name;
use replica_table::{NodeSet, Table};
use schedule_text::Schedule;
use std::alloc::Global;
use std::marker::Model;

/// Writes a file on a node and notes its copy, in the place of an older one. Copies that are valid stay so, if the bytes
/// are the text of the name. After a fault the table is as before, and of this one file nothing is known.
/// docs/CLUSTER.md, "Valid copies".
pub fn write_copy<D: Disks>(
    alloc: Global,
    disks: &mut D,
    table: &mut Table,
    node: u32,
    name: &Name,
    bytes: &[u8],
) -> Result<(), WorkFault>
    requires { node < table.old.nodes }
    ensures written { OnOk result (Wrote (D.told disks.old) table.old (write_at node name.now bytes.now ∷ []) table.new (D.told disks.new)) }
    ensures begun { OnErr result (AddedAtMost (D.told disks.old) [] (call.Write node name.now bytes.now) (D.told disks.new)) }
    ensures table_kept { OnErr result (table.new ≡ table.old) }
    ensures valid { OnOk result ((w : World) → IsTextOf w.shape name.now bytes.now (value_of w name.now) → Stands w table.old.copies (D.told disks.old) → Stands w table.new.copies (D.told disks.new)) }
    ensures faults_stay { D.faults disks.old ≤ D.faults disks.new }
    ensures misses_stay { D.misses disks.old ≤ D.misses disks.new }
    ensures device { IfErr result (λ fault. AtDevice fault (Rose (D.faults disks.old) (D.faults disks.new))) }
    ensures not_missed { IsSome (D.told disks.old) → D.misses disks.new ≡ D.misses disks.old }
    ensures missed { IfErr result (λ fault. AtMissed fault ⊥) }
    ensures calls { (w : World) → IsTextOf w.shape name.now bytes.now (value_of w name.now) → RightWork D.Disks w disks.old disks.new (IfErr result (λ fault. AtMissed fault ⊥)) }
    ensures others { OnTold (OthersStay (node ∷ [])) (D.told disks.old) (D.told disks.new) }
    ensures damage_shown { D.shows_damage disks.old → D.shows_damage disks.new }
    ensures soundness_kept { D.sound disks.old → D.sound disks.new }
{
    match put_copy(alloc, disks, node, name, bytes) {
        Ok(file) => match table.add(name, node, &file.digest) {
            Ok(()) => Ok(()),
            Err(Memory) => Err(WorkFault::Memory),
        },
        Err(Fault::Device(device)) => Err(WorkFault::Device(device)),
        Err(Fault::Memory) => Err(WorkFault::Memory),
    }
}

/// Writes a file on the next up nodes behind a node, in cyclic order, that do not hold it, until `copies` up nodes of the
/// schedule do, or no such node is left. Else as `write_copy`, where after a fault some of the copies are noted.
/// docs/CLUSTER.md, "Copies".
pub fn write_further<D: Disks>(
    alloc: Global,
    disks: &mut D,
    table: &mut Table,
    schedule: &Schedule,
    own: u32,
    name: &Name,
    bytes: &[u8],
) -> Result<(), WorkFault>
    requires own { own < table.old.nodes }
    requires nodes { table.old.nodes ≡ schedule.now.nodes }
    requires few { schedule.now.nodes ≤ 64 }
    ensures written { OnOk result ((shape : Shape) → Wrote (D.told disks.old) table.old (writes_at (nodes_for (record { shape = shape; schedule = schedule.now }) own table.old.up (holders name.now table.old)) name.now bytes.now) table.new (D.told disks.new)) }
    ensures begun { OnErr result ((shape : Shape) → WroteSome (D.told disks.old) table.old (writes_at (nodes_for (record { shape = shape; schedule = schedule.now }) own table.old.up (holders name.now table.old)) name.now bytes.now) table.new (D.told disks.new)) }
    ensures valid { OnOk result ((w : World) → IsTextOf w.shape name.now bytes.now (value_of w name.now) → Stands w table.old.copies (D.told disks.old) → Stands w table.new.copies (D.told disks.new)) }
    ensures faults_stay { D.faults disks.old ≤ D.faults disks.new }
    ensures misses_stay { D.misses disks.old ≤ D.misses disks.new }
    ensures device { IfErr result (λ fault. AtDevice fault (Rose (D.faults disks.old) (D.faults disks.new))) }
    ensures not_missed { IsSome (D.told disks.old) → D.misses disks.new ≡ D.misses disks.old }
    ensures missed { IfErr result (λ fault. AtMissed fault ⊥) }
    ensures calls { (w : World) → IsTextOf w.shape name.now bytes.now (value_of w name.now) → RightWork D.Disks w disks.old disks.new (IfErr result (λ fault. AtMissed fault ⊥)) }
    ensures others { (shape : Shape) → OnTold (OthersStay (nodes_for (record { shape = shape; schedule = schedule.now }) own table.old.up (holders name.now table.old))) (D.told disks.old) (D.told disks.new) }
    ensures damage_shown { D.shows_damage disks.old → D.shows_damage disks.new }
    ensures soundness_kept { D.sound disks.old → D.sound disks.new }
{
    let further = Further {
        name,
        bytes,
        up: table.up(),
        holders: table.where_is(name),
    };
    let most = schedule.copies.saturating_sub(further.holders.count());
    match write_between(alloc, disks, table, &further, own + 1, schedule.nodes, most) {
        Ok(left) => match write_between(alloc, disks, table, &further, 0, own, left) {
            Ok(_left) => Ok(()),
            Err(fault) => Err(fault),
        },
        Err(fault) => Err(fault),
    }
}

/// A file that goes to further nodes, the nodes that are up, and those of them that hold it.
#[derive(Drop)]
struct Further<'a> {
    name: &'a Name,
    bytes: &'a [u8],
    up: NodeSet,
    holders: NodeSet,
}

impl<'a> Model for Further<'a> {
    ghost use Rattle.replica_table.specs.Sets.{members};
    ghost use Rattle.valid_copies.specs.steps.Further.{Further as SeenFurther};

    ghost Value = { SeenFurther };

    ghost view = { λ f. record { name = f.name.now; bytes = f.bytes.now; up = members f.up.0; holders = members f.holders.0 } };
}

impl<'a> Further<'a> {
    /// Whether a node is up and does not hold the file.
    fn may_get(&self, node: u32) -> bool
        ensures { result ≡ may_get self.now.up self.now.holders node }
    {
        self.up.has(node) && !self.holders.has(node)
    }
}

/// Writes a file on nodes from one on and below another, those that may get it, but no more than a number: how many are
/// left of that number.
fn write_between<D: Disks>(
    alloc: Global,
    disks: &mut D,
    table: &mut Table,
    further: &Further,
    from: u32,
    to: u32,
    most: u32,
) -> Result<u32, WorkFault>
    requires below { from ≤ to }
    requires within { to ≤ table.old.nodes }
    ensures written { OnOk result (Wrote (D.told disks.old) table.old (writes_between further.now from to most) table.new (D.told disks.new)) }
    ensures left { IfOk result (λ left. left ≡ most - length (nodes_between further.now from to most)) }
    ensures begun { OnErr result (WroteSome (D.told disks.old) table.old (writes_between further.now from to most) table.new (D.told disks.new)) }
    ensures valid { OnOk result ((w : World) → IsTextOf w.shape further.now.name further.now.bytes (value_of w further.now.name) → Stands w table.old.copies (D.told disks.old) → Stands w table.new.copies (D.told disks.new)) }
    ensures faults_stay { D.faults disks.old ≤ D.faults disks.new }
    ensures misses_stay { D.misses disks.old ≤ D.misses disks.new }
    ensures device { IfErr result (λ fault. AtDevice fault (Rose (D.faults disks.old) (D.faults disks.new))) }
    ensures not_missed { IsSome (D.told disks.old) → D.misses disks.new ≡ D.misses disks.old }
    ensures missed { IfErr result (λ fault. AtMissed fault ⊥) }
    ensures calls { (w : World) → IsTextOf w.shape further.now.name further.now.bytes (value_of w further.now.name) → RightWork D.Disks w disks.old disks.new (IfErr result (λ fault. AtMissed fault ⊥)) }
    ensures others { OnTold (OthersStay (nodes_between further.now from to most)) (D.told disks.old) (D.told disks.new) }
    ensures damage_shown { D.shows_damage disks.old → D.shows_damage disks.new }
    ensures soundness_kept { D.sound disks.old → D.sound disks.new }
{
    let mut left = most;
    'nodes: for node in from..to {
        if left > 0 && further.may_get(node) {
            match write_copy(alloc, disks, table, node, further.name, further.bytes) {
                Ok(()) => left -= 1,
                Err(fault) => return Err(fault),
            }
        }
    }
    Ok(left)
}
