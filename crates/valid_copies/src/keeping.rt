ghost use Rattle.std.specs.Prelude.{◌≡◌, ◌<◌, ◌≤◌, false, [], ◌∷◌, List, Option, Some, IfErr, IfOk, IfSome, IsSome, OnErr, OnOk};
ghost use Rattle.hal_outside.specs.DiskCalls as call;
ghost use Rattle.hal_outside.specs.DiskFiles.{file_at};
ghost use Rattle.hal_outside.specs.DiskTold.{DiskTold, Done, Lacks, NotDone, NotRead};
ghost use Rattle.hal_outside.specs.Faults.{AtDiskDevice};
ghost use Rattle.hal_outside.specs.Told.{OnTold, Rose};
ghost use Rattle.node_files.specs.Faults.{AtDevice};
ghost use Rattle.node_files.specs.KeptFiles.{HasDigest, IsFetched, IsFound, OnMissed, file_of};
ghost use Rattle.replica_table.specs.Copies.{Copy, but_file, but_node, held, with_copy};
ghost use Rattle.replica_table.specs.Sets.{among};
ghost use Rattle.valid_copies.specs.LastWrites.{ReadsCopies};
ghost use Rattle.valid_copies.specs.Readings.{IsTextOf};
ghost use Rattle.valid_copies.specs.RightCalls.{RightWork};
ghost use Rattle.valid_copies.specs.Stands.{IsText, OthersStay, Stands, copy_of_bytes};
ghost use Rattle.valid_copies.specs.Texts.{text_of};
ghost use Rattle.name_values.specs.Values.{World, value_of};

use hal_outside::{DiskFault, Disks};
use node_files::{Fault, Fetched, FileRef, fetch, put};
use node_names::Name;
use replica_table::Table;
use std::alloc::Global;

/// Sets a file of a node to the text of its name. Copies that are valid stay so, with this one in the place of an older
/// one. docs/CLUSTER.md, "Valid copies".
pub fn put_copy<D: Disks>(
    alloc: Global,
    disks: &mut D,
    node: u32,
    name: &Name,
    bytes: &[u8],
) -> Result<FileRef, Fault>
    ensures file { IfOk result (λ file. file ≡ file_of node name.now bytes.now) }
    ensures faults_stay { D.faults disks.old ≤ D.faults disks.new }
    ensures misses_stay { D.misses disks.old ≤ D.misses disks.new }
    ensures device { IfErr result (λ fault. AtDevice fault (Rose (D.faults disks.old) (D.faults disks.new))) }
    ensures not_missed { IsSome (D.told disks.old) → D.misses disks.new ≡ D.misses disks.old }
    ensures done { OnOk result (OnTold (Done (call.Write node name.now bytes.now)) (D.told disks.old) (D.told disks.new)) }
    ensures failed { OnErr result (OnTold (NotDone (call.Write node name.now bytes.now)) (D.told disks.old) (D.told disks.new)) }
    ensures valid { OnOk result ((w : World) (copies : List Copy) → IsTextOf w.shape name.now bytes.now (value_of w name.now) → Stands w copies (D.told disks.old) → Stands w (with_copy (copy_of_bytes name.now node bytes.now) copies) (D.told disks.new)) }
    ensures calls { (w : World) → IsTextOf w.shape name.now bytes.now (value_of w name.now) → RightWork D.Disks w disks.old disks.new (Unit {0}) }
    ensures others { OnTold (OthersStay (node ∷ [])) (D.told disks.old) (D.told disks.new) }
    ensures damage_shown { D.shows_damage disks.old → D.shows_damage disks.new }
    ensures soundness_kept { D.sound disks.old → D.sound disks.new }
{
    put(alloc, disks, node, name, bytes)
}

/// Reads a copy. Where the disks tell what they hold, show their damage, and the copies are valid, the bytes are the text
/// of its name, or it is missed; where they are sound, it is not missed. docs/CLUSTER.md, "Valid copies".
pub fn fetch_copy<D: Disks>(alloc: Global, disks: &mut D, file: &FileRef) -> Result<Fetched, Fault>
    ensures kept { IfOk result (HasDigest file.now.digest.0) }
    ensures faults_stay { D.faults disks.old ≤ D.faults disks.new }
    ensures misses_stay { D.misses disks.old ≤ D.misses disks.new }
    ensures device { IfErr result (λ fault. AtDevice fault (Rose (D.faults disks.old) (D.faults disks.new))) }
    ensures missed { IfOk result (λ fetched. OnMissed fetched (Rose (D.misses disks.old) (D.misses disks.new))) }
    ensures only_missed { IfSome (D.told disks.new) (λ new. D.misses disks.old < D.misses disks.new → Lacks (file_at new.now file.now.node file.now.name) file.now.digest.0) }
    ensures found { IfOk result (λ fetched. IfSome (D.told disks.new) (λ new. IsFound (file_at new.now file.now.node file.now.name) file.now.digest.0 fetched)) }
    ensures done { IfOk result (λ fetched. OnTold (IsFetched file.now fetched) (D.told disks.old) (D.told disks.new)) }
    ensures failed { OnErr result (OnTold (NotRead file.now.node file.now.name file.now.digest.0 (Rose (D.misses disks.old) (D.misses disks.new))) (D.told disks.old) (D.told disks.new)) }
    ensures text { D.shows_damage disks.old → IfOk result (λ found. (w : World) (copies : List Copy) → Stands w copies (D.told disks.old) → IsSome (D.told disks.old) → held file.now.name file.now.node copies ≡ Some file.now.digest → IsText (text_of w file.now.name) found) }
    ensures asked { (copies : List Copy) → held file.now.name file.now.node copies ≡ Some file.now.digest → ReadsCopies copies (D.told disks.old) (D.told disks.new) }
    ensures calls { (w : World) (copies : List Copy) → Stands w copies (D.told disks.old) → held file.now.name file.now.node copies ≡ Some file.now.digest → RightWork D.Disks w disks.old disks.new (IfOk result (λ found. OnMissed found ⊥)) }
    ensures valid { (w : World) (copies : List Copy) → Stands w copies (D.told disks.old) → Stands w copies (D.told disks.new) }
    ensures damage_shown { D.shows_damage disks.old → D.shows_damage disks.new }
    ensures soundness_kept { D.sound disks.old → D.sound disks.new }
{
    fetch(alloc, disks, file)
}

/// Strikes a copy of the table, as one that was missed. The others stay valid.
pub fn strike_copy(table: &mut Table, name: &Name, node: u32)
    requires { node < table.old.nodes }
    ensures struck { table.new ≡ record table.old { copies = but_file name.now node table.old.copies } }
    ensures valid { (w : World) (told : Option DiskTold) → Stands w table.old.copies told → Stands w table.new.copies told }
{
    table.strike(name, node);
}

/// Takes all files of a node that is down away, and its copies out of the table. The others stay valid.
pub fn wipe_node<D: Disks>(
    alloc: Global,
    disks: &mut D,
    table: &mut Table,
    node: u32,
) -> Result<(), DiskFault>
    requires there { node < table.old.nodes }
    requires down { among node table.old.up ≡ false }
    ensures faults_stay { D.faults disks.old ≤ D.faults disks.new }
    ensures misses_stay { D.misses disks.old ≤ D.misses disks.new }
    ensures device { IfErr result (λ fault. AtDiskDevice fault (Rose (D.faults disks.old) (D.faults disks.new))) }
    ensures not_missed { IsSome (D.told disks.old) → D.misses disks.new ≡ D.misses disks.old }
    ensures done { OnOk result (OnTold (Done (call.Wipe node)) (D.told disks.old) (D.told disks.new)) }
    ensures failed { OnErr result (OnTold (NotDone (call.Wipe node)) (D.told disks.old) (D.told disks.new)) }
    ensures wiped { OnOk result (table.new ≡ record table.old { copies = but_node node table.old.copies }) }
    ensures table_kept { OnErr result (table.new ≡ table.old) }
    ensures valid { OnOk result ((w : World) → Stands w table.old.copies (D.told disks.old) → Stands w table.new.copies (D.told disks.new)) }
    ensures damage_shown { D.shows_damage disks.old → D.shows_damage disks.new }
    ensures soundness_kept { D.sound disks.old → D.sound disks.new }
{
    disks.wipe(alloc, node)?;
    table.wipe(node);
    Ok(())
}
