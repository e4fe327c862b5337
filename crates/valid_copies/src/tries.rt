ghost use Rattle.std.specs.Prelude.{◌<◌, ◌≡◌, [], IfNone, IfSome, option_map};
ghost use Rattle.replica_table.specs.Copies.{held, holders};
ghost use Rattle.valid_copies.specs.Files.{IsFirstTry, IsUpFile, try_of};
ghost use Rattle.valid_copies.specs.Readings.{IsFile};
ghost use Rattle.valid_copies.specs.steps.Tries.{first_file, held_file, kept_file, up_file};

use crate::desk::Desk;
use node_files::FileRef;
use node_names::Name;
use replica_table::Table;

/// The file that is tried first for a need: the one on the own node, of a block its cache there, or else the one on the
/// lowest node that is up. `None` where there is none of them.
pub fn first_try(desk: &Desk, name: &Name) -> Option<FileRef>
    requires { desk.now.own < desk.now.table.nodes }
    ensures first { IsFirstTry desk.now name.now (option_map try_of result) }
    ensures file { IsFile name.now → IfSome result (λ file. IsFile file.name) }
    ensures kept { IfSome result (λ file. held file.name file.node desk.now.table.copies ≡ Some file.digest) }
{
    first_file(desk.table, desk.own, name)
}

fn first_file(table: &Table, own: u32, name: &Name) -> Option<FileRef>
    requires { own < table.now.nodes }
    ensures { result ≡ first_file table.now own name.now }
{
    if let Some(file) = held_file(table, own, name) {
        return Some(file);
    }
    match kept_file(table, own, name) {
        Some(file) => Some(file),
        None => up_file(table, name),
    }
}

/// The file of a name on a node, if it is there.
fn held_file(table: &Table, node: u32, name: &Name) -> Option<FileRef>
    requires { node < table.now.nodes }
    ensures { result ≡ held_file table.now node name.now }
{
    match table.held(name, node) {
        Some(digest) => Some(FileRef {
            node,
            name: *name,
            digest,
        }),
        None => None,
    }
}

/// The cache of a block on a node, if the name is that of a block and the cache is there.
fn kept_file(table: &Table, node: u32, name: &Name) -> Option<FileRef>
    requires { node < table.now.nodes }
    ensures { result ≡ kept_file table.now node name.now }
{
    match *name {
        Name::Blk {
            table: number,
            block,
        } => held_file(
            table,
            node,
            &Name::Mic {
                table: number,
                block,
            },
        ),
        _ => None,
    }
}

/// The file on the lowest node that is up and holds it. `None` exactly where no up node does.
pub fn up_file(table: &Table, name: &Name) -> Option<FileRef>
    ensures step { result ≡ up_file table.now name.now }
    ensures none { IfNone result (holders name.now table.now ≡ []) }
    ensures lowest { IfSome result (IsUpFile table.now name.now) }
    ensures there { IfSome result (λ file. file.node < table.now.nodes) }
{
    match table.where_is(name).nth(0) {
        Some(node) => held_file(table, node, name),
        None => None,
    }
}
