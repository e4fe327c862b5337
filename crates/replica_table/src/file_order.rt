ghost use Rattle.std.specs.Prelude.{◌≡◌, refl};
ghost use Rattle.std.specs.Ordering.{as_partial_cmp, eq_by_cmp};
ghost use Rattle.std.specs.Cmp.{eq_by_cmp_equiv, partial_equiv_from_equiv, partial_order_from_agreeing_total};
ghost use Rattle.hal_base.specs.Sorted.{sorted};
ghost use Rattle.replica_table.specs.FileLaws.{file_cmp_total};
ghost use Rattle.replica_table.specs.FileOrder.{file_cmp, place};

use crate::file_on::FileOn;
use node_names::Name;
use std::cmp::Ordering;

/// The numbers by which files are compared: the kind of the name, its numbers, and the node.
fn place(file: &FileOn) -> [u32; 6]
    ensures { result ≡ place file.now }
{
    let node = file.node;
    match file.name {
        Name::Blk { table, block } => [0, table, block, node, 0, 0],
        Name::Spill {
            round,
            step,
            source,
            split,
        } => [1, round, step, source, split, node],
        Name::Out { round, step, part } => [2, round, step, part, node, 0],
        Name::Ric { step, source, part } => [3, step, source, part, node, 0],
        Name::Mic { table, block } => [4, table, block, node, 0, 0],
        Name::Roc { round, part } => [5, round, part, node, 0, 0],
    }
}

/// By the name, and then by the node.
fn compare_files(a: &FileOn, b: &FileOn) -> Ordering
    ensures { result ≡ file_cmp a.now b.now }
{
    place(a).cmp(&place(b))
}

/// The same files by name and then by node, in the memory that they have.
pub fn sort_files(files: Vec<FileOn>) -> Vec<FileOn>
    ensures { result.items ≡ sorted file_cmp files.items }
{
    let mut files = files;
    files.sort_unstable();
    files
}

impl PartialEq for FileOn {
    ghost eq = { eq_by_cmp file_cmp };

    fn eq(&self, other: &FileOn) -> bool {
        compare_files(self, other).is_eq()
    }

    ghost laws = { partial_equiv_from_equiv (eq_by_cmp_equiv file_cmp_total) };
}

impl Eq for FileOn {
    ghost laws = { eq_by_cmp_equiv file_cmp_total };
}

impl PartialOrd for FileOn {
    ghost partial_cmp = { as_partial_cmp file_cmp };

    fn partial_cmp(&self, other: &FileOn) -> Option<Ordering> {
        Some(compare_files(self, other))
    }

    ghost laws = { partial_order_from_agreeing_total file_cmp file_cmp_total (λ _ _. refl) (λ _ _. refl) };
}

impl Ord for FileOn {
    ghost cmp = { file_cmp };

    fn cmp(&self, other: &FileOn) -> Ordering {
        compare_files(self, other)
    }

    ghost total = { file_cmp_total };

    ghost matches_partial_cmp = { λ _ _. refl };

    ghost matches_eq = { λ _ _. refl };
}
