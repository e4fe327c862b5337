ghost use Rattle.std.specs.Prelude.{◌≡◌, ◌++◌, ◌∷◌, [], IfOk, IfErr, OnOk, OnErr, string_bytes};
ghost use Rattle.hal_base.specs.Lines.{table_text};
ghost use Rattle.hal_outside.specs.Told.{AfterFailedWrite};
ghost use Rattle.hal_outside.specs.Faults.{AtFileDevice};
ghost use Rattle.hal_outside.specs.Calls.{Changes, CountsStay, FaultsRose};
ghost use Rattle.haloop_run.specs.Outputs as outputs;
ghost use Rattle.haloop_run.specs.steps.Outputs.{PartWritten, Written, WrittenPart};

use hal_base::{Memory, Parts, Records, lines};
use hal_outside::{FileFault, Files};
use std::alloc::Global;

/// Writes each part into its file in a folder, in order.
pub(crate) fn write_parts<F: Files>(
    alloc: Global,
    out: &str,
    parts: &Parts,
    files: &mut F,
) -> Result<(), FileFault>
    ensures counts { CountsStay F.Files files.old files.new }
    ensures written { OnOk result (Changes F.Files (Written out.now parts.now) files.old files.new) }
    ensures device { IfErr result (λ fault. AtFileDevice fault (FaultsRose F.Files files.old files.new)) }
    ensures partly { OnErr result (Changes F.Files (WrittenPart out.now parts.now) files.old files.new) }
{
    'parts: for (number, rows) in parts.as_slice().iter().enumerate() {
        write_part(alloc, out, number, rows, files)?;
    }
    Ok(())
}

fn write_part<F: Files>(
    alloc: Global,
    out: &str,
    number: usize,
    rows: &Records,
    files: &mut F,
) -> Result<(), FileFault>
    ensures counts { CountsStay F.Files files.old files.new }
    ensures written { OnOk result (Changes F.Files (PartWritten out.now number rows.now) files.old files.new) }
    ensures device { IfErr result (λ fault. AtFileDevice fault (FaultsRose F.Files files.old files.new)) }
    ensures partly { OnErr result (AfterFailedWrite (F.told files.old) (outputs.part_name out.now number) (table_text rows.now) (F.told files.new)) }
{
    let text = lines(alloc, rows)?;
    let name = part_name(alloc, out, number)?;
    files.write(name.as_str(), text.as_slice())
}

/// The name of a part file in a folder. docs/FORMATS.md, "Part files".
fn part_name(alloc: Global, out: &str, number: usize) -> Result<String, Memory>
    ensures { IfOk result (λ name. string_bytes name ≡ outputs.part_name out.now number) }
{
    let mut name = String::from_str(alloc, out)?;
    name.push_str("/part-")?;
    name.push(digit(number / 10000))?;
    name.push(digit(number / 1000))?;
    name.push(digit(number / 100))?;
    name.push(digit(number / 10))?;
    name.push(digit(number))?;
    Ok(name)
}

/// The last digit of a number.
fn digit(number: usize) -> char
    ensures { result ≡ outputs.digit number }
{
    (b'0' + (number % 10) as u8) as char
}
