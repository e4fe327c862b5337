ghost use Rattle.std.specs.Prelude.{◌≡◌, ◌∷◌, [], ◌++◌, IfOk, OnOk, decimal};
ghost use Rattle.node_names.specs.Names.{name_text};
ghost use Rattle.node_names.specs.Tasks.{text_of_task};
ghost use Rattle.counter_report.specs.Journals as spec;
ghost use Rattle.counter_report.specs.Journals.{entry_text};

use crate::journal::{EndWord, Entry, EventWord, Journal};
use hal_base::{Memory, append_number};
use node_names::{Name, Task, file_name, task_text};
use std::alloc::Global;

/// The text of a journal: the line of each entry, ended by LF. docs/FORMATS.md, "Journals".
pub fn journal_text(alloc: Global, journal: &Journal) -> Result<Vec<u8>, Memory>
    ensures { IfOk result (λ text. text.items ≡ spec.journal_text journal.now) }
{
    let mut text = Vec::new(alloc);
    'entries: for entry in journal.as_slice() {
        push_entry(alloc, &mut text, entry)?;
        text.push(b'\n')?;
    }
    Ok(text)
}

fn push_entry(alloc: Global, out: &mut Vec<u8>, entry: &Entry) -> Result<(), Memory>
    ensures { OnOk result (out.new.items ≡ out.old.items ++ entry_text entry.now) }
{
    match *entry {
        Entry::Round { round } => push_node(out, b"round", round),
        Entry::Start { task, node } => push_attempt(alloc, out, b"start", &task, node),
        Entry::Commit {
            task,
            node,
            local,
            remote,
            caches,
        } => {
            push_attempt(alloc, out, b"commit", &task, node)?;
            push_reads(out, local, remote, caches)
        }
        Entry::Starve { task, node } => push_attempt(alloc, out, b"starve", &task, node),
        Entry::Fail { task, node, count } => {
            push_attempt(alloc, out, b"fail", &task, node)?;
            append_number(out, b" ", u64::from(count))
        }
        Entry::Kill { task, node } => push_attempt(alloc, out, b"kill", &task, node),
        Entry::Dropped { task, node } => push_attempt(alloc, out, b"drop", &task, node),
        Entry::Struck { name, node } => push_strike(alloc, out, &name, node),
        Entry::Lose { node } => push_node(out, b"lose", node),
        Entry::Back { node } => push_node(out, b"back", node),
        Entry::Wipe { node } => push_node(out, b"wipe", node),
        Entry::Busy { node } => push_node(out, b"busy", node),
        Entry::Idle { node } => push_node(out, b"idle", node),
        Entry::Skip { word, number } => push_numbered(out, b"skip", event_text(word), number),
        Entry::End { word, round } => push_numbered(out, b"end", end_text(word), round),
    }
}

/// Adds a word and the number of a node or round.
fn push_node(out: &mut Vec<u8>, word: &[u8], number: u32) -> Result<(), Memory>
    ensures { OnOk result (out.new.items ≡ out.old.items ++ (word.now ++ 32 ∷ decimal number)) }
{
    out.extend_from_slice(word)?;
    append_number(out, b" ", u64::from(number))
}

/// Adds two words and a number.
fn push_numbered(out: &mut Vec<u8>, word: &[u8], other: &[u8], number: u32) -> Result<(), Memory>
    ensures { OnOk result (out.new.items ≡ out.old.items ++ (word.now ++ 32 ∷ (other.now ++ 32 ∷ decimal number))) }
{
    out.extend_from_slice(word)?;
    out.push(b' ')?;
    push_node(out, other, number)
}

/// Adds a word, a task and a node.
fn push_attempt(
    alloc: Global,
    out: &mut Vec<u8>,
    word: &[u8],
    task: &Task,
    node: u32,
) -> Result<(), Memory>
    ensures { OnOk result (out.new.items ≡ out.old.items ++ (word.now ++ 32 ∷ (text_of_task task.now ++ 32 ∷ decimal node))) }
{
    let task = task_text(alloc, task)?;
    push_numbered(out, word, task.as_bytes(), node)
}

/// Adds a miss of a file on a node.
fn push_strike(alloc: Global, out: &mut Vec<u8>, name: &Name, node: u32) -> Result<(), Memory>
    ensures { OnOk result (out.new.items ≡ out.old.items ++ entry_text (Entry.Struck name.now node)) }
{
    let name = file_name(alloc, name)?;
    push_numbered(out, b"struck", name.as_bytes(), node)
}

/// Adds what a commit read.
fn push_reads(out: &mut Vec<u8>, local: u64, remote: u64, caches: u64) -> Result<(), Memory>
    ensures { OnOk result (out.new.items ≡ out.old.items ++ (32 ∷ (decimal local ++ 32 ∷ (decimal remote ++ 32 ∷ decimal caches)))) }
{
    append_number(out, b" ", local)?;
    append_number(out, b" ", remote)?;
    append_number(out, b" ", caches)
}

fn event_text(word: EventWord) -> &'static [u8]
    ensures { result.now ≡ spec.event_text word }
{
    match word {
        EventWord::Done => b"done",
        EventWord::Fail => b"fail",
        EventWord::Lose => b"lose",
        EventWord::Back => b"back",
        EventWord::Wipe => b"wipe",
        EventWord::Busy => b"busy",
        EventWord::Idle => b"idle",
        EventWord::Round => b"round",
    }
}

fn end_text(word: EndWord) -> &'static [u8]
    ensures { result.now ≡ spec.end_text word }
{
    match word {
        EndWord::Fixpoint => b"fixpoint",
        EndWord::Close => b"close",
        EndWord::Limit => b"limit",
    }
}
