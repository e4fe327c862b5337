ghost use Rattle.std.specs.Prelude.{◌≡◌, ℕ, ◌+◌, [], ◌++◌, Some, IfOk, OnOk, decimal};
ghost use Rattle.std.specs.List.{flat_map};
ghost use Rattle.counter_report.specs.Reports as spec;
ghost use Rattle.counter_report.specs.Tallies.{capped, end_by, tally};
ghost use Rattle.counter_report.specs.steps.Counting.{counted};

use crate::journal::{EndWord, Entry, Journal};
use hal_base::{Memory, append_number};
use node_names::Task;
use std::alloc::Global;

/// How a run ended; `Unended` where its journal has no end.
#[derive(Clone, Copy)]
pub enum End {
    Fixpoint,
    Close,
    Limit,
    Unended,
}

/// The counts of a journal. Each stops at the greatest `u64`. docs/FORMATS.md, "Reports".
#[derive(Clone, Copy)]
pub struct Report {
    /// The round of the last end; without one the round that began last, or 0.
    pub rounds: u64,
    pub end: End,
    /// Commits of maps.
    pub maps: u64,
    /// Commits of reduces.
    pub reduces: u64,
    /// Commits of tests.
    pub tests: u64,
    pub fails: u64,
    pub kills: u64,
    pub starved: u64,
    pub dropped: u64,
    /// Events that did not apply.
    pub skipped: u64,
    /// Copies that were missed.
    pub struck: u64,
    /// Files that commits read from their own node.
    pub local: u64,
    /// Files that commits read from other nodes.
    pub remote: u64,
    /// Caches that reduces read.
    pub ric: u64,
    /// Caches that maps read.
    pub mic: u64,
    /// Caches that tests read.
    pub roc: u64,
}

/// The counts of a journal, for its report. docs/FORMATS.md, "Reports".
pub fn tally(journal: &Journal) -> Report
    ensures { result ≡ tally journal.now }
{
    let mut report = empty();
    'entries: for entry in journal.as_slice() {
        report.count(entry);
    }
    report
}

/// The counts of the journal without entries.
fn empty() -> Report
    ensures { result ≡ tally [] }
{
    Report {
        rounds: 0,
        end: End::Unended,
        maps: 0,
        reduces: 0,
        tests: 0,
        fails: 0,
        kills: 0,
        starved: 0,
        dropped: 0,
        skipped: 0,
        struck: 0,
        local: 0,
        remote: 0,
        ric: 0,
        mic: 0,
        roc: 0,
    }
}

impl Report {
    /// Counts one more entry.
    fn count(&mut self, entry: &Entry)
        ensures { self.new ≡ counted self.old entry.now }
    {
        match *entry {
            Entry::Round { round } => self.begin(round),
            Entry::Commit {
                task,
                local,
                remote,
                caches,
                ..
            } => self.commit(task, local, remote, caches),
            Entry::Starve { .. } => add(&mut self.starved, 1),
            Entry::Fail { .. } => add(&mut self.fails, 1),
            Entry::Kill { .. } => add(&mut self.kills, 1),
            Entry::Dropped { .. } => add(&mut self.dropped, 1),
            Entry::Struck { .. } => add(&mut self.struck, 1),
            Entry::Skip { .. } => add(&mut self.skipped, 1),
            Entry::End { word, round } => {
                self.rounds = u64::from(round);
                self.end = end_of(word);
            }
            Entry::Start { .. }
            | Entry::Lose { .. }
            | Entry::Back { .. }
            | Entry::Wipe { .. }
            | Entry::Busy { .. }
            | Entry::Idle { .. } => {}
        }
    }

    /// Counts a round that begins; an end that was told counts before it.
    fn begin(&mut self, round: u32)
        ensures { self.new ≡ counted self.old (Entry.Round round) }
    {
        match self.end {
            End::Unended => self.rounds = u64::from(round),
            End::Fixpoint | End::Close | End::Limit => {}
        }
    }

    /// Counts a commit, on whatever node.
    fn commit(&mut self, task: Task, local: u64, remote: u64, caches: u64)
        ensures { self.new ≡ counted self.old (Entry.Commit task 0 local remote caches) }
    {
        add(&mut self.local, local);
        add(&mut self.remote, remote);
        match task {
            Task::Map { .. } => {
                add(&mut self.maps, 1);
                add(&mut self.mic, caches);
            }
            Task::Reduce { .. } => {
                add(&mut self.reduces, 1);
                add(&mut self.ric, caches);
            }
            Task::Test { .. } => {
                add(&mut self.tests, 1);
                add(&mut self.roc, caches);
            }
        }
    }
}

/// Adds to a count, which stops at the greatest `u64`.
fn add(count: &mut u64, more: u64)
    ensures { count.new ≡ capped (count.old + more) }
{
    *count = count.saturating_add(more);
}

fn end_of(word: EndWord) -> End
    ensures { (round : ℕ) → result ≡ end_by (Some (word, round)) }
{
    match word {
        EndWord::Fixpoint => End::Fixpoint,
        EndWord::Close => End::Close,
        EndWord::Limit => End::Limit,
    }
}

/// The text of a report: sixteen lines. docs/FORMATS.md, "Reports".
pub fn report_text(alloc: Global, report: &Report) -> Result<Vec<u8>, Memory>
    ensures { IfOk result (λ text. text.items ≡ spec.report_text report.now) }
{
    let mut text = Vec::new(alloc);
    push_outcome(&mut text, report)?;
    push_attempts(&mut text, report)?;
    push_losses(&mut text, report)?;
    push_reads(&mut text, report)?;
    Ok(text)
}

/// Adds how the run ended, and in which round.
fn push_outcome(out: &mut Vec<u8>, report: &Report) -> Result<(), Memory>
    ensures { OnOk result (out.new.items ≡ out.old.items ++ flat_map spec.saying_line (spec.outcome report.now)) }
{
    push_count(out, b"rounds", report.rounds)?;
    push_line(out, b"end", end_text(report.end))
}

/// Adds how many attempts committed or failed.
fn push_attempts(out: &mut Vec<u8>, report: &Report) -> Result<(), Memory>
    ensures { OnOk result (out.new.items ≡ out.old.items ++ flat_map spec.saying_line (spec.attempts report.now)) }
{
    push_count(out, b"maps", report.maps)?;
    push_count(out, b"reduces", report.reduces)?;
    push_count(out, b"tests", report.tests)?;
    push_count(out, b"fails", report.fails)
}

/// Adds how many attempts were lost otherwise, and how many events and copies.
fn push_losses(out: &mut Vec<u8>, report: &Report) -> Result<(), Memory>
    ensures { OnOk result (out.new.items ≡ out.old.items ++ flat_map spec.saying_line (spec.losses report.now)) }
{
    push_count(out, b"kills", report.kills)?;
    push_count(out, b"starved", report.starved)?;
    push_count(out, b"dropped", report.dropped)?;
    push_count(out, b"skipped", report.skipped)?;
    push_count(out, b"struck", report.struck)
}

/// Adds how many files were read, and how many caches.
fn push_reads(out: &mut Vec<u8>, report: &Report) -> Result<(), Memory>
    ensures { OnOk result (out.new.items ≡ out.old.items ++ flat_map spec.saying_line (spec.reads report.now)) }
{
    push_count(out, b"local", report.local)?;
    push_count(out, b"remote", report.remote)?;
    push_count(out, b"ric", report.ric)?;
    push_count(out, b"mic", report.mic)?;
    push_count(out, b"roc", report.roc)
}

/// Adds a line of a name and a number.
fn push_count(out: &mut Vec<u8>, name: &[u8], count: u64) -> Result<(), Memory>
    ensures { OnOk result (out.new.items ≡ out.old.items ++ spec.saying_line (name.now, decimal count)) }
{
    out.extend_from_slice(name)?;
    append_number(out, b" ", count)?;
    Ok(out.push(b'\n')?)
}

/// Adds a line of a name and a word.
fn push_line(out: &mut Vec<u8>, name: &[u8], word: &[u8]) -> Result<(), Memory>
    ensures { OnOk result (out.new.items ≡ out.old.items ++ spec.saying_line (name.now, word.now)) }
{
    out.extend_from_slice(name)?;
    out.push(b' ')?;
    out.extend_from_slice(word)?;
    Ok(out.push(b'\n')?)
}

fn end_text(end: End) -> &'static [u8]
    ensures { result.now ≡ spec.ending_text end }
{
    match end {
        End::Fixpoint => b"fixpoint",
        End::Close => b"close",
        End::Limit => b"limit",
        End::Unended => b"open",
    }
}
