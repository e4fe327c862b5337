ghost use Rattle.std.specs.Prelude.{◌≡◌, ℕ, ◌↔◌, List, [], ◌∷◌, Option, map, IsTrue, IfOk, OnOk, OnErr};
ghost use Rattle.std.specs.Option.{option_copied};
ghost use Rattle.hal_outside.specs.DiskFiles.{file_at};
ghost use Rattle.hal_outside.specs.DiskCalls as call;
ghost use Rattle.hal_outside.specs.DiskCalls.{answer_of};
ghost use Rattle.hal_outside.specs.DiskTold.{IsAnswer, IsWanted};
ghost use Rattle.hal_outside.specs.DiskSteps.{Step, called, now_after};
ghost use Rattle.hal_outside.specs.steps.DiskLogs.{IsWriteOf, Tells, WasWritten, answer_kept, call_of, settled, step_of, steps_of};

use crate::answers::answer_with;
use crate::got::Got;
use hal_base::{Items, Memory};
use node_names::{Digest, Name};
use std::alloc::Global;
use std::collections::VecDeque;
use std::marker::Model;

/// Why something happened to the files.
#[derive(Clone, Copy)]
pub enum Cause {
    /// A call.
    Call,
    /// A file was damaged, of which what was put does not tell.
    Damage,
    /// It was there before the disks came under a script.
    Earlier,
}

/// A call as it is kept.
#[derive(Drop)]
pub enum Deed {
    Write {
        node: u32,
        name: Name,
        bytes: Items<u8>,
    },
    Read {
        node: u32,
        name: Name,
        want: Digest,
        answer: Answered,
    },
    Remove {
        node: u32,
        name: Name,
    },
    Wipe {
        node: u32,
    },
}

/// What a read was answered. The bytes of the file are those of its last write.
#[derive(Clone, Copy)]
pub enum Answered {
    Same,
    Gone,
    Other,
}

#[derive(Drop)]
pub struct Entry {
    cause: Cause,
    deed: Deed,
}

/// What one entry by itself tells of a file: its bytes, that there is none, or nothing.
pub enum Sight<'a> {
    Found(&'a Items<u8>),
    Gone,
    Further,
}

/// What happened to the files, the newest first.
#[derive(Drop)]
pub struct Log {
    entries: VecDeque<Entry>,
}

impl Model for Log {
    ghost use Rattle.std.specs.Prelude.{List};
    ghost use Rattle.hal_outside.specs.DiskSteps.{Step};

    ghost Value = { List Step };

    ghost use Rattle.hal_outside.specs.steps.DiskLogs.{steps_of};

    ghost view = { λ log. steps_of log.entries.items };
}

impl Log {
    pub fn new(alloc: Global) -> Log
        ensures { result ≡ [] }
    {
        Log {
            entries: VecDeque::new(alloc),
        }
    }

    /// After `Memory` nothing was added.
    pub fn add(&mut self, cause: Cause, deed: Deed) -> Result<(), Memory>
        ensures added { OnOk result (self.new ≡ step_of self.old cause deed ∷ self.old) }
        ensures unchanged { OnErr result (self.new ≡ self.old) }
    {
        self.entries
            .push_front(Entry { cause, deed })
            .map_err(|_| Memory)
    }

    /// The bytes of a file, if it is there.
    pub fn find(&self, node: u32, name: &Name) -> Option<&Items<u8>>
        ensures { option_copied result ≡ file_at (now_after self.now) node name.now }
    {
        find(&self.entries, node, name)
    }

    /// From now on all is as it was before.
    pub fn settle(&mut self)
        ensures { self.new ≡ map settled self.old }
    {
        settle(&mut self.entries);
    }

    /// Whether a call has written this file.
    pub fn was_written(&self, node: u32, name: &Name) -> bool
        ensures { IsTrue result ↔ WasWritten node name.now self.now }
    {
        was_written(&self.entries, node, name)
    }

    /// After `Memory` nothing has changed.
    pub fn write(
        &mut self,
        alloc: Global,
        node: u32,
        name: &Name,
        bytes: &[u8],
    ) -> Result<(), Memory>
        ensures written { OnOk result (self.new ≡ called (call.Write node name.now bytes.now) ∷ self.old) }
        ensures unchanged { OnErr result (self.new ≡ self.old) }
    {
        let bytes = kept(alloc, bytes)?;
        self.add(
            Cause::Call,
            Deed::Write {
                node,
                name: *name,
                bytes,
            },
        )
    }

    /// The bytes of a file, if it has the wanted digest. After `Memory` nothing has changed.
    pub fn read(
        &mut self,
        alloc: Global,
        node: u32,
        name: &Name,
        want: &Digest,
    ) -> Result<Got, Memory>
        ensures answer { IfOk result (λ got. IsAnswer (file_at (now_after self.old) node name.now) want.now.0 (answer_of got)) }
        ensures wanted { IfOk result (λ got. IsWanted want.now.0 (answer_of got)) }
        ensures read { IfOk result (λ got. self.new ≡ called (call.Read node name.now want.now.0 (answer_of got)) ∷ self.old) }
        ensures unchanged { OnErr result (self.new ≡ self.old) }
    {
        let got = got_of(alloc, self.find(node, name), want)?;
        let deed = Deed::Read {
            node,
            name: *name,
            want: *want,
            answer: answer_to_keep(&got),
        };
        self.add(Cause::Call, deed)?;
        Ok(got)
    }

    /// After `Memory` nothing has changed.
    pub fn remove(&mut self, node: u32, name: &Name) -> Result<(), Memory>
        ensures removed { OnOk result (self.new ≡ called (call.Remove node name.now) ∷ self.old) }
        ensures unchanged { OnErr result (self.new ≡ self.old) }
    {
        self.add(Cause::Call, Deed::Remove { node, name: *name })
    }

    /// After `Memory` nothing has changed.
    pub fn wipe(&mut self, node: u32) -> Result<(), Memory>
        ensures wiped { OnOk result (self.new ≡ called (call.Wipe node) ∷ self.old) }
        ensures unchanged { OnErr result (self.new ≡ self.old) }
    {
        self.add(Cause::Call, Deed::Wipe { node })
    }
}

pub fn kept(alloc: Global, bytes: &[u8]) -> Result<Items<u8>, Memory>
    ensures { IfOk result (λ kept. kept ≡ bytes.now) }
{
    Ok(Items::from_vec(Vec::from_slice(alloc, bytes)?))
}

/// What a read is answered where these bytes lie there, or none.
fn got_of(alloc: Global, bytes: Option<&Items<u8>>, want: &Digest) -> Result<Got, Memory>
    ensures answer { IfOk result (λ got. IsAnswer (option_copied bytes.entry) want.now.0 (answer_of got)) }
    ensures wanted { IfOk result (λ got. IsWanted want.now.0 (answer_of got)) }
{
    match bytes {
        Some(bytes) => {
            let copied = Vec::from_slice(alloc, bytes.as_slice())?;
            Ok(answer_with(copied, want))
        }
        None => Ok(Got::Gone),
    }
}

/// The answer as it is kept.
fn answer_to_keep(got: &Got) -> Answered
    ensures { (file : Option (List ℕ)) (want : List ℕ) → IsAnswer file want (answer_of got.now) → answer_kept file result ≡ answer_of got.now }
{
    match got {
        Got::Same(_) => Answered::Same,
        Got::Gone => Answered::Gone,
        Got::Other => Answered::Other,
    }
}

fn is_same_file(node: u32, name: &Name, other: u32, other_name: &Name) -> bool
    ensures { IsTrue result ↔ ((node ≡ other) × (name.now ≡ other_name.now)) }
{
    node == other && *name == *other_name
}

fn sight_of<'a>(entry: &'a Entry, node: u32, name: &Name) -> Sight<'a>
    ensures { (steps : List Step) → Tells result (call_of (now_after steps) entry.now.deed) node name.now }
{
    match &entry.deed {
        Deed::Write {
            node: n,
            name: m,
            bytes,
        } => {
            if is_same_file(node, name, *n, m) {
                Sight::Found(bytes)
            } else {
                Sight::Further
            }
        }
        Deed::Read { .. } => Sight::Further,
        Deed::Remove { node: n, name: m } => {
            if is_same_file(node, name, *n, m) {
                Sight::Gone
            } else {
                Sight::Further
            }
        }
        Deed::Wipe { node: n } => {
            if node == *n {
                Sight::Gone
            } else {
                Sight::Further
            }
        }
    }
}

fn find<'a>(entries: &'a VecDeque<Entry>, node: u32, name: &Name) -> Option<&'a Items<u8>>
    ensures { option_copied result ≡ file_at (now_after (steps_of entries.now.items)) node name.now }
{
    let mut at = 0;
    'entries: while at < entries.len() {
        match sight_of(&entries[at], node, name) {
            Sight::Found(bytes) => return Some(bytes),
            Sight::Gone => return None,
            Sight::Further => at += 1,
        }
    }
    None
}

fn settle(entries: &mut VecDeque<Entry>)
    ensures { steps_of entries.new.items ≡ map settled (steps_of entries.old.items) }
{
    'entries: for at in 0..entries.len() {
        entries[at].cause = Cause::Earlier;
    }
}

fn was_written(entries: &VecDeque<Entry>, node: u32, name: &Name) -> bool
    ensures { IsTrue result ↔ WasWritten node name.now (steps_of entries.now.items) }
{
    'entries: for at in 0..entries.len() {
        if is_write(&entries[at], node, name) {
            return true;
        }
    }
    false
}

/// Whether the entry is a call that writes this file.
fn is_write(entry: &Entry, node: u32, name: &Name) -> bool
    ensures { (steps : List Step) → IsTrue result ↔ IsWriteOf node name.now (step_of steps entry.now.cause entry.now.deed) }
{
    match (&entry.cause, &entry.deed) {
        (
            Cause::Call,
            Deed::Write {
                node: n,
                name: m,
                ..
            },
        ) => is_same_file(node, name, *n, m),
        _ => false,
    }
}
