ghost use Rattle.std.specs.Prelude.{◌≡◌, ◌≤◌, ◌+◌, ◌||◌, ◌↔◌, is_err, min, Any, IfErr, IsTrue};
ghost use Rattle.std.specs.List.{list_any};
ghost use Rattle.hal_outside.specs.Told.{Rose};
ghost use Rattle.hal_outside.specs.Faults.{AtDiskDevice};
ghost use Rattle.hal_outside.specs.Scripts as script;

use crate::faults::{DeviceFault, DiskFault};
use hal_base::Items;
use node_names::{Name, NameKind};

/// Something that goes wrong on disks. Calls and writes count from 1. docs/CLUSTER.md, "Disks".
#[derive(Drop)]
pub enum Act {
    /// The call of this number fails.
    FailAt(u64),
    /// The write of this number fails.
    FailWrite(u64),
    /// This file is spoilt after its first write.
    SpoilFirst { node: u32, name: Name },
    /// Each file whose name is of this sort is spoilt after each write.
    SpoilKind(NameKind),
    /// Each file is spoilt after each write.
    SpoilAll,
}

/// What goes wrong.
pub type Acts = Items<Act>;

/// The acts, and how many calls, writes and failures there were. Each count stops at its last value.
#[derive(Drop)]
pub(crate) struct Script {
    pub(crate) acts: Acts,
    pub(crate) calls: u64,
    pub(crate) writes: u64,
    pub(crate) faults: u64,
}

impl Script {
    pub(crate) fn new(acts: Acts) -> Script
        ensures { result.faults ≡ 0 }
    {
        Script {
            acts,
            calls: 0,
            writes: 0,
            faults: 0,
        }
    }

    /// Counts a call that is no write, and fails it where an act says so.
    pub(crate) fn begin_call(&mut self) -> Result<(), DiskFault>
        ensures scripted { is_err result ≡ list_any (script.fails_call self.new.calls) self.new.acts }
        ensures counted { self.new.calls ≡ min (self.old.calls + 1) u64.MAX }
        ensures faults_stay { self.old.faults ≤ self.new.faults }
        ensures device { IfErr result (λ fault. AtDiskDevice fault (Rose self.old.faults self.new.faults)) }
    {
        self.calls = self.calls.saturating_add(1);
        if fails_call(&self.acts, self.calls) {
            return Err(self.failure());
        }
        Ok(())
    }

    /// Counts a write, and fails it where an act says so.
    pub(crate) fn begin_write(&mut self) -> Result<(), DiskFault>
        ensures scripted { is_err result ≡ list_any (script.fails_call self.new.calls) self.new.acts || list_any (script.fails_write self.new.writes) self.new.acts }
        ensures counted { self.new.calls ≡ min (self.old.calls + 1) u64.MAX }
        ensures writes_counted { self.new.writes ≡ min (self.old.writes + 1) u64.MAX }
        ensures faults_stay { self.old.faults ≤ self.new.faults }
        ensures device { IfErr result (λ fault. AtDiskDevice fault (Rose self.old.faults self.new.faults)) }
    {
        self.calls = self.calls.saturating_add(1);
        self.writes = self.writes.saturating_add(1);
        if fails_call(&self.acts, self.calls) || fails_write(&self.acts, self.writes) {
            return Err(self.failure());
        }
        Ok(())
    }

    /// Counts a failure. Its code is that of the system for input and output.
    fn failure(&mut self) -> DiskFault
        ensures stay { self.old.faults ≤ self.new.faults }
        ensures rose { Rose self.old.faults self.new.faults }
        ensures kept { self.new ≡ record self.old { faults = self.new.faults } }
    {
        self.faults = self.faults.saturating_add(1);
        DiskFault::Device(DeviceFault { code: 5 })
    }

    /// Whether the file is to be spoilt that was just written, for the first time or again.
    pub(crate) fn spoils(&self, node: u32, name: &Name, first: bool) -> bool
        ensures { IsTrue result ↔ Any (script.AsksToSpoil node name.now first) self.now.acts }
    {
        self.acts
            .as_slice()
            .iter()
            .any(|act| spoils(act, node, name, first))
    }
}

fn fails_call(acts: &Acts, number: u64) -> bool
    ensures { result ≡ list_any (script.fails_call number) acts.now }
{
    acts.as_slice()
        .iter()
        .any(|act| act_fails_call(act, number))
}

fn act_fails_call(act: &Act, number: u64) -> bool
    ensures { result ≡ script.fails_call number act.now }
{
    match act {
        Act::FailAt(at) => *at == number,
        Act::FailWrite(_) | Act::SpoilFirst { .. } | Act::SpoilKind(_) | Act::SpoilAll => false,
    }
}

fn fails_write(acts: &Acts, number: u64) -> bool
    ensures { result ≡ list_any (script.fails_write number) acts.now }
{
    acts.as_slice()
        .iter()
        .any(|act| act_fails_write(act, number))
}

fn act_fails_write(act: &Act, number: u64) -> bool
    ensures { result ≡ script.fails_write number act.now }
{
    match act {
        Act::FailWrite(at) => *at == number,
        Act::FailAt(_) | Act::SpoilFirst { .. } | Act::SpoilKind(_) | Act::SpoilAll => false,
    }
}

fn spoils(act: &Act, node: u32, name: &Name, first: bool) -> bool
    ensures { IsTrue result ↔ script.AsksToSpoil node name.now first act.now }
{
    match act {
        Act::FailAt(_) | Act::FailWrite(_) => false,
        Act::SpoilFirst { node: n, name: m } => first && node == *n && *name == *m,
        Act::SpoilKind(kind) => name.kind() == *kind,
        Act::SpoilAll => true,
    }
}
