ghost use Rattle.std.specs.Prelude.{◌≡◌, ◌+◌, ◌-◌, ◌^◌, ◌<◌, [], IfOk, IfErr, OnOk};
ghost use Rattle.schedule_text.specs.Faults.{IsFirst, faults_of_setting, given_or, setting_faults, whole_faults};
ghost use Rattle.schedule_text.specs.Lines.{setting_in};
ghost use Rattle.schedule_text.specs.steps.Heads.{behind_line, behind_saying, given_of, has, head_of, head_schedule, with_given};

use crate::fault::{ScheduleFault, ScheduleWhat};
use crate::lines::{is_skipped, said};
use crate::schedule::{Events, Schedule};
use crate::words::Setting;

/// A number that was given to a setting, and the line in which it was.
#[derive(Clone, Copy)]
pub(crate) struct Given {
    pub(crate) line: u64,
    pub(crate) number: u32,
}

/// What is given in the lines before the first event line.
#[derive(Clone, Copy)]
pub(crate) struct Head {
    nodes: Option<Given>,
    slots: Option<Given>,
    copies: Option<Given>,
    block: Option<Given>,
    attempts: Option<Given>,
    keep: Option<Given>,
}

impl Head {
    /// The head of no line.
    pub(crate) fn new() -> Head
        ensures { result ≡ head_of [] }
    {
        Head {
            nodes: None,
            slots: None,
            copies: None,
            block: None,
            attempts: None,
            keep: None,
        }
    }

    /// Takes the line of this number.
    pub(crate) fn take_line(&mut self, number: u64, line: &[u8]) -> Result<(), ScheduleFault>
        ensures right { OnOk result (setting_faults (has self.old) (number, line.now) ≡ []) }
        ensures taken { OnOk result (self.new ≡ behind_line self.old (number, line.now)) }
        ensures fault { IfErr result (λ fault. IsFirst fault (setting_faults (has self.old) (number, line.now))) }
    {
        if is_skipped(line) {
            return Ok(());
        }
        match self.take_setting(number, line) {
            Ok(()) => Ok(()),
            Err(what) => Err(ScheduleFault::At { line: number, what }),
        }
    }

    fn take_setting(&mut self, line_number: u64, line: &[u8]) -> Result<(), ScheduleWhat>
        ensures right { OnOk result (faults_of_setting (has self.old) line_number (setting_in line.now) ≡ []) }
        ensures taken { OnOk result (self.new ≡ behind_saying self.old line_number (setting_in line.now)) }
        ensures fault { IfErr result (λ what. IsFirst (ScheduleFault.At line_number what) (faults_of_setting (has self.old) line_number (setting_in line.now))) }
    {
        let (setting, number) = said::<Setting>(line)?;
        if self.given(setting).is_some() {
            return Err(ScheduleWhat::Twice);
        }
        if number < 1 || setting.most() < number {
            return Err(ScheduleWhat::OutOfRange);
        }
        self.give(
            setting,
            Given {
                line: line_number,
                number,
            },
        );
        Ok(())
    }

    fn given(&self, setting: Setting) -> Option<Given>
        ensures { result ≡ given_of self.now setting }
    {
        match setting {
            Setting::Nodes => self.nodes,
            Setting::Slots => self.slots,
            Setting::Copies => self.copies,
            Setting::Block => self.block,
            Setting::Attempts => self.attempts,
            Setting::Keep => self.keep,
        }
    }

    fn give(&mut self, setting: Setting, given: Given)
        ensures { self.new ≡ with_given self.old setting given }
    {
        let given = Some(given);
        match setting {
            Setting::Nodes => self.nodes = given,
            Setting::Slots => self.slots = given,
            Setting::Copies => self.copies = given,
            Setting::Block => self.block = given,
            Setting::Attempts => self.attempts = given,
            Setting::Keep => self.keep = given,
        }
    }

    /// The nodes of a head that is right as a whole, where so many lines stand before what is behind it.
    pub(crate) fn nodes(&self, lines: u64) -> Result<u32, ScheduleFault>
        requires { lines < 2 ^ 64 - 1 }
        ensures right { IfOk result (λ nodes. whole_faults (lines + 1) self.now.nodes self.now.copies ≡ []) }
        ensures nodes { IfOk result (λ nodes. nodes ≡ given_or self.now.nodes 0) }
        ensures fault { IfErr result (λ fault. IsFirst fault (whole_faults (lines + 1) self.now.nodes self.now.copies)) }
    {
        let Some(nodes) = self.nodes else {
            return Err(ScheduleFault::At {
                line: lines + 1,
                what: ScheduleWhat::Missing,
            });
        };
        if let Some(copies) = self.copies
            && nodes.number < copies.number
        {
            return Err(ScheduleFault::At {
                line: copies.line,
                what: ScheduleWhat::CopiesAboveNodes,
            });
        }
        Ok(nodes.number)
    }

    /// The schedule of a head with so many nodes and of the events behind it.
    pub(crate) fn schedule(&self, nodes: u32, events: Events) -> Schedule
        requires { nodes ≡ given_or self.now.nodes 0 }
        ensures { result ≡ head_schedule self.now events }
    {
        Schedule {
            nodes,
            slots: number_or(self.slots, 1),
            copies: number_or(self.copies, nodes.min(3)),
            block: number_or(self.block, 10_000),
            attempts: number_or(self.attempts, 4),
            keep: number_or(self.keep, 1),
            events,
        }
    }
}

/// The number that is given, or else this.
fn number_or(given: Option<Given>, otherwise: u32) -> u32
    ensures { result ≡ given_or given otherwise }
{
    match given {
        Some(given) => given.number,
        None => otherwise,
    }
}
