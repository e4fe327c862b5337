ghost use Rattle.std.specs.Prelude.{◌≡◌, map, IfOk, OnOk};
ghost use Rattle.std.specs.List.{AllByRecursion};
ghost use Rattle.hal_base.specs.Order.{record_cmp};
ghost use Rattle.hal_base.specs.Sorted.{Ascending, sorted};
ghost use Rattle.memory_run.specs.steps.Sections.{first_section, later_sections, left_of, rows_of};

use crate::streams::Stream;
use hal_base::{Memory, Parts, Records, SortedSlice};
use sorted_parts::{Merged, SpillBuilder, merge};
use std::alloc::Global;
use std::collections::VecDeque;
use std::marker::Model;

/// The sections of a source, one for each part, each in order.
#[derive(Drop)]
pub(crate) struct Sections {
    parts: Parts,
}

impl Model for Sections {
    ghost use Rattle.std.specs.Prelude.{List};
    ghost use Rattle.std.specs.List.{AllByRecursion};
    ghost use Rattle.hal_base.specs.declared.record.Record.{Record as Row};
    ghost use Rattle.hal_base.specs.Order.{record_cmp};
    ghost use Rattle.hal_base.specs.Sorted.{Ascending};

    ghost Value = { List (List Row) };

    ghost view = { λ s. s.parts };

    ghost invariant = { λ s. AllByRecursion (Ascending record_cmp) s.parts };
}

impl Sections {
    pub(crate) fn new(parts: Parts) -> Sections
        requires { AllByRecursion (Ascending record_cmp) parts }
        ensures { result ≡ parts }
    {
        Sections { parts }
    }

    pub(crate) fn finished(alloc: Global, builder: SpillBuilder) -> Result<Sections, Memory>
        ensures { IfOk result (λ found. found ≡ map (sorted record_cmp) builder) }
    {
        let parts = builder.finish(alloc)?;
        Ok(Sections { parts })
    }

    /// A spill that uses up the sections.
    pub(crate) fn into_spill<'a>(self) -> Spill<'a>
        ensures { left_of result ≡ self }
    {
        Spill::Own(Owned {
            left: VecDeque::from(self.parts.into_vec()),
        })
    }

    /// A spill that leaves the sections as they are.
    pub(crate) fn lend(&self) -> Spill<'_>
        ensures { left_of result ≡ self.now }
    {
        Spill::Lent(Lent {
            left: self.parts.as_slice(),
        })
    }
}

/// The sections of a source that are left, from which the first is taken part after part.
#[derive(Drop)]
pub(crate) enum Spill<'a> {
    Own(Owned),
    Lent(Lent<'a>),
}

/// Sections that are left. No record of them is copied.
#[derive(Drop)]
pub(crate) struct Owned {
    left: VecDeque<Records>,
}

impl Model for Owned {
    ghost use Rattle.std.specs.Prelude.{List};
    ghost use Rattle.std.specs.List.{AllByRecursion};
    ghost use Rattle.hal_base.specs.declared.record.Record.{Record as Row};
    ghost use Rattle.hal_base.specs.Order.{record_cmp};
    ghost use Rattle.hal_base.specs.Sorted.{Ascending};

    ghost Value = { List (List Row) };

    ghost view = { λ s. s.left.items };

    ghost invariant = { λ s. AllByRecursion (Ascending record_cmp) s.left.items };
}

impl Owned {
    /// Takes the first section. It has no records where none is left.
    fn take_first(&mut self, alloc: Global) -> Result<Merged, Memory>
        ensures first { IfOk result (λ rows. rows ≡ first_section self.old) }
        ensures later { self.new ≡ later_sections self.old }
    {
        match self.left.pop_front() {
            Some(rows) => merged(alloc, rows),
            None => merged(alloc, Records::new(alloc)),
        }
    }
}

/// The records of a section alone, handed out from the front.
fn merged(alloc: Global, rows: Records) -> Result<Merged, Memory>
    requires { Ascending record_cmp rows }
    ensures { IfOk result (λ merged. merged ≡ rows) }
{
    let mut alone = Parts::new(alloc);
    alone.push(rows)?;
    merge(alloc, alone)
}

/// Sections that are left, and that are only lent.
#[derive(Drop)]
pub(crate) struct Lent<'a> {
    left: &'a [Records],
}

impl<'a> Model for Lent<'a> {
    ghost use Rattle.std.specs.Prelude.{List};
    ghost use Rattle.std.specs.List.{AllByRecursion};
    ghost use Rattle.hal_base.specs.declared.record.Record.{Record as Row};
    ghost use Rattle.hal_base.specs.Order.{record_cmp};
    ghost use Rattle.hal_base.specs.Sorted.{Ascending};

    ghost Value = { List (List Row) };

    ghost view = { λ s. s.left.now };

    ghost invariant = { λ s. AllByRecursion (Ascending record_cmp) s.left.now };
}

impl<'a> Lent<'a> {
    /// Takes the first section. It has no records where none is left.
    fn take_first(&mut self) -> SortedSlice<'a>
        ensures first { result ≡ first_section self.old }
        ensures later { self.new ≡ later_sections self.old }
    {
        let Some((first, others)) = self.left.split_first() else {
            return SortedSlice::new(&[]);
        };
        self.left = others;
        SortedSlice::new(first.as_slice())
    }
}

impl<'a> Spill<'a> {
    fn take_first(&mut self, alloc: Global) -> Result<Stream<'a>, Memory>
        ensures first { IfOk result (λ stream. rows_of stream ≡ first_section (left_of self.old)) }
        ensures later { left_of self.new ≡ later_sections (left_of self.old) }
    {
        match self {
            Spill::Own(sections) => {
                let rows = sections.take_first(alloc)?;
                Ok(Stream::Own(rows))
            }
            Spill::Lent(sections) => Ok(Stream::Lent(sections.take_first())),
        }
    }
}

/// Takes the first section of each spill.
pub(crate) fn take_sections<'a>(
    alloc: Global,
    spills: &mut [Spill<'a>],
) -> Result<Vec<Stream<'a>>, Memory>
    ensures first { IfOk result (λ streams. map rows_of streams.items ≡ map first_section (map left_of spills.old)) }
    ensures later { OnOk result (map left_of spills.new ≡ map later_sections (map left_of spills.old)) }
{
    let mut streams = Vec::with_capacity(alloc, spills.len())?;
    let mut at = 0;
    'spills: while at < spills.len() {
        let spill = &mut spills[at];
        streams.push(spill.take_first(alloc)?)?;
        at += 1;
    }
    Ok(streams)
}
