ghost use Rattle.std.specs.Prelude.{◌≡◌, [], ◌∷◌, ◌++◌, ◌<◌, length, set, slice_get, take, OnErr, OnOk};
ghost use Rattle.std.specs.Option.{option_copied};
ghost use Rattle.function_eval.specs.steps.Machine.{groups_of};

use hal_base::{CopyIn, Group, Memory, Records, Value};
use std::alloc::Global;
use std::marker::Model;

/// The groups of a function's streams, in their order.
#[derive(Clone, Copy)]
pub(crate) enum Streams<'a> {
    All(&'a [Group]),
    Two(&'a Group, &'a Group),
}

impl<'a> Streams<'a> {
    /// The group of the stream of this number.
    pub(crate) fn get(self, stream: usize) -> Option<&'a Group>
        ensures { option_copied result ≡ slice_get (groups_of self.entry) stream }
    {
        match self {
            Streams::All(groups) => groups.get(stream),
            Streams::Two(before, after) => match stream {
                0 => Some(before),
                1 => Some(after),
                _ => None,
            },
        }
    }
}

/// What stands still while a function runs: the round, if it has one, and the groups of its streams.
#[derive(Clone, Copy)]
pub(crate) struct Frame<'a> {
    pub(crate) alloc: Global,
    pub(crate) round: Option<u32>,
    pub(crate) streams: Streams<'a>,
}

/// The values of a function's parameters and variables, in the order in which they came.
#[derive(Drop)]
pub(crate) struct Slots {
    items: Vec<Value>,
}

impl Model for Slots {
    ghost use Rattle.std.specs.Prelude.{List};
    ghost use Rattle.hal_base.specs.declared.value.Value.{Value as Cell};

    ghost Value = { List Cell };

    ghost view = { λ slots. slots.items.items };
}

impl Slots {
    /// No values, which grow in this allocator.
    pub(crate) fn new(alloc: Global) -> Slots
        ensures { result ≡ [] }
    {
        Slots {
            items: Vec::new(alloc),
        }
    }

    pub(crate) fn len(&self) -> usize
        ensures { result ≡ length self.now }
    {
        self.items.len()
    }

    pub(crate) fn as_slice(&self) -> &[Value]
        ensures { result.now ≡ self.now }
    {
        self.items.as_slice()
    }

    /// Adds a value at the end. After `Memory` the values are as before.
    pub(crate) fn push(&mut self, value: Value) -> Result<(), Memory>
        ensures ok { OnOk result (self.new ≡ self.old ++ value ∷ []) }
        ensures err { OnErr result (self.new ≡ self.old) }
    {
        self.items.push(value).map_err(|_| Memory)
    }

    /// Adds copies of values at the end. After `Memory` some of them may have been added.
    pub(crate) fn push_copies(&mut self, alloc: Global, values: &[Value]) -> Result<(), Memory>
        ensures { OnOk result (self.new ≡ self.old ++ values.now) }
    {
        'values: for value in values {
            let copied = value.copy(alloc)?;
            self.push(copied)?;
        }
        Ok(())
    }

    /// Puts a value in the place of another.
    pub(crate) fn set(&mut self, at: usize, value: Value)
        requires { at < length self.old }
        ensures { self.new ≡ set self.old at value }
    {
        self.items[at] = value;
    }

    /// Drops what stands past this many values.
    pub(crate) fn truncate(&mut self, len: usize)
        ensures { self.new ≡ take len self.old }
    {
        self.items.truncate(len);
    }
}

/// What a function has done so far: the values of its parameters and variables, what it emitted behind
/// what was there, and the number that it gave last.
#[derive(Drop)]
pub(crate) struct Running {
    pub(crate) slots: Slots,
    pub(crate) out: Records,
    pub(crate) given: i64,
}
