ghost use Rattle.std.specs.Prelude.{◌≡◌, ℕ, ◌<◌, ◌≤◌, ◌↔◌, IsTrue, List, [], length, Some, None, IfErr, MatchOption};
ghost use Rattle.std.specs.List.{list_all};
ghost use Rattle.record_blocks.specs.Blocks.{block_head};
ghost use Rattle.record_blocks.specs.steps.Decoders as decoders;
ghost use Rattle.record_blocks.specs.steps.Decoders.{Decodes, DecodesInto, one_behind};
ghost use Rattle.record_blocks.specs.steps.Exact.{ArePrintable};

use crate::encoding::head_of;
use crate::fault::TextFault;
use hal_base::{Fields, Kind, Kinds, Memory, Record, Records, Schema, Text, Value};
use std::alloc::Global;
use std::marker::Model;

/// Bytes that are read from the front. Contracts see those that are left.
#[derive(Drop)]
pub struct Cursor<'a> {
    rest: &'a [u8],
}

impl<'a> Model for Cursor<'a> {
    ghost use Rattle.std.specs.Prelude.{ℕ, List};

    ghost Value = { List ℕ };

    ghost view = { λ c. c.rest.now };
}

impl<'a> Cursor<'a> {
    pub fn new(bytes: &'a [u8]) -> Cursor<'a>
        ensures { result ≡ bytes.entry.now }
    {
        Cursor { rest: bytes }
    }

    pub fn len(&self) -> usize
        ensures { result ≡ length self.now }
    {
        self.rest.len()
    }

    /// A number of eight bytes.
    #[tactic(auto, unfolding(crate::specs::steps::Decoders::number))]
    pub fn number(&mut self) -> Result<u64, TextFault>
        ensures decoded { Decodes (decoders.number self.old) result self.new }
        ensures malformed { IfErr result (λ it. it ≡ TextFault.Malformed) }
    {
        match self.rest.split_first_chunk::<8>() {
            Some((front, rest)) => {
                let number = u64::from_be_bytes(*front);
                self.rest = rest;
                Ok(number)
            }
            None => Err(TextFault::Malformed),
        }
    }

    /// A number of two bytes.
    #[tactic(auto, unfolding(crate::specs::steps::Decoders::short))]
    pub fn short(&mut self) -> Result<u16, TextFault>
        ensures decoded { Decodes (decoders.short self.old) result self.new }
        ensures malformed { IfErr result (λ it. it ≡ TextFault.Malformed) }
    {
        match self.rest.split_first_chunk::<2>() {
            Some((front, rest)) => {
                let number = u16::from_be_bytes(*front);
                self.rest = rest;
                Ok(number)
            }
            None => Err(TextFault::Malformed),
        }
    }

    /// So many bytes, `None` where fewer are left.
    #[tactic(auto, unfolding(crate::specs::steps::Decoders::some_bytes))]
    pub fn bytes(&mut self, count: u64) -> Option<&'a [u8]>
        ensures { MatchOption result (decoders.some_bytes count self.old ≡ None) (λ bytes. decoders.some_bytes count self.old ≡ Some (bytes.now, self.new)) }
    {
        if (self.rest.len() as u64) < count {
            return None;
        }
        let (front, rest) = self.rest.split_at(count as usize);
        self.rest = rest;
        Some(front)
    }

    /// These bytes, which must come next.
    #[tactic(auto, using(crate::proofs::Fronts::after_is))]
    pub fn expect(&mut self, front: &[u8]) -> Result<(), TextFault>
        ensures decoded { Decodes (decoders.after front.now self.old) result self.new }
        ensures malformed { IfErr result (λ it. it ≡ TextFault.Malformed) }
    {
        match self.rest.strip_prefix(front) {
            Some(rest) => {
                self.rest = rest;
                Ok(())
            }
            None => Err(TextFault::Malformed),
        }
    }

    /// A record of this schema.
    #[tactic(auto, unfolding(crate::specs::steps::Decoders::row))]
    pub fn row(&mut self, alloc: Global, schema: &Schema) -> Result<Record, TextFault>
        ensures { Decodes (decoders.row schema.now self.old) result self.new }
    {
        let key = self.value(alloc, schema.key)?;
        let mut fields = Fields::new(alloc);
        self.fields(alloc, &schema.fields, &mut fields)?;
        Ok(Record { key, fields })
    }

    /// What a block of this schema begins with.
    pub fn head(&mut self, alloc: Global, schema: &Schema) -> Result<(), TextFault>
        ensures { Decodes (decoders.after (block_head schema.now) self.old) result self.new }
    {
        let head = head_of(alloc, schema)?;
        self.expect(head.as_slice())
    }

    /// A block of this schema.
    #[tactic(auto, unfolding(crate::specs::steps::Decoders::block))]
    pub fn block(&mut self, alloc: Global, schema: &Schema) -> Result<Records, TextFault>
        ensures { Decodes (decoders.block schema.now self.old) result self.new }
    {
        self.head(alloc, schema)?;
        self.counted(alloc, schema)
    }

    /// A number, and so many records of this schema.
    #[tactic(auto, unfolding(crate::specs::steps::Decoders::counted))]
    fn counted(&mut self, alloc: Global, schema: &Schema) -> Result<Records, TextFault>
        ensures { Decodes (decoders.counted schema.now self.old) result self.new }
    {
        let count = self.number()?;
        self.rows(alloc, schema, count)
    }

    /// So many records of this schema.
    #[tactic(auto, unfolding(crate::specs::steps::Decoders::many))]
    fn rows(&mut self, alloc: Global, schema: &Schema, count: u64) -> Result<Records, TextFault>
        ensures { Decodes (decoders.many (decoders.row schema.now) count self.old) result self.new }
    {
        let room = room_for(self.len(), schema, count);
        let mut rows = Vec::with_capacity(alloc, room).map_err(|_| Memory)?;
        let mut left = count;
        'rows: while left > 0 {
            self.one_more(alloc, schema, &mut rows)?;
            left -= 1;
        }
        Ok(Records::from_vec(rows))
    }

    /// A record of this schema, behind those that are there. Its fields are read where they stay, since to move them takes
    /// as long as to read them. After a fault the last record may lack fields.
    #[tactic(auto, unfolding(crate::specs::steps::Decoders::row))]
    fn one_more(
        &mut self,
        alloc: Global,
        schema: &Schema,
        rows: &mut Vec<Record>,
    ) -> Result<(), TextFault>
        ensures { DecodesInto (one_behind rows.old.items (decoders.row schema.now self.old)) result rows.new.items self.new }
    {
        let key = self.value(alloc, schema.key)?;
        let fields = Fields::new(alloc);
        let at = rows.len();
        rows.push(Record { key, fields }).map_err(|_| Memory)?;
        self.fields(alloc, &schema.fields, &mut rows[at].fields)
    }

    /// The fields of a record of these kinds, which has none yet.
    #[tactic(auto, unfolding(crate::specs::steps::Decoders::values))]
    fn fields(&mut self, alloc: Global, kinds: &Kinds, fields: &mut Fields) -> Result<(), TextFault>
        requires { fields.old ≡ [] }
        ensures { DecodesInto (decoders.values kinds.now self.old) result fields.new self.new }
    {
        'kinds: for kind in kinds.as_slice() {
            let value = self.value(alloc, *kind)?;
            fields.push(value)?;
        }
        Ok(())
    }

    /// A value of this kind.
    #[tactic(auto, unfolding(crate::specs::steps::Decoders::value))]
    fn value(&mut self, alloc: Global, kind: Kind) -> Result<Value, TextFault>
        ensures { Decodes (decoders.value kind self.old) result self.new }
    {
        match kind {
            Kind::Int => {
                let number = self.number()?;
                Ok(Value::Int(number.cast_signed()))
            }
            Kind::Text => {
                let len = self.byte()?;
                let text = self.text(alloc, len as usize)?;
                Ok(Value::Text(text))
            }
        }
    }

    /// A text of so many bytes.
    #[tactic(auto, unfolding(crate::specs::steps::Decoders::text))]
    fn text(&mut self, alloc: Global, len: usize) -> Result<Text, TextFault>
        requires { len ≤ 255 }
        ensures { Decodes (decoders.text len self.old) result self.new }
    {
        if self.rest.len() < len {
            return Err(TextFault::Malformed);
        }
        let (front, rest) = self.rest.split_at(len);
        if !is_printable(front) {
            return Err(TextFault::Malformed);
        }
        let text = Text::from_bytes(alloc, front)?;
        self.rest = rest;
        Ok(text)
    }

    #[tactic(auto, unfolding(crate::specs::steps::Decoders::byte))]
    fn byte(&mut self) -> Result<u8, TextFault>
        ensures { Decodes (decoders.byte self.old) result self.new }
    {
        match self.rest {
            [first, rest @ ..] => {
                let first = *first;
                self.rest = rest;
                Ok(first)
            }
            [] => Err(TextFault::Malformed),
        }
    }
}

/// For how many records memory is taken at first: for no more than so many bytes can hold, whatever a head
/// says.
fn room_for(len: usize, schema: &Schema, count: u64) -> usize {
    let most = len / least_size(schema);
    if count < most as u64 {
        count as usize
    } else {
        most
    }
}

/// No record of the schema has fewer bytes.
fn least_size(schema: &Schema) -> usize
    ensures { 0 < result }
{
    let mut size = size_of_kind(schema.key);
    'kinds: for kind in schema.fields.as_slice() {
        size += size_of_kind(*kind);
    }
    size
}

fn size_of_kind(kind: Kind) -> usize
    ensures some { 0 < result }
    ensures few { result ≤ 8 }
{
    match kind {
        Kind::Int => 8,
        Kind::Text => 1,
    }
}

/// Whether each byte can stand in a text.
fn is_printable(bytes: &[u8]) -> bool
    ensures test { result ≡ list_all decoders.printable bytes.now }
    ensures each { IsTrue result ↔ ArePrintable bytes.now }
{
    bytes.iter().all(|byte| 32 <= *byte && *byte <= 126)
}
