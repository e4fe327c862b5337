use hal_base::{Fields, Functions, Group, Groups, Memory, Record, Records, Value, default_part};
use predefined_functions::same;
use std::alloc::Global;

/// The functions of the worked program that counts the links of each key, over two parts.
#[derive(Drop)]
pub struct LinkCounts {}

impl Functions for LinkCounts {
    ghost use Rattle.row_tests.specs.Programs.{count, counts, none};
    ghost use Rattle.row_tests.specs.ProgramLaws.{program_round_law, program_key_law, program_value_law};

    ghost meaning = { λ f. counts };

    fn map(
        &self,
        alloc: Global,
        _round: u32,
        _step: u32,
        _source: u32,
        row: &Record,
        out: &mut Records,
    ) -> Result<(), Memory> {
        same(alloc, row, out)
    }

    fn reduce(
        &self,
        alloc: Global,
        _round: u32,
        _step: u32,
        key: &Value,
        groups: &Groups,
        out: &mut Records,
    ) -> Result<(), Memory> {
        let [_, targets] = groups.as_slice() else {
            return Ok(());
        };
        let Value::Int(number) = key else {
            return Ok(());
        };
        let count = i64::try_from(targets.len()).map_err(|_| Memory)?;
        let mut fields = Fields::new(alloc);
        fields.push(Value::Int(count))?;
        out.push(Record {
            key: Value::Int(number.saturating_add(10)),
            fields,
        })
    }

    fn partition(
        &self,
        _alloc: Global,
        _round: u32,
        _step: u32,
        key: &Value,
    ) -> Result<u32, Memory> {
        Ok(default_part(key, 2))
    }

    fn distance(
        &self,
        _alloc: Global,
        _key: &Value,
        _old: &Group,
        _new: &Group,
    ) -> Result<u64, Memory> {
        Ok(0)
    }

    fn map_uses_round(&self, _step: u32, _source: u32) -> bool {
        false
    }

    fn map_is_same(&self, _step: u32, _source: u32) -> bool {
        false
    }

    fn partition_uses_round(&self, _step: u32) -> bool {
        false
    }

    fn keeps_key(&self, _step: u32) -> bool {
        false
    }

    ghost round_law = { λ f. program_round_law (λ j. count) 2 none };

    ghost key_law = { λ f. program_key_law (λ j. count) 2 none };

    ghost value_law = { λ f. program_value_law (λ j. count) 2 none };
}
