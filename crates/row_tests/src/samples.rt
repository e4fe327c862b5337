// Records of two numbers, for tests.
use hal_base::{Fields, Kind, Kinds, Memory, Record, Schema, Value};
use std::alloc::Global;

pub(crate) fn pairs_schema(alloc: Global) -> Result<Schema, Memory> {
    let mut fields = Kinds::new(alloc);
    fields.push(Kind::Int)?;
    Ok(Schema {
        key: Kind::Int,
        fields,
    })
}

pub(crate) fn pair(alloc: Global, key: i64, field: i64) -> Result<Record, Memory> {
    let mut fields = Fields::new(alloc);
    fields.push(Value::Int(field))?;
    Ok(Record {
        key: Value::Int(key),
        fields,
    })
}
