use hal_base::{Record, Value};

/// How many records there were, and the sum of their numbers modulo 2^64.
#[derive(Clone, Copy, Default)]
pub struct Sums {
    pub records: u64,
    pub numbers: i64,
}

impl Sums {
    pub fn add(&mut self, rows: &[Record]) {
        for row in rows {
            self.records = self.records.wrapping_add(1);
            self.add_value(&row.key);
            for value in row.fields.as_slice() {
                self.add_value(value);
            }
        }
    }

    /// A text counts as 0.
    fn add_value(&mut self, value: &Value) {
        if let Value::Int(n) = value {
            self.numbers = self.numbers.wrapping_add(*n);
        }
    }
}
