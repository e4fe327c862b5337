ghost use Rattle.std.specs.Prelude.{◌≡◌, refl};
ghost use Rattle.std.specs.Ordering.{as_partial_cmp, eq_by_cmp};
ghost use Rattle.std.specs.Cmp.{eq_by_cmp_equiv, partial_equiv_from_equiv, partial_order_from_agreeing_total};
ghost use Rattle.hal_base.specs.Laws.{value_cmp_total};
ghost use Rattle.hal_base.specs.Order.{value_cmp};
ghost use Rattle.hal_base.specs.Values.{kind_of};

use crate::items::CopyIn;
use crate::memory::Memory;
use crate::text::Text;
use std::alloc::Global;
use std::cmp::Ordering;

/// The kind of a value.
#[derive(Clone, Copy)]
pub enum Kind {
    Int,
    Text,
}

impl CopyIn for Kind {
    fn copy(&self, _alloc: Global) -> Result<Kind, Memory> {
        Ok(*self)
    }
}

/// A whole number of 64 bits with sign, or a text.
#[derive(Drop)]
pub enum Value {
    Int(i64),
    Text(Text),
}

impl Value {
    pub fn kind(&self) -> Kind
        ensures { result ≡ kind_of self.now }
    {
        match self {
            Value::Int(_) => Kind::Int,
            Value::Text(_) => Kind::Text,
        }
    }
}

/// What an unused inline place of a small vector holds.
impl Default for Value {
    fn default() -> Value {
        Value::Int(0)
    }
}

impl CopyIn for Value {
    fn copy(&self, alloc: Global) -> Result<Value, Memory> {
        match self {
            Value::Int(n) => Ok(Value::Int(*n)),
            Value::Text(text) => {
                let copied = text.copy(alloc)?;
                Ok(Value::Text(copied))
            }
        }
    }
}

/// Numbers by value, texts by bytes, and each number before each text.
pub fn compare(a: &Value, b: &Value) -> Ordering
    ensures { result ≡ value_cmp a.now b.now }
{
    match (a, b) {
        (Value::Int(x), Value::Int(y)) => x.cmp(y),
        (Value::Int(_), Value::Text(_)) => Ordering::Less,
        (Value::Text(_), Value::Int(_)) => Ordering::Greater,
        (Value::Text(x), Value::Text(y)) => x.compare(y),
    }
}

impl PartialEq for Value {
    ghost eq = { eq_by_cmp value_cmp };

    fn eq(&self, other: &Value) -> bool {
        compare(self, other).is_eq()
    }

    ghost laws = { partial_equiv_from_equiv (eq_by_cmp_equiv value_cmp_total) };
}

impl Eq for Value {
    ghost laws = { eq_by_cmp_equiv value_cmp_total };
}

impl PartialOrd for Value {
    ghost partial_cmp = { as_partial_cmp value_cmp };

    fn partial_cmp(&self, other: &Value) -> Option<Ordering> {
        Some(compare(self, other))
    }

    ghost laws = { partial_order_from_agreeing_total value_cmp value_cmp_total (λ _ _. refl) (λ _ _. refl) };
}

impl Ord for Value {
    ghost cmp = { value_cmp };

    fn cmp(&self, other: &Value) -> Ordering {
        compare(self, other)
    }

    ghost total = { value_cmp_total };

    ghost matches_partial_cmp = { λ _ _. refl };

    ghost matches_eq = { λ _ _. refl };
}
