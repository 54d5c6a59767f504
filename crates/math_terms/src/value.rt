//! Values whose numbers fit 128 bits.

ghost use Rattle.std.specs.Prelude.{◌≡◌, ◌↔◌, IfOk, IsTrue};

use crate::name::NoMemory;
use sqlite_items::Items;
use std::alloc::Global;

/// A number, a truth value, a string or a tuple.
#[derive(Debug, Drop)]
pub enum Value {
    Num(i128),
    Truth(bool),
    Str(Items<Value>),
    Tup(Items<Value>),
}

impl Value {
    /// A second value, equal to the first.
    #[cycle(copy)]
    pub fn copy(&self, alloc: Global) -> Result<Value, NoMemory>
        ensures { IfOk result (λ v. v ≡ self.now) }
    {
        match self {
            Value::Num(n) => Ok(Value::Num(*n)),
            Value::Truth(b) => Ok(Value::Truth(*b)),
            Value::Str(entries) => Ok(Value::Str(copy_values(alloc, entries.as_slice())?)),
            Value::Tup(parts) => Ok(Value::Tup(copy_values(alloc, parts.as_slice())?)),
        }
    }

    /// Whether two values are equal. Values of two kinds are not.
    #[cycle(same)]
    pub fn same(&self, other: &Value) -> bool
        ensures { IsTrue result ↔ (self.now ≡ other.now) }
    {
        match self {
            Value::Num(m) => match other {
                Value::Num(n) => m == n,
                _ => false,
            },
            Value::Truth(a) => match other {
                Value::Truth(b) => a == b,
                _ => false,
            },
            Value::Str(us) => match other {
                Value::Str(vs) => same_values(us.as_slice(), vs.as_slice()),
                _ => false,
            },
            Value::Tup(us) => match other {
                Value::Tup(vs) => same_values(us.as_slice(), vs.as_slice()),
                _ => false,
            },
        }
    }
}

/// The values of a slice once more, in their order.
#[cycle(copy)]
pub fn copy_values(alloc: Global, values: &[Value]) -> Result<Items<Value>, NoMemory>
    ensures { IfOk result (λ vs. vs ≡ values.now) }
{
    let mut out = Items::new(alloc);
    for v in values {
        out.push(v.copy(alloc)?)?;
    }
    Ok(out)
}

#[cycle(same)]
fn same_values(a: &[Value], b: &[Value]) -> bool
    ensures { IsTrue result ↔ (a.now ≡ b.now) }
{
    if a.len() != b.len() {
        return false;
    }
    for (x, y) in a.iter().zip(b) {
        if !x.same(y) {
            return false;
        }
    }
    true
}
