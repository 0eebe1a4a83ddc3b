//! Objects that are built member by member. Their members stand in the order of the names.
ghost use Rattle.std.specs.Prelude.{◌≡◌, IfOk, map};
ghost use Rattle.serde_json.specs.Data.{put};
ghost use Rattle.serde_json.specs.View.{members_view, view};
ghost use Rattle.plan_report.specs.Lines.{number_data, numbers_data};

use serde_json::{Map, Value};
use std::alloc::{AllocError, Global};

/// The object with one more member.
pub(crate) fn with_member(
    alloc: Global,
    object: Map<String, Value>,
    name: &str,
    value: Value,
) -> Result<Map<String, Value>, AllocError>
    ensures { IfOk result (λ m. members_view m.entries ≡
        put name.now (view value) (members_view object.entries)) }
{
    let mut object = object;
    serde_json::put(&mut object, alloc, name, value)?;
    Ok(object)
}

/// The object with a number more.
pub(crate) fn with_number(
    alloc: Global,
    object: Map<String, Value>,
    name: &str,
    number: usize,
) -> Result<Map<String, Value>, AllocError>
    ensures { IfOk result (λ m. members_view m.entries ≡
        put name.now (number_data number) (members_view object.entries)) }
{
    with_member(alloc, object, name, Value::from(number))
}

/// Numbers as an array.
pub(crate) fn numbers_value(alloc: Global, numbers: &[u32]) -> Result<Value, AllocError>
    ensures { IfOk result (λ v. view v ≡ numbers_data numbers.now) }
{
    let mut items = Vec::new(alloc);
    for number in numbers {
        items.push(Value::from(*number))?;
    }
    Ok(Value::Array(items))
}
