//! The images of many values.

ghost use Rattle.std.specs.Prelude.{◌≡◌, length, map, IfOk, OnOk, OnErr};
ghost use Rattle.mt_mapper.specs.Calls.{counted, CountedAtMost};

use super::mapper::Mapper;
use mt_base::{List, NoMemory, Value};
use std::alloc::Global;

/// The images of values, in their order. The mapper is called once for each; where memory runs out half-way, those calls are counted
/// that were made.
pub fn images<M: Mapper>(
    alloc: Global,
    values: &List<Value>,
    mapper: &mut M,
) -> Result<List<Value>, NoMemory>
    ensures images { IfOk result (λ all. all ≡ map (M.image mapper.old) values.now) }
    ensures calls { OnOk result (M.calls mapper.new ≡ counted (M.calls mapper.old) (length values.now)) }
    ensures halfway { OnErr result (CountedAtMost (M.calls mapper.old) (length values.now) (M.calls mapper.new)) }
    ensures image { M.image mapper.new ≡ M.image mapper.old }
    ensures called { M.called mapper.new ≡ M.called mapper.old }
{
    let mut all = List::with_capacity(alloc, values.len())?;
    for value in values.as_slice() {
        let mut image = String::new(alloc);
        mapper.map(value.as_str(), &mut image)?;
        all.push(Value::from_string(image))?;
    }
    Ok(all)
}
