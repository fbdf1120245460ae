//! Lists that are put together.

ghost use Rattle.std.specs.Prelude.{◌≡◌, ◌++◌, IfOk};

use mt_base::{List, NoMemory};

/// Items, and others behind them. Where there is room behind the first ones, it takes no memory.
pub fn joined<T: Drop>(first: List<T>, others: List<T>) -> Result<List<T>, NoMemory>
    ensures { IfOk result (λ list. list ≡ first ++ others) }
{
    let mut items = first.into_vec();
    items.append(&mut others.into_vec())?;
    Ok(List::from_vec(items))
}
