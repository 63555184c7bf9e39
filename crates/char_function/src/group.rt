// Groups of snapshots with their results, parted by the codes of one variable or result.
ghost use Rattle.std.specs.Prelude.{◌≡◌, ◌<◌, ℕ, length, slice_index, get_or, [], IfOk, IsTrue};
ghost use Rattle.transition_table.specs.Orders.{sizes_of};
ghost use Rattle.outcome_table.specs.Outcomes.{IsTableOf};
ghost use Rattle.char_function.specs.inner.Points.{points, at_point};
ghost use Rattle.char_function.specs.inner.Groups.{with_code, is_group};

use outcome_table::Table;
use polis_base::{List, NoMemory};
use std::alloc::Global;
use transition_table::Machine;

/// The code of a variable or result on a snapshot.
pub(crate) fn code_at(m: &Machine, table: &Table, item: u32, i: u64) -> u8
    requires table { IsTableOf m.now table.now }
    requires item { item < length (sizes_of m.now) }
    requires snapshot { i < length (points m.now) }
    ensures code { result ≡ slice_index (at_point (points m.now) i) item }
    ensures below { result < slice_index (sizes_of m.now) item }
{
    transition_table::laws_of_computing();
    let item = u64::from(item);
    let vars = m.vars.len();
    if item < vars {
        *table.codes.get(item).get(i)
    } else {
        *table.outcomes.get(*table.numbers.get(i)).get(item - vars)
    }
}

// So many groups of no snapshots.
fn no_parts(alloc: Global, size: u8) -> Result<Vec<List<u64>>, NoMemory>
    ensures long { IfOk result (λ parts. length parts.items ≡ size) }
    ensures none { IfOk result (λ parts. (code : ℕ) → get_or parts.items code [] ≡ []) }
{
    let mut parts = Vec::new(alloc);
    for _ in 0..size {
        parts.push(List::new(alloc))?;
    }
    Ok(parts)
}

/// The parts of a group of snapshots, one for each code of a variable or result.
pub(crate) fn parts_of(
    alloc: Global,
    m: &Machine,
    table: &Table,
    item: u32,
    size: u8,
    group: &[u64],
) -> Result<Vec<List<u64>>, NoMemory>
    requires table { IsTableOf m.now table.now }
    requires item { item < length (sizes_of m.now) }
    requires size { size ≡ slice_index (sizes_of m.now) item }
    requires group { IsTrue (is_group (points m.now) group.now) }
    ensures long { IfOk result (λ parts. length parts.items ≡ size) }
    ensures parts { IfOk result (λ parts. (code : ℕ) → code < size
        → get_or parts.items code [] ≡ with_code (points m.now) item group.now code) }
{
    let mut parts = no_parts(alloc, size)?;
    for i in group {
        let code = code_at(m, table, item, *i);
        parts[usize::from(code)].push(*i)?;
    }
    Ok(parts)
}
