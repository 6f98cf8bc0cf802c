ghost use Rattle.std.specs.Prelude.{◌≡◌, ℕ, ◌+◌, ◌<◌, ◌≤◌, length, remove, slice_get, vec_len, vec_capacity, IfOk};
ghost use Rattle.std.specs.Prelude.{OnErr, Some};
ghost use Rattle.portmap_table.specs.declared.row.Row.{Row};
ghost use Rattle.portmap_table.specs.Indexes.{HasEach, IsNew, IsRetiredAt, TakesIndex, active_entry};

use crate::entries::Entries;
use crate::row::Row;
use portmap_wire::NoMemory;

/// Searches from both ends, so that the newest and the oldest name are found at once.
fn index_of(indexes: &[u32], index: u32) -> usize
    requires { (i : ℕ) × (slice_get indexes.now i ≡ Some index) }
    ensures { slice_get indexes.now result ≡ Some index }
{
    let mut front = 0;
    let mut back = indexes.len();
    while front < back {
        if indexes[front] == index {
            return front;
        }
        back -= 1;
        if indexes[back] == index {
            return back;
        }
        front += 1;
    }
    unreachable!()
}

pub(crate) fn take_out(indexes: &mut Vec<u32>, index: u32)
    requires { (i : ℕ) × (slice_get indexes.old.items i ≡ Some index) }
    ensures items { (i : ℕ) × (slice_get indexes.old.items i ≡ Some index)
        × (indexes.new.items ≡ remove indexes.old.items i) }
    ensures len { vec_len indexes.new + 1 ≡ vec_len indexes.old }
    ensures room { vec_capacity indexes.new ≡ vec_capacity indexes.old }
{
    let at = index_of(indexes.as_slice(), index);
    indexes.remove(at);
}

/// Stores `row` and returns its index: that of a retired name stays, and a new name is appended. If `known_max` names
/// are known, a new name replaces the name that was retired longest ago. Allocates before any change.
pub(crate) fn settle(
    entries: &mut Entries,
    retired: &mut Vec<u32>,
    known_max: u32,
    row: Row,
) -> Result<u32, NoMemory>
    requires indexes { HasEach (IsRetiredAt entries.old) retired.old.items }
    requires name { (index : ℕ) (active : Row) → slice_get entries.old index ≡ Some (active_entry active)
        → active.reg.name ≡ row.reg.name
        → ⊥ }
    requires few { length entries.old ≤ known_max }
    requires oldest { IsNew row.reg.name entries.old → known_max ≤ length entries.old → 0 < length retired.old.items }
    ensures ok { IfOk result (λ index. TakesIndex known_max row entries.old entries.new retired.old.items
        retired.new.items index) }
    ensures few { vec_len retired.new ≤ vec_len retired.old }
    ensures room { vec_capacity retired.new ≡ vec_capacity retired.old }
    ensures err_entries { OnErr result (entries.new ≡ entries.old) }
    ensures err_retired { OnErr result (retired.new.items ≡ retired.old.items) }
{
    match entries.index(&row.reg.name) {
        Some(at) => {
            let index = at as u32;
            entries.activate(at, row);
            take_out(retired, index);
            Ok(index)
        }
        None if entries.len() < known_max as usize => {
            let index = entries.len() as u32;
            entries.push(row)?;
            Ok(index)
        }
        None => {
            let index = retired[0];
            entries.replace(index as usize, row)?;
            retired.remove(0);
            Ok(index)
        }
    }
}
