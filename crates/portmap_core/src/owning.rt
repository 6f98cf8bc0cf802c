ghost use Rattle.std.specs.Prelude.{◌↔◌, All, ℕ, IfOk, IsSome, IsTrue};
ghost use Rattle.std.specs.FinMap as map;
ghost use Rattle.portmap_table.specs.Rows.{owns_name};
ghost use Rattle.portmap_core.specs.Held.{stage_held};
ghost use Rattle.portmap_core.specs.Owned.{IsSlotFor, IsStageFor};

use crate::connection::Phase;
use crate::held::Held;
use crate::held_slots::Slots;
use portmap_feed::{Feed, Seen};
use portmap_table::Table;
use portmap_wire::NoMemory;
use std::alloc::Global;

fn may_own(alloc: Global, held: &Held, owns: bool) -> Result<bool, NoMemory>
    ensures { IfOk result (λ may. IsTrue may
        ↔ IsStageFor owns held.now.local (stage_held held.now.phase held.now.bytes)) }
{
    match held.phase {
        Phase::Waiting if owns => Ok(false),
        // The bytes must be an incomplete request.
        Phase::Waiting => Ok(matches!(Feed::new(alloc).push(held.bytes.as_slice())?, Seen::More)),
        Phase::Holding => Ok(owns && held.local),
        Phase::Done => Ok(!owns),
    }
}

fn owners_are_open(table: &Table, connections: &Slots) -> bool
    ensures { IsTrue result ↔ All (λ row. IsSome (map.get connections.now row.slot)) table.now.names.active }
{
    for i in 0..table.active_len() {
        let row = table.active_at(i);
        if row.is_some_and(|row| connections.get(row.slot).is_none()) {
            return false;
        }
    }
    true
}

/// Returns true if and only if names and open connections satisfy the invariant together, at every slot.
pub(crate) fn fit(alloc: Global, table: &Table, connections: &Slots) -> Result<bool, NoMemory>
    ensures { IfOk result (λ fit. IsTrue fit
        ↔ ((slot : ℕ) → IsSlotFor (owns_name slot table.now.names) (map.get connections.now slot))) }
{
    for h in connections.held() {
        if !may_own(alloc, h, table.holds(h.slot))? {
            return Ok(false);
        }
    }
    Ok(owners_are_open(table, connections))
}
