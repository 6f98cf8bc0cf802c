ghost use Rattle.std.specs.Prelude.{◌≡◌, None};

use portmap_scheduler::{LinkState, Scheduler};
use std::rt::HostRuntime;

/// What the caller does with the current link.
#[derive(Clone, Copy)]
enum AfterTurn {
    Left,
    Again,
    Deferred,
}

fn settle(ready: &mut Scheduler<u64>, fate: AfterTurn)
    ensures { ready.new.current ≡ None }
{
    let Some(key) = ready.current() else {
        return;
    };
    match fate {
        AfterTurn::Left => ready.leave(key),
        AfterTurn::Again => ready.requeue(key),
        AfterTurn::Deferred => ready.hold(key),
    }
}

fn next(ready: &mut Scheduler<u64>, fate: AfterTurn) -> Option<usize> {
    settle(ready, fate);
    ready.next()
}

fn next_pending(ready: &mut Scheduler<u64>, fate: AfterTurn) -> Option<usize> {
    settle(ready, fate);
    ready.next_pending()
}

#[test]
fn a_link_is_served_in_fifo_order_from_any_state(rt: HostRuntime) {
    let mut ready = Scheduler::new(rt.alloc());
    assert!(rt; ready.is_empty());
    let first = ready.insert(10).expect(&rt, "memory");
    let second = ready.insert(20).expect(&rt, "memory");
    let third = ready.insert(30).expect(&rt, "memory");
    assert!(rt; ready.len() == 3 && ready.backlog() == 3);
    // The first is idle, the second current, the third pending.
    assert!(rt; next(&mut ready, AfterTurn::Left) == Some(first));
    assert!(rt; next(&mut ready, AfterTurn::Left) == Some(second));
    assert!(rt; next(&mut ready, AfterTurn::Again) == Some(third));
    assert!(rt; next(&mut ready, AfterTurn::Deferred) == Some(second));
    assert!(rt;
        ready.state(first) == Some(LinkState::Idle)
            && ready.state(second) == Some(LinkState::Current)
    );
    assert!(rt; ready.state(third) == Some(LinkState::Pending) && ready.pending() == 1);
    // A report queues the first at once, but neither a pending nor the current link.
    ready.report(third);
    ready.report(second);
    ready.report(first);
    ready.report(first);
    assert!(rt; ready.backlog() == 1);
    // The third continues to wait, behind the first.
    assert!(rt; next(&mut ready, AfterTurn::Left) == Some(first));
    assert!(rt; next_pending(&mut ready, AfterTurn::Deferred) == Some(third));
    assert!(rt; next_pending(&mut ready, AfterTurn::Deferred) == Some(first));
    assert!(rt; next_pending(&mut ready, AfterTurn::Again) == Some(third));
    settle(&mut ready, AfterTurn::Again);
    // Neither is pending now, and the second is queued behind both.
    ready.report(second);
    assert!(rt; next(&mut ready, AfterTurn::Left) == Some(first));
    assert!(rt; next(&mut ready, AfterTurn::Left) == Some(third));
    assert!(rt; ready.current() == Some(third));
    assert!(rt; next(&mut ready, AfterTurn::Left) == Some(second));
    assert!(rt; next_pending(&mut ready, AfterTurn::Left) == None);
}

#[test]
fn a_link_that_is_removed_is_in_no_list(rt: HostRuntime) {
    let mut ready = Scheduler::new(rt.alloc());
    let first = ready.insert(10).expect(&rt, "memory");
    let second = ready.insert(20).expect(&rt, "memory");
    let third = ready.insert(30).expect(&rt, "memory");
    assert!(rt; next(&mut ready, AfterTurn::Left) == Some(first));
    assert!(rt; next(&mut ready, AfterTurn::Deferred) == Some(second));
    settle(&mut ready, AfterTurn::Left);
    if let Some(value) = ready.get_mut(second) {
        *value = value.wrapping_add(1);
    }
    // The first is pending, the second idle, the third queued.
    assert!(rt; ready.pending() == 1 && ready.backlog() == 1);
    assert!(rt; ready.remove(first) == Some(10) && ready.remove(second) == Some(21));
    assert!(rt; ready.remove(third) == Some(30) && ready.remove(third) == None);
    assert!(rt; ready.pending() == 0 && ready.backlog() == 0);
    assert!(rt; ready.get(first).is_none() && ready.is_empty());
    // A key that is used again is only in the queue.
    let fourth = ready.insert(40).expect(&rt, "memory");
    assert!(rt; next_pending(&mut ready, AfterTurn::Left) == None);
    assert!(rt; next(&mut ready, AfterTurn::Left) == Some(fourth) && ready.len() == 1);
}

/// Inserts links until `has_room` is false, and returns their number. `None` if an insert is refused, or if there is
/// still room for another link after 65.
fn insert_with_room(ready: &mut Scheduler<u64>) -> Option<usize> {
    ready.insert(0).ok()?;
    for _turn in 0..64u32 {
        if !ready.has_room() {
            return Some(ready.len());
        }
        ready.insert(0).ok()?;
    }
    None
}

#[test]
fn a_refused_insert_changes_nothing_and_one_with_room_is_not_refused(rt: HostRuntime) {
    let mut ready = Scheduler::new(rt.alloc());
    assert!(rt; !ready.has_room());
    let count = insert_with_room(&mut ready);
    if count.is_none() {
        // Memory was refused: the value is returned, and every link is still queued.
        let before = ready.len();
        let refused = ready.insert(7).err();
        assert!(rt; refused.is_none_or(|failed| failed.value == 7));
        assert!(rt; ready.len() >= before && ready.backlog() == ready.len());
    } else {
        assert!(rt; count == Some(ready.len()) && !ready.has_room());
        // Removing a link whose key has left the queue makes room for one link.
        let current = next(&mut ready, AfterTurn::Left);
        assert!(rt; current.is_some_and(|key| ready.remove(key).is_some()));
        assert!(rt; ready.has_room() && ready.insert(1).is_ok() && !ready.has_room());
    }
}
