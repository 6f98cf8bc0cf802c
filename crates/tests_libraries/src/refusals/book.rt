//! Gathering the segments of a log.
use crate::segments::{ALL, segments_of, tickets_of, two_nodes};
use portmap_book::{GatherFault, gather};
use portmap_testing::cases::is_so;
use portmap_testing::marks::{begin, end, was_refused};
use std::alloc::Global;
use std::test::Fail;

/// Returns true if two segments and a book are gathered, or memory was refused to that.
fn is_gathered(alloc: Global) -> Result<bool, Fail> {
    let tickets = tickets_of(alloc, ALL)?;
    let (Some(segments), Some(book)) = (segments_of(alloc, false, &[0, 1]), two_nodes(alloc)) else {
        return Ok(false);
    };
    begin(alloc);
    let found = gather(alloc, &segments, &book, tickets);
    end(alloc);
    Ok(found == Ok(()) || (found == Err(GatherFault::NoMemory) && was_refused(alloc)))
}

#[test]
fn what_is_gathered_is_all_or_refused(rt: HostRuntime) -> Result<(), Fail> {
    is_so(&rt, is_gathered(rt.alloc()))
}
