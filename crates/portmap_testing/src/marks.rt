//! Marks the part of a test in which allocations may be refused, and asks if one was refused.
use std::alloc::Global;

/// Allocations of these sizes are marks. There are no others of these sizes, and `faults/faults.c` knows them.
const BEGIN: usize = 1_000_003;

const END: usize = 1_000_033;

const ASK: usize = 1_000_037;

/// Marks the point from which on an allocation may be refused.
pub fn begin(alloc: Global) {
    drop(Vec::<u8>::with_capacity(alloc, BEGIN));
}

/// Marks the point from which on no allocation is refused.
pub fn end(alloc: Global) {
    drop(Vec::<u8>::with_capacity(alloc, END));
}

/// Evaluates a call whose allocations may be refused.
#[macro_export]
macro_rules! marked {
    ($alloc:expr, $call:expr) => {{
        $crate::marks::begin($alloc);
        let given = $call;
        $crate::marks::end($alloc);
        given
    }};
}

/// Returns true if an allocation was refused since the last call of this function.
pub fn was_refused(alloc: Global) -> bool {
    Vec::<u8>::with_capacity(alloc, ASK).is_err()
}
