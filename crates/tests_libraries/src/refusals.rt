//! Calls to which memory is refused. They return their refusal and change nothing, or succeed.
//!
//! Here memory suffices. `make faults` runs each of these tests once for each allocation between two marks, and refuses
//! that allocation.
mod book;
mod desk;
