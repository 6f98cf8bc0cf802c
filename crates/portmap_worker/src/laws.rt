//! Laws about all calls of a carrier, and about the wait of a queued link.
ghost use Rattle.portmap_worker.specs.Replies.{ClosesAreFinal, OnlyAnswersAreWritten};
ghost use Rattle.portmap_worker.specs.Schedule.{QueuedAreServed};

/// Over all calls of a carrier, the bytes that its link was given are a prefix of the desk's replies, in order. Once no
/// byte waits to be written, they are all of these, unless memory ran out. After a reply that closes the connection
/// there is no other.
pub fn only_answers_are_written()
    ensures written { OnlyAnswersAreWritten }
    ensures closes { ClosesAreFinal }
{}

/// A link that is queued behind n others is served, or its connection ends, before n + 1 times `share` turns have
/// counted, whatever links are lent and ended in between. Two kinds of turns don't count: a turn that evicts a
/// connection, and a turn that serves the link again that was served last.
pub fn queued_are_served<S>()
    ensures { QueuedAreServed S }
{}
