//! Checks of the notices for the operator.
use crate::checks::Wrong;
use portmap_operator::{LocalRequest, Notice};
use std::mem;

/// The least time between two notices of a kind: ten seconds, less a part of a millisecond.
const NOTICE_US: u64 = 9_999_000;

/// The most time between an event and its notice.
const NEWS_US: u64 = 5_000_000;

/// The most time between a shortage of memory and its notice. The notice before may be ten seconds old.
const SHORT_US: u64 = 15_000_000;

#[derive(Clone, Copy)]
pub enum Subject {
    Accept,
    InUse,
    Short,
    /// Connections were reset because their peers read nothing.
    Unread,
    /// The recording failed, or continues again.
    ShutdownCause,
    Again,
    /// Requests of other hosts were refused.
    Remote,
}

/// By subject, the text for a false notice. Notices of other hosts are checked at the end.
const UNTRUE: [Wrong; 7] = [
    "the operator is told of what has not happened",
    "the operator is told of fewer names than were refused",
    "the operator is told of memory that is not short",
    "the operator is told of more resets than there were",
    "the operator is told that a recording fails that does not, or is told it again",
    "the operator is told that a recording goes on again that does not",
    "",
];

/// By subject, the text for a notice that follows another one too soon.
const TWICE: [Wrong; 7] = [
    "the operator is told twice within ten seconds",
    "the operator is told of names twice within ten seconds",
    "the operator is told of memory twice within ten seconds",
    "the operator is told of resets twice within ten seconds",
    "the operator is told of failures twice within ten seconds",
    "the operator is told of new beginnings twice within ten seconds",
    "the operator is told of other hosts twice within ten seconds",
];

/// By subject but the last, the text for a missing notice.
const LATE: [Wrong; 6] = [
    "the operator is not told of what can't be accepted",
    "the operator is not told that a name is in use",
    "the operator is not told that memory is short",
    "the operator is not told that peers are reset which read nothing",
    "the operator is not told that the recording fails",
    "the operator is not told that the recording goes on again",
];

/// The notices of a subject. Times are in microseconds.
#[derive(Clone, Copy, Default)]
struct Topic {
    /// Since when a notice is due.
    pending_since: Option<u64>,
    /// From when on a notice may be written.
    free_at: u64,
    /// The number of events, and the number of events that the notices count.
    happened: u64,
    delivered: u64,
}

impl Topic {
    /// Notes an event, for which a notice is due from now on or from `free_at` on.
    fn note(&mut self, now: u64) {
        self.happened = self.happened.saturating_add(1);
        if self.pending_since.is_none() {
            self.pending_since = Some(now.max(self.free_at));
        }
    }

    /// Notes a notice that counts this many events. Returns whether it may be written now.
    fn tell(&mut self, now: u64, count: u64) -> bool {
        let is_free = self.free_at <= now;
        self.delivered = self.delivered.saturating_add(count);
        self.free_at = now.saturating_add(NOTICE_US);
        self.pending_since = None;
        is_free
    }

    fn is_late(&self, now: u64) -> bool {
        let since = self.pending_since;
        since.is_some_and(|since| now > since.saturating_add(NEWS_US))
    }
}

/// A notice of refused requests of other hosts: the first request, and the number of requests.
#[derive(Clone, Copy)]
pub struct Refusals {
    pub first: Option<LocalRequest>,
    pub count: u64,
}

/// The events of which the operator must read, and what the operator has read. Times are in microseconds.
#[derive(Clone, Copy, Default)]
pub struct Notices {
    topics: [Topic; 7],
    /// The recording has failed and not restarted.
    has_failed: bool,
    pub failures: u32,
    /// A file was made since the last failure.
    pub is_made: bool,
    /// The operator has read of the failure, and not of a restart.
    is_known: bool,
    /// When a connection, a listener or memory was refused last.
    pub refused_at: u64,
    wrong: Option<Wrong>,
}

fn told_by(notice: &Notice<'_>) -> Option<(Subject, u64)> {
    match notice {
        Notice::CannotAccept => Some((Subject::Accept, 1)),
        Notice::InUse(refused) => Some((Subject::InUse, refused.count())),
        Notice::Remote(refused) => Some((Subject::Remote, refused.count())),
        Notice::ShortOfMemory(count) => Some((Subject::Short, *count)),
        Notice::Unread(count) => Some((Subject::Unread, *count)),
        Notice::RecordingFailed { .. } => Some((Subject::ShutdownCause, 1)),
        Notice::RecordingAgain { .. } => Some((Subject::Again, 1)),
        Notice::FiguresLost { .. } | Notice::FewerPlaces { .. } => None,
    }
}

impl Notices {
    pub fn note(&mut self, subject: Subject, now: u64) {
        self.topics[subject as usize].note(now);
    }

    /// Returns the number of names in use of which the operator has read.
    pub fn in_use(&self) -> u64 {
        self.topics[Subject::InUse as usize].delivered
    }

    /// Notes a failed write, or a failed creation of a file. A notice is due unless the operator has read of the
    /// failure.
    pub fn note_write_failed(&mut self, now: u64) {
        if !self.has_failed {
            self.failures = self.failures.saturating_add(1);
        }
        self.has_failed = true;
        self.is_made = false;
        if self.is_known {
            self.topics[Subject::Again as usize].pending_since = None;
        } else {
            self.note(Subject::ShutdownCause, now);
        }
    }

    /// Notes the end of a turn of the recording thread. If the recording has restarted, a notice is due unless the
    /// operator has not read of the failure.
    pub fn note_written(&mut self, now: u64, has_failed: bool) {
        if !self.has_failed || has_failed || !self.is_made {
            return;
        }
        self.has_failed = false;
        if self.is_known {
            self.note(Subject::Again, now);
        } else {
            self.topics[Subject::ShutdownCause as usize].pending_since = None;
        }
    }

    /// Notes a failed accept, or a listener that cannot be watched. A notice is due unless there was one within ten
    /// seconds.
    pub fn on_unaccepted(&mut self, now: u64) {
        self.refused_at = now;
        if self.topics[Subject::Accept as usize].free_at <= now {
            self.note(Subject::Accept, now);
        }
    }

    /// Notes that the operator reads of a failure or of a restart. Returns whether the notice is true and new.
    fn is_news(&mut self, fails: bool) -> bool {
        let was_known = mem::replace(&mut self.is_known, fails);
        self.has_failed == fails && was_known != fails
    }

    /// Returns whether a notice is true. The log has each refusal of a name before its node receives the reply.
    fn is_true(&mut self, now: u64, subject: Subject, count: u64) -> bool {
        let topic = self.topics[subject as usize];
        match subject {
            Subject::Accept => now <= self.refused_at.saturating_add(NEWS_US),
            Subject::InUse => topic.delivered >= topic.happened,
            Subject::Short => count > 0 && now <= self.refused_at.saturating_add(SHORT_US),
            Subject::Unread => topic.delivered <= topic.happened,
            Subject::ShutdownCause => self.is_news(true),
            Subject::Again => self.is_news(false),
            Subject::Remote => true,
        }
    }

    pub fn hear(&mut self, now: u64, notice: &Notice<'_>) {
        let Some((subject, count)) = told_by(notice) else {
            return;
        };
        let is_free = self.topics[subject as usize].tell(now, count);
        if !self.is_true(now, subject, count) {
            self.wrong = Some(UNTRUE[subject as usize]);
        }
        if !is_free {
            self.wrong = Some(TWICE[subject as usize]);
        }
    }

    /// Fails if a notice is late, or if a check of a notice failed.
    pub fn judge(&self, now: u64) -> Result<(), Wrong> {
        let mut topics = self.topics.iter().zip(LATE);
        let late = topics.find(|each| each.0.is_late(now));
        let wrong = late.map(|each| each.1).or(self.wrong);
        wrong.map_or(Ok(()), Err)
    }
}
