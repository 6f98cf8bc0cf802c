//! The readiness of a stream: the calls that may move bytes, and the reports that are to come.
ghost use Rattle.std.specs.Prelude.{◌≡◌, [], ◌∷◌, ◌++◌, true, Some, is_ok, is_some};
ghost use Rattle.portmap_worker.specs.Link.{is_unsent, may_move, wanted};
ghost use Rattle.portmap_worker.specs.Quiet.{asked, covers, is_left, is_read_due, is_room_due, watches};
ghost use Rattle.portmap_worker.specs.declared.readiness.Note.TheVariants.{Read, Reported, Wrote};
ghost use Rattle.portmap_worker.specs.declared.readiness.Reading.TheVariants.{Dry};
ghost use Rattle.portmap_worker.specs.declared.readiness.Writing.TheVariants.{Waits};

use crate::system::Interest;
use portmap_link::{GhostList, Pull, Put};
use std::io;

/// The read state of a stream. The poll is edge-triggered.
#[derive(Clone, Copy, PartialEq, Eq)]
pub(crate) enum Reading {
    Open,
    /// No byte was left, and nothing was reported since.
    Dry,
}

/// The write state of a stream, by its last write.
#[derive(Clone, Copy, PartialEq, Eq)]
pub(crate) enum Writing {
    Free,
    /// Bytes wait and may be written: a signal cut the write short, or the stream was reported since.
    CutShort,
    /// Bytes wait until the stream is reported.
    Waits,
}

/// An event of a stream. Only proofs read notes.
#[derive(Drop)]
pub(crate) enum Note {
    Read { would_wait: bool },
    Wrote { answer: Put, would_wait: bool },
    Watched(Interest),
    /// The poll has reported the stream, or the stream is tried without a report.
    Reported,
}

#[derive(Drop)]
pub(crate) struct Readiness {
    pub(crate) reading: Reading,
    pub(crate) writing: Writing,
    watched: Option<Interest>,
    notes: GhostList<Note>,
    ghost watched_as_asked: { watched ≡ asked notes },
    ghost unsent_as_left: { is_unsent writing ≡ is_left notes },
    ghost dry: { reading ≡ Dry → is_some watched ≡ true → is_read_due notes ≡ true },
    ghost waits: { writing ≡ Waits → is_room_due notes ≡ true },
}

impl Readiness {
    pub(crate) fn new() -> Readiness
        ensures { result.notes ≡ [] }
    {
        Readiness {
            reading: Reading::Open,
            writing: Writing::Free,
            watched: None,
            notes: GhostList::new(),
        }
    }

    pub(crate) fn may_move(&self) -> bool
        ensures { result ≡ may_move self.now.reading self.now.writing }
    {
        match self.writing {
            Writing::Free => self.reading == Reading::Open,
            Writing::CutShort => true,
            Writing::Waits => false,
        }
    }

    pub(crate) fn is_unsent(&self) -> bool
        ensures { result ≡ is_unsent self.now.writing }
    {
        self.writing != Writing::Free
    }

    pub(crate) fn wanted(&self) -> Interest
        ensures { result ≡ wanted self.now.writing }
    {
        if self.is_unsent() {
            Interest::Both
        } else {
            Interest::Reading
        }
    }

    pub(crate) fn is_known(&self) -> bool
        ensures { result ≡ is_some self.now.watched }
    {
        self.watched.is_some()
    }

    pub(crate) fn is_watched(&self) -> bool
        ensures { result ≡ covers (is_unsent self.now.writing) self.now.watched }
    {
        self.watched == Some(Interest::Both) || self.watched == Some(self.wanted())
    }

    pub(crate) fn on_watched(&mut self, outcome: io::Result<()>) -> bool
        ensures answer { result ≡ is_ok outcome }
        ensures reading { self.new.reading ≡ self.old.reading }
        ensures writing { self.new.writing ≡ self.old.writing }
        ensures noted { self.new.notes ≡ self.old.notes ++ watches outcome (wanted self.old.writing) }
        ensures watched { result ≡ true → self.new.watched ≡ Some (wanted self.old.writing) }
    {
        if outcome.is_err() {
            return false;
        }
        let interest = self.wanted();
        self.watched = Some(interest);
        self.notes.note(&Note::Watched(interest));
        true
    }

    /// Records a report, or that the stream is to be tried without one.
    pub(crate) fn on_report(&mut self)
        ensures moves { may_move self.new.reading self.new.writing ≡ true }
        ensures noted { self.new.notes ≡ self.old.notes ++ Reported ∷ [] }
    {
        self.notes.note(&Note::Reported);
        self.reading = Reading::Open;
        if self.writing == Writing::Waits {
            self.writing = Writing::CutShort;
        }
    }

    /// Records a pull into `room` bytes. After a short read of a stream that is not watched yet, no byte is left: once
    /// watched, the stream is reported with all that arrived earlier.
    pub(crate) fn on_pull(&mut self, answer: &Pull, room: usize, is_blocked: bool)
        ensures { self.new.notes ≡ self.old.notes ++ Read is_blocked ∷ [] }
    {
        let is_dry = match answer {
            Pull::Piece(count) => *count < room && !self.is_known(),
            Pull::Later => is_blocked,
            Pull::End | Pull::Fault => false,
        };
        self.reading = if is_dry { Reading::Dry } else { Reading::Open };
        self.notes.note(&Note::Read {
            would_wait: is_blocked,
        });
    }

    pub(crate) fn on_put(&mut self, answer: &Put, is_blocked: bool)
        ensures { self.new.notes ≡ self.old.notes ++ Wrote answer.now is_blocked ∷ [] }
    {
        self.notes.note(&Note::Wrote {
            answer: *answer,
            would_wait: is_blocked,
        });
        self.writing = match answer {
            Put::Later if is_blocked => Writing::Waits,
            Put::Later => Writing::CutShort,
            Put::Wrote(_) | Put::Fault => Writing::Free,
        };
    }
}
