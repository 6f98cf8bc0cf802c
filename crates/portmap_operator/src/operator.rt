//! Notices to the operator, which are gathered for some seconds and written once.
ghost use Rattle.std.specs.Prelude.{◌≡◌, ◌-◌, ◌&&◌, ◌==◌, true, false};
ghost use Rattle.portmap_operator.specs.declared.operator.TheConstants.{NOTICE_SECONDS};

use crate::activity::Activity;
use crate::figures::Figures;
use crate::host::Host;
use crate::notice::Notice;
use crate::outcome::Slots;
use crate::refused::Refused;
use crate::remote::RemoteRefused;
use crate::write_fault::WORDS_MOST;
use portmap_core::Entry;
use portmap_link::NoMemory;
use std::alloc::Global;
use std::mem;

/// At least this many seconds pass between two notices of a kind.
const NOTICE_SECONDS: u32 = 10;

/// Returns whether a notice is due at the end of a second. For `NOTICE_SECONDS` no other of its kind follows.
fn notice(quiet: &mut u32, is_any: bool) -> bool
    ensures says { result ≡ (is_any && quiet.old == 0) }
    ensures begins { result ≡ true → quiet.new ≡ NOTICE_SECONDS - 1 }
    ensures goes_on { result ≡ false → quiet.new ≡ quiet.old - 1 }
{
    let is_due = is_any && *quiet == 0;
    *quiet = if is_due {
        NOTICE_SECONDS - 1
    } else {
        quiet.saturating_sub(1)
    };
    is_due
}

#[derive(Default, Drop)]
struct Quiet {
    accept: u32,
    in_use: u32,
    remote: u32,
    short: u32,
    unread: u32,
    failed: u32,
    again: u32,
    figures: u32,
}

/// The notices of some seconds, and the counters.
pub struct Operator<'a> {
    slots: Slots,
    in_use: Refused,
    remote: RemoteRefused,
    /// The number of requests that were refused since memory is short.
    short: u64,
    unread: u64,
    quiet: Quiet,
    /// The counters, and the path of the file that they are written to.
    figures: Option<(Figures, &'a str)>,
}

impl Drop for Operator<'_> {
    fn drop(self) {
        let Operator {
            slots: _,
            in_use: _,
            remote: _,
            short: _,
            unread: _,
            quiet: _,
            figures: _,
        } = self;
    }
}

impl<'a> Operator<'a> {
    pub fn new(
        alloc: Global,
        places: u32,
        figures: Option<&'a str>,
    ) -> Result<Operator<'a>, NoMemory> {
        Ok(Operator {
            slots: Slots::new(alloc, places)?,
            in_use: Refused::new(),
            remote: RemoteRefused::new(),
            short: 0,
            unread: 0,
            quiet: Quiet::default(),
            figures: figures.map(|path| (Figures::new(), path)),
        })
    }

    pub fn note(&mut self, alloc: Global, entry: &Entry) {
        let (outcome, asked) = self.slots.note(alloc, entry);
        self.in_use.note(alloc, outcome, entry);
        if let Some(asked) = asked {
            self.remote.note(asked);
        }
        if let Some((figures, _)) = &mut self.figures {
            figures.count(outcome);
        }
    }

    /// Counts the unanswered connection that showed that memory is short.
    pub fn note_short(&mut self) {
        self.short = self.short.saturating_add(1);
    }

    pub fn end_second<R: Host>(&mut self, rt: &R, alloc: Global, news: Activity) {
        self.short = self.short.saturating_add(news.refused);
        self.unread = self.unread.saturating_add(news.resets);
        if notice(&mut self.quiet.accept, news.exhausted) {
            rt.notify(alloc, &Notice::CannotAccept);
        }
        if notice(&mut self.quiet.in_use, self.in_use.count() > 0) {
            let refused = mem::replace(&mut self.in_use, Refused::new());
            rt.notify(alloc, &Notice::InUse(refused));
        }
        if notice(&mut self.quiet.remote, self.remote.count() > 0) {
            let refused = mem::replace(&mut self.remote, RemoteRefused::new());
            rt.notify(alloc, &Notice::Remote(refused));
        }
        if notice(&mut self.quiet.short, self.short > 0) {
            rt.notify(alloc, &Notice::ShortOfMemory(mem::take(&mut self.short)));
        }
        if notice(&mut self.quiet.unread, self.unread > 0) {
            rt.notify(alloc, &Notice::Unread(mem::take(&mut self.unread)));
        }
        if let Some((figures, path)) = &self.figures {
            let fault = figures.publish(rt, alloc, path).err();
            let is_due = notice(&mut self.quiet.figures, fault.is_some());
            match fault {
                Some(fault) if is_due => {
                    let mut buffer = [0; WORDS_MOST];
                    let reason = fault.words(&mut buffer);
                    rt.notify(alloc, &Notice::FiguresLost { path, reason });
                }
                _ => {}
            }
        }
    }

    /// Returns whether a notice is due of a recording that has failed, or has begun again, at the end of a second.
    pub fn is_recording_due(&mut self, has_failed: bool, has_begun_again: bool) -> bool {
        let is_failure_due = notice(&mut self.quiet.failed, has_failed);
        let is_again_due = notice(&mut self.quiet.again, has_begun_again);
        is_failure_due || is_again_due
    }
}
