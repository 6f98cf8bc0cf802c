//! Calls of a client, one connection served, and bytes that wait for a device.
use crate::devices::{device, plan};
use crate::lists::{dumped, listed};
use crate::played::played;
use crate::requests::{Fields, registration};
use crate::words::{Digits, by_name, bytes, name, number, shown, text, wrong};
use anyhow::{Result, ensure};
use portmap_client::{ClientFault, Registration, dump, kill, lookup, names, stop};
use portmap_link::{Input, Outbox, Output, send, write_reply};
use portmap_testing::marked;
use portmap_testing::tape::{DevicePlan, STEADY, Tape};
use portmap_wire::Reg;
use std::alloc::Global;

pub struct Calls {
    /// The bytes that a call wrote before memory was refused to it.
    begun: Vec<u8>,
    outbox: Outbox,
    output: Tape<'static>,
}

impl Drop for Calls {
    fn drop(self) {
        let Calls {
            begun: _,
            outbox: _,
            output: _,
        } = self;
    }
}

impl Calls {
    pub fn new(alloc: Global) -> Calls {
        Calls {
            begun: Vec::new(alloc),
            outbox: Outbox::new(alloc),
            output: Tape::new(alloc, &[], STEADY),
        }
    }

    pub fn perform(&mut self, alloc: Global, words: &[&str]) -> Result<String> {
        match *words {
            [ref call @ .., "gives", answer, device] => {
                self.called(alloc, call, plan(device)?, &bytes(alloc, answer)?)
            }
            ["endless", call] => endless(alloc, call),
            [act @ ("once" | "pulls"), sent, ref devices @ ..] => {
                played(alloc, act, &bytes(alloc, sent)?, devices)
            }
            _ => self.sent(alloc, words),
        }
    }

    /// Makes a call over a device that gives these bytes. Prints its result, the bytes that it wrote, and those that it
    /// left unread.
    fn called(
        &mut self,
        alloc: Global,
        call: &[&str],
        plan: DevicePlan,
        gives: &[u8],
    ) -> Result<String> {
        let mut tape = device(alloc, gives, plan, 10_000)?;
        if let ["register", port, name, extra] = *call {
            let node = registration(alloc, number(port)?, 6, name, &bytes(alloc, extra)?)?;
            return self.registered(alloc, &node, tape);
        }
        let says = asked(alloc, &mut tape, call)?;
        self.wrote(alloc, says.as_str(), &tape)
    }

    /// Prints the creation of a registration, or its fault.
    fn registered(&mut self, alloc: Global, node: &Reg, tape: Tape<'_>) -> Result<String> {
        match marked!(alloc, Registration::make(alloc, tape, node)) {
            Ok(registration) => {
                let says = format!(in alloc; "{}", registration.creation())?;
                self.wrote(alloc, says.as_str(), &registration.leave())
            }
            Err((fault, tape)) => self.wrote(alloc, by_name(alloc, &fault)?.as_str(), &tape),
        }
    }

    /// Prints what a call wrote and left. A call to which memory is refused writes a prefix of what it writes
    /// otherwise.
    fn wrote(&mut self, alloc: Global, says: &str, tape: &Tape<'_>) -> Result<String> {
        let is_so = tape.sink.starts_with(&self.begun);
        ensure!(is_so, "a refusal has written something else");
        self.begun.clear();
        if says == "NoMemory" {
            self.begun.extend_from_slice(&tape.sink)?;
        }
        let (sink, left) = (Digits(&tape.sink), Digits(tape.source));
        text(format!(in alloc; "{says} wrote {sink} left {left}"))
    }

    fn sent(&mut self, alloc: Global, words: &[&str]) -> Result<String> {
        match *words {
            // Another device, for which no bytes wait.
            ["to", device] => {
                self.output = Tape::new(alloc, &[], plan(device)?);
                self.outbox = Outbox::new(alloc);
            }
            ["push", word] => self.outbox.push(&bytes(alloc, word)?)?,
            ["flush"] => {
                let flush = self.outbox.flush(&mut self.output);
                return text(format!(in alloc; "{flush:?} left {}", Digits(self.outbox.pending())));
            }
            ["send", word] => {
                let (count, flush) = send(&mut self.output, &bytes(alloc, word)?);
                return text(format!(in alloc; "{count} {flush:?}"));
            }
            ["tell", word, turns] => {
                let (reply, turns) = (bytes(alloc, word)?, number(turns)?);
                return shown(alloc, write_reply(&mut self.output, &reply, turns));
            }
            ["written"] => {
                let has_failed = Output::failed(&self.output);
                let end = if has_failed { " failed" } else { "" };
                return text(format!(in alloc; "{}{end}", Digits(&self.output.sink)));
            }
            _ => return wrong("no such act"),
        }
        Ok(String::new(alloc))
    }
}

fn asked<S: Input + Output>(alloc: Global, stream: &mut S, call: &[&str]) -> Result<String> {
    match *call {
        ["kill"] => shown(alloc, marked!(alloc, kill(alloc, stream))),
        ["stop", word] => {
            let name = name(alloc, word)?;
            shown(alloc, marked!(alloc, stop(alloc, stream, &name)))
        }
        ["lookup", word] => {
            let name = name(alloc, word)?;
            found(alloc, marked!(alloc, lookup(alloc, stream, &name)))
        }
        ["names"] => listed(alloc, marked!(alloc, names(alloc, stream))),
        ["dump"] => dumped(alloc, marked!(alloc, dump(alloc, stream))),
        _ => wrong("no such call"),
    }
}

fn found(alloc: Global, says: Result<Option<Reg>, ClientFault>) -> Result<String> {
    match says {
        Ok(Some(reg)) => text(format!(in alloc; "{}", Fields(&reg))),
        says => shown(alloc, says),
    }
}

/// Makes a call over a stream that gives more letters `a` than any call may read. Prints the number of letters that the
/// call read.
fn endless(alloc: Global, call: &str) -> Result<String> {
    let mut source = Vec::new(alloc);
    source.resize(20_000_000, b'a')?;
    let mut stream = Tape::new(alloc, &source, STEADY);
    let says = asked(alloc, &mut stream, &[call])?;
    let taken = source.len().saturating_sub(stream.source.len());
    text(format!(in alloc; "{says} took {taken}"))
}
