//! The health check of scripted port mappers.
ghost use Rattle.std.specs.Prelude.{◌≡◌};

use super::printed::{bytes_of, ending};
use portmap_command::actions::Failure;
use portmap_command::health::{Checked, Outcome, Step, do_health, health_node, look_up, register};
use portmap_link::{GhostList, Writing};
use portmap_testing::bytes::Bytes;
use portmap_testing::cases::{Trial, all_come};
use portmap_testing::tape::{STEADY, Tape};
use std::alloc::Global;
use std::test::Fail;

/// A port mapper that replies to each request by the next of these words. It counts the steps.
#[derive(Drop)]
struct Scripted<'a> {
    words: Vec<&'a str>,
    registrations: usize,
    look_ups: usize,
    closed: usize,
    pauses: usize,
    steps: GhostList<(Step, Outcome)>,
}

impl<'a> Scripted<'a> {
    fn new(words: Vec<&'a str>) -> Scripted<'a> {
        Scripted {
            words,
            registrations: 0,
            look_ups: 0,
            closed: 0,
            pauses: 0,
            steps: GhostList::new(),
        }
    }

    fn count(&mut self, step: Step)
        ensures { self.new.steps ≡ self.old.steps }
    {
        match step {
            Step::Register => self.registrations = self.registrations.saturating_add(1),
            Step::LookUp => self.look_ups = self.look_ups.saturating_add(1),
            Step::Close => self.closed = self.closed.saturating_add(1),
            Step::Pause => self.pauses = self.pauses.saturating_add(1),
        }
    }

    /// Returns the outcome of the latest request.
    fn reply(&self) -> Outcome {
        let index = self.registrations.saturating_add(self.look_ups);
        match self.words.get(index.saturating_sub(1)) {
            Some(word) => meant(word),
            None => Err(Failure::StrangeAnswer),
        }
    }
}

fn meant(word: &str) -> Outcome {
    match word {
        "granted" | "found" => Ok(true),
        "refused" | "missing" => Ok(false),
        "nobody" => Err(Failure::NoConnection),
        "memory" => Err(Failure::Memory),
        _ => Err(Failure::StrangeAnswer),
    }
}

impl Checked for Scripted<'_> {
    ghost steps = { λ s. s.steps };

    fn make(&mut self, step: Step) -> Outcome {
        self.count(step);
        let outcome = match step {
            Step::Close | Step::Pause => Ok(true),
            _ => self.reply(),
        };
        self.steps.note(&(step, outcome));
        outcome
    }
}

/// Returns the words of a line, in which `19*refused` is 19 words.
fn words_of<'a>(alloc: Global, line: &'a str) -> Result<Vec<&'a str>, Fail> {
    let mut words = Vec::new(alloc);
    for word in line.split_whitespace() {
        let (times, word) = word.split_once('*').unwrap_or(("1", word));
        for _ in 0..times.parse::<u32>()? {
            words.push(word)?;
        }
    }
    Ok(words)
}

/// Appends the numbers of registrations, look-ups, closes and pauses.
fn put_counts(printed: &mut String, peer: &Scripted<'_>) -> Result<(), Fail> {
    let (first, second) = (peer.registrations, peer.look_ups);
    let (closed, pauses) = (peer.closed, peer.pauses);
    write!(printed, " saw {first} {second} {closed} {pauses}")?;
    Ok(())
}

/// The replies of two port mappers, with a `/` between them: how a check of both ends, and what each of them counts.
struct Checks;

impl Trial for Checks {
    fn came(&self, alloc: Global, given: &str) -> Result<String, Fail> {
        let (four, six) = given.split_once('/').unwrap_or((given, ""));
        let has_ipv6 = !six.is_empty();
        let mut four = Scripted::new(words_of(alloc, four)?);
        let mut six = Scripted::new(words_of(alloc, six)?);
        let mut errors = Writing::new(Vec::new(alloc));
        let status = do_health(&mut four, &mut six, has_ipv6, 4369, &mut errors);
        let mut printed = ending(alloc, status, b"", &errors.into_inner())?;
        put_counts(&mut printed, &four)?;
        put_counts(&mut printed, &six)?;
        Ok(printed)
    }
}

#[test]
fn a_port_mapper_that_works_passes(rt: HostRuntime) -> Result<(), Fail> {
    let table = "
        granted found missing / granted found missing -> 0 saw 1 2 1 0 saw 1 2 1 0
        granted found missing -> 0 saw 1 2 1 0 saw 0 0 0 0
        19*refused granted found 19*found missing / granted found missing -> 0 saw 20 21 1 38 saw 1 2 1 0
    ";
    all_come(&rt, &Checks, table)
}

#[test]
fn what_fails_is_printed_with_its_address(rt: HostRuntime) -> Result<(), Fail> {
    let table = "
        nobody -> 1 err epmd: cannot connect to 127.0.0.1:4369| saw 1 0 0 0 saw 0 0 0 0
        nobody / granted found missing -> 1 err epmd: cannot connect to 127.0.0.1:4369| saw 1 0 0 0 saw 0 0 0 0
        silence -> 1 err epmd: strange answer from 127.0.0.1:4369| saw 1 0 0 0 saw 0 0 0 0
        memory -> 3 err epmd: out of memory| saw 1 0 0 0 saw 0 0 0 0
        20*refused granted found missing -> 1 err epmd: cannot register epmd-health at 127.0.0.1:4369| saw 20 0 0 19 saw 0 0 0 0
        refused silence -> 1 err epmd: strange answer from 127.0.0.1:4369| saw 2 0 0 1 saw 0 0 0 0
        granted missing -> 1 err epmd: cannot find epmd-health at 127.0.0.1:4369| saw 1 1 0 0 saw 0 0 0 0
        granted silence -> 1 err epmd: strange answer from 127.0.0.1:4369| saw 1 1 0 0 saw 0 0 0 0
        granted found 20*found missing -> 1 err epmd: cannot free epmd-health at 127.0.0.1:4369| saw 1 21 1 19 saw 0 0 0 0
        granted found found nobody -> 1 err epmd: cannot connect to 127.0.0.1:4369| saw 1 3 1 1 saw 0 0 0 0
        granted found missing / nobody -> 1 err epmd: cannot connect to [::1]:4369| saw 1 2 1 0 saw 1 0 0 0
        granted found missing / granted missing -> 1 err epmd: cannot find epmd-health at [::1]:4369| saw 1 2 1 0 saw 1 1 0 0
        granted found missing / granted found memory -> 3 err epmd: out of memory| saw 1 2 1 0 saw 1 2 1 0
    ";
    all_come(&rt, &Checks, table)
}

/// An ALIVE2_REQ of a hidden node on port 1 that speaks versions 5 to 6, and a PORT_PLEASE2_REQ of its name.
const ALIVE: Bytes = b"\x00\x1Bx\x00\x01H\x00\x00\x06\x00\x05\x00\x0Eepmd-health-15\x00\x00";

const PORT: Bytes = b"\x00\x0Fzepmd-health-15";

/// 15, modulo 16.
const NUMBER: u32 = 4_294_967_295;

/// Returns the outcome of a registration over this stream, and the request.
fn registered(alloc: Global, tape: Tape<'_>) -> Result<(Outcome, Vec<u8>), Fail> {
    Ok(match register(alloc, tape, &health_node(alloc, NUMBER)?) {
        Ok(Some(held)) => (Ok(true), held.leave().sink),
        Ok(None) => (Ok(false), ALIVE.to_vec(alloc)?),
        Err(failure) => (Err(failure), ALIVE.to_vec(alloc)?),
    })
}

/// Returns the outcome of a look-up over this stream, and the request.
fn looked_up(alloc: Global, tape: Tape<'_>) -> Result<(Outcome, Vec<u8>), Fail> {
    let mut tape = tape;
    let outcome = look_up(alloc, &mut tape, &health_node(alloc, NUMBER)?);
    Ok((outcome, tape.sink))
}

/// A request and its answer: the outcome, after `unasked` if another request was written.
struct Requests;

impl Trial for Requests {
    fn came(&self, alloc: Global, given: &str) -> Result<String, Fail> {
        let (word, answer) = given.split_once(' ').unwrap_or((given, ""));
        let answer = bytes_of(alloc, answer)?;
        let tape = Tape::new(alloc, &answer, STEADY);
        let ((outcome, asked), request) = match word {
            "register" => (registered(alloc, tape)?, ALIVE),
            _ => (looked_up(alloc, tape)?, PORT),
        };
        let is_asked = asked.as_slice() == request;
        let asked = if is_asked { "" } else { "unasked " };
        let outcome = match outcome {
            Ok(true) => "Ok(true)",
            Ok(false) => "Ok(false)",
            Err(Failure::StrangeAnswer) => "Err(StrangeAnswer)",
            Err(_) => "Err",
        };
        Ok(format!(in alloc; "{asked}{outcome}")?)
    }
}

#[test]
fn each_request_is_that_of_the_protocol(rt: HostRuntime) -> Result<(), Fail> {
    let table = "
        register v\0\0\0\0\x04 -> Ok(true)
        register y\0\0\x01 -> Ok(true)
        register v\x01\0\0\0\0 -> Ok(false)
        register y\x63\0\0 -> Ok(false)
        register v\0\0 -> Err(StrangeAnswer)
        register w\0\0\0\0\x04 -> Err(StrangeAnswer)
        register -> Err(StrangeAnswer)
        find w\0\0\x01H\0\0\x06\0\x05\0\x0Eepmd-health-15\0\0 -> Ok(true)
        find w\0\0\x02H\0\0\x06\0\x05\0\x0Eepmd-health-15\0\0 -> Ok(false)
        find w\0\0\x01M\0\0\x06\0\x05\0\x0Eepmd-health-15\0\0 -> Ok(false)
        find w\0\0\x01H\0\0\x06\0\x05\0\x0Eepmd-health-14\0\0 -> Ok(false)
        find w\0\0\x01H\0\0\x06\0\x05\0\x0Eepmd-health-15\0\x01x -> Ok(false)
        find w\x01 -> Ok(false)
        find w\0\0\x01H -> Err(StrangeAnswer)
        find -> Err(StrangeAnswer)
    ";
    all_come(&rt, &Requests, table)
}
