//! The health check: whether a port mapper registers a node, finds it, and frees its name.
ghost use Rattle.std.specs.Prelude.{◌≡◌, ◌<◌, ◌++◌, ◌⊎◌, [], ◌∷◌, ℕ, Bool, true, List, Option, Result, Ok, IfOk};
ghost use Rattle.portmap_wire.specs.Node.{Node};
ghost use Rattle.portmap_wire.specs.declared.request.Request.TheVariants as request;
ghost use Rattle.portmap_client.specs.Answer.{SaysCreation, SaysFound};
ghost use Rattle.portmap_client.specs.Exchange.{Calls, StreamView, view};
ghost use Rattle.portmap_client.specs.declared.fault.ClientFault.{ClientFault};
ghost use Rattle.portmap_command.specs.Errors.{IsPrinted};
ghost use Rattle.portmap_command.specs.Health.{Ends, Grows, Made, Makes, PrintsHealth, failing, health_node};
ghost use Rattle.portmap_command.specs.Health.{is_granted};
ghost use Rattle.portmap_command.specs.Health.{line_of_health, look_up_outcome, plan, registration_outcome};
ghost use Rattle.portmap_command.specs.Health.{status_of_health, text_of};
ghost use Rattle.portmap_command.specs.declared.health.Step.{Step};

use crate::actions::{DONE, Failure, NOT_DONE, fail};
use crate::errors::say_all;
use itoa::Buffer;
use portmap_client::{ClientFault, Registration, lookup};
use portmap_link::{Input, NoMemory, Output, Writing};
use portmap_wire::{Name, Reg};
use std::alloc::Global;
use std::io::Write;

/// The number of names that checks register, so that checks at once rarely meet.
const NAMES: u32 = 16;

/// The limit on tries of a registration, and of a look-up of a closed name.
const TRIES: u32 = 20;

/// Milliseconds between two tries.
pub const PAUSE_MS: u64 = 50;

#[derive(Clone, Copy, PartialEq, Eq)]
pub enum Step {
    Register,
    LookUp,
    Close,
    Pause,
}

/// The outcome of a step: whether the node is registered or found, or why there is no answer.
pub type Outcome = Result<bool, Failure>;

pub type Made = (Step, Outcome);

/// Returns the node that a check registers. `number` modulo `NAMES` ends its name. Nothing listens at its port.
pub fn health_node(alloc: Global, number: u32) -> Result<Reg, NoMemory>
    ensures { IfOk result (λ node. node ≡ health_node number) }
{
    let mut name = Vec::from_slice(alloc, b"epmd-health-")?;
    name.extend_from_slice(Buffer::new().format(number % NAMES).as_bytes())?;
    let name = Name::read(alloc, &name).map_err(|_| NoMemory)?;
    Reg::new(alloc, 1, b'H', 0, 6, 5, name, &[]).map_err(|_| NoMemory)
}

/// Registers the node over a connection. Returns `None` if the port mapper refuses it.
pub fn register<S: Input + Output + Drop>(
    alloc: Global,
    stream: S,
    node: &Reg,
) -> Result<Option<Registration<S>>, Failure>
    ensures { (after : StreamView) × (ended : Result ℕ ClientFault)
        × (let seen = view S.left S.held S.pulls S.puts S.broken in
        Calls (request.Alive node.now) SaysCreation (seen stream) after ended)
        × (is_granted result ≡ registration_outcome ended) }
{
    match Registration::make(alloc, stream, node) {
        Ok(registration) => Ok(Some(registration)),
        Err((ClientFault::Refused(_), _)) => Ok(None),
        Err((fault, _)) => Err(Failure::from(fault)),
    }
}

/// Returns whether the port mapper finds this node with all its data.
pub fn look_up<S: Input + Output>(alloc: Global, stream: &mut S, node: &Reg) -> Outcome
    ensures { (ended : Result (Option Node) ClientFault)
        × (let seen = view S.left S.held S.pulls S.puts S.broken in
        Calls (request.Port node.now.name) SaysFound (seen stream.old) (seen stream.new) ended)
        × (result ≡ look_up_outcome node.now ended) }
{
    match lookup(alloc, stream, &node.name)? {
        Some(found) => Ok(found == *node),
        None => Ok(false),
    }
}

/// A port mapper at one address. Each request uses a new connection. `Close` closes that of the registration.
pub trait Checked {
    ghost steps: { Self → List Made };

    fn make(&mut self, step: Step) -> Outcome
        ensures recorded { Self.steps self.new ≡ Self.steps self.old ++ (step, result) ∷ [] }
        ensures alone { (step ≡ Step.Close) ⊎ (step ≡ Step.Pause) → result ≡ Ok true };
}

/// Makes a step until it has the wanted answer, at most `most` times, with a pause between two tries.
fn pass<P: Checked>(peer: &mut P, step: Step, wanted: bool, most: u32) -> Result<(), Made>
    requires { 0 < most }
    ensures { Grows (Makes (step, wanted, most) result) (P.steps peer.old) (P.steps peer.new) }
{
    for _ in 1..most {
        match peer.make(step) {
            Ok(answer) if answer == wanted => return Ok(()),
            Ok(_) => {}
            failed => return Err((step, failed)),
        }
        let _ = peer.make(Step::Pause);
    }
    match peer.make(step) {
        Ok(answer) if answer == wanted => Ok(()),
        last => Err((step, last)),
    }
}

/// Checks the port mapper at one address. Returns the last step if it fails.
fn check<P: Checked>(peer: &mut P) -> Result<(), Made>
    ensures { Grows (Ends plan result) (P.steps peer.old) (P.steps peer.new) }
{
    pass(peer, Step::Register, true, TRIES)?;
    pass(peer, Step::LookUp, true, 1)?;
    pass(peer, Step::Close, true, 1)?;
    pass(peer, Step::LookUp, false, TRIES)
}

/// Returns the first part of the line of a check that ends with this step.
fn text_of(step: Step, outcome: Outcome) -> &'static [u8]
    ensures { result.now ≡ text_of step outcome }
{
    match (outcome, step) {
        (Err(Failure::NoConnection), _) => b"epmd: cannot connect to ",
        (Err(_), _) => b"epmd: strange answer from ",
        (Ok(_), Step::Register) => b"epmd: cannot register epmd-health at ",
        (Ok(false), _) => b"epmd: cannot find epmd-health at ",
        (Ok(true), _) => b"epmd: cannot free epmd-health at ",
    }
}

/// Prints why the check of an address fails, by its last step. Returns the status.
fn report<E: Write>(errors: &mut Writing<E>, last: Made, address: &'static [u8], port: u16) -> u8
    ensures status { result ≡ status_of_health last.1 }
    ensures line { IsPrinted E.contents (line_of_health last address.now port) errors.old errors.new }
{
    let (step, outcome) = last;
    if let Err(Failure::Memory) = outcome {
        return fail(errors, Failure::Memory);
    }
    let mut digits = Buffer::new();
    let port = digits.format(port).as_bytes();
    let _ = say_all(errors, &[text_of(step, outcome), address, port, b"\n"]);
    NOT_DONE
}

/// Checks the port mapper of this host at one port: `four` at 127.0.0.1 and, if the host has ::1, `six` at ::1. Returns
/// 0 if they pass. At the first fault it prints one line to `errors`, and returns 1, or 3 if memory ran out.
pub fn do_health<P: Checked, E: Write>(
    four: &mut P,
    six: &mut P,
    has_ipv6: bool,
    port: u16,
    errors: &mut Writing<E>,
) -> u8
    ensures silent { result ≡ DONE → errors.new ≡ errors.old }
    ensures printed { (first second : Result Unit Made)
        × Grows (Ends plan first) (P.steps four.old) (P.steps four.new)
        × IfOk first (λ _. has_ipv6 ≡ true → Grows (Ends plan second) (P.steps six.old) (P.steps six.new))
        × PrintsHealth (failing first has_ipv6 second) port result E.contents errors.old errors.new }
{
    if let Err(last) = check(four) {
        return report(errors, last, b"127.0.0.1:", port);
    }
    if !has_ipv6 {
        return DONE;
    }
    match check(six) {
        Ok(()) => DONE,
        Err(last) => report(errors, last, b"[::1]:", port),
    }
}
