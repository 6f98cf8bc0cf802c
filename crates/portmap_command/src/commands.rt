//! The actions of a client: what the running port mapper is asked, and how its answer is printed.
ghost use Rattle.std.specs.Prelude.{◌≡◌, ◌≢◌, ◌++◌, Result, Ok, IfOk};
ghost use Rattle.portmap_link.specs.Adapters.{writing_inner, writing_broken};
ghost use Rattle.portmap_client.specs.Exchange.{view};
ghost use Rattle.portmap_client.specs.declared.fault.ClientFault.{ClientFault};
ghost use Rattle.portmap_command.specs.Actions.{Fails};
ghost use Rattle.portmap_command.specs.Commands.{Asks, head_line, names_text, dump_text};
ghost use Rattle.portmap_command.specs.Commands.{answer_text, IsPage, IsPageOf, NamesArePrinted, Prints, PrintsPage};
ghost use Rattle.portmap_command.specs.declared.actions.Failure.{Failure};
ghost use Rattle.portmap_command.specs.declared.commands.ClientAnswer.{ClientAnswer};
ghost use Rattle.portmap_command.specs.declared.commands.Page.{Page};

use crate::actions::{DONE, FAILED, Failure, NOT_DONE, end, fail};
use crate::words::Ask;
use itoa::Buffer;
use portmap_client::{ClientFault, Kill, Stop, dump, kill, names, stop};
use portmap_daemon::shown;
use portmap_link::{Input, NoMemory, Output, Writing, write_reply};
use portmap_wire::{Line, put_names_line};
use std::alloc::Global;
use std::io::Write;

/// The limit on puts of a text. The longest text has less than 17,000,000 bytes. Each put that does not block takes at
/// least one byte.
const TURNS: u64 = 1_000_000_000;

/// The answer of the port mapper to an action.
#[derive(Drop)]
enum ClientAnswer {
    /// Its port, and the registered names with their ports.
    Names((u32, Vec<Line>)),
    /// Its port, and the text of all known names.
    Dump((u32, Vec<u8>)),
    Kill(Kill),
    Stop(Stop),
}

/// A text for standard output, and the status once it is printed.
#[derive(Drop)]
struct Page {
    text: Vec<u8>,
    status: u8,
}

impl From<ClientFault> for Failure {
    ghost use Rattle.std.specs.Prelude.{◌≡◌};
    ghost use Rattle.portmap_command.specs.Commands.{failure_of_client};

    ghost from_gives = { λ f e. e ≡ failure_of_client f };

    fn from(fault: ClientFault) -> Failure {
        match fault {
            ClientFault::NoMemory => Failure::Memory,
            _ => Failure::StrangeAnswer,
        }
    }
}

impl From<NoMemory> for Failure {
    ghost use Rattle.std.specs.Prelude.{◌≡◌};
    ghost use Rattle.portmap_command.specs.declared.actions.Failure.TheVariants as failure;

    ghost from_gives = { λ _ e. e ≡ failure.Memory };

    fn from(_: NoMemory) -> Failure {
        Failure::Memory
    }
}

/// Sends the request of an action and reads the answer.
fn ask<S: Input + Output>(
    alloc: Global,
    asked: &Ask,
    stream: &mut S,
) -> Result<ClientAnswer, ClientFault>
    ensures { let seen = view S.left S.held S.pulls S.puts S.broken in
        Asks asked.now (seen stream.old) (seen stream.new) result }
{
    match asked {
        Ask::Names => Ok(ClientAnswer::Names(names(alloc, stream)?)),
        Ask::Kill => Ok(ClientAnswer::Kill(kill(alloc, stream)?)),
        Ask::Stop(name) => Ok(ClientAnswer::Stop(stop(alloc, stream, name)?)),
        Ask::Dump => Ok(ClientAnswer::Dump(dump(alloc, stream)?)),
    }
}

/// Returns the first line of both lists.
fn head_line(alloc: Global, port: u32) -> Result<Vec<u8>, NoMemory>
    ensures { IfOk result (λ v. v.items ≡ head_line port) }
{
    let mut text = Vec::from_slice(alloc, b"epmd: up and running on port ")?;
    text.extend_from_slice(Buffer::new().format(port).as_bytes())?;
    text.extend_from_slice(b" with data:\n")?;
    Ok(text)
}

fn names_text(alloc: Global, port: u32, lines: &[Line]) -> Result<Vec<u8>, NoMemory>
    ensures { IfOk result (λ v. v.items ≡ names_text port lines.now) }
{
    let mut text = head_line(alloc, port)?;
    for line in lines {
        put_names_line(&mut text, &line.name, line.port)?;
    }
    Ok(text)
}

fn dump_text(alloc: Global, port: u32, lines: &[u8]) -> Result<Vec<u8>, NoMemory>
    ensures { IfOk result (λ v. v.items ≡ dump_text port lines.now) }
{
    let mut text = head_line(alloc, port)?;
    text.extend_from_slice(lines)?;
    Ok(text)
}

fn made_page(alloc: Global, text: &[u8], status: u8) -> Result<Page, Failure>
    ensures { IsPage (Ok (text.now, status)) result }
{
    let text = Vec::from_slice(alloc, text)?;
    Ok(Page { text, status })
}

/// Returns the complete page of an answer.
fn page_of(alloc: Global, answer: &ClientAnswer) -> Result<Page, Failure>
    ensures { IsPage (answer_text answer.now) result }
{
    match answer {
        ClientAnswer::Names((port, lines)) => Ok(Page {
            text: shown(alloc, &names_text(alloc, *port, lines)?)?,
            status: DONE,
        }),
        ClientAnswer::Dump((port, lines)) => Ok(Page {
            text: shown(alloc, &dump_text(alloc, *port, lines)?)?,
            status: DONE,
        }),
        ClientAnswer::Kill(Kill::Killed) => made_page(alloc, b"Killed\n", DONE),
        ClientAnswer::Kill(Kill::NotAllowed) => Err(Failure::KillRefused),
        ClientAnswer::Stop(Stop::Stopped) => made_page(alloc, b"STOPPED\n", DONE),
        ClientAnswer::Stop(Stop::NoExist) => made_page(alloc, b"NOEXIST\n", NOT_DONE),
        ClientAnswer::Stop(Stop::NotAllowed) => Err(Failure::StopRefused),
    }
}

/// Sends the request of an action and returns the page of its answer.
fn learn<S: Input + Output>(alloc: Global, asked: &Ask, stream: &mut S) -> Result<Page, Failure>
    ensures { (ended : Result ClientAnswer ClientFault)
        × (let seen = view S.left S.held S.pulls S.puts S.broken in
        Asks asked.now (seen stream.old) (seen stream.new) ended)
        × IsPageOf ended result }
{
    let answer = ask(alloc, asked, stream)?;
    page_of(alloc, &answer)
}

/// Prints a text. Returns `status`, or that of a failed device.
pub fn print<W: Write, E: Write>(
    output: &mut Writing<W>,
    errors: &mut Writing<E>,
    text: &[u8],
    status: u8,
) -> u8
    ensures prints { Prints text.now status result (W.contents (writing_inner output.old))
        (W.contents (writing_inner output.new))
        (writing_broken output.new) (errors.new ≡ errors.old) (Fails E.contents errors.old errors.new) }
    ensures silent { result ≢ FAILED → errors.new ≡ errors.old }
{
    match write_reply(output, text, TURNS) {
        Ok(()) => end(output, errors, status),
        Err(fault) => fail(errors, Failure::from(fault)),
    }
}

/// Sends `asked` to the port mapper at the other end of `stream`, and writes its answer to `output`: the registered
/// names for `Names`, all known names for `Dump`, a word for `Kill` and `Stop`. The text is complete before its first
/// byte is written. Returns:
/// - 0 if the port mapper did what was asked.
/// - 1 if it did not. `output` gets `NOEXIST` if the name to stop is not active. Otherwise `errors` gets one line: the
///   request is not allowed, or there is no valid answer.
/// - 3 if the output failed or memory ran out. `errors` then gets one line.
///
/// The output is flushed at the end, as in `do_once`.
pub fn do_client<S: Input + Output, W: Write, E: Write>(
    alloc: Global,
    asked: &Ask,
    stream: &mut S,
    output: &mut Writing<W>,
    errors: &mut Writing<E>,
) -> u8
    ensures silent { result ≡ DONE → errors.new ≡ errors.old }
    // The request with its answer, the page of the answer, and how that page is printed.
    ensures printed { (ended : Result ClientAnswer ClientFault) × (printed : Result Page Failure)
        × (let seen = view S.left S.held S.pulls S.puts S.broken in
        Asks asked.now (seen stream.old) (seen stream.new) ended)
        × IsPageOf ended printed
        × PrintsPage printed result (W.contents (writing_inner output.old)) (W.contents (writing_inner output.new))
        (writing_broken output.new)
        (output.new ≡ output.old) (errors.new ≡ errors.old) (Fails E.contents errors.old errors.new) }
{
    match learn(alloc, asked, stream) {
        Ok(page) => print(output, errors, &page.text, page.status),
        Err(failure) => fail(errors, failure),
    }
}

/// Law: after any run, what `-names` prints of the port mapper's reply is each active name with its port, in order of
/// registration, escaped.
pub fn names_are_printed()
    ensures { NamesArePrinted }
{}
