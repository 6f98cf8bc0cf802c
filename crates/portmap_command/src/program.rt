//! What the command takes from the system: its words and environment, the clock, files, sockets, and where it connects.
ghost use Rattle.std.specs.Prelude.{◌≡◌, ◌*◌, ◌^◌, false, IfOk};
ghost use Rattle.std.specs.Duration.{as_nanos};
ghost use Rattle.std.specs.IoError.{error_kind};
ghost use Rattle.portmap_command.specs.Actions.{IsQuiet, status_of};
ghost use Rattle.portmap_command.specs.Auditing.{failure_of_listing};
ghost use Rattle.portmap_command.specs.Commands.{failure_of_connect, tries_ipv6};
ghost use Rattle.portmap_command.specs.Meaning.{CanServe};
ghost use Rattle.portmap_command.specs.declared.program.TheConstants.{CONNECTING};
ghost use Rattle.portmap_command.specs.declared.actions.TheConstants.{DONE};

use crate::actions::{DONE, Failure, NOT_DONE, do_file, do_once, fail};
use crate::auditing::{
    PREFIX_LENGTH, RecordingFile, do_audit, fail_at, files_of, first_position, folder_of, number_of,
};
use crate::commands::{do_client, print};
use crate::daemon::{end_daemon, settings};
use crate::errors::{name_file, say_reason};
use crate::files::{can_make, figures_fault, is_folder, print_reason, reason_of};
use crate::handing::{FIRST, handed_count, refuse_handed, report_without_effect};
use crate::health::{Checked, Outcome, PAUSE_MS, Step, do_health, health_node, look_up, register};
use crate::help::{HELP, VERSION};
use crate::words::{Action, Ask, Command, Env, WordFault, read_words};
use portmap_client::Registration;
use portmap_daemon::{
    FILE_BYTES_MOST, HandedFault, Host, Open, RunEnd, RunFault, handed_over, run, run_over,
};
use portmap_link::{Both, GhostList, NoMemory, Reading, Writing};
use portmap_record::Text;
use std::alloc::Global;
use std::collections::VecDeque;
use std::env::VarError;
use std::fs::{File, OpenOptions, metadata, read_dir};
use std::io::{ErrorKind, Read, Write};
use std::net::{IpAddr, Ipv4Addr, Ipv6Addr, Net, SocketAddr, TcpListener, TcpStream};
use std::os::fd::AsRawFd;
use std::rt::Clock;
use std::sync::Wait;
use std::thread::Threads;
use std::time::{Duration, SystemTime, UNIX_EPOCH};
use std::{env, io, mem, process, thread};

/// The timeout of a connect to the port mapper of this host, in seconds.
const CONNECTING: u64 = 10;

/// The timeout of one read or write of that connection, in milliseconds. A call of the client bears 999 timeouts. A
/// silent port mapper therefore holds the command for about 10 seconds, or twice that if the system's clock ticks
/// slowly. A port mapper that sends a list byte by byte, each byte just in time, holds it for up to 16,777,217
/// timeouts.
const TURN: u64 = 10;

/// The system's number of the error that a file is not there.
const NO_SUCH_FILE: i32 = 2;

/// Appends the words after the program's own name.
fn put_words<R: env::Env + AllocGlobal>(rt: &R, words: &mut Vec<String>) -> io::Result<()> {
    for word in env::args(rt)?.skip(1) {
        words.push(word)?;
    }
    Ok(())
}

/// Returns the text of an environment variable, or `None` if it is not set. A text that is not UTF-8 becomes empty.
fn variable<R: env::Env + Alloc<A = Global>>(
    rt: &R,
    name: &str,
) -> Result<Option<String>, WordFault> {
    match env::var(rt, name) {
        Ok(text) => Ok(Some(text)),
        Err(VarError::NotPresent) => Ok(None),
        Err(VarError::NotUnicode) => Ok(Some(String::new(rt.alloc()))),
        Err(VarError::OutOfMemory) => Err(WordFault::NoMemory),
    }
}

/// Reads the environment. A port that is not UTF-8 is invalid, as is an empty port. Checks are relaxed by any text.
fn own_env<R: env::Env + Alloc<A = Global>>(rt: &R) -> Result<Env, WordFault> {
    let port = variable(rt, "ERL_EPMD_PORT")?;
    let relaxed = variable(rt, "ERL_EPMD_RELAXED_COMMAND_CHECK")?.is_some();
    Ok(Env { port, relaxed })
}

/// Reads the environment of this process and its words, which `words` gets. A fault names one of them.
pub fn asked<R: env::Env + AllocGlobal>(
    rt: &R,
    alloc: Global,
    words: &mut Vec<String>,
) -> Result<Command, WordFault>
    ensures { IfOk result (λ command. CanServe command) }
{
    put_words(rt, words)?;
    let env = own_env(rt)?;
    read_words(alloc, words.as_slice(), &env)
}

/// Returns the time since 1970, or `None` if the clock cannot be read or is set before 1970.
pub fn since_1970(clock: &impl Clock) -> Option<Duration> {
    let now = SystemTime::now(clock).ok()?;
    now.duration_since(UNIX_EPOCH).ok()
}

/// Returns the sockets that a service manager passes to this process, if any.
fn handed(rt: &HostRuntime) -> Result<Vec<TcpListener>, HandedFault> {
    let (Ok(process), Ok(count)) = (variable(rt, "LISTEN_PID"), variable(rt, "LISTEN_FDS")) else {
        return Err(HandedFault::NoMemory);
    };
    let own = process::id(rt.process());
    let count = handed_count(process.as_deref(), count.as_deref(), own);
    handed_over(rt.alloc(), FIRST, count)
}

/// Runs the daemon until it ends, unless the file for the counters cannot be used. Over passed sockets it serves
/// without that file then. With `-daemon` it does not begin if a file cannot be made, since nobody would read that.
fn do_daemon<
    R: Net + Host<File = File> + Threads + Wait + Clock + Clone + Drop + Send + Sync + 'static,
    E: Write,
>(rt: &HostRuntime, host: &R, command: &Command, errors: &mut Writing<E>) -> u8
    requires { CanServe command.now }
{
    let listening = match handed(rt) {
        Ok(listening) => listening,
        Err(fault) => return refuse_handed(errors, fault),
    };
    report_without_effect(errors, command, &listening);
    let fault = figures_fault(rt, command);
    if let (Some(reason), Some(path)) = (fault, &command.figures) {
        say_reason(errors, path.as_bytes(), reason);
        if listening.is_empty() {
            return NOT_DONE;
        }
    }
    if command.daemon && listening.is_empty() && !can_make(rt, command, errors) {
        return NOT_DONE;
    }
    let has_figures = fault.is_none();
    do_serve(host, rt.alloc(), command, listening, errors, has_figures)
}

/// Runs the daemon until it ends. Passed sockets replace the port and the addresses of the command.
fn do_serve<
    R: Net + Host<File = File> + Threads + Wait + Clock + Clone + Drop + Send + Sync + 'static,
    E: Write,
>(
    rt: &R,
    alloc: Global,
    command: &Command,
    listening: Vec<TcpListener>,
    errors: &mut Writing<E>,
    has_figures: bool,
) -> u8
    requires { CanServe command.now }
    ensures silent { result ≡ DONE → command.now.debug ≡ false → errors.new ≡ errors.old }
{
    let Ok(mut settings) = settings(alloc, command, since_1970(rt)) else {
        return fail(errors, Failure::Memory);
    };
    if !has_figures {
        settings.figures = None;
    }
    let ended = if listening.is_empty() {
        run(rt, alloc, settings)
    } else {
        run_over(rt, alloc, settings, &Open, listening, FILE_BYTES_MOST)
    };
    match reason_of_end(alloc, &ended) {
        Ok(reason) => end_daemon(errors, command, &ended, reason.as_bytes()),
        Err(_) => fail(errors, Failure::Memory),
    }
}

/// Returns the system's text for the error with which a daemon cannot listen. Any other end has none.
fn reason_of_end(alloc: Global, ended: &Result<RunEnd, RunFault>) -> Result<String, NoMemory> {
    match ended {
        Err(RunFault::Listen(_, number) | RunFault::ListenBeside(_, number)) => {
            reason_of(alloc, &io::Error::from_raw_os_error(*number))
        }
        _ => Ok(String::new(alloc)),
    }
}

/// Writes the line of a failure to open `path`, and a line that names `path` and says why. Returns the status.
fn fail_for<E: Write>(
    alloc: Global,
    errors: &mut Writing<E>,
    failure: Failure,
    path: &str,
    error: &io::Error,
) -> u8
    ensures { result ≡ status_of failure }
{
    let status = fail(errors, failure);
    print_reason(alloc, errors, path, error);
    status
}

/// Checks the recorded session in the file at `path`, and writes `text` of it.
fn do_path<W: Write, E: Write>(
    rt: &HostRuntime,
    text: Text,
    path: &str,
    output: &mut Writing<W>,
    errors: &mut Writing<E>,
) -> u8
    ensures silent { result ≡ DONE → errors.new ≡ errors.old }
{
    let file = match File::open(rt, path) {
        Ok(file) => file,
        Err(error) => return fail_for(rt.alloc(), errors, Failure::Device, path, &error),
    };
    let status = do_file(rt.alloc(), text, &mut Reading::new(file), output, errors);
    name_file(errors, path.as_bytes(), status, output.finish());
    status
}

/// Opens a file of a recording. The first file may be a pipe, and then this waits for its writer. Any later file must
/// be a regular file.
fn open_file(rt: &HostRuntime, file: &RecordingFile) -> io::Result<File> {
    let path = file.path.as_str();
    if file.number > 0 && !metadata(rt, path)?.is_file() {
        return Err(io::Error::from(ErrorKind::Unsupported));
    }
    File::open(rt, path)
}

/// A file of a recording. If `opened` is `None`, the first read opens it. Reads begin with the bytes of `prefix`.
#[derive(Drop)]
struct LateFile<'a> {
    rt: &'a HostRuntime,
    file: &'a RecordingFile,
    prefix: &'a [u8],
    opened: Option<File>,
}

impl Read for LateFile<'_> {
    fn read(&mut self, buffer: &mut [u8]) -> io::Result<usize> {
        if !self.prefix.is_empty() {
            return self.prefix.read(buffer);
        }
        if let Some(file) = &mut self.opened {
            return file.read(buffer);
        }
        let mut file = open_file(self.rt, self.file)?;
        let count = file.read(buffer);
        self.opened = Some(file);
        count
    }
}

/// Returns the numbers of the files of a recording, in any order. Its first file is at `path`.
fn listed(rt: &HostRuntime, path: &str) -> io::Result<Vec<u64>> {
    let (folder, first) = folder_of(path);
    let mut numbers = Vec::new(rt.alloc());
    for entry in read_dir(rt, folder)? {
        match entry {
            Ok(entry) => {
                if let Some(number) = number_of(entry.file_name(), first) {
                    numbers.push(number)?;
                }
            }
            // A name that is not UTF-8 is not a file of the recording.
            Err(error) if error.kind() == ErrorKind::InvalidFilename => {}
            Err(error) => return Err(error),
        }
    }
    Ok(numbers)
}

fn unlisted(error: &io::Error) -> Failure
    ensures { result ≡ failure_of_listing (error_kind error.now) }
{
    match error.kind() {
        ErrorKind::OutOfMemory => Failure::Memory,
        _ => Failure::Device,
    }
}

/// Opens a file and reads the bytes that say where its recording begins.
fn open_oldest(rt: &HostRuntime, file: &RecordingFile) -> io::Result<(File, Vec<u8>)> {
    let mut file = open_file(rt, file)?;
    let mut prefix = Vec::new(rt.alloc());
    Read::by_ref(&mut file)
        .take(PREFIX_LENGTH as u64)
        .read_to_end(&mut prefix)?;
    Ok((file, prefix))
}

/// Returns an input for each file. The first file is open as `oldest`, and `prefix` was read from it.
fn inputs<'a>(
    rt: &'a HostRuntime,
    files: &'a [RecordingFile],
    oldest: File,
    prefix: &'a [u8],
) -> Result<VecDeque<Reading<LateFile<'a>>>, NoMemory> {
    let mut inputs = VecDeque::new(rt.alloc());
    let mut opened = Some(oldest);
    let mut prefix = prefix;
    for file in files {
        inputs.push_back(Reading::new(LateFile {
            rt,
            file,
            prefix: mem::take(&mut prefix),
            opened: opened.take(),
        }))?;
    }
    Ok(inputs)
}

fn do_files<W: Write, E: Write>(
    rt: &HostRuntime,
    files: &[RecordingFile],
    oldest: &RecordingFile,
    output: &mut Writing<W>,
    errors: &mut Writing<E>,
) -> u8 {
    let (file, prefix) = match open_oldest(rt, oldest) {
        Ok(opened) => opened,
        Err(error) => return fail_at(errors, oldest.path.as_bytes(), unlisted(&error)),
    };
    let first = first_position(&prefix);
    match inputs(rt, files, file, &prefix) {
        Ok(inputs) => do_audit(rt.alloc(), files, first, inputs, output, errors),
        Err(_) => fail(errors, Failure::Memory),
    }
}

/// Audits the recording whose first file is at `path`.
fn do_recording<W: Write, E: Write>(
    rt: &HostRuntime,
    path: &str,
    output: &mut Writing<W>,
    errors: &mut Writing<E>,
) -> u8 {
    let numbers = match listed(rt, path) {
        Ok(numbers) => numbers,
        Err(error) => {
            let (folder, _) = folder_of(path);
            return fail_for(rt.alloc(), errors, unlisted(&error), folder, &error);
        }
    };
    let Ok(files) = files_of(rt.alloc(), path, numbers) else {
        return fail(errors, Failure::Memory);
    };
    if let Some(oldest) = files.first() {
        return do_files(rt, &files, oldest, output, errors);
    }
    let error = io::Error::from_raw_os_error(NO_SUCH_FILE);
    fail_for(rt.alloc(), errors, Failure::Device, path, &error)
}

fn connecting() -> Duration
    ensures { as_nanos result ≡ CONNECTING * 10 ^ 9 }
{
    Duration::from_secs(CONNECTING)
}

/// Connects to a port mapper of this host. The stream has a timeout for each read and write.
fn connect_to(rt: &HostRuntime, ip: IpAddr, port: u16) -> io::Result<TcpStream> {
    let address = SocketAddr::from((ip, port));
    let stream = TcpStream::connect_timeout(rt, &address, connecting())?;
    let turn = Some(Duration::from_millis(TURN));
    stream.set_read_timeout(turn)?;
    stream.set_write_timeout(turn)?;
    Ok(stream)
}

/// Returns whether `connect` tries ::1 after this error at 127.0.0.1.
fn tries_ipv6(error: &io::Error) -> bool
    ensures { result ≡ tries_ipv6 (error_kind error.now) }
{
    matches!(
        error.kind(),
        ErrorKind::ConnectionRefused
            | ErrorKind::HostUnreachable
            | ErrorKind::NetworkUnreachable
            | ErrorKind::NetworkDown
            | ErrorKind::AddrNotAvailable
    )
}

/// Connects to the port mapper of this host. If both addresses fail, returns the error of 127.0.0.1.
pub fn connect(rt: &HostRuntime, port: u16) -> io::Result<TcpStream> {
    match connect_to(rt, IpAddr::V4(Ipv4Addr::LOCALHOST), port) {
        Err(error) if tries_ipv6(&error) => {
            connect_to(rt, IpAddr::V6(Ipv6Addr::LOCALHOST), port).or(Err(error))
        }
        connected => connected,
    }
}

fn unconnected(error: &io::Error) -> Failure
    ensures { result ≡ failure_of_connect (error_kind error.now) }
{
    match error.kind() {
        ErrorKind::OutOfMemory => Failure::Memory,
        _ => Failure::NoConnection,
    }
}

fn do_asked<W: Write, E: Write>(
    rt: &HostRuntime,
    asked: &Ask,
    port: u16,
    output: &mut Writing<W>,
    errors: &mut Writing<E>,
) -> u8
    ensures silent { result ≡ DONE → errors.new ≡ errors.old }
{
    match connect(rt, port) {
        Ok(stream) => do_client(rt.alloc(), asked, &mut Both::new(stream), output, errors),
        Err(error) => fail(errors, unconnected(&error)),
    }
}

/// The port mapper at one address of this host.
#[derive(Drop)]
struct Local<'a> {
    rt: &'a HostRuntime,
    ip: IpAddr,
    port: u16,
    /// Says which name is registered. It grows if that name is refused.
    number: u32,
    held: Option<Registration<Both<TcpStream>>>,
    steps: GhostList<(Step, Outcome)>,
}

impl<'a> Local<'a> {
    fn new(rt: &'a HostRuntime, ip: IpAddr, port: u16) -> Local<'a> {
        Local {
            rt,
            ip,
            port,
            number: process::id(rt.process()),
            held: None,
            steps: GhostList::new(),
        }
    }

    fn request(&mut self, step: Step) -> Outcome
        ensures { self.new.steps ≡ self.old.steps }
    {
        let node = health_node(self.rt.alloc(), self.number)?;
        let stream = connect_to(self.rt, self.ip, self.port).map_err(|error| unconnected(&error))?;
        let mut stream = Both::new(stream);
        if !matches!(step, Step::Register) {
            return look_up(self.rt.alloc(), &mut stream, &node);
        }
        self.held = register(self.rt.alloc(), stream, &node)?;
        if self.held.is_none() {
            self.number = self.number.wrapping_add(1);
        }
        Ok(self.held.is_some())
    }
}

impl Checked for Local<'_> {
    ghost steps = { λ p. p.steps };

    fn make(&mut self, step: Step) -> Outcome {
        let mut outcome = Ok(true);
        match step {
            Step::Close => self.held = None,
            Step::Pause => thread::sleep(self.rt, Duration::from_millis(PAUSE_MS)),
            _ => outcome = self.request(step),
        }
        self.steps.note(&(step, outcome));
        outcome
    }
}

/// Returns whether this host has the address ::1.
fn has_ipv6(rt: &HostRuntime) -> bool {
    let bound = TcpListener::bind(rt, (Ipv6Addr::LOCALHOST, 0));
    !matches!(bound, Err(error) if portmap_daemon::lacks_ipv6(error.raw_os_error()))
}

fn do_checked<E: Write>(rt: &HostRuntime, port: u16, errors: &mut Writing<E>) -> u8
    ensures silent { result ≡ DONE → errors.new ≡ errors.old }
{
    let mut four = Local::new(rt, IpAddr::V4(Ipv4Addr::LOCALHOST), port);
    let mut six = Local::new(rt, IpAddr::V6(Ipv6Addr::LOCALHOST), port);
    do_health(&mut four, &mut six, has_ipv6(rt), port, errors)
}

/// Performs a command and returns the status. A daemon gets its threads and sockets from `host`.
pub fn perform<
    R: Net + Host<File = File> + Threads + Wait + Clock + Clone + Drop + Send + Sync + 'static,
    I: Read,
    W: Write,
    E: Write,
>(
    rt: &HostRuntime,
    host: &R,
    command: &Command,
    input: &mut Reading<I>,
    output: &mut Writing<W>,
    errors: &mut Writing<E>,
) -> u8
    requires { CanServe command.now }
    ensures silent { IsQuiet command.now.action → result ≡ DONE → errors.new ≡ errors.old }
{
    match &command.action {
        Action::Serve => do_daemon(rt, host, command, errors),
        Action::Health => do_checked(rt, command.port, errors),
        Action::Once => do_once(rt.alloc(), input, output, errors),
        Action::Ask(asked) => do_asked(rt, asked, command.port, output, errors),
        Action::Version => print(output, errors, VERSION, DONE),
        Action::Help => print(output, errors, HELP, DONE),
        Action::Inspect(_, path) | Action::Audit(path) if is_folder(rt, path.as_str()) => {
            let error = io::Error::from(ErrorKind::IsADirectory);
            fail_for(rt.alloc(), errors, Failure::Device, path.as_str(), &error)
        }
        Action::Inspect(text, path) => do_path(rt, *text, path.as_str(), output, errors),
        Action::Audit(path) => do_recording(rt, path.as_str(), output, errors),
    }
}

/// Returns a file that takes the place of descriptor `number`, if that is closed and all descriptors below it are open.
/// Reading a stand-in for an input fails, as does writing any other stand-in.
fn stand_in(rt: &HostRuntime, number: i32, is_input: bool) -> Option<File> {
    let mut options = OpenOptions::new();
    options.write(is_input).read(!is_input);
    let file = options.open(rt, "/dev/null").ok()?;
    (file.as_raw_fd() == number).then_some(file)
}

/// Opens stand-ins for the standard descriptors that are closed, so that no socket and no recording gets their numbers.
/// `input` is the descriptor of standard input.
pub fn stand_ins(rt: &HostRuntime, input: i32) -> [Option<File>; 3] {
    [
        stand_in(rt, input, true),
        stand_in(rt, input.saturating_add(1), false),
        stand_in(rt, input.saturating_add(2), false),
    ]
}
