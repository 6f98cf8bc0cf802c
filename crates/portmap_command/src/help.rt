//! The version of the program and its help.

/// The line of `-version`, with the version of the file `VERSION`.
pub const VERSION: &[u8] = b"epmd-proved 1.2.0\n";

/// The text of `-help`, which is that of the wrapper.
pub const HELP: &[u8] = b"\
usage: epmd [-daemon | -systemd] [-port NUMBER] [-address LIST] [-packet_timeout SECONDS] \
[-workers NUMBER] [-record FILE]
            [-figures FILE] [-relaxed_command_check] [-d | -debug]              serve
       epmd [-port NUMBER] -names | -dump | -kill | -stop NAME  ask the port mapper of this host
       epmd [-port NUMBER] -health                              check that it registers, finds and frees a name
       epmd -check FILE | -play FILE | -local FILE              judge a recorded session
       epmd -audit FILE                                         judge all files of a recording as one
       epmd -once                                               answer one request from standard input
       epmd -help | -version
The manual page, epmd(1), says more.
";
