//! What is printed of words that are not a command.
ghost use Rattle.std.specs.List.{concat};
ghost use Rattle.std.specs.Prelude.{◌≡◌, ◌∷◌, [], map, string_bytes, IfOk};
ghost use Rattle.portmap_command.specs.declared.actions.TheConstants.{REFUSED};
ghost use Rattle.portmap_command.specs.declared.faults.TheConstants.{SEE_HELP};
ghost use Rattle.portmap_command.specs.Faults.{IsReported, Refuses, Reports, shown_at, value_of, word_at};

use crate::actions::{Failure, REFUSED, fail};
use crate::errors::{say, say_all};
use crate::words::WordFault;
use portmap_daemon::shown;
use portmap_link::{NoMemory, Writing};
use std::alloc::Global;
use std::io::Write;

const SEE_HELP: &[u8] = b"; see epmd -help\n";

const NOT_UTF8: &[u8] = b"epmd: a word is not UTF-8; see epmd -help\n";

const BAD_PORT: &[u8] = b"epmd: ERL_EPMD_PORT needs a number from 1 to 65535\n";

/// Returns what the value of a word must be.
fn value_of(word: &str) -> &'static [u8]
    ensures { result.now ≡ value_of word.now }
{
    if word == "-port" {
        b"a number from 1 to 65535"
    } else if word == "-address" {
        b"IPv4 addresses separated by commas"
    } else if word == "-packet_timeout" {
        b"a number of seconds from 1 to 86400"
    } else if word == "-workers" {
        b"a number from 1 to 64"
    } else if word == "-stop" {
        b"a name of 1 to 1020 bytes without control characters"
    } else {
        b"the path of a file"
    }
}

/// Returns the word at an index. Past the last word it is empty.
fn word_at(words: &[String], index: usize) -> &str
    ensures { result.now ≡ word_at (map string_bytes words.now) index }
{
    match words.get(index) {
        Some(word) => word.as_str(),
        None => "",
    }
}

fn shown_at(alloc: Global, words: &[String], index: usize) -> Result<Vec<u8>, NoMemory>
    ensures { IfOk result (λ text. text.items ≡ shown_at (map string_bytes words.now) index) }
{
    shown(alloc, word_at(words, index).as_bytes())
}

/// Prints the word at `index` between two texts, and what its value must be.
fn refuse_word<E: Write>(
    alloc: Global,
    errors: &mut Writing<E>,
    words: &[String],
    index: usize,
    before: &'static [u8],
    behind: &'static [u8],
    value: &'static [u8],
) -> Result<u8, NoMemory>
    ensures { IsReported E.contents REFUSED (concat (before.now ∷ shown_at (map string_bytes words.now) index
        ∷ behind.now ∷ value.now ∷ SEE_HELP.now ∷ [])) result errors.old errors.new }
{
    let word = shown_at(alloc, words, index)?;
    let _ = say_all(errors, &[before, word.as_slice(), behind, value, SEE_HELP]);
    Ok(REFUSED)
}

/// Reports the value at `index`, which the word before it does not take.
fn refuse_value<E: Write>(
    alloc: Global,
    errors: &mut Writing<E>,
    words: &[String],
    index: usize,
) -> Result<u8, NoMemory>
    ensures { Reports E.contents (map string_bytes words.now) (WordFault.BadValue index) result errors.old errors.new }
{
    let before = index.saturating_sub(1);
    let word = shown_at(alloc, words, before)?;
    let given = shown_at(alloc, words, index)?;
    let value = value_of(word_at(words, before));
    let _ = say_all(
        errors,
        &[
            b"epmd: ",
            word.as_slice(),
            b" needs ",
            value,
            b", not \"",
            given.as_slice(),
            b"\"",
            SEE_HELP,
        ],
    );
    Ok(REFUSED)
}

/// Reports a fault. Returns the status. If memory runs out, nothing is printed.
fn report<E: Write>(
    alloc: Global,
    errors: &mut Writing<E>,
    words: &[String],
    fault: WordFault,
) -> Result<u8, NoMemory>
    ensures { Reports E.contents (map string_bytes words.now) fault result errors.old errors.new }
{
    match fault {
        WordFault::Unknown(index) => {
            let before = b"epmd: unknown word \"";
            refuse_word(alloc, errors, words, index, before, b"\"", b"")
        }
        WordFault::MissingValue(index) => {
            let behind = b" lacks its value, ";
            let value = value_of(word_at(words, index));
            refuse_word(alloc, errors, words, index, b"epmd: ", behind, value)
        }
        WordFault::BadValue(index) => refuse_value(alloc, errors, words, index),
        WordFault::TwoCommands(index) => {
            let behind = b" is a second command";
            refuse_word(alloc, errors, words, index, b"epmd: ", behind, b"")
        }
        WordFault::NotUtf8 => {
            let _ = say(errors, NOT_UTF8);
            Ok(REFUSED)
        }
        WordFault::BadEnvPort => {
            let _ = say(errors, BAD_PORT);
            Ok(REFUSED)
        }
        WordFault::NoMemory => Err(NoMemory),
    }
}

/// Reports why `words` are not a command. Returns the status. Words and values are escaped, as names are. If memory
/// runs out for that, the line and the status say so.
pub fn refuse<E: Write>(
    alloc: Global,
    errors: &mut Writing<E>,
    words: &[String],
    fault: WordFault,
) -> u8
    ensures { Refuses E.contents (map string_bytes words.now) fault result errors.old errors.new }
{
    match report(alloc, errors, words, fault) {
        Ok(status) => status,
        Err(_) => fail(errors, Failure::Memory),
    }
}
