//! Reads one word of the command, with its value.
ghost use Rattle.std.specs.Prelude.{◌≡◌, ◌∷◌, ◌<◌, ◌≤◌, ◌^◌, ℕ, List, true, false, length, map, string_bytes, IfOk};
ghost use Rattle.std.specs.Prelude.{IfErr, IfSome};
ghost use Rattle.portmap_wire.specs.Name.{IsName};
ghost use Rattle.portmap_command.specs.Words.{Begins, is_action};
ghost use Rattle.portmap_command.specs.Meaning.{IsFaultAt};

use crate::addresses::read_listening;
use crate::numbers::read_within;
use crate::words::{Action, Ask, WordFault};
use portmap_book::SEATS_MOST;
use portmap_daemon::TIMEOUT_SECONDS_MOST;
use portmap_link::NoMemory;
use portmap_record::Text;
use portmap_wire::{Name, NameFault};
use std::alloc::Global;

/// An item: one word, with its value if it takes one.
#[derive(Drop)]
pub enum Word {
    Port(u16),
    Addresses(Vec<[u8; 4]>),
    /// In seconds.
    Timeout(u32),
    Workers(u32),
    Relaxed,
    Debug,
    Daemon,
    /// The path of a file to record to.
    Recording(String),
    /// The path of the file for counters.
    Figures(String),
    Act(Action),
}

/// The kind of a word that takes a value.
#[derive(Clone, Copy)]
enum Use {
    Setting,
    Action,
}

/// Returns the item of a word that takes no value.
fn read_plain(word: &str) -> Option<Word>
    ensures { IfSome result (λ item. (rest : List (List ℕ)) → Begins item (word.now ∷ rest) rest) }
{
    let item = match word {
        "-relaxed_command_check" => Word::Relaxed,
        "-d" | "-debug" => Word::Debug,
        "-daemon" => Word::Daemon,
        "-names" => Word::Act(Action::Ask(Ask::Names)),
        "-kill" => Word::Act(Action::Ask(Ask::Kill)),
        "-dump" => Word::Act(Action::Ask(Ask::Dump)),
        "-health" => Word::Act(Action::Health),
        "-once" => Word::Act(Action::Once),
        "-version" => Word::Act(Action::Version),
        "-help" => Word::Act(Action::Help),
        _ => return None,
    };
    Some(item)
}

/// Returns the kind of a word, or `None` if it takes no value.
fn use_of(word: &str) -> Option<Use> {
    match word {
        "-port" | "-address" | "-packet_timeout" | "-workers" | "-record" | "-figures" => {
            Some(Use::Setting)
        }
        "-stop" | "-check" | "-play" | "-local" | "-audit" => Some(Use::Action),
        _ => None,
    }
}

/// Returns the value as a name, or `None` if it is not a name.
fn read_name(alloc: Global, value: &str) -> Result<Option<Name>, NoMemory>
    ensures { IfOk result (λ read. IfSome read (λ name. (name ≡ value.now) × IsName value.now)) }
{
    match Name::read(alloc, value.as_bytes()) {
        Ok(name) => Ok(Some(name)),
        Err(NameFault::NoMemory) => Err(NoMemory),
        Err(_) => Ok(None),
    }
}

/// Returns the item of a setting, or `None` if the word does not take this value.
fn read_setting(alloc: Global, word: &str, value: &str) -> Result<Option<Word>, NoMemory>
    ensures spelled { IfOk result (λ read. IfSome read
        (λ item. (rest : List (List ℕ)) → Begins item (word.now ∷ value.now ∷ rest) rest)) }
    ensures setting { IfOk result (λ read. IfSome read (λ item. is_action item ≡ false)) }
{
    let text = value.as_bytes();
    Ok(match word {
        "-port" => read_within(text, 1, 65_535).map(|number| Word::Port(number as u16)),
        "-address" => read_listening(alloc, text)?.map(|addresses| Word::Addresses(addresses)),
        "-packet_timeout" => {
            read_within(text, 1, TIMEOUT_SECONDS_MOST).map(|seconds| Word::Timeout(seconds))
        }
        "-workers" => read_within(text, 1, SEATS_MOST as u32).map(|number| Word::Workers(number)),
        "-record" => Some(Word::Recording(String::from_str(alloc, value)?)),
        "-figures" => Some(Word::Figures(String::from_str(alloc, value)?)),
        _ => None,
    })
}

/// Returns the action of a word, or `None` if the word does not take this value.
fn read_action(alloc: Global, word: &str, value: &str) -> Result<Option<Action>, NoMemory>
    ensures { IfOk result (λ read. IfSome read
        (λ action. (rest : List (List ℕ)) → Begins (Word.Act action) (word.now ∷ value.now ∷ rest) rest)) }
{
    let text = match word {
        "-stop" => return Ok(read_name(alloc, value)?.map(|name| Action::Ask(Ask::Stop(name)))),
        "-audit" => return Ok(Some(Action::Audit(String::from_str(alloc, value)?))),
        "-check" => Text::Verdict,
        "-play" => Text::Transcript,
        "-local" => Text::LocalRecord,
        _ => return Ok(None),
    };
    Ok(Some(Action::Inspect(text, String::from_str(alloc, value)?)))
}

/// Reads one item. Returns it with the words that follow it. The number of the first word is `index`. A second action
/// is refused.
pub fn read_word<'a>(
    alloc: Global,
    first: &String,
    behind: &'a [String],
    index: usize,
    has_action: bool,
) -> Result<(Word, &'a [String]), WordFault>
    requires { index < 2 ^ 63 }
    ensures spelled { IfOk result (λ read. Begins read.0
        (string_bytes first.now ∷ map string_bytes behind.now)
        (map string_bytes read.1.now)) }
    ensures fewer { IfOk result (λ read. length read.1.now ≤ length behind.now) }
    ensures one { IfOk result (λ read. is_action read.0 ≡ true → has_action ≡ false) }
    ensures fault { IfErr result (λ fault. IsFaultAt index (length behind.now) has_action fault) }
{
    if let Some(item) = read_plain(first.as_str()) {
        if has_action && matches!(item, Word::Act(_)) {
            return Err(WordFault::TwoCommands(index));
        }
        return Ok((item, behind));
    }
    let Some(for_what) = use_of(first.as_str()) else {
        return Err(WordFault::Unknown(index));
    };
    if has_action && matches!(for_what, Use::Action) {
        return Err(WordFault::TwoCommands(index));
    }
    let [value, rest @ ..] = behind else {
        return Err(WordFault::MissingValue(index));
    };
    let item = match for_what {
        Use::Setting => read_setting(alloc, first.as_str(), value.as_str())?,
        Use::Action => read_action(alloc, first.as_str(), value.as_str())?.map(|action| Word::Act(
            action,
        )),
    };
    match item {
        Some(item) => Ok((item, rest)),
        None => Err(WordFault::BadValue(index + 1)),
    }
}
