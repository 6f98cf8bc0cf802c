//! The words of a line: bytes as digits, quoted text, repeats, names of bytes, and joins.
use anyhow::{Error, Result, bail};
use portmap_wire::Name;
use std::alloc::{AllocError, Global};
use std::collections::BTreeMap;
use std::fmt;
use std::str::FromStr;

/// Bytes as digits, two for each, or `-` if there are none.
#[derive(Clone, Copy)]
pub struct Digits<'a>(pub &'a [u8]);

impl<'a> fmt::Display for Digits<'a> {
    fn fmt<W: fmt::Write>(&self, f: &mut fmt::Formatter<W>) -> fmt::Result {
        if self.0.is_empty() {
            return f.write_str("-");
        }
        for byte in self.0 {
            write!(f, "{byte:02x}")?;
        }
        Ok(())
    }
}

/// The digits that names stand for.
#[derive(Drop)]
pub struct Names {
    digits: BTreeMap<String, String>,
}

impl Names {
    pub fn new(alloc: Global) -> Names {
        Names {
            digits: BTreeMap::new(alloc),
        }
    }

    /// Gives a name the digits of all these words.
    pub fn put(&mut self, alloc: Global, name: &str, words: &[&str]) -> Result<()> {
        self.digits
            .insert(String::from_str(alloc, name)?, String::new(alloc))?;
        self.add(name, words)
    }

    /// Appends the digits of all these words to those of a name.
    pub fn add(&mut self, name: &str, words: &[&str]) -> Result<()> {
        let Some(digits) = self.digits.get_mut(name) else {
            return unknown("no name", name);
        };
        for word in words {
            digits.push_str(word)?;
        }
        Ok(())
    }

    /// Replaces quoted text, repeats as `61*3` and names by digits, and joins the digits at `+`. A name that is being
    /// defined stands for itself.
    pub fn spelled(&self, alloc: Global, line: &str) -> Result<String> {
        let mut spelled = String::new(alloc);
        for word in unquoted(alloc, line)?.as_str().split_whitespace() {
            let is_given = matches!(spelled.as_str(), "let" | "more");
            if !spelled.is_empty() {
                spelled.push_str(" ")?;
            }
            if is_given {
                spelled.push_str(word)?;
            } else {
                self.push_word(&mut spelled, word)?;
            }
        }
        Ok(spelled)
    }

    fn push_word(&self, spelled: &mut String, word: &str) -> Result<()> {
        for term in word.split('+') {
            let (term, count) = term.split_once('*').unwrap_or((term, "1"));
            let digits = self.term(term)?;
            for _ in 0..number::<u32>(count)? {
                spelled.push_str(digits)?;
            }
        }
        Ok(())
    }

    /// Returns the digits of a name, of its first three bytes as `NAME[..3]`, or of the bytes after these as
    /// `NAME[3..]`. Other words stand for themselves.
    fn term<'a>(&'a self, term: &'a str) -> Result<&'a str> {
        let Some((name, range)) = term.split_once('[') else {
            return Ok(self.meant(term));
        };
        let (len, is_prefix) = match range.trim_end_matches(']').split_once("..") {
            Some(("", until)) => (until, true),
            Some((from, "")) => (from, false),
            _ => return unknown("no range", term),
        };
        let len = number::<usize>(len)?.saturating_mul(2);
        match self.meant(name).split_at_checked(len) {
            Some((prefix, _)) if is_prefix => Ok(prefix),
            Some((_, rest)) => Ok(rest),
            None => unknown("fewer bytes", term),
        }
    }

    fn meant<'a>(&'a self, term: &'a str) -> &'a str {
        match self.digits.get(term) {
            Some(digits) => digits.as_str(),
            None => term,
        }
    }
}

/// Replaces quoted text by digits.
fn unquoted(alloc: Global, line: &str) -> Result<String> {
    let mut bare = String::new(alloc);
    for (index, part) in line.split('"').enumerate() {
        if index % 2 == 0 {
            bare.push_str(part)?;
        } else {
            bare.push_str(hex::encode(alloc, part.as_bytes())?.as_str())?;
        }
    }
    Ok(bare)
}

pub fn joined(alloc: Global, words: &[&str]) -> Result<String, AllocError> {
    let mut line = String::new(alloc);
    for word in words {
        if !line.is_empty() {
            line.push_str(" ")?;
        }
        line.push_str(word)?;
    }
    Ok(line)
}

pub fn bytes(alloc: Global, word: &str) -> Result<Vec<u8>> {
    if word == "-" {
        return Ok(Vec::new(alloc));
    }
    hex::decode(alloc, word).or_else(|_| unknown("no bytes", word))
}

pub fn number<T: FromStr>(word: &str) -> Result<T>
where
    T::Err: Drop,
{
    word.parse::<T>().or_else(|_| unknown("no number", word))
}

pub fn name(alloc: Global, word: &str) -> Result<Name> {
    wanted(Name::read(alloc, &bytes(alloc, word)?), "no name")
}

pub fn digits_of(alloc: Global, bytes: &[u8]) -> Result<String> {
    text(format!(in alloc; "{}", Digits(bytes)))
}

pub fn is_relaxed(word: &str) -> Result<bool> {
    match word {
        "relaxed" => Ok(true),
        "strict" => Ok(false),
        _ => unknown("neither relaxed nor strict", word),
    }
}

pub fn yes(is_so: bool) -> &'static str {
    if is_so { "yes" } else { "no" }
}

pub fn answer(alloc: Global, is_so: bool) -> Result<String> {
    text(String::from_str(alloc, yes(is_so)))
}

pub fn shown<T: fmt::Debug + Drop, E: fmt::Debug + Drop>(
    alloc: Global,
    outcome: Result<T, E>,
) -> Result<String> {
    match outcome {
        Ok(value) => by_name(alloc, &value),
        Err(fault) => by_name(alloc, &fault),
    }
}

pub fn shown_bytes<E: fmt::Debug + Drop>(
    alloc: Global,
    made: Result<Vec<u8>, E>,
) -> Result<String> {
    match made {
        Ok(bytes) => digits_of(alloc, &bytes),
        Err(fault) => by_name(alloc, &fault),
    }
}

pub fn by_name<T: fmt::Debug>(alloc: Global, value: &T) -> Result<String> {
    text(format!(in alloc; "{value:?}"))
}

pub fn text(made: Result<String, AllocError>) -> Result<String> {
    Ok(made?)
}

pub fn wrong<T>(why: &str) -> Result<T> {
    Err(Error::msg(why))
}

/// Fails with what the word is not.
pub fn unknown<T>(what: &str, word: &str) -> Result<T> {
    bail!("{what}: {word}")
}

/// Returns the value, or fails with what is missing and with the fault.
pub fn wanted<T, E: fmt::Debug + Drop>(outcome: Result<T, E>, what: &str) -> Result<T> {
    match outcome {
        Ok(value) => Ok(value),
        Err(fault) => bail!("{what}: {fault:?}"),
    }
}
