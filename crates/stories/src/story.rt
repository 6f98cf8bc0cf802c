//! A story: its title, its operations in order, and the expected result of each.
use crate::subject::Subject;
use crate::words::{Names, wrong};
use anyhow::{Result, ensure};
use portmap_testing::marks::was_refused;
use std::alloc::Global;
use std::sync::Wait;

/// A story in progress.
#[derive(Drop)]
pub struct Story<'a, R: Wait> {
    host: &'a R,
    name: String,
    subject: Subject,
    holds: bool,
}

impl<'a, R: Wait> Story<'a, R> {
    /// Returns the state before the first story of a file.
    pub fn none(host: &'a R, alloc: Global) -> Story<'a, R> {
        Story {
            host,
            name: String::new(alloc),
            subject: Subject::None,
            holds: true,
        }
    }

    /// Returns the story that a line begins. The line has the word of a subject and a title.
    pub fn begun(host: &'a R, alloc: Global, line: &str) -> Result<Option<Story<'a, R>>> {
        let (word, name) = line.split_once(' ').unwrap_or((line, ""));
        let Some(subject) = Subject::begun(alloc, word)? else {
            return Ok(None);
        };
        let mut story = Story::none(host, alloc);
        story.name.push_str(name)?;
        story.subject = subject;
        Ok(Some(story))
    }

    /// Returns the fault of a line, if there is one.
    ///
    /// A line after `times 1 9` is run for each number from 1 to 9, which replaces `$`. ` && ` joins operations. An
    /// operation after `each 1 9` is run for each number, which replaces `@`.
    pub fn wrong(
        &mut self,
        alloc: Global,
        names: &mut Names,
        line: &str,
    ) -> Result<Option<String>> {
        if line.is_empty() || line.starts_with('#') {
            return Ok(None);
        }
        for acts in &spread(alloc, line, "times ", "$")? {
            for act in acts.as_str().split(" && ") {
                for line in &spread(alloc, act, "each ", "@")? {
                    let wrong = self.once(alloc, names, line.as_str())?;
                    if wrong.is_some() {
                        return Ok(wrong);
                    }
                }
            }
        }
        Ok(None)
    }

    /// Runs a line once, and returns its fault.
    fn once(&mut self, alloc: Global, names: &mut Names, line: &str) -> Result<Option<String>> {
        let line = names.spelled(alloc, line)?;
        let (act, wanted) = line
            .as_str()
            .split_once(" -> ")
            .unwrap_or((line.as_str(), ""));
        let wrong = match self.perform(alloc, names, act) {
            Ok(None) => return Ok(None),
            Ok(Some(actual)) if actual.as_str() == wanted => return Ok(None),
            Ok(Some(actual)) => format!(in alloc; "wanted {wanted} came {actual}")?,
            Err(error) => format!(in alloc; "wanted {wanted} came no answer: {error}")?,
        };
        self.holds = false;
        Ok(Some(wrong))
    }

    /// Performs an operation. Returns `None` if it follows `maybe` and memory is refused to it.
    fn perform(&mut self, alloc: Global, names: &mut Names, act: &str) -> Result<Option<String>> {
        let words: Vec<&str> = act.split_whitespace().collect(alloc)?;
        match *words.as_slice() {
            ["let", name, ref value @ ..] => {
                names.put(alloc, name, value)?;
                Ok(Some(String::new(alloc)))
            }
            ["more", name, ref value @ ..] => {
                names.add(name, value)?;
                Ok(Some(String::new(alloc)))
            }
            ["maybe", ref words @ ..] => self.tried(alloc, words),
            _ => match self.tried(alloc, &words)? {
                Some(actual) => Ok(Some(actual)),
                None => Ok(Some(self.subject.perform(self.host, alloc, &words)?)),
            },
        }
    }

    /// Performs an operation. Returns `None` if memory was refused to it, and fails if that has changed anything.
    fn tried(&mut self, alloc: Global, words: &[&str]) -> Result<Option<String>> {
        let actual = self.subject.perform(self.host, alloc, words)?;
        if !was_refused(alloc) || !actual.as_str().contains("NoMemory") {
            return Ok(Some(actual));
        }
        ensure!(
            self.subject.stands(alloc)?,
            "a refusal has changed something"
        );
        Ok(None)
    }

    /// Returns whether the story holds, and its line. The line is empty if a fault of the story was printed before.
    pub fn ended(self, alloc: Global, path: &str) -> Result<(bool, String)> {
        let Story {
            name,
            subject,
            holds,
            ..
        } = self;
        Ok(match subject.ended(alloc) {
            Ok(()) if !holds || name.is_empty() => (holds, String::new(alloc)),
            Ok(()) => (true, format!(in alloc; "ok {name}\n")?),
            Err(error) => (false, format!(in alloc; "BAD {path}: {name}: {error}\n")?),
        })
    }
}

/// Returns a line for each number of a range that follows `word`, from its first number to its last.
fn spread(alloc: Global, line: &str, word: &str, mark: &str) -> Result<Vec<String>> {
    let mut lines = Vec::new(alloc);
    let Some((from, until, line)) = range(line, word) else {
        lines.push(String::from_str(alloc, line)?)?;
        return Ok(lines);
    };
    for step in 0..=from.abs_diff(until) {
        let number = if from <= until {
            from.saturating_add(step)
        } else {
            from.saturating_sub(step)
        };
        lines.push(numbered(alloc, line, mark, number)?)?;
    }
    Ok(lines)
}

fn range<'a>(line: &'a str, word: &str) -> Option<(u32, u32, &'a str)> {
    let (from, rest) = line.strip_prefix(word)?.split_once(' ')?;
    let (until, line) = rest.split_once(' ')?;
    Some((from.parse::<u32>().ok()?, until.parse::<u32>().ok()?, line))
}

/// Replaces the mark by the number, `%` by the number in eight digits of base 16, and the mark before `+1` by the next
/// number.
fn numbered(alloc: Global, line: &str, mark: &str, number: u32) -> Result<String> {
    let next = format!(in alloc; "{mark}+1")?;
    let line = replaced(alloc, line, next.as_str(), number.saturating_add(1))?;
    let line = replaced(alloc, line.as_str(), mark, number)?;
    let digits = format!(in alloc; "{number:08x}")?;
    Ok(line.as_str().replace(alloc, "%", digits.as_str())?)
}

fn replaced(alloc: Global, line: &str, mark: &str, number: u32) -> Result<String> {
    Ok(line.replace(alloc, mark, format!(in alloc; "{number}")?.as_str())?)
}
