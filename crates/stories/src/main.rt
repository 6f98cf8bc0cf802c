//! Stories of the protocol in files: the input of a part of the port mapper, and the expected output.
//!
//! Each argument is a file of stories. The output has a line for each story that holds, and a line for each line of a
//! story that does not hold.
#![tactic(auto)]

mod audited;
mod call;
mod devices;
mod events;
mod feed;
mod listed;
mod lists;
mod machine;
mod played;
mod recorder;
mod recording;
mod replies;
mod requests;
mod run;
mod session;
mod states;
mod story;
mod subject;
mod table;
mod wire;
mod words;
mod worker;

use crate::story::Story;
use crate::words::Names;
use anyhow::{Context, Result};
use std::process::ExitCode;
use std::sync::Wait;
use std::{env, fs, mem};

fn main(rt: HostRuntime) -> Result<ExitCode> {
    let mut names = Names::new(rt.alloc());
    let mut all_hold = true;
    for path in env::args(&rt)?.skip(1) {
        all_hold &= run_file(&rt, &rt, path.as_str(), &mut names)?;
    }
    if all_hold {
        return Ok(ExitCode::SUCCESS);
    }
    Ok(ExitCode::FAILURE)
}

/// Runs the stories of a file, and returns true if all of them hold.
fn run_file<R: Wait>(rt: &HostRuntime, host: &R, path: &str, names: &mut Names) -> Result<bool> {
    let text = fs::read_to_string(rt, path).context(format_args!("{path}"))?;
    run_all(rt, host, path, text.as_str(), names)
}

/// Runs the stories of a text, and returns true if all of them hold.
fn run_all<R: Wait>(
    rt: &HostRuntime,
    host: &R,
    path: &str,
    text: &str,
    names: &mut Names,
) -> Result<bool> {
    let mut story = Story::none(host, rt.alloc());
    let mut all_hold = true;
    for (index, line) in text.lines().enumerate() {
        if let Some(next) = Story::begun(host, rt.alloc(), line)? {
            all_hold &= turn(rt, path, &mut story, next)?;
        } else if let Some(wrong) = story.wrong(rt.alloc(), names, line)? {
            println!(rt; "BAD {path}:{} {wrong}", index.saturating_add(1))?;
        }
    }
    Ok(turn(rt, path, &mut story, Story::none(host, rt.alloc()))? && all_hold)
}

/// Ends a story, prints its line, and begins the next story. Returns true if the ended story holds.
fn turn<'a, R: Wait>(
    rt: &HostRuntime,
    path: &str,
    story: &mut Story<'a, R>,
    next: Story<'a, R>,
) -> Result<bool> {
    let (holds, line) = mem::replace(story, next).ended(rt.alloc(), path)?;
    print!(rt; "{line}")?;
    Ok(holds)
}
