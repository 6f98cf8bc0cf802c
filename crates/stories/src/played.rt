//! One connection served, and recorded sessions shown, from one device to another.
use crate::devices::{device, plan};
use crate::words::{Digits, number, shown, text, wanted, wrong};
use anyhow::{Result, ensure};
use portmap_core::Config;
use portmap_link::once;
use portmap_record::{Text, Verdict, play, show};
use portmap_testing::marked;
use portmap_testing::tape::Tape;
use std::alloc::Global;

/// Serves the bytes as one connection, or shows them as a recorded session. Prints how that ends and what is written;
/// for `pulls`, the number of pulls. Fails if bytes are written although memory is refused.
pub fn played(alloc: Global, act: &str, bytes: &[u8], devices: &[&str]) -> Result<String> {
    let [input, output, turns] = *devices else {
        return wrong("no two devices and a number of turns");
    };
    let (input, output, turns) = (plan(input)?, plan(output)?, number(turns)?);
    let mut output = device(alloc, &[], output, 1_000)?;
    let mut input = Tape::new(alloc, bytes, input);
    let ended = ended(alloc, act, &mut input, &mut output, turns)?;
    let is_refused = ended.as_str() == "NoMemory";
    let is_so = !is_refused || output.sink.is_empty();
    ensure!(is_so, "a refusal has written something");
    if act == "pulls" && !is_refused {
        return text(format!(in alloc; "{}", input.calls));
    }
    text(format!(in alloc; "{ended} {}", Digits(&output.sink)))
}

/// The creations of a port mapper that serves one connection start at 7.
fn ended(
    alloc: Global,
    act: &str,
    input: &mut Tape<'_>,
    output: &mut Tape<'_>,
    turns: u64,
) -> Result<String> {
    match act {
        "tell" => shown(
            alloc,
            marked!(alloc, show(alloc, input, output, turns, Text::Verdict)).map(|found| found
                == Verdict::Run),
        ),
        "leave" => shown(
            alloc,
            marked!(alloc, show(alloc, input, output, turns, Text::LocalRecord)),
        ),
        "play" => shown(alloc, marked!(alloc, play(alloc, input, output, turns))),
        _ => {
            let config = wanted(Config::new(4369, false, 1024, 4096), "no settings")?;
            shown(
                alloc,
                marked!(alloc, once(alloc, config, 7, input, output, turns)),
            )
        }
    }
}
