//! All events of a story at once, as one run.
use crate::events::{event, outcome_text};
use crate::words::wrong;
use anyhow::{Result, ensure};
use portmap_core::{Answer, Config, Core, Event, Refusal, State};
use portmap_testing::marked;
use portmap_testing::marks::was_refused;
use std::alloc::Global;

/// An event, and its result.
pub struct Happened {
    pub act: String,
    pub result: String,
}

impl Drop for Happened {
    fn drop(self) {
        let Happened { act: _, result: _ } = self;
    }
}

/// The results of a run, and whether memory was refused to it.
type Results = (Vec<(Event, Result<Answer, Refusal>)>, bool);

/// Fails unless a run over the events of a story has the results that they had one by one, and ends in the same state.
/// Events to which memory was refused are skipped.
pub fn runs_so(
    alloc: Global,
    config: Config,
    first: u32,
    actual: &[Happened],
    state: &State,
) -> Result<()> {
    let mut core = Core::new(alloc, config, first)?;
    let results = results_of(alloc, &mut core, actual)?;
    let mut other = Core::new(alloc, config, first)?;
    let is_whole = follows(alloc, &mut other, actual, results)?;
    let end = other.state(alloc)?;
    if !is_at(alloc, &core, &end)? || (is_whole && !end.same(state)) {
        return wrong("a run ends in another state");
    }
    Ok(())
}

pub fn is_at(alloc: Global, core: &Core, state: &State) -> Result<bool> {
    Ok(core.state(alloc)?.same(state))
}

/// Runs all events. A run that is refused as a whole has changed nothing, and is repeated.
fn results_of(alloc: Global, core: &mut Core, actual: &[Happened]) -> Result<Results> {
    let events = events_of(alloc, actual)?;
    let results = marked!(alloc, core.run(alloc, events));
    let is_refused = was_refused(alloc);
    match results {
        Ok(results) => Ok((results, is_refused)),
        Err(_) if is_refused => Ok((core.run(alloc, events_of(alloc, actual)?)?, false)),
        Err(_) => wrong("memory was not refused to a run"),
    }
}

fn events_of(alloc: Global, actual: &[Happened]) -> Result<Vec<Event>> {
    let mut events = Vec::new(alloc);
    for one in actual {
        let words: Vec<&str> = one.act.as_str().split_whitespace().collect(alloc)?;
        events.push(event(alloc, &words)?)?;
    }
    Ok(events)
}

/// Returns true if memory was refused to none of the events. Fails unless another machine answers every other event
/// like the run. Until the first refusal, the answers are also those of the story.
fn follows(alloc: Global, other: &mut Core, actual: &[Happened], results: Results) -> Result<bool> {
    let (results, is_refused) = results;
    let mut is_whole = true;
    for (one, (event, outcome)) in actual.iter().zip(results) {
        let act = one.act.as_str();
        let result = outcome_text(alloc, act, &outcome)?;
        if is_refused && result.as_str() == "NoMemory" {
            is_whole = false;
            continue;
        }
        let again = outcome_text(alloc, act, &other.event(alloc, event))?;
        ensure!(
            again == result,
            "a machine answers {act} otherwise than a run"
        );
        ensure!(
            !is_whole || one.result == result,
            "a run answers {act} otherwise"
        );
    }
    Ok(is_whole)
}
