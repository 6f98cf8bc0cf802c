//! A daemon in simulated worlds, in which every choice comes from a seed.
//!
//! Each line of standard input is a case: `seed N workers W scenario S steps K`. The program prints a line for each
//! case. The line of a wrong case, or of a case with the word `counts`, has all counts. Any other line has some counts
//! and a checksum of the others. With `trace`, each step is a line.
#![tactic(auto)]

mod checks;
mod clock;
mod daemon;
mod disk;
mod judge;
mod least;
mod network;
mod notices;
mod people;
mod polls;
mod priority;
mod random;
mod rest;
mod roles;
mod run;
mod scenario;
mod scenarios;
mod scene;
mod steps;
mod system;
mod times;
mod weather;
mod wire;
mod world;

use crate::least::Totals;
use crate::run::{Case, Outcome, run_case};
use crate::steps::Step;
use crate::weather::FAULTS;
use portmap_book::PARTS;
use std::io::BufRead;
use std::marker::Brand;
use std::sync::Wait;
use std::sync::ledger::Blank;
use std::{env, io};

fn number_after(words: &[&str], word: &str) -> Option<u64> {
    let place = words.iter().position(|each| *each == word)?;
    words.get(place.saturating_add(1))?.parse::<u64>().ok()
}

fn main(rt: HostRuntime) -> io::Result<()> {
    let mut totals = Totals::new(rt.alloc())?;
    let words: Vec<String> = env::args(&rt)?.collect(rt.alloc())?;
    if words.len() > 1 {
        // The case is in the arguments, whose names begin with a hyphen.
        let mut line = String::new(rt.alloc());
        for word in words.iter().skip(1) {
            line.push_str(word.as_str().trim_start_matches('-'))?;
            line.push_str(" ")?;
        }
        return run_line(&rt, &rt, line.as_str(), &mut totals);
    }
    let input = io::BufReader::new(rt.alloc(), rt.stdin())?;
    for line in input.lines(rt.alloc()) {
        run_line(&rt, &rt, line?.as_str(), &mut totals)?;
    }
    totals.print(&rt)
}

/// Runs the case of a line, prints its result, and adds its deeds to the totals.
fn run_line<R: Wait + Clone + Drop>(
    rt: &HostRuntime,
    host: &R,
    line: &str,
    totals: &mut Totals,
) -> io::Result<()> {
    let words: Vec<&str> = line.split_whitespace().collect(rt.alloc())?;
    let Some(total) = totals.find(&words) else {
        return println!(rt; "no scenario: {line}");
    };
    let steps = number_after(&words, "steps").unwrap_or(4000);
    let case = Case {
        seed: number_after(&words, "seed").unwrap_or(1),
        workers: number_after(&words, "workers").unwrap_or(2).clamp(1, 8) as u32,
        scenario: total.scenario,
        steps: steps.min(100_000_000) as u32,
        is_traced: words.contains(&"trace"),
    };
    let own: R = host.clone()?;
    let Some(outcome) = run_case::<Brand, R>(own, rt.alloc(), Blank::new(PARTS), &case) else {
        return println!(rt; "WRONG {line}: no memory");
    };
    total.note(&outcome.tally);
    for Step { now, actor, turn } in outcome.trace.iter().flatten() {
        println!(rt; "{now} {actor} {turn:?}")?;
    }
    let is_brief = outcome.wrong.is_none() && !words.contains(&"counts");
    match outcome.wrong {
        Some(wrong) => print!(rt; "WRONG {line}: {wrong}:")?,
        None => print!(rt; "ok {line}:")?,
    }
    print_counts(rt, &outcome, is_brief)
}

/// Prints all counts of a case, or some counts and a checksum of the others.
fn print_counts(rt: &HostRuntime, outcome: &Outcome, is_brief: bool) -> io::Result<()> {
    let (tally, longest) = (&outcome.tally, outcome.tally.longest / 1000);
    print!(rt; " {} connections,", tally.connections)?;
    print!(rt; " {} registrations,", tally.registrations)?;
    if is_brief {
        let others = outcome.checksum();
        return println!(rt; " {} restarts, {others:016x}", tally.restarts);
    }
    print!(rt; " {} refused, {} restarts,", tally.refused, tally.restarts)?;
    print!(rt; " {} answers within {longest} ms,", tally.answers)?;
    print!(rt; " {} without,", tally.unanswered)?;
    print!(rt; " {} acts in {} s", outcome.acts, outcome.seconds)?;
    for (fault, count) in FAULTS.split_whitespace().zip(outcome.happened) {
        if count > 0 {
            print!(rt; ", {fault} {count}")?;
        }
    }
    println!(rt; "")
}
