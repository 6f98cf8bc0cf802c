//! What the peers of a scenario must do in all of its cases together.
use crate::people::Counts;
use crate::scenario::{Deeds, Scenario};
use crate::scenarios::{CALLS, ENDS, PEOPLE, TIMES};
use std::alloc::Global;
use std::io;

/// A scenario with fewer cases is not checked.
const CASES: u32 = 10;

/// The cases of a scenario, and their deeds.
#[derive(Clone, Copy)]
pub struct Total {
    pub scenario: &'static Scenario,
    cases: u32,
    deeds: Deeds,
}

impl Total {
    /// Adds a case.
    pub fn note(&mut self, tally: &Counts) {
        self.cases = self.cases.saturating_add(1);
        for (sum, count) in self.deeds.iter_mut().zip(tally.deeds()) {
            *sum = sum.saturating_add(count);
        }
    }

    /// Prints the deeds if one of them is below the least of the scenario.
    fn print_lack(&self, rt: &HostRuntime) -> io::Result<()> {
        let [registrations, restarts, answers, refused] = self.deeds;
        let Scenario { name, least, .. } = self.scenario;
        let mut deeds = self.deeds.iter().zip(least);
        if deeds.all(|(done, least)| done >= least) {
            return Ok(());
        }
        print!(rt; "WRONG scenario {name}: its people do too little:")?;
        print!(rt; " {registrations} registrations,")?;
        println!(rt; " {restarts} restarts, {answers} answers, {refused} refused")
    }
}

/// The totals of all scenarios.
#[derive(Drop)]
pub struct Totals(Vec<Total>);

impl Totals {
    pub fn new(alloc: Global) -> io::Result<Totals> {
        let mut totals = Vec::new(alloc);
        for scenarios in [CALLS, PEOPLE, TIMES, ENDS] {
            for scenario in scenarios {
                totals.push(Total {
                    scenario,
                    cases: 0,
                    deeds: [0; 4],
                })?;
            }
        }
        Ok(Totals(totals))
    }

    /// Finds the scenario that one of these words names.
    pub fn find(&mut self, words: &[&str]) -> Option<&mut Total> {
        let mut totals = self.0.iter();
        let place = totals.position(|total| words.contains(&total.scenario.name))?;
        self.0.get_mut(place)
    }

    /// Prints the scenarios that did too little, and the number of scenarios with enough cases.
    pub fn print(&self, rt: &HostRuntime) -> io::Result<()> {
        let mut held = 0u32;
        for total in self.0.iter().filter(|total| total.cases >= CASES) {
            held = held.saturating_add(1);
            total.print_lack(rt)?;
        }
        let count = self.0.len();
        println!(rt; "{held} of {count} scenarios had {CASES} cases or more")
    }
}
