//! The names that a port mapper knows.
use crate::requests::registration;
use crate::words::{Digits, answer, digits_of, name, number, shown, text, wrong};
use anyhow::{Context, Result, ensure};
use portmap_table::{Old, RegFault, Row, Table};
use portmap_testing::marked;
use portmap_wire::{Name, Reg};
use std::alloc::Global;

/// The creation that a name is offered, or the fault.
type Offer = Result<u32, RegFault>;

fn node(alloc: Global, word: &str, high: &str) -> Result<Reg> {
    registration(alloc, 40_000, number(high)?, word, &[7])
}

fn is_usual(reg: &Reg) -> bool {
    (reg.port, reg.kind, reg.proto, reg.low) == (40_000, 77, 0, 5)
        && reg.extra.as_slice() == [7].as_slice()
}

fn write_row(actual: &mut String, row: &Row) -> Result<()> {
    ensure!(is_usual(&row.reg), "a node that was not registered so");
    let name = Digits(row.reg.name.bytes());
    Ok(write!(actual, " {name} {} {}", row.slot, row.creation)?)
}

fn write_old(actual: &mut String, old: &Old) -> Result<()> {
    let is_usual = old.port == 40_000;
    ensure!(is_usual, "a retired node that was not registered so");
    Ok(write!(actual, " {} {}", Digits(old.name.bytes()), old.creation)?)
}

/// Prints the active names with slots and creations, and the retired names with creations. All are copies.
fn known(alloc: Global, names: &Table) -> Result<String> {
    let mut actual = String::from_str(alloc, "active")?;
    for index in 0..names.active_len() {
        let row = names.active_at(index).context("fewer names are active")?;
        write_row(&mut actual, &row.try_copy(alloc)?)?;
    }
    actual.push_str(" retired")?;
    for index in 0..names.retired_len() {
        let old = names.retired_at(index).context("fewer names are retired")?;
        write_old(&mut actual, &old.try_copy(alloc)?.try_copy(alloc)?)?;
    }
    Ok(actual)
}

/// Prints the slot that owns a name, or `-`. Fails unless that is the slot of its row.
fn owner(alloc: Global, names: &Table, word: &str) -> Result<String> {
    let name = name(alloc, word)?;
    let (owner, row) = (names.owner(&name), names.find(&name));
    let is_so = row.map(|row| row.slot) == owner && names.is_active(&name) == owner.is_some();
    ensure!(is_so, "its row has another slot");
    match owner {
        Some(slot) => text(format!(in alloc; "{slot}")),
        None => digits_of(alloc, &[]),
    }
}

pub fn perform(alloc: Global, table: &mut Table, words: &[&str]) -> Result<String> {
    match *words {
        ["with", "known", known_max, "first", first] => {
            *table = Table::new(alloc, number(known_max)?, number(first)?)?;
            Ok(String::new(alloc))
        }
        [
            "with",
            "known",
            known_max,
            "first",
            first,
            "active",
            ref names @ ..,
        ] => {
            let made = made(alloc, number(known_max)?, number(first)?, names)?;
            set(alloc, table, made)
        }
        ["offer", word, high] => shown(alloc, table.offer(&name(alloc, word)?, number(high)?)),
        ["register", word, high, slot] => registered(
            alloc,
            table,
            number(slot)?,
            node(alloc, word, high)?,
        ),
        ["retire", slot] => retired(alloc, table, number(slot)?),
        ["knows"] => known(alloc, table),
        ["owner", name] => owner(alloc, table, name),
        ["counts"] => text(format!(in alloc; "{} {}", table.active_len(), table.retired_len())),
        ["retired", index] => retired_at(alloc, table, number(index)?),
        _ => wrong("no such act"),
    }
}

/// Replaces the table, and prints whether there is a new one.
fn set(alloc: Global, table: &mut Table, made: Option<Table>) -> Result<String> {
    let is_made = made.is_some();
    if let Some(made) = made {
        *table = made;
    }
    answer(alloc, is_made)
}

fn retired_at(alloc: Global, table: &Table, index: usize) -> Result<String> {
    let old = table.retired_at(index).context("fewer names are retired")?;
    text(format!(in alloc; "{} {}", Digits(old.name.bytes()), old.creation))
}

/// Returns the table of these active and retired names, or `None` if no port mapper that may know `known_max` names can
/// have them.
fn made(alloc: Global, known_max: u32, first: u32, names: &[&str]) -> Result<Option<Table>> {
    let index = names.iter().position(|word| *word == "retired");
    let (active, retired) = names.split_at(index.context("no retired names")?);
    let rows = rows(alloc, active)?;
    let olds = olds(alloc, retired.get(1..).unwrap_or(&[]))?;
    Ok(Table::of(alloc, known_max, first, &rows, &olds)?)
}

fn rows(alloc: Global, words: &[&str]) -> Result<Vec<Row>> {
    let mut rows = Vec::new(alloc);
    for words in words.chunks(4) {
        let [word, high, creation, slot] = *words else {
            return wrong("no row");
        };
        rows.push(Row {
            creation: number(creation)?,
            slot: number(slot)?,
            reg: node(alloc, word, high)?,
        })?;
    }
    Ok(rows)
}

fn olds(alloc: Global, words: &[&str]) -> Result<Vec<Old>> {
    let mut olds = Vec::new(alloc);
    for words in words.chunks(2) {
        let [word, creation] = *words else {
            return wrong("no retired name");
        };
        olds.push(Old {
            port: 40_000,
            creation: number(creation)?,
            name: name(alloc, word)?,
        })?;
    }
    Ok(olds)
}

fn registered(alloc: Global, table: &mut Table, slot: u64, reg: Reg) -> Result<String> {
    let name = reg.name.try_copy(alloc)?;
    shown(alloc, entered(alloc, table, &name, reg, slot)?)
}

/// Registers a node. If that is refused, fails unless the name has the same offer and the same number of names is
/// known.
fn entered(alloc: Global, table: &mut Table, name: &Name, reg: Reg, slot: u64) -> Result<Offer> {
    ensure!(!table.holds(slot), "the slot owns a name");
    let (high, before) = (reg.high, stands(table, name, reg.high));
    let registered = marked!(alloc, table.register(reg, slot));
    let is_same = !table.holds(slot) && stands(table, name, high) == before;
    ensure!(
        registered.is_ok() || is_same,
        "a refusal has changed the table"
    );
    Ok(registered)
}

/// Returns the offer for a name, the numbers of active and of retired names, and the source of the next creation.
fn stands(table: &Table, name: &Name, high: u16) -> (Offer, usize, usize, u32) {
    (
        table.offer(name, high),
        table.active_len(),
        table.retired_len(),
        table.counter(),
    )
}

/// Prints whether the name of a slot was retired. That allocates nothing.
fn retired(alloc: Global, table: &mut Table, slot: u64) -> Result<String> {
    answer(alloc, marked!(alloc, table.retire(slot)))
}
