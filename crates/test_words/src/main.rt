//! That clap accepts the command lines that `rw_program` accepts, and that both find the same in them.
//!
//! Each line of up to four words of a small alphabet is read by both, and so are random lines. A line that they read differently is printed, and the
//! program fails. Start reading at `main`.
//! What stands on it: nothing.
#![tactic(auto)]

mod lines;
mod reading;

use anyhow::{Result, bail};
use lines::{COUNT, Random, line_at, random_line};
use reading::{Read, read_by_both};
use rw_program::command_line;
use std::alloc::Global;

/// All lines of up to this many words behind the program's name are read.
const LENGTH: u32 = 4;

/// The number of groups of random lines that are read.
const RANDOM_GROUPS: u64 = 100;

/// How many random lines a group has.
const GROUP: u64 = 1_000;

/// How many lines were read in which way.
#[derive(Clone, Copy)]
struct Counts {
    read: u64,
    accepted: u64,
    differ: u64,
}

impl Counts {
    /// Counts a line, and prints it if clap and the program read it differently.
    fn add(&mut self, rt: &impl Print, line: &[String], read: Read) -> Result<()> {
        self.read = self.read.saturating_add(1);
        match read {
            Read::Accepted => self.accepted = self.accepted.saturating_add(1),
            Read::Refused => {}
            Read::Differently => {
                println!(rt; "differs: {line:?}")?;
                self.differ = self.differ.saturating_add(1);
            }
        }
        Ok(())
    }

    /// Reads lines. One command of clap's serves for all of them.
    fn read(&mut self, rt: &impl Print, alloc: Global, lines: &[Vec<String>]) -> Result<()> {
        let mut program = command_line(alloc)?;
        for line in lines {
            let read = read_by_both(&mut program, line.as_slice())?;
            self.add(rt, line.as_slice(), read)?;
        }
        Ok(())
    }
}

/// Returns the lines of this many words that begin with the same ones.
fn group_at(alloc: Global, length: u32, number: u64) -> Result<Vec<Vec<String>>> {
    let mut lines = Vec::new(alloc);
    for last in 0..COUNT {
        let number = number.saturating_mul(COUNT).saturating_add(last);
        lines.push(line_at(alloc, length, number)?)?;
    }
    Ok(lines)
}

/// Reads all lines of this many words, but no words.
fn read_all(rt: &impl Print, alloc: Global, length: u32, counts: &mut Counts) -> Result<()> {
    for number in 0..COUNT.saturating_pow(length.saturating_sub(1)) {
        let lines = group_at(alloc, length, number)?;
        counts.read(rt, alloc, lines.as_slice())?;
    }
    Ok(())
}

/// Returns random lines.
fn random_group(alloc: Global, random: &mut Random) -> Result<Vec<Vec<String>>> {
    let mut lines = Vec::new(alloc);
    for _ in 0..GROUP {
        lines.push(random_line(alloc, random)?)?;
    }
    Ok(lines)
}

/// Reads random lines.
fn read_random(rt: &impl Print, alloc: Global, counts: &mut Counts) -> Result<()> {
    let mut random = Random::new(83);
    for _ in 0..RANDOM_GROUPS {
        let lines = random_group(alloc, &mut random)?;
        counts.read(rt, alloc, lines.as_slice())?;
    }
    Ok(())
}

fn main(rt: HostRuntime) -> Result<()> {
    let alloc = rt.alloc();
    let none = Counts {
        read: 0,
        accepted: 0,
        differ: 0,
    };
    let mut all = none;
    let without_words = vec![in alloc; line_at(alloc, 0, 0)?]?;
    all.read(&rt, alloc, without_words.as_slice())?;
    for length in 1..=LENGTH {
        read_all(&rt, alloc, length, &mut all)?;
    }
    println!(rt;
        "{} short lines, of which {} are accepted and {} differ",
        all.read, all.accepted, all.differ
    )?;
    let mut random = none;
    read_random(&rt, alloc, &mut random)?;
    println!(rt;
        "{} random lines, of which {} differ",
        random.read, random.differ
    )?;
    if random.accepted < 1_000 {
        bail!("few random lines are accepted");
    }
    Ok(())
}
