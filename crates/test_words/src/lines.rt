//! The lines that are read.

ghost use Rattle.std.specs.Prelude.{◌<◌};

use anyhow::Result;
use std::alloc::Global;

/// How many words lines are made of.
pub const COUNT: u64 = 18;

/// What lines are made of: commands, FILE, flags, and what is like them.
static WORDS: [&str; 18] = [
    "session",
    "record",
    "check",
    "debug",
    "salvage",
    "help",
    "FILE",
    "--threads",
    "--",
    "-",
    "-h",
    "--help",
    "--threads=x",
    "",
    "recorder",
    "recrd",
    "chekc",
    "sesssio",
];

/// More words, for random lines.
static MORE: [&str; 18] = [
    "a b",
    "é",
    "\n",
    "-x",
    "-hx",
    "-xh",
    "-é",
    "---",
    "--=",
    "-=",
    "--foo",
    "--foo=b",
    "--thread",
    "--threads=",
    "--help=1",
    "--version",
    "Session",
    "session ",
];

/// Pseudorandom numbers, by Marsaglia's shifts.
#[derive(Drop)]
pub struct Random {
    state: u64,
}

impl Random {
    /// Begins with a seed, which isn't 0.
    pub fn new(seed: u64) -> Random {
        Random { state: seed }
    }

    /// Returns a number below the bound.
    fn below(&mut self, bound: u64) -> u64
        requires { 0 < bound }
        ensures { result < bound }
    {
        self.state = self.state ^ (self.state << 13);
        self.state = self.state ^ (self.state >> 7);
        self.state = self.state ^ (self.state << 17);
        (self.state >> 11) % bound
    }
}

/// Returns a line of only the program's name.
fn name_alone(alloc: Global) -> Result<Vec<String>> {
    let mut line = Vec::new(alloc);
    line.push(String::from_str(alloc, "ttd")?)?;
    Ok(line)
}

/// Returns a line of this many words behind the program's name, by its number.
pub fn line_at(alloc: Global, length: u32, number: u64) -> Result<Vec<String>> {
    let mut line = name_alone(alloc)?;
    let mut rest = number;
    for _ in 0..length {
        line.push(String::from_str(alloc, WORDS[(rest % COUNT) as usize])?)?;
        rest /= COUNT;
    }
    Ok(line)
}

/// Returns a random word. Most are a file, `--threads` or `--`, so that a part of the lines is accepted.
fn random_word(random: &mut Random) -> &'static str {
    match random.below(8) {
        0..4 => WORDS[6 + random.below(3) as usize],
        4 | 5 => WORDS[random.below(COUNT) as usize],
        _ => MORE[random.below(COUNT) as usize],
    }
}

/// Returns a random line. Most begin with a command.
pub fn random_line(alloc: Global, random: &mut Random) -> Result<Vec<String>> {
    let mut line = name_alone(alloc)?;
    if random.below(5) > 0 {
        line.push(String::from_str(alloc, WORDS[random.below(6) as usize])?)?;
    }
    for _ in 0..random.below(8) {
        line.push(String::from_str(alloc, random_word(random))?)?;
    }
    Ok(line)
}
