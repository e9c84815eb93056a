//! What clap and the program find in a line.

use anyhow::{Result, bail};
use clap::error::ErrorKind;
use clap::{ArgMatches, Command};
use rw_program::{Asked, Verb, read_words};

/// What a line is to clap.
#[derive(Clone, Copy, Debug, PartialEq, Eq)]
enum Found<'a> {
    Refused,
    Accepted(Asked<'a>),
    /// It is accepted, and asks for nothing that the program knows.
    Unknown,
}

/// Returns what the subcommand of clap's matches asks for.
fn found_in<'a>(name: &str, inner: &ArgMatches<'a>) -> Found<'a> {
    match (name, inner.get_str("FILE")) {
        ("session", None) => Found::Accepted(Asked::Session),
        ("record", Some(file)) if inner.get_flag("threads") => Found::Accepted(Asked::Threads(
            file,
        )),
        ("record", Some(file)) => Found::Accepted(Asked::Over(Verb::Record, file)),
        ("check", Some(file)) => Found::Accepted(Asked::Over(Verb::Check, file)),
        ("debug", Some(file)) => Found::Accepted(Asked::Over(Verb::Debug, file)),
        ("salvage", Some(file)) => Found::Accepted(Asked::Over(Verb::Salvage, file)),
        _ => Found::Unknown,
    }
}

/// Returns what clap finds in a line.
fn found_by_clap<'a>(program: &mut Command<'a>, line: &'a [String]) -> Result<Found<'a>> {
    match program.try_get_matches_from_mut(line) {
        Ok(matches) => match matches.subcommand() {
            Some((name, inner)) => Ok(found_in(name, inner)),
            None => Ok(Found::Unknown),
        },
        Err(error) if error.kind() == ErrorKind::OutOfMemory => bail!("no memory"),
        Err(_) => Ok(Found::Refused),
    }
}

/// How clap and the program read a line.
#[derive(Clone, Copy, Debug, PartialEq, Eq)]
pub enum Read {
    Accepted,
    Refused,
    /// They differ.
    Differently,
}

/// Returns how clap and the program read a line.
pub fn read_by_both<'a>(program: &mut Command<'a>, line: &'a [String]) -> Result<Read> {
    let (found, read) = match read_words(line) {
        Ok(asked) => (Found::Accepted(asked), Read::Accepted),
        Err(_) => (Found::Refused, Read::Refused),
    };
    if found_by_clap(program, line)? == found {
        Ok(read)
    } else {
        Ok(Read::Differently)
    }
}
