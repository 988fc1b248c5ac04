//! Answers the call files of a set over every pair of store and validator, and compares each line
//! with the one that an outside implementation gave.
//! The word `differ` is printed only where one does.
#![tactic(auto)]

mod format;
mod tally;
mod trial;

use std::{fs, io};
use tally::Tally;
use trial::{Setting, Trial};

/// Reads the files of one setting, answers them, and prints what came of it.
fn try_setting(rt: &HostRuntime, name: &str, setting: Setting) -> io::Result<Tally> {
    let calls = read_file(rt, name, "calls")?;
    let expected = read_file(rt, name, "lines")?;
    let trial = Trial {
        heap: rt.alloc(),
        setting,
        calls: calls.as_slice(),
        expected: expected.as_slice(),
    };
    let tally = trial.over_pairs()?;
    println!(rt; "{name}: {tally}")?;
    Ok(tally)
}

fn read_file(rt: &HostRuntime, name: &str, ending: &str) -> io::Result<Vec<u8>> {
    let path = format!(in rt.alloc(); "{name}.{ending}")?;
    fs::read(rt, path.as_str())
}

fn main(rt: HostRuntime) -> io::Result<()> {
    let settings = fs::read_to_string(&rt, "settings")?;
    let mut total = Tally::new();
    for line in settings.as_str().lines() {
        let words = line.trim_start().split_once(char::is_whitespace);
        let (name, setting) = words.ok_or(io::ErrorKind::InvalidData)?;
        total += try_setting(&rt, name, setting.parse()?)?;
    }
    println!(rt; "all: {total}")
}
