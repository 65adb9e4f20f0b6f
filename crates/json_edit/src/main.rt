//! Edits the JSON document of standard input by commands, and writes it with all else in its place.
//!
//! The hasher of its objects has a random seed, so whoever writes the input cannot choose names
//! that collide.
#![tactic(auto)]

#[cfg(test)]
mod tests;

use json_commands::run::{parts_of, run};
use json_commands::stop::Stop;
use std::process::ExitCode;
use std::{env, fs, io};

/// Appends the lines of a file that are not blank.
fn push_lines(rt: &HostRuntime, path: &str, arguments: &mut Vec<String>) -> io::Result<()> {
    let text = fs::read_to_string(rt, path)?;
    for line in text.lines() {
        if !line.is_empty() {
            arguments.push(String::from_str(rt.alloc(), line)?)?;
        }
    }
    Ok(())
}

/// Returns the arguments of the program, without its name, and with the lines of a file in place of
/// `--file` and its path.
fn arguments(rt: &HostRuntime) -> io::Result<Vec<String>> {
    let mut arguments: Vec<String> = Vec::new(rt.alloc());
    for word in env::args(rt)?.skip(1) {
        match arguments.last() {
            Some(last) if last.as_str() == "--file" => {
                let _ = arguments.pop();
                push_lines(rt, word.as_str(), &mut arguments)?;
            }
            _ => arguments.push(word)?,
        }
    }
    Ok(arguments)
}

/// Tells why a run stopped, and returns the status.
fn report(rt: &HostRuntime, stop: Stop, arguments: &[String]) -> ExitCode {
    let _ = stop.tell(parts_of(arguments).1, &mut rt.stderr());
    ExitCode::from(stop.status())
}

fn main(rt: HostRuntime) -> ExitCode {
    let words = match arguments(&rt) {
        Ok(words) => words,
        Err(error) => return report(&rt, Stop::of_read(error.kind()), &[]),
    };
    let words = words.as_slice();
    match run(rt.alloc(), &rt, words, &mut rt.stdin(), &mut rt.stdout()) {
        Ok(()) => ExitCode::SUCCESS,
        Err(stop) => report(&rt, stop, words),
    }
}
