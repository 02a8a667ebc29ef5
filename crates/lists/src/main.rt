// The listing of each file that an argument names, behind a line with the name.
#![tactic(auto)]

use std::env::{Env, FillError};
use std::io::Write;
use std::{fs, io, str};

fn say(rt: &HostRuntime, text: &[u8]) {
    let _ = rt.stdout().write_all(text);
}

// A line on standard error: what failed, and why, in the system's words without their number.
fn fail(rt: &HostRuntime, what: &[u8], why: &str) {
    let words = match why.split_once(" (os error ") {
        Some((words, _)) => words,
        None => why,
    };
    let mut errors = rt.stderr();
    let _ = errors.write_all(what);
    let _ = writeln!(errors, ": {words}");
}

// std's paths are text, so a file whose name is not UTF-8 cannot be opened.
fn open(rt: &HostRuntime, name: &[u8]) -> io::Result<fs::File> {
    match str::from_utf8(name) {
        Ok(name) => fs::open(rt, name),
        Err(_) => Err(io::Error::new(io::ErrorKind::InvalidInput, "a name that is not UTF-8")),
    }
}

// What went wrong with a file is told on standard output too, so that its place there is never silent or taken for a whole listing:
// every line of a listing begins with a digit.
fn list_file(rt: &HostRuntime, name: &[u8]) {
    say(rt, name);
    say(rt, b"\n");
    match open(rt, name) {
        Ok(mut file) => {
            if !turns::list(&mut file, &mut rt.stdout(), &mut rt.stderr()) {
                say(rt, b"not listed to its end\n");
            }
        }
        Err(error) => {
            match format!(in rt.alloc(); "{error}") {
                Ok(why) => fail(rt, name, why.as_str()),
                Err(_) => fail(rt, name, "out of memory"),
            }
            say(rt, b"cannot be opened\n");
        }
    }
}

fn main(rt: HostRuntime) {
    let mut name = [0u8; 4096];
    for i in 1..usize::MAX {
        match Env::arg(&rt, i, &mut name) {
            Ok(n) => list_file(&rt, &name[..n]),
            Err(FillError::TooLong) => {
                fail(&rt, b"an argument", "File name too long");
                say(&rt, b"an argument is longer than any name\n");
            }
            Err(FillError::NotPresent) => return,
        }
    }
}
