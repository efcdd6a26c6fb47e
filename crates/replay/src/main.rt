// Reads the records of a pass from standard input, or from the file that the first argument names, and writes the answer to each.
#![tactic(auto)]

use std::env::{Env, FillError};
use std::fs::{File, Files};
use std::io::{Error, Write};
use std::{io, str};

// The system's numbers of "File name too long" and of "Invalid or incomplete multibyte or wide character".
const NAME_TOO_LONG: i32 = 36;

const NOT_TEXT: i32 = 84;

// Opens the file of that name, which std takes as text alone.
fn open<R: Files>(rt: &R, name: &[u8]) -> io::Result<R::File> {
    match str::from_utf8(name) {
        Ok(name) => File::open(rt, name),
        Err(_) => Err(Error::from_raw_os_error(NOT_TEXT)),
    }
}

// Writes a line: what failed, a colon and why, in the system's words. Behind these std puts the error's number in brackets, which is left out.
fn fail<W: Write>(to: &mut W, what: &[u8], error: &Error) -> io::Result<()> {
    let mut text = [b' '; 256];
    let mut rest = &mut text[..];
    write!(rest, "{error}")?;
    let end = text.iter().position(|c| *c == b'(').unwrap_or(text.len());
    to.write_all(what)?;
    to.write_all(b": ")?;
    to.write_all(text[..end].trim_ascii_end())?;
    to.write_all(b"\n")
}

fn main(rt: HostRuntime) {
    let mut output = rt.stdout();
    let mut path = [0u8; 4096];
    match rt.arg(1, &mut path) {
        Err(FillError::NotPresent) => replay_run::run(&mut rt.stdin(), &mut output),
        Err(FillError::TooLong) => {
            let error = Error::from_raw_os_error(NAME_TOO_LONG);
            let _ = fail(&mut rt.stderr(), b"path", &error);
        }
        Ok(length) => {
            let name = &path[..length];
            match open(&rt, name) {
                Ok(mut file) => replay_run::run(&mut file, &mut output),
                Err(error) => {
                    let _ = fail(&mut rt.stderr(), name, &error);
                }
            }
        }
    }
}
