// Checks a commissioning sheet: the file that is named, or standard input.
#![tactic(auto)]

use listing::check::{MOST_BYTES, check};
use listing::fault::CheckFault;
use listing::text::{refusal_text, report_text};
use std::alloc::AllocError;
use std::fs::File;
use std::io::Read;
use std::process::ExitCode;
use std::{env, io};
use thiserror::Error;

// Why nothing can be said of a sheet.
#[derive(Debug, Drop, Error)]
enum Failure {
    // the file that is named here cannot be read
    #[error("{0}: {1}")]
    File(String, io::Error),
    #[error("more than one argument: name one file, or none for standard input")]
    TooManyArguments,
    #[error(transparent)]
    Stream(#[from] io::Error),
}

// Written out, since want of memory is told as an error of the stream.
impl From<AllocError> for Failure {
    fn from(error: AllocError) -> Failure {
        Failure::Stream(error.into())
    }
}

// Up to one byte more than a sheet may have, so that a longer one is seen.
fn bounded(input: impl Read + Drop, rt: &HostRuntime) -> io::Result<Vec<u8>> {
    let mut bytes = Vec::new(rt.alloc());
    // `as`, since between these widths there is only a `TryFrom`, and its error cannot come
    let mut limited = input.take(MOST_BYTES as u64 + 1);
    limited.read_to_end(&mut bytes)?;
    Ok(bytes)
}

// The bytes of a file; a file that cannot be read is named in the error.
fn named(rt: &HostRuntime, path: String) -> Result<Vec<u8>, Failure> {
    let read = File::open(rt, path.as_str()).and_then(|file| bounded(file, rt));
    read.map_err(|error| Failure::File(path, error))
}

// The bytes of the sheet that the arguments name.
fn input(rt: &HostRuntime) -> Result<Vec<u8>, Failure> {
    let mut args = env::args(rt)?;
    let _program = args.next();
    let file = args.next();
    if args.next().is_some() {
        return Err(Failure::TooManyArguments);
    }
    match file {
        Some(path) => named(rt, path),
        None => Ok(bounded(rt.stdin(), rt)?),
    }
}

// Prints the refusal as a listing, and for people what is wrong.
fn refuse(rt: &HostRuntime, fault: CheckFault) -> Result<ExitCode, Failure> {
    if let Some(refusal) = fault.refusal() {
        rt.print(refusal_text(refusal, rt.alloc())?)?;
    }
    rt.eprintln(fault)?;
    Ok(ExitCode::FAILURE)
}

// What is said of the sheet; a refused one ends the program with status 1.
fn run(rt: &HostRuntime) -> Result<ExitCode, Failure> {
    let bytes = input(rt)?;
    match check(bytes.as_slice(), rt.alloc()) {
        Ok(report) => {
            rt.print(report_text(&report, rt.alloc())?)?;
            Ok(ExitCode::SUCCESS)
        }
        Err(fault) => refuse(rt, fault),
    }
}

fn main(rt: HostRuntime) -> ExitCode {
    match run(&rt) {
        Ok(status) => status,
        Err(error) => {
            let _ = eprintln!(rt; "checksheet: {error}");
            ExitCode::FAILURE
        }
    }
}
