// A run of the program: it parses the arguments, reads both files, and writes to standard output
// and to standard error.
ghost use Rattle.std.specs.Prelude.{◌≡◌, ◌<◌, ◌^◌, ◌↔◌, IfErr, IfOk, IsOk};
ghost use Rattle.std.specs.String.{string_len};
ghost use Rattle.std.specs.IoError.{error_kind};
ghost use Rattle.mbe_program.specs.Options.{name_of};
ghost use Rattle.mbe_program.specs.FileFailures.{IsUnread, CannotBeRead};

use crate::arguments::options;
use crate::failure::Failure;
use crate::options::Options;
use crate::program::{Outcome, run};
use std::alloc::Global;
use std::io::{BufWriter, Read};
use std::rt::{Env, Files};
use std::{env, fs, io};

/// Runs on the arguments of the program, and returns the exit status. The runtime `rt`, here and
/// below, gives access to the arguments, the files and the outputs.
pub fn run_command<R: Env + Files + Print + Eprint + AllocGlobal>(rt: &R) -> u8 {
    match argv(rt) {
        Ok(argv) => run_arguments(rt, argv.as_slice()),
        Err(error) => match error.kind() {
            io::ErrorKind::OutOfMemory => print_failure(rt, Failure::OutOfMemory),
            _ => print_failure(rt, Failure::Usage),
        },
    }
}

// Returns the arguments after the program's name.
fn argv<R: Env + AllocGlobal>(rt: &R) -> io::Result<Vec<String>> {
    let mut argv = Vec::new(rt.alloc());
    for argument in env::args(rt)?.skip(1) {
        argv.push(argument)?;
    }
    Ok(argv)
}

// Returns the text, if it is shorter than 2^32 bytes.
fn short(text: String) -> io::Result<String>
    ensures short { IsOk result ↔ (string_len text < 2 ^ 32) }
    ensures same { IfOk result (λ same. same ≡ text) }
{
    if text.len() > u32::MAX as usize {
        return Err(io::Error::from(io::ErrorKind::FileTooLarge));
    }
    Ok(text)
}

// Returns the line on a file that can't be read: out of memory, or its name.
fn read_failure<'a>(error: &io::Error, name: &'a str) -> Failure<'a, Global>
    ensures { IsUnread (error_kind error.now) name.now result }
{
    match error.kind() {
        io::ErrorKind::OutOfMemory => Failure::OutOfMemory,
        _ => Failure::CannotRead(name),
    }
}

// Reads the file of that name. A text of 2^32 bytes or more is an error. No more than 2^32 bytes
// are read, so a file that never ends is an error too.
fn short_text<R: Files + AllocGlobal>(rt: &R, name: &str) -> io::Result<String>
    ensures short { IfOk result (λ text. string_len text < 2 ^ 32) }
{
    let file = fs::open(rt, name)?;
    short(io::read_to_string(rt.alloc(), file.take(1 << 32))?)
}

// Reads a file of the run: 0 is the definition, 1 the argument. The error is the line to print.
fn read<'a, R: Files + AllocGlobal>(
    rt: &R,
    options: &Options<'a>,
    file: u32,
) -> Result<String, Failure<'a, Global>>
    ensures short { IfOk result (λ text. string_len text < 2 ^ 32) }
    ensures named { IfErr result (CannotBeRead (name_of options.now file)) }
{
    let name = options.name_of(file);
    match short_text(rt, name) {
        Ok(text) => Ok(text),
        Err(error) => Err(read_failure(&error, name)),
    }
}

// Prints the line to standard error, if that can be written, and returns the exit status of the
// line.
fn print_failure(rt: &impl Eprint, failure: Failure<'_, Global>) -> u8 {
    let _ = eprintln!(rt; "{failure}");
    failure.status()
}

// Runs on both files, and writes to standard output. The error is the line to print if a file can't
// be read, or memory runs out before the run.
fn run_files<'a, R: Files + Print + AllocGlobal>(
    rt: &R,
    options: &Options<'a>,
) -> Result<Outcome<Global>, Failure<'a, Global>> {
    let def = read(rt, options, 0)?;
    let arg = read(rt, options, 1)?;
    let Ok(mut out) = BufWriter::new(rt.alloc(), io::writer(rt)) else {
        return Err(Failure::OutOfMemory);
    };
    Ok(run(
        rt.alloc(),
        def.as_str(),
        arg.as_str(),
        options.edition,
        options.lint,
        &mut out,
    ))
}

/// Runs on the files that the arguments name. It writes to standard output, and to standard error
/// why nothing is written. Returns the exit status.
pub fn run_arguments<R: Files + Print + Eprint + AllocGlobal>(rt: &R, argv: &[String]) -> u8 {
    let Some(options) = options(argv) else {
        return print_failure(rt, Failure::Usage);
    };
    match run_files(rt, &options) {
        Err(failure) => print_failure(rt, failure),
        Ok(outcome) => match outcome.failure(&options) {
            Some(failure) => print_failure(rt, failure),
            None => outcome.status(),
        },
    }
}
