// A run of the server: it reads messages from standard input, and writes replies to standard
// output.
use crate::server::{Phase, Server, VERSION};
use mbe_protocol::frames::{FrameReader, framed};
use std::env;
use std::io::{self, Read, Write};
use std::rt::{Env, Files};

// Exit status: the client sent `shutdown` and then `exit`, or help was asked for.
const EXIT_OK: u8 = 0;

// Exit status: the client sent `exit` alone, or closed the connection.
const EXIT_LEFT: u8 = 1;

// Exit status: the command line is invalid, the input or the output failed, or memory ran out.
const EXIT_FAILED: u8 = 2;

// How many bytes are read at once.
const CHUNK: usize = 4096;

const HELP: &str = "mbe-lsp: a language server for Rust's declarative macros

Usage: mbe-lsp [OPTIONS]

It speaks the Language Server Protocol on standard input and output. An editor starts it.

Options:
      --stdio    Use standard input and output, as always
  -h, --help     Print help
  -V, --version  Print version
";

/// Runs on the arguments of the program, and returns the exit status.
pub fn run_command<R: Env + Files + Input + Print + Eprint + AllocGlobal + Clone + Drop>(
    rt: &R,
) -> u8 {
    match run(rt) {
        Ok(status) => status,
        Err(error) => {
            let _ = eprintln!(rt; "error: {error}");
            EXIT_FAILED
        }
    }
}

fn run<R: Env + Files + Input + Print + Eprint + AllocGlobal + Clone + Drop>(
    rt: &R,
) -> io::Result<u8> {
    for argument in env::args(rt)?.skip(1) {
        match argument.as_str() {
            "--stdio" => {}
            "-h" | "--help" => {
                print!(rt; "{HELP}")?;
                return Ok(EXIT_OK);
            }
            "-V" | "--version" => {
                println!(rt; "mbe-lsp {VERSION}")?;
                return Ok(EXIT_OK);
            }
            _ => {
                eprintln!(rt; "error: unknown argument `{argument}`; --help lists the options")?;
                return Ok(EXIT_FAILED);
            }
        }
    }
    serve(rt)
}

// Serves until the client leaves, and returns the exit status.
fn serve<R: Env + Files + Input + Print + AllocGlobal + Clone + Drop>(rt: &R) -> io::Result<u8> {
    let mut server = Server::new(rt)?;
    let mut frames = FrameReader::new(rt.alloc());
    let mut input = rt.reader();
    for _ in 0..u64::MAX {
        let mut chunk = [0u8; CHUNK];
        let count = input.read(&mut chunk)?;
        let Some(bytes) = chunk.get(..count) else {
            break;
        };
        if bytes.is_empty() {
            break;
        }
        if let Some(status) = serve_bytes(rt, &mut server, &mut frames, bytes)? {
            return Ok(status);
        }
    }
    Ok(EXIT_LEFT)
}

// Answers the messages that end in these bytes, and then publishes what changed. Returns the exit
// status, if the client leaves.
fn serve_bytes<R: Env + Files + Print + AllocGlobal + Clone + Drop>(
    rt: &R,
    server: &mut Server,
    frames: &mut FrameReader,
    bytes: &[u8],
) -> io::Result<Option<u8>> {
    let mut messages = Vec::new(rt.alloc());
    for byte in bytes {
        if let Some(frame) = frames.accept(*byte)? {
            messages.push(server.read(&frame)?)?;
        }
    }
    for (at, message) in messages.iter().enumerate() {
        let later = messages.get(at.saturating_add(1)..).unwrap_or(&[]);
        let replies = server.answer(rt, message, later)?;
        send(rt, &replies)?;
        if let Phase::Exited { is_orderly } = server.phase {
            return Ok(Some(if is_orderly { EXIT_OK } else { EXIT_LEFT }));
        }
    }
    let replies = server.settle(rt)?;
    send(rt, &replies)?;
    Ok(None)
}

// Writes messages, each with its header.
fn send<R: Print + AllocGlobal>(rt: &R, messages: &[String]) -> io::Result<()> {
    let mut out = io::writer(rt);
    for text in messages {
        let message = framed(rt.alloc(), text.as_str())?;
        out.write_all(message.as_bytes())?;
    }
    out.flush()
}
