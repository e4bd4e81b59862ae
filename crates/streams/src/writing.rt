// Bytes written to a descriptor, and messages.
ghost use Rattle.std.specs.Prelude.{◌≡◌, ◌≤◌, length, is_some};
ghost use Rattle.streams.specs.Writing.{standard_output, output_of, Writes, WritesAnswers, Says};

use std::io;
use std::io::{Stdout, Write};
use std::os::fd::AsRawFd;

// A descriptor that is written.
#[derive(Clone, Copy, Debug, PartialEq, Eq)]
pub struct Output {
    pub fd: i32,
}

pub fn standard_output(rt: &HostRuntime) -> Stdout
    ensures { output_of result ≡ standard_output }
{
    rt.stdout()
}

// The descriptor that is written.
pub fn descriptor(to: Stdout) -> Output
    ensures { result ≡ output_of to }
{
    Output { fd: to.as_raw_fd() }
}

// Writes all of the bytes.
pub fn write(to: Stdout, bytes: &[u8]) -> io::Result<()>
    ensures { Writes (output_of to) bytes.now result }
{
    let mut to = to;
    to.write_all(bytes)
}

// Writes answer records, where they are asked for.
pub fn write_answers(to: Option<Stdout>, answers: &[u8]) -> io::Result<()>
    ensures { WritesAnswers standard_output (is_some to) answers.now result }
{
    match to {
        Some(to) => write(to, answers),
        None => Ok(()),
    }
}

// The room for the system's words for an error.
const WORDS_ROOM: usize = 256;

// Behind the words the error's number is named.
const NUMBER: &[u8] = b" (os error ";

// How many bytes the system's words have: they end before the error's number, or where the rest of the room is zeros.
fn words_end(text: &[u8]) -> usize
    ensures { result ≤ length text.now }
{
    (0..text.len())
        .find(|&i| text[i] == 0 || text[i..].starts_with(NUMBER))
        .unwrap_or(text.len())
}

// A line on standard error: what failed, and the system's words for the error.
pub fn say_failed(rt: &HostRuntime, what: &[u8], error: io::Error)
    ensures { Says what.now }
{
    let mut words = [0u8; WORDS_ROOM];
    let _ = write!(&mut words[..], "{error}");
    let end = words_end(&words);
    let mut to = rt.stderr();
    let _ = to.write_all(what);
    let _ = to.write_all(b": ");
    let _ = to.write_all(&words[..end]);
    let _ = to.write_all(b"\n");
}
