// Bytes read into a buffer until it is full.
ghost use Rattle.std.specs.Prelude.{◌≡◌, ◌≤◌, length, IfOk, IsSome};
ghost use Rattle.streams.specs.Filling.{standard_input, input_of, OpenedAt, ReadBehind, Fills};

use std::fs::File;
use std::io;
use std::io::{Read, Stdin};
use std::os::fd::AsRawFd;

// A descriptor that is read.
#[derive(Clone, Copy, Debug, PartialEq, Eq)]
pub struct Input {
    pub fd: i32,
}

pub fn standard_input(rt: &HostRuntime) -> Stdin
    ensures { input_of (⟦<Stdin as AsRawFd>⟧.raw_fd result) ≡ standard_input }
{
    rt.stdin()
}

// Opens the file at a path. One that is not UTF-8 text can't be opened.
pub fn open(rt: &HostRuntime, path: &[u8]) -> io::Result<File>
    ensures { OpenedAt path.now result }
{
    match str::from_utf8(path) {
        Ok(name) => File::open(rt, name),
        Err(_) => Err(io::Error::from(io::ErrorKind::InvalidInput)),
    }
}

// The descriptor that is read. Standard input and an open file have a known number.
pub fn descriptor<R: AsRawFd>(from: &R) -> Input
    ensures { IsSome (R.raw_fd from.now) → result ≡ input_of (R.raw_fd from.now) }
{
    Input {
        fd: from.as_raw_fd(),
    }
}

// One read behind the first n bytes of the buffer.
fn read_behind<'a, R: AsRawFd>(from: &'a R, n: usize, buffer: &mut [u8]) -> io::Result<usize>
where
    &'a R: Read,
    requires { n ≤ length buffer.old }
    ensures { ReadBehind (input_of (R.raw_fd from.now)) n buffer.old result buffer.new }
{
    let mut from = from;
    from.read(&mut buffer[n..])
}

// Reads until the buffer is full or the input ends: a pipe hands out any number of bytes at a time. How many bytes stand at its start.
pub fn fill<'a, R: AsRawFd>(from: &'a R, buffer: &mut [u8]) -> io::Result<usize>
where
    &'a R: Read,
    ensures fills { Fills (input_of (R.raw_fd from.now)) result buffer.new 0 buffer.old }
    ensures inside { IfOk result (λ n. n ≤ length buffer.old) }
{
    let mut n = 0;
    while n < buffer.len() {
        match read_behind(from, n, buffer)? {
            0 => return Ok(n),
            got => n += got,
        }
    }
    Ok(n)
}
