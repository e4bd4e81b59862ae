// A file read into a buffer.
ghost use Rattle.std.specs.Prelude.{◌≤◌, length, IfOk};
ghost use Rattle.imageio.specs.Files.{Opened, ReadsFile};

use records::layout::IMAGE_SIZE;
use std::fs::File;
use std::io;
use streams::reading::{fill, open};

// One byte more than an image has shows a file that is too long.
pub const FILE_ROOM: usize = IMAGE_SIZE + 1;

fn open_file(rt: &HostRuntime, path: &[u8]) -> io::Result<File>
    ensures { Opened path.now result }
{
    open(rt, path)
}

// Reads the file as far as the buffer has room. How many bytes were read.
pub fn read_file(rt: &HostRuntime, path: &[u8], buffer: &mut [u8]) -> io::Result<usize>
    ensures reads_file { ReadsFile path.now buffer.old result buffer.new }
    ensures inside { IfOk result (λ n. n ≤ length buffer.old) }
{
    let file = open_file(rt, path)?;
    fill(&file, buffer)
}
