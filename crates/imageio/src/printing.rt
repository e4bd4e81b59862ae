// A comparison printed.
ghost use Rattle.streams.specs.Writing.{standard_output, Writes};
ghost use Rattle.imageio.specs.Printed.{printed_of};
ghost use Rattle.imageio.specs.Files.{PrintsFiles};

use crate::files::{FILE_ROOM, read_file};
use crate::text::differences_text;
use std::io;
use streams::writing::{standard_output, write};

// Writes what differs between two images to standard output.
pub fn print_differences(rt: &HostRuntime, one: &[u8], two: &[u8]) -> io::Result<()>
    ensures { Writes standard_output (printed_of one.now two.now) result }
{
    let text = differences_text(one, two);
    write(standard_output(rt), text.as_bytes())
}

// Writes what differs between the images in two files, named by their paths. A file that can't be read has no bytes.
pub fn print_files(rt: &HostRuntime, first: &[u8], second: &[u8]) -> io::Result<()>
    ensures { PrintsFiles first.now second.now result }
{
    let mut one = [0u8; FILE_ROOM];
    let mut two = [0u8; FILE_ROOM];
    let n = read_file(rt, first, &mut one).unwrap_or(0);
    let m = read_file(rt, second, &mut two).unwrap_or(0);
    print_differences(rt, &one[..n], &two[..m])
}
