// Prints what differs between the images in two files, named as its arguments.
#![tactic(auto)]

ghost use Rattle.image_compare.specs.Arguments.{Argument, PrintsArguments};

use imageio::printing::{print_differences, print_files};
use std::env::FillError;
use std::io;
use std::rt::Env;
use streams::writing::say_failed;

// The program's own name and two paths.
const ARGUMENT_COUNT: usize = 3;

// The most bytes of a path, with the 0 that ends it for the system.
const PATH_MAX: usize = 4096;

// Argument i, put into the room for it: empty where it is longer than any path.
fn argument<'a>(rt: &HostRuntime, i: usize, room: &'a mut [u8; PATH_MAX]) -> &'a [u8]
    ensures { Argument i result.now }
{
    let n = rt.arg(i, room).unwrap_or(0);
    &room[..n]
}

// Prints what differs between the files that the arguments name, if there are two; else as of two files with no bytes.
fn print_arguments(rt: &HostRuntime, count: usize) -> io::Result<()>
    ensures { PrintsArguments count result }
{
    if count != ARGUMENT_COUNT {
        return print_differences(rt, &[], &[]);
    }
    let mut one = [0u8; PATH_MAX];
    let mut two = [0u8; PATH_MAX];
    let first = argument(rt, 1, &mut one);
    let second = argument(rt, 2, &mut two);
    print_files(rt, first, second)
}

fn is_present(rt: &HostRuntime, i: usize) -> bool {
    !matches!(rt.arg(i, &mut []), Err(FillError::NotPresent))
}

// How many arguments there are: all in front of the first that the system does not have.
fn count_arguments(rt: &HostRuntime) -> usize {
    (0..usize::MAX).take_while(|&i| is_present(rt, i)).count()
}

fn main(rt: HostRuntime) {
    let count = count_arguments(&rt);
    if let Err(error) = print_arguments(&rt, count) {
        say_failed(&rt, b"standard output", error);
    }
}
