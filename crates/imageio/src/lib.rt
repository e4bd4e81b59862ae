// What the program says of two images, and of the images in two files.
#![tactic(auto)]

mod files; // files.rt: a file read into a buffer
pub mod printing; // printing.rt: a comparison printed
mod text; // text.rt: a comparison as text
