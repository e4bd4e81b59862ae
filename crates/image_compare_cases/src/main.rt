// Prints what differs between stored images in data/, pair by pair: the names of the two files, and then what image_compare prints of them.
//
// base is a sound image. The others are base with some bytes changed: one, three of one record, the first and the last byte of each table,
// some in each of the 112 records, every byte; or with a byte less, a byte more, no bytes. missing is not there, and "." is a directory.
//
// What has to be printed comes from an independent program, written from document 02 and sharing nothing with this code.
#![tactic(auto)]

use imageio::printing::print_files;

// The pairs of files.
const PAIRS: [(&str, &str); 18] = [
    ("base.image", "base.image"),
    ("base.image", "one_byte.image"),
    ("base.image", "three_bytes.image"),
    ("base.image", "ends.image"),
    ("base.image", "all_records.image"),
    ("base.image", "all_bytes.image"),
    ("all_bytes.image", "all_bytes.image"),
    ("base.image", "one_byte_less.image"),
    ("one_byte_less.image", "one_byte_less.image"),
    ("base.image", "one_byte_more.image"),
    ("one_byte_more.image", "base.image"),
    ("one_byte_more.image", "one_byte_more.image"),
    ("no_bytes.image", "base.image"),
    ("base.image", "no_bytes.image"),
    ("base.image", "missing.image"),
    ("missing.image", "base.image"),
    ("missing.image", "missing.image"),
    ("base.image", "."),
];

fn compare_files(rt: &HostRuntime, one: &str, two: &str) {
    let _ = println!(rt; "{one} {two}");
    let _ = print_files(rt, one.as_bytes(), two.as_bytes());
}

fn main(rt: HostRuntime) {
    for (one, two) in PAIRS {
        compare_files(&rt, one, two);
    }
}
