// The difference of one record, by value.
ghost use Rattle.std.specs.Prelude.{◌≡◌, ◌<◌, ◌≤◌, ◌==◌, not, length, count_by, zip};
ghost use Rattle.std.specs.List.{prefix_len};
ghost use Rattle.octets.specs.LittleEndian.{byte_values};
ghost use Rattle.records.specs.Layout.{image_size, image_record_count};
ghost use Rattle.differences.specs.Differences.{record_difference};
ghost use Rattle.differences.specs.Comparisons.{difference_at};

use crate::difference::Difference;
use crate::image::image_record;

// The first place at which two records differ: how many equal bytes they begin with.
fn first_differing(one: &[u8], two: &[u8]) -> usize
    ensures place { result ≡ prefix_len (λ p. p.0 == p.1) (zip one.now two.now) }
    ensures bound { result ≤ length one.now }
{
    one.iter().zip(two).take_while(|(x, y)| x == y).count()
}

// How many bytes differ. A record has fewer than 256, so that a count of 8 bits does not wrap.
fn differing_count(one: &[u8], two: &[u8]) -> u8
    requires { length one.now < byte_values }
    ensures { result ≡ count_by (λ p. not (p.0 == p.1)) (zip one.now two.now) }
{
    one.iter()
        .zip(two)
        .fold(0u8, |count, (x, y)| count.wrapping_add(u8::from(x != y)))
}

// Of two records: count 0 if they are equal.
#[tactic(auto, using(crate::proofs::DifferingPlaces::placed, crate::proofs::DifferingPlaces::counted), unfolding(crate::specs::Differences::record_difference))]
fn record_difference(table: u8, number: u8, one: &[u8], two: &[u8]) -> Difference
    requires { (length one.now ≡ length two.now) × (length one.now < byte_values) }
    ensures { result ≡ record_difference table number one.now two.now }
{
    Difference {
        table,
        number,
        place: first_differing(one, two) as u8,
        count: differing_count(one, two),
    }
}

// Of two images, in record k.
#[tactic(auto, unfolding(crate::specs::Differences::difference_in, ranks::specs::Table::slice))]
pub fn difference_at(one: &[u8], two: &[u8], k: usize) -> Difference
    requires { (length one.now ≡ image_size) × ((length two.now ≡ image_size) × (k < image_record_count)) }
    ensures { result ≡ difference_at one.now two.now k }
{
    let r = image_record(k);
    let end = r.start + r.width;
    record_difference(
        r.table as u8,
        r.number,
        &one[r.start..end],
        &two[r.start..end],
    )
}
