// What differs between two images of the tables.
#![tactic(auto)]

pub mod answer; // answer.rt: an answer as numbers
pub mod compare; // compare.rt: the lent list filled
pub mod difference; // difference.rt: what a record differs in
mod image; // image.rt: the records of an image
pub mod listed; // listed.rt: the list by value
mod record_difference; // record_difference.rt: one record compared
