//! What a word of the program is made of: a [`Job`] takes the lines of an input, one after another, and says what is printed of each,
//! and of the end. It knows no device: [`drive`] reads the input of any job from a source, and writes what the job says to a sink.
//! A word that has several inputs is as many jobs, one after another. Of what a [`Word`] is to the program its trait says all.
#![tactic(auto)]

mod driving;
mod feed;
mod job;
mod said;
mod word;

pub use driving::drive;
pub use job::Job;
pub use said::{Said, Says};
pub use word::Word;
