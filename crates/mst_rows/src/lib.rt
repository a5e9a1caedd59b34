//! Rows: what a text says, before it is printed.
//!
//! A text hands over rows, each of a [`Kind`](mst_kinds::Kind) with its [`Value`]s, to what implements [`Rows`]: lines (a `Vec<u8>`), the
//! records of an answer ([`Json`]) or each on a line of its own ([`JsonLines`]), or a count ([`Counts`]). What the words and the keys of a
//! kind are stands once, in the table of `mst_kinds`.
//!
//! A value of several words is an object where it stands for one thing: a vector, what tells a region (`specs/Objects.antt` has their
//! fields), what fails. An island or a part of one is an array of names, and several are an array of these. What a value says
//! (`specs/Cells.antt`) has no references, an identifier as the word that it is written as, and VIDs as their longest runs.
#![tactic(auto)]

mod active;
mod answer;
mod array;
mod counts;
mod escape;
mod field;
mod json_lines;
pub mod laws;
mod object;
mod promise;
mod rows;
mod runs;
mod text;
mod value;

pub use answer::Json;
pub use counts::Counts;
pub use json_lines::JsonLines;
pub use rows::{Rows, put};
pub use value::{ActivePort, PromiseScope, PromiseTold, RegionSide, Value, Vector};
