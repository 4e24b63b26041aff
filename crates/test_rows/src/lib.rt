//! What the programs of rows share: the loop that plays rows and prints their answers, why a row is not played,
//! and what its words stand for. A program of rows reads test cases from its standard input, a row each, so that a further case is
//! a row.
#![tactic(auto)]

pub use fault::RowFault;
pub use playing::{Stage, play_rows, put, replace};
pub use words::{
    class, index, number, object, one_number, one_word, space, space_of, value, values, words_of,
};

mod fault;
mod playing;
mod words;
