//! Reads the words of a script's lines and the arrays after them, and the calls of clients that they ask for. A
//! call is made on the database, in a transaction or on rows, or it begins or ends a transaction.
#![tactic(auto)]

mod args;
mod array;
mod calls;
mod labels;
mod rows;
mod targets;
mod transactions;
mod words;

pub use args::{read_arg, read_statement};
pub use array::{read_array, read_text};
pub use calls::read_call;
pub use words::{client, is_name, limit, moment, ordinal, split_array, split_words};
