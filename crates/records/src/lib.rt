// A file of recorded questions and answers: the words that stand in its bytes, the records that stand in its words, and how far two files are the same;
// what stands in the words of a question, and the words of an answer.
#![tactic(auto)]

pub mod answers;
pub mod files;
pub mod questions;
pub mod words;
