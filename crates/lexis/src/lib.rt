#![tactic(auto)]
// What stands at a place of the source.
pub mod bytes;
pub mod heredoc;
pub mod keys;
pub mod number;
pub mod operator;
pub mod string;
pub mod trivia;
pub mod utf8;
pub mod word;
