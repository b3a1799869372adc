// A leaf array: a rank word, a bitmap of uses, and fifteen slots of keys and values that the caller lends.
#![tactic(auto)]

pub mod array;
pub mod data_block;
pub mod exit_guard;
pub mod leaf;
pub mod result;
mod seek;
