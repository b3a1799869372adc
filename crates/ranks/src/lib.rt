// The rank word of a leaf array, and what is read from it without a look at any key.
#![tactic(auto)]

pub mod array_iter;
pub mod boundary;
pub mod dimension;
