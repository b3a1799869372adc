// A node of the store: a table of leaves (`leaf_table`) over 270 slots that the caller lends, and its calls.
#![tactic(auto)]

pub mod leaf_node;
