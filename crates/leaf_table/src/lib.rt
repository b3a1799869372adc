// The table of a node: its record of fifteen child places, an unbounded leaf and a spare, over 270 slots that the caller lends, and the
// steps in the leaf of one place.
#![tactic(auto)]

pub mod places;
mod plan;
pub mod record;
pub mod table;
