// Keys in an order and queries against them, their stored forms, refusals, the values beside keys and conditions on them.
#![tactic(auto)]

pub mod condition;
pub mod equivalent;
pub mod page;
pub mod refusal;
pub mod reversed;
pub mod sample;
pub mod stored;
pub mod value;
pub mod worded;
