// What a strike that is done answers.
//
// Ported from `RemoveResult` in `tree_index/leaf.rs` of scc 3.8.8 (Apache-2.0), and changed: what is refused is the error of a `Result`,
// as it is in place of `InsertResult`; the key and the value are copied, so a refused filing does not hand them back.

#[derive(Clone, Copy, Debug, PartialEq, Eq)]
pub enum RemoveOutcome {
    Success,
    // the last live slot was struck
    Retired,
}
