//! How an event of a list comes to one of the nodes that the list is delivered to.

/// How an event comes to a node.
#[derive(Clone, Copy, Debug, PartialEq, Eq)]
pub enum Delivery {
    /// A tick, in its place: what waits for it comes behind it.
    Tick,
    /// In its place.
    Once,
    /// In its place, and at once again.
    Twice,
    /// Behind the next tick.
    Late,
}
