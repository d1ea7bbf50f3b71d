//! What is shown of a profile.

/// What is told of a profile.
#[derive(Clone, Copy)]
pub struct Side<'a> {
    /// The name of its file.
    pub name: &'a str,
    /// What `review` tells of it.
    pub review: &'a [u8],
    /// The graph of its filter as `draw` tells it, or why it has none.
    pub graph: &'a [u8],
    /// Whether it is the graph.
    pub is_drawn: bool,
}
