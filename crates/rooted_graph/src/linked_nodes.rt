//! What a numbering reads of a graph. A later crate implements it over its own bytes, so no graph
//! is made.

ghost use Rattle.std.specs.Prelude.{◌≡◌, ℕ, ◌<◌, List, [], ◌∷◌, Option, IfSome, MatchOption, length, slice_get, ⊤};
ghost use Rattle.rooted_graph.specs.Rooted.{Rooted, links_of};

/// Nodes, with links among them, and roots.
///
/// A node is a number below `node_count`, so there are at most 4,294,967,295 of them. Each root is
/// a node, and each link is null or leads to a node. No method fails or takes memory.
pub trait LinkedNodes {
    /// Where a walk along the links of a node stands.
    type Walk: Drop;

    // The graph that is meant.
    ghost graph: { Self → Rooted };

    // The walk is one along links of this graph.
    ghost is_walk: { Self → Self.Walk → Type 0 } = { λ _ _. ⊤ };

    // The links that a walk still has before it, in their order.
    ghost ahead: { Self → Self.Walk → List (Option ℕ) };

    /// How many nodes there are.
    fn node_count(&self) -> u32
        ensures { result ≡ length (graph self.now).links };

    /// How many roots there are, where a node counts as often as it is a root.
    fn root_count(&self) -> usize
        ensures { result ≡ length (graph self.now).roots };

    /// The root at a place, from 0.
    fn root(&self, place: usize) -> u32
        requires { place < length (graph self.now).roots }
        ensures root { slice_get (graph self.now).roots place ≡ Some result }
        ensures in_range { result < length (graph self.now).links };

    /// A walk along all the links of a node.
    fn links(&self, node: u32) -> Self::Walk
        requires { node < length (graph self.now).links }
        ensures walk { is_walk self.now result }
        ensures all { ahead self.now result ≡ links_of (graph self.now) node };

    /// The next link of a walk: `Some(None)` where it is null, and `None` behind the last one.
    fn next_link(&self, walk: &mut Self::Walk) -> Option<Option<u32>>
        requires { is_walk self.now walk.old }
        ensures walk { is_walk self.now walk.new }
        ensures next { MatchOption result (ahead self.now walk.old ≡ [])
            (λ link. ahead self.now walk.old ≡ link ∷ ahead self.now walk.new) }
        ensures in_range { IfSome result (λ link. IfSome link (λ node. node < length (graph self.now).links)) };
}
