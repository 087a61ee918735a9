//! The laws of rooted graphs. Each is the contract of a function that does nothing: a crate that
//! calls the function has the law. `L` is the type of the labels.

ghost use Rattle.rooted_graph.specs.GraphLaws.{EachGraphHasAnOrder, OrdersAreUnique, OrdersHoldTheReached};
ghost use Rattle.rooted_graph.specs.GraphLaws.{EqualWhereOrdersLookTheSame, EqualityIsReflexive, EqualityIsSymmetric};
ghost use Rattle.rooted_graph.specs.GraphLaws.{EqualityIsTransitive, OrderedGraphsAreEqual, OrderedGraphsCountUp};
ghost use Rattle.rooted_graph.specs.GraphLaws.{PathsAloneDoNotTell};

/// Every graph has a breadth-first order.
pub fn each_graph_has_an_order()
    ensures { EachGraphHasAnOrder }
{}

/// A graph has only one breadth-first order.
pub fn orders_are_unique()
    ensures { OrdersAreUnique }
{}

/// A node stands in the breadth-first order exactly where some path ends in it.
pub fn orders_hold_the_reached()
    ensures { OrdersHoldTheReached }
{}

/// Two graphs are equal exactly where their breadth-first orders look the same.
pub fn equal_where_orders_look_the_same<L>()
    ensures { EqualWhereOrdersLookTheSame L }
{}

/// Equality is reflexive, symmetric and transitive.
pub fn equality_is_an_equivalence<L>()
    ensures reflexive { EqualityIsReflexive L }
    ensures symmetric { EqualityIsSymmetric L }
    ensures transitive { EqualityIsTransitive L }
{}

/// A graph put into its breadth-first order is equal to it, and its own order is 0, 1, 2 and so on.
pub fn ordered_graphs_are_equal<L>()
    ensures equal { OrderedGraphsAreEqual L }
    ensures counts_up { OrderedGraphsCountUp }
{}

/// That every path ends alike is not enough: a node that is a root twice is not equal to two roots
/// of its label.
pub fn paths_alone_do_not_tell()
    ensures { PathsAloneDoNotTell }
{}
