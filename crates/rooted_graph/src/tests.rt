//! The breadth-first order of small graphs worked by hand, and of large ones.

ghost use Rattle.std.specs.Prelude.{◌≡◌, ℕ, ◌<◌, ◌^◌, All, Some, None, length, map, nat_lt, if◌then◌else◌};

use crate::{LinkedNodes, Numbering};
use std::alloc::Global;
use std::process::Abort;
use std::test::Fail;

/// A link to a number that is no node is null.
const NULL: u32 = u32::MAX;

/// A graph by the numbers that the links of each node have, and its roots.
#[derive(Drop)]
struct Rows<'a> {
    rows: &'a [&'a [u32]],
    roots: &'a [u32],
    ghost few: { length rows.now < 2 ^ 32 },
    ghost whole: { All (λ root. root < length rows.now) roots.now },
}

/// The links that a walk has before it.
#[derive(Drop)]
struct Ahead<'a> {
    links: &'a [u32],
}

impl<'a> LinkedNodes for Rows<'a> {
    type Walk = Ahead<'a>;

    ghost graph = { λ g. record {
      links =
          map (λ row. map (λ n. if nat_lt n (length g.rows.now) then Some n else None) row.now) g.rows.now;
      roots = g.roots.now;
    } };

    ghost ahead = { λ g walk. map (λ n. if nat_lt n (length g.rows.now) then Some n else None) walk.links.now };

    fn node_count(&self) -> u32 {
        self.rows.len() as u32
    }

    fn root_count(&self) -> usize {
        self.roots.len()
    }

    fn root(&self, place: usize) -> u32 {
        self.roots[place]
    }

    fn links(&self, node: u32) -> Ahead<'a> {
        Ahead {
            links: self.rows[node as usize],
        }
    }

    fn next_link(&self, walk: &mut Ahead<'a>) -> Option<Option<u32>> {
        match walk.links {
            [] => None,
            [next, rest @ ..] => {
                let target = *next;
                walk.links = rest;
                if (target as usize) < self.rows.len() {
                    Some(Some(target))
                } else {
                    Some(None)
                }
            }
        }
    }
}

impl<'a> Rows<'a> {
    /// The graph with these rows, if each root is one of its nodes.
    fn new(rows: &'a [&'a [u32]], roots: &'a [u32]) -> Option<Rows<'a>> {
        if rows.len() > u32::MAX as usize {
            return None;
        }
        if !roots.iter().all(|&root| (root as usize) < rows.len()) {
            return None;
        }
        Some(Rows { rows, roots })
    }
}

/// A graph by its rows of links and its roots, with its order.
#[derive(Clone, Copy)]
struct Case<'a> {
    name: &'a str,
    rows: &'a [&'a [u32]],
    roots: &'a [u32],
    order: &'a [u32],
}

impl Case<'_> {
    fn check(self, rt: &impl Abort, alloc: Global) -> Result<(), Fail> {
        let Case {
            name,
            rows,
            roots,
            order,
        } = self;
        let graph = Rows::new(rows, roots).ok_or("a wrong root")?;
        let numbering = Numbering::of(alloc, &graph)?;
        assert_eq!(rt; numbering.sequence(), order, "{name}");
        for node in 0..graph.node_count() {
            let number = numbering.number_of(node).map(|number| number as usize);
            let place = order.iter().position(|&other| other == node);
            assert_eq!(rt; number, place, "{name}: {node}");
        }
        Ok(())
    }
}

#[test]
fn small_graphs_have_their_orders(rt: HostRuntime) -> Result<(), Fail> {
    let cases = [
        Case {
            name: "a single root",
            rows: &[&[]],
            roots: &[0],
            order: &[0],
        },
        Case {
            name: "a shared node",
            rows: &[&[2, NULL, 1], &[3], &[4, 3], &[], &[]],
            roots: &[0],
            order: &[0, 2, 1, 4, 3],
        },
        Case {
            name: "a cycle through the root",
            rows: &[&[1], &[2], &[0]],
            roots: &[1],
            order: &[1, 2, 0],
        },
        Case {
            name: "two roots that lead to one node",
            rows: &[&[2], &[2], &[]],
            roots: &[1, 0],
            order: &[1, 0, 2],
        },
        Case {
            name: "a root that another root reaches first, and that is a root twice",
            rows: &[&[1, 2], &[3], &[], &[]],
            roots: &[0, 2, 2],
            order: &[0, 2, 1, 3],
        },
        Case {
            name: "unreachable nodes that form a cycle",
            rows: &[&[], &[2], &[1, 0]],
            roots: &[0],
            order: &[0],
        },
        Case {
            name: "no links at all",
            rows: &[&[], &[], &[]],
            roots: &[2, 0],
            order: &[2, 0],
        },
        Case {
            name: "no roots",
            rows: &[&[0]],
            roots: &[],
            order: &[],
        },
    ];
    for case in cases {
        case.check(&rt, rt.alloc())?;
    }
    Ok(())
}

#[test]
fn many_links_to_itself_are_one_node(rt: HostRuntime) -> Result<(), Fail> {
    let loops = [0; 10_000];
    let rows = [loops.as_slice()];
    let graph = Rows::new(&rows, &[0]).ok_or("a wrong root")?;
    let numbering = Numbering::of(rt.alloc(), &graph)?;
    assert_eq!(rt; numbering.sequence(), [0].as_slice());
    Ok(())
}

#[test]
fn a_numbering_is_filled_again(rt: HostRuntime) -> Result<(), Fail> {
    let mut numbering = Numbering::new(rt.alloc());
    let large: [&[u32]; 3] = [&[1], &[2], &[0]];
    let small: [&[u32]; 2] = [&[], &[1]];
    let first = Rows::new(&large, &[1]).ok_or("a wrong root")?;
    let second = Rows::new(&small, &[1]).ok_or("a wrong root")?;
    numbering.renew(&first)?;
    assert_eq!(rt; numbering.sequence(), [1, 2, 0].as_slice());
    numbering.renew(&second)?;
    assert_eq!(rt; numbering.sequence(), [1].as_slice());
    assert_eq!(rt; numbering.number_of(0), None);
    numbering.clear();
    assert_eq!(rt; numbering.number_of(1), None);
    Ok(())
}

/// The order of the chain in which node k has one link, to `next[k]`.
fn chain_order(alloc: Global, next: &[u32], root: u32) -> Result<Vec<u32>, Fail> {
    let rows: Vec<&[u32]> = next.chunks(1).collect(alloc)?;
    let roots = [root];
    let graph = Rows::new(rows.as_slice(), &roots).ok_or("a wrong root")?;
    let numbering = Numbering::of(alloc, &graph)?;
    Ok(numbering.sequence().to_vec(alloc)?)
}

#[test]
fn long_chains_are_numbered_in_time(rt: HostRuntime) -> Result<(), Fail> {
    const COUNT: u32 = 1_000_000;
    let alloc = rt.alloc();
    let up: Vec<u32> = (0..COUNT).collect(alloc)?;
    let down: Vec<u32> = (0..COUNT).rev().collect(alloc)?;
    let after: Vec<u32> = (1..COUNT + 1).collect(alloc)?;
    let before: Vec<u32> = up.iter().map(|node| node.wrapping_sub(1)).collect(alloc)?;
    assert!(rt; chain_order(alloc, after.as_slice(), 0)? == up);
    assert!(rt; chain_order(alloc, before.as_slice(), COUNT - 1)? == down);
    Ok(())
}
