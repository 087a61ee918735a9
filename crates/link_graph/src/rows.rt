//! The targets of a frame's links, and its roots, put into lists.

ghost use Rattle.std.specs.Prelude.{◌≡◌, ◌≤◌, ◌++◌, ◌∷◌, [], ℕ, None, Some, Err, length, map};
ghost use Rattle.std.specs.Prelude.{position, if◌then◌else◌, ◌==◌, ◌&&◌, not, is_none, IfOk, OnOk};
ghost use Rattle.link_graph.specs.Collected.{target_of, same_root};
ghost use Rattle.link_graph.specs.Graph.{is_loose, roots_from};
ghost use Rattle.link_graph.specs.Table.{AreEnds, rows_from, loose_row};

use crate::closing::CloseFault;
use crate::nodes::{Root, is_same};
use crate::segment::Segment;
use std::alloc::AllocError;
use type_text::Link;

/// Puts the targets of all links in place of those in a list, up to the first link that is loose. The links
/// are rows that end at these places, one for each record.
pub fn put_targets(
    segment: &Segment,
    links: &[Link],
    ends: &[usize],
    targets: &mut Vec<Option<u32>>,
) -> Result<(), CloseFault>
    requires count { length ends.now ≡ length segment.now.nodes }
    requires placed { AreEnds 0 ends.now (length links.now) }
    ensures loose { (node link : ℕ) → result ≡ Err (CloseFault.LooseLink node link)
        → loose_row segment.now.nodes 0 (rows_from 0 ends.now links.now) ≡ Some (node, link) }
    ensures linked { OnOk result (loose_row segment.now.nodes 0 (rows_from 0 ends.now links.now) ≡ None) }
    ensures put { OnOk result (targets.new.items ≡ map (target_of segment.now.nodes) links.now) }
    ensures few { length segment.now.nodes ≤ 4294967295 }
{
    targets.clear();
    let mut near = 0;
    let mut from = 0;
    for k in 0..segment.len() {
        let to = ends[k as usize];
        if let Some(link) = put_row(segment, &links[from..to], targets, &mut near)? {
            return Err(CloseFault::LooseLink { node: k, link });
        }
        from = to;
    }
    Ok(())
}

/// Puts the targets of some links behind the others, up to the first that is loose. The target found last is
/// `near`.
fn put_row(
    segment: &Segment,
    links: &[Link],
    targets: &mut Vec<Option<u32>>,
    near: &mut u32,
) -> Result<Option<u64>, AllocError>
    ensures loose { IfOk result (λ found. found ≡ position (is_loose segment.now.nodes) links.now) }
    ensures put { IfOk result (λ found. found ≡ None
        → targets.new.items ≡ targets.old.items ++ map (target_of segment.now.nodes) links.now) }
{
    for k in 0..links.len() {
        let link = links[k];
        let target = segment.target_near(link, near);
        if is_loose(link, target) {
            return Ok(Some(k as u64));
        }
        targets.push(target)?;
    }
    Ok(None)
}

/// Whether a link that has this target is not null and has none.
fn is_loose(link: Link, target: Option<u32>) -> bool
    ensures { result ≡ (not (link.class == 0) && is_none target) }
{
    link.class != 0 && target.is_none()
}

/// Puts the numbers of the records that are such roots behind the others.
pub fn put_roots(segment: &Segment, root: Root, roots: &mut Vec<u32>) -> Result<(), AllocError>
    ensures { OnOk result (roots.new.items ≡ roots.old.items ++ roots_from root 0 segment.now.nodes) }
{
    for k in 0..segment.len() {
        let such = is_same(segment.node(k).root, root);
        put_root(roots, k, such)?;
    }
    Ok(())
}

/// Puts a number at the end where it is such.
fn put_root(roots: &mut Vec<u32>, k: u32, such: bool) -> Result<(), AllocError>
    ensures { OnOk result (roots.new.items ≡ roots.old.items ++ (if such then k ∷ [] else [])) }
{
    if such {
        roots.push(k)?;
    }
    Ok(())
}
