//! What a contents table lists of a kind of channels, lent from the table's body.

ghost use Rattle.std.specs.Prelude.{◌≡◌, ◌<◌, ◌↔◌, ℕ, List, IfSome, IsSome, IfOk, IsTrue, true, length};
ghost use Rattle.std.specs.Prelude.{position};
ghost use Rattle.std.specs.Str.{bytes_eq};
ghost use Rattle.std.specs.List.{list_all, list_any};
ghost use Rattle.layout_plan.specs.Body.{HasBody, IsBody};
ghost use Rattle.record_values.specs.declared.values.Value.{Value};
ghost use Rattle.layout_plan.specs.Lent.{IsNumberField};
ghost use Rattle.contents_table.specs.Fit.{IsKindLayout};
ghost use Rattle.contents_table.specs.Built.{place_in, position_in, are_distinct, AreNames, AreInOrder};
ghost use Rattle.contents_table.specs.Told.{positions_of};
ghost use Rattle.contents_table.specs.Listed.{kind_table, position_at, IsGoodKind};
ghost use Rattle.contents_table.specs.Views.{holds};

use crate::fit::KindFields;
use crate::lent::{bytes_of, next_text, number_in};
use crate::names::{Found, Names, place_in};
use layout_plan::{Plan, num_at};
use scalar_types::Order;
use std::alloc::{AllocError, Global};
use std::collections::BTreeSet;
use std::marker::Model;

/// What a table lists of a kind: the bytes of its names, and those of their positions.
#[derive(Drop)]
pub struct KindView<'a> {
    order: Order,
    frames: u64,
    count: u64,
    names: &'a [u8],
    positions: &'a [u8],
    by_name: bool,
}

impl<'a> Model for KindView<'a> {
    ghost use Rattle.std.specs.Prelude.{◌*◌};
    ghost use Rattle.contents_table.specs.Listed.{KindTable};
    ghost use Rattle.contents_table.specs.Views.{numbers_by, texts_by, AreNumbers, AreTexts};

    ghost Value = { KindTable };

    ghost view = { λ t. record {
      frames = t.frames;
      names = texts_by t.order t.count t.names.now;
      positions = numbers_by t.order (t.count * t.frames) t.positions.now;
      by_name = t.by_name;
    } };

    ghost invariant = { λ t. AreTexts t.order t.count t.names.now
        × AreNumbers t.order (t.count * t.frames) t.positions.now };
}

impl<'a> KindView<'a> {
    /// That of the fields of a kind.
    pub fn of(
        plan: &Plan,
        order: Order,
        body: &'a [u8],
        frames: u32,
        fields: KindFields,
    ) -> KindView<'a>
        requires body { HasBody order plan.now body.now }
        requires frames { IsNumberField plan.now frames }
        requires fields { IsKindLayout plan.now frames fields }
        ensures { (values : List Value) (tail : List ℕ) → IsBody order plan.now values tail body.now
            → result ≡ kind_table values frames fields }
    {
        KindView {
            order,
            frames: num_at(plan, order, body, frames),
            count: num_at(plan, order, body, fields.count),
            names: bytes_of(plan, order, body, fields.names),
            positions: bytes_of(plan, order, body, fields.positions),
            by_name: fields.by_name,
        }
    }

    /// The number of the first listed name that is equal.
    pub fn number(&self, name: &[u8]) -> Option<u64>
        ensures { result ≡ position (bytes_eq name.now) self.now.names }
    {
        let mut rest = self.names;
        for k in 0..self.count {
            let (listed, others) = next_text(self.order, rest);
            if name == listed {
                return Some(k);
            }
            rest = others;
        }
        None
    }

    /// The position of the name of number k in a frame.
    pub fn position(&self, k: u64, frame: u64) -> u64
        requires name { k < length self.now.names }
        requires frame { frame < self.now.frames }
        ensures { result ≡ position_at self.now frame k }
    {
        let place = if self.by_name {
            k * self.frames + frame
        } else {
            frame * self.count + k
        };
        number_in(self.order, self.positions, place as usize)
    }

    /// Whether it is good: the names are distinct, each of the built names is listed, and each position is
    /// the place of that name's channel in that frame, or 0 exactly where there is none.
    pub fn is_good(&self, alloc: Global, built: &Names) -> Result<bool, AllocError>
        requires { (frames : ℕ) × AreNames frames built.now }
        ensures { IfOk result (λ good. IsTrue good ↔ IsGoodKind built.now self.now) }
    {
        let Some(names) = self.distinct_names(alloc)? else {
            return Ok(false);
        };
        Ok(has_all(&names, built) && self.has_positions(built))
    }

    /// The names in order. None exactly where one is listed twice.
    fn distinct_names(&self, alloc: Global) -> Result<Option<BTreeSet<&'a [u8]>>, AllocError>
        ensures distinct { IfOk result (λ names. IsSome names ↔ (are_distinct self.now.names ≡ true)) }
        ensures names { IfOk result (λ names. IfSome names (λ names. (name : List ℕ)
            → holds names name ≡ list_any (bytes_eq name) self.now.names)) }
    {
        let mut met = BTreeSet::new(alloc);
        let mut rest = self.names;
        for _k in 0..self.count {
            let (name, others) = next_text(self.order, rest);
            if !met.insert(name)? {
                return Ok(None);
            }
            rest = others;
        }
        Ok(Some(met))
    }

    /// Whether its positions are the places of the built channels.
    fn has_positions(&self, built: &Names) -> bool
        requires { (frames : ℕ) × AreNames frames built.now }
        ensures { IsTrue result ↔ (self.now.positions
            ≡ positions_of self.now.by_name self.now.frames built.now self.now.names) }
    {
        let mut rest = self.names;
        for k in 0..self.count {
            let (name, others) = next_text(self.order, rest);
            if !self.has_places(k, found_of(built, name)) {
                return false;
            }
            rest = others;
        }
        true
    }

    /// Whether the positions of the name of number k are the places of these channels.
    fn has_places(&self, k: u64, found: &[Found]) -> bool
        requires name { k < length self.now.names }
        requires found { (frames : ℕ) × AreInOrder frames found.now }
        ensures { IsTrue result ↔ ((frame : ℕ) → frame < self.now.frames
            → position_at self.now frame k ≡ place_in frame found.now) }
    {
        for frame in 0..self.frames {
            if self.position(k, frame) != place_in(frame, found) {
                return false;
            }
        }
        true
    }
}

/// Whether each of the built names is among these.
fn has_all(names: &BTreeSet<&[u8]>, built: &Names) -> bool
    ensures { result ≡ list_all (λ listed. holds names.now listed.name) built.now }
{
    for j in 0..built.len() {
        if !names.contains(built.listed(j).name.bytes()) {
            return false;
        }
    }
    true
}

/// The channels of a name, of which there may be none.
fn found_of<'a>(built: &'a Names, name: &[u8]) -> &'a [Found]
    requires { (frames : ℕ) × AreNames frames built.now }
    ensures places { (frame : ℕ) → place_in frame result.now ≡ position_in built.now name.now frame }
    ensures ordered { (frames : ℕ) → AreNames frames built.now → AreInOrder frames result.now }
{
    match built.number(name) {
        Some(j) => built.listed(j).found.as_slice(),
        None => &[],
    }
}
