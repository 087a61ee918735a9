//! A contents table as its body lists it.

ghost use Rattle.std.specs.Prelude.{◌≡◌, ◌<◌, ◌↔◌, ℕ, List, IfSome, IsSome, IfOk, IsTrue, slice_index};
ghost use Rattle.std.specs.Option.{option_copied};
ghost use Rattle.layout_plan.specs.Body.{HasBody, IsBody};
ghost use Rattle.record_values.specs.declared.values.Value.{Value};
ghost use Rattle.contents_table.specs.Fit.{IsTableLayout};
ghost use Rattle.contents_table.specs.Listed.{table_of, table_of_kind, find_position, IsGood, IsGoodOf};

use crate::builder::TableBuilder;
use crate::fit::TableLayout;
use crate::kind::Kind;
use crate::kind_view::KindView;
use crate::lent::{bytes_of, number_in};
use layout_plan::{Plan, measure, num_at};
use scalar_types::Order;
use std::alloc::{AllocError, Global};
use std::marker::Model;

/// A contents table, lent from its body. Contracts see what it lists.
#[derive(Drop)]
pub struct TableView<'a> {
    order: Order,
    frames: u64,
    heads: &'a [u8],
    adc: KindView<'a>,
    proc: KindView<'a>,
    sim: KindView<'a>,
    ser: Option<KindView<'a>>,
}

impl<'a> Model for TableView<'a> {
    ghost use Rattle.std.specs.Prelude.{◌≡◌, IfSome};
    ghost use Rattle.contents_table.specs.Listed.{Table};
    ghost use Rattle.contents_table.specs.Views.{numbers_by, AreNumbers};

    ghost Value = { Table };

    ghost view = { λ t. record {
      frames = t.frames;
      heads = numbers_by t.order t.frames t.heads.now;
      adc = t.adc;
      proc = t.proc;
      sim = t.sim;
      ser = t.ser;
    } };

    ghost invariant = { λ t. AreNumbers t.order t.frames t.heads.now × (t.adc.frames ≡ t.frames)
        × (t.proc.frames ≡ t.frames) × (t.sim.frames ≡ t.frames) × IfSome t.ser (λ k. k.frames ≡ t.frames) };
}

impl<'a> TableView<'a> {
    /// The table that a body spells by a layout that is fit, and its plan. None exactly where the body does
    /// not spell the layout. Takes no memory.
    pub fn read(
        layout: &TableLayout,
        plan: &Plan,
        order: Order,
        body: &'a [u8],
    ) -> Option<TableView<'a>>
        requires { IsTableLayout plan.now layout.now }
        ensures read { IsSome result ↔ HasBody order plan.now body.now }
        ensures table { IfSome result (λ table. (values : List Value) (tail : List ℕ)
            → IsBody order plan.now values tail body.now → table ≡ table_of layout.now values) }
    {
        if measure(plan, order, body).is_err() {
            return None;
        }
        Some(TableView {
            order,
            frames: num_at(plan, order, body, layout.frames),
            heads: bytes_of(plan, order, body, layout.heads),
            adc: KindView::of(plan, order, body, layout.frames, layout.adc),
            proc: KindView::of(plan, order, body, layout.frames, layout.proc),
            sim: KindView::of(plan, order, body, layout.frames, layout.sim),
            ser: match layout.ser {
                Some(fields) => Some(KindView::of(plan, order, body, layout.frames, fields)),
                None => None,
            },
        })
    }

    /// The number of frames that it lists. Takes no memory.
    pub fn frames(&self) -> u64
        ensures { result ≡ self.now.frames }
    {
        self.frames
    }

    /// The place of a frame's FrameH, in bytes from the beginning of the file. The frame is below `frames`.
    /// Takes no memory.
    pub fn head(&self, frame: u64) -> u64
        requires { frame < self.now.frames }
        ensures { result ≡ slice_index self.now.heads frame }
    {
        number_in(self.order, self.heads, frame as usize)
    }

    /// The position of a channel in a frame, by the first listed name that is equal, or 0 where the frame has
    /// none. None exactly where the name is not listed. The frame is below `frames`. Takes no memory.
    pub fn find(&self, kind: Kind, name: &[u8], frame: u64) -> Option<u64>
        requires { frame < self.now.frames }
        ensures { result ≡ find_position self.now kind name.now frame }
    {
        let view = self.kind(kind)?;
        let k = view.number(name)?;
        Some(view.position(k, frame))
    }

    /// Whether it is good: it lists the places of the built frames, the names of each of its kinds are
    /// distinct, each name that a channel has is listed, and each position is the place of that name's
    /// channel in that frame, or 0 exactly where there is none.
    pub fn judge(&self, alloc: Global, built: &TableBuilder) -> Result<bool, AllocError>
        ensures { IfOk result (λ good. IsTrue good ↔ IsGood self.now built.now) }
    {
        if !self.has_heads(built.heads.as_slice()) {
            return Ok(false);
        }
        for kind in [Kind::Adc, Kind::Proc, Kind::Sim, Kind::Ser] {
            if !self.is_good_of(alloc, built, kind)? {
                return Ok(false);
            }
        }
        Ok(true)
    }

    /// Whether the places of the frames are these.
    fn has_heads(&self, heads: &[u64]) -> bool
        ensures { IsTrue result ↔ (self.now.heads ≡ heads.now) }
    {
        if self.frames != heads.len() as u64 {
            return false;
        }
        for (i, head) in heads.iter().enumerate() {
            if number_in(self.order, self.heads, i) != *head {
                return false;
            }
        }
        true
    }

    /// Whether what it lists of a kind is good.
    fn is_good_of(
        &self,
        alloc: Global,
        built: &TableBuilder,
        kind: Kind,
    ) -> Result<bool, AllocError>
        ensures { IfOk result (λ good. IsTrue good ↔ IsGoodOf self.now built.now kind) }
    {
        match self.kind(kind) {
            Some(view) => view.is_good(alloc, built.names(kind)),
            None => Ok(true),
        }
    }

    fn kind(&self, kind: Kind) -> Option<&KindView<'a>>
        ensures kind { option_copied result ≡ table_of_kind self.now kind }
        ensures frames { IfSome result (λ view. view.now.frames ≡ self.now.frames) }
    {
        match kind {
            Kind::Adc => Some(&self.adc),
            Kind::Proc => Some(&self.proc),
            Kind::Sim => Some(&self.sim),
            Kind::Ser => self.ser.as_ref(),
        }
    }
}
