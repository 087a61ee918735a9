//! The plans of a dictionary's classes.
ghost use Rattle.std.specs.Prelude.{◌≡◌, ℕ, ◌≤◌, ◌<◌, [], None, slice_index_or, nat_eq, length, IfSome, OnOk, OnErr};
ghost use Rattle.std.specs.Option.{option_copied};
ghost use Rattle.indexmap.specs.IndexMap.{insert_entry};
ghost use Rattle.layout_plan.specs.Layout.{layout_of};
ghost use Rattle.layout_plan.specs.Plans.{plan_of, place_in};

use crate::{Plan, compile};
use dictionary::Entry;
use std::alloc::{AllocError, Global};
use std::marker::Model;

/// Plans by class. Contracts see the classes that have one with their fields, in the order in which they were learnt
/// first.
#[derive(Drop)]
pub struct Plans {
    learnt: Vec<(u8, Plan)>,
    /// Of each class, up to the highest that has a plan: the place of its plan among these, from 1, or 0 where it has
    /// none.
    places: Vec<usize>,
}

impl Model for Plans {
    ghost use Rattle.std.specs.Prelude.{List, ℕ};
    ghost use Rattle.layout_plan.specs.declared.fields.Field.{Field};
    ghost use Rattle.layout_plan.specs.Plans.{ArePlaces};

    ghost Value = { List (ℕ × List Field) };

    ghost view = { λ plans. plans.learnt.items };

    ghost invariant = { λ plans. ArePlaces plans.learnt.items plans.places.items };
}

impl Plans {
    /// No plan. It takes no memory yet.
    pub fn new(alloc: Global) -> Self
        ensures { result ≡ [] }
    {
        Plans {
            learnt: Vec::new(alloc),
            places: Vec::new(alloc),
        }
    }

    /// Keeps the plan of an entry of class 3 to 255 with at most 4,096 elements, in place of an earlier one of its
    /// class. Changes nothing where the layout is not readable. Where memory is out, the plans stay as they were.
    pub fn learn(&mut self, entry: &Entry) -> Result<(), AllocError>
        requires low { 3 ≤ entry.now.class }
        requires high { entry.now.class ≤ 255 }
        requires short { length entry.now.elements ≤ 4096 }
        ensures read { IfSome (layout_of entry.now.elements)
            (λ fields. OnOk result (self.new ≡ insert_entry nat_eq self.old entry.now.class fields)) }
        ensures unread { layout_of entry.now.elements ≡ None → self.new ≡ self.old }
        ensures err { OnErr result (self.new ≡ self.old) }
    {
        let alloc = *self.learnt.allocator();
        let Some(plan) = compile(alloc, entry)? else {
            return Ok(());
        };
        self.keep(entry.class as u8, plan)
    }

    /// The plan of a class. Takes no memory.
    pub fn plan(&self, class: u8) -> Option<&Plan>
        ensures { option_copied result ≡ plan_of self.now class }
    {
        let place = self.place(class);
        if place == 0 {
            return None;
        }
        Some(&self.learnt[place - 1].1)
    }

    /// Keeps a plan in place of an earlier one of its class.
    fn keep(&mut self, class: u8, plan: Plan) -> Result<(), AllocError>
        ensures ok { OnOk result (self.new ≡ insert_entry nat_eq self.old class plan) }
        ensures err { OnErr result (self.new ≡ self.old) }
    {
        let place = self.place(class);
        if place > 0 {
            self.learnt[place - 1].1 = plan;
            return Ok(());
        }
        self.put(class, plan)
    }

    /// Keeps the first plan of a class.
    fn put(&mut self, class: u8, plan: Plan) -> Result<(), AllocError>
        requires { place_in self.old class ≡ 0 }
        ensures ok { OnOk result (self.new ≡ insert_entry nat_eq self.old class plan) }
        ensures err { OnErr result (self.new ≡ self.old) }
    {
        let at = class as usize;
        reach(&mut self.places, at)?;
        self.learnt.push((class, plan))?;
        self.places[at] = self.learnt.len();
        Ok(())
    }

    /// The place of the plan of a class, from 1, or 0 where it has none.
    fn place(&self, class: u8) -> usize
        ensures { result ≡ place_in self.now class }
    {
        match self.places.get(class as usize) {
            Some(place) => *place,
            None => 0,
        }
    }
}

/// Makes the list so long that it has this index, with 0 for each item that is new.
fn reach(places: &mut Vec<usize>, index: usize) -> Result<(), AllocError>
    requires { index ≤ 255 }
    ensures same { (i : ℕ) → slice_index_or places.new.items i 0 ≡ slice_index_or places.old.items i 0 }
    ensures ok { OnOk result (index < length places.new.items) }
{
    if index < places.len() {
        return Ok(());
    }
    places.resize(index + 1, 0)
}
