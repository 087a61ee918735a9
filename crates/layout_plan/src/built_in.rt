//! The plans of the two structures that a dictionary is made of, FrSH and FrSE. No entry describes these.
ghost use Rattle.std.specs.Prelude.{◌≡◌, [], ◌∷◌, IfOk};
ghost use Rattle.layout_plan.specs.BuiltIn.{single, structure_fields, element_fields};

use crate::plan::planned;
use crate::{CountList, Field, Form, Plan};
use scalar_types::Width;
use std::alloc::{AllocError, Global};
use type_text::ItemList;

/// The plan of FrSH (class 1): the name of a structure, its class, a comment.
pub fn structure_plan(alloc: Global) -> Result<Plan, AllocError>
    ensures { IfOk result (λ plan. plan ≡ structure_fields) }
{
    plan_of_three(alloc, Form::Text, Form::Number(Width::Two), Form::Text)
}

/// The plan of FrSE (class 2): the name of an element, its type's text, a comment.
pub fn element_plan(alloc: Global) -> Result<Plan, AllocError>
    ensures { IfOk result (λ plan. plan ≡ element_fields) }
{
    plan_of_three(alloc, Form::Text, Form::Text, Form::Text)
}

/// The plan of three fields without dimension.
fn plan_of_three(alloc: Global, a: Form, b: Form, c: Form) -> Result<Plan, AllocError>
    ensures { IfOk result (λ plan. plan ≡ single a ∷ single b ∷ single c ∷ []) }
{
    let mut fields = ItemList::new(alloc);
    fields.push(single(alloc, a))?;
    fields.push(single(alloc, b))?;
    fields.push(single(alloc, c))?;
    planned(alloc, fields)
}

/// A field without dimension.
fn single(alloc: Global, form: Form) -> Field
    ensures { result ≡ single form }
{
    Field {
        form,
        counts: CountList::new(alloc),
        is_sum: false,
    }
}
