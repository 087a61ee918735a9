//! The plan of an entry: its layout, compiled once.
ghost use Rattle.std.specs.Prelude.{◌≡◌, ◌≤◌, ◌++◌, List, [], ◌∷◌, length, if◌then◌else◌, IfOk, OnOk};
ghost use Rattle.layout_plan.specs.Layout.{layout_of, form_of, counted_by, named_count, is_check_sum, count_of};
ghost use Rattle.layout_plan.specs.Layout.{counts_of, field_of, IsLayout};
ghost use Rattle.std.specs.List.{list_all};
ghost use Rattle.layout_plan.specs.Links.{is_link};
ghost use Rattle.layout_plan.specs.Steps.{is_plain};
ghost use Rattle.layout_plan.specs.Marks.{numbers_where, mark_of};
ghost use Rattle.layout_plan.specs.Steps.{steps_of, AreRepeats};
ghost use Rattle.layout_plan.specs.Names.{count_at, HoldsNames};
ghost use Rattle.dictionary.specs.declared.entries.Element.{Element};

use crate::links::{is_link, is_plain};
use crate::marks::{Mark, marks_of};
use crate::steps::{Step, repeats_of, steps_of};
use crate::{Count, CountList, Field, Form};
use dictionary::{Element, Entry};
use indexmap::IndexMap;
use scalar_types::Width;
use std::alloc::{AllocError, Global};
use std::marker::Model;
use type_text::{Base, Dim, ElementType, ItemList, Name};

/// The count by the first field of each name, where a dimension may name it.
type Names = IndexMap<Vec<u8>, Option<Count>>;

/// The name of the element that holds the check sum of a structure.
const CHECK_SUM: &[u8] = b"chkSum";

/// A readable layout with at most 4,096 fields. Contracts see it as the list of its fields.
#[derive(Drop)]
pub struct Plan {
    fields: ItemList<Field>,
    /// The steps of a walk over the varied fields.
    steps: ItemList<Step>,
    /// Of each step, whether its one counter is that of the step before it too.
    repeats: ItemList<bool>,
    /// The mark of each field, and of the place after the last.
    marks: ItemList<Mark>,
    /// The numbers of the links.
    links: ItemList<u32>,
    /// Whether none of the links has a dimension.
    links_are_plain: bool,
}

impl Model for Plan {
    ghost use Rattle.std.specs.Prelude.{List};
    ghost use Rattle.layout_plan.specs.declared.fields.Field.{Field};
    ghost use Rattle.layout_plan.specs.Steps.{ArePlanned};

    ghost Value = { List Field };

    ghost view = { λ plan. plan.fields };

    ghost invariant = { λ plan. ArePlanned plan.fields plan.steps plan.repeats plan.marks plan.links
        plan.links_are_plain };
}

impl Plan {
    /// The fields in the order of the body. Takes no memory.
    pub fn fields(&self) -> &[Field]
        ensures fields { result.now ≡ self.now }
        ensures layout { IsLayout self.now }
    {
        self.fields.as_slice()
    }

    /// The steps of a walk over the varied fields, in order.
    pub(crate) fn steps(&self) -> &[Step]
        ensures steps { result.now ≡ steps_of self.now }
        ensures layout { IsLayout self.now }
    {
        self.steps.as_slice()
    }

    /// Of each step, whether its one counter is that of the step before it too.
    pub(crate) fn repeats(&self) -> &[bool]
        ensures { AreRepeats (steps_of self.now) result.now }
    {
        self.repeats.as_slice()
    }

    /// The mark of a field, or of the place after the last.
    pub(crate) fn mark(&self, k: usize) -> Mark
        requires { k ≤ length self.now }
        ensures mark { result ≡ mark_of self.now k }
        ensures layout { IsLayout self.now }
    {
        self.marks.as_slice()[k]
    }

    /// The numbers of the links, in order.
    pub(crate) fn links(&self) -> &[u32]
        ensures { result.now ≡ numbers_where is_link 0 self.now }
    {
        self.links.as_slice()
    }

    /// Whether none of the links has a dimension, so that each is one link.
    pub(crate) fn links_are_plain(&self) -> bool
        ensures { result ≡ list_all is_plain self.now }
    {
        self.links_are_plain
    }
}

/// The plan of an entry with at most 4,096 elements. None exactly where its layout is not readable.
///
/// A layout is readable where each element has a type, and each named dimension is the name of an earlier element that
/// is a whole number without dimension. A name means the first element of that name.
pub fn compile(alloc: Global, entry: &Entry) -> Result<Option<Plan>, AllocError>
    requires { length entry.now.elements ≤ 4096 }
    ensures { IfOk result (λ plan. plan ≡ layout_of entry.now.elements) }
{
    let mut names = Names::new(alloc);
    let mut fields = ItemList::new(alloc);
    let elements = entry.elements.as_slice();
    for (i, element) in elements.iter().enumerate() {
        let last = i + 1 == elements.len();
        let Some(field) = field_of(alloc, &names, last, element)? else {
            return Ok(None);
        };
        fields.push(field)?;
        note_name(alloc, &mut names, i as u32, element)?;
    }
    Ok(Some(planned(alloc, fields)?))
}

/// The plan of these fields.
pub fn planned(alloc: Global, fields: ItemList<Field>) -> Result<Plan, AllocError>
    requires { IsLayout fields }
    ensures { IfOk result (λ plan. plan ≡ fields) }
{
    let marks = marks_of(alloc, fields.as_slice())?;
    let steps = steps_of(alloc, fields.as_slice(), marks.as_slice())?;
    let repeats = repeats_of(alloc, steps.as_slice())?;
    let links = link_numbers(alloc, fields.as_slice())?;
    let links_are_plain = are_plain(fields.as_slice());
    Ok(Plan {
        fields,
        steps,
        repeats,
        marks,
        links,
        links_are_plain,
    })
}

/// Whether none of the fields is a list of links.
fn are_plain(fields: &[Field]) -> bool
    ensures { result ≡ list_all is_plain fields.now }
{
    fields.iter().all(|field| is_plain(field))
}

/// The numbers of the fields that are links, in order.
fn link_numbers(alloc: Global, fields: &[Field]) -> Result<ItemList<u32>, AllocError>
    requires { length fields.now ≤ 4096 }
    ensures { IfOk result (λ links. links ≡ numbers_where is_link 0 fields.now) }
{
    let mut links = ItemList::new(alloc);
    for (i, field) in fields.iter().enumerate() {
        note_number(&mut links, i as u32, is_link(field))?;
    }
    Ok(links)
}

/// Puts the number of a field at the end where it is such.
fn note_number(numbers: &mut ItemList<u32>, i: u32, such: bool) -> Result<(), AllocError>
    ensures { OnOk result (numbers.new ≡ numbers.old ++ (if such then i ∷ [] else [])) }
{
    if such {
        numbers.push(i)?;
    }
    Ok(())
}

/// Notes the name of the element of this number. An earlier element of the same name stays.
fn note_name(alloc: Global, names: &mut Names, i: u32, element: &Element) -> Result<(), AllocError>
    ensures { OnOk result
        ((earlier : List Element) → length earlier ≡ i → HoldsNames names.old earlier
        → HoldsNames names.new (earlier ++ element.now ∷ [])) }
{
    if names.get(element.name.bytes()).is_some() {
        return Ok(());
    }
    let name = Vec::from_slice(alloc, element.name.bytes())?;
    names.insert(name, named_count(i, element))?;
    Ok(())
}

/// The count of a later dimension that names element i, where one may.
fn named_count(i: u32, element: &Element) -> Option<Count>
    ensures { result ≡ named_count (i, element.now) }
{
    let ty = element.ty.as_ref()?;
    if !ty.dims.is_empty() {
        return None;
    }
    counted_by(i, &ty.base)
}

/// The count by field k, where its base is a whole number.
fn counted_by(k: u32, base: &Base) -> Option<Count>
    ensures { result ≡ counted_by k base.now }
{
    match base {
        Base::Int1U | Base::Int2U | Base::Int4U | Base::Int8U => Some(Count::Of(k)),
        Base::Int1S => Some(Count::OfSigned(k, Width::One)),
        Base::Int2S => Some(Count::OfSigned(k, Width::Two)),
        Base::Int4S => Some(Count::OfSigned(k, Width::Four)),
        Base::Int8S => Some(Count::OfSigned(k, Width::Eight)),
        _ => None,
    }
}

/// The field of an element, the last one or another. None where it makes the layout unreadable.
fn field_of(
    alloc: Global,
    names: &Names,
    last: bool,
    element: &Element,
) -> Result<Option<Field>, AllocError>
    ensures { IfOk result (λ field. field ≡ field_of (count_at names.now) last element.now) }
{
    let Some(ty) = &element.ty else {
        return Ok(None);
    };
    let Some(counts) = counts_of(alloc, names, ty.dims.as_slice())? else {
        return Ok(None);
    };
    Ok(Some(Field {
        form: form_of(&ty.base),
        counts,
        is_sum: last && is_check_sum(element),
    }))
}

/// Whether it is an element `chkSum INT_4U`.
fn is_check_sum(element: &Element) -> bool
    ensures { result ≡ is_check_sum element.now }
{
    let Some(ty) = &element.ty else {
        return false;
    };
    element.name.bytes() == CHECK_SUM && matches!(ty.base, Base::Int4U) && ty.dims.is_empty()
}

/// The counts of dimensions, or None where a name counts by no field.
fn counts_of(alloc: Global, names: &Names, dims: &[Dim]) -> Result<Option<CountList>, AllocError>
    ensures { IfOk result (λ counts. counts ≡ counts_of (count_at names.now) dims.now) }
{
    let mut counts = CountList::new(alloc);
    for dim in dims {
        let Some(count) = count_of(names, dim) else {
            return Ok(None);
        };
        counts.push(count)?;
    }
    Ok(Some(counts))
}

/// The count of a dimension, or None where its name counts by no field.
fn count_of(names: &Names, dim: &Dim) -> Option<Count>
    ensures { result ≡ count_of (count_at names.now) dim.now }
{
    match dim {
        Dim::Numeral(n) => Some(Count::Fixed(*n)),
        Dim::Named(name) => count_at(names, name),
    }
}

/// The count of a dimension with this name.
fn count_at(names: &Names, name: &Name) -> Option<Count>
    ensures { result ≡ count_at names.now name.now }
{
    names.get(name.bytes()).copied().flatten()
}

/// What one item of a base is.
fn form_of(base: &Base) -> Form
    ensures { result ≡ form_of base.now }
{
    match base {
        Base::Int1S | Base::Int1U | Base::Char | Base::CharU => Form::Number(Width::One),
        Base::Int2S | Base::Int2U => Form::Number(Width::Two),
        Base::Int4S | Base::Int4U | Base::Real4 => Form::Number(Width::Four),
        Base::Int8S | Base::Int8U | Base::Real8 => Form::Number(Width::Eight),
        Base::Complex8 => Form::Pair(Width::Four),
        Base::Complex16 => Form::Pair(Width::Eight),
        Base::Str => Form::Text,
        Base::Ptr { .. } => Form::Link,
    }
}
