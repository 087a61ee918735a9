//! The layouts that are fit for a contents table (LIGO-T970130 v8, FrTOC).

ghost use Rattle.std.specs.Prelude.{◌≡◌, ◌≤◌, ◌↔◌, Bool, length, map, Some, IfSome, IsSome, IsTrue, is_some};
ghost use Rattle.std.specs.Prelude.{if◌then◌else◌};
ghost use Rattle.type_text.specs.declared.types.Base.{Base};
ghost use Rattle.layout_plan.specs.Layout.{layout_of};
ghost use Rattle.contents_table.specs.Fit.{is_fit, has_table, table_layout, fields_of, IsTableLayout};
ghost use Rattle.contents_table.specs.Fit.{lists, lacks, kind_fields, serial_fields, positions_named};
ghost use Rattle.contents_table.specs.Fit.{count_named, list_named, PassesOnly};

use crate::kind::Kind;
use dictionary::{Element, Entry, first_named, has_type};
use layout_plan::Plan;
use type_text::Base;

const FRAMES: &[u8] = b"nFrame";

const HEADS: &[u8] = b"positionH";

/// The fields of a kind, by their numbers: how many names there are, the names, and their positions.
#[derive(Clone, Copy)]
pub struct KindFields {
    pub(crate) count: u32,
    pub(crate) names: u32,
    pub(crate) positions: u32,
    /// Whether the positions of one name stand together, and not those of one frame.
    pub(crate) by_name: bool,
}

/// The fields of a contents table, by their numbers in its layout.
#[derive(Clone, Copy)]
pub struct TableLayout {
    pub(crate) frames: u32,
    pub(crate) heads: u32,
    pub(crate) adc: KindFields,
    pub(crate) proc: KindFields,
    pub(crate) sim: KindFields,
    pub(crate) ser: Option<KindFields>,
}

impl TableLayout {
    /// The layout of an entry, whose plan this is. None exactly where it is not fit. Takes no memory.
    ///
    /// It is fit where it has `nFrame` (INT_4U or INT_8U), `positionH` (INT_8U\[nFrame\]), and for each kind
    /// of channels a count, the names and their positions in either order of the two dimensions; of serial
    /// data it may have none of the three.
    pub fn of(entry: &Entry, plan: &Plan) -> Option<TableLayout>
        requires { layout_of entry.now.elements ≡ Some plan.now }
        ensures fit { IsSome result ↔ IsTrue (is_fit entry.now) }
        ensures fields { IfSome result (λ layout. layout ≡ table_layout entry.now.elements) }
        ensures sound { IfSome result (IsTableLayout plan.now) }
    {
        // The plan shows that there are at most 4,096 elements, so that their numbers fit.
        let _fields = plan.fields();
        table_fields(entry.elements.as_slice())
    }

    /// Whether it lists a kind. Takes no memory.
    pub fn lists(&self, kind: Kind) -> bool
        ensures { result ≡ is_some (fields_of self.now kind) }
    {
        self.fields_of(kind).is_some()
    }

    /// The fields of a kind.
    pub(crate) fn fields_of(&self, kind: Kind) -> Option<KindFields>
        ensures { result ≡ fields_of self.now kind }
    {
        match kind {
            Kind::Adc => Some(self.adc),
            Kind::Proc => Some(self.proc),
            Kind::Sim => Some(self.sim),
            Kind::Ser => self.ser,
        }
    }
}

/// All fields of a table, where the layout has them.
fn table_fields(elements: &[Element]) -> Option<TableLayout>
    requires { length elements.now ≤ 4096 }
    ensures { result ≡ (if has_table elements.now then Some (table_layout elements.now) else None) }
{
    Some(TableLayout {
        frames: count_named(elements, FRAMES)?,
        heads: list_named(elements, HEADS, &Base::Int8U, &[FRAMES])?,
        adc: kind_fields(elements, Kind::Adc)?,
        proc: kind_fields(elements, Kind::Proc)?,
        sim: kind_fields(elements, Kind::Sim)?,
        ser: serial_fields(elements)?,
    })
}

/// The fields of serial data, where the layout has them; None where it has some of them, or others of these
/// names.
fn serial_fields(elements: &[Element]) -> Option<Option<KindFields>>
    requires { length elements.now ≤ 4096 }
    ensures { result ≡ serial_fields elements.now }
{
    if lacks(elements, Kind::Ser) {
        return Some(None);
    }
    Some(Some(kind_fields(elements, Kind::Ser)?))
}

/// Whether there is no field of a kind.
fn lacks(elements: &[Element], kind: Kind) -> bool
    ensures { result ≡ lacks elements.now kind }
{
    first_named(elements, kind.count_field()).is_none()
        && first_named(elements, kind.names_field()).is_none()
        && first_named(elements, kind.positions_field()).is_none()
}

/// The fields of a kind, where the layout lists it.
fn kind_fields(elements: &[Element], kind: Kind) -> Option<KindFields>
    requires { length elements.now ≤ 4096 }
    ensures { result ≡ (if lists elements.now kind then Some (kind_fields elements.now kind) else None) }
{
    let counter = kind.count_field();
    let count = count_named(elements, counter)?;
    let names = list_named(elements, kind.names_field(), &Base::Str, &[counter])?;
    let (positions, by_name) = positions_named(elements, kind)?;
    Some(KindFields {
        count,
        names,
        positions,
        by_name,
    })
}

/// The positions of a kind, and whether those of one name stand together.
fn positions_named(elements: &[Element], kind: Kind) -> Option<(u32, bool)>
    requires { length elements.now ≤ 4096 }
    ensures { result ≡ positions_named elements.now kind }
{
    let name = kind.positions_field();
    let counter = kind.count_field();
    if let Some(positions) = list_named(elements, name, &Base::Int8U, &[counter, FRAMES]) {
        return Some((positions, true));
    }
    let positions = list_named(elements, name, &Base::Int8U, &[FRAMES, counter])?;
    Some((positions, false))
}

/// The first element of a name, where it is a whole number of 4 or 8 bytes without dimension.
fn count_named(elements: &[Element], name: &[u8]) -> Option<u32>
    requires { length elements.now ≤ 4096 }
    ensures { result ≡ count_named elements.now name.now }
{
    let (i, element) = first_named(elements, name)?;
    if has_type(element, &Base::Int4U, &[]) || has_type(element, &Base::Int8U, &[]) {
        Some(i as u32)
    } else {
        None
    }
}

/// The first element of a name, where it has this base and these dimensions.
fn list_named(elements: &[Element], name: &[u8], base: &Base, dims: &[&[u8]]) -> Option<u32>
    requires { length elements.now ≤ 4096 }
    ensures { (passes : Base → Bool) → PassesOnly passes base.now
        → result ≡ list_named elements.now name.now passes (map (λ dim. dim.now) dims.now) }
{
    let (i, element) = first_named(elements, name)?;
    if has_type(element, base, dims) {
        Some(i as u32)
    } else {
        None
    }
}
