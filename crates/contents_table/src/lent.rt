//! Values read from the bytes of a table's fields.

ghost use Rattle.std.specs.Prelude.{◌≡◌, ◌<◌, ℕ, [], List, IfSome, IsOk, Ok, Some, length, map};
ghost use Rattle.std.specs.Prelude.{slice_get, slice_index};
ghost use Rattle.layout_plan.specs.Body.{HasBody, IsBody, number_of};
ghost use Rattle.layout_plan.specs.Reading.{field_in, text_in};
ghost use Rattle.record_values.specs.declared.values.Value.{Value};
ghost use Rattle.layout_plan.specs.declared.fields.Field.{Field};
ghost use Rattle.contents_table.specs.Views.{AreNumbers, numbers_by};

use layout_plan::{Plan, span_of};
use scalar_types::{Order, Width, read_num};

/// The bytes of a position.
const POSITION_SIZE: usize = 8;

/// The bytes of a text's length.
const LENGTH_SIZE: usize = 2;

/// The bytes of a field.
pub fn bytes_of<'a>(plan: &Plan, order: Order, body: &'a [u8], field: u32) -> &'a [u8]
    requires body { HasBody order plan.now body.now }
    requires field { field < length plan.now }
    ensures { (values : List Value) (tail : List ℕ) → IsBody order plan.now values tail body.now
        → (f : Field) → slice_get plan.now field ≡ Some f → IfSome (slice_get values field)
        (λ v. field_in order (map number_of values) f.form f.counts result.now ≡ Ok (v, [])) }
{
    let (from, to) = span_of(plan, order, body, field);
    &body[from..to]
}

/// The number at a place among numbers of eight bytes.
pub fn number_in(order: Order, numbers: &[u8], k: usize) -> u64
    requires { (n : ℕ) × AreNumbers order n numbers.now × (k < n) }
    ensures { (n : ℕ) → AreNumbers order n numbers.now → k < n
        → result ≡ slice_index (numbers_by order n numbers.now) k }
{
    read_num(order, Width::Eight, &numbers[k * POSITION_SIZE..])
}

/// The text at the front, and the bytes after it.
pub fn next_text(order: Order, texts: &[u8]) -> (&[u8], &[u8])
    requires { IsOk (text_in order texts.now) }
    ensures { text_in order texts.now ≡ Ok (result.0.now, result.1.now) }
{
    let length = read_num(order, Width::Two, texts) as usize;
    let rest = &texts[LENGTH_SIZE..];
    if length == 0 {
        return (&rest[..0], rest);
    }
    (&rest[..length - 1], &rest[length..])
}
