//! The two public calls.
ghost use Rattle.std.specs.Prelude.{◌≡◌, ◌<◌, ◌^◌, ◌↔◌, IsSome, IfSome, OnOk, OnErr};
ghost use Rattle.layout_plan.specs.Appends.{Appends};
ghost use Rattle.layout_plan.specs.Body.{values_length};
ghost use Rattle.layout_plan.specs.Written.{IsWritten};
ghost use Rattle.record_writer.specs.Fit.{Fits};

use crate::fitting::values_fit;
use crate::lengths::fields_length;
use crate::spelling::push_fields;
use layout_plan::Plan;
use record_values::Value;
use scalar_types::Order;
use std::alloc::{AllocError, Global};

/// The number of bytes that `write_body` appends for these values. None where they do not fit the
/// plan's layout, or where there are 2^64 bytes or more. Takes no memory.
///
/// Values fit where there is one for each field, of its form, with numbers of its width, with as many
/// items as its dimensions say, and with texts of at most 65,534 bytes. A list of one-byte numbers is
/// `Bytes`, and never `Nums`.
pub fn body_length(plan: &Plan, values: &[Value]) -> Option<u64>
    ensures some { IsSome result
        ↔ (Fits plan.now values.now × (values_length plan.now values.now < 2 ^ 64)) }
    ensures length { IfSome result (λ n. n ≡ values_length plan.now values.now) }
{
    let fields = plan.fields();
    if !values_fit(fields, values) {
        return None;
    }
    fields_length(fields, values)
}

/// Appends the body of these values, which fit the plan's layout, in this byte order and without a
/// tail. Each text, the empty one too, is closed by its zero byte. Takes memory for `into` alone; where
/// memory is out, `into` holds the bytes that it held.
pub fn write_body(
    _alloc: Global,
    plan: &Plan,
    order: Order,
    values: &[Value],
    into: &mut Vec<u8>,
) -> Result<(), AllocError>
    requires { Fits plan.now values.now }
    ensures ok { OnOk result
        (Appends (IsWritten order plan.now values.now) into.old.items into.new.items) }
    ensures err { OnErr result (into.new.items ≡ into.old.items) }
{
    let start = into.len();
    let written = push_fields(order, plan.fields(), values, into);
    if written.is_err() {
        into.truncate(start);
    }
    written
}
