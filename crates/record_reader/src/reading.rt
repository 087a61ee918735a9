//! The values of a whole body.

ghost use Rattle.std.specs.Prelude.{◌≡◌, ◌≤◌, length};
ghost use Rattle.record_reader.specs.ReadBody.{Reads, stop_of};

use crate::cursor::{Cursor, Stop};
use crate::fields::field_value;
use layout_plan::{BodyFault, BodyReason, Plan, TAIL_SIZE};
use record_values::{NumList, ValueList};
use scalar_types::Order;
use std::alloc::{AllocError, Global};
use thiserror::Error;

/// Why a body was not read.
#[derive(Clone, Copy, Debug, PartialEq, Eq, Error)]
pub enum BodyError {
    /// It spells no values of the layout.
    #[error("Fault")]
    Fault(BodyFault),
    #[error("NoMemory")]
    NoMemory,
}

impl From<AllocError> for BodyError {
    ghost use Rattle.record_reader.specs.declared.reading.BodyError.TheVariants as error;

    ghost from_gives = { λ _ result. result ≡ error.NoMemory };

    fn from(_error: AllocError) -> BodyError {
        BodyError::NoMemory
    }
}

/// The values that a body spells by the layout of the plan, one a field, else the first field without a spelling.
///
/// The body is the bytes after the structure's common part. It may end with four bytes that no field spells. The time
/// is linear in the number of fields and the length of the body, and memory is asked for by the items that are there,
/// whatever counts stand in it.
pub fn read_body(
    alloc: Global,
    plan: &Plan,
    order: Order,
    body: &[u8],
) -> Result<ValueList, BodyError>
    ensures { Reads order plan.now body.now result }
{
    let fields = plan.fields();
    let mut cursor = Cursor::new(body);
    let mut values = ValueList::new(alloc);
    let mut numbers = NumList::new(alloc);
    for (i, field) in fields.iter().enumerate() {
        match field_value(alloc, order, field, numbers.as_slice(), &mut cursor) {
            Ok(value) => {
                numbers.push(value.number())?;
                values.push(value)?;
            }
            Err(stop) => return Err(stop_at(i, stop)),
        }
    }
    let rest = cursor.left();
    if rest != 0 && rest != TAIL_SIZE {
        return Err(stop_at(fields.len(), Stop::At(BodyReason::BodyLong)));
    }
    Ok(values)
}

/// The error of a stop at a field.
fn stop_at(field: usize, stop: Stop) -> BodyError
    requires { field ≤ 4096 }
    ensures { result ≡ stop_of field stop }
{
    match stop {
        Stop::At(reason) => BodyError::Fault(BodyFault {
            field: field as u32,
            reason,
        }),
        Stop::NoMemory => BodyError::NoMemory,
    }
}
