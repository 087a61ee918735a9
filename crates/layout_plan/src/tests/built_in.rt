//! The structures of a dictionary in a real file, read by the plans that are built in.

ghost use Rattle.std.specs.Prelude.{◌≡◌, IfSome};
ghost use Rattle.scalar_types.specs.declared.Order.TheVariants.{Little};
ghost use Rattle.layout_plan.specs.Body.{HasBody};

use crate::*;
use scalar_types::Order;
use std::test::Fail;

/// The body of the FrSH of class 11 in a frame file, with its tail.
const STRUCTURE: &[u8] = &[
    12, 0, b'F', b'r', b'E', b'n', b'd', b'O', b'f', b'F', b'i', b'l', b'e', 0, 11, 0, 1, 0, 0, 0,
    0, 0, 0,
];

/// The body of the first FrSE after it.
const ELEMENT: &[u8] = &[
    8, 0, b'n', b'F', b'r', b'a', b'm', b'e', b's', 0, 7, 0, b'I', b'N', b'T', b'_', b'4', b'U', 0,
    1, 0, 0, 0, 0, 0, 0,
];

/// The body, where the plan reads it.
fn read<'a>(plan: &Plan, body: &'a [u8]) -> Option<&'a [u8]>
    ensures { IfSome result (λ body. HasBody Little plan.now body.now) }
{
    match measure(plan, Order::Little, body) {
        Ok(_) => Some(body),
        Err(_) => None,
    }
}

#[test]
fn structure_is_read(rt: HostRuntime) -> Result<(), Fail> {
    let plan = structure_plan(rt.alloc())?;
    let Some(body) = read(&plan, STRUCTURE) else {
        return Err("the body does not read".into());
    };
    assert_eq!(rt;
        text_at(&plan, Order::Little, body, 0),
        b"FrEndOfFile".as_slice()
    );
    assert_eq!(rt; num_at(&plan, Order::Little, body, 1), 11);
    Ok(())
}

#[test]
fn element_is_read(rt: HostRuntime) -> Result<(), Fail> {
    let plan = element_plan(rt.alloc())?;
    let Some(body) = read(&plan, ELEMENT) else {
        return Err("the body does not read".into());
    };
    assert_eq!(rt;
        text_at(&plan, Order::Little, body, 0),
        b"nFrames".as_slice()
    );
    assert_eq!(rt;
        text_at(&plan, Order::Little, body, 1),
        b"INT_4U".as_slice()
    );
    Ok(())
}
