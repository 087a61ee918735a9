//! The header and the last structure of the smallest file, and what changes of their bytes give.

ghost use Rattle.std.specs.Prelude.{◌<◌};

use crate::{
    Common, HEAD_SIZE, HEADER_SIZE, HeadFault, read_common, read_header, write_common, write_header,
};
use scalar_types::{Order, Width, write_num};

const LITTLE: [u8; HEADER_SIZE] = [
    b'I', b'G', b'W', b'D', 0, 8, 0, 2, 4, 8, 4, 8, 0x34, 0x12, 0x78, 0x56, 0x34, 0x12, 0xEF, 0xCD,
    0xAB, 0x89, 0x67, 0x45, 0x23, 0x01, 0xDB, 0x0F, 0x49, 0x40, 0x18, 0x2D, 0x44, 0x54, 0xFB, 0x21,
    0x09, 0x40, 0, 0,
];

const BIG: [u8; HEADER_SIZE] = [
    b'I', b'G', b'W', b'D', 0, 8, 0, 2, 4, 8, 4, 8, 0x12, 0x34, 0x12, 0x34, 0x56, 0x78, 0x01, 0x23,
    0x45, 0x67, 0x89, 0xAB, 0xCD, 0xEF, 0x40, 0x49, 0x0F, 0xDB, 0x40, 0x09, 0x21, 0xFB, 0x54, 0x44,
    0x2D, 0x18, 0, 0,
];

fn changed(mut header: [u8; HEADER_SIZE], at: usize, byte: u8) -> [u8; HEADER_SIZE]
    requires { at < 40 }
{
    header[at] = byte;
    header
}

const fn wrong(at: u32) -> Result<Order, HeadFault> {
    Err(HeadFault { at })
}

#[test]
fn names_the_first_wrong_part(rt: HostRuntime) {
    let rows = [
        (LITTLE, Ok(Order::Little)),
        (BIG, Ok(Order::Big)),
        (changed(LITTLE, 6, 9), Ok(Order::Little)),
        (changed(BIG, 26, 0), Ok(Order::Big)),
        (changed(LITTLE, 39, 1), Ok(Order::Little)),
        (changed(LITTLE, 3, b'E'), wrong(0)),
        (changed(BIG, 4, b' '), wrong(0)),
        (changed(LITTLE, 5, 6), wrong(5)),
        (changed(LITTLE, 7, 4), wrong(7)),
        (changed(LITTLE, 8, 2), wrong(8)),
        (changed(BIG, 9, 4), wrong(9)),
        (changed(LITTLE, 10, 8), wrong(10)),
        (changed(LITTLE, 11, 4), wrong(11)),
        (changed(BIG, 13, 0x35), wrong(12)),
        (changed(LITTLE, 12, 0x12), wrong(12)),
        (changed(LITTLE, 17, 0), wrong(14)),
        (changed(BIG, 25, 0), wrong(18)),
        (changed(changed(LITTLE, 0, 0), 12, 0), wrong(0)),
        (changed(changed(BIG, 25, 0), 5, 7), wrong(5)),
    ];
    for (row, (header, answer)) in rows.iter().enumerate() {
        assert_eq!(rt; read_header(header), *answer, "row {row}");
    }
}

#[test]
fn reads_the_first_bytes_of_a_structure(rt: HostRuntime) {
    let last = Common {
        length: 38,
        check: 0,
        class: 11,
        instance: 0,
    };
    let little = [0x26, 0, 0, 0, 0, 0, 0, 0, 0, 0x0B, 0, 0, 0, 0];
    let big = [0, 0, 0, 0, 0, 0, 0, 0x26, 0, 0x0B, 0, 0, 0, 0];
    assert_eq!(rt; read_common(Order::Little, &little), last);
    assert_eq!(rt; read_common(Order::Big, &big), last);

    let bytes = [1, 0, 0, 0, 0, 0, 0, 2, 3, 4, 5, 0, 0, 6];
    let little = Common {
        length: 0x0200_0000_0000_0001,
        check: 3,
        class: 4,
        instance: 0x0600_0005,
    };
    let big = Common {
        length: 0x0100_0000_0000_0002,
        check: 3,
        class: 4,
        instance: 0x0500_0006,
    };
    assert_eq!(rt; read_common(Order::Little, &bytes), little);
    assert_eq!(rt; read_common(Order::Big, &bytes), big);
}

#[test]
fn writes_numbers_in_either_order(rt: HostRuntime) {
    let mut bytes = [0xff; 6];
    write_num(Order::Little, Width::Four, 0x0102_0304, &mut bytes);
    assert_eq!(rt; bytes, [4, 3, 2, 1, 0xff, 0xff]);
    write_num(Order::Big, Width::Two, 0x0506, &mut bytes);
    assert_eq!(rt; bytes, [5, 6, 2, 1, 0xff, 0xff]);
}

#[test]
fn writes_the_header_over_whatever_stood_there(rt: HostRuntime) {
    let mut header = [0xff; HEADER_SIZE];
    write_header(&mut header);
    assert_eq!(rt; header, LITTLE);
}

#[test]
fn writes_the_first_bytes_of_a_structure(rt: HostRuntime) {
    let common = Common {
        length: 0x0102_0304_0506_0708,
        check: 1,
        class: 11,
        instance: 0x0A0B_0C0D,
    };
    let mut bytes = [0xff; HEAD_SIZE];
    write_common(Order::Little, &common, &mut bytes);
    assert_eq!(rt;
        bytes,
        [8, 7, 6, 5, 4, 3, 2, 1, 1, 11, 0x0D, 0x0C, 0x0B, 0x0A]
    );
    write_common(Order::Big, &common, &mut bytes);
    assert_eq!(rt;
        bytes,
        [1, 2, 3, 4, 5, 6, 7, 8, 1, 11, 0x0A, 0x0B, 0x0C, 0x0D]
    );
}
