//! Runs of `make` over a shelf and a sink in memory.

use crate::worked_files::{Outside, WHOLE, run_with};
use std::alloc::{AllocError, Global};
use std::process::Abort;
use std::test::Fail;

/// The words after `make`, the bytes of the file, and the text.
type Row = (&'static str, usize, &'static str);

#[test]
fn makes_files(rt: HostRuntime) -> Result<(), Fail> {
    let rows: [Row; 3] = [
        (
            "0",
            938,
            "accepted\norder: little\nframes: 0\nrecords: 0\ntable: good\nbytes: 938\n",
        ),
        (
            "1",
            3476,
            "accepted\norder: little\nframes: 1\nrecords: 9\ntable: good\nbytes: 3476\n",
        ),
        (
            "200",
            154_716,
            "accepted\norder: little\nframes: 200\nrecords: 1800\ntable: good\nbytes: 154716\n",
        ),
    ];
    let alloc = rt.alloc();
    for (frames, size, text) in rows {
        let run = run_with(alloc, WHOLE, &[], &["make", frames, "o"], "o")?;
        assert_eq!(rt; run.printed.as_slice(), text.as_bytes(), "{frames}");
        assert_eq!(rt; run.status, 0, "{frames}");
        let file = run.output.unwrap_or(Vec::new(alloc));
        assert_eq!(rt; file.len(), size, "{frames}");
        check_copy(&rt, alloc, file.as_slice())?;
    }
    Ok(())
}

/// A copy of the file is the file, and printing it takes more than one piece where it is long.
fn check_copy(rt: &impl Abort, alloc: Global, file: &[u8]) -> Result<(), AllocError> {
    let run = run_with(alloc, WHOLE, &[("m", file)], &["copy", "m", "o"], "o")?;
    let copy = run.output.unwrap_or(Vec::new(alloc));
    assert!(rt; copy.as_slice() == file);
    Ok(())
}

#[test]
fn makes_no_other_files(rt: HostRuntime) -> Result<(), Fail> {
    let alloc = rt.alloc();
    for frames in [
        "007",
        "100001",
        "-1",
        "+1",
        "",
        "1 ",
        "99999999999999999999",
    ] {
        let run = run_with(alloc, WHOLE, &[], &["make", frames, "o"], "o")?;
        assert_eq!(rt; run.printed.as_slice(), b"usage\n".as_slice(), "{frames}");
        assert_eq!(rt; run.status, 2, "{frames}");
        assert!(rt; run.output.is_none(), "{frames}");
    }
    Ok(())
}

/// Runs `make` with each shelf call failing in turn, until the number passes the calls of the run; and with the sink
/// failing.
#[test]
fn makes_a_part_where_calls_fail(rt: HostRuntime) -> Result<(), Fail> {
    let alloc = rt.alloc();
    let whole = run_with(alloc, WHOLE, &[], &["make", "2", "o"], "o")?;
    let file = whole.output.unwrap_or(Vec::new(alloc));
    // the target, the header, two frames and the end are written; the source is opened, read, and once more at the end
    for call in 1..=8 {
        let outside = Outside {
            shelf_call: call,
            ..WHOLE
        };
        let run = run_with(alloc, outside, &[], &["make", "2", "o"], "o")?;
        assert_eq!(rt; run.status, 3, "call {call}");
        assert!(rt; run.printed.is_empty(), "call {call}");
        let part = run.output.unwrap_or(Vec::new(alloc));
        assert!(rt; file.as_slice().starts_with(part.as_slice()), "call {call}");
    }
    let outside = Outside {
        shelf_call: 9,
        sink_call: 1,
        ..WHOLE
    };
    let run = run_with(alloc, outside, &[], &["make", "2", "o"], "o")?;
    assert_eq!(rt; run.status, 3);
    assert!(rt; run.printed.is_empty());
    Ok(())
}
