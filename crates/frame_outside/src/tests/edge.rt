//! What the shelf of real files and the sink of standard output do where the system comes short, is
//! interrupted or fails: no clause speaks of what it gives and takes.

use crate::stand_in::{Runtime, System};
use crate::{DirShelf, Failed, Shelf, ShelfError, Sink, StdSink};
use std::test::Fail;

#[test]
fn a_read_that_fails_is_no_end(rt: HostRuntime) -> Result<(), Fail> {
    let alloc = rt.alloc();
    let mut system = System::new(alloc, b"0123456789");
    system.most = 4;
    system.interrupted = 2;
    system.failing = 3;
    let runtime = Runtime { system: &system };
    let mut shelf = DirShelf::new(&runtime, alloc);
    let slot = shelf.source(alloc, "a")?;
    let mut into = *b"++++++";
    assert_eq!(rt; shelf.take(slot, &mut into), Ok(4));
    assert_eq!(rt; into, *b"0123++");
    assert_eq!(rt; shelf.take(slot, &mut into), Err(Failed));
    assert_eq!(rt; shelf.take(slot, &mut into), Ok(4));
    assert_eq!(rt; into, *b"4567++");
    assert_eq!(rt; shelf.take(slot, &mut into), Ok(2));
    assert_eq!(rt; into, *b"8967++");
    assert_eq!(rt; shelf.take(slot, &mut into), Ok(0));
    Ok(())
}

#[test]
fn a_read_at_a_place_is_one_read_there(rt: HostRuntime) -> Result<(), Fail> {
    let alloc = rt.alloc();
    let mut system = System::new(alloc, b"0123456789");
    system.most = 4;
    system.interrupted = 1;
    system.failing = 3;
    let runtime = Runtime { system: &system };
    let mut shelf = DirShelf::new(&runtime, alloc);
    let slot = shelf.source(alloc, "a")?;
    let mut into = *b"++++++";
    assert_eq!(rt; shelf.read_at(slot, 5, &mut into), Ok(4));
    assert_eq!(rt; into, *b"5678++");
    assert_eq!(rt; shelf.read_at(slot, 5, &mut into), Err(Failed));
    assert_eq!(rt; shelf.read_at(slot, 9, &mut into), Ok(1));
    assert_eq!(rt; into, *b"9678++");
    assert_eq!(rt; shelf.read_at(slot, i64::MAX as u64 - 2, &mut into), Ok(0));
    assert_eq!(rt; shelf.read_at(slot, 1 << 63, &mut into), Ok(0));
    assert_eq!(rt; shelf.read_at(slot, u64::MAX, &mut into), Ok(0));
    assert_eq!(rt; shelf.take(slot, &mut into), Ok(4));
    assert_eq!(rt; into, *b"0123++");
    assert_eq!(rt; shelf.size(slot), Ok(10));
    Ok(())
}

#[test]
fn a_piece_is_written_whole(rt: HostRuntime) -> Result<(), Fail> {
    let alloc = rt.alloc();
    let mut system = System::new(alloc, b"");
    system.most = 4;
    system.interrupted = 2;
    system.failing = 5;
    let runtime = Runtime { system: &system };
    let mut shelf = DirShelf::new(&runtime, alloc);
    let slot = shelf.target(alloc, "a")?;
    assert_eq!(rt; shelf.put(alloc, slot, b"0123456789"), Ok(()));
    assert_eq!(rt; shelf.put(alloc, slot, b"ab"), Err(ShelfError::Failed));
    assert_eq!(rt; shelf.put(alloc, slot, b"cd"), Ok(()));
    assert!(rt; system.has_written(b"0123456789cd"));
    Ok(())
}

#[test]
fn a_write_of_nothing_fails(rt: HostRuntime) -> Result<(), Fail> {
    let alloc = rt.alloc();
    let mut system = System::new(alloc, b"");
    system.most = 0;
    let runtime = Runtime { system: &system };
    let mut shelf = DirShelf::new(&runtime, alloc);
    let slot = shelf.target(alloc, "a")?;
    assert_eq!(rt; shelf.put(alloc, slot, b""), Ok(()));
    assert_eq!(rt; shelf.put(alloc, slot, b"ab"), Err(ShelfError::Failed));
    Ok(())
}

#[test]
fn standard_output_gets_whole_pieces(rt: HostRuntime) {
    let alloc = rt.alloc();
    let mut system = System::new(alloc, b"");
    system.failing = 2;
    let runtime = Runtime { system: &system };
    let mut sink = StdSink::new(&runtime);
    assert_eq!(rt; sink.put(alloc, b"ab"), Ok(()));
    assert_eq!(rt; sink.put(alloc, b"cd"), Err(ShelfError::Failed));
    assert_eq!(rt; sink.put(alloc, b"ef"), Ok(()));
    assert!(rt; system.has_written(b"abef"));
}

#[test]
fn a_name_is_passed_as_it_stands(rt: HostRuntime) {
    let alloc = rt.alloc();
    let system = System::new(alloc, b"");
    let runtime = Runtime { system: &system };
    let mut shelf = DirShelf::new(&runtime, alloc);
    for name in [" a", "a\n"] {
        assert_eq!(rt;
            shelf.source(alloc, name),
            Err(ShelfError::Failed),
            "{name}"
        );
        assert_eq!(rt;
            shelf.target(alloc, name),
            Err(ShelfError::Failed),
            "{name}"
        );
    }
    assert_eq!(rt; shelf.source(alloc, "a"), Ok(0));
}

#[test]
fn an_input_is_not_destroyed(rt: HostRuntime) {
    let alloc = rt.alloc();
    let system = System::new(alloc, b"0");
    let runtime = Runtime { system: &system };
    let mut shelf = DirShelf::new(&runtime, alloc);
    assert_eq!(rt; shelf.source(alloc, "a"), Ok(0));
    assert_eq!(rt; shelf.target(alloc, "a"), Err(ShelfError::Failed));
    assert_eq!(rt; shelf.target(alloc, "./a"), Err(ShelfError::Failed));
    assert!(rt; !system.cut.get());
    assert_eq!(rt; shelf.source(alloc, "./a"), Ok(1));
}

#[test]
fn an_output_is_read_under_its_own_name_alone(rt: HostRuntime) {
    let alloc = rt.alloc();
    let system = System::new(alloc, b"0");
    let runtime = Runtime { system: &system };
    let mut shelf = DirShelf::new(&runtime, alloc);
    assert_eq!(rt; shelf.target(alloc, "a"), Ok(0));
    assert!(rt; system.cut.replace(false));
    assert_eq!(rt; shelf.source(alloc, "./a"), Err(ShelfError::Failed));
    assert_eq!(rt; shelf.target(alloc, "a"), Err(ShelfError::Failed));
    assert!(rt; !system.cut.get());
    assert_eq!(rt; shelf.source(alloc, "a"), Ok(1));
}

#[test]
fn files_have_numbers_past_the_streams(rt: HostRuntime) -> Result<(), Fail> {
    let alloc = rt.alloc();
    for number in [0, 1, 2, 3] {
        let mut system = System::new(alloc, b"0");
        system.next_number = number;
        let runtime = Runtime { system: &system };
        let mut shelf = DirShelf::new(&runtime, alloc);
        let slot = shelf.target(alloc, "a")?;
        assert_eq!(rt; shelf.put(alloc, slot, b"ab"), Ok(()));
        let slot = shelf.source(alloc, "a")?;
        assert_eq!(rt; shelf.take(slot, &mut [0]), Ok(1));
        assert!(rt; !system.used_a_stream.get(), "number {number}");
        assert_eq!(rt; system.open.get(), 2, "number {number}");
    }
    Ok(())
}

#[test]
fn many_inputs_are_read_in_turn(rt: HostRuntime) -> Result<(), Fail> {
    let alloc = rt.alloc();
    let mut system = System::new(alloc, b"");
    system.most_open = 8;
    let runtime = Runtime { system: &system };
    let mut shelf = DirShelf::new(&runtime, alloc);
    for number in 0..5_000 {
        let slot = shelf.source(alloc, "a")?;
        assert_eq!(rt; slot, number);
        assert_eq!(rt; shelf.take(slot, &mut [0]), Ok(0));
    }
    Ok(())
}

#[test]
fn a_file_that_was_given_back_stays_at_its_end(rt: HostRuntime) -> Result<(), Fail> {
    let alloc = rt.alloc();
    let mut system = System::new(alloc, b"01");
    system.most_open = 1;
    let runtime = Runtime { system: &system };
    let mut shelf = DirShelf::new(&runtime, alloc);
    let mut into = *b"++";
    let slot = shelf.source(alloc, "a")?;
    assert_eq!(rt; shelf.take(slot, &mut into), Ok(2));
    assert_eq!(rt; shelf.take(slot, &mut []), Ok(0));
    assert_eq!(rt; shelf.source(alloc, "b"), Err(ShelfError::Failed));
    assert_eq!(rt; shelf.read_at(slot, 1, &mut into), Ok(1));
    assert_eq!(rt; shelf.take(slot, &mut into), Ok(0));
    assert_eq!(rt; shelf.source(alloc, "b"), Ok(1));
    assert_eq!(rt; shelf.take(slot, &mut into), Ok(0));
    assert_eq!(rt; shelf.size(slot), Ok(2));
    assert_eq!(rt; shelf.read_at(slot, 1, &mut into), Err(Failed));
    Ok(())
}
