//! How far a reader reads ahead.

ghost use Rattle.item_reader.specs.Reader.{LooksReachBeyond, ReadersReadNoFurther};

/// A look reaches at least 65,550 bytes beyond its place, and a reader has drawn no further than the look of
/// the place that it has reached.
pub fn looks_bound_readers()
    ensures beyond { LooksReachBeyond }
    ensures bounded { ReadersReadNoFurther }
{}
