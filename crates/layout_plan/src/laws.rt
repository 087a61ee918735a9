//! The laws of layouts and bodies. Each is the contract of a function that does nothing: a crate that calls the
//! function has the law.
ghost use Rattle.layout_plan.specs.BodyLaws.{LayoutsAreSound, FaultOrBody, BodiesAreUnique, LengthsAreTold};
ghost use Rattle.layout_plan.specs.BodyLaws.{FaultsAreTold};

/// In a readable layout each dimension names an earlier field, or none.
pub fn layouts_are_sound()
    ensures { LayoutsAreSound }
{}

/// A body has no fault exactly where it has values and a tail, and these are the only ones.
pub fn bodies_have_one_answer()
    ensures fault_or_body { FaultOrBody }
    ensures unique { BodiesAreUnique }
{}

/// The bytes of a body, by its values, its tail and its texts of length 0.
pub fn lengths_are_told()
    ensures { LengthsAreTold }
{}

/// A body's fault is the first field that no front of the bytes left spells. It is BodyShort where some further bytes
/// would let one, BadText where none would, and BodyLong where all fields are spelled and neither none nor four bytes
/// stand after them.
pub fn faults_are_told()
    ensures { FaultsAreTold }
{}
