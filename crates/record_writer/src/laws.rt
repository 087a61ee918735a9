//! The law of values and bodies. It is the contract of a function that does nothing: a crate that calls the function
//! has the law.
ghost use Rattle.record_writer.specs.FitLaws.{ReadValuesFit};

/// The values that a body spells fit its layout, so they can be written again.
pub fn read_values_fit()
    ensures { ReadValuesFit }
{}
