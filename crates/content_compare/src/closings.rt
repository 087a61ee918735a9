//! The closings of two files, compared.

ghost use Rattle.std.specs.Prelude.{◌≡◌, ◌↔◌, ℕ, List, Err, IfOk, IfErr, IsTrue};
ghost use Rattle.frame_content.specs.Frames.{Frame};
ghost use Rattle.canonical_file.specs.Ranges.{AreBytes};
ghost use Rattle.canonical_laws.specs.Content.{closing_by};
ghost use Rattle.content_compare.specs.Answers.{IsOfTwo};
ghost use Rattle.frame_reader.specs.Given.{GivesAll};

use crate::answers::CompareError;
use canonical_file::Closing;
use canonical_writer::are_closed_alike;
use file_grammar::Fault;
use frame_reader::FrameReader;
use std::alloc::Global;

/// Whether the two files, which have ended, have equal closings.
pub fn have_same_closings(
    alloc: Global,
    first: &FrameReader,
    second: &FrameReader,
) -> Result<bool, CompareError>
    ensures same { IfOk result (λ same. IsTrue same
        ↔ (closing_by first.now.reader.before.dictionary ≡ closing_by second.now.reader.before.dictionary)) }
    ensures fault { (number : ℕ) (fault : Fault) → result ≡ Err (CompareError.Fault number fault)
        → (file other : List ℕ) (frames others : List Frame) → AreBytes file → AreBytes other
        → GivesAll file frames first.now → GivesAll other others second.now → ⊥ }
    ensures files { IfErr result IsOfTwo }
    ensures device { result ≡ Err CompareError.Device → ⊥ }
{
    let closing = match first.closing(alloc) {
        Ok(closing) => closing,
        Err(error) => return Err(CompareError::of_file(0, error)),
    };
    match second.closing(alloc) {
        Ok(other) => Ok(are_closed_alike(&closing, &other)),
        Err(error) => Err(CompareError::of_file(1, error)),
    }
}
