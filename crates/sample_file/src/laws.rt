//! The laws of the sample file. Each is the contract of a function that does nothing: a crate that calls the function
//! has the law.

ghost use Rattle.sample_file.specs.Laws.{SampleBytesAreCanonical, SampleFilesAreReadBack};

/// The bytes that are made are the canonical file of what is made.
pub fn sample_bytes_are_canonical()
    ensures { SampleBytesAreCanonical }
{}

/// A sample file of 100,000 frames at most is well-formed, and its content is its closing and its frames.
pub fn sample_files_are_read_back()
    ensures { SampleFilesAreReadBack }
{}
