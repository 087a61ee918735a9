//! What holds of the definitions that the contracts cite. Nothing is computed here.

ghost use Rattle.file_content.specs.Contents.{NoFileHasTwoContents, EachWellFormedFileHasContents};

/// Each well-formed file has exactly one content.
pub fn each_file_has_one_content()
    ensures unique { NoFileHasTwoContents }
    ensures exists { EachWellFormedFileHasContents }
{}
