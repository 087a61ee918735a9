//! The law of what files give.

ghost use Rattle.frame_reader.specs.Laws.{EachFileGives, NoFileGivesTwice};

/// Each file gives its frames, each in its order, and then its closing or its first fault: some, and no others.
pub fn each_file_gives_once()
    ensures exists { EachFileGives }
    ensures unique { NoFileGivesTwice }
{}
