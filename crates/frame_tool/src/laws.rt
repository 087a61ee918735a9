//! What holds of the definitions that the contracts cite. Nothing is computed here.

ghost use Rattle.frame_tool.specs.Due.{EachRunHasADueReply, NoRunHasTwoDueReplies};
ghost use Rattle.frame_tool.specs.Headline.{CopiesTellContents, CopiesAreDone, CopiesNameFaults};
ghost use Rattle.frame_tool.specs.Joined.{AcceptedFilesAreSound, BothNameFaultsOfLengths};
ghost use Rattle.frame_tool.specs.Joined.{WalksNameNoOthers, NoWalkFaultIsEarlier, FaultsAtOnePlaceAreOne};
ghost use Rattle.frame_tool.specs.Walk.{EachFileHasAVerdict, NoFileHasTwoVerdicts};

/// Each list of bytes has exactly one verdict.
pub fn each_file_has_one_verdict()
    ensures exists { EachFileHasAVerdict }
    ensures unique { NoFileHasTwoVerdicts }
{}

/// Words over files have exactly one reply that is due; those of a comparison or a splice where the files hold bytes.
pub fn each_run_has_one_due_reply()
    ensures exists { EachRunHasADueReply }
    ensures unique { NoRunHasTwoDueReplies }
{}

/// The headline, over runs of the program: where no call of the outside fails and memory is there, `copy` is done
/// exactly on well-formed files, and else names the first fault; a copy is the canonical file of what its source holds;
/// and two copies are equal bytes exactly where `same` is due of their sources.
pub fn copies_tell_contents()
    ensures tell { CopiesTellContents }
    ensures done { CopiesAreDone }
    ensures faults { CopiesNameFaults }
{}

/// A file that `check` accepts is sound for `walk`. Where `check` names a reason of the header, of a length or of
/// the place where a structure ends, `walk` names it at the same place; and `walk` names no other reasons, and none
/// before the place of the fault that `check` names. Where both stand at one place the reasons are one, but where
/// `walk` names FileLimit or `check` Trailing.
pub fn walk_and_check_agree()
    ensures sound { AcceptedFilesAreSound }
    ensures faults { BothNameFaultsOfLengths }
    ensures reasons { WalksNameNoOthers }
    ensures places { NoWalkFaultIsEarlier }
    ensures one_place { FaultsAtOnePlaceAreOne }
{}
