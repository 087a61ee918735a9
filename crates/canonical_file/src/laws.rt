//! The laws of frames, bodies and canonical files. Each is the contract of a function that does nothing: a
//! crate that calls the function has the law.

ghost use Rattle.canonical_file.specs.FrameLaws.{EqualFramesHaveOneOrder, FramesInOrderAreEqual};
ghost use Rattle.canonical_file.specs.FrameLaws.{WrittenBodiesAreOne, FittingBodiesAreWritten};
ghost use Rattle.canonical_file.specs.FrameLaws.{EqualContentsHaveOneFile, EqualFramesHaveOneHead};
ghost use Rattle.canonical_file.specs.Sizes.{HeadsHaveTheirSize, FilesHaveTheirSize};
ghost use Rattle.canonical_file.specs.Sizes.{RecordsStandAtTheirPlaces};
ghost use Rattle.canonical_file.specs.SpliceLaws.{SplicesAreWritten, SplicesAreBegun};
ghost use Rattle.canonical_file.specs.Renumbered.{ChannelsAreRenumbered, TablesAreRenumbered};

/// Equal frames are one frame in their breadth-first orders.
pub fn equal_frames_have_one_order()
    ensures { EqualFramesHaveOneOrder }
{}

/// A frame in its breadth-first order is equal to the frame.
pub fn frames_in_order_are_equal()
    ensures { FramesInOrderAreEqual }
{}

/// What is written of values in little-endian order is their one spelling, and this is written of them.
pub fn written_bodies_are_one()
    ensures only { WrittenBodiesAreOne }
    ensures written { FittingBodiesAreWritten }
{}

/// A content has one canonical file, and frames have one canonical head.
pub fn canonical_files_are_one()
    ensures files { EqualContentsHaveOneFile }
    ensures heads { EqualFramesHaveOneHead }
{}

/// The channels of a frame in its order are those of the frame by their numbers there, and a contents table
/// lists the same of both.
pub fn channels_are_renumbered()
    ensures channels { ChannelsAreRenumbered }
    ensures tables { TablesAreRenumbered }
{}

/// What is told of sizes and places is so: how many bytes stand, how many the whole file has, and where each
/// record of a frame stands.
pub fn sizes_are_told()
    ensures heads { HeadsHaveTheirSize }
    ensures files { FilesHaveTheirSize }
    ensures places { RecordsStandAtTheirPlaces }
{}

/// The frames of a splice are written under the entries that are used first, whichever they have themselves.
pub fn splices_are_written()
    ensures whole { SplicesAreWritten }
    ensures begun { SplicesAreBegun }
{}
