//! Worked files, and runs over a shelf and a sink in memory, for the tests.

use crate::dispatch::run;
use frame_outside::{MemShelf, MemSink};
use std::alloc::{AllocError, Global};

/// A file without a frame, 273 bytes: the header, five structures of the dictionary, and FrEndOfFile at 235.
pub const LITTLE: &[u8] = b"\
    IGWD\0\x08\0\x02\x04\x08\x04\x084\x12xV4\x12\xef\xcd\xab\x89gE#\x01\xdb\x0fI@\x18-DT\xfb!\x09@\0\0\
    %\0\0\0\0\0\0\0\0\x01\0\0\0\0\x0c\0FrEndOfFile\0\x0b\0\x01\0\0\0\0\0\0\
    (\0\0\0\0\0\0\0\0\x02\0\0\0\0\x08\0nFrames\0\x07\0INT_4U\0\x01\0\0\0\0\0\0\
    '\0\0\0\0\0\0\0\0\x02\x01\0\0\0\x07\0nBytes\0\x07\0INT_8U\0\x01\0\0\0\0\0\0\
    (\0\0\0\0\0\0\0\0\x02\x02\0\0\0\x08\0seekTOC\0\x07\0INT_8U\0\x01\0\0\0\0\0\0\
    '\0\0\0\0\0\0\0\0\x02\x03\0\0\0\x07\0chkSum\0\x07\0INT_4U\0\x01\0\0\0\0\0\0\
    &\0\0\0\0\0\0\0\0\x0b\0\0\0\0\0\0\0\0\x11\x01\0\0\0\0\0\0\0\0\0\0\0\0\0\0\0\0\0\0";

/// The same in big-endian order.
pub const BIG: &[u8] = b"\
    IGWD\0\x08\0\x02\x04\x08\x04\x08\x124\x124Vx\x01#Eg\x89\xab\xcd\xef@I\x0f\xdb@\x09!\xfbTD-\x18\0\0\
    \0\0\0\0\0\0\0%\0\x01\0\0\0\0\0\x0cFrEndOfFile\0\0\x0b\0\x01\0\0\0\0\0\
    \0\0\0\0\0\0\0(\0\x02\0\0\0\0\0\x08nFrames\0\0\x07INT_4U\0\0\x01\0\0\0\0\0\
    \0\0\0\0\0\0\0'\0\x02\0\0\0\x01\0\x07nBytes\0\0\x07INT_8U\0\0\x01\0\0\0\0\0\
    \0\0\0\0\0\0\0(\0\x02\0\0\0\x02\0\x08seekTOC\0\0\x07INT_8U\0\0\x01\0\0\0\0\0\
    \0\0\0\0\0\0\0'\0\x02\0\0\0\x03\0\x07chkSum\0\0\x07INT_4U\0\0\x01\0\0\0\0\0\
    \0\0\0\0\0\0\0&\0\x0b\0\0\0\0\0\0\0\0\0\0\0\0\0\0\x01\x11\0\0\0\0\0\0\0\0\0\0\0\0";

/// A file of one frame, 3,637 bytes: its header, and a structure a line. FrameH stands at 569, FrRawData at 809,
/// FrDetector at 1129, channels at 1485, 2227 and 2366 with a vector each at 2137, 2276 and 2415, FrEndOfFrame at 2656,
/// FrTOC at 3313, and FrEndOfFile at 3599. The entry of a structure ends where its first record begins.
pub const ONE_FRAME: &[u8] = b"\
    IGWD\0\x08\0\x02\x04\x08\x04\x084\x12xV4\x12\xef\xcd\xab\x89gE#\x01\xdb\x0fI@\x18-DT\xfb!\x09@\0\0\
    \x20\0\0\0\0\0\0\0\0\x01\0\0\0\0\x07\0FrameH\0\x03\0\x01\0\0\0\0\0\0\
    %\0\0\0\0\0\0\0\0\x02\0\0\0\0\x05\0name\0\x07\0STRING\0\x01\0\0\0\0\0\0\
    $\0\0\0\0\0\0\0\0\x02\x01\0\0\0\x04\0run\0\x07\0INT_4S\0\x01\0\0\0\0\0\0\
    &\0\0\0\0\0\0\0\0\x02\x02\0\0\0\x06\0frame\0\x07\0INT_4U\0\x01\0\0\0\0\0\0\
    '\0\0\0\0\0\0\0\0\x02\x03\0\0\0\x07\0GTimeS\0\x07\0INT_4U\0\x01\0\0\0\0\0\0\
    '\0\0\0\0\0\0\0\0\x02\x04\0\0\0\x07\0GTimeN\0\x07\0INT_4U\0\x01\0\0\0\0\0\0\
    #\0\0\0\0\0\0\0\0\x02\x05\0\0\0\x03\0dt\0\x07\0REAL_8\0\x01\0\0\0\0\0\0\
    9\0\0\0\0\0\0\0\0\x02\x06\0\0\0\x08\0rawData\0\x18\0PTR_STRUCT(FrRawData *)\0\x01\0\0\0\0\0\0\
    ;\0\0\0\0\0\0\0\0\x02\x07\0\0\0\x09\0procData\0\x19\0PTR_STRUCT(FrProcData *)\0\x01\0\0\0\0\0\0\
    9\0\0\0\0\0\0\0\0\x02\x08\0\0\0\x08\0simData\0\x18\0PTR_STRUCT(FrSimData *)\0\x01\0\0\0\0\0\0\
    =\0\0\0\0\0\0\0\0\x02\x09\0\0\0\x0b\0detectProc\0\x19\0PTR_STRUCT(FrDetector *)\0\x01\0\0\0\0\0\0\
    '\0\0\0\0\0\0\0\0\x02\x0a\0\0\0\x07\0chkSum\0\x07\0INT_4U\0\x01\0\0\0\0\0\0\
    G\0\0\0\0\0\0\0\0\x03\0\0\0\0\x03\0H1\0\x01\0\0\0\0\0\0\0\0\xca\x9a;\0\0\0\0\0\0\0\0\0\0\xf0?\x04\0\0\0\0\0\0\0\0\0\0\
    \0\0\0\0\0\0\0\x08\0\0\0\0\0\0\0\0\0\
    #\0\0\0\0\0\0\0\0\x01\x01\0\0\0\x0a\0FrRawData\0\x04\0\x01\0\0\0\0\0\0\
    %\0\0\0\0\0\0\0\0\x02\0\0\0\0\x05\0name\0\x07\0STRING\0\x01\0\0\0\0\0\0\
    :\0\0\0\0\0\0\0\0\x02\x01\0\0\0\x09\0firstAdc\0\x18\0PTR_STRUCT(FrAdcData *)\0\x01\0\0\0\0\0\0\
    '\0\0\0\0\0\0\0\0\x02\x02\0\0\0\x07\0chkSum\0\x07\0INT_4U\0\x01\0\0\0\0\0\0\
    \x1e\0\0\0\0\0\0\0\0\x04\0\0\0\0\x04\0raw\0\x05\0\0\0\0\0\0\0\0\0\
    $\0\0\0\0\0\0\0\0\x01\x02\0\0\0\x0b\0FrDetector\0\x08\0\x01\0\0\0\0\0\0\
    %\0\0\0\0\0\0\0\0\x02\0\0\0\0\x05\0name\0\x07\0STRING\0\x01\0\0\0\0\0\0\
    (\0\0\0\0\0\0\0\0\x02\x01\0\0\0\x07\0prefix\0\x08\0CHAR[2]\0\x01\0\0\0\0\0\0\
    *\0\0\0\0\0\0\0\0\x02\x02\0\0\0\x0a\0longitude\0\x07\0REAL_8\0\x01\0\0\0\0\0\0\
    )\0\0\0\0\0\0\0\0\x02\x03\0\0\0\x09\0latitude\0\x07\0REAL_8\0\x01\0\0\0\0\0\0\
    7\0\0\0\0\0\0\0\0\x02\x04\0\0\0\x05\0next\0\x19\0PTR_STRUCT(FrDetector *)\0\x01\0\0\0\0\0\0\
    '\0\0\0\0\0\0\0\0\x02\x05\0\0\0\x07\0chkSum\0\x07\0INT_4U\0\x01\0\0\0\0\0\0\
    3\0\0\0\0\0\0\0\0\x08\0\0\0\0\x07\0LHO_4k\0H1\0\0\0\0\0\0\0\0\0\0\0\0\0\0\0\0\0\0\0\0\0\0\0\0\0\0\
    #\0\0\0\0\0\0\0\0\x01\x03\0\0\0\x0a\0FrAdcData\0\x05\0\x01\0\0\0\0\0\0\
    %\0\0\0\0\0\0\0\0\x02\0\0\0\0\x05\0name\0\x07\0STRING\0\x01\0\0\0\0\0\0\
    .\0\0\0\0\0\0\0\0\x02\x01\0\0\0\x0e\0channelNumber\0\x07\0INT_4U\0\x01\0\0\0\0\0\0\
    +\0\0\0\0\0\0\0\0\x02\x02\0\0\0\x0b\0sampleRate\0\x07\0REAL_8\0\x01\0\0\0\0\0\0\
    3\0\0\0\0\0\0\0\0\x02\x03\0\0\0\x05\0data\0\x15\0PTR_STRUCT(FrVect *)\0\x01\0\0\0\0\0\0\
    6\0\0\0\0\0\0\0\0\x02\x04\0\0\0\x05\0next\0\x18\0PTR_STRUCT(FrAdcData *)\0\x01\0\0\0\0\0\0\
    '\0\0\0\0\0\0\0\0\x02\x05\0\0\0\x07\0chkSum\0\x07\0INT_4U\0\x01\0\0\0\0\0\0\
    1\0\0\0\0\0\0\0\0\x05\0\0\0\0\x05\0H1:A\0\0\0\0\0\0\0\0\0\0\0\xf0?\x07\0\0\0\0\0\x05\0\x01\0\0\0\0\0\0\0\
    \x20\0\0\0\0\0\0\0\0\x01\x04\0\0\0\x07\0FrVect\0\x07\0\x01\0\0\0\0\0\0\
    %\0\0\0\0\0\0\0\0\x02\0\0\0\0\x05\0name\0\x07\0STRING\0\x01\0\0\0\0\0\0\
    )\0\0\0\0\0\0\0\0\x02\x01\0\0\0\x09\0compress\0\x07\0INT_2U\0\x01\0\0\0\0\0\0\
    %\0\0\0\0\0\0\0\0\x02\x02\0\0\0\x05\0type\0\x07\0INT_2U\0\x01\0\0\0\0\0\0\
    &\0\0\0\0\0\0\0\0\x02\x03\0\0\0\x06\0nData\0\x07\0INT_8U\0\x01\0\0\0\0\0\0\
    '\0\0\0\0\0\0\0\0\x02\x04\0\0\0\x07\0nBytes\0\x07\0INT_8U\0\x01\0\0\0\0\0\0\
    +\0\0\0\0\0\0\0\0\x02\x05\0\0\0\x05\0data\0\x0d\0CHAR[nBytes]\0\x01\0\0\0\0\0\0\
    %\0\0\0\0\0\0\0\0\x02\x06\0\0\0\x05\0nDim\0\x07\0INT_4U\0\x01\0\0\0\0\0\0\
    )\0\0\0\0\0\0\0\0\x02\x07\0\0\0\x03\0nx\0\x0d\0INT_8U[nDim]\0\x01\0\0\0\0\0\0\
    )\0\0\0\0\0\0\0\0\x02\x08\0\0\0\x03\0dx\0\x0d\0REAL_8[nDim]\0\x01\0\0\0\0\0\0\
    -\0\0\0\0\0\0\0\0\x02\x09\0\0\0\x07\0startX\0\x0d\0REAL_8[nDim]\0\x01\0\0\0\0\0\0\
    ,\0\0\0\0\0\0\0\0\x02\x0a\0\0\0\x06\0unitX\0\x0d\0STRING[nDim]\0\x01\0\0\0\0\0\0\
    &\0\0\0\0\0\0\0\0\x02\x0b\0\0\0\x06\0unitY\0\x07\0STRING\0\x01\0\0\0\0\0\0\
    3\0\0\0\0\0\0\0\0\x02\x0c\0\0\0\x05\0next\0\x15\0PTR_STRUCT(FrVect *)\0\x01\0\0\0\0\0\0\
    '\0\0\0\0\0\0\0\0\x02\x0d\0\0\0\x07\0chkSum\0\x07\0INT_4U\0\x01\0\0\0\0\0\0\
    Z\0\0\0\0\0\0\0\0\x07\0\0\0\0\x05\0H1:A\0\0\0\x04\0\x01\0\0\0\0\0\0\0\x04\0\0\0\0\0\0\0\x01\x02\x03\x04\x01\0\0\0\x01\
    \0\0\0\0\0\0\0\0\0\0\0\0\0\xf0?\0\0\0\0\0\0\0\0\x02\0s\0\x01\0\0\0\0\0\0\0\0\0\0\0\0\
    1\0\0\0\0\0\0\0\0\x05\x01\0\0\0\x05\0H1:B\0\x01\0\0\0\0\0\0\0\0\0\xf0?\x07\0\x01\0\0\0\x05\0\x02\0\0\0\0\0\0\0\
    Z\0\0\0\0\0\0\0\0\x07\x01\0\0\0\x05\0H1:B\0\0\0\x04\0\x01\0\0\0\0\0\0\0\x04\0\0\0\0\0\0\0\x05\x06\x07\x08\x01\0\0\0\
    \x01\0\0\0\0\0\0\0\0\0\0\0\0\0\xf0?\0\0\0\0\0\0\0\0\x02\0s\0\x01\0\0\0\0\0\0\0\0\0\0\0\0\
    1\0\0\0\0\0\0\0\0\x05\x02\0\0\0\x05\0H1:C\0\x02\0\0\0\0\0\0\0\0\0\xf0?\x07\0\x02\0\0\0\0\0\0\0\0\0\0\0\0\0\
    Z\0\0\0\0\0\0\0\0\x07\x02\0\0\0\x05\0H1:C\0\0\0\x04\0\x01\0\0\0\0\0\0\0\x04\0\0\0\0\0\0\0\x09\x0a\x0b\x0c\x01\0\0\0\
    \x01\0\0\0\0\0\0\0\0\0\0\0\0\0\xf0?\0\0\0\0\0\0\0\0\x02\0s\0\x01\0\0\0\0\0\0\0\0\0\0\0\0\
    &\0\0\0\0\0\0\0\0\x01\x05\0\0\0\x0d\0FrEndOfFrame\0\x09\0\x01\0\0\0\0\0\0\
    $\0\0\0\0\0\0\0\0\x02\0\0\0\0\x04\0run\0\x07\0INT_4S\0\x01\0\0\0\0\0\0\
    &\0\0\0\0\0\0\0\0\x02\x01\0\0\0\x06\0frame\0\x07\0INT_4U\0\x01\0\0\0\0\0\0\
    '\0\0\0\0\0\0\0\0\x02\x02\0\0\0\x07\0chkSum\0\x07\0INT_4U\0\x01\0\0\0\0\0\0\
    \x1a\0\0\0\0\0\0\0\0\x09\0\0\0\0\x01\0\0\0\0\0\0\0\0\0\0\0\
    \x1f\0\0\0\0\0\0\0\0\x01\x06\0\0\0\x06\0FrTOC\0\x0a\0\x01\0\0\0\0\0\0\
    '\0\0\0\0\0\0\0\0\x02\0\0\0\0\x07\0nFrame\0\x07\0INT_4U\0\x01\0\0\0\0\0\0\
    /\0\0\0\0\0\0\0\0\x02\x01\0\0\0\x07\0GTimeS\0\x0f\0INT_4U[nFrame]\0\x01\0\0\0\0\0\0\
    2\0\0\0\0\0\0\0\0\x02\x02\0\0\0\x0a\0positionH\0\x0f\0INT_8U[nFrame]\0\x01\0\0\0\0\0\0\
    %\0\0\0\0\0\0\0\0\x02\x03\0\0\0\x05\0nADC\0\x07\0INT_4U\0\x01\0\0\0\0\0\0\
    +\0\0\0\0\0\0\0\0\x02\x04\0\0\0\x05\0name\0\x0d\0STRING[nADC]\0\x01\0\0\0\0\0\0\
    :\0\0\0\0\0\0\0\0\x02\x05\0\0\0\x0c\0positionADC\0\x15\0INT_8U[nADC][nFrame]\0\x01\0\0\0\0\0\0\
    &\0\0\0\0\0\0\0\0\x02\x06\0\0\0\x06\0nProc\0\x07\0INT_4U\0\x01\0\0\0\0\0\0\
    0\0\0\0\0\0\0\0\0\x02\x07\0\0\0\x09\0nameProc\0\x0e\0STRING[nProc]\0\x01\0\0\0\0\0\0\
    <\0\0\0\0\0\0\0\0\x02\x08\0\0\0\x0d\0positionProc\0\x16\0INT_8U[nProc][nFrame]\0\x01\0\0\0\0\0\0\
    %\0\0\0\0\0\0\0\0\x02\x09\0\0\0\x05\0nSim\0\x07\0INT_4U\0\x01\0\0\0\0\0\0\
    .\0\0\0\0\0\0\0\0\x02\x0a\0\0\0\x08\0nameSim\0\x0d\0STRING[nSim]\0\x01\0\0\0\0\0\0\
    :\0\0\0\0\0\0\0\0\x02\x0b\0\0\0\x0c\0positionSim\0\x15\0INT_8U[nSim][nFrame]\0\x01\0\0\0\0\0\0\
    '\0\0\0\0\0\0\0\0\x02\x0c\0\0\0\x07\0chkSum\0\x07\0INT_4U\0\x01\0\0\0\0\0\0\
    [\0\0\0\0\0\0\0\0\x0a\0\0\0\0\x01\0\0\0\0\0\0\09\x02\0\0\0\0\0\0\x03\0\0\0\x05\0H1:A\0\x05\0H1:B\0\x05\0H1:C\0\xcd\
    \x05\0\0\0\0\0\0\xb3\x08\0\0\0\0\0\0>\x09\0\0\0\0\0\0\0\0\0\0\0\0\0\0\0\0\0\0\
    %\0\0\0\0\0\0\0\0\x01\x07\0\0\0\x0c\0FrEndOfFile\0\x0b\0\x01\0\0\0\0\0\0\
    (\0\0\0\0\0\0\0\0\x02\0\0\0\0\x08\0nFrames\0\x07\0INT_4U\0\x01\0\0\0\0\0\0\
    '\0\0\0\0\0\0\0\0\x02\x01\0\0\0\x07\0nBytes\0\x07\0INT_8U\0\x01\0\0\0\0\0\0\
    (\0\0\0\0\0\0\0\0\x02\x02\0\0\0\x08\0seekTOC\0\x07\0INT_8U\0\x01\0\0\0\0\0\0\
    '\0\0\0\0\0\0\0\0\x02\x03\0\0\0\x07\0chkSum\0\x07\0INT_4U\0\x01\0\0\0\0\0\0\
    &\0\0\0\0\0\0\0\0\x0b\0\0\0\0\x01\0\0\05\x0e\0\0\0\0\0\0D\x01\0\0\0\0\0\0\0\0\0\0";

/// The first `size` bytes of a file, with other bytes at a place.
pub fn changed(
    alloc: Global,
    base: &[u8],
    size: usize,
    at: usize,
    bytes: &[u8],
) -> Result<Vec<u8>, AllocError> {
    let base = &base[..size.min(base.len())];
    let end = at.saturating_add(bytes.len()).min(base.len());
    let mut file = Vec::new(alloc);
    file.extend_from_slice(&base[..at.min(base.len())])?;
    file.extend_from_slice(bytes)?;
    file.extend_from_slice(&base[end..])?;
    Ok(file)
}

/// Which calls fail, and how many bytes one call gives.
#[derive(Clone, Copy)]
pub struct Outside {
    pub most: usize,
    pub shelf_call: u64,
    pub sink_call: u64,
}

/// No call fails: the call of number 0 is never made.
pub const WHOLE: Outside = Outside {
    most: usize::MAX,
    shelf_call: 0,
    sink_call: 0,
};

/// The status and the text of a run over a shelf that holds one file, `f`.
pub fn run_over(
    alloc: Global,
    outside: Outside,
    file: &[u8],
    words: &[&str],
) -> Result<(u8, Vec<u8>), AllocError> {
    let run = run_with(alloc, outside, &[("f", file)], words, "f")?;
    Ok((run.status, run.printed))
}

/// What a run leaves: its status, its text, and the file of a name.
#[derive(Drop)]
pub struct Run {
    pub status: u8,
    pub printed: Vec<u8>,
    pub output: Option<Vec<u8>>,
}

/// A run over a shelf that holds these files, and what the file of a name holds after it.
pub fn run_with(
    alloc: Global,
    outside: Outside,
    files: &[(&str, &[u8])],
    words: &[&str],
    output: &str,
) -> Result<Run, AllocError> {
    let mut shelf = MemShelf::new(alloc);
    for (name, file) in files {
        shelf.with_file(name, file)?;
    }
    shelf.largest(outside.most.max(1));
    shelf.fail_at(outside.shelf_call)?;
    let mut out = MemSink::new(alloc);
    out.fail_at(outside.sink_call)?;
    let status = status_over(alloc, words, &mut shelf, &mut out)?;
    Ok(Run {
        status,
        printed: Vec::from_slice(alloc, out.bytes())?,
        output: match shelf.file(output) {
            Some(bytes) => Some(Vec::from_slice(alloc, bytes)?),
            None => None,
        },
    })
}

/// The status of a run over this shelf and sink.
pub fn status_over(
    alloc: Global,
    words: &[&str],
    shelf: &mut MemShelf,
    out: &mut MemSink,
) -> Result<u8, AllocError> {
    let mut owned = Vec::new(alloc);
    for word in words {
        owned.push(String::from_str(alloc, word)?)?;
    }
    let outcome = run(alloc, owned.as_slice(), shelf, out);
    Ok(outcome.status())
}
