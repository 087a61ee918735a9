//! What tells one file of the system from another.

ghost use Rattle.std.specs.Prelude.{IsSome};
ghost use Rattle.std.specs.Fs.{IsFile, file_type};

use std::fs::Metadata;
use std::os::unix::fs::{FileTypeExt, MetadataExt};

/// Where the bytes of a file lie, whatever name it was opened by.
#[derive(Clone, Copy, PartialEq, Eq)]
pub struct Identity {
    device: u64,
    inode: u64,
}

impl Identity {
    /// `None` where nothing that lies there can be destroyed by writing: a terminal, a pipe, a device
    /// such as the null device.
    pub fn of(metadata: &Metadata) -> Option<Identity>
        ensures { IsFile (file_type metadata.now) → IsSome result }
    {
        let kind = metadata.file_type();
        if kind.is_file() {
            Some(Identity {
                device: metadata.dev(),
                inode: metadata.ino(),
            })
        } else if kind.is_block_device() {
            Some(Identity {
                device: metadata.rdev(),
                inode: 0,
            })
        } else {
            None
        }
    }
}
