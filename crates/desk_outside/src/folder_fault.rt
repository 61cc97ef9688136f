//! Why a desk's folder can't be used.
ghost use Rattle.std.specs.Prelude.{Some};
ghost use Rattle.desk_outside.specs.Faults.{fault_text};

use std::fmt;

/// Why a desk's folder, or a file in it, can't be used. Nothing in it was touched.
#[derive(Clone, Copy, Debug, PartialEq, Eq)]
pub enum FolderFault {
    /// Group or others may look into the folder, or read or write the file.
    NotPrivate,
    /// A link stands in its place.
    Link,
    /// What stands in its place is no folder, or no regular file.
    OtherKind,
    /// There is no folder that it can be made in.
    NoParent,
    /// The user may not make or use it.
    NotYours,
    /// Any other error of the system, as of a disk that is full.
    Broken,
}

impl fmt::Display for FolderFault {
    ghost output = { λ fault. Some (fault_text fault) };

    fn fmt<W: fmt::Write>(&self, f: &mut fmt::Formatter<W>) -> fmt::Result {
        f.write_str(match self {
            FolderFault::NotPrivate => "others than you may look into it",
            FolderFault::Link => "a link stands in its place",
            FolderFault::OtherKind => "something else stands in its place",
            FolderFault::NoParent => "the folder that it is to stand in isn't there",
            FolderFault::NotYours => "you may not use it; it may be another user's",
            FolderFault::Broken => "the system can't use it; see whether the disk is full",
        })
    }
}
