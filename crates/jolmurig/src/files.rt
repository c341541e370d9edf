//! Files by their names.

ghost use Rattle.std.specs.IoError.{error_kind};
ghost use Rattle.std.specs.Prelude.{◌≡◌, ◌⊎◌, ℕ, List, Result, Ok, Err, IfOk, IfErr};
ghost use Rattle.jolmurig.specs.Failures.{IsUnread};
ghost use Rattle.jolmurig.specs.Files.{IsFileError, file_error};
ghost use Rattle.jolmurig.specs.declared.failure.Failure.TheVariants as failure;
ghost use Rattle.jolmurig.specs.declared.files.Unread.{Unread};

use crate::failure::Failure;
use std::alloc::Global;
use std::io;
use std::marker::Model;

/// Why the file of a name is not read.
#[derive(Clone, Copy, PartialEq, Eq)]
pub enum Unread {
    /// There is none of this name.
    NoFile,
    /// It is a directory.
    Directory,
    /// The permission to read it is denied.
    Denied,
    /// There is another error.
    Other,
}

/// What a file is read for.
#[derive(Clone, Copy, PartialEq, Eq)]
pub enum Purpose {
    /// As the input: the file that stands behind the options.
    Input,
    /// For keys: the option `--keytab`.
    Keytab,
    /// For a key: the option `--key-file`.
    KeyFile,
    /// For a password: the option `--password-file`.
    PasswordFile,
}

/// A file that is not read.
#[derive(Drop)]
pub struct UnreadFile<'a> {
    /// What it was to be read for.
    pub purpose: Purpose,
    /// Its name.
    pub name: &'a str,
    /// Why it is not read.
    pub why: Unread,
}

impl<'a> Model for UnreadFile<'a> {
    ghost use Rattle.jolmurig.specs.Files.{UnreadFile};

    ghost Value = { UnreadFile };

    ghost view = { λ f. record { purpose = f.purpose; name = f.name.now; why = f.why } };
}

/// Why the octets of a file were not had.
#[derive(Clone, Copy, PartialEq, Eq)]
pub enum FileError {
    /// The file is not read.
    Unread(Unread),
    /// An allocation failed.
    OutOfMemory,
}

/// What reads files.
pub trait Files {
    /// What the file of a name may give: its octets, or why it is not read.
    ghost gives: { Self → List ℕ → Result (List ℕ) Unread → Type 0 };

    /// The octets of the file of this name.
    fn octets_of(&self, alloc: Global, name: &str) -> Result<Vec<u8>, FileError>
        ensures read { IfOk result (λ octets. gives self.now name.now (Ok octets.items)) }
        ensures unread { IfErr result (IsFileError (gives self.now name.now)) };
}

/// The octets of the file of this name, which is read for this.
pub fn octets_of_file<'a, F: Files>(
    alloc: Global,
    files: &F,
    purpose: Purpose,
    name: &'a str,
) -> Result<Vec<u8>, Failure<'a>>
    ensures read { IfOk result (λ octets. F.gives files.now name.now (Ok octets.items)) }
    ensures rejected { IfErr result (λ e. (e ≡ failure.Memory) ⊎ IsUnread (F.gives files.now) purpose name.now e) }
{
    match files.octets_of(alloc, name) {
        Ok(octets) => Ok(octets),
        Err(FileError::OutOfMemory) => Err(Failure::Memory),
        Err(FileError::Unread(why)) => Err(Failure::NoFile(UnreadFile { purpose, name, why })),
    }
}

/// The error of a file that an error of I/O is.
pub fn file_error(error: &io::Error) -> FileError
    ensures { result ≡ file_error (error_kind error.now) }
{
    match error.kind() {
        io::ErrorKind::OutOfMemory => FileError::OutOfMemory,
        io::ErrorKind::NotFound => FileError::Unread(Unread::NoFile),
        io::ErrorKind::IsADirectory => FileError::Unread(Unread::Directory),
        io::ErrorKind::PermissionDenied => FileError::Unread(Unread::Denied),
        _ => FileError::Unread(Unread::Other),
    }
}
