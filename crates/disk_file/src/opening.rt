// How a file is opened.

ghost use Rattle.std.specs.Prelude.{◌≡◌, IfOk};
ghost use Rattle.frame_file.specs.Device.{Only};
ghost use Rattle.disk_file.specs.Disk.{disk_bytes, left_of};

use crate::disk::DiskFile;
use crate::fault::FileFault;
use std::alloc::{AllocError, Global};
use std::fs::{self, File, FileType, OpenOptions, TryLockError};
use std::io::{self, ErrorKind, Read};
use std::os::unix::fs::FileTypeExt;
use std::rt::Files;

/// Why a file isn't opened.
#[derive(Clone, Copy, Debug)]
pub enum OpenError {
    /// It isn't read, and why.
    Unread(FileFault),
    /// It may be read and not written, or can't be made or synced, and why.
    Unwritten(FileFault),
    Memory,
    /// Another process, or another handle of this one, has it open.
    Busy,
    /// What has this name is no file of bytes.
    Kind(FileKind),
}

/// What isn't a file of bytes.
#[derive(Clone, Copy, Debug, PartialEq, Eq)]
pub enum FileKind {
    Directory,
    /// A named pipe.
    Fifo,
    Socket,
    /// A terminal is one, and so is `/dev/zero`.
    CharacterDevice,
    BlockDevice,
    Unknown,
}

impl FileKind {
    /// None of a file of bytes.
    pub fn of(kind: &FileType) -> Option<FileKind> {
        if kind.is_file() {
            return None;
        }
        Some(if kind.is_dir() {
            FileKind::Directory
        } else if kind.is_fifo() {
            FileKind::Fifo
        } else if kind.is_socket() {
            FileKind::Socket
        } else if kind.is_char_device() {
            FileKind::CharacterDevice
        } else if kind.is_block_device() {
            FileKind::BlockDevice
        } else {
            FileKind::Unknown
        })
    }
}

impl From<io::Error> for OpenError {
    fn from(error: io::Error) -> OpenError {
        match error.kind() {
            ErrorKind::OutOfMemory => OpenError::Memory,
            _ => OpenError::Unread(FileFault::Io(error)),
        }
    }
}

impl From<FileFault> for OpenError {
    fn from(fault: FileFault) -> OpenError {
        OpenError::Unread(fault)
    }
}

impl From<AllocError> for OpenError {
    fn from(_: AllocError) -> OpenError {
        OpenError::Memory
    }
}

impl From<TryLockError> for OpenError {
    fn from(error: TryLockError) -> OpenError {
        match error {
            TryLockError::Error(error) => OpenError::from(error),
            TryLockError::WouldBlock => OpenError::Busy,
        }
    }
}

impl DiskFile {
    /// Opens the file with this name, and makes it where there is none; and what it has. It is locked as long as it
    /// is open (an advisory lock, which not every network file system keeps), read up to the length that it has then,
    /// and synced with its folder. What isn't a file of bytes is refused before it is opened; so is a
    /// file that has more bytes than its length, or lost its name before it was locked. Nothing is cut
    /// off from the file before it is told where that is kept ([`DiskFile::keep_dropped`]).
    pub fn open<F: Files<File = File>>(
        rt: &F,
        alloc: Global,
        path: &str,
    ) -> Result<(DiskFile, Vec<u8>), OpenError>
        ensures bytes { IfOk result (λ r. r.1.items ≡ disk_bytes r.0) }
        // What is read is what is on the disk.
        ensures settled { IfOk result (λ r. Only (disk_bytes r.0) (left_of r.0)) }
    {
        let (file, bytes) = locked(rt, alloc, path)?;
        sync_with_folder(rt, alloc, path, &file)?;
        let file = DiskFile::settled(file, &bytes);
        file.check_name(rt, path)?;
        Ok((file, bytes))
    }

    /// From now on, what is cut off is kept behind the last byte of the file of this name with `.dropped`
    /// behind it, which is made where there is none, and synced with its folder.
    pub fn keep_dropped<F: Files<File = File>>(
        &mut self,
        rt: &F,
        alloc: Global,
        path: &str,
    ) -> Result<(), OpenError>
        ensures bytes { disk_bytes self.new ≡ disk_bytes self.old }
        ensures left { Only (disk_bytes self.old) (left_of self.old) → Only (disk_bytes self.new) (left_of self.new) }
    {
        let name = format!(in alloc; "{path}.dropped")?;
        match dropped_file(rt, alloc, name.as_str()) {
            Ok(dropped) => {
                self.keep_in(dropped);
                Ok(())
            }
            Err(OpenError::Unwritten(FileFault::Io(error))) => Err(OpenError::Unwritten(
                FileFault::Dropped(error),
            )),
            Err(error) => Err(error),
        }
    }
}

// Opens the file of this name for what is cut off, and syncs it with its folder.
fn dropped_file<F: Files<File = File>>(
    rt: &F,
    alloc: Global,
    name: &str,
) -> Result<File, OpenError> {
    is_of_bytes(rt, name)?;
    let dropped = writable(rt, name)?;
    sync_with_folder(rt, alloc, name, &dropped)?;
    Ok(dropped)
}

/// Opens and locks the file of this name, and reads it whole.
pub(crate) fn locked<F: Files<File = File>>(
    rt: &F,
    alloc: Global,
    path: &str,
) -> Result<(File, Vec<u8>), OpenError> {
    is_of_bytes(rt, path)?;
    let file = writable(rt, path)?;
    file.try_lock()?;
    let bytes = read_whole(alloc, &file)?;
    Ok((file, bytes))
}

// Refuses what isn't a file of bytes, if there is anything.
fn is_of_bytes<F: Files<File = File>>(rt: &F, path: &str) -> Result<(), OpenError> {
    let kind = match fs::metadata(rt, path) {
        Ok(metadata) => FileKind::of(&metadata.file_type()),
        Err(error) => match error.kind() {
            ErrorKind::NotFound => None,
            _ => return Err(OpenError::from(error)),
        },
    };
    match kind {
        Some(kind) => Err(OpenError::Kind(kind)),
        None => Ok(()),
    }
}

// Opens a file to be read and appended to, and makes it where there is none.
fn writable<F: Files<File = File>>(rt: &F, path: &str) -> Result<File, OpenError> {
    let opened = OpenOptions::new()
        .read(true)
        .append(true)
        .create(true)
        .open(rt, path);
    match opened {
        Ok(file) => Ok(file),
        Err(error) => match File::open(rt, path) {
            Err(unread) if unread.kind() != ErrorKind::NotFound => Err(OpenError::from(unread)),
            _ => Err(OpenError::Unwritten(FileFault::Io(error))),
        },
    }
}

// All that a file has, which is as long as it says.
fn read_whole(alloc: Global, file: &File) -> Result<Vec<u8>, OpenError> {
    let length = file.metadata()?.len();
    let mut bytes = Vec::new(alloc);
    file.take(length.saturating_add(1)).read_to_end(&mut bytes)?;
    if bytes.len() as u64 > length {
        return Err(OpenError::Unread(FileFault::Longer));
    }
    Ok(bytes)
}

/// Syncs a file with its folder.
pub(crate) fn sync_with_folder<F: Files<File = File>>(
    rt: &F,
    alloc: Global,
    path: &str,
    file: &File,
) -> Result<(), OpenError> {
    let synced = file
        .sync_all()
        .and_then(|()| folder_of(rt, alloc, path)?.sync_all());
    synced.map_err(|error| OpenError::Unwritten(FileFault::Io(error)))
}

/// The folder in which a file lies that there is.
pub(crate) fn folder_of<F: Files<File = File>>(
    rt: &F,
    alloc: Global,
    path: &str,
) -> io::Result<File> {
    let mut folder = fs::canonicalize(&(rt, alloc), path)?;
    folder.pop();
    File::open(rt, folder.as_str())
}
