// How a file takes the place of another.

ghost use Rattle.std.specs.Prelude.{◌≡◌, [], IfOk};
ghost use Rattle.frame_file.specs.Device.{Only};
ghost use Rattle.disk_file.specs.Disk.{disk_bytes, left_of};

use crate::disk::DiskFile;
use crate::fault::FileFault;
use crate::opening::{OpenError, folder_of, locked, sync_with_folder};
use std::alloc::Global;
use std::fs::{self, File};
use std::io::{self, ErrorKind};
use std::os::unix::fs::{MetadataExt, fchown};
use std::rt::Files;

/// Why no file is opened that is to take another's place.
#[derive(Clone, Copy, Debug)]
pub enum BesideError {
    Open(OpenError),
    /// What has its name is a link, or has another name too: no replacement that was cut short.
    Foreign,
}

/// Why a file hasn't taken another's place.
#[derive(Clone, Copy, Debug)]
pub enum PlaceError {
    /// Each has the name that it had, and why: `Gone` where one of them had lost its own.
    Kept(FileFault),
    /// A crash leaves the name to the one or to the other: it has to be opened again.
    Unsynced(io::Error),
}

impl From<OpenError> for BesideError {
    fn from(error: OpenError) -> BesideError {
        BesideError::Open(error)
    }
}

impl From<io::Error> for BesideError {
    fn from(error: io::Error) -> BesideError {
        BesideError::Open(OpenError::from(error))
    }
}

impl From<FileFault> for PlaceError {
    fn from(fault: FileFault) -> PlaceError {
        PlaceError::Kept(fault)
    }
}

impl From<io::Error> for PlaceError {
    fn from(error: io::Error) -> PlaceError {
        PlaceError::Kept(FileFault::Io(error))
    }
}

/// The file that is to take another's place, as it was found: locked, and not changed. It lies beside that
/// one, under its name with `.new` behind it; where the name is a link, beside the file that it leads to.
#[derive(Drop)]
pub struct Beside {
    file: File,
}

impl Beside {
    /// Opens the file beside the one of this name, which there has to be, and makes it where there is none; and
    /// what stands in it.
    pub fn open<F: Files<File = File>>(
        rt: &F,
        alloc: Global,
        path: &str,
    ) -> Result<(Beside, Vec<u8>), BesideError> {
        let name = name_beside(rt, alloc, path)?;
        if !is_alone(rt, name.as_str())? {
            return Err(BesideError::Foreign);
        }
        let (file, bytes) = locked(rt, alloc, name.as_str())?;
        if !is_named(rt, &file, name.as_str())? {
            return Err(BesideError::Foreign);
        }
        Ok((Beside { file }, bytes))
    }

    /// Throws away what stands in it, gives it the permissions of the file whose place it is to take, and that
    /// one's owner where the system allows it, and syncs it with its folder.
    pub fn emptied<F: Files<File = File>>(
        self,
        rt: &F,
        alloc: Global,
        path: &str,
        old: &DiskFile,
    ) -> Result<DiskFile, OpenError>
        ensures empty { IfOk result (λ d. disk_bytes d ≡ []) }
        ensures settled { IfOk result (λ d. Only (disk_bytes d) (left_of d)) }
    {
        let Beside { file } = self;
        let name = name_beside(rt, alloc, path)?;
        let changed = file.set_len(0).and_then(|()| take_owner(&file, old.file()));
        changed.map_err(|error| OpenError::Unwritten(FileFault::Io(error)))?;
        sync_with_folder(rt, alloc, name.as_str(), &file)?;
        let mut emptied = DiskFile::settled(file, &[]);
        emptied.count_from(old);
        Ok(emptied)
    }
}

impl DiskFile {
    /// Puts this file, which was opened beside the one of this name, in its place, if each still has its own
    /// name, and syncs their folder. A crash leaves the one or the other there. The old one is open, and so
    /// locked, until then: who waits for its lock finds that the name is another file's.
    pub fn take_place<F: Files<File = File>>(
        &self,
        rt: &F,
        alloc: Global,
        path: &str,
        old: &DiskFile,
    ) -> Result<(), PlaceError>
        // What it has is on the disk.
        requires { Only (disk_bytes self.now) (left_of self.now) }
    {
        let target = fs::canonicalize(&(rt, alloc), path)?;
        let name = name_beside(rt, alloc, path)?;
        old.check_name(rt, target.as_str())?;
        if !is_named(rt, self.file(), name.as_str())? {
            return Err(PlaceError::Kept(FileFault::Gone));
        }
        if let Err(error) = fs::rename(rt, name.as_str(), target.as_str()) {
            return Err(match old.check_name(rt, target.as_str()) {
                Ok(()) => PlaceError::Kept(FileFault::Io(error)),
                Err(_) => PlaceError::Unsynced(error),
            });
        }
        folder_of(rt, alloc, target.as_str())
            .and_then(|folder| folder.sync_all())
            .map_err(PlaceError::Unsynced)
    }

    /// Takes the name beside the one of this path from this file again, if it still has it: what was written to
    /// it goes with it.
    pub fn give_up_place<F: Files<File = File>>(&self, rt: &F, alloc: Global, path: &str) {
        let Ok(name) = name_beside(rt, alloc, path) else {
            return;
        };
        if let Ok(true) = is_named(rt, self.file(), name.as_str()) {
            let _ = fs::remove_file(rt, name.as_str());
        }
    }
}

// The name beside the file that this name leads to.
fn name_beside<F: Files<File = File>>(rt: &F, alloc: Global, path: &str) -> io::Result<String> {
    let target = fs::canonicalize(&(rt, alloc), path)?;
    let target = target.as_str();
    Ok(format!(in alloc; "{target}.new")?)
}

// Whether what has this name, if anything, has no other, and is no link.
fn is_alone<F: Files<File = File>>(rt: &F, name: &str) -> io::Result<bool> {
    match fs::symlink_metadata(rt, name) {
        Ok(known) => Ok(!known.is_symlink() && (known.is_dir() || known.nlink() == 1)),
        Err(error) if error.kind() == ErrorKind::NotFound => Ok(true),
        Err(error) => Err(error),
    }
}

// Whether this name, which is no link, is the file's.
fn is_named<F: Files<File = File>>(rt: &F, file: &File, name: &str) -> io::Result<bool> {
    let own = file.metadata()?;
    match fs::symlink_metadata(rt, name) {
        Ok(named) => Ok((named.dev(), named.ino()) == (own.dev(), own.ino())),
        Err(error) if error.kind() == ErrorKind::NotFound => Ok(false),
        Err(error) => Err(error),
    }
}

// Gives a file the owner of another, where that is allowed, and its permissions.
fn take_owner(file: &File, old: &File) -> io::Result<()> {
    let known = old.metadata()?;
    let _ = fchown(file, None, Some(known.gid()));
    let _ = fchown(file, Some(known.uid()), None);
    file.set_permissions(known.permissions())
}
