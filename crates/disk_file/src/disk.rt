// A file of the operating system.

ghost use Rattle.std.specs.Prelude.{◌≡◌, ◌+◌, ◌++◌, length, IfOk, OnOk};
ghost use Rattle.frame_file.specs.Device.{Only, HasCause};
ghost use Rattle.disk_file.specs.Disk.{disk_bytes, left_of, kept_of};
ghost use Rattle.disk_file.specs.Events.{written_by, MayLeave, LeftSince, fault_count, counted, alone};

use crate::calls::Calls;
use crate::fault::FileFault;
use crate::record::Record;
use frame_file::{Device, DeviceError};
use std::fs::{self, File};
use std::io::{self, ErrorKind, Write};
use std::os::unix::fs::MetadataExt;
use std::rt::Files;

// Kinds of calls.
const OPENED: u64 = 0;

const APPENDED: u64 = 1;

const CUT: u64 = 2;

const SYNCED: u64 = 3;

const KEPT: u64 = 4;

const UNSYNCED: u64 = 5;

/// An open file of the operating system. Each method makes the call of the system that it notes; what a
/// crash leaves behind these calls is what a device says. Behind each sync it is looked at whether the file
/// still has a name, and the length of what was read and written: else the sync has failed. Of the bytes it
/// knows only how many they are.
#[derive(Drop)]
pub struct DiskFile {
    file: File,
    calls: Calls,
    // where what is cut off is kept, how many bytes that are, and the calls of that file
    dropped: Option<File>,
    cut_off: usize,
    kept: Record,
    syncs: u64,
    // why the last call failed that did
    failure: Option<FileFault>,
}

// Writes behind the last byte of a file of this length, and says how long it is then. No file is longer than a
// machine counts.
fn write_behind(file: &mut File, len: u64, bytes: &[u8]) -> io::Result<u64>
    ensures { IfOk result (λ new. new ≡ len + length bytes.now) }
{
    let Some(new) = len.checked_add(bytes.len() as u64) else {
        return Err(io::Error::from(ErrorKind::FileTooLarge));
    };
    file.write_all(bytes)?;
    Ok(new)
}

// Writes behind the last byte, and syncs; what was written of bytes that don't fit is cut off again.
fn write_synced(file: &mut File, bytes: &[u8]) -> io::Result<()> {
    let len = file.metadata()?.len();
    if let Err(error) = file.write_all(bytes) {
        let _ = file.set_len(len);
        return Err(error);
    }
    file.sync_data()
}

impl DiskFile {
    /// Of a file that was read as these bytes, and synced.
    pub(crate) fn settled(file: File, bytes: &[u8]) -> DiskFile
        ensures bytes { disk_bytes result ≡ bytes.now }
        ensures settled { Only (disk_bytes result) (left_of result) }
    {
        let mut calls = Calls::new();
        calls.note(&[OPENED, 0, 0], bytes, bytes.len() as u64);
        DiskFile {
            file,
            calls,
            dropped: None,
            cut_off: 0,
            kept: Record::new(),
            syncs: 0,
            failure: None,
        }
    }

    /// From now on, what is cut off is kept behind the last byte of this file.
    pub(crate) fn keep_in(&mut self, dropped: File)
        ensures bytes { disk_bytes self.new ≡ disk_bytes self.old }
        ensures left { Only (disk_bytes self.old) (left_of self.old) → Only (disk_bytes self.new) (left_of self.new) }
    {
        self.dropped = Some(dropped);
    }

    // Keeps what is to be cut off.
    fn keep(&mut self, end: &[u8]) -> Result<(), DeviceError>
        ensures kept { OnOk result (kept_of self.new ≡ kept_of self.old ++ end.now) }
        ensures calls { self.new.calls ≡ self.old.calls }
        ensures cause { HasCause (fault_count self.old.kept.events) (fault_count self.new.kept.events) result }
    {
        if end.is_empty() {
            return Ok(());
        }
        let Some(dropped) = &mut self.dropped else {
            return Err(DeviceError::Unkept);
        };
        if let Err(error) = write_synced(dropped, end) {
            self.kept.note(&[UNSYNCED, 1, 0], &[]);
            self.failure = Some(FileFault::Dropped(error));
            return Err(DeviceError::Failed);
        }
        self.kept.note(&[KEPT, 0, 0], end);
        self.cut_off = self.cut_off.saturating_add(end.len());
        Ok(())
    }

    /// From now on, the syncs of the file whose place it is to take are counted as its own.
    pub(crate) fn count_from(&mut self, old: &DiskFile)
        ensures bytes { disk_bytes self.new ≡ disk_bytes self.old }
        ensures left { Only (disk_bytes self.old) (left_of self.old) → Only (disk_bytes self.new) (left_of self.new) }
    {
        self.syncs = self.syncs.saturating_add(old.syncs);
    }

    /// How often it was synced since it was opened, with the files whose places it and they took.
    pub fn syncs(&self) -> u64 {
        self.syncs
    }

    /// The open file.
    pub(crate) fn file(&self) -> &File {
        &self.file
    }

    /// How many bytes were cut off since it was opened.
    pub fn cut_off(&self) -> usize {
        self.cut_off
    }

    /// Why the last call of the device that failed has: none did, or of want of memory and of a place for
    /// what is cut off the device's own fault says it.
    pub fn failure(&self) -> Option<FileFault>
        ensures { result ≡ self.now.failure }
    {
        self.failure
    }

    /// Whether this name is still the file's: `Gone` where there is none of this name, or another.
    pub fn check_name<F: Files<File = File>>(&self, rt: &F, path: &str) -> Result<(), FileFault> {
        let own = self.file.metadata()?;
        match fs::metadata(rt, path) {
            Ok(named) if (named.dev(), named.ino()) == (own.dev(), own.ino()) => Ok(()),
            Ok(_) => Err(FileFault::Gone),
            Err(error) if error.kind() == ErrorKind::NotFound => Err(FileFault::Gone),
            Err(error) => Err(FileFault::Io(error)),
        }
    }

    /// How many bytes it has: those that were read and those that were appended since.
    pub fn len(&self) -> u64
        ensures { result ≡ length (disk_bytes self.now) }
    {
        self.calls.len()
    }

    // Syncs the file, and looks whether it is there as it was written.
    fn put_on_disk(&self) -> Result<(), FileFault> {
        self.file.sync_data()?;
        let known = self.file.metadata()?;
        if known.nlink() == 0 {
            return Err(FileFault::Gone);
        }
        if known.len() != self.len() {
            return Err(FileFault::Resized);
        }
        Ok(())
    }
}

impl Device for DiskFile {
    ghost seen = { λ d. written_by d.calls };

    ghost may_leave = { λ d c. MayLeave d.calls c };

    ghost moment = { λ d. length d.calls };

    ghost left_since = { λ d t c. LeftSince d.calls t c };

    ghost faults = { λ d. fault_count d.calls + fault_count d.kept.events };

    ghost kept = { λ d. kept_of d };

    ghost counts_now = { λ d t c le now. counted d.calls t c now };

    ghost only_now = { λ d c left. alone d.calls c left };

    fn append(&mut self, bytes: &[u8]) -> Result<(), DeviceError> {
        let len = self.calls.len();
        match write_behind(&mut self.file, len, bytes) {
            Ok(new) => {
                self.calls.note(&[APPENDED, 0, 0], bytes, new);
                Ok(())
            }
            Err(error) => {
                // Of bytes that don't fit, what was written goes again.
                let _ = self.file.set_len(len);
                self.calls.note(&[APPENDED, 1, 0], bytes, len);
                self.failure = Some(FileFault::Io(error));
                Err(DeviceError::Failed)
            }
        }
    }

    fn cut(&mut self, len: usize, end: &[u8]) -> Result<(), DeviceError> {
        self.keep(end)?;
        if let Err(error) = self.file.set_len(len as u64) {
            let before = self.calls.len();
            self.calls.note(&[CUT, 1, len as u64], &[], before);
            self.failure = Some(FileFault::Io(error));
            return Err(DeviceError::Failed);
        }
        self.calls.note(&[CUT, 0, len as u64], &[], len as u64);
        Ok(())
    }

    fn sync(&mut self) -> Result<(), DeviceError> {
        let len = self.calls.len();
        self.syncs = self.syncs.saturating_add(1);
        if let Err(fault) = self.put_on_disk() {
            self.calls.note(&[UNSYNCED, 1, 0], &[], len);
            self.failure = Some(fault);
            return Err(DeviceError::Failed);
        }
        self.calls.note(&[SYNCED, 0, 0], &[], len);
        Ok(())
    }
}
