// A file that is written anew, whole, and takes the place of the one before.

use std::alloc::{AllocError, Global};
use std::fs::{self, File, Metadata};
use std::io::{self, ErrorKind, Read, Stderr, Write};
use std::os::unix::fs::MetadataExt;
use std::rt::Files;
use std::sync::atomic::{AtomicBool, Ordering};

// The bytes of the longest beginning of a file.
const LONGEST: usize = 128;

/// What such a file has.
#[derive(Clone, Copy, Debug, PartialEq, Eq)]
pub enum Kind {
    Metrics,
    Trace,
}

impl Kind {
    /// With what each file of its kind begins.
    pub fn beginning(self) -> &'static str {
        match self {
            Kind::Metrics => "# HELP procd_calls_wanted ",
            Kind::Trace =>
                "{\"traceEvents\":[{\"name\":\"process_name\",\"ph\":\"M\",\"pid\":1,\"args\":{\"name\":\"procd run\"}}",
        }
    }
}

/// Why it isn't written.
#[derive(Clone, Copy, Debug)]
enum OutputFault {
    /// What has its name is neither a file nor a link to one.
    NoFile,
    /// It is the file that standard output or standard error writes to.
    Standard,
    /// It is a file, and not of its kind.
    Foreign,
    /// What has the name of the next one, with `.new` behind it, is no draft of its kind.
    ForeignDraft,
    System(io::Error),
    Memory,
}

impl From<io::Error> for OutputFault {
    fn from(error: io::Error) -> OutputFault {
        OutputFault::System(error)
    }
}

impl From<AllocError> for OutputFault {
    fn from(_: AllocError) -> OutputFault {
        OutputFault::Memory
    }
}

/// A path, under which there is always a whole file or none; where it is a link, it stays one, and the file that it leads to
/// is written. What isn't of its kind is left alone there, and under the name with `.new` behind it, where the next one is
/// made.
#[derive(Drop)]
pub struct OutputFile {
    path: String,
    kind: Kind,
    error: Stderr,
    has_failed: AtomicBool,
}

/// A file that is being written, its name, and that of the file whose place it is to take.
#[derive(Drop)]
pub struct Draft {
    target: String,
    name: String,
    file: File,
}

// Whether a file is empty, or begins as one of this kind.
fn is_of_kind<F: Files<File = File>>(rt: &F, path: &str, kind: Kind) -> io::Result<bool> {
    let wanted = kind.beginning().as_bytes();
    let mut found = [0u8; LONGEST];
    let count = File::open(rt, path)?.read(&mut found)?;
    Ok(count == 0 || found.starts_with(wanted))
}

// Whether standard output or standard error writes to this file.
fn is_standard<F: Files<File = File>>(rt: &F, known: &Metadata) -> bool {
    ["/dev/stdout", "/dev/stderr"]
        .iter()
        .any(|name| match fs::metadata(rt, *name) {
            Ok(standard) => (standard.dev(), standard.ino()) == (known.dev(), known.ino()),
            Err(_) => false,
        })
}

// The file that a path leads to, which is to be written: the path itself where nothing has that name.
fn target_of<F: Files<File = File>>(
    rt: &F,
    alloc: Global,
    path: &str,
    kind: Kind,
) -> Result<String, OutputFault> {
    let known = match fs::metadata(rt, path) {
        Ok(known) => known,
        Err(error) if error.kind() == ErrorKind::NotFound && !is_link(rt, path) => return Ok(
            String::from_str(alloc, path)?,
        ),
        Err(error) => return Err(OutputFault::System(error)),
    };
    if !known.is_file() {
        return Err(OutputFault::NoFile);
    }
    if is_standard(rt, &known) {
        return Err(OutputFault::Standard);
    }
    if !is_of_kind(rt, path, kind)? {
        return Err(OutputFault::Foreign);
    }
    if !is_link(rt, path) {
        return Ok(String::from_str(alloc, path)?);
    }
    let target = fs::canonicalize(&(rt, alloc), path)?;
    Ok(String::from_str(alloc, target.as_str())?)
}

// Whether this is the name of a link.
fn is_link<F: Files<File = File>>(rt: &F, path: &str) -> bool {
    fs::symlink_metadata(rt, path).is_ok_and(|known| known.is_symlink())
}

// Makes a file of this name, in the place of a draft of this kind that was left there.
fn made_new<F: Files<File = File>>(rt: &F, name: &str, kind: Kind) -> Result<File, OutputFault> {
    match fs::symlink_metadata(rt, name) {
        Ok(known) => {
            if !known.is_file() || !is_of_kind(rt, name, kind)? {
                return Err(OutputFault::ForeignDraft);
            }
            fs::remove_file(rt, name)?;
        }
        Err(error) if error.kind() == ErrorKind::NotFound => {}
        Err(error) => return Err(OutputFault::System(error)),
    }
    Ok(File::create_new(rt, name)?)
}

impl OutputFile {
    /// The file of this path. Standard error is told once why it isn't written.
    pub fn new(
        alloc: Global,
        path: &str,
        kind: Kind,
        error: Stderr,
    ) -> Result<OutputFile, AllocError> {
        Ok(OutputFile {
            path: String::from_str(alloc, path)?,
            kind,
            error,
            has_failed: AtomicBool::new(false),
        })
    }

    // Begins the next one.
    fn try_begin<F: Files<File = File>>(
        &self,
        rt: &F,
        alloc: Global,
    ) -> Result<Draft, OutputFault> {
        let target = target_of(rt, alloc, self.path.as_str(), self.kind)?;
        let name = format!(in alloc; "{}.new", target.as_str())?;
        let file = made_new(rt, name.as_str(), self.kind)?;
        Ok(Draft { target, name, file })
    }

    // Says why it isn't written, the first time.
    fn tell(&self, fault: OutputFault) {
        if self.has_failed.swap(true, Ordering::SeqCst) {
            return;
        }
        let mut error = self.error;
        let path = self.path.as_str();
        let kind = match self.kind {
            Kind::Metrics => "metrics",
            Kind::Trace => "trace",
        };
        let _ = match fault {
            OutputFault::NoFile => write!(error, "cannot write {path}: it is no file\n"),
            OutputFault::Standard => write!(
                error,
                "cannot write {path}: standard output or error goes there\n"
            ),
            OutputFault::Foreign => write!(error, "cannot write {path}: it isn't a run's {kind}\n"),
            OutputFault::ForeignDraft => write!(
                error,
                "cannot write {path}.new: it isn't a run's {kind}\n"
            ),
            OutputFault::System(why) => write!(error, "cannot write {path}: {why}\n"),
            OutputFault::Memory => write!(error, "cannot write {path}: no memory\n"),
        };
    }

    /// Begins the next one; none where it can't be.
    pub fn begin<F: Files<File = File>>(&self, rt: &F, alloc: Global) -> Option<Draft> {
        match self.try_begin(rt, alloc) {
            Ok(draft) => Some(draft),
            Err(fault) => {
                self.tell(fault);
                None
            }
        }
    }

    /// Says whether it can be written, before there is something to write.
    pub fn check<F: Files<File = File>>(&self, rt: &F, alloc: Global) {
        if let Err(fault) = target_of(rt, alloc, self.path.as_str(), self.kind) {
            self.tell(fault);
        }
    }

    /// Says that there is no memory for what it is to have.
    pub fn tell_no_memory(&self) {
        self.tell(OutputFault::Memory);
    }

    /// Puts it in the place of the one before, where all of it was written, and else takes it away.
    pub fn end<F: Files<File = File>>(&self, rt: &F, draft: Draft, written: io::Result<()>) {
        let Draft { target, name, file } = draft;
        drop(file);
        if let Err(error) = written.and_then(|()| fs::rename(rt, name.as_str(), target.as_str())) {
            let _ = fs::remove_file(rt, name.as_str());
            self.tell(OutputFault::System(error));
        }
    }
}

impl Draft {
    /// Adds text.
    pub fn write(&mut self, text: &str) -> io::Result<()> {
        self.file.write_all(text.as_bytes())
    }
}
