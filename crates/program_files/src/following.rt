//! `log --follow`: the events of a log's file, and those that come.

ghost use Rattle.std.specs.Prelude.{◌++◌, ℕ, List, IfOk, IfErr, string_bytes};
ghost use Rattle.log_part.specs.declared.part.Part.{Part as PartValue};
ghost use Rattle.log_command.specs.Following.{HasPrinted};
ghost use Rattle.program_files.specs.Streams.{stream};
ghost use Rattle.program_files.specs.Following.{TellsSeams, EndsBehind};
ghost use Rattle.program_files.specs.Joining.Followed.{IsReadEnd};

use crate::reading::{ReadFault, Reason, most_of, read_all};
use crate::writing::tell;
use log_command::following::{Begun, Followed, begin, seam_line, unread};
use log_part::Part;
use report_texts::output::Output;
use std::alloc::{AllocError, Global};
use std::fs::{self, File, OpenFile};
use std::io::{self, Seek, SeekFrom, Write};
use std::os::unix::fs::MetadataExt;
use std::rt::Files;
use std::sync::Wait;
use std::thread;
use std::time::{Clock, Duration};

/// How long the file isn't looked at, in milliseconds.
const PAUSE: u64 = 200;

/// Why a log isn't followed any further.
#[derive(Drop)]
pub enum End {
    /// What stands in its file is no log, or no longer one.
    Refused(Output),
    /// Its file can't be read.
    Unread(Reason),
    /// Standard output can't be written.
    Unwritten(io::Error),
    Memory,
}

impl From<AllocError> for End {
    ghost use Rattle.std.specs.Prelude.{◌≡◌};
    ghost use Rattle.program_files.specs.declared.following.End.TheVariants.{Memory};

    ghost from_gives = { λ _ e. e ≡ Memory };

    fn from(_: AllocError) -> End {
        End::Memory
    }
}

// The file that had the log's name when it was opened, and what was read of it.
#[derive(Drop)]
struct Source {
    file: File,
    followed: Followed,
    /// Whether the end that isn't a whole frame is one that a log may have.
    judged: bool,
}

// Why a file can't be read on.
fn unread_end(error: io::Error) -> End
    ensures { IsReadEnd result }
{
    End::Unread(Reason::System(error))
}

// What a file has from a place on.
fn read_from(alloc: Global, file: &mut File, place: usize) -> Result<Vec<u8>, End>
    ensures { IfErr result IsReadEnd }
{
    if let Err(error) = file.seek(SeekFrom::Start(place as u64)) {
        return Err(unread_end(error));
    }
    let most = most_of(file);
    match read_all(alloc, file, most) {
        Ok(bytes) => Ok(bytes),
        Err(ReadFault::Unread(reason)) => Err(End::Unread(reason)),
        Err(ReadFault::Memory) => Err(End::Memory),
    }
}

// Opens the file of this name, and reads it.
fn opened<F: Files<File = File>>(rt: &F, alloc: Global, path: &str) -> Result<(File, Vec<u8>), End>
    ensures { IfErr result IsReadEnd }
{
    match File::open(rt, path) {
        Ok(mut file) => {
            let bytes = read_from(alloc, &mut file, 0)?;
            Ok((file, bytes))
        }
        Err(error) => Err(unread_end(error)),
    }
}

// Whether the name is another file's by now, or the file has lost what was read of it.
fn is_replaced<F: Files<File = File>>(rt: &F, path: &str, source: &Source) -> io::Result<bool> {
    let named = fs::metadata(rt, path)?;
    let own = source.file.metadata()?;
    let is_named = (named.dev(), named.ino()) == (own.dev(), own.ino());
    Ok(!is_named || own.len() < source.followed.bytes() as u64)
}

// Begins to follow the log of this name; the lines of its events.
fn begun<F: Files<File = File>>(
    rt: &F,
    alloc: Global,
    path: &str,
    part: Part,
) -> Result<(Source, String), End>
    ensures ok { IfOk result (λ r. (file : List ℕ) × HasPrinted part file r.0.followed (string_bytes r.1)) }
    ensures end { IfErr result IsReadEnd }
{
    let (file, bytes) = opened(rt, alloc, path)?;
    match begin(alloc, &bytes, part)? {
        Begun::Followed(followed, lines) => {
            let source = Source {
                file,
                followed,
                judged: true,
            };
            Ok((source, lines))
        }
        Begun::Unread(report) => Err(End::Refused(report)),
    }
}

// Follows the log that has the name now; the lines of its events. What is missing between both logs is told.
fn renew<F: Files<File = File>, E: Write>(
    rt: &F,
    alloc: Global,
    path: &str,
    source: &mut Source,
    err: &mut E,
) -> Result<String, End>
    ensures ok { (part : PartValue) (file printed : List ℕ) → HasPrinted part file source.old.followed printed
        → IfOk result (λ lines. (now : List ℕ) × HasPrinted part now source.new.followed (printed ++ string_bytes lines)) }
    ensures end { IfErr result IsReadEnd }
    ensures told { TellsSeams (stream (E.contents err.old) (E.contents err.new)) }
{
    let (file, bytes) = opened(rt, alloc, path)?;
    match source.followed.anew(alloc, &bytes)? {
        Begun::Followed(followed, lines) => {
            let missing = seam_line(alloc, source.followed.seam(&followed))?;
            let _ = tell(err, missing.as_str());
            *source = Source {
                file,
                followed,
                judged: true,
            };
            Ok(lines)
        }
        Begun::Unread(report) => Err(End::Refused(report)),
    }
}

// Refuses a file that is no longer read as a log.
fn judge(alloc: Global, file: &mut File) -> Result<(), End>
    ensures { IfErr result IsReadEnd }
{
    let bytes = read_from(alloc, file, 0)?;
    match unread(alloc, &bytes)? {
        Some(report) => Err(End::Refused(report)),
        None => Ok(()),
    }
}

// Reads the file on; the lines of the events that came. An end that isn't a whole frame is judged once it has been the
// same for a pause.
fn read_on(alloc: Global, source: &mut Source) -> Result<String, End>
    ensures ok { (part : PartValue) (file printed : List ℕ) → HasPrinted part file source.old.followed printed
        → IfOk result (λ lines. (now : List ℕ) × HasPrinted part now source.new.followed (printed ++ string_bytes lines)) }
    ensures end { IfErr result IsReadEnd }
{
    let waiting = source.followed.unfinished();
    let bytes = read_from(alloc, &mut source.file, source.followed.bytes())?;
    let lines = source.followed.read_on(alloc, &bytes)?;
    let unfinished = source.followed.unfinished();
    if unfinished != waiting || !lines.is_empty() {
        source.judged = unfinished == 0;
    } else if !source.judged {
        source.judged = true;
        judge(alloc, &mut source.file)?;
    }
    Ok(lines)
}

// Looks at the file once more; the lines of the events that came. Where its name is another's by now, it is read to its end
// before that.
fn look<F: Files<File = File>, E: Write>(
    rt: &F,
    alloc: Global,
    path: &str,
    source: &mut Source,
    err: &mut E,
) -> Result<String, End>
    ensures ok { (part : PartValue) (file printed : List ℕ) → HasPrinted part file source.old.followed printed
        → IfOk result (λ lines. (now : List ℕ) × HasPrinted part now source.new.followed (printed ++ string_bytes lines)) }
    ensures end { IfErr result IsReadEnd }
    ensures told { TellsSeams (stream (E.contents err.old) (E.contents err.new)) }
{
    let replaced = is_replaced(rt, path, source);
    let lines = read_on(alloc, source)?;
    if !lines.is_empty() {
        return Ok(lines);
    }
    match replaced {
        Ok(true) => renew(rt, alloc, path, source, err),
        Ok(false) => Ok(lines),
        Err(error) => Err(unread_end(error)),
    }
}

/// Writes a line for each event of a part of a log's file, and for each further one as soon as it is found there, also
/// where the log begins anew in a file that takes this one's place. Ends where it can't go on.
pub fn follow<F: Files<File = File> + Clock + Wait, W: Write, E: Write>(
    rt: &F,
    alloc: Global,
    path: &str,
    part: Part,
    out: &mut W,
    err: &mut E,
) -> End
    ensures { EndsBehind part (stream (W.contents out.old) (W.contents out.new))
        (stream (E.contents err.old) (E.contents err.new)) result }
{
    let (mut source, mut lines) = match begun(rt, alloc, path, part) {
        Ok(begun) => begun,
        Err(end) => return end,
    };
    'looks: for _ in rt.forever() {
        if let Err(error) = tell(out, lines.as_str()) {
            return End::Unwritten(error);
        }
        thread::sleep(rt, Duration::from_millis(PAUSE));
        lines = match look(rt, alloc, path, &mut source, err) {
            Ok(lines) => lines,
            Err(end) => return end,
        };
    }
    unreachable!()
}
