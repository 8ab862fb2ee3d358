ghost use Rattle.std.specs.Prelude.{◌≡◌, ◌+◌, ◌<◌, ◌≤◌, [], ◌∷◌, ◌++◌, length, IfOk, true, false};
ghost use Rattle.djq_io.specs.Faults.{Counted};
ghost use Rattle.djq_disk.specs.History.{WhereHistoryTold, OpensPath, Opens, Sizes, DiskReads, FitsRead, DiskWrites};
ghost use Rattle.djq_disk.specs.History.{Syncs, BeginsNext, WritesNext, SyncsNext, Replaces};
ghost use Rattle.djq_disk.specs.DiskFaults.{CountsOpen, CountsLen, CountsDiskRead, CountsDid};
ghost use Rattle.djq_disk.specs.declared.call_log.DiskCall.TheVariants.{Opening, Measuring, Reading, Writing, Syncing};
ghost use Rattle.djq_disk.specs.declared.call_log.DiskCall.TheVariants.{BeginningNext, WritingNext, SyncingNext};
ghost use Rattle.djq_disk.specs.declared.call_log.DiskCall.TheVariants.{Replacing};
ghost use Rattle.djq_system.specs.FileCalls.{history_of_calls, given_by_read};

use crate::disk_notes::{
    note_begin_next, note_len, note_open, note_read, note_replace, note_sync, note_sync_next,
    note_write, note_write_next,
};
use crate::notes::Notes;
use crate::oracle::Oracle;
use crate::size_limit::{passes_limit, past_limit};
use djq_disk::{Disk, DiskDid, DiskLen, DiskOpen, DiskRead};
use std::fs::{self, Files, OpenOptions, Permissions, TryLockError};
use std::io::{self, Eprint, ErrorKind};
use std::marker::{Model, PhantomData};
use std::os::unix::fs::{FileExt, MetadataExt, OpenOptionsExt, PermissionsExt, fchown};
use std::path::{Path, PathBuf};

/// Past this place no file has a byte.
const LAST_PLACE: u64 = 9_223_372_036_854_775_807;

/// How many bytes a read gives at most.
const READ_BYTES: usize = 1 << 20;

/// Who may read and write a file that is made: its owner.
const MODE: u32 = 0o600;

/// A file of the operating system as a disk, seen as its calls with their answers, whether it is open and its count
/// of faults. Its history is that of a file of which such calls are answered so, and which beside that does what the
/// oracle says.
///
/// The next file is made beside the file, under its name with `.new` after it, and is renamed to the file's name when
/// it replaces it.
///
/// For each call that fails it prints to standard error which call it was, the path as it was given, and the
/// system's reason.
#[derive(Drop)]
pub struct FileDisk<R: Files<File = fs::File> + AllocGlobal + Eprint + Drop, O: Oracle> {
    rt: R,
    oracle: PhantomData<O>,
    file: Option<fs::File>,
    /// The next file, once it is begun.
    next: Option<fs::File>,
    /// The file that was replaced last. It is locked until the process ends, so that no other process that opened
    /// it before uses it as the log.
    replaced: Option<fs::File>,
    /// The paths of the file that is open and of the next one.
    place: Option<Place>,
    /// The path that was opened last, if there was memory for it.
    path: Option<String>,
    faults: u64,
    notes: Notes,
}

impl<R: Files<File = fs::File> + AllocGlobal + Eprint + Drop, O: Oracle> Model for FileDisk<R, O> {
    ghost use Rattle.std.specs.Prelude.{is_some, map};
    ghost use Rattle.djq_system.specs.DiskNotes.{file_call_noted};
    ghost use Rattle.djq_system.specs.FileDisk.{FileSeen};

    ghost Value = { FileSeen };

    ghost view = { λ d. record {
      calls = map file_call_noted d.notes.calls;
      is_open = is_some d.file;
      faults = d.faults;
    } };
}

/// The path of a file, through symbolic links, and that of the next one beside it.
#[derive(Drop)]
struct Place {
    file: PathBuf,
    next: PathBuf,
}

/// What was to be done that failed, as it is printed, and why.
#[derive(Drop)]
struct Failure {
    call: &'static str,
    error: io::Error,
}

/// What the system did, with what was to be done if it failed.
fn during<T>(call: &'static str, answer: io::Result<T>) -> Result<T, Failure> {
    answer.map_err(|error| Failure { call, error })
}

/// Opens the file at the path for this process alone, and creates it if it is absent.
fn open_alone<R: Files<File = fs::File> + AllocGlobal>(
    rt: &R,
    path: &str,
) -> Result<(fs::File, Place), Failure> {
    let file = during("opening the log", open_or_make(rt, path))?;
    let place = during("opening the log", place_of(rt, path))?;
    let name = place.file.as_path();
    during("locking the log", lock(&file))?;
    during("locking the log", check_name(rt, &file, name))?;
    during("syncing the folder of the log", sync_folder(rt, name))?;
    Ok((file, place))
}

/// Resolves the path of a file through symbolic links, and names the next one beside it.
fn place_of<R: Files<File = fs::File> + AllocGlobal>(rt: &R, path: &str) -> io::Result<Place> {
    let file = fs::canonicalize(rt, path)?;
    let next = file.as_path().with_added_extension(rt.alloc(), "new")?;
    Ok(Place { file, next })
}

/// Fails if the path isn't that of this file: another one may have replaced it before it was locked, or the path is
/// that of a symbolic link.
fn check_name<R: Files<File = fs::File>>(
    rt: &R,
    file: &fs::File,
    path: Path<'_>,
) -> io::Result<()> {
    let ours = file.metadata()?;
    let there = fs::symlink_metadata(rt, path)?;
    if ours.dev() == there.dev() && ours.ino() == there.ino() {
        return Ok(());
    }
    Err(io::Error::new(ErrorKind::AlreadyExists, "another file has its name"))
}

/// Opens the file at the path, and creates it for its owner alone if it is absent.
fn open_or_make<R: Files<File = fs::File>>(rt: &R, path: &str) -> io::Result<fs::File> {
    let opened = OpenOptions::new()
        .read(true)
        .write(true)
        .create(true)
        .mode(MODE)
        .open(rt, path);
    match opened {
        // A file that isn't there is made, so what isn't there is its folder.
        Err(error) if error.kind() == ErrorKind::NotFound => {
            Err(io::Error::new(ErrorKind::NotFound, "no such folder"))
        }
        opened => opened,
    }
}

/// Locks the file, unless another process has the lock.
fn lock(file: &fs::File) -> io::Result<()> {
    match file.try_lock() {
        Ok(()) => Ok(()),
        Err(TryLockError::WouldBlock) => Err(io::Error::new(
            ErrorKind::WouldBlock,
            "locked by another process",
        )),
        Err(TryLockError::Error(error)) => Err(error),
    }
}

/// Syncs the folder that has the file at the path, so that a file that was created there, or renamed, outlives a
/// crash.
fn sync_folder<R: Files<File = fs::File>>(rt: &R, path: Path<'_>) -> io::Result<()> {
    let folder = match path.parent() {
        Some(folder) => folder,
        None => Path::new("/"),
    };
    OpenOptions::new().read(true).open(rt, folder)?.sync_all()
}

/// Makes an empty file at the path, to replace the file that is given. It is locked before anything is done to it,
/// so a file there that another process has locked stays as it is.
fn make_next<R: Files<File = fs::File>>(
    rt: &R,
    path: Path<'_>,
    file: &fs::File,
) -> io::Result<fs::File> {
    let next = open_or_make(rt, path.as_str())?;
    lock(&next)?;
    check_name(rt, &next, path)?;
    next.set_len(0)?;
    share_as(&next, file)?;
    Ok(next)
}

/// Gives a file the owner, the group and the mode of another one. If the process may not change its owner or group,
/// it remains for its owner alone.
fn share_as(next: &fs::File, file: &fs::File) -> io::Result<()> {
    let wanted = file.metadata()?;
    let made = next.metadata()?;
    let is_given = wanted.uid() == made.uid() && wanted.gid() == made.gid()
        || fchown(next, Some(wanted.uid()), Some(wanted.gid())).is_ok();
    if is_given {
        next.set_permissions(wanted.permissions())
    } else {
        next.set_permissions(Permissions::from_mode(MODE))
    }
}

/// The failure of a call on a next file that wasn't begun.
fn not_begun() -> io::Error {
    io::Error::new(ErrorKind::NotFound, "it wasn't begun")
}

/// Reads some bytes, or none if the file ends before the place. A signal doesn't end it.
fn read_some(file: &fs::File, at: u64, buf: &mut [u8]) -> io::Result<usize>
    ensures { IfOk result (λ n. (n ≤ length buf.new) × (at + n ≤ 18446744073709551615)) }
{
    if LAST_PLACE < at {
        return Ok(0);
    }
    let most = buf.len().min(READ_BYTES);
    for _ in 0..u64::MAX {
        match file.read_at(&mut buf[..most], at) {
            Err(error) if error.kind() == ErrorKind::Interrupted => {}
            read => return read,
        }
    }
    Err(ErrorKind::Interrupted.into())
}

/// Writes the whole piece, unless it would pass the process's limit of a file's size.
fn write_all(file: &fs::File, at: u64, piece: &[u8]) -> io::Result<()>
    requires { at + length piece.now ≤ 18446744073709551615 }
{
    if passes_limit(at + piece.len() as u64) {
        return Err(past_limit());
    }
    file.write_all_at(piece, at)
}

impl<R: Files<File = fs::File> + AllocGlobal + Eprint + Drop, O: Oracle> FileDisk<R, O> {
    /// A disk without a file, over the runtime.
    pub fn new(rt: R) -> Self
        ensures { result ≡ record { calls = []; is_open = false; faults = 0 } }
    {
        FileDisk {
            rt,
            oracle: PhantomData,
            file: None,
            next: None,
            replaced: None,
            place: None,
            path: None,
            faults: 0,
            notes: Notes::new(),
        }
    }

    /// The file that is open.
    fn file(&self) -> &fs::File
        requires { self.now.is_open ≡ true }
    {
        match &self.file {
            Some(file) => file,
            None => unreachable!(),
        }
    }

    /// Counts a fault, and prints what failed on which file, and why.
    fn fail(&mut self, call: &str, error: io::Error)
        ensures calls { self.new.calls ≡ self.old.calls }
        ensures is_open { self.new.is_open ≡ self.old.is_open }
        ensures faults { Counted self.old.faults self.new.faults }
    {
        let path = match &self.path {
            Some(path) => path.as_str(),
            None => "",
        };
        let _ = eprintln!(self.rt; "djq: {call} {path} failed: {error}");
        self.faults = self.faults.saturating_add(1);
    }

    /// Reads from the file, and prints why if it fails.
    fn read_file(&mut self, at: u64, buf: &mut [u8]) -> DiskRead
        requires is_open { self.old.is_open ≡ true }
        requires room { 0 < length buf.old }
        ensures calls { self.new.calls ≡ self.old.calls }
        ensures is_open { self.new.is_open ≡ true }
        ensures fits { FitsRead result at buf.new }
        ensures faults { CountsDiskRead result self.old.faults self.new.faults }
    {
        match read_some(self.file(), at, buf) {
            Ok(0) => DiskRead::End,
            Ok(n) => DiskRead::Got(n),
            Err(error) => {
                self.fail("reading the log", error);
                DiskRead::Failed
            }
        }
    }

    /// Gives the next file the file's name, and lets that outlive a crash. The next file is the file then.
    fn rename_next(&mut self) -> io::Result<()>
        requires { self.old.is_open ≡ true }
        ensures { self.new ≡ self.old }
    {
        let (Some(place), Some(_)) = (&self.place, &self.next) else {
            return Err(not_begun());
        };
        fs::rename(&self.rt, place.next.as_path(), place.file.as_path())?;
        self.replaced = self.file.take();
        self.file = self.next.take();
        sync_folder(&self.rt, place.file.as_path())
    }

    /// Returns what the system did, and counts a fault if it failed.
    fn did(&mut self, call: &str, answer: io::Result<()>) -> DiskDid
        ensures calls { self.new.calls ≡ self.old.calls }
        ensures is_open { self.new.is_open ≡ self.old.is_open }
        ensures faults { CountsDid result self.old.faults self.new.faults }
    {
        match answer {
            Ok(()) => DiskDid::Done,
            Err(error) => {
                self.fail(call, error);
                DiskDid::Failed
            }
        }
    }
}

impl<R: Files<File = fs::File> + AllocGlobal + Eprint + Drop, O: Oracle> Disk for FileDisk<R, O> {
    ghost use Rattle.djq_system.specs.FileCalls.{history_of_calls};

    ghost told = { λ d. history_of_calls O.file d.calls };

    ghost is_open = { λ d. d.is_open };

    ghost faults = { λ d. d.faults };

    #[tactic(auto, using(crate::proofs::FileHistory::opens_so))]
    fn open(&mut self, path: &str) -> DiskOpen
        ensures call { self.new.calls ≡ self.old.calls ++ record { call = Opening path.now result; gave = [] } ∷ [] }
        ensures is_open { Opens result self.old.is_open self.new.is_open }
        ensures told { WhereHistoryTold (history_of_calls O.file self.old.calls)
            (history_of_calls O.file self.new.calls) (OpensPath path.now) }
        ensures faults { CountsOpen result self.old.faults self.new.faults }
    {
        self.path = String::from_str(self.rt.alloc(), path).ok();
        match open_alone(&self.rt, path) {
            Ok((file, place)) => {
                self.file = Some(file);
                self.next = None;
                self.place = Some(place);
                note_open(&mut self.notes, path, DiskOpen::Ready);
                DiskOpen::Ready
            }
            Err(Failure { call, error }) => {
                self.fail(call, error);
                note_open(&mut self.notes, path, DiskOpen::Failed);
                DiskOpen::Failed
            }
        }
    }

    #[tactic(auto, using(crate::proofs::FileHistory::sizes_so))]
    fn len(&mut self) -> DiskLen
        requires { self.old.is_open ≡ true }
        ensures call { self.new.calls ≡ self.old.calls ++ record { call = Measuring result; gave = [] } ∷ [] }
        ensures is_open { self.new.is_open ≡ true }
        ensures told { WhereHistoryTold (history_of_calls O.file self.old.calls)
            (history_of_calls O.file self.new.calls) (Sizes result) }
        ensures faults { CountsLen result self.old.faults self.new.faults }
    {
        match self.file().metadata() {
            Ok(found) => {
                let answer = DiskLen::Len(found.len());
                note_len(&mut self.notes, answer);
                answer
            }
            Err(error) => {
                self.fail("measuring the log", error);
                note_len(&mut self.notes, DiskLen::Failed);
                DiskLen::Failed
            }
        }
    }

    #[tactic(auto, using(crate::proofs::FileHistory::reads_so))]
    fn read(&mut self, at: u64, buf: &mut [u8]) -> DiskRead
        requires is_open { self.old.is_open ≡ true }
        requires room { 0 < length buf.old }
        ensures call { self.new.calls ≡ self.old.calls
            ++ record { call = Reading at result; gave = given_by_read result buf.new } ∷ [] }
        ensures is_open { self.new.is_open ≡ true }
        ensures fits { FitsRead result at buf.new }
        ensures told { WhereHistoryTold (history_of_calls O.file self.old.calls)
            (history_of_calls O.file self.new.calls) (DiskReads result at buf.new) }
        ensures faults { CountsDiskRead result self.old.faults self.new.faults }
    {
        let answer = self.read_file(at, buf);
        note_read(&mut self.notes, at, buf, answer);
        answer
    }

    #[tactic(auto, using(crate::proofs::FileHistory::writes_so))]
    fn write_at(&mut self, at: u64, piece: &[u8]) -> DiskDid
        requires is_open { self.old.is_open ≡ true }
        requires place { at + length piece.now ≤ 18446744073709551615 }
        ensures call { self.new.calls ≡ self.old.calls ++ record { call = Writing at piece.now result; gave = [] } ∷ [] }
        ensures is_open { self.new.is_open ≡ true }
        ensures told { WhereHistoryTold (history_of_calls O.file self.old.calls)
            (history_of_calls O.file self.new.calls) (DiskWrites result at piece.now) }
        ensures faults { CountsDid result self.old.faults self.new.faults }
    {
        let answer = write_all(self.file(), at, piece);
        let did = self.did("writing the log", answer);
        note_write(&mut self.notes, at, piece, did);
        did
    }

    #[tactic(auto, using(crate::proofs::FileHistory::syncs_so))]
    fn sync(&mut self) -> DiskDid
        requires { self.old.is_open ≡ true }
        ensures call { self.new.calls ≡ self.old.calls ++ record { call = Syncing result; gave = [] } ∷ [] }
        ensures is_open { self.new.is_open ≡ true }
        ensures told { WhereHistoryTold (history_of_calls O.file self.old.calls)
            (history_of_calls O.file self.new.calls) (Syncs result) }
        ensures faults { CountsDid result self.old.faults self.new.faults }
    {
        let answer = self.file().sync_all();
        let did = self.did("syncing the log", answer);
        note_sync(&mut self.notes, did);
        did
    }

    #[tactic(auto, using(crate::proofs::FileHistory::begins_next_so))]
    fn begin_next(&mut self) -> DiskDid
        requires { self.old.is_open ≡ true }
        ensures call { self.new.calls ≡ self.old.calls ++ record { call = BeginningNext result; gave = [] } ∷ [] }
        ensures is_open { self.new.is_open ≡ true }
        ensures told { WhereHistoryTold (history_of_calls O.file self.old.calls)
            (history_of_calls O.file self.new.calls) (BeginsNext result) }
        ensures faults { CountsDid result self.old.faults self.new.faults }
    {
        // One that was begun before is closed, and so unlocked.
        self.next = None;
        let made = match &self.place {
            Some(place) => make_next(&self.rt, place.next.as_path(), self.file()),
            None => Err(not_begun()),
        };
        let answer = match made {
            Ok(next) => {
                self.next = Some(next);
                Ok(())
            }
            Err(error) => Err(error),
        };
        let did = self.did("making the new log", answer);
        note_begin_next(&mut self.notes, did);
        did
    }

    #[tactic(auto, using(crate::proofs::FileHistory::writes_next_so))]
    fn write_next(&mut self, at: u64, piece: &[u8]) -> DiskDid
        requires is_open { self.old.is_open ≡ true }
        requires place { at + length piece.now ≤ 18446744073709551615 }
        ensures call { self.new.calls ≡ self.old.calls ++ record { call = WritingNext at piece.now result; gave = [] } ∷ [] }
        ensures is_open { self.new.is_open ≡ true }
        ensures told { WhereHistoryTold (history_of_calls O.file self.old.calls)
            (history_of_calls O.file self.new.calls) (WritesNext result at piece.now) }
        ensures faults { CountsDid result self.old.faults self.new.faults }
    {
        let answer = match &self.next {
            Some(next) => write_all(next, at, piece),
            None => Err(not_begun()),
        };
        let did = self.did("writing the new log", answer);
        note_write_next(&mut self.notes, at, piece, did);
        did
    }

    #[tactic(auto, using(crate::proofs::FileHistory::syncs_next_so))]
    fn sync_next(&mut self) -> DiskDid
        requires { self.old.is_open ≡ true }
        ensures call { self.new.calls ≡ self.old.calls ++ record { call = SyncingNext result; gave = [] } ∷ [] }
        ensures is_open { self.new.is_open ≡ true }
        ensures told { WhereHistoryTold (history_of_calls O.file self.old.calls)
            (history_of_calls O.file self.new.calls) (SyncsNext result) }
        ensures faults { CountsDid result self.old.faults self.new.faults }
    {
        let answer = match &self.next {
            Some(next) => next.sync_all(),
            None => Err(not_begun()),
        };
        let did = self.did("syncing the new log", answer);
        note_sync_next(&mut self.notes, did);
        did
    }

    #[tactic(auto, using(crate::proofs::FileHistory::replaces_so))]
    fn replace(&mut self) -> DiskDid
        requires { self.old.is_open ≡ true }
        ensures call { self.new.calls ≡ self.old.calls ++ record { call = Replacing result; gave = [] } ∷ [] }
        ensures is_open { self.new.is_open ≡ true }
        ensures told { WhereHistoryTold (history_of_calls O.file self.old.calls)
            (history_of_calls O.file self.new.calls) (Replaces result) }
        ensures faults { CountsDid result self.old.faults self.new.faults }
    {
        let answer = self.rename_next();
        let did = self.did("renaming the log", answer);
        note_replace(&mut self.notes, did);
        did
    }
}
