//! The folders in which the program finds class files: a trait, so that tests read from memory, and
//! the disk.

ghost use Rattle.std.specs.Prelude.{◌≡◌, ℕ, List, String, Option, ⊤, All, IfOk, IfErr, IsTrue, OnOk, IsSorted, string_bytes};
ghost use Rattle.std.specs.Global.{Global};
ghost use Rattle.sp_words.specs.declared.folder.FolderFault.TheVariants as fault;
ghost use Rattle.sp_words.specs.Folders.{AreBelow, Blames, IsClassPath, IsEntryName, Keeps, NamesBelow, joined};

use shown_text::Shown;
use std::alloc::{AllocError, AllocFailed, Global};
use std::io::Read;
use std::rt::Files;
use std::{fs, io, str};
use thiserror::Error;

/// Why the files of a folder cannot be listed.
#[derive(Debug, Drop, Error)]
pub enum FolderFault {
    /// This folder cannot be read, or is none; or it has a class file whose name is no UTF-8, which the path names with
    /// these bytes escaped.
    #[error("cannot read {0}")]
    CannotRead(String),
    #[error("no memory")]
    Memory,
}

impl From<AllocError> for FolderFault {
    ghost from_gives = { λ _ told. told ≡ fault.Memory };

    fn from(_: AllocError) -> FolderFault {
        FolderFault::Memory
    }
}

impl<T: Drop> From<AllocFailed<T>> for FolderFault {
    ghost from_gives = { λ _ told. told ≡ fault.Memory };

    fn from(_: AllocFailed<T>) -> FolderFault {
        FolderFault::Memory
    }
}

/// Folders and files by their paths.
pub trait Folder {
    type File: Read + Drop;

    // What a listing says of a folder, by its path and the paths that are listed.
    ghost lists: { Self → List ℕ → List (String Global) → Type 0 } = { λ _ _ _. ⊤ };

    // What is known of the bytes that are read of the file at a path.
    ghost gives: { Self → List ℕ → Option (List ℕ) → Type 0 } = { λ _ _ _. ⊤ };

    /// The paths of all files in the folder, and in the folders below it, whose name ends in
    /// `.class`: each with the folder's own path in front, in the order of their bytes. What is neither
    /// a file nor a folder is passed over, and so is an entry whose name is no UTF-8, unless it ends so.
    fn paths(&self, folder: &str) -> Result<Vec<String>, FolderFault>
        ensures { IfOk result (λ paths. lists self.now folder.now paths.items) };

    /// Opens the file at such a path.
    fn open(&self, path: &str) -> io::Result<Self::File>
        ensures { IfOk result (λ file. gives self.now path.now (Self.File.remaining file)) };
}

/// The file system of the process.
#[derive(Drop)]
pub struct Disk<'a, R> {
    pub runtime: &'a R,
}

impl<'a, R: Files + AllocGlobal + Clone + Drop> Folder for Disk<'a, R> {
    type File = R::File;

    // Whatever the file system holds, each path leads from the folder by names of entries, so no file elsewhere is named.
    ghost lists = { λ _ folder paths. All (λ path. IsClassPath folder (string_bytes path)) paths × IsSorted ⟦<String as Ord>⟧.cmp paths };

    fn paths(&self, folder: &str) -> Result<Vec<String>, FolderFault>
        // What the trait's clause says of it: class files of the folder, in the order of their bytes.
        ensures listed { IfOk result (λ paths. All (λ path. IsClassPath folder.now (string_bytes path)) paths.items × IsSorted ⟦<String as Ord>⟧.cmp paths.items) }
        // A fault names the folder, one below it, or an entry of one of these.
        ensures fault { IfErr result (NamesBelow folder.now) }
    {
        let alloc = self.runtime.alloc();
        let mut found = Found::new(alloc, folder)?;
        for _ in 0..u64::MAX {
            match found.folders.pop() {
                Some(next) => list_folder(self.runtime, &mut found, next)?,
                None => {
                    found.files.sort()?;
                    return Ok(found.files);
                }
            }
        }
        Err(FolderFault::CannotRead(String::from_str(alloc, folder)?))
    }

    fn open(&self, path: &str) -> io::Result<Self::File> {
        fs::open(self.runtime, path)
    }
}

// The class files that were found, and the folders that wait to be listed.
#[derive(Drop)]
struct Found {
    files: Vec<String>,
    folders: Vec<String>,
}

impl Found {
    // No file, and the folder itself to be listed.
    fn new(alloc: Global, folder: &str) -> Result<Found, AllocError>
        ensures { IfOk result (AreBelow folder.now) }
    {
        let mut folders = Vec::new(alloc);
        folders.push(String::from_str(alloc, folder)?)?;
        Ok(Found {
            files: Vec::new(alloc),
            folders,
        })
    }

    // A folder has a file or a folder of this name.
    fn add(
        &mut self,
        alloc: Global,
        folder: &str,
        name: &str,
        is_folder: bool,
    ) -> Result<(), AllocError>
        requires { IsEntryName name.now }
        ensures { OnOk result (Keeps folder.now self.old self.new) }
    {
        if is_folder {
            self.add_folder(alloc, folder, name)
        } else {
            self.add_file(alloc, folder, name)
        }
    }

    // A folder has a folder of this name.
    fn add_folder(&mut self, alloc: Global, folder: &str, name: &str) -> Result<(), AllocError>
        requires { IsEntryName name.now }
        ensures { OnOk result (Keeps folder.now self.old self.new) }
    {
        let path = path_in(alloc, folder, name)?;
        self.folders.push(path)?;
        Ok(())
    }

    // A folder has a file of this name: it counts if it is a class file.
    fn add_file(&mut self, alloc: Global, folder: &str, name: &str) -> Result<(), AllocError>
        requires { IsEntryName name.now }
        ensures { OnOk result (Keeps folder.now self.old self.new) }
    {
        if name.as_bytes().ends_with(b".class") {
            let path = path_in(alloc, folder, name)?;
            self.files.push(path)?;
        }
        Ok(())
    }
}

// The path of a name in a folder.
fn path_in(alloc: Global, folder: &str, name: &str) -> Result<String, AllocError>
    ensures { IfOk result (λ path. string_bytes path ≡ joined folder.now name.now) }
{
    let mut path = String::from_str(alloc, folder)?;
    if !folder.as_bytes().ends_with(b"/") {
        path.push('/')?;
    }
    path.push_str(name)?;
    Ok(path)
}

// Whether a name is one of an entry, and so leads to nothing outside its folder.
fn is_entry_name(name: &[u8]) -> bool
    ensures sound { IsTrue result → IsEntryName name.now }
    ensures all { IsEntryName name.now → IsTrue result }
{
    !name.is_empty() && !name.contains(&b'/') && name != b".".as_slice() && name != b"..".as_slice()
}

// Lists one folder: its class files are found, and its folders wait.
fn list_folder<R: Files + AllocGlobal + Clone + Drop>(
    runtime: &R,
    found: &mut Found,
    folder: String,
) -> Result<(), FolderFault>
    ensures found { OnOk result (Keeps (string_bytes folder) found.old found.new) }
    ensures fault { IfErr result (Blames (string_bytes folder)) }
{
    let path = folder.as_str();
    let Ok(names) = read_names(runtime, path) else {
        return Err(FolderFault::CannotRead(folder));
    };
    let mut name = Vec::new(runtime.alloc());
    for byte in &names {
        take_byte(runtime, found, path, &mut name, *byte)?;
    }
    Ok(())
}

// Takes a byte of an entry's name. A NUL ends it: the entry is listed, and the next name begins.
fn take_byte<R: Files + AllocGlobal>(
    runtime: &R,
    found: &mut Found,
    folder: &str,
    name: &mut Vec<u8>,
    byte: u8,
) -> Result<(), FolderFault>
    ensures found { OnOk result (Keeps folder.now found.old found.new) }
    ensures fault { IfErr result (Blames folder.now) }
{
    if byte != 0 {
        name.push(byte)?;
        return Ok(());
    }
    list_entry(runtime, found, folder, name)?;
    name.clear();
    Ok(())
}

// The names of a folder's entries, each ended by a NUL. The slash makes the system follow a link to a folder. They are
// copied by a buffer in which the longest name has room: a read with less room than a name takes fails.
fn read_names<R: Files + AllocGlobal>(runtime: &R, folder: &str) -> io::Result<Vec<u8>> {
    let alloc = runtime.alloc();
    let mut path = String::from_str(alloc, folder)?;
    if !folder.is_empty() && !folder.ends_with('/') {
        path.push('/')?;
    }
    let mut names = Vec::new(alloc);
    io::copy(&mut runtime.open_dir(path.as_str())?, &mut names)?;
    Ok(names)
}

// Lists an entry of a folder by the bytes of its name. One that is no UTF-8 is passed over, unless it would be a class file.
fn list_entry<R: Files + AllocGlobal>(
    runtime: &R,
    found: &mut Found,
    folder: &str,
    name: &[u8],
) -> Result<(), FolderFault>
    ensures found { OnOk result (Keeps folder.now found.old found.new) }
    ensures fault { IfErr result (Blames folder.now) }
{
    if name == b".".as_slice() || name == b"..".as_slice() {
        return Ok(());
    }
    let alloc = runtime.alloc();
    match str::from_utf8(name) {
        Ok(name) => add_entry(runtime, found, folder, name),
        Err(_) if name.ends_with(b".class") => {
            let shown = format!(in alloc; "{}", Shown(name))?;
            Err(FolderFault::CannotRead(path_in(alloc, folder, shown.as_str())?))
        }
        Err(_) => Ok(()),
    }
}

// Adds an entry of a folder, if it is a folder or a class file.
fn add_entry<R: Files + AllocGlobal>(
    runtime: &R,
    found: &mut Found,
    folder: &str,
    name: &str,
) -> Result<(), FolderFault>
    ensures found { OnOk result (Keeps folder.now found.old found.new) }
    ensures fault { IfErr result (Blames folder.now) }
{
    let alloc = runtime.alloc();
    // No file system gives such a name; one that did would lead out of the folder.
    if !is_entry_name(name.as_bytes()) {
        return Err(FolderFault::CannotRead(String::from_str(alloc, folder)?));
    }
    let path = path_in(alloc, folder, name)?;
    match kind_of(runtime, path.as_str()) {
        Ok(EntryKind::Folder) => Ok(found.add(alloc, folder, name, true)?),
        Ok(EntryKind::File) => Ok(found.add(alloc, folder, name, false)?),
        Ok(EntryKind::Other) => Ok(()),
        Err(_) => Err(FolderFault::CannotRead(String::from_str(alloc, folder)?)),
    }
}

// What an entry of a folder is.
#[derive(Clone, Copy)]
enum EntryKind {
    Folder,
    /// A file, or a link to one or to nothing.
    File,
    /// A device, a pipe or a socket, which might never end, or a link to one of these or to a folder.
    Other,
}

// A link is followed, but for one to a folder: that might lead round in a circle.
fn kind_of<R: Files>(runtime: &R, path: &str) -> io::Result<EntryKind> {
    let kind = fs::symlink_metadata(runtime, path)?.file_type();
    if kind.is_dir() {
        return Ok(EntryKind::Folder);
    }
    if !kind.is_symlink() {
        return Ok(file_or_other(kind.is_file()));
    }
    match fs::metadata(runtime, path) {
        Ok(metadata) => Ok(file_or_other(metadata.is_file())),
        Err(_) => Ok(EntryKind::File),
    }
}

fn file_or_other(is_file: bool) -> EntryKind {
    if is_file {
        EntryKind::File
    } else {
        EntryKind::Other
    }
}
