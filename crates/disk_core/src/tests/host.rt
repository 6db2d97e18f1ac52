//! A file system in memory that lists its calls, fails those that it is told to fail, and at a power cut loses what wasn't
//! synced. A sync that fails loses it too: the bytes are read until the power cut, and no later sync is of them.

ghost use Rattle.std.specs.Io.{ReadsAtMost, WritesAtMost};

use crate::Lockable;
use std::alloc::{Allocator, Global};
use std::cell::{RefCell, RefMut};
use std::fs::{Metadata, OpenFile, OpenOptions};
use std::io;
use std::io::{ErrorKind, Read, Seek, SeekFrom, Write};
use std::os::unix::fs::FileExt;
use std::rc::Rc;
use std::rt::Files;

/// The call that fails, by its number from 1, and with which error of the system. There is no call 0.
#[derive(Clone, Copy)]
pub struct Failing {
    pub call: usize,
    pub error: i32,
}

#[derive(Drop)]
struct Name {
    // empty where the name is gone
    path: String,
    inode: usize,
    is_synced: bool,
}

#[derive(Drop)]
struct Inode {
    seen: Vec<u8>,
    stable: Vec<u8>,
    // where bytes were written since the last sync, from one place up to another one
    unsynced: Vec<(usize, usize)>,
}

impl Inode {
    // Puts bytes at a place.
    fn put(&mut self, at: usize, bytes: &[u8]) -> io::Result<()> {
        let end = at.wrapping_add(bytes.len());
        if self.seen.len() < end {
            self.seen.resize(end, 0)?;
        }
        for (place, byte) in self.seen.iter_mut().skip(at).zip(bytes.iter()) {
            *place = *byte;
        }
        self.unsynced.push((at, end))?;
        Ok(())
    }

    // What was written is stable.
    fn sync(&mut self) -> io::Result<()> {
        self.stable.resize(self.seen.len(), 0)?;
        for range in self.unsynced.iter() {
            copy_range(self.stable.as_mut_slice(), self.seen.as_slice(), *range);
        }
        self.unsynced.clear();
        Ok(())
    }
}

// Copies the bytes from one place up to another one.
fn copy_range(to: &mut [u8], from: &[u8], range: (usize, usize)) {
    let bytes = from.iter().take(range.1).skip(range.0);
    for (place, byte) in to.iter_mut().skip(range.0).zip(bytes) {
        *place = *byte;
    }
}

#[derive(Drop)]
struct State {
    alloc: Global,
    names: Vec<Name>,
    inodes: Vec<Inode>,
    calls: Vec<String>,
    failing: Failing,
    // how many bytes a read or a write takes at most
    most: usize,
    is_held: bool,
}

impl State {
    // Lists a call, and fails it where it is to fail.
    fn call(&mut self, line: String) -> io::Result<()> {
        self.calls.push(line)?;
        if self.calls.len() == self.failing.call {
            return Err(io::Error::from_raw_os_error(self.failing.error));
        }
        Ok(())
    }

    fn find(&self, path: &str) -> io::Result<usize> {
        for name in self.names.iter() {
            if name.path.as_str() == path {
                return Ok(name.inode);
            }
        }
        Err(io::Error::from(ErrorKind::NotFound))
    }

    fn path_of(&self, inode: usize) -> &str {
        for name in self.names.iter() {
            if name.inode == inode && !name.path.is_empty() {
                return name.path.as_str();
            }
        }
        "nameless"
    }

    fn inode(&mut self, inode: usize) -> io::Result<&mut Inode> {
        match self.inodes.get_mut(inode) {
            Some(inode) => Ok(inode),
            None => Err(io::Error::from(ErrorKind::NotFound)),
        }
    }

    // A new file or folder, whose name isn't synced.
    fn add(&mut self, path: &str) -> io::Result<usize> {
        self.find(folder_of(path))?;
        let inode = self.inodes.len();
        self.inodes.push(Inode {
            seen: Vec::new(self.alloc),
            stable: Vec::new(self.alloc),
            unsynced: Vec::new(self.alloc),
        })?;
        self.name(path, inode)?;
        Ok(inode)
    }

    // Names a file, whose name isn't synced.
    fn name(&mut self, path: &str, inode: usize) -> io::Result<()> {
        self.names.push(Name {
            path: path.to_string(self.alloc)?,
            inode,
            is_synced: false,
        })?;
        Ok(())
    }

    // Takes a name away, where it is there.
    fn unname(&mut self, path: &str) {
        for name in self.names.iter_mut() {
            if name.path.as_str() == path {
                name.path.clear();
            }
        }
    }

    // Takes the names away that aren't synced.
    fn forget_names(&mut self) {
        for name in self.names.iter_mut() {
            if !name.is_synced {
                name.path.clear();
            }
        }
    }

    // Leaves the bytes that are stable.
    fn forget_bytes(&mut self) -> io::Result<()> {
        for inode in self.inodes.iter_mut() {
            inode.seen = inode.stable.clone()?;
            inode.unsynced.clear();
        }
        Ok(())
    }

    // A file is synced, and where it is a folder, the names in it.
    fn sync(&mut self, inode: usize) -> io::Result<()> {
        let path = self.path_of(inode).to_string(self.alloc)?;
        for name in self.names.iter_mut() {
            if folder_of(name.path.as_str()) == path.as_str() {
                name.is_synced = true;
            }
        }
        self.inode(inode)?.sync()
    }
}

// How a call is listed.
fn line_of(alloc: Global, name: &str, path: &str) -> io::Result<String> {
    Ok(format!(in alloc; "{name} {path}")?)
}

// The folder that a name lies in.
fn folder_of(path: &str) -> &str {
    match path.rsplit_once('/') {
        Some((folder, _)) => folder,
        None => ".",
    }
}

/// The file system.
#[derive(Drop)]
pub struct Host {
    alloc: Global,
    state: Rc<RefCell<State>>,
}

/// A file or a folder that is open.
#[derive(Drop)]
pub struct HostFile {
    alloc: Global,
    state: Rc<RefCell<State>>,
    inode: usize,
}

fn state_in(state: &RefCell<State>) -> io::Result<RefMut<'_, State>> {
    match state.try_borrow_mut() {
        Ok(state) => Ok(state),
        Err(_) => Err(io::Error::from(ErrorKind::ResourceBusy)),
    }
}

impl Host {
    /// An empty folder `.`. A read or a write takes this many bytes at most.
    pub fn new(alloc: Global, most: usize, failing: Failing) -> io::Result<Host> {
        let mut state = State {
            alloc,
            names: Vec::new(alloc),
            inodes: Vec::new(alloc),
            calls: Vec::new(alloc),
            failing,
            most,
            is_held: false,
        };
        state.names.push(Name {
            path: ".".to_string(alloc)?,
            inode: 0,
            is_synced: true,
        })?;
        state.inodes.push(Inode {
            seen: Vec::new(alloc),
            stable: Vec::new(alloc),
            unsynced: Vec::new(alloc),
        })?;
        Ok(Host {
            alloc,
            state: Rc::new(alloc, RefCell::new(state))?,
        })
    }

    /// The same file system, for another owner.
    pub fn share(&self) -> io::Result<Host> {
        Ok(Host {
            alloc: self.alloc,
            state: self.state.clone()?,
        })
    }

    /// From now on this call fails, counted from here.
    pub fn set_failing(&self, failing: Failing) -> io::Result<()> {
        let mut state = state_in(&self.state)?;
        state.calls.clear();
        state.failing = failing;
        Ok(())
    }

    /// The calls since this or `set_failing` was last called.
    pub fn take_calls(&self) -> io::Result<Vec<String>> {
        let mut state = state_in(&self.state)?;
        let none = Vec::new(self.alloc);
        Ok(std::mem::replace(&mut state.calls, none))
    }

    /// The last one of these calls, which is then none of them any more.
    pub fn take_last_call(&self) -> io::Result<String> {
        match state_in(&self.state)?.calls.pop() {
            Some(line) => Ok(line),
            None => Err(io::Error::from(ErrorKind::NotFound)),
        }
    }

    /// Another process holds each folder, or none does.
    pub fn set_held(&self, is_held: bool) -> io::Result<()> {
        state_in(&self.state)?.is_held = is_held;
        Ok(())
    }

    /// The power is cut: what was synced is left.
    pub fn cut_power(&self) -> io::Result<()> {
        let mut state = state_in(&self.state)?;
        state.forget_names();
        state.forget_bytes()
    }
}

impl HostFile {
    // Lists a call on this file, and fails it where it is to fail.
    fn call(&self, name: &str) -> io::Result<RefMut<'_, State>> {
        let mut state = state_in(&self.state)?;
        let line = line_of(self.alloc, name, state.path_of(self.inode))?;
        state.call(line)?;
        Ok(state)
    }

    // A sync, which takes what was written for synced also where it fails.
    fn sync(&self, name: &str) -> io::Result<()> {
        let mut state = match self.call(name) {
            Ok(state) => state,
            Err(error) => {
                if error.kind() != ErrorKind::Interrupted {
                    state_in(&self.state)?.inode(self.inode)?.unsynced.clear();
                }
                return Err(error);
            }
        };
        state.sync(self.inode)
    }
}

impl FileExt for HostFile {
    fn read_at(&self, buf: &mut [u8], offset: u64) -> io::Result<usize> {
        let mut state = self.call("pread")?;
        let most = buf.len().min(state.most);
        let inode = state.inode(self.inode)?;
        let count = most.min(inode.seen.len().saturating_sub(offset as usize));
        let bytes = inode.seen.iter().skip(offset as usize);
        for (place, byte) in buf.iter_mut().take(count).zip(bytes) {
            *place = *byte;
        }
        Ok(count)
    }

    fn write_at(&self, buf: &[u8], offset: u64) -> io::Result<usize> {
        let mut state = self.call("pwrite")?;
        let count = buf.len().min(state.most);
        state
            .inode(self.inode)?
            .put(offset as usize, &buf[..count])?;
        Ok(count)
    }
}

impl OpenFile for HostFile {
    fn metadata(&self) -> io::Result<Metadata> {
        let mut state = self.call("fstat")?;
        Ok(Metadata::of_file(state.inode(self.inode)?.seen.len() as u64))
    }

    fn set_len(&self, _size: u64) -> io::Result<()> {
        unsupported()
    }

    fn sync_all(&self) -> io::Result<()> {
        self.sync("fsync")
    }

    fn sync_data(&self) -> io::Result<()> {
        self.sync("fdatasync")
    }
}

impl Lockable for HostFile {
    fn try_hold(&self) -> io::Result<bool> {
        let state = self.call("flock")?;
        Ok(!state.is_held)
    }
}

fn unsupported<T>() -> io::Result<T> {
    Err(io::Error::from(ErrorKind::Unsupported))
}

impl Read for HostFile {
    fn read(&mut self, _buf: &mut [u8]) -> io::Result<usize> {
        Err(io::Error::from(ErrorKind::Unsupported))
    }
}

impl Write for HostFile {
    fn write(&mut self, _buf: &[u8]) -> io::Result<usize> {
        Err(io::Error::from(ErrorKind::Unsupported))
    }

    fn flush(&mut self) -> io::Result<()> {
        Ok(())
    }
}

impl Seek for HostFile {
    fn seek(&mut self, _to: SeekFrom) -> io::Result<u64> {
        unsupported()
    }
}

impl Host {
    // Lists a call on a path, and fails it where it is to fail.
    fn call(&self, name: &str, path: &str) -> io::Result<RefMut<'_, State>> {
        let line = line_of(self.alloc, name, path)?;
        let mut state = state_in(&self.state)?;
        state.call(line)?;
        Ok(state)
    }
}

impl Files for Host {
    type File = HostFile;

    type Dir = HostFile;

    fn open_file(&self, how: &OpenOptions, path: &str) -> io::Result<HostFile> {
        let name = if how.asks_create() { "create" } else { "open" };
        let mut state = self.call(name, path)?;
        let inode = match state.find(path) {
            Err(_) if how.asks_create() => state.add(path)?,
            found => found?,
        };
        if how.asks_truncate() {
            state.inode(inode)?.seen.clear();
        }
        Ok(HostFile {
            alloc: self.alloc,
            state: self.state.clone()?,
            inode,
        })
    }

    fn create_dir(&self, path: &str) -> io::Result<()> {
        let mut state = self.call("mkdir", path)?;
        if state.find(path).is_ok() {
            return Err(io::Error::from(ErrorKind::AlreadyExists));
        }
        state.add(path)?;
        Ok(())
    }

    fn rename(&self, from: &str, to: &str) -> io::Result<()> {
        let mut state = self.call("rename", to)?;
        let inode = state.find(from)?;
        state.unname(from);
        state.unname(to);
        state.name(to, inode)
    }

    fn remove_file(&self, path: &str) -> io::Result<()> {
        let mut state = self.call("unlink", path)?;
        state.find(path)?;
        state.unname(path);
        Ok(())
    }

    fn open_dir(&self, _path: &str) -> io::Result<HostFile> {
        unsupported()
    }

    fn metadata(&self, _path: &str) -> io::Result<Metadata> {
        unsupported()
    }

    fn symlink_metadata(&self, _path: &str) -> io::Result<Metadata> {
        unsupported()
    }

    fn copy(&self, _from: &str, _to: &str) -> io::Result<u64> {
        unsupported()
    }

    fn remove_dir(&self, _path: &str) -> io::Result<()> {
        unsupported()
    }

    fn remove_dir_all<B: Allocator>(&self, _alloc: B, _path: &str) -> io::Result<()> {
        unsupported()
    }
}
