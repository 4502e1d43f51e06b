//! A folder of database files, which is removed in the end.

use crate::connections::{self, Database, Databases, Store};
use crate::pooled::{Opens, Unopened};
use sqlite::Connection;
use std::alloc::AllocError;
use std::io::{self, ErrorKind};
use std::{env, fs, process};

// How many names for it are tried: an earlier process of the same number may have been cut off, and left its folder.
const NAMES: u16 = 100;

/// A new folder among the system's temporary ones. Its drop removes it, with all that is in it.
pub struct Folder<'h> {
    host: &'h HostRuntime,
    path: String,
}

impl<'h> Folder<'h> {
    /// Makes it, under a name that no other folder has.
    ///
    /// The error comes where memory or the system refused, or all names are taken.
    pub fn new(host: &'h HostRuntime) -> io::Result<Self> {
        let parent = env::temp_dir(host)?;
        let process = process::id(host.process());
        for attempt in 0..NAMES {
            let parent = parent.as_str();
            let path = format!(in host.alloc(); "{parent}/example_pool_{process}_{attempt}")?;
            match fs::create_dir(host, path.as_str()) {
                Ok(()) => return Ok(Folder { host, path }),
                Err(error) if error.kind() == ErrorKind::AlreadyExists => {}
                Err(error) => return Err(error),
            }
        }
        Err(io::Error::from(ErrorKind::AlreadyExists))
    }

    // The path of the file of this number.
    fn file(&self, number: usize) -> Result<String, AllocError> {
        let folder = self.path.as_str();
        format!(in self.host.alloc(); "{folder}/{number}.db")
    }
}

impl Databases<Store> for Folder<'_> {
    fn open(&self, number: usize) -> Option<Connection<Store>> {
        let path = self.file(number).ok()?;
        Connection::open(self.host, path.as_str()).ok()
    }
}

impl Opens<Database> for Folder<'_> {
    fn created(&self, number: usize) -> Option<Box<Database>> {
        boxed(self.host, connections::created(self, number)?)
    }

    fn reopened(&self, broken: Box<Database>) -> Result<Box<Database>, Unopened> {
        let database = connections::reopened(self, Box::into_inner(broken))?;
        boxed(self.host, database).ok_or(Unopened)
    }
}

// A connection in a box; none if memory is refused.
fn boxed(host: &HostRuntime, database: Database) -> Option<Box<Database>> {
    Box::new(host.alloc(), database).ok()
}

impl Drop for Folder<'_> {
    fn drop(self) {
        let Folder { host, path } = self;
        let _ = fs::remove_dir_all(host, path.as_str());
    }
}
