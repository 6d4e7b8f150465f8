// A runtime of which each path leads to one file, and whose clock fails.
use std::alloc::Allocator;
use std::fs::{Metadata, OpenOptions};
use std::io::{self, ErrorKind};
use std::rt::{Clock, Files};
use std::time::Duration;

/// The files of another runtime, of which there is one.
#[derive(Drop)]
pub(crate) struct OneFile<'a> {
    pub rt: &'a HostRuntime,
    pub path: &'static str,
}

/// What isn't done here.
fn unsupported<T>() -> io::Result<T> {
    Err(ErrorKind::Unsupported.into())
}

impl Files for OneFile<'_> {
    type File = <HostRuntime as Files>::File;

    type Dir = <HostRuntime as Files>::Dir;

    fn open_file(
        &self,
        how: &OpenOptions,
        _path: &str,
    ) -> io::Result<<HostRuntime as Files>::File> {
        self.rt.open_file(how, self.path)
    }

    fn open_dir(&self, _path: &str) -> io::Result<<HostRuntime as Files>::Dir> {
        unsupported()
    }

    fn metadata(&self, _path: &str) -> io::Result<Metadata> {
        unsupported()
    }

    fn symlink_metadata(&self, _path: &str) -> io::Result<Metadata> {
        unsupported()
    }

    fn copy(&self, _from: &str, _to: &str) -> io::Result<u64> {
        unsupported()
    }

    fn rename(&self, _from: &str, _to: &str) -> io::Result<()> {
        unsupported()
    }

    fn remove_file(&self, _path: &str) -> io::Result<()> {
        unsupported()
    }

    fn create_dir(&self, _path: &str) -> io::Result<()> {
        unsupported()
    }

    fn remove_dir(&self, _path: &str) -> io::Result<()> {
        unsupported()
    }

    fn remove_dir_all<B: Allocator>(&self, _alloc: B, _path: &str) -> io::Result<()> {
        unsupported()
    }
}

impl Clock for OneFile<'_> {
    fn monotonic(&self) -> io::Result<Duration> {
        unsupported()
    }

    fn since_1970(&self) -> io::Result<Duration> {
        unsupported()
    }
}
