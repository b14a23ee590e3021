//! The files of the system.

ghost use Rattle.std.specs.Prelude.{◌≡◌, ◌<◌, ◌≤◌, ◌^◌, length, Option, None, IfOk};

use patch_base::{Failed, Shelf};
use std::fs::{self, File};
use std::io::{self, Read, Seek, SeekFrom};

/// A file that is open at a place.
#[derive(Drop)]
struct Reader {
    name: String,
    file: File,
    at: u64,
}

impl Reader {
    fn open(rt: &HostRuntime, name: &str, at: u64) -> io::Result<Reader> {
        let mut file = fs::open(rt, name)?;
        if at > 0 {
            file.seek(SeekFrom::Start(at))?;
        }
        Ok(Reader {
            name: String::from_str(rt.alloc(), name)?,
            file,
            at,
        })
    }
}

/// The files of the system, by their names. One count of faults serves all names.
#[derive(Drop)]
pub struct FileShelf<'a> {
    rt: &'a HostRuntime,
    // The file that was read last.
    last: Option<Reader>,
    faults: u64,
}

impl<'a> FileShelf<'a> {
    pub fn new(rt: &'a HostRuntime) -> FileShelf<'a> {
        FileShelf {
            rt,
            last: None,
            faults: 0,
        }
    }

    /// Goes on in the file that was read last, where it is at this place.
    fn read(&mut self, name: &str, at: u64, into: &mut [u8]) -> io::Result<usize>
        requires { at < 2 ^ 32 }
        ensures count { self.new.faults ≡ self.old.faults }
        ensures within { IfOk result (λ n. n ≤ length into.new) }
    {
        let mut reader = match self.last.take() {
            Some(reader) if reader.name.as_str() == name && reader.at == at => reader,
            _ => Reader::open(self.rt, name, at)?,
        };
        let n = reader.file.read(into)?;
        reader.at = at + n as u64;
        self.last = Some(reader);
        Ok(n)
    }
}

impl Shelf for FileShelf<'_> {
    ghost tells = { λ shelf name. None };

    ghost faults = { λ shelf name. shelf.faults };

    fn read_at(&mut self, name: &str, at: u64, into: &mut [u8]) -> Result<usize, Failed> {
        match self.read(name, at, into) {
            Ok(n) => Ok(n),
            Err(_) => {
                self.faults = self.faults.saturating_add(1);
                Err(Failed)
            }
        }
    }
}
