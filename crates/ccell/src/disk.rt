//! Files of the file system.
use cli::{FileFault, Files};
use std::alloc::{AllocError, Global};
use std::io::Read;
use std::{fs, io};
use texts::{Failed, Source};

fn fault_of(error: io::Error) -> FileFault {
    match error.kind() {
        io::ErrorKind::OutOfMemory => FileFault::OutOfMemory,
        _ => FileFault::CannotRead,
    }
}

fn out_of_memory(_error: AllocError) -> FileFault {
    FileFault::OutOfMemory
}

// Reads to the end, and says how many bytes came.
fn count_rest(reader: &mut impl Read) -> io::Result<u64> {
    let mut buffer = [0; 4096];
    let mut count: u64 = 0;
    for _ in 0..u64::MAX {
        let n = reader.read(&mut buffer)?;
        if n == 0 {
            break;
        }
        count = count.saturating_add(n as u64);
    }
    Ok(count)
}

// All bytes of a reader, or what stands for them where there are more than so many.
fn read_up_to(alloc: Global, reader: &mut impl Read, most: u32) -> io::Result<Vec<u8>> {
    let mut bytes = Vec::new(alloc);
    reader
        .by_ref()
        .take(u64::from(most) + 8)
        .read_to_end(&mut bytes)?;
    let rest = count_rest(reader)?;
    if rest > 0 {
        bytes.truncate(most as usize + 1 + ((rest - 1) % 8) as usize);
    }
    Ok(bytes)
}

/// A file that is open, and read a part at a time.
#[derive(Drop)]
pub struct OpenFile {
    file: fs::File,
    failures: u64,
    last_failed: bool,
    calls: u64,
}

impl Source for OpenFile {
    ghost use Rattle.std.specs.Prelude.{None};

    // What a file holds is not told.
    ghost left = { λ _. None };

    ghost failures = { λ s. record { count = s.failures; last = s.last_failed } };

    ghost calls = { λ s. s.calls };

    fn read(&mut self, buf: &mut [u8]) -> Result<usize, Failed> {
        if self.calls > 0 {
            self.calls -= 1;
            if let Ok(count) = self.file.read(buf) {
                self.last_failed = false;
                return Ok(count);
            }
        }
        self.last_failed = true;
        self.failures = self.failures.saturating_add(1);
        Err(Failed)
    }
}

/// A file that was read whole.
#[derive(Drop)]
struct Kept {
    name: String,
    bytes: Vec<u8>,
}

/// Reads files by their paths. A file that was read whole is kept, so that its name gives the same bytes again: a pipe has them once.
#[derive(Drop)]
pub struct Disk<'a> {
    rt: &'a HostRuntime,
    kept: Vec<Kept>,
}

// The largest file that is kept, in bytes.
const MOST_KEPT: usize = 1 << 24;

fn copy_of(alloc: Global, bytes: &[u8]) -> Result<Vec<u8>, AllocError> {
    let mut copy = Vec::new(alloc);
    copy.extend_from_slice(bytes)?;
    Ok(copy)
}

// The file of a name with a copy of its bytes.
fn kept_as(alloc: Global, name: &str, bytes: &[u8]) -> Result<Kept, AllocError> {
    Ok(Kept {
        name: String::from_str(alloc, name)?,
        bytes: copy_of(alloc, bytes)?,
    })
}

// Keeps the bytes of a file, unless they are too many.
fn keep(alloc: Global, kept: &mut Vec<Kept>, name: &str, bytes: &[u8]) -> Result<(), AllocError> {
    if bytes.len() > MOST_KEPT {
        return Ok(());
    }
    let file = kept_as(alloc, name, bytes)?;
    kept.push(file)?;
    Ok(())
}

impl<'a> Disk<'a> {
    /// Reads files of a process.
    pub fn new(rt: &'a HostRuntime) -> Disk<'a> {
        Disk {
            rt,
            kept: Vec::new(rt.alloc()),
        }
    }
}

impl Files for Disk<'_> {
    ghost use Rattle.std.specs.Prelude.{None};

    // What the files of a process have is not told.
    ghost folder = { λ _. None };

    type Opened = OpenFile;

    fn open(&mut self, name: &str) -> Result<OpenFile, FileFault> {
        let file = fs::open(self.rt, name).map_err(fault_of)?;
        Ok(OpenFile {
            file,
            failures: 0,
            last_failed: false,
            calls: u64::MAX,
        })
    }

    fn read(&mut self, alloc: Global, name: &str) -> Result<Vec<u8>, FileFault> {
        if let Some(file) = self.kept.iter().find(|file| file.name.as_str() == name) {
            return copy_of(alloc, &file.bytes).map_err(out_of_memory);
        }
        let bytes = fs::read(self.rt, name).map_err(fault_of)?;
        keep(alloc, &mut self.kept, name, &bytes).map_err(out_of_memory)?;
        Ok(bytes)
    }

    fn read_up_to(&mut self, alloc: Global, name: &str, most: u32) -> Result<Vec<u8>, FileFault> {
        let mut file = fs::open(self.rt, name).map_err(fault_of)?;
        read_up_to(alloc, &mut file, most).map_err(fault_of)
    }
}
