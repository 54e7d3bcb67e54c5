//! The file that a device is.

ghost use Rattle.std.specs.Prelude.{◌≡◌, IsErr, None, length};

use crate::ahead::{AHEAD, Window};
use std::alloc::Global;
use std::fs::{File, Files, OpenOptions, remove_file};
use std::io;
use std::io::ErrorKind;
use std::os::unix::fs::FileExt;
use std::path::Path;

/// A device: an open file and its length in bytes, or a device of no bytes whose every call fails.
#[derive(Drop)]
pub struct Device {
    file: Option<File>,
    size: u64,
    /// Where the last read ended, if nothing was written since.
    read_to: Option<u64>,
    ahead: Option<Window>,
}

impl Device {
    /// The device if none can be opened.
    pub fn absent() -> Device
        ensures size { result.size ≡ 0 }
        ensures file { result.file ≡ None }
    {
        Device {
            file: None,
            size: 0,
            read_to: None,
            ahead: None,
        }
    }

    /// The file of this name. If it can't be opened, or another program has it open as a device, the device is absent.
    pub fn opened<R: Files<File = File>>(files: &R, name: &str) -> Device {
        Device::open(files, name, None).unwrap_or(Device::absent())
    }

    /// The file of this name, which lasts then, and if there is none, or one that was being made, a new one of `size` zero bytes. If it
    /// can't be opened or made, the device is absent.
    pub fn opened_or_made<R: Files<File = File>>(files: &R, name: &str, size: u64) -> Device {
        let device = match Device::open(files, name, Some(size)) {
            Err(e) if e.kind() == ErrorKind::NotFound => Device::make(files, name, size),
            opened => opened,
        };
        device.unwrap_or(Device::absent())
    }

    /// A new file, which is taken away again if it can't be made to last.
    fn make<R: Files<File = File>>(files: &R, name: &str, size: u64) -> io::Result<Device> {
        File::create_new(files, name)?;
        let made = Device::open(files, name, Some(size));
        // One that another program has by now isn't taken away.
        if matches!(&made, Err(e) if e.kind() != ErrorKind::WouldBlock) {
            let _ = remove_file(files, name);
        }
        made
    }

    /// The file of this name. If it is one to be made, its name lasts then. If it has no bytes, as a stop left it, it
    /// gets its size.
    fn open<R: Files<File = File>>(files: &R, name: &str, made: Option<u64>) -> io::Result<Device> {
        let file = apart(OpenOptions::new().read(true).write(true).open(files, name)?)?;
        // Another program that writes it would break what is known of the file.
        file.try_lock()?;
        if let Some(size) = made {
            if file.metadata()?.is_file() && file.metadata()?.len() == 0 {
                file.set_len(size)?;
                file.sync_all()?;
            }
            File::open(files, folder_of(name))?.sync_all()?;
        }
        let size = file.metadata()?.len();
        Ok(Device {
            file: Some(file),
            size,
            read_to: None,
            ahead: None,
        })
    }

    /// The length in bytes.
    pub fn size(&self) -> u64
        ensures { result ≡ self.now.size }
    {
        self.size
    }

    /// Reads the bytes from this place on into `buf`. Reads that follow one another with no write between are served from what is read
    /// ahead.
    pub fn read_at(&mut self, alloc: Global, at: u64, buf: &mut [u8]) -> io::Result<()>
        ensures absent { self.old.file ≡ None → IsErr result }
        ensures size { self.new.size ≡ self.old.size }
    {
        let file = self.file.as_ref().ok_or(ErrorKind::NotFound)?;
        let goes_on = self.read_to == Some(at) && buf.len() <= AHEAD;
        self.read_to = at.checked_add(buf.len() as u64);
        if copied(&self.ahead, at, buf) {
            return Ok(());
        }
        if goes_on {
            self.ahead = Window::at(alloc, file, at, AHEAD).ok();
            if copied(&self.ahead, at, buf) {
                return Ok(());
            }
        }
        file.read_exact_at(buf, at)
    }

    /// Writes the bytes from this place on.
    pub fn write_at(&mut self, at: u64, bytes: &[u8]) -> io::Result<()>
        ensures absent { self.old.file ≡ None → IsErr result }
        ensures size { self.new.size ≡ self.old.size }
    {
        self.read_to = None;
        self.ahead = None;
        self.file()?.write_all_at(bytes, at)
    }

    /// Makes all that was written last.
    pub fn sync(&self) -> io::Result<()>
        ensures absent { self.now.file ≡ None → IsErr result }
    {
        self.file()?.sync_all()
    }

    fn file(&self) -> io::Result<&File>
        ensures { self.now.file ≡ None → IsErr result }
    {
        Ok(self.file.as_ref().ok_or(ErrorKind::NotFound)?)
    }
}

/// Copies the bytes from this place on into `buf` if all of them were read ahead.
fn copied(ahead: &Option<Window>, at: u64, buf: &mut [u8]) -> bool
    ensures { length buf.new ≡ length buf.old }
{
    match ahead {
        Some(window) => window.copies(at, buf),
        None => false,
    }
}

/// The same file under a number of its own. If a standard stream is closed, an opened file gets the stream's number, and texts
/// would be written into it, or lines read from it. A second descriptor gets none of the three.
fn apart(file: File) -> io::Result<File> {
    file.try_clone()
}

/// The folder in which a file of this name stands.
fn folder_of(name: &str) -> Path<'_> {
    match Path::new(name).parent() {
        Some(folder) if !folder.as_str().is_empty() => folder,
        _ => Path::new("."),
    }
}
