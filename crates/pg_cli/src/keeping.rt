//! Where the certificates of `pg judge` are written, and read again to be checked.

use pg_certificate::Refused;
use pg_files::nameless;
use pg_judge::{Reason, Scratch};
use pg_streams::Room;
use std::fs::OpenFile;
use std::io;
use std::io::{Cursor, Error, ErrorKind, Read, Seek, SeekFrom, Write};
use std::rt::Runtime;

// The most bytes of a certificate that is not kept which stand in memory.
const IN_MEMORY: usize = 32_000_000;

// A file to which a certificate of limited length is written, and from which it is read again.
#[derive(Drop)]
pub(crate) struct OnDisk<F> {
    file: F,
    most: u64,
    room: Room,
}

impl<F> OnDisk<F> {
    // An empty file.
    pub(crate) fn new(file: F, most: u64) -> OnDisk<F> {
        OnDisk {
            file,
            most,
            room: Room::new(most),
        }
    }
}

impl<F: Read> Read for OnDisk<F> {
    fn read(&mut self, buffer: &mut [u8]) -> io::Result<usize> {
        self.file.read(buffer)
    }
}

impl<F: Write> Write for OnDisk<F> {
    fn write(&mut self, bytes: &[u8]) -> io::Result<usize> {
        if !self.room.take(bytes.len()) {
            return Err(Error::from(ErrorKind::FileTooLarge));
        }
        match self.file.write_all(bytes) {
            Ok(()) => Ok(bytes.len()),
            Err(fault) => Err(fault),
        }
    }

    fn flush(&mut self) -> io::Result<()> {
        self.file.flush()
    }
}

impl<F: Read + Write + Seek + OpenFile> Scratch for OnDisk<F> {
    fn lack(&self) -> Reason {
        if self.room.is_full() {
            Reason::Bytes
        } else {
            Reason::Scratch
        }
    }

    fn clear(&mut self) -> Result<(), Refused> {
        self.room = Room::new(self.most);
        if self.file.set_len(0).is_err() {
            return Err(Refused);
        }
        self.rewind()
    }

    fn rewind(&mut self) -> Result<(), Refused> {
        match self.file.seek(SeekFrom::Start(0)) {
            Ok(_) => Ok(()),
            Err(_) => Err(Refused),
        }
    }
}

// A certificate that is not kept. While it is short it stands in memory. A longer one is dropped as it is written; where
// it is written once more, it goes to a file with no name.
#[derive(Drop)]
pub(crate) struct Loose<'a, R: Runtime + AllocGlobal> {
    rt: &'a R,
    most: u64,
    short: Cursor<Vec<u8>>,
    is_dropped: bool,
    long: Option<OnDisk<R::File>>,
}

impl<'a, R: Runtime + AllocGlobal> Loose<'a, R> {
    // An empty one, for `most` bytes.
    pub(crate) fn new(rt: &'a R, most: u64) -> Loose<'a, R> {
        Loose {
            rt,
            most,
            short: Cursor::new(Vec::new(rt.alloc())),
            is_dropped: false,
            long: None,
        }
    }

    // Takes bytes into memory, where there is room; else all are dropped.
    fn keep(&mut self, bytes: &[u8]) {
        let length = self.short.get_ref().len().saturating_add(bytes.len());
        if length <= IN_MEMORY && self.short.write_all(bytes).is_ok() {
            return;
        }
        self.short = Cursor::new(Vec::new(self.rt.alloc()));
        self.is_dropped = true;
    }
}

impl<R: Runtime + AllocGlobal> Read for Loose<'_, R> {
    // It comes once in some thousand bytes: inlined, it would keep the reading of a single byte from being so.
    #[inline(never)]
    fn read(&mut self, buffer: &mut [u8]) -> io::Result<usize> {
        match &mut self.long {
            Some(long) => long.read(buffer),
            None => self.short.read(buffer),
        }
    }
}

impl<R: Runtime + AllocGlobal> Write for Loose<'_, R> {
    fn write(&mut self, bytes: &[u8]) -> io::Result<usize> {
        if let Some(long) = &mut self.long {
            return long.write(bytes);
        }
        if !self.is_dropped {
            self.keep(bytes);
        }
        Ok(bytes.len())
    }

    fn flush(&mut self) -> io::Result<()> {
        Ok(())
    }
}

impl<R: Runtime + AllocGlobal> Scratch for Loose<'_, R> {
    fn lack(&self) -> Reason {
        match &self.long {
            Some(long) => long.lack(),
            None => Reason::Scratch,
        }
    }

    fn is_whole(&self) -> bool {
        !self.is_dropped
    }

    fn widen(&mut self) -> Result<(), Refused> {
        match nameless(self.rt) {
            Ok(file) => {
                self.long = Some(OnDisk::new(file, self.most));
                Ok(())
            }
            Err(_) => Err(Refused),
        }
    }

    fn clear(&mut self) -> Result<(), Refused> {
        self.short = Cursor::new(Vec::new(self.rt.alloc()));
        self.is_dropped = false;
        match &mut self.long {
            Some(long) => long.clear(),
            None => Ok(()),
        }
    }

    fn rewind(&mut self) -> Result<(), Refused> {
        match &mut self.long {
            Some(long) => long.rewind(),
            None => {
                self.short.set_position(0);
                Ok(())
            }
        }
    }
}
