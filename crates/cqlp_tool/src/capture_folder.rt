//! A folder of captures, by when each was written.

use std::cmp::Ordering;
use std::fs::{self, File};
use std::io::{self, Error, ErrorKind, Read};
use std::mem;
use std::rt::Files;
use std::time::SystemTime;

/// How many bytes the name of a file has at most.
const NAME: usize = 255;

/// How many bytes a path has at most.
const PATH: usize = 4_096;

/// How many files are found at once, and how many that were taken are remembered.
const FOUND: usize = 32;

/// How many reads of the folder's names are made at most.
const MOST_READS: u32 = u32::MAX;

/// How the name of a capture ends, before any number.
const ENDINGS: [&[u8]; 3] = [b".pcap", b".pcapng", b".cap"];

/// A file of the folder.
#[derive(Clone, Copy)]
struct Found {
    /// When it was written last.
    written: SystemTime,
    name: [u8; NAME],
    length: usize,
}

impl Found {
    fn name(&self) -> &[u8] {
        self.name.get(..self.length).unwrap_or(&[])
    }

    /// Which of two was written before the other; of two at once the one with the shorter name, as `cap.pcap9` before `cap.pcap10`, or else by their
    /// names.
    fn cmp(&self, other: &Found) -> Ordering {
        self.written
            .cmp(&other.written)
            .then_with(|| self.length.cmp(&other.length))
            .then_with(|| self.name().cmp(other.name()))
    }
}

/// The captures of a folder, in the order in which they were written: those files whose names end in .pcap, .pcapng or .cap, or so and a number.
#[derive(Drop)]
pub(crate) struct CaptureFolder<'a, R: Files> {
    rt: &'a R,
    folder: &'a str,
    /// The next files, in order.
    found: [Option<Found>; FOUND],
    /// The files that were taken last, the last one first.
    taken: [Option<Found>; FOUND],
    path: [u8; PATH],
    /// How long the path of the last file is.
    length: usize,
}

impl<'a, R: Files> CaptureFolder<'a, R> {
    /// No file of it was taken.
    pub fn new(rt: &'a R, folder: &'a str) -> Self {
        CaptureFolder {
            rt,
            folder,
            found: [None; FOUND],
            taken: [None; FOUND],
            path: [0; PATH],
            length: 0,
        }
    }

    /// The path of the file that was taken last.
    pub fn path(&self) -> &str {
        let path = self.path.get(..self.length).unwrap_or(&[]);
        str::from_utf8(path).unwrap_or("")
    }

    /// Whether there is a file that comes after the one that was taken last.
    pub fn has_next(&mut self) -> io::Result<bool> {
        if self.found[0].is_none() {
            self.look()?;
        }
        Ok(self.found[0].is_some())
    }

    /// Opens the next file; `None` where there is none yet.
    pub fn open_next(&mut self) -> io::Result<Option<R::File>> {
        if !self.has_next()? {
            return Ok(None);
        }
        let Some(next) = self.found[0] else {
            return Ok(None);
        };
        self.found.copy_within(1.., 0);
        self.found[FOUND - 1] = None;
        self.taken.copy_within(..FOUND - 1, 1);
        self.taken[0] = Some(next);
        self.length = put_path(&mut self.path, self.folder, next.name()).unwrap_or(0);
        File::open(self.rt, self.path()).map(Some)
    }

    /// Finds the next files.
    fn look(&mut self) -> io::Result<()> {
        if let Some(last) = self.taken[0] {
            self.taken[0] = self.dated(last.name()).or(Some(last));
        }
        let mut names = self.rt.open_dir(self.folder)?;
        let mut room = [0; PATH];
        for _ in 0..MOST_READS {
            let count = names.read(&mut room)?;
            if count == 0 {
                return Ok(());
            }
            let read = room.get(..count).unwrap_or(&[]);
            for name in read.split(|byte| *byte == 0) {
                self.consider(name);
            }
        }
        Err(Error::from(ErrorKind::Other))
    }

    /// Has the file of this name among the next ones, if it is a capture that was not taken.
    fn consider(&mut self, name: &[u8]) {
        if !is_of_capture(name) {
            return;
        }
        let Some(file) = self.dated(name) else {
            return;
        };
        if !is_taken(&self.taken, &file) {
            self.insert(file);
        }
    }

    /// The file of this name, if it is a regular one.
    fn dated(&self, name: &[u8]) -> Option<Found> {
        let mut room = [0; PATH];
        let length = put_path(&mut room, self.folder, name)?;
        let path = str::from_utf8(room.get(..length)?).ok()?;
        let metadata = fs::metadata(self.rt, path).ok()?;
        if !metadata.is_file() {
            return None;
        }
        let mut file = Found {
            written: metadata.modified().ok()?,
            name: [0; NAME],
            length: name.len(),
        };
        file.name.get_mut(..name.len())?.copy_from_slice(name);
        Some(file)
    }

    /// Puts a file in its place among the next ones, if it is one of the first.
    fn insert(&mut self, file: Found) {
        let mut left = Some(file);
        for place in &mut self.found {
            let is_before = match (&left, &*place) {
                (Some(file), Some(other)) => file.cmp(other) == Ordering::Less,
                (Some(_), None) => true,
                (None, _) => false,
            };
            if is_before {
                mem::swap(&mut left, place);
            }
        }
    }
}

/// Whether a file was taken, after these, the last one first: it is one of them, which may be written between two looks at it, or was written before the
/// last. Of files that were written at once more may have been taken than are remembered: those that come before the last one then count as taken.
fn is_taken(taken: &[Option<Found>; FOUND], file: &Found) -> bool {
    let Some(last) = taken[0] else {
        return false;
    };
    for one in taken {
        match one {
            Some(one) if one.name() == file.name() => return true,
            Some(_) | None => {}
        }
    }
    let are_remembered = match taken[FOUND - 1] {
        Some(oldest) => oldest.written < last.written,
        None => true,
    };
    match file.written.cmp(&last.written) {
        Ordering::Less => true,
        Ordering::Equal => !are_remembered && file.cmp(&last) == Ordering::Less,
        Ordering::Greater => false,
    }
}

/// Whether a file of this name is a capture: it ends as [`ENDINGS`] say, with a number behind that or none, as tcpdump and dumpcap name theirs.
fn is_of_capture(name: &[u8]) -> bool {
    let numbered = name
        .iter()
        .rev()
        .take_while(|byte| byte.is_ascii_digit())
        .count();
    let named = name
        .get(..name.len().saturating_sub(numbered))
        .unwrap_or(&[]);
    ENDINGS.iter().any(|ending| named.ends_with(ending))
}

/// Writes the path of a file in a folder, and answers how long it is, if there is room.
fn put_path(room: &mut [u8; PATH], folder: &str, name: &[u8]) -> Option<usize> {
    let at = folder.len().checked_add(1)?;
    let end = at.checked_add(name.len())?;
    room.get_mut(..folder.len())?
        .copy_from_slice(folder.as_bytes());
    *room.get_mut(folder.len())? = b'/';
    room.get_mut(at..end)?.copy_from_slice(name);
    Some(end)
}
