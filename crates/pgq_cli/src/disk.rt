ghost use Rattle.std.specs.Prelude.{◌≡◌, None, is_some};

use pgq_base::{Fault, Shelf, Text};
use std::fs::{self, Files};
use std::io::Read;

/// The files of the file system, opened by their names for one run's words.
///
/// Each `read` makes one read of the opened file. Each failure of the system is a fault, which the count
/// of faults tells. What the files hold is not told.
#[derive(Drop)]
pub(crate) struct DiskShelf<'a, R: Files> {
    rt: &'a R,
    words: &'a [Text],
    file: Option<R::File>,
    faults: u64,
    handed: u64,
}

impl<'a, R: Files> DiskShelf<'a, R> {
    /// A shelf for these words, with no file opened and no fault counted.
    pub(crate) fn new(rt: &'a R, words: &'a [Text]) -> DiskShelf<'a, R>
        ensures words { ⟦<DiskShelf<'a, R> as Shelf>⟧.words result ≡ words.now }
        ensures files { ⟦<DiskShelf<'a, R> as Shelf>⟧.files result ≡ None }
        ensures faults { ⟦<DiskShelf<'a, R> as Shelf>⟧.faults result ≡ 0 }
    {
        DiskShelf {
            rt,
            words,
            file: None,
            faults: 0,
            handed: 0,
        }
    }
}

impl<'a, R: Files> Shelf for DiskShelf<'a, R> {
    ghost words = { λ s. s.words.now };

    ghost files = { λ s. None };

    ghost opened = { λ s. is_some s.file };

    ghost left = { λ s. None };

    ghost faults = { λ s. s.faults };

    ghost handed = { λ s. s.handed };

    fn open(&mut self, name: &str) -> Result<(), Fault> {
        self.handed = 0;
        match fs::open(self.rt, name) {
            Ok(file) => {
                self.file = Some(file);
                Ok(())
            }
            Err(_) => {
                self.file = None;
                self.faults = self.faults.saturating_add(1);
                Err(Fault)
            }
        }
    }

    fn read(&mut self, buf: &mut [u8]) -> Result<usize, Fault> {
        let Some(file) = &mut self.file else {
            return Ok(0);
        };
        match file.read(buf) {
            Ok(count) => {
                self.handed = self.handed.saturating_add(count as u64);
                Ok(count)
            }
            Err(_) => {
                self.faults = self.faults.saturating_add(1);
                Err(Fault)
            }
        }
    }
}
