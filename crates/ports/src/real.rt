ghost use Rattle.std.specs.Prelude.{◌≡◌, ℕ, List, None, Option, ⊤, refl};
ghost use Rattle.std.specs.Io.{ReadsAtMost, WritesAtMost};

use crate::{Failed, Files, Sink};
use std::fs::OpenOptions;
use std::io;
use std::io::{Read, Seek, SeekFrom, Write};

/// The machine's files. It tells no content, and counts each error, and each append of a piece that is not empty that
/// wrote no byte.
#[derive(Drop)]
pub struct RealFiles<'a, R: std::rt::Files> {
    rt: &'a R,
    read_faults: u64,
    write_faults: u64,
}

impl<'a, R: std::rt::Files> RealFiles<'a, R> {
    /// The files of a runtime, with no fault yet.
    pub fn new(rt: &'a R) -> RealFiles<'a, R>
        ensures read_faults { ⟦<RealFiles<'a, R> as Files>⟧.read_faults result ≡ 0 }
        ensures write_faults { ⟦<RealFiles<'a, R> as Files>⟧.write_faults result ≡ 0 }
    {
        RealFiles {
            rt,
            read_faults: 0,
            write_faults: 0,
        }
    }

    fn try_read(&self, name: &str, place: u64, buf: &mut [u8]) -> io::Result<usize>
        ensures { ReadsAtMost result buf.new }
    {
        let mut file = OpenOptions::new().read(true).open(self.rt, name)?;
        file.seek(SeekFrom::Start(place))?;
        file.read(buf)
    }

    fn try_start(&self, name: &str) -> io::Result<()> {
        OpenOptions::new()
            .write(true)
            .create(true)
            .truncate(true)
            .open(self.rt, name)?;
        Ok(())
    }

    fn try_append(&self, name: &str, bytes: &[u8]) -> io::Result<usize>
        ensures { WritesAtMost result bytes.now }
    {
        let mut file = OpenOptions::new().append(true).open(self.rt, name)?;
        file.write(bytes)
    }
}

impl<'a, R: std::rt::Files> Files for RealFiles<'a, R> {
    ghost content = { λ files name. None };

    ghost read_faults = { λ files. files.read_faults };

    ghost write_faults = { λ files. files.write_faults };

    fn read_at(&mut self, name: &str, place: u64, buf: &mut [u8]) -> Result<usize, Failed> {
        match self.try_read(name, place, buf) {
            Ok(count) => Ok(count),
            Err(_) => {
                self.read_faults = self.read_faults.saturating_add(1);
                Err(Failed)
            }
        }
    }

    fn start(&mut self, name: &str) -> Result<(), Failed> {
        match self.try_start(name) {
            Ok(()) => Ok(()),
            Err(_) => {
                self.write_faults = self.write_faults.saturating_add(1);
                Err(Failed)
            }
        }
    }

    fn append(&mut self, name: &str, bytes: &[u8]) -> Result<usize, Failed> {
        match self.try_append(name, bytes) {
            Ok(count) if count > 0 || bytes.is_empty() => Ok(count),
            _ => {
                self.write_faults = self.write_faults.saturating_add(1);
                Err(Failed)
            }
        }
    }

    ghost short = { λ files name bytes told. Prim.cc };
}

/// The program's standard output. It tells nothing, and counts each error, and each put of a piece that is not empty that
/// wrote no byte.
#[derive(Drop)]
pub struct RealOut<'a, R: Print> {
    rt: &'a R,
    faults: u64,
}

impl<'a, R: Print> RealOut<'a, R> {
    /// The standard output of a runtime, with no fault yet.
    pub fn new(rt: &'a R) -> RealOut<'a, R>
        ensures { ⟦<RealOut<'a, R> as Sink>⟧.faults result ≡ 0 }
    {
        RealOut { rt, faults: 0 }
    }
}

impl<'a, R: Print> Sink for RealOut<'a, R> {
    ghost held = { λ out. None };

    ghost faults = { λ out. out.faults };

    ghost same_rest = { λ old new. ⊤ };

    ghost rest_refl = { λ out. tt };

    ghost rest_trans = { λ first second third p q. tt };

    fn put(&mut self, bytes: &[u8]) -> Result<usize, Failed> {
        match io::writer(self.rt).write(bytes) {
            Ok(count) if count > 0 || bytes.is_empty() => Ok(count),
            _ => {
                self.faults = self.faults.saturating_add(1);
                Err(Failed)
            }
        }
    }
}
