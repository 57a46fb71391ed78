ghost use Rattle.std.specs.Prelude.{◌≡◌, refl, drop};
ghost use Rattle.std.specs.Option.{option_map};
ghost use Rattle.std.proofs.Common.{◌∙◌};
ghost use Rattle.ports.specs.Growth.{SameContents};

use crate::Source;
use ports::{Failed, Files};

/// Reads one named file, from its first byte on. What is left is the name's content from the place on that was reached,
/// and it counts the read faults of the files. Its rest is which files it borrows, the name, the contents of all names and
/// the write count.
#[derive(Drop)]
pub struct FileSource<'a, F: Files> {
    files: &'a mut F,
    name: &'a str,
    place: u64,
}

impl<'a, F: Files> FileSource<'a, F> {
    /// A source of a named file.
    pub fn new(files: &'a mut F, name: &'a str) -> FileSource<'a, F>
        ensures same_reference { result.files.ghost_name ≡ files.entry.ghost_name }
        ensures files { result.files.now ≡ files.old }
        ensures name { result.name.now ≡ name.now }
        ensures place { result.place ≡ 0 }
    {
        FileSource {
            files,
            name,
            place: 0,
        }
    }
}

impl<'a, F: Files> Source for FileSource<'a, F> {
    ghost left = { λ s. option_map (drop s.place) (F.content s.files.now s.name.now) };

    ghost faults = { λ s. F.read_faults s.files.now };

    ghost same_rest = { λ s t. (t.files.ghost_name ≡ s.files.ghost_name) × (t.name.now ≡ s.name.now)
        × SameContents (F.content s.files.now) (F.content t.files.now)
        × (F.write_faults t.files.now ≡ F.write_faults s.files.now) };

    ghost rest_refl = { λ s. (refl, refl, λ n. refl, refl) };

    ghost rest_trans = { λ s t u p q. (q.0 ∙ p.0, q.1 ∙ p.1, λ n. q.2 n ∙ p.2 n, q.3 ∙ p.3) };

    fn read(&mut self, buf: &mut [u8]) -> Result<usize, Failed> {
        let room = (u64::MAX - self.place).min(buf.len() as u64) as usize;
        let count = self.files.read_at(self.name, self.place, &mut buf[..room])?;
        self.place += count as u64;
        Ok(count)
    }
}
