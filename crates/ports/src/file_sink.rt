ghost use Rattle.std.specs.Prelude.{◌≡◌, ◌≢◌, ℕ, List, refl};
ghost use Rattle.std.proofs.Common.{◌∙◌};
ghost use Rattle.ports.specs.Growth.{SameElsewhere};

use crate::{Failed, Files, Sink};

/// Appends to one named file. It holds the name's content, what stood there at `new` included, and counts the write
/// faults of the files. Its rest is which files it borrows, the name, the contents of every other name, and the read
/// count.
#[derive(Drop)]
pub struct FileSink<'a, F: Files> {
    files: &'a mut F,
    name: &'a str,
}

impl<'a, F: Files> FileSink<'a, F> {
    /// A sink onto a named file.
    pub fn new(files: &'a mut F, name: &'a str) -> FileSink<'a, F>
        ensures same_reference { result.files.ghost_name ≡ files.entry.ghost_name }
        ensures files { result.files.now ≡ files.old }
        ensures name { result.name.now ≡ name.now }
    {
        FileSink { files, name }
    }
}

impl<'a, F: Files> Sink for FileSink<'a, F> {
    ghost held = { λ s. F.content s.files.now s.name.now };

    ghost faults = { λ s. F.write_faults s.files.now };

    ghost same_rest = { λ s t. (t.files.ghost_name ≡ s.files.ghost_name) × (t.name.now ≡ s.name.now)
        × SameElsewhere s.name.now (F.content s.files.now) (F.content t.files.now)
        × (F.read_faults t.files.now ≡ F.read_faults s.files.now) };

    ghost rest_refl = { λ s. (refl, refl, λ n h. refl, refl) };

    ghost rest_trans = { λ s t u p q. (q.0 ∙ p.0, q.1 ∙ p.1, λ n h. q.2 n (λ e. h (e ∙ p.1)) ∙ p.2 n h, q.3 ∙ p.3) };

    fn put(&mut self, bytes: &[u8]) -> Result<usize, Failed> {
        self.files.append(self.name, bytes)
    }
}
