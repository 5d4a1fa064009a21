use crate::retrying::read_again;
use crate::shelf::{Failed, Shelf};
use std::fs;
use std::rt::Files;

#[derive(Drop)]
enum Picked<R: Files + Input> {
    Nothing,
    Stdin(R::Reader),
    File(R::File),
}

/// The machine's files by their paths. The name `-` is standard input, from where it stands.
#[derive(Drop)]
pub struct StdShelf<'a, R: Files + Input> {
    rt: &'a R,
    picked: Picked<R>,
    given: u64,
    faults: u64,
}

impl<'a, R: Files + Input> StdShelf<'a, R> {
    ghost use Rattle.std.specs.Prelude.{◌≡◌};

    /// The files and the standard input of the process. No file is picked yet.
    pub fn new(rt: &'a R) -> StdShelf<'a, R>
        ensures given { ⟦<StdShelf<'a, R> as Shelf>⟧.given result ≡ 0 }
        ensures faults { ⟦<StdShelf<'a, R> as Shelf>⟧.faults result ≡ 0 }
    {
        StdShelf {
            rt,
            picked: Picked::Nothing,
            given: 0,
            faults: 0,
        }
    }
}

impl<'a, R: Files + Input> Shelf for StdShelf<'a, R> {
    ghost use Rattle.std.specs.Prelude.{None};

    ghost held = { λ _. None };

    ghost rest = { λ _. None };

    ghost given = { λ s. s.given };

    ghost faults = { λ s. s.faults };

    fn pick(&mut self, name: &str) -> Result<(), Failed> {
        self.picked = Picked::Nothing;
        if name == "-" {
            self.picked = Picked::Stdin(self.rt.reader());
            return Ok(());
        }
        match fs::open(self.rt, name) {
            Ok(file) => {
                self.picked = Picked::File(file);
                Ok(())
            }
            Err(_) => {
                self.faults = self.faults.saturating_add(1);
                Err(Failed)
            }
        }
    }

    fn read(&mut self, buf: &mut [u8]) -> Result<usize, Failed> {
        let read = match &mut self.picked {
            Picked::Nothing => Ok(0),
            Picked::Stdin(reader) => read_again(reader, buf),
            Picked::File(file) => read_again(file, buf),
        };
        match read {
            Ok(count) => {
                self.given += count as u64;
                Ok(count)
            }
            Err(_) => {
                self.faults = self.faults.saturating_add(1);
                Err(Failed)
            }
        }
    }
}
