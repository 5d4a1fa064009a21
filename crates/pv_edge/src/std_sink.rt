use crate::retrying::write_again;
use crate::shelf::Failed;
use crate::sink::Sink;

#[derive(Clone, Copy, PartialEq)]
enum Stream {
    Out,
    Err,
}

/// Standard output or standard error. Each write goes straight to the stream, so that there is nothing to flush.
#[derive(Drop)]
pub struct StdSink<'a> {
    rt: &'a HostRuntime,
    stream: Stream,
    faults: u64,
}

impl<'a> StdSink<'a> {
    ghost use Rattle.std.specs.Prelude.{◌≡◌};

    /// Standard output.
    pub fn out(rt: &'a HostRuntime) -> StdSink<'a>
        ensures { ⟦<StdSink<'a> as Sink>⟧.faults result ≡ 0 }
    {
        StdSink {
            rt,
            stream: Stream::Out,
            faults: 0,
        }
    }

    /// Standard error.
    pub fn err(rt: &'a HostRuntime) -> StdSink<'a>
        ensures { ⟦<StdSink<'a> as Sink>⟧.faults result ≡ 0 }
    {
        StdSink {
            rt,
            stream: Stream::Err,
            faults: 0,
        }
    }
}

impl<'a> Sink for StdSink<'a> {
    ghost use Rattle.std.specs.Prelude.{None};

    ghost took = { λ _. None };

    ghost faults = { λ s. s.faults };

    fn write(&mut self, piece: &[u8]) -> Result<usize, Failed> {
        let written = match self.stream {
            Stream::Out => write_again(&mut self.rt.stdout(), piece),
            Stream::Err => write_again(&mut self.rt.stderr(), piece),
        };
        match written {
            Ok(count) if count > 0 => Ok(count),
            _ => {
                self.faults = self.faults.saturating_add(1);
                Err(Failed)
            }
        }
    }
}
