// Standard output. What it got isn't told.
ghost use Rattle.std.specs.Prelude.{◌≡◌, None};

use board_base::{Sink, SinkError};

/// The terminal, by standard output.
#[derive(Drop)]
pub struct Terminal<'a, R> {
    rt: &'a R,
    faults: u64,
}

impl<'a, R: Print> Terminal<'a, R> {
    /// A terminal that got nothing.
    pub fn new(rt: &'a R) -> Self
        ensures { result.faults ≡ 0 }
    {
        Terminal { rt, faults: 0 }
    }
}

impl<R: Print> Sink for Terminal<'_, R> {
    ghost state = { λ s. record { text = None; faults = s.faults } };

    fn put(&mut self, bytes: &[u8]) -> Result<(), SinkError> {
        let mut rest = bytes;
        while !rest.is_empty() {
            match self.rt.write_some(rest) {
                Ok(0) | Err(_) => {
                    self.faults = self.faults.saturating_add(1);
                    return Err(SinkError::Failed);
                }
                Ok(count) => rest = &rest[count..],
            }
        }
        Ok(())
    }
}

#[cfg(test)]
mod tests {
    use super::*;

    #[test]
    fn a_terminal_takes_lines(rt: HostRuntime) {
        let mut out = Terminal::new(&rt);
        assert_eq!(rt; out.put(b"a line\n"), Ok(()));
        assert_eq!(rt; out.faults, 0);
    }
}
