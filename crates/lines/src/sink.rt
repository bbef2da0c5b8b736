// Where text goes: a writer. Once a write has failed nothing more is written, and that error is kept for the end.
ghost use Rattle.std.specs.Prelude.{◌≡◌, ◌↔◌, None, IsNone, IsOk};
ghost use Rattle.lines.specs.Sink.{Puts};

use std::io::{Error, Result, Write};

#[derive(Drop)]
pub struct Sink<W> {
    pub writer: W,
    pub failed: Option<Error>,
}

impl<W: Write> Sink<W> {
    pub fn new(writer: W) -> Sink<W>
        ensures writer { result.writer ≡ writer }
        ensures failed { result.failed ≡ None }
    {
        Sink {
            writer,
            failed: None,
        }
    }

    // Writes the bytes, all of them unless the write fails.
    pub fn put(&mut self, bytes: &[u8])
        ensures { Puts W.contents self.old self.new bytes.now }
    {
        if self.failed.is_some() {
            return;
        }
        if let Err(e) = self.writer.write_all(bytes) {
            self.failed = Some(e);
        }
    }

    // The error of the write that failed, if one did.
    pub fn finish(self) -> Result<()>
    where
        W: Drop,
        ensures { IsOk result ↔ IsNone self.failed }
    {
        match self.failed {
            None => Ok(()),
            Some(e) => Err(e),
        }
    }
}
