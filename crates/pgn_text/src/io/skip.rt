//! A reader that can pass over bytes without reading them.
ghost use Rattle.std.specs.Prelude.{◌≤◌, IfOk};
ghost use Rattle.std.specs.Io.KnownBytes.{ConsumesCount};

use std::io;
use std::io::Read;

/// A reader that passes over bytes where it can: a file does so by its position, and what comes
/// through a pipe has to be read.
pub trait Skip: Read {
    /// Passes over the first bytes that are left, at most `most` of them, as if they were read, and
    /// answers how many. It may pass over fewer, and over none, where more are left.
    fn skip(&mut self, most: u64) -> io::Result<u64>
        ensures bytes { ConsumesCount (Self.remaining self.old) (Self.remaining self.new) result }
        ensures bound { IfOk result (λ count. count ≤ most) }
    {
        Ok(0)
    }
}

impl<R: Skip> Skip for io::Take<R> {
    fn skip(&mut self, most: u64) -> io::Result<u64> {
        let limit = self.limit();
        let count = self.get_mut().skip(most.min(limit))?;
        self.set_limit(limit - count);
        Ok(count)
    }
}

impl Skip for &[u8] {}
