//! `Source`: reads ranges of a file's bytes, from memory or from the operating system.

ghost use Rattle.std.specs.Prelude.{◌≡◌, ◌≤◌, ◌+◌, ℕ, List, Option, Some, OnErr, OnOk, IfSome, drop, length, take};

/// A range of a file can't be read: the file ends earlier, or the operating system refuses it.
#[derive(Debug, Clone, Copy, PartialEq, Eq)]
pub struct RangeError;

/// A file whose bytes are read range by range.
pub trait Source {
    /// The bytes of the file, if the source says them. For a file of the operating system nothing is known before it is
    /// read.
    ghost bytes: { Self → Option (List ℕ) };

    /// Ranges that end before this offset are never refused. It is 0 if any range may be refused, as for a file of the
    /// operating system.
    ghost refuses_from: { Self → ℕ };

    /// Fills a buffer with the file's bytes from the offset `place` on.
    fn read_exact_at(&mut self, buffer: &mut [u8], place: usize) -> Result<(), RangeError>
        ensures read { OnOk result (IfSome (bytes self.old) (λ file.
            buffer.new ≡ take (length buffer.old) (drop place file))) }
        ensures refused { OnErr result (refuses_from self.old ≤ place + length buffer.old) }
        ensures inputs { bytes self.new ≡ bytes self.old }
        ensures refusals { refuses_from self.new ≡ refuses_from self.old };
}

impl Source for &[u8] {
    ghost use Rattle.std.specs.Prelude.{Some, ◌+◌, length};

    ghost bytes = { λ slice. Some slice.now };

    ghost refuses_from = { λ slice. length slice.now + 1 };

    fn read_exact_at(&mut self, buffer: &mut [u8], place: usize) -> Result<(), RangeError> {
        let (_, rest) = self.split_at_checked(place).ok_or(RangeError)?;
        let (bytes, _) = rest.split_at_checked(buffer.len()).ok_or(RangeError)?;
        buffer.copy_from_slice(bytes);
        Ok(())
    }
}
