//! Where the bytes of a certificate come from and go to.
ghost use Rattle.std.specs.Prelude.{◌≡◌, ◌≤◌, ◌<◌, ℕ, List, Bool, true, false, Option, length, take, IfOk, OnOk, OnErr};
ghost use Rattle.std.specs.Io.KnownBytes.{Consumes, Appends, IsAtEnd};

use thiserror::Error;

// The room of a reader's buffer, and of a writer's, in bytes.
pub(crate) const CAPACITY: usize = 4096;

/// A source or a sink has failed.
#[derive(Clone, Copy, Debug, PartialEq, Eq, Error)]
#[error("the source or the sink has failed")]
pub struct Refused;

/// Bytes, pulled one buffer after the other.
pub trait Source {
    /// The bytes that are left, where the source tells them.
    ghost left: { Self → Option (List ℕ) };

    /// Whether the source has failed.
    ghost has_failed: { Self → Bool };

    /// Puts the next bytes at the buffer's front and answers their number. It is 0 for a buffer
    /// with room only where no byte is left. A refusal leaves the source failed, nothing else does,
    /// and a failed source refuses from then on.
    fn pull(&mut self, buffer: &mut [u8]) -> Result<usize, Refused>
        ensures bound { IfOk result (λ n. n ≤ length buffer.new) }
        ensures bytes { IfOk result (λ n. Consumes (left self.old) (left self.new) (take n buffer.new)) }
        ensures end { IfOk result (λ n. n ≡ 0 → 0 < length buffer.new → IsAtEnd (left self.new)) }
        ensures runs { OnOk result ((has_failed self.old ≡ false) × (has_failed self.new ≡ false)) }
        ensures fault { OnErr result (has_failed self.new ≡ true) };

    /// Whether the source has failed.
    fn failed(&self) -> bool
        ensures { result ≡ has_failed self.now };
}

/// Takes bytes, one piece after the other.
pub trait Sink {
    /// The bytes that the sink holds, where it tells them.
    ghost held: { Self → Option (List ℕ) };

    /// Whether the sink has failed.
    ghost has_failed: { Self → Bool };

    /// Appends all the bytes. A refusal leaves the sink failed, nothing else does, and a failed
    /// sink refuses from then on.
    fn push(&mut self, bytes: &[u8]) -> Result<(), Refused>
        ensures bytes { OnOk result (Appends (held self.old) (held self.new) bytes.now) }
        ensures runs { OnOk result ((has_failed self.old ≡ false) × (has_failed self.new ≡ false)) }
        ensures fault { OnErr result (has_failed self.new ≡ true) };

    /// Appends the bytes one by one, as pushes of one byte each do: what a refusal leaves and the
    /// pieces that are handed on to another sink or to a writer are those of such pushes. A sink that can do
    /// the same in fewer steps writes its own.
    ///
    /// # Errors
    /// `Refused` where one of the pushes is refused. No bytes are never refused.
    fn push_each(&mut self, bytes: &[u8]) -> Result<(), Refused>
        ensures bytes { OnOk result (Appends (held self.old) (held self.new) bytes.now) }
        ensures same { OnOk result (has_failed self.new ≡ has_failed self.old) }
        ensures runs { OnOk result (0 < length bytes.now → has_failed self.old ≡ false) }
        ensures fault { OnErr result (has_failed self.new ≡ true) }
    {
        for byte in bytes {
            self.push(&[*byte])?;
        }
        Ok(())
    }

    /// Whether the sink has failed.
    fn failed(&self) -> bool
        ensures { result ≡ has_failed self.now };
}
