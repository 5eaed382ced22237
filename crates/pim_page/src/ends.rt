//! Streams: readers and writers that may fail.
ghost use Rattle.std.specs.Prelude.{◌≡◌, ℕ, ◌<◌, ◌≤◌, List, length, take, Option, IfOk, OnOk, OnErr, Ok};
ghost use Rattle.pim_page.specs.Ends.{Told, one_more, TakesOff, IsAtEnd, Appends};

/// The error of a read or a write that failed.
#[derive(Clone, Copy, Debug, PartialEq, Eq)]
pub struct Failed;

/// A reader of bytes.
pub trait Source {
    /// The bytes that are left, if they are known.
    ghost remaining: { Self → Option (List ℕ) };

    /// The number of reads that failed.
    ghost failures: { Self → ℕ };

    /// Reads the next bytes into the front of the buffer, and returns their number. It is 0 only at the end, or if
    /// the buffer is empty.
    ///
    /// # Errors
    ///
    /// `Failed` if the read failed. No byte is lost.
    fn read(&mut self, buffer: &mut [u8]) -> Result<usize, Failed>
        ensures count { IfOk result (λ count. count ≤ length buffer.old) }
        ensures bytes { IfOk result (λ count.
            TakesOff (remaining self.old) (remaining self.new) (take count buffer.new)) }
        ensures end { result ≡ Ok 0 → 0 < length buffer.old → IsAtEnd (remaining self.old) }
        ensures ok { OnOk result (failures self.new ≡ failures self.old) }
        ensures err { OnErr result (failures self.new ≡ one_more (failures self.old)) }
        ensures left { OnErr result (remaining self.new ≡ remaining self.old) };
}

/// A writer of bytes.
pub trait Sink {
    /// The bytes that were written, if they are known, and how many writes failed or took nothing.
    ghost told: { Self → Told };

    /// Writes the first bytes of the piece, and returns their number.
    ///
    /// # Errors
    ///
    /// `Failed` if the write failed. No byte was written.
    fn write(&mut self, piece: &[u8]) -> Result<usize, Failed>
        ensures count { IfOk result (λ count. count ≤ length piece.now) }
        ensures bytes { IfOk result (λ count.
            Appends (told self.old).contents (told self.new).contents (take count piece.now)) }
        ensures ok { OnOk result ((told self.new).failures ≡ (told self.old).failures) }
        ensures some { IfOk result (λ count. 0 < count → (told self.new).stalls ≡ (told self.old).stalls) }
        ensures none { result ≡ Ok 0 → 0 < length piece.now → (told self.new).stalls ≡ one_more (told self.old).stalls }
        ensures err { OnErr result ((told self.new).failures ≡ one_more (told self.old).failures) }
        ensures unchanged { OnErr result ((told self.new).contents ≡ (told self.old).contents) };
}
