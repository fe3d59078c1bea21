//! Sinks of bytes.
ghost use Rattle.std.specs.Prelude.{◌≡◌, ℕ, ◌+◌, ◌<◌, ◌≤◌, List, [], Option, length, take, IfOk, IfErr, OnOk, OnErr};
ghost use Rattle.ftpp_outside.specs.Told.{Rose, Adds};

/// A write failed.
#[derive(Clone, Copy, Debug, PartialEq, Eq)]
pub struct WriteFault;

/// What bytes are written to.
pub trait Sink {
    /// The bytes written so far, or `None` for a sink that does not tell.
    ghost written: { Self → Option (List ℕ) };

    /// The number of faults so far, which stays at 2^64 - 1.
    ghost faults: { Self → ℕ };

    /// Writes the first bytes of a piece and returns how many: at least 1, unless the piece is empty.
    ///
    /// # Errors
    ///
    /// [`WriteFault`] where the write failed; no byte was written.
    fn write(&mut self, piece: &[u8]) -> Result<usize, WriteFault>
        ensures count { IfOk result (λ n. n ≤ length piece.now) }
        ensures progress { IfOk result (λ n. 0 < length piece.now → 1 ≤ n) }
        ensures bytes { IfOk result (λ n. Adds (written self.old) (take n piece.now) (written self.new)) }
        ensures fault { OnErr result (Rose (faults self.old) (faults self.new)) }
        ensures same { OnErr result (written self.new ≡ written self.old) }
        ensures faults { faults self.old ≤ faults self.new };
}

/// Writes a whole piece.
///
/// # Errors
///
/// [`WriteFault`] where a write failed; the bytes before it were written.
#[tactic(auto, using(crate::proofs::Told::adds_none, crate::proofs::Told::adds_both))]
pub fn write_all<K: Sink>(sink: &mut K, piece: &[u8]) -> Result<(), WriteFault>
    ensures ok { OnOk result (Adds (K.written sink.old) piece.now (K.written sink.new)) }
    ensures prefix { OnErr result ((n : ℕ) × (n ≤ length piece.now) × Adds (K.written sink.old) (take n piece.now) (K.written sink.new)) }
    ensures fault { OnErr result (Rose (K.faults sink.old) (K.faults sink.new)) }
    ensures faults { K.faults sink.old ≤ K.faults sink.new }
{
    let mut done = 0;
    while done < piece.len() {
        done += sink.write(&piece[done..])?;
    }
    Ok(())
}
