//! The two traits through which bytes come in and go out.
ghost use Rattle.std.specs.Prelude.{◌≡◌, ℕ, ◌+◌, ◌<◌, ◌≤◌, List, Option, take, length, IfOk, OnOk};
ghost use Rattle.std.specs.Prelude.{OnErr};
ghost use Rattle.std.specs.Io.KnownBytes.{Appends, Consumes, IsAtEnd, Keeps};
ghost use Rattle.zt_streams.specs.Streams.{HasRisen, AppendsPart};

/// A read or a write failed.
#[derive(Clone, Copy, PartialEq, Eq, Debug)]
pub struct Failed;

/// Where bytes come from.
pub trait Source {
    /// The bytes that are left, where the source tells them.
    ghost left: { Self → Option (List ℕ) };

    /// How many faults there were.
    ghost faults: { Self → ℕ };

    /// How often it was read, where the source counts that.
    ghost reads: { Self → ℕ };

    /// Puts the next bytes that are left into the front of `buf`, and answers how many. The rest of
    /// `buf` may then be anything. 0 is the end. `Failed` comes exactly where the count of faults
    /// changes, which then rises, and leaves what is left as it was.
    fn read(&mut self, buf: &mut [u8]) -> Result<usize, Failed>
        requires { 0 < length buf.old }
        ensures fits { IfOk result (λ n. n ≤ length buf.new) }
        ensures given { IfOk result
            (λ n. Consumes (left self.old) (left self.new) (take n buf.new)) }
        ensures end { IfOk result (λ n. n ≡ 0 → IsAtEnd (left self.new)) }
        ensures kept { OnErr result (Keeps (left self.old) (left self.new)) }
        ensures fault { OnErr result (HasRisen (faults self.old) (faults self.new)) }
        ensures calm { OnOk result (faults self.new ≡ faults self.old) }
        ensures count { faults self.old ≤ faults self.new }
        ensures once { reads self.new ≤ reads self.old + 1 };
}

/// Where bytes go.
pub trait Sink {
    /// The bytes written so far, where the sink tells them.
    ghost written: { Self → Option (List ℕ) };

    /// How many faults there were.
    ghost faults: { Self → ℕ };

    /// Writes bytes from the front of `bytes`, and answers how many, at least 1. `Failed` comes
    /// exactly where the count of faults changes, which then rises, and then nothing was written.
    fn write(&mut self, bytes: &[u8]) -> Result<usize, Failed>
        requires { 0 < length bytes.now }
        ensures some { IfOk result (λ n. 0 < n) }
        ensures fits { IfOk result (λ n. n ≤ length bytes.now) }
        ensures added { IfOk result
            (λ n. Appends (written self.old) (written self.new) (take n bytes.now)) }
        ensures kept { OnErr result (Keeps (written self.old) (written self.new)) }
        ensures fault { OnErr result (HasRisen (faults self.old) (faults self.new)) }
        ensures calm { OnOk result (faults self.new ≡ faults self.old) }
        ensures count { faults self.old ≤ faults self.new };
}

/// Writes all of `bytes`, which may be none. After `Failed` a front of them was written, and not
/// all.
pub fn write_all<T: Sink>(sink: &mut T, bytes: &[u8]) -> Result<(), Failed>
    ensures ok { OnOk result (Appends (T.written sink.old) (T.written sink.new) bytes.now) }
    ensures part { OnErr result (AppendsPart (T.written sink.old) (T.written sink.new) bytes.now) }
    ensures fault { OnErr result (HasRisen (T.faults sink.old) (T.faults sink.new)) }
    ensures calm { OnOk result (T.faults sink.new ≡ T.faults sink.old) }
    ensures count { T.faults sink.old ≤ T.faults sink.new }
{
    let mut done = 0;
    while done < bytes.len() {
        done += sink.write(&bytes[done..])?;
    }
    Ok(())
}
