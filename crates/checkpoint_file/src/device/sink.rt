//! What bytes are written to.

ghost use Rattle.std.specs.Prelude.{◌≡◌, ◌||◌, ℕ, List, Option, Bool, false, true, length, OnOk, OnErr};
ghost use Rattle.std.specs.Io.{WritesAtMost};
ghost use Rattle.std.specs.Io.KnownBytes.{Appends, WriteAppends};
ghost use Rattle.checkpoint_file.specs.Devices.{AppendsBeginning, put_fails};

use crate::device::watched::Watched;
use std::alloc::Allocator;
use std::io;
use std::io::Write;

/// What bytes are written to.
pub trait Sink {
    /// The bytes that it holds, where they are known: of a file none are.
    ghost contents: { Self → Option (List ℕ) };

    /// Whether a call has failed.
    ghost has_failed: { Self → Bool };

    /// The bytes of its name.
    ghost name_of: { Self → List ℕ };

    /// Writes some of the bytes, as `std::io::Write::write` does. It fails by an error, and by
    /// taking none of at least one byte.
    fn put(&mut self, bytes: &[u8]) -> io::Result<usize>
        ensures bound { WritesAtMost result bytes.now }
        ensures bytes { WriteAppends (contents self.old) (contents self.new) result bytes.now }
        ensures failed { has_failed self.new
            ≡ (has_failed self.old || put_fails (length bytes.now) result) }
        ensures name { name_of self.new ≡ name_of self.old };

    /// Whether a call has failed.
    fn failed(&self) -> bool
        ensures { result ≡ has_failed self.now };

    /// The FILE that a refusal prints.
    fn name(&self) -> &str
        ensures { result.now ≡ name_of self.now };
}

impl<T: Write, A: Allocator> Sink for Watched<T, A> {
    ghost use Rattle.checkpoint_file.specs.Watched.{fails, inner_of, name_text};

    ghost contents = { λ w. T.contents (inner_of w) };

    ghost has_failed = { λ w. fails w };

    ghost name_of = { λ w. name_text w };

    fn put(&mut self, bytes: &[u8]) -> io::Result<usize> {
        let result = self.inner.write(bytes);
        match &result {
            Ok(taken) => {
                if *taken == 0 && !bytes.is_empty() {
                    self.failed = true;
                }
            }
            Err(_) => self.failed = true,
        }
        result
    }

    fn failed(&self) -> bool {
        self.failed
    }

    fn name(&self) -> &str {
        &self.name
    }
}

/// The device failed.
#[derive(Clone, Copy)]
pub struct Failed;

/// Writes all bytes. Where the device fails a beginning of them was written.
pub fn put_all<W: Sink>(device: &mut W, bytes: &[u8]) -> Result<(), Failed>
    requires { W.has_failed device.old ≡ false }
    ensures ok { OnOk result (Appends (W.contents device.old) (W.contents device.new) bytes.now) }
    ensures works { OnOk result (W.has_failed device.new ≡ false) }
    ensures err { OnErr result (AppendsBeginning (W.contents device.old) (W.contents device.new)
        bytes.now) }
    ensures fails { OnErr result (W.has_failed device.new ≡ true) }
    ensures name { W.name_of device.new ≡ W.name_of device.old }
{
    let mut rest = bytes;
    while !rest.is_empty() {
        match device.put(rest) {
            Ok(0) | Err(_) => return Err(Failed),
            Ok(taken) => rest = &rest[taken..],
        }
    }
    Ok(())
}
