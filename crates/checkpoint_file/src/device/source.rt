//! What bytes are read from.

ghost use Rattle.std.specs.Prelude.{◌≡◌, ◌≤◌, ◌||◌, ℕ, List, Option, Bool, false, length, is_err, IfOk, IfErr, IfSome, OnOk};
ghost use Rattle.std.specs.Io.{ReadsAtMost};
ghost use Rattle.std.specs.Io.KnownBytes.{ReadConsumes};
ghost use Rattle.checkpoint_file.specs.Devices.{IsUnread};
ghost use Rattle.checkpoint_file.specs.Limits.{file_limit};

use crate::device::watched::Watched;
use std::alloc::Allocator;
use std::io;
use std::io::Read;

/// What bytes are read from.
pub trait Source {
    /// The bytes that are left, where they are known: of a file none are.
    ghost remaining: { Self → Option (List ℕ) };

    /// Whether a call has failed.
    ghost has_failed: { Self → Bool };

    /// The bytes of its name.
    ghost name_of: { Self → List ℕ };

    /// Reads some bytes, as `std::io::Read::read` does.
    fn get(&mut self, buffer: &mut [u8]) -> io::Result<usize>
        ensures bound { ReadsAtMost result buffer.new }
        ensures bytes { ReadConsumes (remaining self.old) (remaining self.new) result buffer.new }
        ensures failed { has_failed self.new ≡ (has_failed self.old || is_err result) }
        ensures name { name_of self.new ≡ name_of self.old };

    /// Whether a call has failed.
    fn failed(&self) -> bool
        ensures { result ≡ has_failed self.now };

    /// The FILE that a refusal prints.
    fn name(&self) -> &str
        ensures { result.now ≡ name_of self.now };
}

impl<T: Read, A: Allocator> Source for Watched<T, A> {
    ghost use Rattle.checkpoint_file.specs.Watched.{fails, inner_of, name_text};

    ghost remaining = { λ w. T.remaining (inner_of w) };

    ghost has_failed = { λ w. fails w };

    ghost name_of = { λ w. name_text w };

    fn get(&mut self, buffer: &mut [u8]) -> io::Result<usize> {
        let result = self.inner.read(buffer);
        if result.is_err() {
            self.failed = true;
        }
        result
    }

    fn failed(&self) -> bool {
        self.failed
    }

    fn name(&self) -> &str {
        &self.name
    }
}

/// The most bytes that are read from one device: 64 MiB.
const LIMIT: usize = 64 * 1024 * 1024;

/// Why the bytes of a device aren't read.
#[derive(Clone, Copy)]
pub enum Unread {
    /// The device failed.
    DeviceFailed,
    /// It has more than `LIMIT` bytes.
    TooLong,
    /// Memory ran out.
    OutOfMemory,
}

/// Reads all bytes that are left, at most `LIMIT`.
pub fn get_all<A: Allocator, R: Source>(alloc: A, device: &mut R) -> Result<Vec<u8, A>, Unread>
    requires { R.has_failed device.old ≡ false }
    ensures ok { IfOk result (λ bytes. IfSome (R.remaining device.old)
        (λ input. bytes.items ≡ input)) }
    ensures limit { IfOk result (λ bytes. length bytes.items ≤ file_limit) }
    ensures works { OnOk result (R.has_failed device.new ≡ false) }
    ensures err { IfErr result (IsUnread (R.has_failed device.new) (R.remaining device.old)) }
    ensures name { R.name_of device.new ≡ R.name_of device.old }
{
    let mut bytes = Vec::new(alloc);
    let mut buffer = [0u8; 4096];
    loop {
        match device.get(&mut buffer) {
            Err(_) => return Err(Unread::DeviceFailed),
            Ok(0) => return Ok(bytes),
            Ok(count) => {
                if count > LIMIT - bytes.len() {
                    return Err(Unread::TooLong);
                }
                if bytes.extend_from_slice(&buffer[..count]).is_err() {
                    return Err(Unread::OutOfMemory);
                }
            }
        }
    }
}
