//! The bytes of a file.

ghost use Rattle.std.specs.Prelude.{◌≡◌, ◌≤◌, false, length, IfErr, IfOk, IfSome, OnOk};
ghost use Rattle.checkpoint_file.specs.Devices.{IsUnread};
ghost use Rattle.checkpoint_file.specs.Limits.{file_limit};
ghost use Rattle.checkpoint_file.specs.ReadFaults.{IsReadFault};

use crate::device::{Source, Unread, get_all};
use crate::fault::FileFault;
use std::alloc::Allocator;

/// All bytes that a source has left, at most 64 MiB.
///
/// # Errors
/// F8 where the source failed or has more, F7 where memory was refused.
pub fn read<A: Allocator, R: Source>(alloc: A, device: &mut R) -> Result<Vec<u8, A>, FileFault>
    requires { R.has_failed device.old ≡ false }
    ensures ok { IfOk result (λ bytes. IfSome (R.remaining device.old) (λ input. bytes.items ≡ input)) }
    ensures limit { IfOk result (λ bytes. length bytes.items ≤ file_limit) }
    ensures works { OnOk result (R.has_failed device.new ≡ false) }
    ensures err { IfErr result (IsReadFault (R.has_failed device.new) (R.remaining device.old)) }
    ensures name { R.name_of device.new ≡ R.name_of device.old }
{
    match get_all(alloc, device) {
        Ok(bytes) => Ok(bytes),
        Err(Unread::OutOfMemory) => Err(FileFault::OutOfMemory),
        Err(Unread::DeviceFailed | Unread::TooLong) => Err(FileFault::DeviceFailed),
    }
}
