//! Writing the text of marks.

ghost use Rattle.std.specs.Prelude.{◌≡◌, ◌++◌, false, true, Err, OnErr, OnOk};
ghost use Rattle.std.specs.Io.KnownBytes.{Appends};
ghost use Rattle.checkpoint.specs.Aligned.{IsAligned};
ghost use Rattle.checkpoint_file.specs.Devices.{AppendsBeginning};
ghost use Rattle.checkpoint_file.specs.Texts.{text_of};
ghost use Rattle.checkpoint_file.specs.Written.{Puts};

use crate::device::{Failed, Sink};
use crate::fault::FileFault;
use crate::writing::{put_body, put_seal};
use checkpoint::Mark;
use join_law::Eight;
use sha2::{Digest, Sha256};
use std::alloc::Allocator;

// Writes the text of marks.
#[tactic(auto, using(crate::proofs::WrittenLemmas::sealed, crate::proofs::WrittenLemmas::seal_fails, crate::proofs::WrittenLemmas::first_fails))]
fn put_text<W: Sink, A: Allocator>(device: &mut W, marks: &Eight<Mark<A>>) -> Result<(), Failed>
    requires { W.has_failed device.old ≡ false }
    ensures written { Puts (W.contents device.old) (W.contents device.new) (W.has_failed device.new)
        (text_of marks.now) result }
    ensures name { W.name_of device.new ≡ W.name_of device.old }
{
    let mut hasher = Sha256::new();
    put_body(device, &mut hasher, marks)?;
    put_seal(device, hasher)?;
    Ok(())
}

/// Writes the text of marks, which takes no memory.
///
/// # Errors
/// F8 where the sink failed: a beginning of the text was written.
pub fn write<W: Sink, A: Allocator>(device: &mut W, marks: &Eight<Mark<A>>) -> Result<(), FileFault>
    requires works { W.has_failed device.old ≡ false }
    requires aligned { IsAligned marks.now }
    ensures ok { OnOk result (Appends (W.contents device.old) (W.contents device.new) (text_of marks.now)) }
    ensures works { OnOk result (W.has_failed device.new ≡ false) }
    ensures err { OnErr result (AppendsBeginning (W.contents device.old) (W.contents device.new) (text_of marks.now)) }
    ensures fails { OnErr result (W.has_failed device.new ≡ true) }
    ensures code { OnErr result (result ≡ Err FileFault.DeviceFailed) }
    ensures name { W.name_of device.new ≡ W.name_of device.old }
{
    match put_text(device, marks) {
        Ok(()) => Ok(()),
        Err(_) => Err(FileFault::DeviceFailed),
    }
}
