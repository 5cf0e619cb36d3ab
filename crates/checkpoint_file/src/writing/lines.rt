//! Single lines.

ghost use Rattle.std.specs.Prelude.{◌≡◌, ◌*◌, ◌++◌, ◌∷◌, [], List, ℕ, codes, false, length};
ghost use Rattle.std.specs.Fmt.{decimal};
ghost use Rattle.hex.specs.Hex.{encode_lower};
ghost use Rattle.sha2.specs.Hashers.{Holds256};
ghost use Rattle.sha2.specs.Sha256.{sha256};
ghost use Rattle.checkpoint_file.specs.Lines.{digest_line, page_line, register_line, seal_line, word_line, word_text};
ghost use Rattle.checkpoint_file.specs.Written.{Puts, Writes};

use crate::device::{Failed, Sink, put_all};
use itoa::Buffer;
use paged_memory::Page;
use sha2::{Digest, Sha256};

/// Writes bytes.
pub(super) fn put_bytes<W: Sink>(
    device: &mut W,
    hasher: &mut Sha256,
    bytes: &[u8],
) -> Result<(), Failed>
    requires { W.has_failed device.old ≡ false }
    ensures written { Writes (W.contents device.old) (W.contents device.new) (W.has_failed device.new)
        hasher.old hasher.new bytes.now result }
    ensures name { W.name_of device.new ≡ W.name_of device.old }
{
    hasher.update(bytes);
    put_all(device, bytes)?;
    Ok(())
}

/// Writes two digits for each byte, by way of `room`, which has their length.
pub(super) fn put_digits<W: Sink>(
    device: &mut W,
    hasher: &mut Sha256,
    bytes: &[u8],
    room: &mut [u8],
) -> Result<(), Failed>
    requires works { W.has_failed device.old ≡ false }
    requires room { length room.old ≡ 2 * length bytes.now }
    ensures written { Writes (W.contents device.old) (W.contents device.new) (W.has_failed device.new)
        hasher.old hasher.new (encode_lower bytes.now) result }
    ensures name { W.name_of device.new ≡ W.name_of device.old }
{
    let _ = hex::encode_to_slice(bytes, room);
    put_bytes(device, hasher, room)?;
    Ok(())
}

// Writes a decimal number.
fn put_number<W: Sink>(device: &mut W, hasher: &mut Sha256, number: u64) -> Result<(), Failed>
    requires { W.has_failed device.old ≡ false }
    ensures written { Writes (W.contents device.old) (W.contents device.new) (W.has_failed device.new)
        hasher.old hasher.new (decimal number) result }
    ensures name { W.name_of device.new ≡ W.name_of device.old }
{
    let mut buffer = Buffer::new();
    put_bytes(device, hasher, buffer.format(number).as_bytes())?;
    Ok(())
}

// Writes sixteen digits.
fn put_word<W: Sink>(device: &mut W, hasher: &mut Sha256, word: u64) -> Result<(), Failed>
    requires { W.has_failed device.old ≡ false }
    ensures written { Writes (W.contents device.old) (W.contents device.new) (W.has_failed device.new)
        hasher.old hasher.new (word_text word) result }
    ensures name { W.name_of device.new ≡ W.name_of device.old }
{
    let mut room = [0u8; 16];
    put_digits(device, hasher, &word.to_be_bytes(), &mut room)?;
    Ok(())
}

// Writes the digits of a page's bytes, by way of `room`.
fn put_content<W: Sink>(
    device: &mut W,
    hasher: &mut Sha256,
    page: &Page,
    room: &mut [u8; 8192],
) -> Result<(), Failed>
    requires { W.has_failed device.old ≡ false }
    ensures written { Writes (W.contents device.old) (W.contents device.new) (W.has_failed device.new)
        hasher.old hasher.new (encode_lower page.now.bytes) result }
    ensures name { W.name_of device.new ≡ W.name_of device.old }
{
    put_digits(device, hasher, page.bytes(), room)?;
    Ok(())
}

// Writes the digits of a page's address.
fn put_address<W: Sink>(device: &mut W, hasher: &mut Sha256, page: &Page) -> Result<(), Failed>
    requires { W.has_failed device.old ≡ false }
    ensures written { Writes (W.contents device.old) (W.contents device.new) (W.has_failed device.new)
        hasher.old hasher.new (word_text page.now.address) result }
    ensures name { W.name_of device.new ≡ W.name_of device.old }
{
    put_word(device, hasher, page.address())?;
    Ok(())
}

/// Writes the line of a digest.
pub(super) fn put_digest_line<W: Sink>(
    device: &mut W,
    hasher: &mut Sha256,
    label: &[u8],
    digest: &[u8; 32],
) -> Result<(), Failed>
    requires { W.has_failed device.old ≡ false }
    ensures written { Writes (W.contents device.old) (W.contents device.new) (W.has_failed device.new)
        hasher.old hasher.new (digest_line label.now digest.now) result }
    ensures name { W.name_of device.new ≡ W.name_of device.old }
{
    let mut room = [0u8; 64];
    put_bytes(device, hasher, label)?;
    put_digits(device, hasher, digest, &mut room)?;
    put_bytes(device, hasher, b"\n")?;
    Ok(())
}

/// Writes a line of a label and a decimal number.
pub(super) fn put_number_line<W: Sink>(
    device: &mut W,
    hasher: &mut Sha256,
    label: &[u8],
    number: u64,
) -> Result<(), Failed>
    requires { W.has_failed device.old ≡ false }
    ensures written { Writes (W.contents device.old) (W.contents device.new) (W.has_failed device.new)
        hasher.old hasher.new (label.now ++ (decimal number ++ (10 ∷ []))) result }
    ensures name { W.name_of device.new ≡ W.name_of device.old }
{
    put_bytes(device, hasher, label)?;
    put_number(device, hasher, number)?;
    put_bytes(device, hasher, b"\n")?;
    Ok(())
}

/// Writes a line of a label and sixteen digits.
pub(super) fn put_word_line<W: Sink>(
    device: &mut W,
    hasher: &mut Sha256,
    label: &[u8],
    word: u64,
) -> Result<(), Failed>
    requires { W.has_failed device.old ≡ false }
    ensures written { Writes (W.contents device.old) (W.contents device.new) (W.has_failed device.new)
        hasher.old hasher.new (word_line label.now word) result }
    ensures name { W.name_of device.new ≡ W.name_of device.old }
{
    put_bytes(device, hasher, label)?;
    put_word(device, hasher, word)?;
    put_bytes(device, hasher, b"\n")?;
    Ok(())
}

/// Writes the line of a register.
pub(super) fn put_register<W: Sink>(
    device: &mut W,
    hasher: &mut Sha256,
    number: usize,
    value: u64,
) -> Result<(), Failed>
    requires { W.has_failed device.old ≡ false }
    ensures written { Writes (W.contents device.old) (W.contents device.new) (W.has_failed device.new)
        hasher.old hasher.new (register_line number value) result }
    ensures name { W.name_of device.new ≡ W.name_of device.old }
{
    put_bytes(device, hasher, b"x")?;
    put_number(device, hasher, number as u64)?;
    put_word_line(device, hasher, b" ", value)?;
    Ok(())
}

/// Writes the line of a page, by way of `room`.
pub(super) fn put_page<W: Sink>(
    device: &mut W,
    hasher: &mut Sha256,
    page: &Page,
    room: &mut [u8; 8192],
) -> Result<(), Failed>
    requires { W.has_failed device.old ≡ false }
    ensures written { Writes (W.contents device.old) (W.contents device.new) (W.has_failed device.new)
        hasher.old hasher.new (page_line page.now) result }
    ensures name { W.name_of device.new ≡ W.name_of device.old }
{
    put_bytes(device, hasher, b"page ")?;
    put_address(device, hasher, page)?;
    put_bytes(device, hasher, b" ")?;
    put_content(device, hasher, page, room)?;
    put_bytes(device, hasher, b"\n")?;
    Ok(())
}

/// Writes the seal of what was hashed.
pub(crate) fn put_seal<W: Sink>(device: &mut W, hasher: Sha256) -> Result<(), Failed>
    requires { W.has_failed device.old ≡ false }
    ensures written { (message : List ℕ) → Holds256 hasher message → Puts (W.contents device.old)
        (W.contents device.new) (W.has_failed device.new) (seal_line (sha256 message)) result }
    ensures name { W.name_of device.new ≡ W.name_of device.old }
{
    let digest = hasher.finalize();
    let mut line = *b"seal 0000000000000000000000000000000000000000000000000000000000000000\n";
    let _ = hex::encode_to_slice(digest, &mut line[5..69]);
    put_all(device, &line)?;
    Ok(())
}
