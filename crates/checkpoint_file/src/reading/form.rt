//! The form of a whole text.

ghost use Rattle.std.specs.Prelude.{◌≡◌, ◌++◌, List, ℕ, IfSome, IsSomeAnd};
ghost use Rattle.checkpoint_file.specs.Forms.{HasForm, IsFormOf};
ghost use Rattle.checkpoint_file.specs.Lines.{AreBytes, digest_line};
ghost use Rattle.checkpoint_file.specs.Texts.{CheckpointValue, IsValueOf};

use crate::reading::contexts::contexts_at;
use crate::reading::digits::digits_at;
use crate::reading::fronts::after;
use crate::reading::pages::PageRoom;

/// What is kept of a text: no page and no register.
#[derive(Clone, Copy)]
pub(crate) struct Form {
    pub digest: [u8; 32],
    pub counts: [u64; 8],
    pub seal: [u8; 32],
}

// The digest of a line with a label, and what follows.
fn digest_at<'a>(bytes: &'a [u8], label: &[u8]) -> Option<([u8; 32], &'a [u8])>
    ensures found { IfSome result (λ read. bytes.now ≡ digest_line label.now read.0 ++ read.1.now) }
    ensures fits { IfSome result (λ read. AreBytes 32 read.0) }
    ensures only { (digest rest : List ℕ) → AreBytes 32 digest → bytes.now ≡ digest_line label.now digest ++ rest
        → IsSomeAnd result (λ read. (read.0 ≡ digest) × (read.1.now ≡ rest)) }
{
    let mut digest = [0u8; 32];
    let mut again = [0u8; 64];
    let digits = after(bytes, label)?;
    let end = digits_at(digits, &mut digest, &mut again)?;
    let rest = after(end, b"\n")?;
    Some((digest, rest))
}

/// The form of a text of version 1.
pub(crate) fn form_of(text: &[u8]) -> Option<Form>
    ensures found { IfSome result (λ form. HasForm text.now form) }
    ensures only { (value : CheckpointValue) → IsValueOf text.now value → IsSomeAnd result (IsFormOf value) }
{
    let mut room = PageRoom {
        bytes: [0; 4096],
        digits: [0; 8192],
    };
    let origin = after(text, b"smt-lab checkpoint 1\n")?;
    let (digest, contexts) = digest_at(origin, b"origin ")?;
    let (counts, end) = contexts_at(contexts, &mut room)?;
    let (seal, rest) = digest_at(end, b"seal ")?;
    if rest.is_empty() {
        Some(Form {
            digest,
            counts,
            seal,
        })
    } else {
        None
    }
}
