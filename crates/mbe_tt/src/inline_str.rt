// Texts of at most 14 bytes, which are stored in the value itself.
//
// A `Symbol` keeps a short text in this form, so that the text needs no allocation.
ghost use Rattle.std.specs.Prelude.{◌≡◌, ◌<◌, ◌≤◌, ◌↔◌, length, IsSome, IfSome};

use std::marker::Model;
use std::str;

// The greatest length in bytes. With 14, a symbol takes 16 bytes, as two pointers do.
const MAX_LEN: usize = 14;

// A text of at most 14 bytes. Clauses see it as the list of its bytes.
#[derive(Drop)]
pub(crate) struct InlineStr {
    len: u8,
    bytes: [u8; 14],
}

impl Model for InlineStr {
    ghost use Rattle.std.specs.Prelude.{List, ℕ, ◌≤◌, take, IsUtf8};

    ghost Value = { List ℕ };

    ghost view = { λ w. take w.len w.bytes };

    ghost invariant = { λ w. (w.len ≤ 14) × ∥ IsUtf8 (take w.len w.bytes) ∥₁ };
}

impl InlineStr {
    // Returns a copy of the text, or `None` if the text is longer than 14 bytes.
    #[inline]
    pub(crate) fn of(text: &str) -> Option<InlineStr>
        ensures some { IsSome result ↔ (length text.now ≤ 14) }
        ensures text { IfSome result (λ w. w ≡ text.now) }
    {
        let len = text.len();
        if len > MAX_LEN {
            return None;
        }
        let mut bytes = [0; 14];
        bytes[..len].copy_from_slice(text.as_bytes());
        Some(InlineStr {
            len: len as u8,
            bytes,
        })
    }

    // Returns the text.
    #[inline]
    pub(crate) fn as_str(&self) -> &str
        ensures { result.now ≡ self.now }
    {
        unsafe { str::from_utf8_unchecked(&self.bytes[..self.len as usize]) }
    }

    // Returns a copy.
    #[inline]
    pub(crate) fn copied(&self) -> InlineStr
        ensures { result ≡ self.now }
    {
        InlineStr {
            len: self.len,
            bytes: self.bytes,
        }
    }
}
