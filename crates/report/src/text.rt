// A text of limited length, kept without a heap, so that making one can never fail.
ghost use Rattle.std.specs.Prelude.{◌≡◌, ◌≤◌, length};

/// The most bytes of a text.
pub(crate) const LONGEST_TEXT: usize = 8_192;

/// At most 8,192 bytes of text, which is more than any book or fault takes. No `ArrayString`: it hides
/// the bytes behind the text, and the must-fail edit of `as_bytes` has to show them.
#[derive(Clone, Copy)]
pub struct Text {
    pub(crate) bytes: [u8; LONGEST_TEXT],
    pub(crate) count: usize,
    ghost few: { (count ≤ 8192) × (length bytes ≡ 8192) },
}
