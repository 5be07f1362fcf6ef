// What is left of the bytes that are read.
ghost use Rattle.std.specs.Prelude.{◌≡◌, ◌+◌, ◌<◌, ◌≤◌, ◌^◌, length};

use crate::fault::WireFault;

/// The bytes that are left, and the place of the first of them.
#[derive(Clone, Copy)]
pub(crate) struct Cursor<'a> {
    pub(crate) at: usize,
    pub(crate) bytes: &'a [u8],
    ghost fits: { at + length bytes.now < 2 ^ 64 },
}
