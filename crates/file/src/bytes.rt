// Numbers in the bytes of a board file, the low byte first: two bytes and four make numbers of two types, by a
// library function each, so one function over both would be no plainer.
ghost use Rattle.std.specs.Prelude.{◌≡◌, ◌+◌, ◌≤◌, length};
ghost use Rattle.layout.specs.Bytes.{two, four};

// The number in two bytes.
pub(crate) fn two_at(s: &[u8], at: usize) -> u16
    requires { at + 2 ≤ length s.now }
    ensures { result ≡ two s.now at }
{
    u16::from_le_bytes([s[at], s[at + 1]])
}

// The number in four bytes.
pub(crate) fn four_at(s: &[u8], at: usize) -> u32
    requires { at + 4 ≤ length s.now }
    ensures { result ≡ four s.now at }
{
    u32::from_le_bytes([s[at], s[at + 1], s[at + 2], s[at + 3]])
}
