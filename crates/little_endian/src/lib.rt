// Little-endian numbers: read at an offset of a slice of bytes, and their bytes.
#![tactic(auto)]

ghost use Rattle.std.specs.Prelude.{◌≡◌, ◌+◌, ◌≤◌, length};
ghost use Rattle.little_endian.specs.Bytes.{u16_at, u32_at, i32_at, u16_bytes, u32_bytes, i32_bytes};

// The number of 2 bytes that starts at an offset.
pub fn read_u16(s: &[u8], at: usize) -> u32
    requires { at + 2 ≤ length s.now }
    ensures { result ≡ u16_at s.now at }
{
    u32::from(u16::from_le_bytes([s[at], s[at + 1]]))
}

// The number of 4 bytes that starts at an offset.
pub fn read_u32(s: &[u8], at: usize) -> u32
    requires { at + 4 ≤ length s.now }
    ensures { result ≡ u32_at s.now at }
{
    u32::from_le_bytes([s[at], s[at + 1], s[at + 2], s[at + 3]])
}

// The signed number of 4 bytes that starts at an offset.
#[tactic(auto, unfolding(crate::specs::Bytes::signed32))]
pub fn read_i32(s: &[u8], at: usize) -> i32
    requires { at + 4 ≤ length s.now }
    ensures { result ≡ i32_at s.now at }
{
    read_u32(s, at).cast_signed()
}

// The 2 bytes of a number.
pub fn u16_bytes(n: u32) -> [u8; 2]
    ensures { result ≡ u16_bytes n }
{
    let [lowest, next, ..] = u32_bytes(n);
    [lowest, next]
}

// The 4 bytes of a number.
pub fn u32_bytes(n: u32) -> [u8; 4]
    ensures { result ≡ u32_bytes n }
{
    n.to_le_bytes()
}

// The 4 bytes of a signed number.
pub fn i32_bytes(n: i32) -> [u8; 4]
    ensures { result ≡ i32_bytes n }
{
    u32_bytes(n.cast_unsigned())
}
