// Little-endian numbers: read at a place of some bytes, and written at the front of what is lent. Document 01: "All numbers are
// little-endian." A writer leaves what stands behind as it was, so the next writer is lent the rest.
#![tactic(auto)]

ghost use Rattle.std.specs.Prelude.{◌≡◌, [], ◌∷◌, ◌+◌, ◌≤◌, length};
ghost use Rattle.model.specs.Bytes.{word, dword, le16, le32};
ghost use Rattle.little_endian.specs.Front.{front};

// The 16-bit number at a place.
pub fn word_at(b: &[u8], i: usize) -> u16
    requires within { i + 2 ≤ length b.now }
    ensures { result ≡ word b.now i }
{
    u16::from_le_bytes([b[i], b[i + 1]])
}

// The 32-bit number at a place.
pub fn dword_at(b: &[u8], i: usize) -> u32
    requires within { i + 4 ≤ length b.now }
    ensures { result ≡ dword b.now i }
{
    u32::from_le_bytes([b[i], b[i + 1], b[i + 2], b[i + 3]])
}

// A byte.
pub fn put_byte(out: &mut [u8], x: u8)
    requires room { 1 ≤ length out.old }
    ensures { out.new ≡ front (x ∷ []) out.old }
{
    out[0] = x;
}

// A 16-bit number.
pub fn put_word(out: &mut [u8], x: u16)
    requires room { 2 ≤ length out.old }
    ensures { out.new ≡ front (le16 x) out.old }
{
    out[..2].copy_from_slice(&x.to_le_bytes());
}

// A 32-bit number.
pub fn put_dword(out: &mut [u8], x: u32)
    requires room { 4 ≤ length out.old }
    ensures { out.new ≡ front (le32 x) out.old }
{
    out[..4].copy_from_slice(&x.to_le_bytes());
}
