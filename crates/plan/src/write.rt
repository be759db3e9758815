// The bytes of a plan. Each writer puts them at the front of what is lent and leaves what stands behind as it was, so the
// next writer is lent the rest.
ghost use Rattle.std.specs.Prelude.{◌≡◌, [], ◌∷◌, ◌++◌, ◌≤◌, length};
ghost use Rattle.model.specs.Bytes.{le16, le32};
ghost use Rattle.model.specs.Plan.{move_bytes};
ghost use Rattle.little_endian.specs.Front.{front};

use little_endian::{put_byte, put_dword, put_word};

// A move: its code and its next state.
pub fn put_move(out: &mut [u8], code: u8, to: u16)
    requires { 3 ≤ length out.old }
    ensures { out.new ≡ front (move_bytes (record { code = code; to = to } ∷ [])) out.old }
{
    put_byte(out, code);
    put_word(&mut out[1..], to);
}

// The trailer: the offset of the index, the state count, n and k.
pub fn put_trailer(out: &mut [u8], index: u32, count: u16, n: u8, k: u8)
    requires { 8 ≤ length out.old }
    ensures { out.new ≡ front (le32 index ++ (le16 count ++ n ∷ k ∷ [])) out.old }
{
    put_dword(out, index);
    put_word(&mut out[4..], count);
    put_byte(&mut out[6..], n);
    put_byte(&mut out[7..], k);
}
