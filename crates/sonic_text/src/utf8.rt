ghost use Rattle.std.specs.Prelude.{◌≡◌, ◌≤◌, ◌<◌, take, drop, encode_utf8};
ghost use Rattle.std.specs.Char.{len_utf8};

/// Writes the bytes of a code point in UTF-8, and returns how many, or 0 above 0x10FFFF.
///
/// The bytes are those of the bit patterns of RFC 3629, section 3, and after them `out` stays as
/// it was. A surrogate is written too: 0xD800 as `ed a0 80`, which isn't UTF-8.
pub fn codepoint_to_utf8(cp: u32, out: &mut [u8; 4]) -> usize
    ensures written { cp ≤ 0x10FFFF → take result out.new ≡ encode_utf8 cp }
    ensures len { cp ≤ 0x10FFFF → result ≡ len_utf8 cp }
    ensures above { 0x10FFFF < cp → result ≡ 0 }
    ensures after { drop result out.new ≡ drop result out.old }
{
    if cp < 0x80 {
        out[0] = cp as u8;
        return 1;
    }
    if cp < 0x800 {
        out[0] = (0xC0 + cp / 0x40) as u8;
        out[1] = (0x80 + cp % 0x40) as u8;
        return 2;
    }
    if cp < 0x1_0000 {
        out[0] = (0xE0 + cp / 0x1000) as u8;
        out[1] = (0x80 + cp / 0x40 % 0x40) as u8;
        out[2] = (0x80 + cp % 0x40) as u8;
        return 3;
    }
    if cp > 0x10_FFFF {
        return 0;
    }
    out[0] = (0xF0 + cp / 0x4_0000) as u8;
    out[1] = (0x80 + cp / 0x1000 % 0x40) as u8;
    out[2] = (0x80 + cp / 0x40 % 0x40) as u8;
    out[3] = (0x80 + cp % 0x40) as u8;
    4
}
