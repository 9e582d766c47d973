//! The low bytes of a value, and their extension to an operand (Core 1.0, section 4.4.4: loads and stores of fewer
//! bytes).

ghost use Rattle.std.specs.Prelude.{◌≡◌, ◌*◌, ◌^◌, ◌<◌};
ghost use Rattle.wm_access.specs.AccessWidth.{bytes_of};
ghost use Rattle.wm_num.specs.Number.{bits_of, IsOperand, signed_view};
ghost use Rattle.wm_num.specs.Conversion.{low_part, extension_meaning};

use crate::operator::Width;
use crate::sign::Signedness;
use wm_access::AccessWidth;

/// The low bytes of the value: the value modulo 2^8, 2^16, 2^32 or 2^64.
pub fn low_bytes(value: u64, bytes: AccessWidth) -> u64
    ensures meaning { result ≡ low_part bytes value }
    ensures bound { result < 2 ^ (8 * bytes_of bytes) }
{
    match bytes {
        AccessWidth::One => value % 0x100,
        AccessWidth::Two => value % 0x1_0000,
        AccessWidth::Four => value % 0x1_0000_0000,
        AccessWidth::Eight => value,
    }
}

/// The low bytes of the value, read as a signed or unsigned integer of that many bytes, as an operand of the width: a
/// negative integer has 2^w added, and eight bytes at W32 are cut to four. An operand read at its own width doesn't
/// change.
pub fn extend_bytes(value: u64, bytes: AccessWidth, width: Width, signedness: Signedness) -> u64
    ensures meaning { result ≡ extension_meaning signedness bytes width value }
    ensures operand { IsOperand width result }
    ensures own_width { 8 * bytes_of bytes ≡ bits_of width → IsOperand width value → result ≡ value }
{
    let low = low_bytes(value, bytes);
    let extended = match signedness {
        Signedness::Unsigned => low,
        Signedness::Signed => signed_bytes(low, bytes).cast_unsigned(),
    };
    match width {
        Width::W32 => low_bytes(extended, AccessWidth::Four),
        Width::W64 => extended,
    }
}

/// The signed view of an integer of that many bytes.
fn signed_bytes(low: u64, bytes: AccessWidth) -> i64
    requires { low < 2 ^ (8 * bytes_of bytes) }
    ensures { result ≡ signed_view (8 * bytes_of bytes) low }
{
    match bytes {
        AccessWidth::One => i64::from((low as u8).cast_signed()),
        AccessWidth::Two => i64::from((low as u16).cast_signed()),
        AccessWidth::Four => i64::from((low as u32).cast_signed()),
        AccessWidth::Eight => low.cast_signed(),
    }
}
