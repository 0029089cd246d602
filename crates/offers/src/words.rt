//! Whole numbers as bytes in a slice, the high ones first, and tests on ranges.
ghost use Rattle.std.specs.Prelude.{◌≡◌, ◌+◌, ◌^◌, ◌<◌, ◌≤◌, ◌++◌, length, take, drop};
ghost use Rattle.std.specs.Int.Digits.{number_from_digits};
ghost use Rattle.offers.specs.Fields.{high_first, within, first_false};
ghost use Rattle.offers.specs.Layouts.{numbered_field};

/// Whether a value is one of `least` to `most`.
pub(crate) fn within(value: u64, least: u64, most: u64) -> bool
    ensures { result ≡ within least most value }
{
    (least..=most).contains(&value)
}

/// The field number of the first that is out of range, the first field being 2.
pub(crate) fn first_outside(in_range: &[bool]) -> Option<u8>
    requires { length in_range.now ≤ 12 }
    ensures { result ≡ numbered_field (first_false 2 in_range.now) }
{
    let place = in_range.iter().position(|ok| !*ok)?;
    Some(place as u8 + 2)
}

/// Writes the last `N` of a number's eight bytes from `at` on.
pub(crate) fn put<const N: usize>(out: &mut [u8], at: usize, value: u64)
    requires few { N ≤ 8 }
    requires room { at + N ≤ length out.old }
    ensures front { take (at + N) out.new ≡ take at out.old ++ high_first N value }
    ensures back { drop (at + N) out.new ≡ drop (at + N) out.old }
{
    out[at..at + N].copy_from_slice(&value.to_be_bytes()[8 - N..]);
}

/// The number in `N` bytes from `at` on.
pub(crate) fn number_at<const N: usize>(source: &[u8], at: usize) -> u64
    requires few { N ≤ 8 }
    requires room { at + N ≤ length source.now }
    ensures value { result ≡ number_from_digits 256 (take N (drop at source.now)) }
    ensures bound { result < 256 ^ N }
{
    let mut bytes = [0u8; 8];
    bytes[8 - N..].copy_from_slice(&source[at..at + N]);
    u64::from_be_bytes(bytes)
}
