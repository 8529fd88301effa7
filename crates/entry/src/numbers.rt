// The number that a field writes.
ghost use Rattle.std.specs.Prelude.{◌≡◌, ◌^◌, ◌<◌, ◌≤◌};
ghost use Rattle.entry.specs.Line.{number_below, signed, unsigned};

// The number that digits write, where there is one at least and the number is below the limit.
fn read_below(digits: &[u8], limit: u64) -> Option<u64>
    requires { (0 < limit) × (limit ≤ 2 ^ 32) }
    ensures { result ≡ number_below limit digits.now }
{
    if digits.is_empty() {
        return None;
    }
    // a loop and no fold: that the number stays below the limit is known at each turn of a loop alone
    let mut number = 0;
    for b in digits {
        if !b.is_ascii_digit() {
            return None;
        }
        number = 10 * number + u64::from(*b - b'0');
        // more digits would only make it greater
        if number >= limit {
            return None;
        }
    }
    Some(number)
}

// The number of 32 bits that a field writes.
pub(crate) fn read_unsigned(field: &[u8]) -> Option<u32>
    ensures { result ≡ unsigned field.now }
{
    read_below(field, 1 << 32).map(|number| number as u32)
}

// The signed number of 32 bits that a field writes: a `-` in front makes it negative.
pub(crate) fn read_signed(field: &[u8]) -> Option<i32>
    ensures { result ≡ signed field.now }
{
    match field {
        [b'-', digits @ ..] => {
            read_below(digits, (1 << 31) + 1).map(|number| -(number as i64) as i32)
        }
        _ => read_below(field, 1 << 31).map(|number| number as i32),
    }
}
