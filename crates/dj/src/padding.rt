// The bytes behind the payload of a radio report.
ghost use Rattle.std.specs.Prelude.{◌≡◌};
ghost use Rattle.dj.specs.Padding.{is_zero_from, is_clean_after};

// Whether every byte from this offset on is zero.
pub fn is_zero_from(bytes: &[u8], offset: usize) -> bool
    ensures zero { result ≡ is_zero_from bytes.now offset }
{
    match bytes.get(offset..) {
        Some(rest) => rest.iter().all(|byte| *byte == 0),
        None => true,
    }
}

// Whether nothing but zeros is behind a payload of this length.
pub fn is_clean(length: u8, bytes: &[u8]) -> bool
    ensures clean { result ≡ is_clean_after length bytes.now }
{
    is_zero_from(bytes, report::DJ_START as usize + length as usize)
}
