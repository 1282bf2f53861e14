// Numbers and what a port holds, read from the front of a lent text. Each function gives what it found and the text after it, or None.
#![tactic(auto)]

ghost use Rattle.std.specs.Prelude.{◌≡◌, ◌+◌, ◌*◌, ◌^◌, ◌≤◌, ◌<◌, IfSome};
ghost use Rattle.text.specs.Texts.{digits16, digits32};
ghost use Rattle.scan.specs.Scans.{word_scan, stopped, run_after, decimal_scan, digit_more, digits_scan, hex_scan, serial_scan, version_scan};
ghost use Rattle.scan.specs.ScanContracts.{scan_of, after_of, too_large, capped, capped_scan, capped_run, digit_value};

use port::Version;

// Stands for every number that is larger than any field may hold: `capped_scan`, which `scan_number` promises, has it so.
const TOO_LARGE: u16 = 1000;

// A value that was read, if this byte comes next.
#[tactic(auto, unfolding(crate::specs::Scans::stopped))]
fn stopped<T: Drop>(value: T, text: &[u8], stop: u8) -> Option<(T, &[u8])>
    ensures { scan_of result ≡ stopped stop value text.now }
{
    match text {
        [c, text @ ..] if *c == stop => Some((value, text)),
        _ => None,
    }
}

// The bytes of a word.
#[tactic(auto, using(crate::proofs::ScansLaws::word_stripped))]
pub fn scan_word<'a>(text: &'a [u8], word: &[u8]) -> Option<&'a [u8]>
    ensures found { after_of result ≡ word_scan word.now text.now }
{
    text.strip_prefix(word)
}

// One digit more; every number from TOO_LARGE on is the same.
#[tactic(auto, unfolding(crate::specs::ScanContracts::capped))]
fn grown(value: u16, digit: u8) -> u16
    requires value { value ≤ too_large }
    requires digit { digit ≤ 9 }
    ensures { result ≡ capped (value * 10 + digit) }
{
    (value * 10 + digit as u16).min(TOO_LARGE)
}

// Goes over the digits that come next.
#[tactic(auto, using(crate::proofs::ScansLaws::run_begun, crate::proofs::ScansLaws::run_more))]
fn digits_after(text: &[u8]) -> (u16, &[u8])
    ensures { (result.0, result.1.now) ≡ capped_run (run_after 0 text.now) }
{
    let mut value = 0;
    let mut after = text;
    while let [c @ b'0'..=b'9', rest @ ..] = after {
        value = grown(value, *c - b'0');
        after = rest;
    }
    (value, after)
}

// A decimal number of any length without a leading zero, and the byte after it; TOO_LARGE stands for it from TOO_LARGE on.
#[tactic(auto, unfolding(crate::specs::Scans::number_scan, crate::specs::ScanContracts::capped_scan), using(crate::proofs::ScansLaws::number_zero, crate::proofs::ScansLaws::number_run))]
pub fn scan_number(text: &[u8], stop: u8) -> Option<(u16, &[u8])>
    ensures found { scan_of result ≡ capped_scan stop text.now }
{
    match text {
        [b'0', text @ ..] => stopped(0, text, stop),
        [b'1'..=b'9', ..] => {
            let (value, text) = digits_after(text);
            stopped(value, text, stop)
        }
        _ => None,
    }
}

// A decimal number without a leading zero that is at most `most`, and the byte after it.
#[tactic(auto, unfolding(crate::specs::Scans::decimal_scan, crate::specs::ScanContracts::capped_scan, crate::specs::ScanContracts::capped))]
pub fn scan_decimal(text: &[u8], most: u8, stop: u8) -> Option<(u8, &[u8])>
    ensures found { scan_of result ≡ decimal_scan most stop text.now }
    ensures most { IfSome result (λ read. read.0 ≤ most) }
{
    let (value, text) = scan_number(text, stop)?;
    if value <= most as u16 {
        Some((value as u8, text))
    } else {
        None
    }
}

// The value of a hexadecimal digit in capitals.
#[tactic(auto, unfolding(crate::specs::Scans::capital_digit))]
fn capital_digit(c: u8) -> Option<u8>
    ensures { result ≡ digit_value c }
{
    match c {
        b'0'..=b'9' => Some(c - b'0'),
        b'A'..=b'F' => Some(c - b'A' + 10),
        _ => None,
    }
}

// One digit more, after those that came to `value`.
#[tactic(auto, unfolding(crate::specs::Scans::digit_more))]
fn digit_more(value: u32, text: &[u8]) -> Option<(u32, &[u8])>
    requires { value * 16 + 15 < 2 ^ 32 }
    ensures found { scan_of result ≡ digit_more value text.now }
    ensures small { IfSome result (λ read. read.0 ≤ value * 16 + 15) }
{
    let (c, text) = text.split_first()?;
    Some((value * 16 + capital_digit(*c)? as u32, text))
}

// Hexadecimal in capitals at a fixed width.
#[tactic(auto, unfolding(crate::specs::Scans::digits_scan), using(crate::proofs::ScansLaws::digits_more, crate::proofs::ScansLaws::digits_missing, crate::proofs::ScansLaws::digit_small))]
fn scan_digits(text: &[u8], width: u8) -> Option<(u32, &[u8])>
    requires { width ≤ digits32 }
    ensures found { scan_of result ≡ digits_scan width text.now }
    ensures small { IfSome result (λ read. read.0 < 16 ^ width) }
{
    let mut value: u32 = 0;
    let mut rest = text;
    for _ in 0..width {
        (value, rest) = digit_more(value, rest)?;
    }
    Some((value, rest))
}

// A number of 16 bits, and the byte after it. Not one function with the next, over the width: no public function has a `requires`, and nine digits would overflow.
#[tactic(auto, unfolding(crate::specs::Scans::hex_scan))]
pub fn scan_hex16(text: &[u8], stop: u8) -> Option<(u16, &[u8])>
    ensures found { scan_of result ≡ hex_scan digits16 stop text.now }
{
    let (value, text) = scan_digits(text, text::DIGITS_16)?;
    stopped(value as u16, text, stop)
}

// A number of 32 bits, and the byte after it.
#[tactic(auto, unfolding(crate::specs::Scans::hex_scan))]
pub fn scan_hex32(text: &[u8], stop: u8) -> Option<(u32, &[u8])>
    ensures found { scan_of result ≡ hex_scan digits32 stop text.now }
{
    let (value, text) = scan_digits(text, text::DIGITS_32)?;
    stopped(value, text, stop)
}

// A serial, or "-".
#[tactic(auto, unfolding(crate::specs::Scans::serial_scan, crate::specs::Scans::known_serial, crate::specs::Scans::hex_scan, crate::specs::Scans::digits_scan, crate::specs::Scans::digit_more))]
pub fn scan_serial(text: &[u8], stop: u8) -> Option<(Option<u32>, &[u8])>
    ensures found { scan_of result ≡ serial_scan stop text.now }
{
    match text {
        [b'-', text @ ..] => stopped(None, text, stop),
        _ => {
            let (number, text) = scan_hex32(text, stop)?;
            Some((Some(number), text))
        }
    }
}

// A version, or "-".
#[tactic(auto, unfolding(crate::specs::Scans::version_scan, crate::specs::Scans::known_version, crate::specs::Scans::pair_scan, crate::specs::Scans::decimal_scan, crate::specs::Scans::number_scan))]
pub fn scan_version(text: &[u8], stop: u8) -> Option<(Option<Version>, &[u8])>
    ensures found { scan_of result ≡ version_scan stop text.now }
{
    if let [b'-', text @ ..] = text {
        return stopped(None, text, stop);
    }
    let (major, text) = scan_decimal(text, u8::MAX, b'.')?;
    let (minor, text) = scan_decimal(text, u8::MAX, stop)?;
    Some((Some(Version { major, minor }), text))
}
