// The payloads of radio reports.
ghost use Rattle.std.specs.Prelude.{◌≡◌};
ghost use Rattle.report.specs.Radio.{payload_length};

pub const RADIO_TYPES: u8 = 32;

// The length of a payload by its type, which is the row's number. 0 means all that follows.
const PAYLOAD_LENGTHS: [u8; RADIO_TYPES as usize] = [
    0, // 0
    7, // 1: keyboard
    7, // 2: mouse
    4, // 3: consumer control
    1, // 4: system control
    0, // 5
    0, // 6
    0, // 7
    1, // 8: media center
    0, // 9
    0, // 10
    0, // 11
    0, // 12
    0, // 13
    1, // 14: keyboard LEDs
    0, // 15
    0, // 16
    0, // 17
    0, // 18
    0, // 19
    0, // 20
    0, // 21
    0, // 22
    0, // 23
    0, // 24
    0, // 25
    0, // 26
    0, // 27
    0, // 28
    0, // 29
    0, // 30
    0, // 31
];

// The length of the payload of a radio report of this type with `following` bytes after the type.
pub fn payload_length(kind: u8, following: u8) -> u8
    ensures length { result ≡ payload_length kind following }
{
    let length = crate::byte_at(&PAYLOAD_LENGTHS, usize::from(kind));
    if length == 0 { following } else { length }
}
