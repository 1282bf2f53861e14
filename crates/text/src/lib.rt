// Words, numbers and what a port holds, as bytes of text put into a lent buffer from an offset on.
#![tactic(auto)]

ghost use Rattle.std.specs.Prelude.{◌≡◌, [], ◌∷◌, ◌++◌, ◌<◌, ◌≤◌, ◌+◌, ◌*◌, ℕ, List, length, take};
ghost use Rattle.report.specs.Ports.{device_count};
ghost use Rattle.port.specs.declared.Port.{Port};
ghost use Rattle.frame.specs.Writing.{frame_at, fits_at};
ghost use Rattle.frame.specs.FrameContracts.{written_outcome};
ghost use Rattle.text.specs.Words.{digit, hex, decimal};
ghost use Rattle.text.specs.Putting.{Puts, Outputs};
ghost use Rattle.text.specs.Texts.{each, paired_lines, number_most, byte_most, link_text, link_most, version_text, version_most, battery_text, battery_most, serial_text, serial_most};

use port::{Battery, Port, Version};
use report::Refusal;

// The byte between two fields of a line, and the byte at its end.
pub const TAB: u8 = b'\t';

pub const NEWLINE: u8 = b'\n';

// The hexadecimal digits of a number of 8, of 16 and of 32 bits.
pub const DIGITS_8: u8 = 2;

pub const DIGITS_16: u8 = 2 * DIGITS_8;

pub const DIGITS_32: u8 = 2 * DIGITS_16;

// The longest text of a number of 64 bits and of a byte, both in decimal, of a link, of a version, of a battery and of a serial.
pub const NUMBER_MOST: usize = 20;

pub const BYTE_MOST: usize = 3;

pub const LINK_MOST: usize = 4;

pub const VERSION_MOST: usize = 2 * BYTE_MOST + 1;

pub const BATTERY_MOST: usize = 3 * BYTE_MOST + 2;

pub const SERIAL_MOST: usize = DIGITS_32 as usize;

// Devices 1 to 6 have positions 0 to 5 among the ports; the receiver comes last.
const DEVICES: usize = report::DEVICES as usize;

const DIGITS: [u8; 16] = [
    b'0', b'1', b'2', b'3', b'4', b'5', b'6', b'7', b'8', b'9', b'A', b'B', b'C', b'D', b'E', b'F',
];

// A lent buffer, and the offset in it where the next text goes.
#[derive(Drop)]
pub struct Out<'a> {
    pub buffer: &'a mut [u8],
    pub at: usize,
}

// What puts an element of a list, and is given its position too.
pub trait PutElement<T> {
    // The longest text, and the text of an element at its position.
    ghost most: { Self → ℕ };

    ghost text: { Self → ℕ → T → List ℕ };

    fn put(&self, out: &mut Out, position: usize, element: &T)
        ensures { Outputs (most self.now) (text self.now position element.now) out.old out.new };
}

// What puts the line of a device, and is given its number too.
pub trait PutLine {
    // The longest line, and the line of a device with its number.
    ghost most: { Self → ℕ };

    ghost line: { Self → ℕ → Port → List ℕ };

    fn put(&self, out: &mut Out, number: u8, port: &Port)
        ensures { Outputs (most self.now) (line self.now number port.now) out.old out.new };
}

// Each of these puts its text, or as much of it as fits, and moves the offset after it.
impl Out<'_> {
    pub fn byte(&mut self, byte: u8)
        ensures put { Outputs 1 (byte ∷ []) self.old self.new }
    {
        if self.at < self.buffer.len() {
            self.buffer[self.at] = byte;
            self.at += 1;
        }
    }

    // The bytes of a word.
    pub fn word(&mut self, word: &[u8])
        ensures put { Outputs (length word.now) word.now self.old self.new }
    {
        if self.at < self.buffer.len() {
            let size = word.len().min(self.buffer.len() - self.at);
            let end = self.at + size;
            self.buffer[self.at..end].copy_from_slice(&word[..size]);
            self.at = end;
        }
    }

    #[tactic(auto, unfolding(crate::specs::Words::digit))]
    fn digit(&mut self, n: usize)
        requires { n < 16 }
        ensures { Outputs 1 (digit n ∷ []) self.old self.new }
    {
        self.byte(DIGITS[n])
    }

    // Hexadecimal in capitals: the last `width` digits.
    pub fn hex(&mut self, width: u8, n: usize)
        ensures put { Outputs width (hex width n) self.old self.new }
    {
        if width > 0 {
            self.hex(width - 1, n / 16);
            self.digit(n % 16)
        }
    }

    // Decimal, without a leading zero.
    pub fn decimal(&mut self, n: usize)
        ensures put { Outputs number_most (decimal n) self.old self.new }
    {
        if n < 10 {
            self.digit(n)
        } else {
            self.decimal(n / 10);
            self.digit(n % 10)
        }
    }

    // A byte in decimal.
    pub fn small(&mut self, n: u8)
        ensures put { Outputs byte_most (decimal n) self.old self.new }
    {
        self.decimal(n as usize)
    }

    #[tactic(auto, unfolding(crate::specs::Texts::link_text), using(crate::proofs::PuttingLaws::out_at_most))]
    pub fn link(&mut self, up: bool)
        ensures put { Outputs link_most (link_text up) self.old self.new }
    {
        if up {
            self.word(b"up")
        } else {
            self.word(b"down")
        }
    }

    #[tactic(auto, unfolding(crate::specs::Texts::version_text), using(crate::proofs::PuttingLaws::out_at_most))]
    pub fn version(&mut self, version: Option<Version>)
        ensures put { Outputs version_most (version_text version) self.old self.new }
    {
        match version {
            None => self.byte(b'-'),
            Some(version) => {
                self.small(version.major);
                self.byte(b'.');
                self.small(version.minor);
            }
        }
    }

    #[tactic(auto, unfolding(crate::specs::Texts::battery_text), using(crate::proofs::PuttingLaws::out_at_most))]
    pub fn battery(&mut self, battery: Option<Battery>)
        ensures put { Outputs battery_most (battery_text battery) self.old self.new }
    {
        match battery {
            None => self.byte(b'-'),
            Some(battery) => {
                self.small(battery.level);
                self.byte(b',');
                self.small(battery.next);
                self.byte(b',');
                self.small(battery.status);
            }
        }
    }

    #[tactic(auto, unfolding(crate::specs::Texts::serial_text), using(crate::proofs::PuttingLaws::out_at_most))]
    pub fn serial(&mut self, serial: Option<u32>)
        ensures put { Outputs serial_most (serial_text serial) self.old self.new }
    {
        match serial {
            None => self.byte(b'-'),
            Some(number) => self.hex(DIGITS_32, number as usize),
        }
    }

    // Every element of a list in order, each as `by` puts it.
    pub fn each<T, P: PutElement<T>>(&mut self, elements: &[T], by: &P)
        ensures put { Outputs (P.most by.now * length elements.now) (each (P.text by.now) elements.now) self.old self.new }
    {
        for (i, element) in elements.iter().enumerate() {
            by.put(self, i, element);
        }
    }

    // Whether so many bytes are left: a text of at most so many is put whole.
    pub fn has_room(&self, most: usize) -> bool
        ensures room { result ≡ fits_at most self.now.at (length self.now.buffer.now) }
    {
        frame::fits(most, self.at, self.buffer.len())
    }
}

// Puts a word at the front of a part of a buffer, and answers where it ends: byte by byte, since for a copy at once the archives for C would need a function from outside.
fn put_front(part: &mut [u8], word: &[u8]) -> usize
    ensures { Puts (length word.now) word.now 0 part.old result part.new }
{
    let mut out = Out {
        buffer: part,
        at: 0,
    };
    for byte in word {
        out.byte(*byte);
    }
    out.at
}

// Writes a whole text at its offset, or answers 10. C hands a buffer and an offset in it.
pub fn write_at(bytes: &[u8], buffer: &mut [u8], offset: usize) -> Result<usize, Refusal>
    ensures written { written_outcome result buffer.new ≡ frame_at bytes.now offset buffer.old }
{
    let size = bytes.len();
    if !frame::fits(size, offset, buffer.len()) {
        return Err(Refusal::NoRoom);
    }
    put_front(&mut buffer[offset..], bytes);
    Ok(size)
}

// Writes a first line, and after it the line of each paired device among the ports, as `line` puts it: refusal 10. The text is put in `room` first, and what does not fit there is not written.
pub fn write_paired<L: PutLine>(
    room: &mut [u8],
    first: &[u8],
    ports: &[Port; port::PORTS],
    line: &L,
    buffer: &mut [u8],
    offset: usize,
) -> Result<usize, Refusal>
    ensures written { length first.now + L.most line.now * device_count ≤ length room.old → written_outcome result buffer.new ≡ frame_at (first.now ++ paired_lines (L.line line.now) ports.now) offset buffer.old }
    ensures part { written_outcome result buffer.new ≡ frame_at (take (length room.old) (first.now ++ paired_lines (L.line line.now) ports.now)) offset buffer.old }
{
    let mut out = Out {
        buffer: room,
        at: 0,
    };
    out.word(first);
    for (i, port) in ports[..DEVICES].iter().enumerate() {
        if port.paired {
            line.put(&mut out, (i + 1) as u8, port);
        }
    }
    let Out { buffer: room, at } = out;
    write_at(&room[..at], buffer, offset)
}
