// The store: the paired devices as text that a console keeps while it is off.
#![tactic(auto)]

ghost use Rattle.std.specs.Prelude.{◌≡◌};
ghost use Rattle.text.specs.Putting.{Outputs};
ghost use Rattle.frame.specs.FrameContracts.{written_outcome};
ghost use Rattle.store.specs.Stores.{index_text, index_most, pad_line, pad_most, store_rule};

use port::Port;
use report::{FeatureIndex, Refusal};
use text::{Out, PutElement, PutLine};

// The first line, and the longest line of a device: the fields, and the byte after each.
const HEADER: usize = 4 + 1 + 1 + 1;

const FIELDS: usize = 5 + port::FEATURES;

const LINE: usize = text::BYTE_MOST
    + text::DIGITS_16 as usize
    + text::SERIAL_MOST
    + text::DIGITS_32 as usize
    + text::VERSION_MOST
    + text::BYTE_MOST * port::FEATURES
    + FIELDS;

// Room for every store.
const ROOM: usize = HEADER + LINE * report::DEVICES as usize;

// A tab, and the index of a feature.
fn put_index(line: &mut Out, position: usize, index: &FeatureIndex)
    ensures { Outputs index_most (index_text position index.now) line.old line.new }
{
    line.byte(text::TAB);
    line.small(index.0)
}

// The index of each known feature.
struct Index;

impl PutElement<FeatureIndex> for Index {
    ghost most = { λ _. index_most };

    ghost text = { λ _. index_text };

    fn put(&self, out: &mut Out, position: usize, index: &FeatureIndex) {
        put_index(out, position, index)
    }
}

// The line of one device.
fn put_pad(out: &mut Out, number: u8, port: &Port)
    ensures { Outputs pad_most (pad_line number port.now) out.old out.new }
{
    out.small(number);
    out.byte(text::TAB);
    out.hex(text::DIGITS_16, port.wpid as usize);
    out.byte(text::TAB);
    out.serial(port.serial);
    out.byte(text::TAB);
    out.hex(text::DIGITS_32, port.reports as usize);
    out.byte(text::TAB);
    out.version(port.version);
    out.each(&port.features, &Index);
    out.byte(text::NEWLINE)
}

// The line of each device that is stored.
struct Pad;

impl PutLine for Pad {
    ghost most = { λ _. pad_most };

    ghost line = { λ _. pad_line };

    fn put(&self, out: &mut Out, number: u8, port: &Port) {
        put_pad(out, number, port)
    }
}

// Writes the store of the paired devices among the ports: refusal 10.
pub fn write_store(
    ports: [Port; port::PORTS],
    buffer: &mut [u8],
    offset: usize,
) -> Result<usize, Refusal>
    ensures written { written_outcome result buffer.new ≡ store_rule ports offset buffer.old }
{
    text::write_paired(&mut [0; ROOM], b"pads\t1\n", &ports, &Pad, buffer, offset)
}
