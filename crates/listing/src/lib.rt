// The port listing: paired devices as lines of text, written at an offset of a lent buffer.
#![tactic(auto)]

ghost use Rattle.std.specs.Prelude.{◌≡◌};
ghost use Rattle.text.specs.Putting.{Outputs};
ghost use Rattle.listing.specs.Listing.{device_line, line_most, listing_rule};
ghost use Rattle.frame.specs.FrameContracts.{written_outcome};

use port::Port;
use report::Refusal;
use text::{Out, PutLine};

// The header, and the longest line of a device: the fields, and the byte after each.
const FIELDS: usize = 7;

const HEADER: usize = 4 + 4 + 7 + 4 + 7 + 7 + 7 + FIELDS;

const LINE: usize = text::BYTE_MOST
    + text::DIGITS_16 as usize
    + text::DIGITS_32 as usize
    + text::LINK_MOST
    + text::VERSION_MOST
    + text::BATTERY_MOST
    + text::BYTE_MOST
    + FIELDS;

// Room for every listing.
const ROOM: usize = HEADER + LINE * report::DEVICES as usize;

// The line of one device.
fn put_line(out: &mut Out, number: u8, port: &Port)
    ensures { Outputs line_most (device_line number port.now) out.old out.new }
{
    out.small(number);
    out.byte(text::TAB);
    out.hex(text::DIGITS_16, port.wpid as usize);
    out.byte(text::TAB);
    out.hex(text::DIGITS_32, port.reports as usize);
    out.byte(text::TAB);
    out.link(port.up);
    out.byte(text::TAB);
    out.version(port.version);
    out.byte(text::TAB);
    out.battery(port.battery);
    out.byte(text::TAB);
    out.small(port::count_waiting(port.places));
    out.byte(text::NEWLINE)
}

// The line of each device that is listed.
struct DeviceLine;

impl PutLine for DeviceLine {
    ghost most = { λ _. line_most };

    ghost line = { λ _. device_line };

    fn put(&self, out: &mut Out, number: u8, port: &Port) {
        put_line(out, number, port)
    }
}

// Writes the listing of the paired devices among the ports: refusal 10.
pub fn write_listing(
    ports: [Port; port::PORTS],
    buffer: &mut [u8],
    offset: usize,
) -> Result<usize, Refusal>
    ensures written { written_outcome result buffer.new ≡ listing_rule ports offset buffer.old }
{
    text::write_paired(
        &mut [0; ROOM],
        b"port\twpid\treports\tlink\tversion\tbattery\twaiting\n",
        &ports,
        &DeviceLine,
        buffer,
        offset,
    )
}
