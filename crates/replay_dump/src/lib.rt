// The lines of a dump, what every port holds, put whole into a lent buffer, or not at all.
#![tactic(auto)]

ghost use Rattle.text.specs.Putting.{Outputs, OutputsWhole};
ghost use Rattle.station.specs.Stations.{number_at};
ghost use Rattle.replay_fields.specs.AnswerFields.{parted};
ghost use Rattle.replay_dump.specs.DumpLines.{feature_text, feature_most, request_text, request_most, place_text, place_most, port_line, port_most, ports_text, dump_text, dump_most};

use port::{Port, Request};
use report::FeatureIndex;
use station::Station;
use text::{Out, PutElement};

// The longest text of a feature and of a place, each with the comma before it.
const FEATURE: usize = 1 + text::BYTE_MOST;

const PLACE: usize = 1
    + text::DIGITS_8 as usize
    + 4 * (1 + text::DIGITS_8 as usize)
    + (1 + text::BYTE_MOST);

// The longest line of a port: `port=`, ` paired=`, ` wpid=`, ` reports=`, ` link=`, ` version=`, ` features=`, ` battery=`, ` places=` and ` serial=`, each with its value at its longest, and the newline.
const PORT: usize = (5 + text::BYTE_MOST)
    + (8 + 1)
    + (6 + text::DIGITS_16 as usize)
    + (9 + text::DIGITS_32 as usize)
    + (6 + text::LINK_MOST)
    + (9 + text::VERSION_MOST)
    + (10 + FEATURE * port::FEATURES)
    + (9 + text::BATTERY_MOST)
    + (8 + PLACE * port::PLACES)
    + (8 + text::SERIAL_MOST)
    + 1;

// Room for every dump.
const DUMP: usize = PORT * port::PORTS;

fn put_feature(out: &mut Out, position: usize, feature: &FeatureIndex)
    ensures { Outputs feature_most (parted feature_text position feature.now) out.old out.new }
{
    replay_fields::put_comma(out, position);
    out.small(feature.0)
}

// The index of each known feature.
struct Features;

impl PutElement<FeatureIndex> for Features {
    ghost most = { λ _. feature_most };

    ghost text = { λ _. parted feature_text };

    fn put(&self, out: &mut Out, position: usize, feature: &FeatureIndex) {
        put_feature(out, position, feature)
    }
}

// Bytes 2 and 3, the first three parameters and the ticks left.
fn put_request(out: &mut Out, request: &Request)
    ensures { Outputs request_most (request_text request.now) out.old out.new }
{
    replay_fields::put_code(out, request.byte2.0);
    out.byte(b':');
    replay_fields::put_code(out, request.byte3);
    out.byte(b':');
    replay_fields::put_code(out, request.first.0);
    out.byte(b':');
    replay_fields::put_code(out, request.first.1);
    out.byte(b':');
    replay_fields::put_code(out, request.first.2);
    out.byte(b':');
    out.small(request.ticks)
}

fn put_place(out: &mut Out, position: usize, request: &Request)
    ensures { Outputs place_most (parted place_text position request.now) out.old out.new }
{
    replay_fields::put_comma(out, position);
    if request.ticks == 0 {
        out.byte(b'-')
    } else {
        put_request(out, request)
    }
}

// What each place holds.
struct Places;

impl PutElement<Request> for Places {
    ghost most = { λ _. place_most };

    ghost text = { λ _. parted place_text };

    fn put(&self, out: &mut Out, position: usize, request: &Request) {
        put_place(out, position, request)
    }
}

// The line of the port at a position.
fn put_port(out: &mut Out, position: usize, port: &Port)
    ensures { Outputs port_most (port_line (number_at position) port.now) out.old out.new }
{
    let number = station::device_at(position.min(port::PORTS) as u8);
    out.word(b"port=");
    out.small(number.0);
    out.word(b" paired=");
    replay_fields::put_flag(out, port.paired);
    out.word(b" wpid=");
    out.hex(text::DIGITS_16, port.wpid as usize);
    out.word(b" reports=");
    out.hex(text::DIGITS_32, port.reports as usize);
    out.word(b" link=");
    out.link(port.up);
    out.word(b" version=");
    out.version(port.version);
    out.word(b" features=");
    out.each(&port.features, &Features);
    out.word(b" battery=");
    out.battery(port.battery);
    out.word(b" places=");
    out.each(&port.places, &Places);
    out.word(b" serial=");
    out.serial(port.serial);
    out.byte(b'\n')
}

// The line of each port.
struct Ports;

impl PutElement<Port> for Ports {
    ghost most = { λ _. port_most };

    ghost text = { λ _ position p. port_line (number_at position) p };

    fn put(&self, out: &mut Out, position: usize, port: &Port) {
        put_port(out, position, port)
    }
}

fn put_ports(out: &mut Out, ports: &[Port; port::PORTS])
    ensures { Outputs dump_most (ports_text ports.now) out.old out.new }
{
    out.each(ports, &Ports)
}

// What every port of a station holds. Nothing where there is less room than the longest dump takes.
pub fn put_dump(out: &mut Out, station: &Station)
    ensures put { OutputsWhole dump_most (dump_text station.now) out.old out.new }
{
    if out.has_room(DUMP) {
        put_ports(out, &station.ports)
    }
}
