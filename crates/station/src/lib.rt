// The station: seven ports, and the calls on them.
#![tactic(auto)]

ghost use Rattle.std.specs.Prelude.{◌≡◌, ◌<◌};
ghost use Rattle.port.specs.PortContracts.{taken_of};
ghost use Rattle.station.specs.Stations.{fresh_station, position_of, port_count, number_at};
ghost use Rattle.station.specs.StationTaking.{with_drops};
ghost use Rattle.station.specs.StationCalls.{ticked_port, ended_on};
ghost use Rattle.station.specs.StationPromises.{TakePromise, RequestPromise, CancelPromise, TickPromise, SwitchPromise, GetPairedPromise, LedPromise, ListPromise, StorePromise, RestorePromise};

use port::answer::{Notice, Taken};
use port::{Called, Port, waiting};
use report::{Device, FeatureIndex, Reading, Refusal};
use restore::NotRestored;
use serial::Given;

// Devices 1 to 6 at positions 0 to 5, and the receiver at the last.
#[derive(Clone, Copy, PartialEq, Eq)]
pub struct Station {
    pub ports: [Port; port::PORTS],
}

// The position of a port among the seven.
pub fn position_of(device: Device) -> usize
    ensures position { result ≡ position_of device.0 }
    ensures within { result < port_count }
{
    if report::is_device(device) {
        usize::from(device.0) - 1
    } else {
        port::PORTS - 1
    }
}

// The number of the port at a position; past the last, the receiver's.
pub fn device_at(position: u8) -> Device
    ensures number { result.0 ≡ number_at position }
{
    if position < report::DEVICES {
        Device(position + 1)
    } else {
        Device(report::RECEIVER)
    }
}

// The answer with this drop count, where it is a reply.
fn with_drops(answer: Result<Taken, Refusal>, dropped: u8) -> Result<Taken, Refusal>
    ensures { taken_of result ≡ with_drops dropped (taken_of answer) }
{
    match answer {
        Ok(Taken::Reply { about, .. }) => Ok(Taken::Reply { about, dropped }),
        _ => answer,
    }
}

impl Station {
    #[tactic(auto, unfolding(crate::specs::Stations::fresh_station))]
    pub fn new() -> Station
        ensures fresh { result ≡ fresh_station }
    {
        Station {
            ports: [port::fresh(); port::PORTS],
        }
    }

    // Takes one report.
    pub fn take(mut self, bytes: &[u8]) -> Called<Result<Taken, Refusal>, Station>
        ensures outcome { TakePromise self bytes.now result }
    {
        match report::read(bytes) {
            Err(refusal) => Called {
                answer: Err(refusal),
                next: self,
            },
            Ok(Reading::EmptyList(_)) => Called {
                answer: Ok(Taken::Noticed(Notice::EmptyList)),
                next: self,
            },
            Ok(Reading::Hidpp(h)) => {
                let position = position_of(h.device);
                let port = self.ports[position];
                let given = serial::given_by(port, h, bytes);
                let taken = hidpp::take_at(port, h, bytes);
                self.ports[position] = taken.next;
                match given {
                    None => Called {
                        answer: taken.answer,
                        next: self,
                    },
                    // A serial goes to its device's port. Written out for speed: handed to a function and back, the station is copied (docs/PERFORMANCE.md, "What a serial costs").
                    Some(Given { device, number }) => {
                        let beside = position_of(device);
                        let kept = serial::keep(self.ports[beside], number);
                        self.ports[beside] = kept.next;
                        Called {
                            answer: with_drops(taken.answer, kept.answer),
                            next: self,
                        }
                    }
                }
            }
            Ok(Reading::Dj(d)) => {
                let position = position_of(d.device);
                let port = self.ports[position];
                // A short way for speed: dj::take_at gives the same, with two copies of a port (docs/PERFORMANCE.md, "The way of a radio report").
                if let Some(length) = dj::accepted_length(
                    port.paired,
                    port.reports,
                    d.kind,
                    d.length,
                    bytes,
                ) {
                    self.ports[position].up = true;
                    return Called {
                        answer: Ok(Taken::Radio {
                            kind: d.kind,
                            start: report::DJ_START,
                            length,
                        }),
                        next: self,
                    };
                }
                let taken = dj::take_at(port, d, bytes);
                self.ports[position] = taken.next;
                Called {
                    answer: taken.answer,
                    next: self,
                }
            }
        }
    }

    // Writes a request frame, and lets the request wait: refusals 5, 9, 10, 11 and 12.
    pub fn request(
        mut self,
        device: Device,
        byte2: FeatureIndex,
        byte3: u8,
        ticks: u16,
        params: &[u8],
        buffer: &mut [u8],
        offset: usize,
    ) -> Called<Result<usize, Refusal>, Station>
        ensures outcome { RequestPromise self device.0 byte2.0 byte3 ticks params.now offset buffer.old result buffer.new }
    {
        let position = position_of(device);
        let requested = request::request_at(
            self.ports[position],
            device,
            byte2,
            byte3,
            ticks,
            params,
            buffer,
            offset,
        );
        self.ports[position] = requested.next;
        Called {
            answer: requested.answer,
            next: self,
        }
    }

    // Ends a waiting request: refusals 5 and 13.
    pub fn cancel(
        mut self,
        device: Device,
        byte2: FeatureIndex,
        byte3: u8,
    ) -> Called<Result<(), Refusal>, Station>
        ensures outcome { CancelPromise self device.0 byte2.0 byte3 result }
    {
        if !report::is_port(device) {
            return Called {
                answer: Err(Refusal::NoSuchPort),
                next: self,
            };
        }
        let position = position_of(device);
        let cancelled = waiting::cancel(self.ports[position], byte2, byte3);
        self.ports[position] = cancelled.next;
        Called {
            answer: cancelled.answer,
            next: self,
        }
    }

    // Lowers every waiting count by one, and answers the number of requests that it ended on each port. It is never refused.
    pub fn tick(mut self) -> Called<[u8; port::PORTS], Station>
        ensures outcome { TickPromise self result }
    {
        let mut ended = [0; port::PORTS];
        for i in 0..port::PORTS {
            let ticked = port::tick(self.ports[i].places);
            let places = ticked.next;
            ended[i] = ticked.answer;
            self.ports[i].places = places;
        }
        Called {
            answer: ended,
            next: self,
        }
    }

    // Writes the switch command: refusals 14 and 10. The station stays as it is.
    pub fn switch(
        self,
        bits: u8,
        timeout: u8,
        buffer: &mut [u8],
        offset: usize,
    ) -> Result<usize, Refusal>
        ensures outcome { SwitchPromise bits timeout offset buffer.old result buffer.new }
    {
        frame::switch_frame(bits, timeout, buffer, offset)
    }

    // Writes the command that asks for the paired devices: refusal 10. The station stays as it is.
    pub fn get_paired(self, buffer: &mut [u8], offset: usize) -> Result<usize, Refusal>
        ensures outcome { GetPairedPromise offset buffer.old result buffer.new }
    {
        frame::get_paired_frame(buffer, offset)
    }

    // Writes the keyboard LEDs of a device: refusals 5 and 10. The station stays as it is.
    pub fn led(
        self,
        device: Device,
        leds: u8,
        buffer: &mut [u8],
        offset: usize,
    ) -> Result<usize, Refusal>
        ensures outcome { LedPromise device.0 leds offset buffer.old result buffer.new }
    {
        frame::led_frame(device, leds, buffer, offset)
    }

    // Writes the port listing: refusal 10. The station stays as it is.
    pub fn list(self, buffer: &mut [u8], offset: usize) -> Result<usize, Refusal>
        ensures outcome { ListPromise self offset buffer.old result buffer.new }
    {
        listing::write_listing(self.ports, buffer, offset)
    }

    // Writes the store of the paired devices: refusal 10. The station stays as it is.
    pub fn store(self, buffer: &mut [u8], offset: usize) -> Result<usize, Refusal>
        ensures outcome { StorePromise self offset buffer.old result buffer.new }
    {
        store::write_store(self.ports, buffer, offset)
    }

    // Reads a store: the next station is the one that it keeps, or, refused with 15, or with 16 and the number of a line, this one.
    pub fn restore(self, text: &[u8]) -> Called<Result<(), NotRestored>, Station>
        ensures outcome { RestorePromise self text.now result }
    {
        let read = restore::restore(self.ports, text);
        let ports = read.next;
        Called {
            answer: read.answer,
            next: Station { ports },
        }
    }
}
