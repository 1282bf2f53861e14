// What taking a report answers.
ghost use Rattle.std.specs.Prelude.{◌≡◌};
ghost use Rattle.port.specs.PortContracts.{kind_number};

use report::{Device, FeatureIndex};

// What every answer to a HID++ report carries: the port, bytes 2 and 3, and where the parameters lie.
#[derive(Clone, Copy)]
pub struct About {
    pub port: Device,
    pub byte2: FeatureIndex,
    pub byte3: u8,
    pub start: u8,
    pub length: u8,
}

// Byte 2 of an error of HID++ 1.0, and of 2.0.
pub const ERROR_1: u8 = 0x8f;

pub const ERROR_2: u8 = 0xff;

// The two kinds of error: of HID++ 1.0, and of HID++ 2.0.
#[derive(Clone, Copy, PartialEq, Eq)]
pub enum ErrorKind {
    Hidpp1,
    Hidpp2,
}

// Byte 2 of such an error.
impl From<ErrorKind> for u8 {
    ghost from_gives = { λ kind number. number ≡ kind_number kind };

    fn from(kind: ErrorKind) -> u8 {
        match kind {
            ErrorKind::Hidpp1 => ERROR_1,
            ErrorKind::Hidpp2 => ERROR_2,
        }
    }
}

// A notification of the receiver.
#[derive(Clone, Copy)]
pub enum Notice {
    Unpaired {
        port: Device,
        dropped: u8,
    },
    Paired {
        port: Device,
        more: bool,
        wpid: u16,
        reports: u32,
        dropped: u8,
    },
    EmptyList,
    Link {
        port: Device,
        up: bool,
    },
    Other {
        port: Device,
        kind: u8,
    },
}

// What a report is that was taken.
#[derive(Clone, Copy)]
pub enum Taken {
    // The reply that ended a request; where a device's serial changed, the number of requests that it dropped there.
    Reply {
        about: About,
        dropped: u8,
    },
    Stray(About),
    Plain(About),
    Event(About),
    // The error that ended a request: the request's own bytes 2 and 3, and the error's code.
    Failed {
        about: About,
        code: u8,
        kind: ErrorKind,
    },
    Radio {
        kind: u8,
        start: u8,
        length: u8,
    },
    Noticed(Notice),
}
