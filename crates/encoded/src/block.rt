// One encoded call: a block, which is a header and the data of the call.
ghost use Rattle.std.specs.Prelude.{◌≡◌};
ghost use Rattle.encoded.specs.Blocks.{lent_size};
ghost use Rattle.encoded.specs.EncodedContracts.{IsOp, header_by, first_block, block_of};

// The opcode, three byte arguments, and four numbers of two bytes.
const HEADER: usize = 1 + 3 + 4 * 2;

// The calls that write into a lent buffer and leave the station as it is.
#[derive(Clone, Copy)]
pub enum Writer {
    Switch,
    GetPaired,
    Led,
    List,
    Store,
}

// What a block asks for.
#[derive(Clone, Copy)]
pub enum Op {
    Take,
    Request,
    Cancel,
    Tick,
    Write(Writer),
    Restore,
}

// An opcode that stands for no call.
#[derive(Clone, Copy)]
pub struct UnknownOpcode;

impl TryFrom<u8> for Op {
    type Error = UnknownOpcode;

    ghost try_from_gives = { IsOp };

    fn try_from(opcode: u8) -> Result<Op, UnknownOpcode> {
        match opcode {
            0 => Ok(Op::Take),
            1 => Ok(Op::Request),
            2 => Ok(Op::Cancel),
            3 => Ok(Op::Tick),
            4 => Ok(Op::Write(Writer::Switch)),
            5 => Ok(Op::Write(Writer::GetPaired)),
            6 => Ok(Op::Write(Writer::Led)),
            7 => Ok(Op::Write(Writer::List)),
            8 => Ok(Op::Write(Writer::Store)),
            9 => Ok(Op::Restore),
            _ => Err(UnknownOpcode),
        }
    }
}

// One call: what it asks for, three byte arguments, the ticks, the offset, its data, and the length that is given for its buffer.
#[derive(Clone, Copy)]
pub struct Block<'a> {
    pub op: Op,
    pub a: u8,
    pub b: u8,
    pub c: u8,
    pub ticks: u16,
    pub offset: u16,
    pub body: &'a [u8],
    pub lent: u16,
}

impl Block<'_> {
    // How many bytes of the arena the call is lent: nothing where it writes none.
    #[tactic(auto, unfolding(crate::specs::Blocks::lent_size))]
    pub fn lent_size(self) -> usize
        ensures size { result ≡ lent_size (header_by self.entry) }
    {
        match self.op {
            Op::Request | Op::Write(_) => usize::from(self.lent),
            Op::Take | Op::Cancel | Op::Tick | Op::Restore => 0,
        }
    }
}

// The first block of these bytes, and the bytes after it: nothing where a header is cut, its opcode unknown, or its data are not all there.
#[tactic(auto, unfolding(crate::specs::Blocks::header_of, crate::specs::EncodedContracts::first_block))]
pub fn first(bytes: &[u8]) -> Option<(Block<'_>, &[u8])>
    ensures first { block_of result ≡ first_block bytes.now }
{
    let (head, rest) = bytes.split_first_chunk::<HEADER>()?;
    let op = Op::try_from(head[0]).ok()?;
    let (body, rest) = rest.split_at_checked(usize::from(report::join2(head[8], head[9])))?;
    let block = Block {
        op,
        a: head[1],
        b: head[2],
        c: head[3],
        ticks: report::join2(head[4], head[5]),
        offset: report::join2(head[6], head[7]),
        body,
        lent: report::join2(head[10], head[11]),
    };
    Some((block, rest))
}
