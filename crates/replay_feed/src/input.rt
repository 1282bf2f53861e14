// The input buffer: what is left of it goes to its front, and a line that fills it is shortened.
ghost use Rattle.std.specs.Prelude.{◌+◌, ◌≤◌, ◌<◌, ◌≡◌, false, not, length, take, drop};
ghost use Rattle.std.specs.Option.{is_some, unwrap_or};
ghost use Rattle.replay_feed.specs.LongLines.{is_spare, squeezed, longest, held_text, held_cut};
ghost use Rattle.replay_feed.specs.InputContracts.{Moves};

const SPACE: u8 = b' ';

// A round limit, above the longest call with one space between its words (`call_most` of crate replay_line).
pub const LONGEST: usize = 16384;

// Moves the bytes between two offsets down to another one, and answers where they end.
#[tactic(auto, using(crate::proofs::MoveLaws::moved))]
pub(crate) fn move_down(buffer: &mut [u8], to: usize, from: usize, end: usize) -> usize
    requires order { to ≤ from }
    requires part { from ≤ end }
    requires within { end ≤ length buffer.old }
    ensures moves { Moves to from end buffer.old result buffer.new }
{
    buffer.copy_within(from..end, to);
    to + (end - from)
}

// Whether a byte is a space after another one.
fn is_spare(byte: u8, after: bool) -> bool
    ensures { result ≡ is_spare byte after }
{
    byte == SPACE && after
}

// Makes one space of every run of spaces in the buffer's first bytes, and answers the number of bytes left.
#[tactic(auto, using(crate::proofs::SqueezeLaws::squeeze_front))]
fn squeeze(buffer: &mut [u8], size: usize) -> usize
    requires { size ≤ length buffer.old }
    ensures front { take result buffer.new ≡ squeezed false (take size buffer.old) }
    ensures behind { drop size buffer.new ≡ drop size buffer.old }
    ensures fewer { result ≤ size }
{
    let mut kept = 0;
    let mut after = false;
    for i in 0..size {
        let byte = buffer[i];
        if !is_spare(byte, after) {
            buffer[kept] = byte;
            kept += 1;
        }
        after = byte == SPACE;
    }
    kept
}

// Makes room after what is held, and answers the size that it then has. A line that fills the buffer has its spaces squeezed; one that is still longer than any call is cut to `LONGEST` bytes, and has no other size: `None`. Either way it stays the call that it is.
#[tactic(auto, using(crate::proofs::SqueezeLaws::squeezed_text, crate::proofs::SqueezeLaws::squeezed_goes_on, crate::proofs::SqueezeLaws::cut_text, crate::proofs::SqueezeLaws::cut_stops))]
pub(crate) fn hold(buffer: &mut [u8], held: usize) -> Option<usize>
    requires held { held ≤ length buffer.old }
    requires room { longest < length buffer.old }
    ensures room { unwrap_or result longest < length buffer.new }
    ensures text { take (unwrap_or result longest) buffer.new ≡ held_text (length buffer.old) (take held buffer.old) }
    ensures cut { not (is_some result) ≡ held_cut (length buffer.old) (take held buffer.old) }
{
    if held < buffer.len() {
        return Some(held);
    }
    let last = buffer.len() - 1;
    let kept = squeeze(buffer, last);
    buffer[kept] = buffer[last];
    if kept < LONGEST { Some(kept + 1) } else { None }
}
