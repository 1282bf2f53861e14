// A byte searched for in a part of a text.
ghost use Rattle.std.specs.Prelude.{◌≡◌};
ghost use Rattle.replay_script.specs.Finding.{found_in};

// The first offset from `start` up to `end` that holds this byte.
#[tactic(auto, using(crate::proofs::FindingLaws::nothing_found, crate::proofs::FindingLaws::first_found, crate::proofs::FindingLaws::none_found))]
pub fn find(text: &[u8], start: usize, end: usize, byte: u8) -> Option<usize>
    ensures found { result ≡ found_in byte start end text.now }
{
    let end = end.min(text.len());
    if end <= start {
        return None;
    }
    let place = memchr::memchr(byte, &text[start..end])?;
    Some(start + place)
}
