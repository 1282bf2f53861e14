// The function exported to C: it is the function of the same name of the crate `encoded`. tests/encoded/encoded.h is the C side.
#![tactic(auto)]

ghost use Rattle.std.specs.Prelude.{◌≡◌};
ghost use Rattle.station.specs.Stations.{fresh_station};
ghost use Rattle.encoded.specs.EncodedRuns.{encoded_rule};
ghost use Rattle.encoded.specs.EncodedContracts.{c_left, c_run_outcome};

use encoded::CRan;

// Makes encoded calls on a fresh station.
#[unsafe(no_mangle)]
pub extern "C" fn blotterfinch_run_encoded(
    encoded: &[u8],
    arena: &mut [u8],
    answers: &mut [u8],
) -> CRan
    ensures by_rule { c_left result arena.new answers.new ≡ c_run_outcome (encoded_rule fresh_station encoded.now arena.old answers.old) }
{
    encoded::blotterfinch_run_encoded(encoded, arena, answers)
}
