//! Rounds of doubling.

ghost use Rattle.std.specs.Prelude.{◌≡◌, ◌≤◌, ◌<◌, ◌+◌};
ghost use Rattle.plan_steps.specs.Rounds.{rounds, rounds_from};

/// The least number from k on that doubles 1 at least to m, `fuel` of them tried.
fn rounds_from(fuel: u32, k: u32, m: u32) -> u32
    requires { fuel + k ≤ 8 }
    ensures value { result ≡ rounds_from fuel k m }
    ensures at_most { result ≤ fuel + k }
{
    if fuel == 0 || m <= 2u32.pow(k) {
        k
    } else {
        rounds_from(fuel - 1, k + 1, m)
    }
}

/// How many rounds of doubling reach m places, of which there are at most 256: the least K with 2 to the K at least m.
#[tactic(auto, unfolding(crate::specs::Rounds::rounds))]
pub fn rounds(m: u32) -> u32
    ensures value { result ≡ rounds m }
    ensures at_most { result ≤ 8 }
{
    rounds_from(8, 0, m)
}
