//! Numbers that look as if drawn by lot, each from the one before.

ghost use Rattle.std.specs.Prelude.{◌≡◌, ◌<◌};
ghost use Rattle.session_generator.specs.Generated;

/// The state behind the next draw.
#[tactic(auto, unfolding(crate::specs::Generated::next_state))]
pub fn next_state(state: u32) -> u32
    ensures value { result ≡ Generated.next_state state }
{
    ((1_103_515_245 * u64::from(state) + 12_345) % 2_147_483_648) as u32
}

/// The number that a draw gives, by the state behind it.
pub fn drawn(state: u32) -> u32
    ensures { result ≡ Generated.drawn state }
{
    state / 65_536
}
