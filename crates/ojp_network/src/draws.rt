//! Numbers that are drawn one after another.

ghost use Rattle.std.specs.Prelude.{◌≡◌, ◌<◌};
ghost use Rattle.ojp_network.specs.Draws.{drawn_from, next_state};

/// A stream of numbers. It begins with the state.
#[derive(Drop)]
pub struct Draws {
    pub state: u64,
}

impl Draws {
    /// The next number, from 0 to below the limit.
    pub fn below(&mut self, limit: u64) -> u64
        requires { 0 < limit }
        ensures value { result ≡ drawn_from (next_state self.old.state) limit }
        ensures small { result < limit }
        ensures next { self.new.state ≡ next_state self.old.state }
    {
        self.state = next_state(self.state);
        (self.state / 8_589_934_592) % limit
    }
}

/// The state behind a state.
#[tactic(auto, unfolding(crate::specs::Draws::next_state))]
fn next_state(state: u64) -> u64
    ensures { result ≡ next_state state }
{
    state
        .wrapping_mul(6_364_136_223_846_793_005)
        .wrapping_add(1_442_695_040_888_963_407)
}
