//! Live asks.

ghost use Rattle.std.specs.Prelude.{◌≡◌, ◌≢◌, ◌≤◌, ℕ, length, option_map, Some};
ghost use Rattle.slab.specs.Slab.{ContainsKey, get};
ghost use Rattle.ojp_links_mem.specs.Memory.{LooksAtOne};
ghost use Rattle.ojp_links_mem.specs.Pending.{AllRested, LooksAt, piece_of, rested};
ghost use Rattle.ojp_links_mem.specs.declared.pending.Pending.{Pending as Ask};

use ojp_links::More;
use slab::Slab;

/// A live ask with its whole reply, of which a front was taken.
#[derive(Drop)]
pub(crate) struct Pending {
    pub region: usize,
    pub request: Vec<u8>,
    pub reply: Vec<u8>,
    /// How many bytes of the reply were taken.
    pub taken: usize,
    /// Whether the end was seen.
    pub ended: bool,
    pub looks: u64,
    /// How many rests it still needs.
    pub rests: u64,
    /// Whether each look fails.
    pub fails: bool,
}

impl Pending {
    /// Takes up to `most` bytes more of the reply, or all where that is 0, once no rest is needed.
    pub fn look(&mut self, most: usize) -> More
        requires { self.old.taken ≤ length self.old.reply.items }
        ensures { LooksAt most self.old self.new result }
    {
        self.looks = self.looks.saturating_add(1);
        if self.fails {
            return More::Failed;
        }
        if self.rests > 0 {
            return More::NotYet;
        }
        let left = self.reply.len() - self.taken;
        if left == 0 {
            self.ended = true;
            return More::End;
        }
        self.taken += piece_of(most, left);
        More::Got
    }
}

/// How many bytes a look gives of those that are left.
fn piece_of(most: usize, left: usize) -> usize
    ensures is { result ≡ piece_of most left }
    ensures within { result ≤ left }
{
    if most == 0 { left } else { most.min(left) }
}

/// Looks at the ask with the key.
pub(crate) fn look_at(asks: &mut Slab<Pending>, key: usize, most: usize) -> More
    requires live { ContainsKey asks.old key }
    requires within { (p : Ask) → get asks.old key ≡ Some p → p.taken ≤ length p.reply.items }
    ensures { LooksAtOne most asks.old asks.new key result }
{
    let Some(ask) = asks.get_mut(key) else {
        unreachable!()
    };
    ask.look(most)
}

/// The region of the ask with the key.
pub(crate) fn region_of(asks: &Slab<Pending>, key: usize) -> usize
    requires { ContainsKey asks.now key }
    ensures { (p : Ask) → get asks.now key ≡ Some p → result ≡ p.region }
{
    asks[key].region
}

/// Each ask needs one rest less.
pub(crate) fn rest_all(asks: &mut Slab<Pending>)
    ensures { AllRested asks.old asks.new }
{
    'keys: for key in 0..asks.capacity() {
        rest_at(asks, key);
    }
}

/// The ask with the key, if there is one, needs one rest less.
fn rest_at(asks: &mut Slab<Pending>, key: usize)
    ensures here { get asks.new key ≡ option_map rested (get asks.old key) }
    ensures others { (other : ℕ) → other ≢ key → get asks.new other ≡ get asks.old other }
{
    if let Some(ask) = asks.get_mut(key) {
        ask.rests = ask.rests.saturating_sub(1);
    }
}
