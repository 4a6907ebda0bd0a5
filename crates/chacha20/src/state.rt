// The block function, on all blocks that are worked on side by side.

ghost use Rattle.std.specs.Prelude.{◌≡◌, ℕ, ◌+◌, ◌<◌, ◌≤◌, length};
ghost use Rattle.chacha20.specs.Block.{Add, Columns, Diagonals, Init, Le32, Rounds};
ghost use Rattle.chacha20.specs.Lanes.{Advance, Lane};
ghost use Rattle.chacha20.specs.Words.{Quarter};

use crate::word::Word;

// The sixteen words of a block, or of each of the blocks side by side.
// Sixteen fields by name, so that a quarter round names its four words; an array of them was not tried.
#[derive(Clone, Copy)]
pub struct State<W> {
    pub x0: W,
    pub x1: W,
    pub x2: W,
    pub x3: W,
    pub x4: W,
    pub x5: W,
    pub x6: W,
    pub x7: W,
    pub x8: W,
    pub x9: W,
    pub x10: W,
    pub x11: W,
    pub x12: W,
    pub x13: W,
    pub x14: W,
    pub x15: W,
}

fn le32(b: &[u8], i: usize) -> u32
    requires { i + 4 ≤ length b.now }
    ensures { result ≡ Le32 b.now i }
{
    u32::from_le_bytes([b[i], b[i + 1], b[i + 2], b[i + 3]])
}

impl State<u32> {
    #[tactic(auto, unfolding(crate::specs::Block::Init))]
    pub(crate) fn new(key: &[u8; 32], counter: u32, nonce: &[u8; 12]) -> State<u32>
        ensures { result ≡ Init key.now counter nonce.now }
    {
        State {
            x0: 0x6170_7865,
            x1: 0x3320_646e,
            x2: 0x7962_2d32,
            x3: 0x6b20_6574,
            x4: le32(key, 0),
            x5: le32(key, 4),
            x6: le32(key, 8),
            x7: le32(key, 12),
            x8: le32(key, 16),
            x9: le32(key, 20),
            x10: le32(key, 24),
            x11: le32(key, 28),
            x12: counter,
            x13: le32(nonce, 0),
            x14: le32(nonce, 4),
            x15: le32(nonce, 8),
        }
    }

    // The state `n` blocks on.
    #[tactic(auto, unfolding(crate::specs::Lanes::Advance))]
    pub(crate) fn advanced(self, n: usize) -> State<u32>
        ensures { result ≡ Advance n self }
    {
        let mut t = self;
        t.x12 = self.x12.wrapping_add((n % (1 << 32)) as u32);
        t
    }
}

#[tactic(auto, unfolding(crate::specs::Words::Quarter))]
fn quarter<W: Word>(a: W, b: W, c: W, d: W) -> (W, W, W, W)
    ensures { (l : ℕ) → l < W.lanes → ◌≡◌ {A = ℕ × ℕ × ℕ × ℕ} (W.lane l result.0, W.lane l result.1, W.lane l result.2, W.lane l result.3) (Quarter (W.lane l a) (W.lane l b) (W.lane l c) (W.lane l d)) }
{
    let a = a.sum(b);
    let d = d.mixed(a, 16);
    let c = c.sum(d);
    let b = b.mixed(c, 12);
    let a = a.sum(b);
    let d = d.mixed(a, 8);
    let c = c.sum(d);
    let b = b.mixed(c, 7);
    (a, b, c, d)
}

impl<W: Word> State<W> {
    // A state and those after it, one in each lane.
    #[tactic(auto, unfolding(crate::specs::Lanes::Advance))]
    pub(crate) fn spread(s: State<u32>) -> State<W>
        ensures { (l : ℕ) → l < W.lanes → Lane W.lane l result ≡ Advance l s }
    {
        State {
            x0: W::splat(s.x0),
            x1: W::splat(s.x1),
            x2: W::splat(s.x2),
            x3: W::splat(s.x3),
            x4: W::splat(s.x4),
            x5: W::splat(s.x5),
            x6: W::splat(s.x6),
            x7: W::splat(s.x7),
            x8: W::splat(s.x8),
            x9: W::splat(s.x9),
            x10: W::splat(s.x10),
            x11: W::splat(s.x11),
            x12: W::counted(s.x12),
            x13: W::splat(s.x13),
            x14: W::splat(s.x14),
            x15: W::splat(s.x15),
        }
    }

    #[tactic(auto, unfolding(crate::specs::Block::Columns))]
    fn columns(self) -> State<W>
        ensures { (l : ℕ) → l < W.lanes → Lane W.lane l result ≡ Columns (Lane W.lane l self) }
    {
        let s = self;
        let (x0, x4, x8, x12) = quarter(s.x0, s.x4, s.x8, s.x12);
        let (x1, x5, x9, x13) = quarter(s.x1, s.x5, s.x9, s.x13);
        let (x2, x6, x10, x14) = quarter(s.x2, s.x6, s.x10, s.x14);
        let (x3, x7, x11, x15) = quarter(s.x3, s.x7, s.x11, s.x15);
        State {
            x0,
            x1,
            x2,
            x3,
            x4,
            x5,
            x6,
            x7,
            x8,
            x9,
            x10,
            x11,
            x12,
            x13,
            x14,
            x15,
        }
    }

    #[tactic(auto, unfolding(crate::specs::Block::Diagonals))]
    fn diagonals(self) -> State<W>
        ensures { (l : ℕ) → l < W.lanes → Lane W.lane l result ≡ Diagonals (Lane W.lane l self) }
    {
        let s = self;
        let (x0, x5, x10, x15) = quarter(s.x0, s.x5, s.x10, s.x15);
        let (x1, x6, x11, x12) = quarter(s.x1, s.x6, s.x11, s.x12);
        let (x2, x7, x8, x13) = quarter(s.x2, s.x7, s.x8, s.x13);
        let (x3, x4, x9, x14) = quarter(s.x3, s.x4, s.x9, s.x14);
        State {
            x0,
            x1,
            x2,
            x3,
            x4,
            x5,
            x6,
            x7,
            x8,
            x9,
            x10,
            x11,
            x12,
            x13,
            x14,
            x15,
        }
    }

    #[tactic(auto, unfolding(crate::specs::Block::Add))]
    fn add(self, t: State<W>) -> State<W>
        ensures { (l : ℕ) → l < W.lanes → Lane W.lane l result ≡ Add (Lane W.lane l self) (Lane W.lane l t) }
    {
        State {
            x0: self.x0.sum(t.x0),
            x1: self.x1.sum(t.x1),
            x2: self.x2.sum(t.x2),
            x3: self.x3.sum(t.x3),
            x4: self.x4.sum(t.x4),
            x5: self.x5.sum(t.x5),
            x6: self.x6.sum(t.x6),
            x7: self.x7.sum(t.x7),
            x8: self.x8.sum(t.x8),
            x9: self.x9.sum(t.x9),
            x10: self.x10.sum(t.x10),
            x11: self.x11.sum(t.x11),
            x12: self.x12.sum(t.x12),
            x13: self.x13.sum(t.x13),
            x14: self.x14.sum(t.x14),
            x15: self.x15.sum(t.x15),
        }
    }

    #[tactic(auto, unfolding(crate::specs::Block::Doubles, crate::specs::Block::Rounds))]
    pub(crate) fn rounds(self) -> State<W>
        ensures { (l : ℕ) → l < W.lanes → Lane W.lane l result ≡ Rounds (Lane W.lane l self) }
    {
        let mut t = self;
        for _i in 0..10usize {
            t = t.columns().diagonals();
        }
        t.add(self)
    }
}
