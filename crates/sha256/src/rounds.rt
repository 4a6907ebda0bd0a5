// The block computation.

ghost use Rattle.std.specs.Prelude.{◌≡◌, length};
ghost use Rattle.sha256.specs.Rounds.{Add, Compress, Extend, Round, Rounds, Schedule};

use crate::words::*;

// The constant of each turn.
static K: [u32; 64] = [
    0x428a_2f98,
    0x7137_4491,
    0xb5c0_fbcf,
    0xe9b5_dba5,
    0x3956_c25b,
    0x59f1_11f1,
    0x923f_82a4,
    0xab1c_5ed5,
    0xd807_aa98,
    0x1283_5b01,
    0x2431_85be,
    0x550c_7dc3,
    0x72be_5d74,
    0x80de_b1fe,
    0x9bdc_06a7,
    0xc19b_f174,
    0xe49b_69c1,
    0xefbe_4786,
    0x0fc1_9dc6,
    0x240c_a1cc,
    0x2de9_2c6f,
    0x4a74_84aa,
    0x5cb0_a9dc,
    0x76f9_88da,
    0x983e_5152,
    0xa831_c66d,
    0xb003_27c8,
    0xbf59_7fc7,
    0xc6e0_0bf3,
    0xd5a7_9147,
    0x06ca_6351,
    0x1429_2967,
    0x27b7_0a85,
    0x2e1b_2138,
    0x4d2c_6dfc,
    0x5338_0d13,
    0x650a_7354,
    0x766a_0abb,
    0x81c2_c92e,
    0x9272_2c85,
    0xa2bf_e8a1,
    0xa81a_664b,
    0xc24b_8b70,
    0xc76c_51a3,
    0xd192_e819,
    0xd699_0624,
    0xf40e_3585,
    0x106a_a070,
    0x19a4_c116,
    0x1e37_6c08,
    0x2748_774c,
    0x34b0_bcb5,
    0x391c_0cb3,
    0x4ed8_aa4a,
    0x5b9c_ca4f,
    0x682e_6ff3,
    0x748f_82ee,
    0x78a5_636f,
    0x84c8_7814,
    0x8cc7_0208,
    0x90be_fffa,
    0xa450_6ceb,
    0xbef9_a3f7,
    0xc671_78f2,
];

// The eight working variables, or the eight words of a hash value.
// Kept: eight names, which are the standard's; in an array they would be numbers.
#[derive(Clone, Copy)]
pub struct State {
    pub a: u32,
    pub b: u32,
    pub c: u32,
    pub d: u32,
    pub e: u32,
    pub f: u32,
    pub g: u32,
    pub h: u32,
}

#[tactic(auto, unfolding(crate::specs::Rounds::Extend))]
fn extend(w16: u32, w15: u32, w7: u32, w2: u32) -> u32
    ensures { result ≡ Extend w16 w15 w7 w2 }
{
    ssig1(w2)
        .wrapping_add(w7)
        .wrapping_add(ssig0(w15))
        .wrapping_add(w16)
}

#[tactic(auto, unfolding(crate::specs::Rounds::Round))]
fn round(s: State, k: u32, w: u32) -> State
    ensures { result ≡ Round s k w }
{
    let t1 = s
        .h
        .wrapping_add(bsig1(s.e))
        .wrapping_add(ch(s.e, s.f, s.g))
        .wrapping_add(k)
        .wrapping_add(w);
    let t2 = bsig0(s.a).wrapping_add(maj(s.a, s.b, s.c));
    let a = t1.wrapping_add(t2);
    let e = s.d.wrapping_add(t1);
    State {
        a,
        b: s.a,
        c: s.b,
        d: s.c,
        e,
        f: s.e,
        g: s.f,
        h: s.g,
    }
}

// Eight turns, after which each variable is back at its place.
// Kept: written out, since SHA-256 runs at 0.88 of plain C with one turn a step, and at 1.08 so.
#[tactic(auto, unfolding(crate::specs::Rounds::Rounds))]
fn turns(s: State, k: &[u32], w: &[u32]) -> State
    requires { (length k.now ≡ 8) × (length w.now ≡ 8) }
    ensures { result ≡ Rounds k.now w.now s 8 }
{
    let s = round(s, k[0], w[0]);
    let s = round(s, k[1], w[1]);
    let s = round(s, k[2], w[2]);
    let s = round(s, k[3], w[3]);
    let s = round(s, k[4], w[4]);
    let s = round(s, k[5], w[5]);
    let s = round(s, k[6], w[6]);
    round(s, k[7], w[7])
}

// The words of all turns, of the sixteen of a block.
fn schedule(block: &[u32; 16]) -> [u32; 64]
    ensures { result ≡ Schedule block.now 48 }
{
    let mut w = [0u32; 64];
    (&mut w[..16]).copy_from_slice(block);
    for t in 0..48usize {
        w[t + 16] = extend(w[t], w[t + 1], w[t + 9], w[t + 14]);
    }
    w
}

#[tactic(auto, unfolding(crate::specs::Rounds::Add))]
fn add(s: State, t: State) -> State
    ensures { result ≡ Add s t }
{
    State {
        a: s.a.wrapping_add(t.a),
        b: s.b.wrapping_add(t.b),
        c: s.c.wrapping_add(t.c),
        d: s.d.wrapping_add(t.d),
        e: s.e.wrapping_add(t.e),
        f: s.f.wrapping_add(t.f),
        g: s.g.wrapping_add(t.g),
        h: s.h.wrapping_add(t.h),
    }
}

// The hash value after a block.
pub(crate) fn compress(h: State, block: &[u32; 16]) -> State
    ensures { result ≡ Compress h block.now }
{
    let w = schedule(block);
    let mut s = h;
    for (k, w) in K.chunks_exact(8).zip(w.chunks_exact(8)) {
        s = turns(s, k, w);
    }
    add(h, s)
}
