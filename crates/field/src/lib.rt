// The product of two blocks, and the hash of a list of blocks, of NIST SP 800-38D: the highest bit of a block is the coefficient of x^0.
// The product is defined as that of polynomials modulo x^128 + x^7 + x^2 + x + 1; the code goes by the standard's steps, and by a table for each hash key.
#![tactic(auto)]

ghost use Rattle.std.specs.Prelude.{◌≡◌, ℕ, ◌^◌, ◌<◌, ◌≤◌, bit_xor, slice_index};
ghost use Rattle.field.specs.Field.{hash, product};
ghost use Rattle.field.specs.Steps.{halved, added, summed, Product, Products};

// What x^128 leaves: x^7 + x^2 + x + 1, in the order of a block's bits.
const REDUCE: u128 = 0xe100_0000_0000_0000_0000_0000_0000_0000;

// times x
#[tactic(auto, unfolding(crate::specs::Steps::halved))]
fn halve(v: u128) -> u128
    ensures { result ≡ halved v }
{
    (v / 2) ^ (v % 2 * REDUCE)
}

// times x^4
fn shift(v: u128) -> u128
    ensures { result ≡ halved (halved (halved (halved v))) }
{
    halve(halve(halve(halve(v))))
}

// z and, where bit `k` of x is set, v
#[tactic(auto, unfolding(crate::specs::Steps::added))]
fn add_bit(x: u128, k: u32, z: u128, v: u128) -> u128
    requires { k < 128 }
    ensures { result ≡ added x k z v }
{
    if (x >> k) % 2 == 1 { z ^ v } else { z }
}

// The product of the last `bits` bits of x, the highest first, by y.
fn by_steps(bits: u32, x: u128, y: u128) -> u128
    requires { bits ≤ 128 }
    ensures { result ≡ summed bits x 0 y }
{
    let mut z = 0;
    let mut v = y;
    for k in (0..bits).rev() {
        z = add_bit(x, k, z, v);
        v = halve(v);
    }
    z
}

// The product of two blocks, by the standard's steps.
#[tactic(auto, using(crate::proofs::Ghash::product_steps), unfolding(crate::specs::Steps::stepwise))]
pub fn multiply(x: u128, y: u128) -> u128
    ensures { result ≡ product x y }
{
    by_steps(128, x, y)
}

// The laws of the product, over any modulus of degree 128 where they speak of remainders.
#[tactic(auto, using(crate::proofs::Ghash::product_known))]
pub fn product_stands()
    ensures { Product }
{}

// A row of the table moved on to the next place.
fn move_on(row: &mut [u128; 16])
    ensures { (k : ℕ) → k < 16 → slice_index row.new k ≡ halved (halved (halved (halved (slice_index row.old k)))) }
{
    for entry in row.iter_mut() {
        *entry = shift(*entry);
    }
}

// The table for h: row i has the products of k 2^(124 - 4 i) by h, for each nibble k.
fn products(h: u128) -> [[u128; 16]; 32]
    ensures { Products h result }
{
    let mut table = [[0; 16]; 32];
    let mut row: [u128; 16] = std::array::from_fn(|k| by_steps(4, k as u128, h));
    for r in table.iter_mut() {
        *r = row;
        // in place: by `map` a row is copied through an iterator, and a key takes up to twice as long
        move_on(&mut row);
    }
    table
}

// A block to hash under, with the products of each nibble at each place by it: 8 KB, and no reduction at a product.
#[derive(Drop)]
pub struct HashKey {
    h: u128,
    table: [[u128; 16]; 32],
    ghost block: { h < 2 ^ 128 },
    ghost made: { Products h table },
}

impl HashKey {
    // inlined, so that the table is made where it stays: from a call it is copied twice
    #[inline]
    pub fn new(h: u128) -> Self
        ensures { result.h ≡ h }
    {
        let table = products(h);
        HashKey { h, table }
    }

    // The product of x and the hash key.
    pub fn times(&self, x: u128) -> u128
        ensures { result ≡ product x self.now.h }
    {
        let mut z = 0;
        let mut rest = x;
        for row in &self.table {
            z ^= row[(rest >> 124) as usize];
            rest <<= 4;
        }
        z
    }

    // One block more is taken into a running hash, which starts from 0.
    pub fn absorb(&self, sum: u128, block: u128) -> u128
        ensures { result ≡ product (bit_xor sum block) self.now.h }
    {
        self.times(sum ^ block)
    }

    // The hash of the blocks, from the zero block on.
    pub fn hash(&self, blocks: &[u128]) -> u128
        ensures { result ≡ hash self.now.h blocks.now }
    {
        let mut sum = 0;
        for block in blocks {
            sum = self.absorb(sum, *block);
        }
        sum
    }
}
