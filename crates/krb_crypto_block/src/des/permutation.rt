//! The first and the last permutation of a block of DES (FIPS 46-3, Enciphering).

ghost use Rattle.std.specs.Prelude.{◌≡◌, ℕ, ◌*◌, ◌^◌, ◌<◌, bit_and};
ghost use Rattle.std.specs.Int.{bit_at};
ghost use Rattle.krb_crypto_block.specs.DesTables.{initial_table, final_table};
ghost use Rattle.krb_crypto_block.specs.Des.{bits, permuted, exchanged_place};

/// IP, the initial permutation, by exchanges of groups of four bits, of sixteen, of two, of eight and of one.
pub(super) fn permute_first(block: u64) -> u64
    ensures { bits 64 result ≡ permuted initial_table (bits 64 block) }
{
    let fours = exchange(block, 36, 0x0f0f0f0f);
    let halves = exchange(fours, 48, 0x0000ffff);
    let twos = exchange(halves, 30, 0xcccccccc);
    let octets = exchange(twos, 24, 0xff00ff00);
    exchange(octets, 33, 0x55555555)
}

/// The inverse of IP, which is the last step, by the same exchanges in reverse order.
pub(super) fn permute_last(block: u64) -> u64
    ensures { bits 64 result ≡ permuted final_table (bits 64 block) }
{
    let ones = exchange(block, 33, 0x55555555);
    let octets = exchange(ones, 24, 0xff00ff00);
    let twos = exchange(octets, 30, 0xcccccccc);
    let halves = exchange(twos, 48, 0x0000ffff);
    exchange(halves, 36, 0x0f0f0f0f)
}

/// Each bit that the mask names and the one `shift` places to its left change places.
fn exchange(x: u64, shift: u32, mask: u64) -> u64
    requires shift { shift < 64 }
    requires room { mask * 2 ^ shift < 2 ^ 64 }
    requires apart { bit_and mask (mask * 2 ^ shift) ≡ 0 }
    ensures { (k : ℕ) → k < 64 → bit_at result k ≡ bit_at x (exchanged_place shift mask k) }
{
    let differing = ((x >> shift) ^ x) & mask;
    x ^ differing ^ (differing << shift)
}
