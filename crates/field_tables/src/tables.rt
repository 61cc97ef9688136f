//! Logarithms and powers of level 3 to the base 128, whose order is 255.
ghost use Rattle.std.specs.Prelude.{◌≡◌, ℕ, ◌<◌, ◌≤◌, slice_index};
ghost use Rattle.tower_numbers.specs.Levels.{product_at, twist_at};
ghost use Rattle.field_tables.specs.Powers.{power_of};

// The products with 128 of the numbers below 16.
const OF_LOW: [u8; 16] = [
    0, 128, 192, 64, 224, 96, 32, 160, 112, 240, 176, 48, 144, 16, 80, 208,
];

// The products with 128 of the multiples of 16.
const OF_HIGH: [u8; 16] = [
    0, 232, 124, 148, 254, 22, 130, 106, 87, 191, 43, 195, 169, 65, 213, 61,
];

// The logarithm of the twist of level 3.
const LOG_OF_TWIST: usize = 120;

/// The tables of logarithms and powers of level 3. They hold 1,891 bytes.
#[derive(Drop)]
pub struct Tables {
    power: [u8; 1379],
    log: [u16; 256],
    ghost powers: { (i : ℕ) → i < 629 → slice_index power i ≡ power_of i },
    ghost zeros: { (i : ℕ) → 629 ≤ i → slice_index power i ≡ 0 },
    ghost logs: { (i : ℕ) → i < 255 → slice_index log (power_of i) ≡ i },
    ghost log_of_zero: { slice_index log 0 ≡ 629 },
}

impl Tables {
    /// Powers of a generator of level 3, and the logarithms of its elements to that base.
    pub fn new() -> Tables {
        let mut power = [0u8; 1379];
        let mut log = [629u16; 256];
        let mut x: u8 = 1;
        for i in 0..629usize {
            power[i] = x;
            if i < 255 {
                log[x as usize] = i as u16;
            }
            x = times_base(x);
        }
        Tables { power, log }
    }

    // A sum of two or three logarithms is below 629. Zero has that for its logarithm, so each sum with it finds a zero.
    pub(crate) fn product(&self, a: u8, b: u8) -> u8
        ensures { result ≡ product_at 3 a b }
    {
        let at = self.log[a as usize] as usize + self.log[b as usize] as usize;
        self.power[at]
    }

    pub(crate) fn twisted_product(&self, a: u8, b: u8) -> u8
        ensures { result ≡ product_at 3 (twist_at 3) (product_at 3 a b) }
    {
        let at = self.log[a as usize] as usize + self.log[b as usize] as usize + LOG_OF_TWIST;
        self.power[at]
    }
}

// The product with the base, as the sum of those of both nibbles.
fn times_base(a: u8) -> u8
    ensures { result ≡ product_at 3 a 128 }
{
    OF_LOW[(a % 16) as usize] ^ OF_HIGH[(a / 16) as usize]
}
