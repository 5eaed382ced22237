//! The bits of a word.

ghost use Rattle.std.specs.Prelude.{◌≡◌, ◌≢◌, ◌<◌, ◌==◌, ℕ};
ghost use Rattle.std.specs.Int.{bit_at};

/// Returns whether the word has this bit.
pub fn has_bit(word: u64, place: u32) -> bool
    requires { place < 64 }
    ensures { result ≡ (bit_at word place == 1) }
{
    word >> place & 1 == 1
}

/// Returns the word with this bit set.
pub fn with_bit(word: u64, place: u32) -> u64
    requires { place < 64 }
    ensures same { bit_at result place ≡ 1 }
    ensures others { (i : ℕ) → i ≢ place → bit_at result i ≡ bit_at word i }
{
    word | (1 << place)
}

/// Returns the word with this bit cleared.
pub fn without_bit(word: u64, place: u32) -> u64
    requires { place < 64 }
    ensures same { bit_at result place ≡ 0 }
    ensures others { (i : ℕ) → i < 64 → i ≢ place → bit_at result i ≡ bit_at word i }
{
    word & !(1 << place)
}

/// Returns the place of the lowest bit of the word, which has one.
pub fn lowest_bit(word: u64) -> u32
    requires { 0 < word }
    ensures within { result < 64 }
    ensures is_set { bit_at word result ≡ 1 }
    ensures none_below { (i : ℕ) → i < result → bit_at word i ≡ 0 }
{
    word.trailing_zeros()
}
