//! Words with a bit for each existential of a batch.

ghost use Rattle.std.specs.Prelude.{◌≡◌, ◌<◌, ◌==◌, ◌&&◌, ◌||◌, ℕ, false, not, length};
ghost use Rattle.circuit_plain.specs.Words.{marked};
ghost use Rattle.skolem_checker.specs.Reads.{has_bit};

/// Takes all bits back.
pub(crate) fn clear(words: &mut [u64])
    ensures same_length { length words.new ≡ length words.old }
    ensures none { (i v : ℕ) → marked words.new i v ≡ false }
{
    for word in words.iter_mut() {
        *word = 0;
    }
}

/// Sets bit `k` of the word at a place.
pub(crate) fn set_bit(words: &mut [u64], at: usize, k: usize)
    requires in_range { at < length words.old }
    requires bit { k < 64 }
    ensures same_length { length words.new ≡ length words.old }
    ensures set { (i v : ℕ)
        → marked words.new i v ≡ (marked words.old i v || ((k == i) && (at == v))) }
{
    words[at] |= 1u64 << k;
}

/// Bit `k` of a word.
pub(crate) fn bit(words: &[u64], at: usize, k: usize) -> bool
    requires in_range { at < length words.now }
    requires bit { k < 64 }
    ensures { result ≡ marked words.now k at }
{
    (words[at] >> k) % 2 == 1
}

/// The bits of one word that another one doesn't have.
pub(crate) fn without(word: u64, other: u64) -> u64
    ensures { (i : ℕ) → i < 64 → has_bit result i ≡ (has_bit word i && not (has_bit other i)) }
{
    word & !other
}

/// Bit `k` of one word.
pub(crate) fn has_bit(word: u64, k: usize) -> bool
    requires { k < 64 }
    ensures { result ≡ has_bit word k }
{
    (word >> k) % 2 == 1
}
