//! Signed universals, compared with the universals' own texts: no number is computed.
//!
//! The texts take as much as one row's line, and 8 bytes a universal.

ghost use Rattle.std.specs.Prelude.{◌≡◌, ◌++◌, ◌<◌, ◌≤◌, ℕ, true, map, length, slice_index, IfOk, IfSome};
ghost use Rattle.dq_text.specs.Written.{number_text};
ghost use Rattle.cert_text.specs.SignsTaken.{behind_sign};

use dq_lits::Memory;
use dq_text::push_spaced;
use flat_lists::FlatLists;
use std::alloc::Global;

/// The text of each universal, with a space behind it.
pub fn universal_words(alloc: Global, universals: &[u64]) -> Result<FlatLists<u8>, Memory>
    ensures { IfOk result (λ words. words ≡ map number_text universals.now) }
{
    let mut words = FlatLists::new(alloc);
    let mut word = Vec::new(alloc);
    let mut rest = universals;
    while let Some((x, others)) = rest.split_first() {
        word.clear();
        push_spaced(&mut word, *x)?;
        words.push(&word)?;
        rest = others;
    }
    Ok(words)
}

/// Takes a word, or a minus and the word: whether there was none, and the bytes behind.
pub fn take_sign<'a>(word: &[u8], bytes: &'a [u8]) -> Option<(bool, &'a [u8])>
    ensures { IfSome result
        (λ taken. bytes.now ≡ behind_sign taken.0 (word.now ++ taken.1.now)) }
{
    match bytes.split_first() {
        Some((b'-', digits)) => Some((false, behind_word(word, digits)?)),
        _ => Some((true, behind_word(word, bytes)?)),
    }
}

// The bytes behind a word, if it stands here.
fn behind_word<'a>(word: &[u8], bytes: &'a [u8]) -> Option<&'a [u8]>
    ensures { IfSome result (λ behind. bytes.now ≡ word.now ++ behind.now) }
{
    if bytes.len() < word.len() {
        return None;
    }
    if !are_same(word, bytes) {
        return None;
    }
    Some(&bytes[word.len()..])
}

// Whether bytes begin as a word does that isn't longer.
fn are_same(word: &[u8], bytes: &[u8]) -> bool
    requires { length word.now ≤ length bytes.now }
    ensures { result ≡ true → (k : ℕ) → k < length word.now
        → slice_index bytes.now k ≡ slice_index word.now k }
{
    for k in 0..word.len() {
        if bytes[k] != word[k] {
            return false;
        }
    }
    true
}
