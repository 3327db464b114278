//! Random numbers from the words of a generator.

use rand_core::utils::NextWord;
use rand_pcg::Lcg64Xsh32;

/// Returns a random number below `k` from the next word of `generator`; 0 where `k` is 0.
pub(crate) fn draw(generator: &mut Lcg64Xsh32, k: u32) -> u32 {
    let word = generator.next_word();
    scaled(word, k)
}

/// Returns `k` scaled by the ratio of `word` to the number of all words, rounded down.
fn scaled(word: u32, k: u32) -> u32 {
    (u64::from(word) * u64::from(k) / (1 << 32)) as u32
}

/// Puts `list` in a random order, by the words of `generator`.
pub(crate) fn shuffle(generator: &mut Lcg64Xsh32, list: &mut [u32]) {
    for place in (1..list.len()).rev() {
        let other = draw(generator, step_up(place));
        exchange(list, place, other as usize);
    }
}

/// Returns the number after `place`, at most the greatest word.
fn step_up(place: usize) -> u32 {
    place.min(0xffff_fffe) as u32 + 1
}

/// Exchanges the entries at `place` and `other` of `list`, where there are both.
fn exchange(list: &mut [u32], place: usize, other: usize) {
    if place < list.len() && other < list.len() {
        list.swap(place, other);
    }
}
