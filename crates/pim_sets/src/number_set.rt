//! Sets of the numbers of tasks or mutexes.

ghost use Rattle.std.specs.Prelude.{◌≡◌, ◌==◌, ◌<◌, ◌&&◌, ◌||◌, ◌↔◌, IsTrue, ℕ, not, false, set, []};
ghost use Rattle.std.specs.Iterator.{YieldsFirst, item_count};
ghost use Rattle.pim_sets.specs.Numbers.{has, members, AreTold};

use crate::bits::{has_bit, lowest_bit, with_bit, without_bit};
use std::marker::Model;

/// A set of numbers below 320, a bit for each.
///
/// A mask has a bit for each word that isn't empty. So an iteration skips the empty words, and the test
/// for an empty set reads the mask and at most one word.
#[derive(Clone, Copy, Debug)]
pub struct NumberSet {
    /// The bit of number n is bit n % 64 of word n / 64.
    pub words: [u64; 5],
    filled: u64,
    ghost told: { AreTold words filled },
}

impl NumberSet {
    /// Makes an empty set.
    pub fn new() -> NumberSet
        ensures { (k : ℕ) → has result.words k ≡ false }
    {
        NumberSet {
            words: [0; 5],
            filled: 0,
        }
    }

    /// Returns whether no number is in the set.
    pub fn is_empty(&self) -> bool
        ensures { IsTrue result ↔ ((k : ℕ) → has self.now.words k ≡ false) }
    {
        self.iter().next().is_none()
    }

    /// Returns whether the number is in the set.
    pub fn contains(&self, number: u16) -> bool
        requires { number < 320 }
        ensures { result ≡ has self.now.words number }
    {
        has_bit(self.words[(number / 64) as usize], (number % 64) as u32)
    }

    /// Puts the number in.
    pub fn insert(&mut self, number: u16)
        requires { number < 320 }
        ensures { (k : ℕ) → has self.new.words k ≡ (k == number || has self.old.words k) }
    {
        let index = (number / 64) as usize;
        self.put_word(index, with_bit(self.words[index], (number % 64) as u32));
    }

    /// Takes the number out.
    #[inline(always)]
    pub fn remove(&mut self, number: u16)
        requires { number < 320 }
        ensures { (k : ℕ) → has self.new.words k ≡ (not (k == number) && has self.old.words k) }
    {
        let index = (number / 64) as usize;
        self.put_word(index, without_bit(self.words[index], (number % 64) as u32));
    }

    // Puts the word at this index, and sets or clears its bit of the mask.
    fn put_word(&mut self, index: usize, word: u64)
        requires { index < 5 }
        ensures { self.new.words ≡ set self.old.words index word }
    {
        self.words[index] = word;
        self.filled = if word == 0 {
            without_bit(self.filled, index as u32)
        } else {
            with_bit(self.filled, index as u32)
        };
    }

    /// Returns the numbers of the set, in ascending order.
    pub fn iter(&self) -> Numbers<'_>
        ensures { result ≡ members self.now.words }
    {
        Numbers {
            words: &self.words,
            filled: self.filled,
            index: 0,
            word: 0,
        }
    }
}

/// The numbers of a set, in ascending order.
///
/// Its value in contracts is the list of those that are left. The current word is kept by itself. So no
/// number waits for the store of the one before, and the set isn't copied.
#[derive(Drop)]
pub struct Numbers<'a> {
    // The words of the set, and the mask of those that aren't empty and haven't been entered yet.
    words: &'a [u64],
    filled: u64,
    // The index of the current word, and what is left of it.
    index: u32,
    word: u64,
}

impl<'a> Numbers<'a> {
    /// Returns no numbers.
    pub fn none() -> Numbers<'a>
        ensures { result ≡ [] }
    {
        Numbers {
            words: &[],
            filled: 0,
            index: 0,
            word: 0,
        }
    }
}

impl<'a> Model for Numbers<'a> {
    ghost use Rattle.std.specs.Prelude.{List, ℕ};
    ghost use Rattle.pim_sets.specs.Numbers.{left_in, IsUnderWay};

    ghost Value = { List ℕ };

    ghost view = { λ n. left_in n.words.now n.filled n.index n.word };

    ghost invariant = { λ n. IsUnderWay n.words.now n.filled n.index n.word };
}

impl<'a> Iterator for Numbers<'a> {
    type Item = u16;

    ghost next_gives = { YieldsFirst (λ rest. rest) };

    ghost remaining = { item_count (λ rest. rest) };

    fn next(&mut self) -> Option<u16> {
        if self.word == 0 {
            if self.filled == 0 {
                return None;
            }
            self.index = lowest_bit(self.filled);
            self.word = self.words[self.index as usize];
            self.filled = without_bit(self.filled, self.index);
        }
        let place = lowest_bit(self.word);
        self.word = without_bit(self.word, place);
        Some(self.index as u16 * 64 + place as u16)
    }
}
