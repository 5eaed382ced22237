//! A table of the decimal digits of small numbers.
ghost use Rattle.std.specs.Prelude.{◌≡◌, ◌<◌, ◌+◌};
ghost use Rattle.pim_page.specs.Numerals.{IsNumeral};

use std::alloc::{AllocError, Global};
use std::marker::Model;

/// The table has the digits of the numbers below this.
pub(crate) const KEPT: u32 = 1000;

/// The digits of each number below a thousand. Each number has four bytes: its digits first, and their count last.
///
/// A number is written by one move of four bytes, without a division, and without a branch on its number of digits.
#[derive(Drop)]
pub(crate) struct Numerals {
    texts: Vec<[u8; 4]>,
}

impl Model for Numerals {
    ghost use Rattle.std.specs.Prelude.{List, ℕ};
    ghost use Rattle.pim_page.specs.Numerals.{AreNumerals};

    ghost Value = { List (List ℕ) };

    ghost view = { λ numerals. numerals.texts.items };

    ghost invariant = { λ numerals. AreNumerals 1000 numerals.texts.items };
}

impl Numerals {
    /// Returns the table.
    pub fn new(alloc: Global) -> Result<Numerals, AllocError> {
        let mut texts = Vec::with_capacity(alloc, KEPT as usize)?;
        for number in 0..KEPT {
            texts.push(numeral_of(number))?;
        }
        Ok(Numerals { texts })
    }

    /// Returns the digits of a number, from the table.
    #[inline(always)]
    pub fn of(&self, number: u32) -> [u8; 4]
        requires { number < 1000 }
        ensures { IsNumeral number result }
    {
        self.texts[number as usize]
    }
}

/// Computes the digits of a number.
#[tactic(auto, using(crate::proofs::DecimalLemmas::below_a_thousand))]
fn numeral_of(number: u32) -> [u8; 4]
    requires { number < 1000 }
    ensures { IsNumeral number result }
{
    if number < 10 {
        [digit(number), 0, 0, 1]
    } else if number < 100 {
        [digit(number / 10), digit(number % 10), 0, 2]
    } else {
        [
            digit(number / 100),
            digit(number / 10 % 10),
            digit(number % 10),
            3,
        ]
    }
}

/// Returns the character of a digit.
#[inline]
pub(crate) fn digit(value: u32) -> u8
    requires { value < 10 }
    ensures { result ≡ 48 + value }
{
    b'0' + value as u8
}
