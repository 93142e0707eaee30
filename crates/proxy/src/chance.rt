//! Draws where connections are cut.

ghost use Rattle.std.specs.Prelude.{◌≡◌, ◌≢◌};
ghost use Rattle.proxy.specs.Drawing.{drawn_count, drawn_direction, words_of};

use crate::direction::Direction;
use rand_core::utils::NextWord;
use rand_pcg::Pcg32;

/// Where a connection is cut: behind how many bytes on which way.
#[derive(Clone, Copy)]
pub struct Cut {
    pub direction: Direction,
    pub count: u64,
}

impl Cut {
    /// Returns how many bytes may go this way: `u64::MAX` if it is the other way that is cut.
    pub fn left(self, direction: Direction) -> u64
        ensures own { direction ≡ self.direction → result ≡ self.count }
        ensures other { direction ≢ self.direction → result ≡ 18446744073709551615 }
    {
        if direction == self.direction {
            self.count
        } else {
            u64::MAX
        }
    }
}

/// Draws where the connection of this number is cut: on either way, behind a number of bytes below a
/// power of two, which is drawn first, from 1 to 65,536.
pub fn drawn_cut(seed: u64, number: u64) -> Cut
    ensures direction { result.direction ≡ drawn_direction (words_of seed number) }
    ensures count { result.count ≡ drawn_count (words_of seed number) }
{
    let mut words = Pcg32::new(seed, number);
    let direction = if words.next_word() % 2 == 0 {
        Direction::There
    } else {
        Direction::Back
    };
    let digits = words.next_word() % 17;
    let count = u64::from(words.next_word() % (1 << digits));
    Cut { direction, count }
}
