// A pseudo-random generator with a seed, and what is drawn with it.
use family::{Clause, Family};

#[derive(Drop)]
pub struct Draws {
    state: u64,
}

impl Draws {
    pub fn new(seed: u64) -> Draws {
        Draws {
            state: seed.wrapping_mul(0x9e37_79b9_7f4a_7c15).wrapping_add(1),
        }
    }

    // The next number, of 16 bits.
    pub fn next(&mut self) -> usize {
        self.state = self
            .state
            .wrapping_mul(6364136223846793005)
            .wrapping_add(1442695040888963407);
        ((self.state >> 40) & 0xffff) as usize
    }

    // One time in so many.
    pub fn once_in(&mut self, times: usize) -> bool {
        self.next().checked_rem(times) == Some(0)
    }

    // One of the items; none only where there is none.
    pub fn pick<T: Copy>(&mut self, items: &[T]) -> Option<T> {
        items.get(self.next().checked_rem(items.len())?).copied()
    }
}

// The value that the last digit of a number stands for, and the digits before it, in the base of the number of values.
pub fn last_digit<T: Copy>(number: usize, values: &[T]) -> Option<(T, usize)> {
    let place = number.checked_rem(values.len())?;
    let value = values.get(place).copied()?;
    Some((value, number / values.len()))
}

// A region or a clause, as it is drawn; none only where the values drawn make none.
pub trait Draw: Copy {
    fn draw(draws: &mut Draws) -> Option<Self>;
}

// An action, as it is drawn: all values make one.
pub trait DrawAction: Copy {
    fn draw_action(draws: &mut Draws) -> Self;
}

impl<R: Draw, A: DrawAction> Draw for Clause<R, A> {
    fn draw(draws: &mut Draws) -> Option<Clause<R, A>> {
        let region = R::draw(draws)?;
        let action = A::draw_action(draws);
        Some(Clause { region, action })
    }
}

// A family whose regions are drawn with ends of a few values, and a grid of points that meets every combination of such
// regions.
pub trait Grid: Family + Draw {
    // How many numbers the grid has.
    const LENGTH: usize;

    // The point of a number below the grid's length; none where the grid's values make no point.
    fn grid_point(number: usize) -> Option<Self::Point>;
}
