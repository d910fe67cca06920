// A table that is filled number by number: a further one goes into the next place, if there is one.
#![tactic(auto)]

ghost use Rattle.std.specs.Prelude.{◌≡◌, ◌≤◌, length};
ghost use Rattle.keeper.specs.Table.{places};
ghost use Rattle.keeper.specs.Contract.{Keeps};

// The places of a table.
pub const PLACES: usize = basis::MOST_KNOTS;

// A further number that comes upon the first n: how many there are with it, or None where it found no place.
pub fn keep<T: Copy>(x: T, n: usize, table: &mut [T]) -> Option<usize>
    requires count { n ≤ places }
    requires table { length table.old ≡ places }
    ensures { Keeps x n table.old result table.new }
{
    if n < PLACES {
        table[n] = x;
        return Some(n + 1);
    }
    None
}
