// The rows of the table that are renamings of n replicas, read off a part of it.
ghost use Rattle.std.specs.Prelude.{◌≡◌, ◌+◌, ◌*◌, ◌-◌, ◌≤◌, ◌<◌, get_or};
ghost use Rattle.renamings.specs.Fitting.{factorial, part_numbers, last_place, fitting_row, behind_group};

use crate::places::Renaming;
use std::array;

// How many there are, for 0 to 5 replicas.
const COUNTS: [u8; 6] = [1, 1, 2, 6, 24, 120];

// How many rows are renamings of n replicas: n!. The caller shows that n is at most five.
#[tactic(auto, using(crate::specs::Fitting::counts_are_factorials))]
pub fn fitting_count(n: u8) -> usize
    requires { n ≤ 5 }
    ensures { result ≡ factorial n }
{
    COUNTS[n as usize] as usize
}

// The new name of replica j by row i of a part, as a row of n replicas. The caller shows that n is at most five, that there is such a
// row, and that what is read of it is not below 5 - n.
#[tactic(auto, unfolding(crate::specs::Fitting::last_place))]
fn last_place(part: &[u8; 120], n: u8, i: usize, j: u8) -> u8
    requires n_bound { n ≤ 5 }
    requires i_bound { i < 24 }
    requires n_bound_2 { j < n → 5 - n ≤ get_or part.now (5 * i + (5 - n + j)) 0 }
    ensures { result ≡ last_place n (λ x. get_or part.now (5 * i + x) 0) j }
{
    if j < n {
        let left = 5 - n;
        return part[5 * i + (left + j) as usize] - left;
    }
    j
}

// Row k of n replicas. The caller shows that there is one, that n is at most five, and that the part starts with row `first` and
// has row k.
pub fn fitting_row(part: &[u8; 120], first: usize, n: u8, k: usize) -> Renaming
    requires part_value { part.now ≡ part_numbers first }
    requires n_bound { n ≤ 5 }
    requires first_le_k { first ≤ k }
    requires k_bound { k < first + 24 }
    requires k_bound_2 { k < factorial n }
    ensures { result.names ≡ fitting_row n k }
{
    let i = k - first;
    Renaming::new(array::from_fn(|j| last_place(part, n, i, j as u8)))
}

// The row behind the group of row k, whose rows agree up to place b, or `to` where that comes before. The caller shows that n is at
// most five, and that there is such a row of n replicas, and such a replica.
#[tactic(auto, using(crate::specs::Fitting::fitting_one, crate::specs::Fitting::fitting_most), unfolding(crate::specs::Fitting::behind_group, crate::specs::Fitting::group_rest))]
pub fn behind_group(n: u8, b: u8, k: usize, to: usize) -> usize
    requires n_bound { n ≤ 5 }
    requires b_lt_n { b < n }
    requires k_bound { k < factorial n }
    ensures { result ≡ behind_group n b k to }
{
    let size = fitting_count(n - 1 - b);
    to.min(k + (size - k % size))
}
