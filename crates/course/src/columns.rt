// Copies, moves and zeros in one lent column.
// Kept around a loop or one call of the library each, which is no plainer in their place: lay and points each make several, and each would be
// followed by the same law of what the whole column holds, front and rest, which is said here once.
ghost use Rattle.std.specs.Prelude.{◌≡◌, ◌+◌, ◌-◌, ◌≤◌, ◌++◌, length, take, drop, replicate};
ghost use Rattle.course.specs.Rules.Arithmetic.{nought};

// The first n entries of `from` go to the front of the column.
// Kept as a loop: `copy_from_slice` calls memmove where the length is not known to the compiler, and the archive for C needs no memmove from outside.
pub(crate) fn copy_front(from: &[f64], n: usize, col: &mut [f64])
    requires { (n ≤ length from.now) × (n ≤ length col.old) }
    ensures { col.new ≡ take n from.now ++ drop n col.old }
{
    for (i, place) in col[..n].iter_mut().enumerate() {
        *place = from[i];
    }
}

// The n entries from number `from` on go to the front.
pub(crate) fn shift(col: &mut [f64], from: usize, n: usize)
    requires { from + n ≤ length col.old }
    ensures { col.new ≡ take n (drop from col.old) ++ drop n col.old }
{
    col.copy_within(from..from + n, 0);
}

// 0 from number n up to `end`.
pub(crate) fn clear_from(col: &mut [f64], n: usize, end: usize)
    requires { (n ≤ end) × (end ≤ length col.old) }
    ensures { col.new ≡ take n col.old ++ (replicate (end - n) nought ++ drop end col.old) }
{
    col[n..end].fill(0.0);
}
