//! Tables of tests.
ghost use Rattle.std.specs.Prelude.{◌<◌, ◌≤◌, length, IfSome};

/// The number of the first row that is not so.
pub fn first_wrong<T, E: Drop, F: Fn(&T) -> Result<bool, E>>(rows: &[T], is_so: F) -> Option<usize>
    requires { F.IsAlwaysCallable is_so }
    ensures { IfSome result (λ row. row < length rows.now) }
{
    for row in 0..rows.len() {
        if !is_so(&rows[row]).unwrap_or(false) {
            return Some(row);
        }
    }
    None
}

/// The first number up to this one that is not so.
pub fn first_number_wrong<E: Drop, F: Fn(u64) -> Result<bool, E>>(
    most: u64,
    is_so: F,
) -> Option<u64>
    requires { F.IsAlwaysCallable is_so }
    ensures { IfSome result (λ number. number ≤ most) }
{
    for number in 0..=most {
        if !is_so(number).unwrap_or(false) {
            return Some(number);
        }
    }
    None
}
