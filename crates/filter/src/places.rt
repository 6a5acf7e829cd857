// Lent places: a list kept at their front, and the last place.
// insert_at, remove_at and replace_at take a slice and its count, a rule of the project: a draft hands on the slice that it was lent.
ghost use Rattle.std.specs.Prelude.{◌≡◌, ◌≤◌, ◌+◌, ◌-◌, ◌++◌, length, take, drop, slice_set};
ghost use Rattle.std.specs.List.{insert, remove};
ghost use Rattle.filter.specs.Ledger.{if_done, insert_at_answer, at_answer};

use crate::errors::EditError;

// Puts an element before the one at a place, or at the end of the first `count`.
pub fn insert_at<T: Copy>(
    places: &mut [T],
    count: usize,
    place: usize,
    x: T,
) -> Result<(), EditError>
    ensures answer { result ≡ insert_at_answer count (length places.old) place }
    ensures memory { places.new ≡ if_done result (insert (take count places.old) place x ++ drop (count + 1) places.old) places.old }
{
    if place > count {
        return Err(EditError::NoSuchPlace);
    }
    if count >= places.len() {
        return Err(EditError::NoPlaceLeft);
    }
    places[count] = x;
    places[place..count + 1].rotate_right(1);
    Ok(())
}

// Takes the element at a place out of the first `count`. It stays behind the others.
pub(crate) fn remove_at<T: Copy>(
    places: &mut [T],
    count: usize,
    place: usize,
) -> Result<(), EditError>
    requires { count ≤ length places.old }
    ensures answer { result ≡ at_answer count place }
    ensures memory { places.new ≡ if_done result (remove (take count places.old) place ++ (take 1 (drop place places.old) ++ drop count places.old)) places.old }
{
    if place >= count {
        return Err(EditError::NoSuchPlace);
    }
    places[place..count].rotate_left(1);
    Ok(())
}

// Changes the element at a place among the first `count`.
pub(crate) fn replace_at<T: Copy>(
    places: &mut [T],
    count: usize,
    place: usize,
    x: T,
) -> Result<(), EditError>
    requires { count ≤ length places.old }
    ensures answer { result ≡ at_answer count place }
    ensures memory { places.new ≡ if_done result (slice_set places.old place x) places.old }
{
    if place >= count {
        return Err(EditError::NoSuchPlace);
    }
    // After get_mut of a slice a proof knows the length and no element.
    places[place] = x;
    Ok(())
}

// Writes the last place, where there is one.
pub(crate) fn put_last<T: Copy>(places: &mut [T], x: T)
    ensures { places.new ≡ slice_set places.old (length places.old - 1) x }
{
    if let Some(last) = places.last_mut() {
        *last = x;
    }
}
