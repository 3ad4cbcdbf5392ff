//! Four numbers compared at once.
ghost use Rattle.std.specs.Prelude.{◌+◌, ◌*◌, ◌<◌, length, map};
ghost use Rattle.ipnetwork_index.specs.Searches.{Ascends};
ghost use Rattle.ipnetwork_index.specs.Private.Steps.{IsStep, IsOneIfLess};

use crate::key::Key;

// How many of the next four steps from `at` on, each over `step` + 1 keys, end with a key that is
// less than `key`. No branch depends on the keys. The last one is read first: the others then need
// no check of bounds if the step is 0, and are compared by the instructions of a vector.
#[inline(always)]
pub(crate) fn below_of_four<K: Key>(keys: &[K], at: usize, step: usize, key: K) -> usize
    requires within { at + (4 * step + 3) < length keys.now }
    requires ascending { Ascends (map K.value keys.now) }
    ensures { IsStep (map K.value keys.now) (K.value key) at step result }
{
    let fourth = one_if_less::<K>(keys[at + (4 * step + 3)], key);
    let first = one_if_less::<K>(keys[at + step], key);
    let second = one_if_less::<K>(keys[at + (2 * step + 1)], key);
    let third = one_if_less::<K>(keys[at + (3 * step + 2)], key);
    first + second + third + fourth
}

// 1 if the first is less than the second, and 0 otherwise.
#[inline(always)]
fn one_if_less<K: Key>(first: K, second: K) -> usize
    ensures { IsOneIfLess (K.value first) (K.value second) result }
{
    usize::from(first.is_less(second))
}
