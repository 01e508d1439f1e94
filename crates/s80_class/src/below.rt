// The subclasses of each class: pairs of a superclass and the number of a class, in rising order.
ghost use Rattle.std.specs.Prelude.{◌≡◌, ◌+◌, ◌<◌, Option, ℕ, vec_len, vec_capacity};
ghost use Rattle.s80_class.specs.Below.{Has, IsOrdered, IsPlaceOf, IsWith, IsWithout, IsMoved};

// How many pairs come before this one.
pub(crate) fn place_below(pairs: &[(Option<u32>, u32)], pair: (Option<u32>, u32)) -> usize
    requires { IsOrdered pairs.now }
    ensures { IsPlaceOf pairs.now pair result }
{
    pairs.partition_point(|other| other.cmp(&pair).is_lt())
}

// Puts a pair in its place. Takes no memory.
pub(crate) fn put_below(pairs: &mut Vec<(Option<u32>, u32)>, pair: (Option<u32>, u32))
    requires ordered { IsOrdered pairs.old.items }
    requires new { Has pairs.old.items pair → ⊥ }
    requires room { vec_len pairs.old < vec_capacity pairs.old }
    ensures with { IsWith pairs.old.items pair pairs.new.items }
    ensures len { vec_len pairs.new ≡ vec_len pairs.old + 1 }
    ensures capacity { vec_capacity pairs.new ≡ vec_capacity pairs.old }
{
    let at = place_below(pairs, pair);
    pairs.insert(at, pair).unwrap();
}

// Takes a pair away that is there.
pub(crate) fn take_below(pairs: &mut Vec<(Option<u32>, u32)>, pair: (Option<u32>, u32))
    requires ordered { IsOrdered pairs.old.items }
    requires there { Has pairs.old.items pair }
    ensures without { IsWithout pairs.old.items pair pairs.new.items }
    ensures len { vec_len pairs.new + 1 ≡ vec_len pairs.old }
    ensures capacity { vec_capacity pairs.new ≡ vec_capacity pairs.old }
{
    let at = place_below(pairs, pair);
    pairs.remove(at);
}

// Puts a class under another superclass. Where that is the same nothing moves.
pub(crate) fn move_below(
    pairs: &mut Vec<(Option<u32>, u32)>,
    number: u32,
    from: Option<u32>,
    to: Option<u32>,
)
    requires ordered { IsOrdered pairs.old.items }
    requires there { Has pairs.old.items (from, number) }
    requires one { (other : Option ℕ) → Has pairs.old.items (other, number) → other ≡ from }
    ensures moved { IsMoved pairs.old.items number to pairs.new.items }
    ensures len { vec_len pairs.new ≡ vec_len pairs.old }
    ensures capacity { vec_capacity pairs.new ≡ vec_capacity pairs.old }
{
    if from != to {
        take_below(pairs, (from, number));
        put_below(pairs, (to, number));
    }
}
