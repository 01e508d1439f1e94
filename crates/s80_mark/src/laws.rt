// Laws of the mark file, for the crates above.
ghost use Rattle.std.specs.Prelude.{◌≡◌, ◌⊎◌, ◌<◌, ◌+◌, ◌%◌, ◌^◌, ℕ, List, Some, None, Result, take, ◌↔◌};
ghost use Rattle.s80_disk.specs.Image.{Image};
ghost use Rattle.s80_mark.specs.declared.mark.MarkState.{MarkState};
ghost use Rattle.s80_mark.specs.declared.read.Found.{Found};
ghost use Rattle.s80_mark.specs.declared.read.MarkFault.{MarkFault};
ghost use Rattle.s80_mark.specs.Mark.{open_mark, valid_mark};
ghost use Rattle.s80_mark.specs.Found.{IsAnswer, IsDiskFault};

/// What stands behind the first 128 bytes of a mark file says nothing.
pub fn mark_stands_in_front()
    ensures { (file : List ℕ) → valid_mark (take 128 file) ≡ valid_mark file }
{}

/// A mark file has no valid mark exactly where no slot is open.
pub fn no_mark_where_both_are_closed()
    ensures { (file : List ℕ) → (valid_mark file ≡ None) ↔ ((open_mark file 0 ≡ None) × (open_mark file 64 ≡ None)) }
{}

/// Of two open slots the one with the greater number is valid, as long as the numbers are less than 2^63 apart.
/// With equal numbers, and with numbers 2^63 apart, it is the first.
pub fn one_of_two_marks()
    ensures greater { (file : List ℕ) (first second : MarkState)
        → open_mark file 0 ≡ Some first → open_mark file 64 ≡ Some second → second.sequence < 2 ^ 64
        → first.sequence < second.sequence → second.sequence < first.sequence + 2 ^ 63 → valid_mark file ≡ Some second }
    ensures less { (file : List ℕ) (first second : MarkState)
        → open_mark file 0 ≡ Some first → open_mark file 64 ≡ Some second → first.sequence < 2 ^ 64
        → second.sequence < first.sequence → first.sequence < second.sequence + 2 ^ 63 → valid_mark file ≡ Some first }
    ensures equal { (file : List ℕ) (first second : MarkState)
        → open_mark file 0 ≡ Some first → open_mark file 64 ≡ Some second
        → first.sequence ≡ second.sequence → valid_mark file ≡ Some first }
    ensures opposite { (file : List ℕ) (first second : MarkState)
        → open_mark file 0 ≡ Some first → open_mark file 64 ≡ Some second
        → second.sequence ≡ (first.sequence + 2 ^ 63) % 2 ^ 64 → valid_mark file ≡ Some first }
{}

/// Files call for one answer, where no call on the disk fails.
pub fn one_answer()
    ensures { (files : Image) (one other : Result Found MarkFault)
        → IsAnswer files one → IsAnswer files other → IsDiskFault one ⊎ IsDiskFault other ⊎ (one ≡ other) }
{}
