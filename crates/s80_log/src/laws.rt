// Laws of files that stand for a list, for the crates above.
ghost use Rattle.std.specs.Prelude.{◌≡◌, List};
ghost use Rattle.s80_change.specs.declared.change.Change.{Change};
ghost use Rattle.s80_disk.specs.declared.disk.FileId.TheVariants.{Mark};
ghost use Rattle.s80_disk.specs.Image.{Image};
ghost use Rattle.s80_mark.specs.declared.mark.MarkState.{MarkState};
ghost use Rattle.s80_log.specs.Standing.{marked_part, FilesStandFor};

/// Files stand for one list at most, by one mark.
pub fn files_stand_for_one_list()
    ensures { (files : Image) (mark other_mark : MarkState) (changes other : List Change)
        → FilesStandFor files mark changes → FilesStandFor files other_mark other → (mark ≡ other_mark) × (changes ≡ other) }
{}

/// What stands past the marked part of the log, in the other log and in the images says nothing.
pub fn bytes_past_the_mark_say_nothing()
    ensures { (files other : Image) (mark : MarkState) (changes : List Change)
        → FilesStandFor files mark changes → other Mark ≡ files Mark → marked_part mark other ≡ marked_part mark files
        → FilesStandFor other mark changes }
{}
