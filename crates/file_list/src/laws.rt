// The laws of lists: they are read again, and builds that keep one leave what they should.
ghost use Rattle.std.specs.Prelude.{ℕ, List};
ghost use Rattle.file_list.specs.Laws.{IsReadAgain, WholeLeaves, CutIsMended};

/// The list of names that files can have is read again as these names.
pub fn lists_are_read_again()
    ensures { (names : List (List ℕ)) → IsReadAgain names }
{}

/// What a build that ran to its end leaves: its site's files, its list, and what wasn't the last build's.
pub fn whole_builds_leave()
    ensures { (folder : List ℕ) (names : List (List ℕ)) → WholeLeaves folder names }
{}

/// What the next build leaves after one that was cut off: the same as if that one had never begun, and none of its files.
pub fn builds_are_mended()
    ensures { (folder : List ℕ) (cut names : List (List ℕ)) → CutIsMended folder cut names }
{}
