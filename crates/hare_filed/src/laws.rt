//! What holds of the declarations of files whose names are sound.

ghost use Rattle.hare_filed.specs.Filed.{ProgramsAreFiled};

/// The declarations of a program with one path for each file, and at most 65,536, whose files have trees, and whose names are sound, are
/// shaped as declarations; they stand in files of the program, each whole in one file and before those behind it; no two of a module have
/// one name; their strings and messages have together no more bytes than files may have; and there are fewer than 2^32 - 1 of them.
pub fn law_programs_are_filed()
    ensures { ProgramsAreFiled }
{}
