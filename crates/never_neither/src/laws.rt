//! What holds of all files and lists. Each function runs nothing; its contract is a law.

ghost use Rattle.never_neither.specs.NeverNeither.{ImagesAreMade, PointsAreFound, ListsAreRead, ProgramsAreLifted, HeadsAreCounted, NeverNeither};

/// Bytes that aren't refused have an image.
pub fn images_are_made()
    ensures { ImagesAreMade }
{}

/// An image whose code isn't refused for its flow has points.
pub fn points_are_found()
    ensures { PointsAreFound }
{}

/// A list that isn't refused is read as some names.
pub fn lists_are_read()
    ensures { ListsAreRead }
{}

/// Points and names have a program, with an offset of each register at each point or none.
pub fn programs_are_lifted()
    ensures { ProgramsAreLifted }
{}

/// A program has no more heads than it may, or it has more.
pub fn heads_are_counted()
    ensures { HeadsAreCounted }
{}

/// A file and a list for which no refusal has a cause are accepted.
pub fn unrefused_files_are_accepted()
    ensures { NeverNeither }
{}
