//! What holds of made files. The function runs nothing; its contract is the law.

ghost use Rattle.made_files.specs.Accepted.{MadeFilesAreAccepted};

/// Each file that is made from a number from 1 to 100 is accepted whatever the list of names is: it hasn't too many bytes, it is
/// an image, its code isn't refused for its flow, and its program hasn't too many heads.
pub fn made_files_are_accepted()
    ensures { MadeFilesAreAccepted }
{}
