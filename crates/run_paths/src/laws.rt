//! What holds of runs. Each function runs nothing; its contract is a law.

ghost use Rattle.run_paths.specs.Follows.{RunsFollow};
ghost use Rattle.run_paths.specs.Maps.{MapsAct};
ghost use Rattle.run_paths.specs.Relations.{ActivationsOpen, CertificatesSpare, DisciplinesWeaken, RunsObey, RunsRestoreCertified};

/// What the maps of openings, of steps and of calls make of states.
pub fn maps_act()
    ensures { MapsAct }
{}

/// For an image whose code isn't refused, a run that keeps the discipline up to a moment follows, at each moment up to it,
/// the path that it spells: an open path of the program to the run's point, which leads to the words that the machine has.
pub fn runs_follow()
    ensures { RunsFollow }
{}

/// Such a run obeys, at each moment, each relation that holds at its point: the relation is 0 on the machine's words.
pub fn relations_hold_in_runs()
    ensures { RunsObey }
{}

/// Such a run has, at its start and behind each call, the opening registers of the activation that opened: those of the
/// moment before, with the link in ra where it was a call.
pub fn activations_open()
    ensures { ActivationsOpen }
{}

/// Such a run has at each return, in each tracked register that is certified in the procedure that returns, the word that
/// the register had when that activation opened.
pub fn certified_registers_are_restored()
    ensures { RunsRestoreCertified }
{}

/// Of registers that are tracked and certified in each procedure the discipline asks nothing at a return: a run that keeps
/// the rest of it keeps it whole; and to keep it whole is to keep the rest of it.
pub fn certificates_spare()
    ensures spare { CertificatesSpare }
    ensures weaken { DisciplinesWeaken }
{}
