// The law of the command: its number of entries decides its answer.
ghost use Rattle.std.specs.Prelude.{◌≡◌, ℕ, List};
ghost use Rattle.command_spec.specs.declared.TrialCommand.{TrialCommand};
ghost use Rattle.site_inputs.specs.Runs.{Decides};
ghost use Rattle.command_trial.specs.Ends.{IsTrial, TrialEnds};

/// Two texts of a trial of n entries are equal.
pub fn a_trial_has_one_text()
    ensures { (entries : ℕ) (text other : List ℕ)
        → IsTrial entries text → IsTrial entries other → text ≡ other }
{}

/// The number of entries decides the answer.
pub fn trials_are_decided()
    ensures { (command : TrialCommand) → Decides (TrialEnds command) }
{}
