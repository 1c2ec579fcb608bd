ghost use Rattle.kc_kit_verdict.specs.Watched.{RunsAreSeen};

/// Rules that have watched the steps of a run have seen its lives.
pub fn runs_are_seen()
    ensures { RunsAreSeen }
{}
