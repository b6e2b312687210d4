// Laws of the definitions: each function's contract is one law, and calling it does nothing.

ghost use Rattle.result_runs.specs.Results.{ResultsReturned};

/// RETURN with a number of fewer bits, or with a bit, comes to the end of a function's block, its word in the frame.
pub fn results_returned()
    ensures { ResultsReturned }
{}
