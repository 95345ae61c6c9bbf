// What follows from the definitions.
ghost use Rattle.rv_run.specs.Laws.{RunEndIsOne, RunTakesHints};

/// A run under a limit has one end: no two of ending, trapping and the limit hold of it, nor any of them twice.
pub fn run_end_is_one()
    ensures { RunEndIsOne }
{}

/// A run goes the same way whatever hint bytes stand behind those that it takes.
pub fn run_takes_hints()
    ensures { RunTakesHints }
{}
