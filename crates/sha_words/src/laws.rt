//! Laws of the definitions that the contracts cite. Each function is empty: its contract is the law.
ghost use Rattle.sha_words.specs.Laws.{CompressionIsRounds, InitialIsSquareRoots, RoundConstantsAreCubeRoots, ScheduleIsTheStandards};

/// A list of words is a block's schedule just where each word follows the standard's rule.
pub fn schedule_follows_the_rule()
    ensures { ScheduleIsTheStandards }
{}

/// The compression is 64 rounds over the schedule, however long, and eight sums.
pub fn compression_is_rounds()
    ensures { CompressionIsRounds }
{}

/// The round constants come from the cube roots of the first 64 primes.
pub fn round_constants_are_cube_roots()
    ensures { RoundConstantsAreCubeRoots }
{}

/// The initial hash value comes from the square roots of the first 8 primes.
pub fn initial_is_square_roots()
    ensures { InitialIsSquareRoots }
{}
