// What follows from the balance of the memory bus. A law is the contract of a function without a body.
ghost use Rattle.offline_memory.specs.Laws.{BalancedAccessesAreOneMemory, BalancedAccessesHaveBytes, BalancedEventsBalanceAccesses, LinkedAccessesBalance, DistinctTimesAreOneMemory, OldTimesAreAccessTimes, PagesAreMemories, UntouchedBlocksStay};

/// Accesses in the order of time that balance with pages of different labels are one sequential memory.
pub fn balanced_accesses_are_one_memory()
    ensures { BalancedAccessesAreOneMemory }
{}

/// The same of accesses listed in any order, whose times differ.
pub fn accesses_at_different_times_are_one_memory()
    ensures { DistinctTimesAreOneMemory }
{}

/// All words are bytes, where pages have bytes and each row goes on from bytes to bytes.
pub fn balanced_accesses_have_bytes()
    ensures { BalancedAccessesHaveBytes }
{}

/// Each old time is 0 or the time of an access.
pub fn old_times_are_access_times()
    ensures { OldTimesAreAccessTimes }
{}

/// The memories at both ends have the pages' words and times at their blocks.
pub fn pages_are_memories()
    ensures { PagesAreMemories }
{}

/// A block without accesses keeps its word, and its final time is 0.
pub fn untouched_blocks_stay()
    ensures { UntouchedBlocksStay }
{}

/// Where the memory bus balances, its accesses balance with the pages.
pub fn balanced_events_balance_accesses()
    ensures { BalancedEventsBalanceAccesses }
{}

/// Accesses that are linked, each to the last one of its place, balance with pages that fit them.
#[tactic(auto, using(crate::proofs::LinkedLemmas::linked_accesses_balance))]
pub fn linked_accesses_balance()
    ensures { LinkedAccessesBalance }
{}
