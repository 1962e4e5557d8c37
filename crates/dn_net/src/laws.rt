//! Laws on the definitions of the net, each the contract of a function that does nothing.

ghost use Rattle.dn_net.specs.Terms.{AfterStepsIsChain, AreLimits, CycleIsLeast, EndNamesAreEnds, EndNamesAscend, LeastOverlapIsLeast, PathIsLeast, ReachedIsWithin, ShortestCycleIsShortest};

/// The names that are listed are exactly those that pass a test and end a chain of at most so many steps. What a name
/// resolves to is so listed, and so are its stops.
pub fn end_names_are_ends()
    ensures { EndNamesAreEnds }
{}

/// That list ascends, so it has each name once.
pub fn end_names_ascend()
    ensures { EndNamesAscend }
{}

/// The names reached in at most a number of steps are the ends of the chains of at most that many steps.
pub fn reached_is_within()
    ensures { ReachedIsWithin }
{}

/// The names reached in exactly a number of steps are the ends of the chains of that many steps.
pub fn after_steps_is_chain()
    ensures { AfterStepsIsChain }
{}

/// The least overlap is the least address that lies in two map blocks, or in a map block and an accept block.
pub fn least_overlap_is_least()
    ensures { LeastOverlapIsLeast }
{}

/// The shortest cycle is the least number of steps, from 1 to 64, in which a name comes to itself.
pub fn shortest_cycle_is_shortest()
    ensures { ShortestCycleIsShortest }
{}

/// The names that `Loop` carries are a cycle of the shortest length, and of all such lists the least.
pub fn cycle_is_least()
    ensures { CycleIsLeast }
{}

/// The names that `Deep` carries are a path of the length that is asked for, and of all such lists the least;
/// where there are none, there is no chain of that length.
pub fn path_is_least()
    ensures { PathIsLeast }
{}

/// The limits in numbers.
pub fn limits()
    ensures { AreLimits }
{}
