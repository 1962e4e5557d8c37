//! Laws on the definitions, each the contract of a function that does nothing.

ghost use Rattle.dn_flight.specs.Terms.{GoingIsFenced, LookupsHaveFlown, PeakAndFloor, WhatMayComeIsPlayed};

/// Which events are refused: those that may not come, those whose word is not there, and a lookup past the most.
pub fn what_may_come_is_played()
    ensures { WhatMayComeIsPlayed }
{}

/// In a log in which a fence stands before each record that is added after a clear, records are first only added and
/// then only cleared between two fences.
pub fn going_is_fenced()
    ensures { GoingIsFenced }
{}

/// Between two fences all records stand at one moment, and a record that stands at both ends stands throughout.
pub fn peak_and_floor()
    ensures { PeakAndFloor }
{}

/// Every lookup of every schedule has ended with names to which its start resolved at one moment of its life, and
/// with each to which it resolved both when the lookup began and when it ended.
pub fn lookups_have_flown()
    ensures { LookupsHaveFlown }
{}
