//! Laws on the definitions, each the contract of a function that does nothing.

ghost use Rattle.std.specs.Prelude.{◌≡◌, ◌+◌};
ghost use Rattle.dn_kind.specs.declared.levels.TheConstants.{LEVELS};
ghost use Rattle.dn_kind.specs.Terms.{ChainPassesSlots, ClearedTablesAllow, HeldRecordsFit, LawOfAccess, LegalOneRowOfSlots, LegalOneWayToUnit, MoreRecordsKeepNames, NamesUnderAreResolved, OneRowOfSlots, OneWayToUnit, ReachUnderIsWithin, ShapeFaultIsFirst, step_limit_under};

/// A net has no fault on the shape of its units exactly where each unit is shaped as a unit may be
/// and as its kind asks; a fault is the first unit that is not.
pub fn shape_fault_is_first()
    ensures { ShapeFaultIsFirst }
{}

/// Each record that tables hold stands in a slot of a unit that can hold it, and allows reading,
/// writing or both.
pub fn held_records_fit()
    ensures { HeldRecordsFit }
{}

/// In a legal net, under records that its units can hold, what is reached at all is reached within 259 steps.
pub fn reach_under_is_within()
    ensures { ReachUnderIsWithin }
{}

/// Resolution under records follows chains of at most 259 steps, and so has 260 levels of names: the name itself, and
/// one more for each step.
pub fn limit_under()
    ensures steps { step_limit_under ≡ 259 }
    ensures levels { LEVELS ≡ step_limit_under + 1 }
{}

/// The list of names has exactly those to which a name resolves under records.
pub fn names_under_are_resolved()
    ensures { NamesUnderAreResolved }
{}

/// More records in slots that hold none take no name away.
pub fn more_records_keep_names()
    ensures { MoreRecordsKeepNames }
{}

/// Tables in which the slots whose records do not allow an access have words 0 hold the records
/// that allow it, and no others.
pub fn cleared_tables_allow()
    ensures { ClearedTablesAllow }
{}

/// The law of access: what a name resolves to for an access is what it resolves to under the tables
/// in which the slots whose records do not allow it have words 0.
pub fn law_of_access()
    ensures { LawOfAccess }
{}

/// Where no name forks on its way to a unit, a name that reaches a unit under records has one way
/// to it: of two chains from the name, of which the first ends in a unit, one goes on where the
/// other ends.
pub fn one_way_to_unit()
    ensures { OneWayToUnit }
{}

/// A chain of steps under records goes on through a row of slots, and a row of slots that is gone
/// through is a chain.
pub fn chain_passes_slots()
    ensures { ChainPassesSlots }
{}

/// Where no name forks on its way to a unit, a name has one row of slots: to whatever accepted
/// names it comes, it goes through the same slots in the same order.
pub fn one_row_of_slots()
    ensures { OneRowOfSlots }
{}

/// In a legal net a name that reaches a unit under records has one way to it.
pub fn legal_one_way_to_unit()
    ensures { LegalOneWayToUnit }
{}

/// In a legal net a name has one row of slots.
pub fn legal_one_row_of_slots()
    ensures { LegalOneRowOfSlots }
{}
