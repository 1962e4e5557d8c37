//! The laws on audits, each the contract of a function that does nothing.

ghost use Rattle.dn_audit.specs.Terms.{OneAudit, ReportsAreTold, ShutAreShutOut};

/// There is one report of an image.
pub fn one_audit()
    ensures { OneAudit }
{}

/// The report of an image tells what is written out by definitions alone.
pub fn reports_are_told()
    ensures { ReportsAreTold }
{}

/// The slots that a report lists as shut out are exactly those of units whose gate is set in the words of the
/// image, and in which its tables hold no record.
pub fn shut_are_shut_out()
    ensures { ShutAreShutOut }
{}
