//! The laws on sessions, each the contract of a function that does nothing.

ghost use Rattle.dn_session.specs.Terms.{SessionLookupsAreGiven};

/// While the events of the changes of a session are performed in order, however far, each lookup
/// that has ended has ended with names that the net or live grants owed its start at one moment of
/// its life; and with exactly the names that it was owed, where these were the same throughout.
pub fn session_lookups_are_given()
    ensures { SessionLookupsAreGiven }
{}
