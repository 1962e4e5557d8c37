//! A live grant.

use dn_placement::request::Request;
use dn_tables::placement::Placement;

/// A grant: a request, with the placement that meets it, under an id.
#[derive(Drop)]
pub struct Grant {
    /// By which it is revoked.
    pub id: u32,
    /// What was asked for.
    pub request: Request,
    /// Where it stands.
    pub placement: Placement,
}
