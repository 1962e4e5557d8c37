//! What lookups in flight are played over.

use dn_flat::flats::Flats;
use dn_net::net::Net;

/// A net, and what each node of it sees.
#[derive(Drop)]
pub struct Sky {
    pub net: Net,
    pub flats: Flats,
}
