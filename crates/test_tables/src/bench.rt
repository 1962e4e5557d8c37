//! What the tests of tables are made over.

ghost use Rattle.std.specs.Prelude.{◌≡◌};
ghost use Rattle.dn_kind.specs.Terms.{both_rights};

use dn_base::memory_tables::MemTables;
use dn_kind::rights::Rights;
use dn_kind::unit_kind::Record;
use dn_net::net::Net;
use dn_tables::set::TableSet;

/// A net, the tables of its units, and the device that has them.
#[derive(Drop)]
pub struct Bench {
    pub net: Net,
    pub set: TableSet,
    pub device: MemTables,
}

/// A record of port 0 that allows both accesses.
pub fn to_page(page: u64) -> Record
    ensures { result ≡ record { port = 0; page = page; rights = both_rights } }
{
    Record {
        port: 0,
        page,
        rights: Rights::both(),
    }
}
