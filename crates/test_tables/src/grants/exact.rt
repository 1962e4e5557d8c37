//! Placements at any address of an agent or at one, and whether one is admissible for parts of its buffer, for
//! other rights, and with another of its hops for its own. The wanted answers are worked out by hand.

ghost use Rattle.dn_kind.specs.Terms.{AreKinds};
ghost use Rattle.test_tables.specs.Terms.{IsDesk};

use crate::at_desk::{first_on, grant_on, is_exact_on, with_own};
use crate::calls::{board_of, desk_of, system_of};
use crate::desk::Desk;
use crate::grants::boards::{chain_plan, port_plan, row_plan};
use crate::tables::boards::page_plan;
use dn_kind::kinds::Kinds;
use dn_kind::rights::Rights;
use dn_placement::request::Request;
use dn_tables::placement::Placement;
use std::alloc::Global;
use std::process::Abort;
use test_plans::Plan;

/// For what a buffer is asked.
#[derive(Clone, Copy)]
enum Wish {
    Read,
    Write,
    Both,
}

/// Its rights.
fn rights_of(wish: Wish) -> Rights {
    match wish {
        Wish::Read => Rights::READ,
        Wish::Write => Rights::WRITE,
        Wish::Both => Rights::both(),
    }
}

/// A buffer that is asked for: the agent, the node, the first address and the size, for what, and at which address
/// of the agent, where one is given.
type Asked = (u16, u16, u64, u64, Wish, Option<u64>);

/// The request of it.
fn request_of(asked: Asked) -> Request {
    let (agent, node, base, size, wish, _at) = asked;
    Request {
        agent,
        node,
        base,
        size,
        rights: rights_of(wish),
    }
}

/// The first placement of a buffer.
fn first_of(rt: &impl Abort, alloc: Global, desk: &Desk<'_>, asked: Asked) -> Option<Placement>
    requires { IsDesk meaning desk.now }
{
    let found = first_on(desk, alloc, &request_of(asked), asked.5);
    found.expect(rt, "an answer")
}

/// A buffer with its first placement: the address, the number of the own hop from the agent's end on, how many hops
/// there are, and the first output of the own one.
type First = (Asked, Option<(u64, u8, usize, u64)>);

/// Compares the first placement of a buffer.
fn compare_first(rt: &impl Abort, alloc: Global, desk: &Desk<'_>, first: First)
    requires { IsDesk meaning desk.now }
{
    let (asked, wanted) = first;
    let found = first_of(rt, alloc, desk, asked);
    let (base, at) = (asked.2, asked.5);
    assert!(rt; told(&found) == wanted, "from {base} on, at {at:?}");
}

/// What is told of a placement.
fn told(found: &Option<Placement>) -> Option<(u64, u8, usize, u64)> {
    match found {
        Some(placement) => {
            let (v, own, hops) = (placement.v(), placement.own(), placement.hops());
            let hop = hops.get(usize::from(own))?;
            Some((v, own, hops.len(), hop.y))
        }
        None => None,
    }
}

/// A part of a buffer in the first placement of the whole: the number of its own hop, how many addresses it has, for
/// what, and whether it shows exactly these. `None` where not all slots of that hop are free.
type PartCase = (Asked, u8, u64, Wish, Option<bool>);

/// Compares whether a part of a buffer is shown exactly.
fn compare_part(rt: &impl Abort, alloc: Global, desk: &Desk<'_>, part: PartCase)
    requires { IsDesk meaning desk.now }
{
    let (asked, own, size, wish, wanted) = part;
    let given = is_shown(rt, alloc, desk, asked, own, size, wish);
    let (base, at) = (asked.2, asked.5);
    assert!(rt;
        given == wanted,
        "{size} from {base} on, at {at:?}, own {own}"
    );
}

/// Whether a part of a buffer is shown exactly.
fn is_shown(
    rt: &impl Abort,
    alloc: Global,
    desk: &Desk<'_>,
    asked: Asked,
    own: u8,
    size: u64,
    wish: Wish,
) -> Option<bool>
    requires { IsDesk meaning desk.now }
{
    let request = request_of(asked);
    let found = first_on(desk, alloc, &request, asked.5).expect(rt, "an answer");
    let placement = found.expect(rt, "a placement");
    let other = with_own(desk, alloc, &request, &placement, own)?;
    let given = is_exact_on(desk, alloc, &request, &other, size, rights_of(wish));
    given.expect(rt, "an answer")
}

/// The nets on which buffers are placed. On three of them a buffer was granted before.
#[derive(Clone, Copy, PartialEq, Eq)]
enum Site {
    /// An agent, node 4, with 16 pages of 4 KiB.
    Pages,
    /// A unit with a port to each of two memories.
    Ports,
    /// Two units in a row, and a grant to the agent that has the last page of the inner one.
    Row,
    /// The same, and a grant to the agent that goes through both.
    Shared,
    /// Three units in a row, and a grant to the agent that has the last page of the third one.
    Chain,
}

/// The plan of its net.
fn plan_of(rt: &impl Abort, alloc: Global, site: Site) -> Plan {
    match site {
        Site::Pages => page_plan(rt, alloc),
        Site::Ports => port_plan(rt, alloc),
        Site::Row => row_plan(rt, alloc),
        Site::Shared => row_plan(rt, alloc),
        Site::Chain => chain_plan(rt, alloc),
    }
}

/// The buffer that was granted on it.
fn granted_on(site: Site) -> Option<Asked> {
    match site {
        Site::Pages => None,
        Site::Ports => None,
        Site::Row => Some((5, 0, 2, 1, Both, None)),
        Site::Shared => Some((4, 0, 0, 1, Both, None)),
        Site::Chain => Some((6, 0, 1, 1, Both, None)),
    }
}

/// Grants that buffer.
fn grant_before(rt: &impl Abort, alloc: Global, desk: &mut Desk<'_>, site: Site)
    requires { IsDesk meaning desk.old }
    ensures { IsDesk meaning desk.new }
{
    if let Some(asked) = granted_on(site) {
        let given = grant_on(desk, alloc, 0, &request_of(asked));
        assert!(rt; matches!(&given, Some(Ok(_))));
    }
}

/// Compares what is placed on a net.
fn compare_on(rt: &impl Abort, alloc: Global, kinds: &Kinds, site: Site)
    requires { AreKinds meaning kinds.now }
{
    let board = board_of(rt, alloc, kinds, plan_of(rt, alloc, site));
    let system = system_of(&board, kinds);
    let mut desk = desk_of(rt, alloc, system, 0, &[]).expect(rt, "a desk");
    grant_before(rt, alloc, &mut desk, site);
    compare_rows(rt, alloc, &desk, site);
}

/// Compares each row of the net.
fn compare_rows(rt: &impl Abort, alloc: Global, desk: &Desk<'_>, site: Site)
    requires { IsDesk meaning desk.now }
{
    for (on, first) in FIRSTS {
        if on == site {
            compare_first(rt, alloc, desk, first);
        }
    }
    for (on, part) in PARTS {
        if on == site {
            compare_part(rt, alloc, desk, part);
        }
    }
}

/// Compares what is placed on each net.
pub fn place_and_compare(rt: &impl Abort, alloc: Global, kinds: &Kinds)
    requires { AreKinds meaning kinds.now }
{
    for site in [Pages, Ports, Row, Shared, Chain] {
        compare_on(rt, alloc, kinds, site);
    }
}

use Site::{Chain, Pages, Ports, Row, Shared};
use Wish::{Both, Read, Write};

/// A page of the memory for the agent with 16 pages.
const PAGE: Asked = (4, 0, 0x4000, 0x1000, Both, None);

/// Two pages of it.
const TWO: Asked = (4, 0, 0x4000, 0x2000, Both, None);

/// Two pages of the first memory beside the unit with a port to each memory.
const FOUR: Asked = (3, 0, 0, 4, Both, None);

/// The last two addresses of the memory, which are behind the outer unit alone.
const LAST: Asked = (4, 0, 4, 2, Both, None);

/// An address behind both units.
const INNER: Asked = (4, 0, 1, 1, Read, None);

/// Two addresses behind both.
const PAIR: Asked = (4, 0, 2, 2, Both, None);

/// An address beside the one that is granted already, in the same page of the outer unit.
const BESIDE: Asked = (4, 0, 1, 1, Read, Some(1));

/// The last address of the memory behind three units.
const DEEP: Asked = (4, 0, 3, 1, Write, None);

/// Buffers with their first placements.
const FIRSTS: [(Site, First); 27] = [
    // Pages of the memory and the one of the serial port.
    (Pages, (PAGE, Some((0, 0, 1, 0x8000_4000)))),
    (
        Pages,
        (
            (4, 0, 0x4000, 0x1000, Read, Some(0x3000)),
            Some((0x3000, 0, 1, 0x8000_4000)),
        ),
    ),
    (
        Pages,
        ((4, 1, 0, 0x1000, Write, None), Some((0, 0, 1, 0x1000_0000))),
    ),
    // Two pages at the last two slots, and past them.
    (
        Pages,
        (
            (4, 0, 0x4000, 0x2000, Both, Some(0xe000)),
            Some((0xe000, 0, 1, 0x8000_4000)),
        ),
    ),
    (Pages, ((4, 0, 0x4000, 0x2000, Both, Some(0xf000)), None)),
    // Neither in the middle of a page, nor half a page, which would show more.
    (Pages, ((4, 0, 0x4000, 0x1000, Both, Some(0x10)), None)),
    (Pages, ((4, 0, 0x4000, 0x800, Both, None), None)),
    (Ports, (FOUR, Some((0, 0, 1, 0)))),
    (Ports, ((3, 1, 2, 2, Read, Some(4)), Some((4, 0, 1, 2)))),
    // Both agents have the last page.
    (Ports, ((3, 0, 0, 2, Both, Some(6)), None)),
    (Ports, ((4, 0, 0, 2, Read, None), None)),
    // The unit does not have these addresses of the agent; and a page is two addresses.
    (Ports, ((3, 0, 2, 2, Both, Some(8)), None)),
    (Ports, ((3, 0, 0, 1, Both, None), None)),
    // A page of the outer unit is two addresses.
    (Row, ((4, 0, 4, 1, Both, None), None)),
    (Row, (LAST, Some((0, 0, 1, 4)))),
    (Row, ((4, 0, 4, 2, Both, Some(2)), Some((2, 0, 1, 4)))),
    (Row, ((4, 0, 4, 2, Both, Some(1)), None)),
    // The own hop is the one with the smaller pages.
    (Row, (INNER, Some((0, 1, 2, 1)))),
    (Row, ((4, 0, 1, 1, Read, Some(3)), Some((3, 1, 2, 1)))),
    (Row, ((4, 0, 2, 2, Write, None), Some((0, 1, 2, 2)))),
    // The one slot of the other agent is taken.
    (Row, ((5, 0, 3, 1, Both, None), None)),
    (Chain, ((6, 0, 0, 1, Both, None), None)),
    // Another agent goes through two of the three units.
    (Chain, ((5, 0, 1, 1, Both, None), Some((0, 1, 2, 1)))),
    (Chain, (DEEP, Some((0, 2, 3, 3)))),
    (Chain, ((4, 0, 3, 1, Write, Some(3)), Some((3, 2, 3, 3)))),
    (Chain, ((4, 0, 0, 2, Both, None), Some((0, 2, 3, 0)))),
    (Chain, ((4, 0, 0, 3, Both, None), None)),
];

/// Parts of buffers in the first placements of the whole.
const PARTS: [(Site, PartCase); 22] = [
    // A record shows its whole page.
    (Pages, (PAGE, 0, 0x1000, Write, Some(true))),
    (Pages, (PAGE, 0, 0x800, Write, Some(false))),
    (Pages, (PAGE, 0, 1, Read, Some(false))),
    (Pages, (TWO, 0, 0x1000, Read, Some(true))),
    (Pages, (TWO, 0, 0x1800, Read, Some(false))),
    // Each record shows two addresses.
    (Ports, (FOUR, 0, 1, Read, Some(false))),
    (Ports, (FOUR, 0, 2, Write, Some(true))),
    (Ports, (FOUR, 0, 3, Both, Some(false))),
    (Ports, (FOUR, 0, 4, Read, Some(true))),
    // The outer unit shows two addresses, and both units together one.
    (Row, (LAST, 0, 2, Read, Some(true))),
    (Row, (LAST, 0, 1, Read, Some(false))),
    (Row, (INNER, 0, 1, Write, Some(true))),
    (Row, (INNER, 1, 1, Both, Some(true))),
    (Row, (PAIR, 0, 1, Read, Some(true))),
    (Row, (PAIR, 1, 2, Read, Some(true))),
    // There is no third hop.
    (Row, (INNER, 2, 1, Read, None)),
    // The slot of the outer unit is used by a live grant, so it may be shared, but not owned.
    (Shared, (BESIDE, 1, 1, Read, Some(true))),
    (Shared, (BESIDE, 0, 1, Read, None)),
    // Each of the hops may be the own one.
    (Chain, (DEEP, 0, 1, Read, Some(true))),
    (Chain, (DEEP, 1, 1, Write, Some(true))),
    (Chain, (DEEP, 2, 1, Both, Some(true))),
    (Chain, ((4, 0, 0, 2, Both, None), 2, 1, Write, Some(true))),
];
