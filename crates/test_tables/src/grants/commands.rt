//! Commands on books, chosen as if at random.

ghost use Rattle.test_tables.specs.Terms.{IsDesk};

use crate::at_desk::{grant_on, revoke_on, route_on};
use crate::desk::Desk;
use crate::grants::boards::{chain_plan, row_plan, vector_plan};
use dn_book::book::RevokeFault;
use dn_grant::fault::GrantFault;
use dn_kind::rights::Rights;
use dn_net::node::Name;
use dn_placement::request::Request;
use std::alloc::Global;
use std::fmt::Display;
use std::process::Abort;
use test_plans::Plan;

/// A command on a book.
#[derive(Clone, Copy)]
pub enum Command {
    /// Grants a request under an id.
    Grant(u32, Request),
    /// Routes under an id a line of an agent to a node.
    Route(u32, Name, u16),
    /// Revokes the grant of an id.
    Revoke(u32),
}

/// What comes of a command.
#[derive(Clone, Copy, PartialEq, Eq)]
pub enum Outcome {
    /// It is done, and the book has changed.
    Done,
    /// It is refused, and nothing has changed.
    Refused,
    /// The device failed.
    Failed,
}

/// Makes a command on a book. `None` where the book is not sound.
pub fn made(alloc: Global, desk: &mut Desk<'_>, command: Command) -> Option<Outcome>
    requires { IsDesk meaning desk.old }
    ensures { IsDesk meaning desk.new }
{
    match command {
        Command::Grant(id, request) => {
            let given = grant_on(desk, alloc, id, &request)?;
            Some(granted(given))
        }
        Command::Route(id, line, node) => {
            let given = route_on(desk, alloc, id, line, node)?;
            Some(granted(given))
        }
        Command::Revoke(id) => {
            let given = revoke_on(desk, id)?;
            Some(revoked(given))
        }
    }
}

/// What came of a grant or a route.
fn granted<R: Copy + Display>(given: Result<u64, GrantFault<R>>) -> Outcome {
    match given {
        Ok(_given) => Outcome::Done,
        Err(GrantFault::Device) => Outcome::Failed,
        Err(_) => Outcome::Refused,
    }
}

/// What came of a revoke.
fn revoked(given: Result<(), RevokeFault>) -> Outcome {
    match given {
        Ok(()) => Outcome::Done,
        Err(RevokeFault::Device) => Outcome::Failed,
        Err(RevokeFault::NoGrant) => Outcome::Refused,
    }
}

/// Numbers that look random, and are the same in each run.
#[derive(Drop)]
pub struct Dice {
    state: u64,
}

/// The small nets, over which commands are chosen.
#[derive(Clone, Copy, PartialEq, Eq)]
pub enum Small {
    Row,
    Chain,
    Vectors,
}

impl Small {
    /// The plan of the net.
    pub fn plan(self, rt: &impl Abort, alloc: Global) -> Plan {
        match self {
            Small::Row => row_plan(rt, alloc),
            Small::Chain => chain_plan(rt, alloc),
            Small::Vectors => vector_plan(rt, alloc),
        }
    }

    /// From what the commands are chosen.
    pub fn choice(self) -> Choice {
        let (seed, agents, nodes, most, step) = match self {
            Small::Row => (3, [4, 4, 4, 5], [0, 0], 6, 1),
            Small::Chain => (3, [4, 4, 5, 6], [0, 0], 4, 1),
            Small::Vectors => (1, [5, 5, 6, 6], [0, 1], 3, 1),
        };
        Choice {
            seed,
            agents,
            nodes,
            most,
            step,
            is_routed: self == Small::Vectors,
        }
    }
}

/// From what the commands for a net are chosen.
#[derive(Clone, Copy)]
pub struct Choice {
    /// The number with which the dice begin.
    pub seed: u64,
    /// The agents, of which one may stand more than once.
    pub agents: [u16; 4],
    /// The nodes of buffers and of vectors.
    pub nodes: [u16; 2],
    /// How many addresses agents have.
    pub most: u64,
    /// Buffers begin at multiples of it, and have one or two times so many addresses.
    pub step: u64,
    /// Whether lines are routed, or buffers granted.
    pub is_routed: bool,
}

impl Dice {
    /// Numbers that begin with this one.
    pub fn new(state: u64) -> Dice {
        Dice { state }
    }

    /// The next number, below one.
    fn roll(&mut self, sides: u64) -> u64 {
        let next = self.state.wrapping_mul(6364136223846793005);
        self.state = next.wrapping_add(1442695040888963407);
        (self.state >> 33) % sides.max(1)
    }

    /// The next command of a choice: of three one revokes.
    pub fn command(&mut self, choice: Choice) -> Command {
        let id = u32::from(self.one_of(&[0, 1, 2, 3, 4, 5]));
        if self.roll(3) == 0 {
            return Command::Revoke(id);
        }
        let agent = self.one_of(&choice.agents);
        let node = self.one_of(&choice.nodes);
        if choice.is_routed {
            let line = Name {
                node: agent,
                addr: self.roll(choice.most),
            };
            return Command::Route(id, line, node);
        }
        let rights = self.rights();
        let request = Request {
            agent,
            node,
            base: self.roll(4).wrapping_mul(choice.step),
            size: self.roll(2).wrapping_add(1).wrapping_mul(choice.step),
            rights,
        };
        Command::Grant(id, request)
    }

    /// One of numbers, or 0 where there is none.
    fn one_of(&mut self, numbers: &[u16]) -> u16 {
        let place = self.roll(numbers.len() as u64);
        numbers.get(place as usize).copied().unwrap_or(0)
    }

    /// The next rights.
    fn rights(&mut self) -> Rights {
        match self.roll(3) {
            0 => Rights::READ,
            1 => Rights::WRITE,
            _ => Rights::both(),
        }
    }
}
