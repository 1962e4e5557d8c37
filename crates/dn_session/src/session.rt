//! A net that is open: what its nodes reach, its live grants with their tables, and what is to be
//! done.

ghost use Rattle.std.specs.Prelude.{◌≡◌, ◌<◌, ◌≤◌, [], false, true, None, Ok, Err, IfOk, OnOk};
ghost use Rattle.std.specs.Prelude.{OnErr, IsTrue, length, map, slice_get};
ghost use Rattle.dn_base.specs.Terms.{Answers};
ghost use Rattle.dn_net.specs.Terms.{is_agent_at};
ghost use Rattle.dn_kind.specs.Terms.{AreKinds, IsLegalWith, allowing, are_rights, kinds_of};
ghost use Rattle.dn_kind.specs.Terms.{resolved_names_under};
ghost use Rattle.dn_walk.specs.Terms.{AreWalksOf};
ghost use Rattle.dn_tables.specs.Terms.{FitsNet, fresh_set, make_event, record_kept, tables_of_set};
ghost use Rattle.dn_interval.specs.Terms.{AreNormal};
ghost use Rattle.dn_view.specs.Terms.{AreViewed, IsSystem};
ghost use Rattle.dn_book.specs.Book.{records_of};
ghost use Rattle.dn_book.specs.Terms.{has_id, owed_names};
ghost use Rattle.dn_grant.specs.Terms.{grant_refusal};
ghost use Rattle.dn_grant.specs.declared.refusal.GrantRefusal.{GrantRefusal as Why};
ghost use Rattle.dn_gather.specs.Gather.{IsGatherRefused};
ghost use Rattle.dn_gather.specs.Terms.{gather_refusal};
ghost use Rattle.dn_gather.specs.declared.refusal.GatherRefusal.{GatherRefusal as GatherWhy};
ghost use Rattle.dn_vector.specs.Terms.{IsRouteRefused, route_refusal};
ghost use Rattle.dn_vector.specs.declared.refusal.RouteRefusal.{RouteRefusal as RouteWhy};
ghost use Rattle.dn_lookup.specs.Terms.{lookup_fault_view, lookup_of};
ghost use Rattle.dn_audit.specs.Terms.{IsAudited, audit_fault_view, audit_reading, is_within_nodes};
ghost use Rattle.dn_audit.specs.Terms.{report_told};
ghost use Rattle.dn_session.specs.Terms.{IsGathered, IsSessionGranted, IsRefused, IsSessionRevoked, IsRouted};
ghost use Rattle.dn_session.specs.Terms.{IsSession, IsSessionImage, OwesFrom, shipped_kinds};
ghost use Rattle.dn_queue.specs.declared.change.ChangeFault.TheVariants.{OutOfMemory as no_memory};
ghost use Rattle.dn_queue.specs.declared.change.ChangeFault.TheVariants.{Refused};
ghost use Rattle.dn_queue.specs.declared.change.NoGrant.{NoGrant as NoGrantPart};

use crate::gather::gather_kept;
use crate::shipped_kinds;
use dn_audit::audit::audit;
use dn_audit::fault::AuditFault;
use dn_audit::report::AuditReport;
use dn_base::OutOfMemory;
use dn_base::device::TableEvent;
use dn_book::book::Book;
use dn_book::grant::Grant;
use dn_flat::flats::{Flats, flatten_all};
use dn_gather::piece::Piece;
use dn_gather::refusal::{GatherRefusal, refusal as gather_refusal};
use dn_grant::refusal::{GrantRefusal, refusal};
use dn_image::write::write;
use dn_interval::Rows;
use dn_kind::kinded::KindedNet;
use dn_kind::kinds::Kinds;
use dn_kind::rights::{Access, Rights};
use dn_lookup::lookup::{LookupFault, lookup};
use dn_net::checked::CheckedNet;
use dn_net::names::Names;
use dn_net::net::Net;
use dn_net::node::Name;
use dn_place::booked::first_in_book;
use dn_placement::request::Request;
use dn_queue::change;
use dn_queue::change::{ChangeFault, NoGrant};
use dn_queue::queue::Queue;
use dn_tables::set::TableSet;
use dn_vector::refusal::{RouteRefusal, refusal as route_refusal};
use dn_vector::search::{Asked, least_vector};
use dn_view::resolve::{resolve, resolve_few};
use dn_view::system::System;
use dn_view::view::view;
use dn_walk::walks::WalkTable;
use std::alloc::Global;
use std::marker::Model;

/// A net that is open. It owns all that its calls need, and borrows nothing.
///
/// Each call that changes it either changes it whole, and then what is to be done to the hardware
/// is pending, or it has changed nothing.
#[derive(Drop)]
pub struct Session {
    net: Net,
    flats: Flats,
    book: Book,
    queue: Queue,
}

impl Model for Session {
    ghost use Rattle.dn_session.specs.Open.{IsOpen, SessionState};

    ghost Value = { SessionState };

    ghost view = { λ s. record { net = s.net; book = s.book; pending = s.queue.events } };

    ghost invariant = { λ s. IsOpen s.net s.flats s.book s.queue.units };
}

impl Session {
    /// Opens a net with the shipped kinds: no grant lives, and that its units are made is pending.
    ///
    /// # Errors
    ///
    /// `OutOfMemory` for want of memory.
    pub fn make(
        alloc: Global,
        kinds: &Kinds,
        net: Net,
        walks: &WalkTable,
    ) -> Result<Session, OutOfMemory>
        requires kinds { AreKinds meaning kinds.now }
        requires shipped { kinds_of meaning kinds.now ≡ shipped_kinds }
        requires legal { IsLegalWith shipped_kinds net }
        requires walked { AreWalksOf net walks.now }
        ensures net { IfOk result (λ s. s.net ≡ net) }
        ensures none { IfOk result (λ s. s.book.grants ≡ []) }
        ensures cleared { IfOk result (λ s. s.book.cleared ≡ false) }
        ensures pending { IfOk result (λ s. s.pending
            ≡ map make_event (tables_of_set (fresh_set shipped_kinds net))) }
    {
        let flats = flatten_all(alloc, &net, walks)?;
        let mut queue = Queue::none(alloc);
        let on = KindedNet { net: &net, kinds };
        let Ok(book) = Book::make(alloc, on, &mut queue) else {
            return Err(OutOfMemory);
        };
        Ok(Session {
            net,
            flats,
            book,
            queue,
        })
    }

    /// What every session is, whatever calls were made of it, for a proof of its caller. It does
    /// nothing.
    pub fn facts(&self)
        ensures { IsSession self.now }
    {
        let _net = &self.net;
    }

    /// The net.
    pub fn net(&self) -> &Net
        ensures { result.now ≡ self.now.net }
    {
        &self.net
    }

    /// What is to be done to the hardware, in order.
    pub fn pending(&self) -> &[TableEvent]
        ensures { result.now ≡ self.now.pending }
    {
        self.queue.events()
    }

    /// All that was pending was done. It takes no memory.
    pub fn settle(&mut self)
        ensures { self.new ≡ record self.old { pending = [] } }
    {
        self.queue.clear();
    }

    /// Grants a request under an id at the first admissible placement, of those at an address of
    /// the agent where one is asked for, and answers the first address of the buffer in its agent.
    /// What is to be done for it is pending then.
    ///
    /// # Errors
    ///
    /// `Refused` with the first refusal that holds, and `OutOfMemory` for want of memory, where no
    /// refusal holds that needs no search: nothing has changed.
    pub fn grant(
        &mut self,
        alloc: Global,
        id: u32,
        request: &Request,
        at: Option<u64>,
    ) -> Result<u64, ChangeFault<GrantRefusal>>
        requires rights { IsTrue (are_rights request.now.rights) }
        ensures granted { IfOk result (λ v. IsSessionGranted self.old id request.now at v self.new) }
        ensures refused { (why : Why) → result ≡ Err (Refused why)
            → IsRefused self.old id request.now at why }
        ensures memory { result ≡ Err no_memory
            → grant_refusal self.old.net self.old.book.grants id request.now ≡ None }
        ensures unchanged { OnErr result (self.new ≡ self.old) }
    {
        if let Some(why) = refusal(&self.book, CheckedNet { net: &self.net }, id, request) {
            return Err(ChangeFault::Refused(why));
        }
        let kinds = shipped_kinds!(alloc, Err(ChangeFault::OutOfMemory));
        self.grant_with(alloc, &kinds, id, request, at)
    }

    /// Grants a buffer with the shipped kinds, where no refusal holds that needs no search.
    fn grant_with(
        &mut self,
        alloc: Global,
        kinds: &Kinds,
        id: u32,
        request: &Request,
        at: Option<u64>,
    ) -> Result<u64, ChangeFault<GrantRefusal>>
        requires kinds { AreKinds meaning kinds.now }
        requires shipped { kinds_of meaning kinds.now ≡ shipped_kinds }
        requires allowed { grant_refusal self.old.net self.old.book.grants id request.now ≡ None }
        requires rights { IsTrue (are_rights request.now.rights) }
        ensures granted { IfOk result (λ v. IsSessionGranted self.old id request.now at v self.new) }
        ensures refused { (why : Why) → result ≡ Err (Refused why)
            → IsRefused self.old id request.now at why }
        ensures unchanged { OnErr result (self.new ≡ self.old) }
    {
        let on = KindedNet {
            net: &self.net,
            kinds,
        };
        let system = System {
            on,
            flats: &self.flats,
        };
        let placement = match first_in_book(alloc, &self.book, system, request, at) {
            Ok(Some(placement)) => placement,
            Ok(None) => return Err(ChangeFault::Refused(GrantRefusal::NoPlacement)),
            Err(_) => return Err(ChangeFault::OutOfMemory),
        };
        let v = placement.v();
        let grant = Grant {
            id,
            request: *request,
            placement,
        };
        match change::commit(alloc, on, &mut self.book, &mut self.queue, grant) {
            Ok(()) => Ok(v),
            Err(_) => Err(ChangeFault::OutOfMemory),
        }
    }

    /// Grants one to eight pieces so that an agent sees them at consecutive addresses, at the first
    /// admissible scattered placement, and answers the first of these addresses. Each piece becomes
    /// a grant of its own. What is to be done for all of them is pending then.
    ///
    /// # Errors
    ///
    /// `Refused` with the first refusal that holds, and `OutOfMemory` for want of memory, where no
    /// refusal holds that needs no search: nothing has changed.
    pub fn gather(
        &mut self,
        alloc: Global,
        agent: u16,
        pieces: &[Piece],
        rights: Rights,
    ) -> Result<u64, ChangeFault<GatherRefusal>>
        requires rights { IsTrue (are_rights rights) }
        requires some { 1 ≤ length pieces.now }
        requires few { length pieces.now ≤ 8 }
        ensures gathered { IfOk result (λ v.
            IsGathered self.old agent rights pieces.now v self.new) }
        ensures refused { (why : GatherWhy) → result ≡ Err (Refused why)
            → IsGatherRefused self.old.net self.old.book.grants agent rights pieces.now why }
        ensures memory { result ≡ Err no_memory
            → gather_refusal self.old.net self.old.book.grants agent pieces.now ≡ None }
        ensures unchanged { OnErr result (self.new ≡ self.old) }
    {
        let checked = CheckedNet { net: &self.net };
        if let Some(why) = gather_refusal(&self.book, checked, agent, pieces) {
            return Err(ChangeFault::Refused(why));
        }
        let kinds = shipped_kinds!(alloc, Err(ChangeFault::OutOfMemory));
        self.gather_with(alloc, &kinds, agent, pieces, rights)
    }

    /// Makes the change with the shipped kinds.
    fn gather_with(
        &mut self,
        alloc: Global,
        kinds: &Kinds,
        agent: u16,
        pieces: &[Piece],
        rights: Rights,
    ) -> Result<u64, ChangeFault<GatherRefusal>>
        requires kinds { AreKinds meaning kinds.now }
        requires shipped { kinds_of meaning kinds.now ≡ shipped_kinds }
        requires rights { IsTrue (are_rights rights) }
        requires some { 1 ≤ length pieces.now }
        requires few { length pieces.now ≤ 8 }
        ensures gathered { IfOk result (λ v.
            IsGathered self.old agent rights pieces.now v self.new) }
        ensures refused { (why : GatherWhy) → result ≡ Err (Refused why)
            → IsGatherRefused self.old.net self.old.book.grants agent rights pieces.now why }
        ensures unchanged { OnErr result (self.new ≡ self.old) }
    {
        let system = System {
            on: KindedNet {
                net: &self.net,
                kinds,
            },
            flats: &self.flats,
        };
        gather_kept(
            alloc,
            &mut self.book,
            &mut self.queue,
            system,
            agent,
            pieces,
            rights,
        )
    }

    /// Routes a line of an agent to the least vector of a node that no live grant has and that has
    /// an admissible placement at the line, under an id, and answers the vector. What is to be done
    /// for it is pending then.
    ///
    /// # Errors
    ///
    /// `Refused` with the first refusal that holds, and `OutOfMemory` for want of memory, where no
    /// refusal holds that needs no search: nothing has changed.
    pub fn route(
        &mut self,
        alloc: Global,
        id: u32,
        agent: u16,
        line: u64,
        node: u16,
    ) -> Result<u64, ChangeFault<RouteRefusal>>
        ensures routed { IfOk result (λ vector.
            IsRouted self.old id agent line node vector self.new) }
        ensures refused { (why : RouteWhy) → result ≡ Err (Refused why)
            → IsRouteRefused self.old.net self.old.book.grants id agent line node why }
        ensures memory { result ≡ Err no_memory
            → route_refusal self.old.net self.old.book.grants id agent node ≡ None }
        ensures unchanged { OnErr result (self.new ≡ self.old) }
    {
        if let Some(why) = route_refusal(&self.book, &self.net, id, agent, node) {
            return Err(ChangeFault::Refused(why));
        }
        let kinds = shipped_kinds!(alloc, Err(ChangeFault::OutOfMemory));
        self.route_with(alloc, &kinds, id, agent, line, node)
    }

    /// Grants a buffer with the shipped kinds, where no refusal holds that needs no search.
    fn route_with(
        &mut self,
        alloc: Global,
        kinds: &Kinds,
        id: u32,
        agent: u16,
        line: u64,
        node: u16,
    ) -> Result<u64, ChangeFault<RouteRefusal>>
        requires kinds { AreKinds meaning kinds.now }
        requires shipped { kinds_of meaning kinds.now ≡ shipped_kinds }
        requires allowed { route_refusal self.old.net self.old.book.grants id agent node ≡ None }
        ensures routed { IfOk result (λ vector.
            IsRouted self.old id agent line node vector self.new) }
        ensures refused { (why : RouteWhy) → result ≡ Err (Refused why)
            → IsRouteRefused self.old.net self.old.book.grants id agent line node why }
        ensures unchanged { OnErr result (self.new ≡ self.old) }
    {
        let on = KindedNet {
            net: &self.net,
            kinds,
        };
        let asked = Asked {
            book: &self.book,
            system: System {
                on,
                flats: &self.flats,
            },
            agent,
            line,
            node,
        };
        let found = match least_vector(alloc, asked) {
            Ok(Some(found)) => found,
            Ok(None) => return Err(ChangeFault::Refused(RouteRefusal::NoPlacement)),
            Err(_) => return Err(ChangeFault::OutOfMemory),
        };
        let vector = found.vector;
        let grant = found.grant(id, agent, node);
        match change::commit(alloc, on, &mut self.book, &mut self.queue, grant) {
            Ok(()) => Ok(vector),
            Err(_) => Err(ChangeFault::OutOfMemory),
        }
    }

    /// The names to which a name resolves for an access under the live grants, ascending. Of a name
    /// of an agent they are those that the net gives it and those that live grants give it, and no
    /// others.
    ///
    /// # Errors
    ///
    /// `OutOfMemory` for want of memory.
    pub fn resolve(&self, alloc: Global, name: Name, access: Access) -> Result<Names, OutOfMemory>
        requires there { name.node < length self.now.net }
        ensures names { IfOk result (λ names. names ≡ resolved_names_under self.now.net
            (allowing access (records_of self.now.net self.now.book.grants)) name) }
        ensures owed { IsTrue (is_agent_at (slice_get self.now.net name.node)) → IfOk result
            (λ names. names ≡ owed_names self.now.net self.now.book.grants access name) }
    {
        let kinds = shipped_kinds!(alloc, Err(OutOfMemory));
        self.resolve_with(alloc, &kinds, name, access)
    }

    /// Makes the change with the shipped kinds.
    fn resolve_with(
        &self,
        alloc: Global,
        kinds: &Kinds,
        name: Name,
        access: Access,
    ) -> Result<Names, OutOfMemory>
        requires kinds { AreKinds meaning kinds.now }
        requires shipped { kinds_of meaning kinds.now ≡ shipped_kinds }
        requires there { name.node < length self.now.net }
        ensures names { IfOk result (λ names. names ≡ resolved_names_under self.now.net
            (allowing access (records_of self.now.net self.now.book.grants)) name) }
        ensures owed { IsTrue (is_agent_at (slice_get self.now.net name.node)) → IfOk result
            (λ names. names ≡ owed_names self.now.net self.now.book.grants access name) }
    {
        let system = System {
            on: KindedNet {
                net: &self.net,
                kinds,
            },
            flats: &self.flats,
        };
        resolve_under(alloc, system, self.book.tables(), name, access)
    }

    /// What the addresses of a node resolve to for an access under the live grants, as the fewest
    /// rows. Of an agent the rows give exactly what the net gives it and what live grants give it.
    ///
    /// # Errors
    ///
    /// `OutOfMemory` for want of memory.
    pub fn view(&self, alloc: Global, node: u16, access: Access) -> Result<Rows, OutOfMemory>
        requires there { node < length self.now.net }
        ensures rows { IfOk result (λ rows. AreViewed self.now.net
            (allowing access (records_of self.now.net self.now.book.grants)) node rows) }
        ensures owed { IsTrue (is_agent_at (slice_get self.now.net node)) → IfOk result
            (λ rows. AreNormal (OwesFrom self.now.net self.now.book.grants access node) rows) }
    {
        let kinds = shipped_kinds!(alloc, Err(OutOfMemory));
        self.view_with(alloc, &kinds, node, access)
    }

    /// Makes the change with the shipped kinds.
    fn view_with(
        &self,
        alloc: Global,
        kinds: &Kinds,
        node: u16,
        access: Access,
    ) -> Result<Rows, OutOfMemory>
        requires kinds { AreKinds meaning kinds.now }
        requires shipped { kinds_of meaning kinds.now ≡ shipped_kinds }
        requires there { node < length self.now.net }
        ensures rows { IfOk result (λ rows. AreViewed self.now.net
            (allowing access (records_of self.now.net self.now.book.grants)) node rows) }
        ensures owed { IsTrue (is_agent_at (slice_get self.now.net node)) → IfOk result
            (λ rows. AreNormal (OwesFrom self.now.net self.now.book.grants access node) rows) }
    {
        let system = System {
            on: KindedNet {
                net: &self.net,
                kinds,
            },
            flats: &self.flats,
        };
        view(alloc, system, self.book.tables(), node, access)
    }

    /// The image of the present tables, in version 2: bytes that are read as these tables, and in
    /// which a lookup of each address of an agent finds what the net and the live grants give it.
    ///
    /// # Errors
    ///
    /// `OutOfMemory` for want of memory, of which it takes once what the image needs.
    pub fn image(&self, alloc: Global) -> Result<Vec<u8>, OutOfMemory>
        ensures { IfOk result (λ bytes. IsSessionImage self.now bytes.items) }
    {
        let kinds = shipped_kinds!(alloc, Err(OutOfMemory));
        self.image_with(alloc, &kinds)
    }

    /// Makes the change with the shipped kinds.
    fn image_with(&self, alloc: Global, kinds: &Kinds) -> Result<Vec<u8>, OutOfMemory>
        requires kinds { AreKinds meaning kinds.now }
        requires shipped { kinds_of meaning kinds.now ≡ shipped_kinds }
        ensures { IfOk result (λ bytes. IsSessionImage self.now bytes.items) }
    {
        let on = KindedNet {
            net: &self.net,
            kinds,
        };
        write(alloc, on, self.book.tables())
    }

    /// The names to which a name of an agent comes for an access under the records of an image of
    /// the net, whoever made it, in place of the live grants. It reads the header, the heads and
    /// the slots on the way alone.
    ///
    /// # Errors
    ///
    /// `NoAgent` where the node is none or no agent; else `Image` where the bytes are no image of
    /// the net, with the first field that is wrong; `OutOfMemory` for want of memory.
    pub fn lookup(
        &self,
        alloc: Global,
        image: &[u8],
        name: Name,
        access: Access,
    ) -> Result<Names, LookupFault>
        ensures { Answers (λ names. names) lookup_fault_view result
            (lookup_of self.now.net shipped_kinds image.now access name) }
    {
        let kinds = shipped_kinds!(alloc, Err(LookupFault::OutOfMemory));
        self.lookup_with(alloc, &kinds, image, name, access)
    }

    /// Makes the change with the shipped kinds.
    fn lookup_with(
        &self,
        alloc: Global,
        kinds: &Kinds,
        image: &[u8],
        name: Name,
        access: Access,
    ) -> Result<Names, LookupFault>
        requires kinds { AreKinds meaning kinds.now }
        requires shipped { kinds_of meaning kinds.now ≡ shipped_kinds }
        ensures { Answers (λ names. names) lookup_fault_view result
            (lookup_of self.now.net shipped_kinds image.now access name) }
    {
        let on = KindedNet {
            net: &self.net,
            kinds,
        };
        lookup(alloc, on, image, access, name)
    }

    /// What each agent would see under an image of the net, whoever made it, the slots with
    /// shut-out records, and the names that two or more agents see.
    ///
    /// # Errors
    ///
    /// `Image` where the bytes are no image of the net, with the first field that is wrong;
    /// `OutOfMemory` for want of memory.
    pub fn audit(&self, alloc: Global, image: &[u8]) -> Result<AuditReport, AuditFault>
        ensures audited { IfOk result (λ r.
            IsAudited self.now.net shipped_kinds image.now (Ok r)) }
        ensures told { Answers report_told audit_fault_view result
            (audit_reading self.now.net shipped_kinds image.now) }
        ensures within { IfOk result (λ r. IsTrue (is_within_nodes (length self.now.net) r)) }
    {
        let kinds = shipped_kinds!(alloc, Err(AuditFault::OutOfMemory));
        self.audit_with(alloc, &kinds, image)
    }

    /// Makes the change with the shipped kinds.
    fn audit_with(
        &self,
        alloc: Global,
        kinds: &Kinds,
        image: &[u8],
    ) -> Result<AuditReport, AuditFault>
        requires kinds { AreKinds meaning kinds.now }
        requires shipped { kinds_of meaning kinds.now ≡ shipped_kinds }
        ensures audited { IfOk result (λ r.
            IsAudited self.now.net shipped_kinds image.now (Ok r)) }
        ensures told { Answers report_told audit_fault_view result
            (audit_reading self.now.net shipped_kinds image.now) }
        ensures within { IfOk result (λ r. IsTrue (is_within_nodes (length self.now.net) r)) }
    {
        let system = System {
            on: KindedNet {
                net: &self.net,
                kinds,
            },
            flats: &self.flats,
        };
        audit(alloc, system, image)
    }

    /// Takes the grant of an id out. What is to be done for it is pending then.
    ///
    /// # Errors
    ///
    /// `NoGrant` exactly where no live grant has the id, and `OutOfMemory` for want of memory:
    /// nothing has changed.
    pub fn revoke(&mut self, alloc: Global, id: u32) -> Result<(), ChangeFault<NoGrant>>
        ensures revoked { OnOk result (IsSessionRevoked self.old id self.new) }
        ensures none { (why : NoGrantPart) → result ≡ Err (Refused why)
            → has_id id self.old.book.grants ≡ false }
        ensures memory { result ≡ Err no_memory → has_id id self.old.book.grants ≡ true }
        ensures unchanged { OnErr result (self.new ≡ self.old) }
    {
        if !self.book.has_id(id) {
            return Err(ChangeFault::Refused(NoGrant));
        }
        let kinds = shipped_kinds!(alloc, Err(ChangeFault::OutOfMemory));
        self.revoke_with(&kinds, id)
    }

    /// Makes the change with the shipped kinds.
    fn revoke_with(&mut self, kinds: &Kinds, id: u32) -> Result<(), ChangeFault<NoGrant>>
        requires kinds { AreKinds meaning kinds.now }
        requires shipped { kinds_of meaning kinds.now ≡ shipped_kinds }
        requires live { has_id id self.old.book.grants ≡ true }
        ensures revoked { OnOk result (IsSessionRevoked self.old id self.new) }
        ensures none { (why : NoGrantPart) → result ≡ Err (Refused why)
            → has_id id self.old.book.grants ≡ false }
        ensures unchanged { OnErr result (self.new ≡ self.old) }
    {
        let on = KindedNet {
            net: &self.net,
            kinds,
        };
        change::revoke(on, &mut self.book, &mut self.queue, id)
    }
}

/// The names to which a name resolves for an access under tables, one by one where they are few.
fn resolve_under(
    alloc: Global,
    system: System,
    tables: &TableSet,
    name: Name,
    access: Access,
) -> Result<Names, OutOfMemory>
    requires system { IsSystem meaning system }
    requires fits { FitsNet system.on.net.now (kinds_of meaning system.on.kinds.now) tables.now }
    requires there { name.node < length system.on.net.now }
    ensures names { IfOk result (λ names. names ≡ resolved_names_under system.entry.on.net.now
        (allowing access
        (record_kept (kinds_of meaning system.entry.on.kinds.now) tables.now)) name) }
{
    match resolve_few(alloc, system.on, tables, name, access)? {
        Some(names) => Ok(names),
        None => resolve(alloc, system, tables, name, access),
    }
}
