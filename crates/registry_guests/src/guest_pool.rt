//! The guests of a server.

ghost use Rattle.std.specs.Prelude.{◌≡◌, IfOk, length, map, position, replicate};
ghost use Rattle.std.specs.List.{list_all, list_any};
ghost use Rattle.registry_server.specs.Pools.{at_place};
ghost use Rattle.registry_guests.specs.GuestPools as spec;
ghost use Rattle.registry_guests.specs.GuestPools.{VisitsAll, VisitsAt, new_at, slot_count};

use crate::guest::Guest;
use registry_server::{Socket, Visit};
use registry_service::{Clock, Service};
use std::alloc::{AllocError, Global};

/// At most this many guests are there at once. Others wait outside.
pub const GUEST_COUNT: usize = 8;

/// A slot for a guest, and whether that is to be visited.
#[derive(Drop)]
struct GuestSlot<S: Socket> {
    guest: Option<Guest<S>>,
    is_ready: bool,
}

impl<S: Socket> GuestSlot<S> {
    fn is_free(&self) -> bool
        ensures { result ≡ spec.is_free self.now }
    {
        self.guest.is_none()
    }

    fn is_due(&self) -> bool
        ensures { result ≡ spec.is_due self.now }
    {
        self.is_ready && self.guest.is_some()
    }

    // Visits the guest, if one is there and is to be visited, unless the service is over.
    fn visit<D: Service, C: Clock>(
        &mut self,
        alloc: Global,
        service: &mut D,
        clock: &mut C,
        buffer: &mut [u8],
    )
        ensures { VisitsAt S.received S.sent S.has_none S.is_full S.is_ended S.is_broken D.answers D.over
            (length buffer.old) self.old self.new service.old service.new
            (C.readings clock.old) (C.readings clock.new) }
    {
        if !self.is_ready || service.is_over() {
            return;
        }
        self.is_ready = false;
        let Some(guest) = &mut self.guest else {
            return;
        };
        match guest.visit(alloc, service, clock, buffer) {
            Visit::Again => self.is_ready = true,
            Visit::Rests => {}
            Visit::Over => self.guest = None,
        }
    }

    // Ends the guest if its time is up.
    fn end_late(&mut self, now: u64)
        ensures { self.new ≡ spec.kept_at now self.old }
    {
        let is_late = match &self.guest {
            Some(guest) => guest.is_late(now),
            None => false,
        };
        if is_late {
            self.guest = None;
        }
    }
}

/// Slots for guests, which are numbers below [`GUEST_COUNT`].
#[derive(Drop)]
pub struct GuestPool<S: Socket> {
    slots: Vec<GuestSlot<S>>,
}

impl<S: Socket> GuestPool<S> {
    /// A pool without guests.
    ///
    /// An error is returned where no memory is left.
    pub fn new(alloc: Global) -> Result<GuestPool<S>, AllocError>
        ensures { IfOk result (λ pool. pool.slots.items ≡ replicate slot_count spec.free) }
    {
        let mut slots = Vec::with_capacity(alloc, GUEST_COUNT)?;
        for _ in 0..GUEST_COUNT {
            slots.push(GuestSlot {
                guest: None,
                is_ready: false,
            })?;
        }
        Ok(GuestPool { slots })
    }

    /// Whether nobody is there.
    pub fn is_empty(&self) -> bool
        ensures { result ≡ list_all spec.is_free self.now.slots.items }
    {
        self.slots.iter().all(|slot| slot.is_free())
    }

    /// Whether a guest is to be visited.
    pub fn is_busy(&self) -> bool
        ensures { result ≡ list_any spec.is_due self.now.slots.items }
    {
        self.slots.iter().any(|slot| slot.is_due())
    }

    /// The first free slot. `None` where every slot is taken.
    pub fn place(&self) -> Option<usize>
        ensures { result ≡ position spec.is_free self.now.slots.items }
    {
        self.slots.iter().position(|slot| slot.is_free())
    }

    /// A new guest takes a slot, at this time in milliseconds, and is to be visited. A guest that
    /// was there ends.
    pub fn add(&mut self, alloc: Global, number: usize, socket: S, now: u64)
        ensures { self.new.slots.items
            ≡ at_place (λ _. new_at now socket) self.old.slots.items number }
    {
        if number < self.slots.len() {
            self.slots[number] = GuestSlot {
                guest: Some(Guest::new(alloc, socket, now)),
                is_ready: true,
            };
        }
    }

    /// The guest in a slot is to be visited.
    pub fn wake(&mut self, number: usize)
        ensures { self.new.slots.items ≡ at_place spec.woken self.old.slots.items number }
    {
        if number < self.slots.len() {
            self.slots[number].is_ready = true;
        }
    }

    /// Visits each guest that is to be visited, once, in the order of their slots, up to the visit in
    /// which the service is over.
    pub fn visit_all<D: Service, C: Clock>(
        &mut self,
        alloc: Global,
        service: &mut D,
        clock: &mut C,
        buffer: &mut [u8],
    )
        ensures { VisitsAll S.received S.sent S.has_none S.is_full S.is_ended S.is_broken D.answers D.over
            (length buffer.old) self.old.slots.items self.new.slots.items service.old service.new
            (C.readings clock.old) (C.readings clock.new) }
    {
        for slot in self.slots.iter_mut() {
            slot.visit(alloc, service, clock, buffer);
        }
    }

    /// Ends each guest whose time is up, and no other.
    pub fn end_late(&mut self, now: u64)
        ensures { self.new.slots.items ≡ map (spec.kept_at now) self.old.slots.items }
    {
        for slot in self.slots.iter_mut() {
            slot.end_late(now);
        }
    }
}
