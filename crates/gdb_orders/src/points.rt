//! The breakpoints and watchpoints of a session.
ghost use Rattle.std.specs.Prelude.{◌≡◌, ◌++◌, not, ◌==◌, is_some, IfOk, OnOk, Some, []};
ghost use Rattle.std.specs.List.{filter, list_any};
ghost use Rattle.gdb_orders.specs.Points as points;
ghost use Rattle.gdb_orders.specs.Points.{IsCleared, IsSet};

use gdb_packets::{PointKind, Window};
use std::alloc::{AllocError, Global};
use timeline::{Watch, WatchKind};

/// How many bytes there are addresses for.
const ADDRESSES: u64 = 0x1_0000_0000;

/// The breakpoints and watchpoints of a session.
#[derive(Drop)]
pub struct Points {
    /// The addresses of the breakpoints in memory.
    software: Vec<u32>,
    /// The addresses of the breakpoints in hardware.
    hardware: Vec<u32>,
    /// The addresses of all of them.
    addresses: Vec<u32>,
    /// The watched ranges.
    watches: Vec<Watch>,
}

impl Points {
    /// No points.
    pub fn new(alloc: Global) -> Self
        ensures software { result.software.items ≡ [] }
        ensures hardware { result.hardware.items ≡ [] }
        ensures addresses { result.addresses.items ≡ [] }
        ensures watches { result.watches.items ≡ [] }
    {
        Points {
            software: Vec::new(alloc),
            hardware: Vec::new(alloc),
            addresses: Vec::new(alloc),
            watches: Vec::new(alloc),
        }
    }

    /// The addresses of all breakpoints.
    pub fn addresses(&self) -> &[u32]
        ensures { result.now ≡ self.now.addresses.items }
    {
        self.addresses.as_slice()
    }

    /// The watched ranges.
    pub fn watches(&self) -> &[Watch]
        ensures { result.now ≡ self.now.watches.items }
    {
        self.watches.as_slice()
    }

    /// Whether a breakpoint in memory is at this address.
    pub fn has_software(&self, address: u32) -> bool
        ensures { result ≡ list_any (λ other. other == address) self.now.software.items }
    {
        self.software.as_slice().contains(&address)
    }

    /// Sets a point, also one that is set. False if it can't be.
    pub fn set(&mut self, kind: PointKind, window: Window) -> Result<bool, AllocError>
        ensures can { IfOk result (λ can. can ≡ points.can_be kind window) }
        ensures set { OnOk result (IsSet self.old self.new kind window) }
    {
        match kind {
            PointKind::Software => set_address(&mut self.software, window.start)?,
            PointKind::Hardware => set_address(&mut self.hardware, window.start)?,
            PointKind::Write | PointKind::Read | PointKind::Access => {
                return self.set_watch(kind, window);
            }
        }
        self.gather()?;
        Ok(true)
    }

    /// Clears a point, also one that isn't set. False if it can't be set.
    pub fn clear(&mut self, kind: PointKind, window: Window) -> Result<bool, AllocError>
        ensures can { IfOk result (λ can. can ≡ points.can_be kind window) }
        ensures cleared { OnOk result (IsCleared self.old self.new kind window) }
    {
        match kind {
            PointKind::Software => clear_address(&mut self.software, window.start),
            PointKind::Hardware => clear_address(&mut self.hardware, window.start),
            PointKind::Write | PointKind::Read | PointKind::Access => {
                return Ok(self.clear_watch(kind, window));
            }
        }
        self.gather()?;
        Ok(true)
    }

    /// Sets a watchpoint.
    fn set_watch(&mut self, kind: PointKind, window: Window) -> Result<bool, AllocError>
        ensures can { IfOk result (λ can. can ≡ is_some (points.watch_of kind window)) }
        ensures watches { OnOk result (self.new.watches.items ≡ points.with_watch self.old.watches.items (points.watch_of kind window)) }
        ensures rest { self.new ≡ record self.old { watches = self.new.watches } }
    {
        let Some(watch) = watch_of(kind, window) else {
            return Ok(false);
        };
        if !self.watches.as_slice().contains(&watch) {
            self.watches.push(watch)?;
        }
        Ok(true)
    }

    /// Clears a watchpoint.
    fn clear_watch(&mut self, kind: PointKind, window: Window) -> bool
        ensures can { result ≡ is_some (points.watch_of kind window) }
        ensures watches { self.new.watches.items ≡ points.without_watch self.old.watches.items (points.watch_of kind window) }
        ensures rest { self.new ≡ record self.old { watches = self.new.watches } }
    {
        let Some(watch) = watch_of(kind, window) else {
            return false;
        };
        drop_watch(&mut self.watches, watch);
        true
    }

    /// Gathers the addresses of all breakpoints.
    fn gather(&mut self) -> Result<(), AllocError>
        ensures addresses { OnOk result (self.new.addresses.items ≡ self.old.software.items ++ self.old.hardware.items) }
        ensures rest { self.new ≡ record self.old { addresses = self.new.addresses } }
    {
        self.addresses.clear();
        self.addresses.extend_from_slice(self.software.as_slice())?;
        self.addresses.extend_from_slice(self.hardware.as_slice())
    }
}

/// Adds an address, unless it is there or no instruction can have it.
fn set_address(addresses: &mut Vec<u32>, address: u64) -> Result<(), AllocError>
    ensures { OnOk result (addresses.new.items ≡ points.with_address addresses.old.items address) }
{
    if let Ok(address) = u32::try_from(address)
        && !addresses.as_slice().contains(&address)
    {
        addresses.push(address)?;
    }
    Ok(())
}

/// Takes an address away.
fn clear_address(addresses: &mut Vec<u32>, address: u64)
    ensures { addresses.new.items ≡ points.without_address addresses.old.items address }
{
    addresses.retain(|other| u64::from(*other) != address);
}

/// Takes a watch away.
fn drop_watch(watches: &mut Vec<Watch>, watch: Watch)
    ensures { watches.new.items ≡ points.without_watch watches.old.items (Some watch) }
{
    watches.retain(|other| *other != watch);
}

/// The watch of a range, none if it is empty or goes past all addresses.
fn watch_of(kind: PointKind, window: Window) -> Option<Watch>
    ensures { result ≡ points.watch_of kind window }
{
    let kind = match kind {
        PointKind::Write => WatchKind::Store,
        PointKind::Read => WatchKind::Load,
        PointKind::Access => WatchKind::Access,
        PointKind::Software | PointKind::Hardware => return None,
    };
    let start = u32::try_from(window.start).ok()?;
    if window.length == 0 || window.length > ADDRESSES - window.start {
        return None;
    }
    Some(Watch {
        start,
        len: u32::try_from(window.length).unwrap_or(u32::MAX),
        kind,
    })
}
