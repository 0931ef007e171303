//! What the actions of a packet that resumes order.
ghost use Rattle.std.specs.Prelude.{◌≡◌};
ghost use Rattle.gdb_orders.specs.Orders as orders;

use crate::order::{Order, Stepper};
use crate::selection::{Selection, thread_of};
use gdb_packets::{Action, Motion, Scope, ThreadId};

/// What actions order: the first step of a thread that they name, or how all go on, or the one that goes on alone.
/// None if they name a thread that isn't listed, or nothing.
pub fn order_of(actions: &[Action], selection: &Selection, listed: u32) -> Option<Order>
    ensures { result ≡ orders.order_of actions.now selection.now.stopped listed }
{
    let mut default = None;
    let mut named = None;
    for place in 0..actions.len() {
        let action = actions[place];
        if !is_listed(action.scope, listed) {
            return None;
        }
        default = default.or(default_of(&action));
        named = named.or(named_of(&action, selection.stopped, listed));
    }
    ordered(named, default, selection.stopped)
}

/// Whether the thread that an action names is listed.
fn is_listed(scope: Scope, listed: u32) -> bool
    ensures { result ≡ orders.is_listed_in listed scope }
{
    match scope {
        Scope::Named(ThreadId::One(id)) => thread_of(id, listed).is_some(),
        Scope::Others | Scope::Named(ThreadId::All) | Scope::Named(ThreadId::Any) => true,
    }
}

/// The motion of all threads that no action names.
fn default_of(action: &Action) -> Option<Motion>
    ensures { result ≡ orders.default_of action.now }
{
    match action.scope {
        Scope::Others | Scope::Named(ThreadId::All) => Some(action.motion),
        Scope::Named(ThreadId::Any) | Scope::Named(ThreadId::One(_)) => None,
    }
}

/// The motion of a thread that an action names, and the thread.
fn named_of(action: &Action, stopped: u32, listed: u32) -> Option<(Motion, u32)>
    ensures { result ≡ orders.named_of stopped listed action.now }
{
    match action.scope {
        Scope::Others | Scope::Named(ThreadId::All) => None,
        Scope::Named(ThreadId::Any) => Some((action.motion, stopped)),
        Scope::Named(ThreadId::One(id)) => Some((action.motion, thread_of(id, listed)?)),
    }
}

/// What the first thread that is named and the others are to do.
fn ordered(named: Option<(Motion, u32)>, default: Option<Motion>, stopped: u32) -> Option<Order>
    ensures { result ≡ orders.ordered named default stopped }
{
    match (named, default) {
        (Some((motion, thread)), None) => Some(order_by(motion, thread, true)),
        (Some((Motion::Continue, _)), Some(default)) => Some(order_of_all(default, stopped)),
        (Some((motion, thread)), Some(_)) => Some(order_by(motion, thread, false)),
        (None, Some(default)) => Some(order_of_all(default, stopped)),
        (None, None) => None,
    }
}

/// What a motion of the thread that moves orders, or of all if none does.
pub fn order_selected(motion: Motion, selection: &Selection) -> Order
    ensures { result ≡ orders.order_selected motion selection.now.moving selection.now.stopped }
{
    match selection.moving {
        Some(thread) => order_by(motion, thread, true),
        None => order_of_all(motion, selection.stopped),
    }
}

/// What an action for all threads orders. A step is one of the thread of the last stop.
fn order_of_all(motion: Motion, stopped: u32) -> Order
    ensures { result ≡ orders.order_of_all motion stopped }
{
    match motion {
        Motion::Continue => Order::Continue { alone: None },
        Motion::Step | Motion::Range { .. } => order_by(motion, stopped, false),
    }
}

/// A motion of a thread, alone or among others.
fn order_by(motion: Motion, thread: u32, is_alone: bool) -> Order
    ensures { result ≡ orders.order_by motion thread is_alone }
{
    match motion {
        Motion::Continue => Order::Continue {
            alone: if is_alone { Some(thread) } else { None },
        },
        Motion::Step => Order::Step(Stepper {
            thread,
            start: 0,
            end: 0,
            is_alone,
        }),
        Motion::Range { start, end } => Order::Step(Stepper {
            thread,
            start: clipped(start),
            end: clipped(end),
            is_alone,
        }),
    }
}

/// An address, the last one if it is beyond all.
fn clipped(address: u64) -> u32
    ensures { result ≡ orders.clipped address }
{
    u32::try_from(address).unwrap_or(u32::MAX)
}
