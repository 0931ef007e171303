//! Reads the text of a packet.
ghost use Rattle.std.specs.Prelude.{◌≡◌, ℕ, List, ◌∷◌, ◌++◌, IfSome, codes};
ghost use Rattle.gdb_packets.specs.Numbers.{IsNumber};
ghost use Rattle.gdb_packets.specs.Requests.{Asks, IsCommand, IsRead, IsReadShort, IsWindow};

use crate::action::Motion;
use crate::numbers::{number, split_at_byte};
use crate::packet_request::{PacketRequest, PointKind};
use crate::thread_id::ThreadId;
use crate::window::Window;

/// What the packet of this text asks for.
pub fn parse(text: &[u8]) -> PacketRequest<'_>
    ensures asks { Asks text.now result }
    ensures read { IsRead text.now result }
{
    match text {
        [b'q', ..] => query_of(text),
        [b'v', ..] => verbose_of(text),
        [b'Z' | b'z', ..] => point_of(text).unwrap_or(PacketRequest::Malformed),
        [b'c' | b's' | b'C' | b'S', ..] => resumption_of(text).unwrap_or(PacketRequest::Malformed),
        [b'H' | b'T' | b'm' | b'p', ..] => state_of(text).unwrap_or(PacketRequest::Malformed),
        _ => short_of(text),
    }
}

/// What a packet without parts asks for, or one whose parts aren't looked at.
fn short_of(text: &[u8]) -> PacketRequest<'_>
    ensures asks { Asks text.now result }
    ensures read { IsReadShort text.now result }
{
    match text {
        b"?" => PacketRequest::WhyStopped,
        b"!" => PacketRequest::Extend,
        b"g" => PacketRequest::Registers,
        b"k" => PacketRequest::End,
        b"bs" => PacketRequest::StepBack,
        b"bc" => PacketRequest::ContinueBack,
        b"D" | [b'D', b';', ..] => PacketRequest::Detach,
        b"QStartNoAckMode" => PacketRequest::NoAcknowledgements,
        [b'G' | b'P', ..] => PacketRequest::ChangeRegisters,
        [b'M' | b'X', ..] => PacketRequest::ChangeMemory,
        _ => PacketRequest::Unknown,
    }
}

/// What a packet asks for of threads, registers and memory.
fn state_of(text: &[u8]) -> Option<PacketRequest<'_>>
    ensures asks { IfSome result (Asks text.now) }
    ensures register { (digits : List ℕ) (number : ℕ) → text.now ≡ 112 ∷ digits → IsNumber digits number
        → result ≡ Some (PacketRequest.Register number) }
    ensures memory { (part : List ℕ) (window : Window) → text.now ≡ 109 ∷ part → IsWindow part window
        → result ≡ Some (PacketRequest.Memory window) }
{
    match text {
        [b'H', b'g', thread @ ..] => Some(PacketRequest::SelectGeneral(ThreadId::of_text(thread)?)),
        [b'H', b'c', thread @ ..] => Some(PacketRequest::SelectMoving(ThreadId::of_text(thread)?)),
        [b'T', thread @ ..] => Some(PacketRequest::IsThread(ThreadId::of_text(thread)?)),
        [b'm', window @ ..] => Some(PacketRequest::Memory(Window::of_text(window)?)),
        [b'p', register @ ..] => Some(PacketRequest::Register(number(register)?)),
        _ => None,
    }
}

/// What a packet asks for that resumes the thread that moves. One that names an address is malformed.
fn resumption_of(text: &[u8]) -> Option<PacketRequest<'_>>
    ensures { IfSome result (Asks text.now) }
{
    match text {
        b"c" => Some(PacketRequest::ResumeSelected(Motion::Continue)),
        b"s" => Some(PacketRequest::ResumeSelected(Motion::Step)),
        [b'C', signal @ ..] => {
            number(signal)?;
            Some(PacketRequest::ResumeSelected(Motion::Continue))
        }
        [b'S', signal @ ..] => {
            number(signal)?;
            Some(PacketRequest::ResumeSelected(Motion::Step))
        }
        _ => None,
    }
}

/// What a packet asks for that sets or clears a point.
fn point_of(text: &[u8]) -> Option<PacketRequest<'_>>
    ensures { IfSome result (Asks text.now) }
{
    let [first, kind, b',', window @ ..] = text else {
        return None;
    };
    let kind = match *kind {
        b'0' => PointKind::Software,
        b'1' => PointKind::Hardware,
        b'2' => PointKind::Write,
        b'3' => PointKind::Read,
        b'4' => PointKind::Access,
        _ => return Some(PacketRequest::Unknown),
    };
    let window = Window::of_text(window)?;
    match *first {
        b'Z' => Some(PacketRequest::SetPoint(kind, window)),
        b'z' => Some(PacketRequest::ClearPoint(kind, window)),
        _ => None,
    }
}

/// What a packet asks for that begins with `q`.
fn query_of(text: &[u8]) -> PacketRequest<'_>
    ensures asks { Asks text.now result }
    ensures command { (digits : List ℕ) → text.now ≡ codes "qRcmd," ++ digits → IsCommand digits result }
{
    match text {
        b"qC" => PacketRequest::CurrentThread,
        b"qfThreadInfo" => PacketRequest::FirstThreads,
        b"qsThreadInfo" => PacketRequest::MoreThreads,
        b"qAttached" => PacketRequest::WasAttached,
        b"qSupported" => PacketRequest::Features(&[]),
        _ => {
            if let Some(command) = text.strip_prefix(b"qRcmd,") {
                return PacketRequest::Command(command);
            }
            if let Some(features) = text.strip_prefix(b"qSupported:") {
                return PacketRequest::Features(features);
            }
            if text.starts_with(b"qAttached:") {
                return PacketRequest::WasAttached;
            }
            if text.starts_with(b"qSymbol:") {
                return PacketRequest::Symbols;
            }
            long_query_of(text)
        }
    }
}

/// What a packet asks for that begins with `q` and names a thread or a part of a text.
fn long_query_of(text: &[u8]) -> PacketRequest<'_>
    ensures { Asks text.now result }
{
    if let Some(thread) = text.strip_prefix(b"qThreadExtraInfo,") {
        return match ThreadId::of_text(thread) {
            Some(thread) => PacketRequest::ThreadText(thread),
            None => PacketRequest::Malformed,
        };
    }
    if let Some(part) = text.strip_prefix(b"qXfer:features:read:") {
        return match description_of(part) {
            Some(request) => request,
            None => PacketRequest::Malformed,
        };
    }
    if let Some(part) = text.strip_prefix(b"qXfer:threads:read:") {
        return match thread_list_of(part) {
            Some(request) => request,
            None => PacketRequest::Malformed,
        };
    }
    PacketRequest::Unknown
}

/// The part of the target description that a text `NAME:START,LENGTH` names.
fn description_of(text: &[u8]) -> Option<PacketRequest<'_>>
    ensures { IfSome result (λ request. (other : List ℕ) → Asks other request) }
{
    let (name, window) = split_at_byte(text, b':')?;
    Some(PacketRequest::Description(name, Window::of_text(window)?))
}

/// The part of the list of threads that a text `:START,LENGTH` names.
fn thread_list_of(text: &[u8]) -> Option<PacketRequest<'_>>
    ensures { IfSome result (λ request. (other : List ℕ) → Asks other request) }
{
    let (_, window) = split_at_byte(text, b':')?;
    Some(PacketRequest::ThreadsText(Window::of_text(window)?))
}

/// What a packet asks for that begins with `v`.
fn verbose_of(text: &[u8]) -> PacketRequest<'_>
    ensures { Asks text.now result }
{
    if let b"vCont?" = text {
        return PacketRequest::ActionKinds;
    }
    if let Some(actions) = text.strip_prefix(b"vCont;") {
        return PacketRequest::Resume(actions);
    }
    if let Some(arguments) = text.strip_prefix(b"vRun;") {
        return PacketRequest::Restart(arguments);
    }
    if text.starts_with(b"vKill;") {
        return PacketRequest::Kill;
    }
    PacketRequest::Unknown
}
