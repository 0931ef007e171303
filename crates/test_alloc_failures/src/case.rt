//! The cases, by name.
use crate::answer::Answer;
use crate::failed::Failed;
use crate::snapshots::{Change, STORES};
use crate::{commits, recorders, runs, snapshots, views, whole, worlds};
use data_guest_programs::schedules::{EARLY_TURN, KEPT_STORE, SIGNAL as WOKEN, SKIP, Schedule};
use data_guest_programs::{ECHO, Program, QUOTIENTS, RACE, RELEASE_RACE, SIGNAL};
use std::alloc::Global;
use std::sync::Wait;
use std::thread::Threads;

/// A call that is made, and again where it is refused.
pub enum Case {
    /// A call of a memory, a view or a patch.
    Memory(MemoryCase),
    /// A run of a program with an input.
    Run(&'static Program, &'static [u8], runs::Way),
    /// A run of a program that is recorded.
    Recorded(&'static Program),
    /// A run that goes by a schedule.
    Played(&'static Schedule, worlds::Way),
    /// The text of a schedule.
    Events(&'static Schedule),
    /// The file of a program.
    ReadFile(&'static Program),
    /// A whole run of a program.
    RunWhole(&'static Program),
    /// A whole run of a program with an input, whose output goes to a sink.
    RunToSink(&'static Program, &'static [u8]),
}

/// A call of a memory, a view or a patch.
pub enum MemoryCase {
    OfImage,
    TryClone,
    MapZero,
    Unmap,
    SnapshotStore,
    ViewStore,
    Dirty,
    PatchOf,
    Addresses,
    Apply,
}

/// The cases with their names, in the order in which they are performed.
pub const CASES: [(&str, Case); 29] = [
    ("Snapshot::of_image", Case::Memory(MemoryCase::OfImage)),
    ("Snapshot::try_clone", Case::Memory(MemoryCase::TryClone)),
    ("Snapshot::map_zero", Case::Memory(MemoryCase::MapZero)),
    ("Snapshot::unmap", Case::Memory(MemoryCase::Unmap)),
    (
        "stores to a snapshot",
        Case::Memory(MemoryCase::SnapshotStore),
    ),
    (
        "first stores to a view",
        Case::Memory(MemoryCase::ViewStore),
    ),
    ("View::dirty", Case::Memory(MemoryCase::Dirty)),
    ("Patch::of", Case::Memory(MemoryCase::PatchOf)),
    ("changed_addresses", Case::Memory(MemoryCase::Addresses)),
    ("apply", Case::Memory(MemoryCase::Apply)),
    ("Start::open", Case::Run(&ECHO, b"ab", runs::Way::Opened)),
    (
        "turns of quotients",
        Case::Run(&QUOTIENTS, b"", runs::Way::ToEnd),
    ),
    ("turns of race", Case::Run(&RACE, b"", runs::Way::ToEnd)),
    ("turns of signal", Case::Run(&SIGNAL, b"", runs::Way::ToEnd)),
    ("turns of echo", Case::Run(&ECHO, b"ab", runs::Way::ToEnd)),
    (
        "turns of release-race",
        Case::Run(&RELEASE_RACE, b"", runs::Way::ToEnd),
    ),
    ("turns of race, recorded", Case::Recorded(&RACE)),
    (
        "World::open",
        Case::Played(&EARLY_TURN, worlds::Way::Opened),
    ),
    ("schedule_text::parse", Case::Events(&EARLY_TURN)),
    (
        "events with an early turn",
        Case::Played(&EARLY_TURN, worlds::Way::InTurn),
    ),
    (
        "events with a keeper's store",
        Case::Played(&KEPT_STORE, worlds::Way::InTurn),
    ),
    (
        "events with a wake",
        Case::Played(&WOKEN, worlds::Way::InTurn),
    ),
    (
        "events with a note and a skip",
        Case::Played(&SKIP, worlds::Way::InTurn),
    ),
    (
        "World::apply_all",
        Case::Played(&EARLY_TURN, worlds::Way::AtOnce),
    ),
    ("read", Case::ReadFile(&RELEASE_RACE)),
    ("run of race", Case::RunWhole(&RACE)),
    ("run of signal", Case::RunWhole(&SIGNAL)),
    ("run of release-race", Case::RunWhole(&RELEASE_RACE)),
    ("run_into of echo", Case::RunToSink(&ECHO, b"ab")),
];

impl Case {
    /// Performs it.
    pub fn perform<R: Threads + Wait + Sync>(
        &self,
        rt: &R,
        alloc: Global,
    ) -> Result<Answer, Failed> {
        match self {
            Case::Memory(case) => case.perform(alloc),
            Case::Run(program, input, way) => runs::run(alloc, program, input, way),
            Case::Recorded(program) => recorders::recorded(alloc, program),
            Case::Played(schedule, way) => worlds::played(alloc, schedule, way),
            Case::Events(schedule) => worlds::parsed(alloc, schedule),
            Case::ReadFile(program) => whole::read_file(alloc, program),
            Case::RunWhole(program) => whole::run_whole(rt, alloc, program),
            Case::RunToSink(program, input) => whole::run_to_sink(rt, alloc, program, input),
        }
    }
}

impl MemoryCase {
    /// Performs it.
    fn perform(&self, alloc: Global) -> Result<Answer, Failed> {
        match self {
            MemoryCase::OfImage => snapshots::of_image(alloc),
            MemoryCase::TryClone => snapshots::try_clone(alloc),
            MemoryCase::MapZero => snapshots::changed(alloc, &[Change::MapZero]),
            MemoryCase::Unmap => snapshots::changed(alloc, &[Change::Unmap]),
            MemoryCase::SnapshotStore => snapshots::changed(alloc, &STORES),
            MemoryCase::ViewStore => views::store(alloc),
            MemoryCase::Dirty => views::dirty(alloc),
            MemoryCase::PatchOf => commits::patch_of(alloc),
            MemoryCase::Addresses => commits::addresses(alloc),
            MemoryCase::Apply => commits::commit(alloc),
        }
    }
}
