//! What the lines of a row work on. Here a line finds the part that takes it.

use crate::answer::Answer;
use crate::commits::take_commit_line;
use crate::files::{Files, take_file_line};
use crate::harts::take_hart_line;
use crate::memories::{Memories, take_access_line, take_memory_line};
use crate::objects::take_object_line;
use crate::pages::take_page_line;
use crate::snapshots::take_snapshot_line;
use crate::threads::take_thread_line;
use crate::words::take_word_line;
use anyhow::Result;
use condvar_barrier::Objects;
use hart::Hart;
use std::alloc::{AllocError, Global};
use test_guest_rows::split;
use thread_table::Threads;

/// Files, memories, a page, a hart, threads and objects, and the answer of the last line.
#[derive(Drop)]
pub struct Scene {
    alloc: Global,
    pub answer: Answer,
    files: Files,
    memories: Memories,
    page: Box<[u8; 4096]>,
    hart: Hart,
    threads: Threads,
    objects: Objects,
}

impl Scene {
    /// Nothing yet.
    pub fn new(alloc: Global) -> Result<Self, AllocError> {
        Ok(Scene {
            alloc,
            answer: Answer::new(alloc),
            files: Files::new(alloc),
            memories: Memories::new(alloc),
            page: Box::new(alloc, [0; 4096])?,
            hart: Hart::new(0, 0, 0, 0),
            threads: Threads::new(),
            objects: Objects::new(),
        })
    }
}

/// Does what a line says, and writes its answer.
pub fn take_line(scene: &mut Scene, line: &str) -> Result<()> {
    let (verb, rest) = split(line);
    let answer = &mut scene.answer;
    let is_taken = take_word_line(scene.alloc, answer, verb, rest)?
        || take_file_line(answer, &mut scene.files, verb, rest)?
        || take_memory_line(&mut scene.memories, &scene.files, verb, rest)?
        || take_snapshot_line(answer, &mut scene.memories, verb, rest)?
        || take_commit_line(answer, &mut scene.memories, verb, rest)?
        || take_page_line(scene.alloc, answer, &mut scene.page, verb, rest)?
        || take_hart_line(answer, &mut scene.hart, verb, rest)
        || take_thread_line(answer, &mut scene.threads, scene.hart, verb, rest)
        || take_object_line(answer, &mut scene.objects, verb, rest)
        || take_access_line(answer, &mut scene.memories, &mut scene.hart, verb, rest)?;
    if !is_taken {
        answer.word("no such line");
    }
    Ok(())
}
