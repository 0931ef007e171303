//! Two pages compared, and merged into a third, 32 bytes at a time. Bytes that are the same are passed over 128 at a
//! time.
#![tactic(auto, unfolding(crate::specs::Bytes::differing_count, crate::specs::Bytes::merged_bytes))]

ghost use Rattle.std.specs.Prelude.{◌≡◌, ◌+◌, ◌%◌, ◌^◌, ◌≤◌, ◌++◌, OnOk, true, bit_xor, length};
ghost use Rattle.std.specs.Simd.Lanes.{chunk, put_chunk, zip2};
ghost use Rattle.commit.specs.Bytes.{LieInBoth, differing_count, differing_from, merged_bytes};
ghost use Rattle.commit.specs.Groups.{IsComparison};

use crate::comparison::Comparison;
use guest_memory::layout::PAGE_SIZE;
use std::alloc::AllocError;
use std::simd::prelude::*;

/// The bytes of a page.
pub(crate) const PAGE_BYTES: usize = PAGE_SIZE as usize;

/// The bytes that are looked at together.
const LANES: usize = 32;

/// The blocks that are passed over together where nothing differs in them.
const GROUP_BLOCKS: usize = 4;

/// The bytes of such a group.
pub(crate) const GROUP: usize = GROUP_BLOCKS * LANES;

/// The groups in a page.
const GROUPS: usize = PAGE_BYTES / GROUP;

/// How many bytes of two pages differ.
pub fn count_page(copy: &[u8; PAGE_BYTES], mine: &[u8; PAGE_BYTES]) -> u32
    ensures { result ≡ differing_count copy.now mine.now }
{
    compare_page(copy, mine).count
}

/// How many bytes of two pages differ, and where the last group of such bytes begins.
pub(crate) fn compare_page(copy: &[u8; PAGE_BYTES], mine: &[u8; PAGE_BYTES]) -> Comparison
    ensures { IsComparison copy.now mine.now result }
{
    let mut count = 0;
    let mut last = 0;
    for group in 0..GROUPS {
        let differing = count_group(copy, mine, group * GROUP);
        if differing > 0 {
            count += differing;
            last = group * GROUP;
        }
    }
    Comparison { count, last }
}

/// Replaces each byte of a page by that of `mine` where `mine` and `copy` differ.
pub fn merge_page(now: &mut [u8; PAGE_BYTES], copy: &[u8; PAGE_BYTES], mine: &[u8; PAGE_BYTES])
    ensures { now.new ≡ merged_bytes now.old copy.now mine.now }
{
    merge(now, copy, mine);
}

/// Replaces each of some bytes by that of `mine` where `mine` and `copy` differ.
#[inline(always)]
pub(crate) fn merge(now: &mut [u8], copy: &[u8], mine: &[u8])
    requires whole { length now.old % LANES ≡ 0 }
    requires copy { length copy.now ≡ length now.old }
    requires mine { length mine.now ≡ length now.old }
    ensures { now.new ≡ merged_bytes now.old copy.now mine.now }
{
    for block in 0..now.len() / LANES {
        merge_block(now, copy, mine, block * LANES);
    }
}

/// Pushes the numbers of the bytes that differ, where the first byte has this number.
pub(crate) fn push_differing(
    numbers: &mut Vec<u32>,
    first: u32,
    copy: &[u8],
    mine: &[u8],
) -> Result<(), AllocError>
    requires whole { length copy.now % LANES ≡ 0 }
    requires mine { length mine.now ≡ length copy.now }
    requires first { first + length copy.now ≤ 2 ^ 32 }
    ensures { OnOk result (numbers.new.items ≡ numbers.old.items ++ differing_from first copy.now mine.now) }
{
    for block in 0..copy.len() / LANES {
        push_block(numbers, first, copy, mine, block * LANES)?;
    }
    Ok(())
}

/// Pushes the numbers of the bytes of a block that differ.
fn push_block(
    numbers: &mut Vec<u32>,
    first: u32,
    copy: &[u8],
    mine: &[u8],
    at: usize,
) -> Result<(), AllocError>
    requires first { first + at + LANES ≤ 2 ^ 32 }
    requires within { LieInBoth at LANES copy.now mine.now }
    ensures { OnOk result (numbers.new.items
        ≡ numbers.old.items ++ differing_from (first + at) (chunk at LANES copy.now) (chunk at LANES mine.now)) }
{
    if count_block(copy, mine, at) == 0 {
        return Ok(());
    }
    for lane in 0..LANES {
        if copy[at + lane] != mine[at + lane] {
            numbers.push(first + (at + lane) as u32)?;
        }
    }
    Ok(())
}

/// How many bytes of a group differ.
#[inline(always)]
pub(crate) fn count_group(copy: &[u8], mine: &[u8], at: usize) -> u32
    requires { LieInBoth at GROUP copy.now mine.now }
    ensures { result ≡ differing_count (chunk at GROUP copy.now) (chunk at GROUP mine.now) }
{
    if is_same(copy, mine, at) {
        return 0;
    }
    let mut count = 0;
    for block in 0..GROUP_BLOCKS {
        count += count_block(copy, mine, at + block * LANES);
    }
    count
}

/// Whether no byte of a group differs.
#[inline(always)]
fn is_same(copy: &[u8], mine: &[u8], at: usize) -> bool
    requires { LieInBoth at GROUP copy.now mine.now }
    ensures { result ≡ true → differing_count (chunk at GROUP copy.now) (chunk at GROUP mine.now) ≡ 0 }
{
    let first = differences(copy, mine, at) | differences(copy, mine, at + LANES);
    let last = differences(copy, mine, at + 2 * LANES) | differences(copy, mine, at + 3 * LANES);
    (first | last).simd_ne(u8x32::splat(0)).to_bitmask() == 0
}

/// The bits that differ in a block.
#[inline(always)]
fn differences(copy: &[u8], mine: &[u8], at: usize) -> u8x32
    requires { LieInBoth at LANES copy.now mine.now }
    ensures { result ≡ zip2 bit_xor (chunk at LANES copy.now) (chunk at LANES mine.now) }
{
    u8x32::from_slice(&copy[at..]) ^ u8x32::from_slice(&mine[at..])
}

/// How many bytes of a block differ.
#[inline(always)]
fn count_block(copy: &[u8], mine: &[u8], at: usize) -> u32
    requires { LieInBoth at LANES copy.now mine.now }
    ensures { result ≡ differing_count (chunk at LANES copy.now) (chunk at LANES mine.now) }
{
    let copy = u8x32::from_slice(&copy[at..]);
    let mine = u8x32::from_slice(&mine[at..]);
    copy.simd_ne(mine).to_bitmask().count_ones()
}

/// Merges a block.
#[inline(always)]
fn merge_block(now: &mut [u8], copy: &[u8], mine: &[u8], at: usize)
    requires now { at + LANES ≤ length now.old }
    requires within { LieInBoth at LANES copy.now mine.now }
    ensures { now.new ≡ put_chunk at now.old (merged_bytes (chunk at LANES now.old) (chunk at LANES copy.now) (chunk at LANES mine.now)) }
{
    let old = u8x32::from_slice(&now[at..]);
    let copy = u8x32::from_slice(&copy[at..]);
    let mine = u8x32::from_slice(&mine[at..]);
    copy.simd_ne(mine)
        .select(mine, old)
        .copy_to_slice(&mut now[at..]);
}
