//! The text of findings: a line for each, with the names that a symbol table has for its places.
ghost use Rattle.std.specs.Prelude.{◌≡◌, ◌++◌, IfOk, OnOk, codes, decimal, if◌then◌else◌, option_map};
ghost use Rattle.std.specs.String.{string_bytes};
ghost use Rattle.symbols.specs.Covering.{told};
ghost use Rattle.races.specs.FindingTexts.{finding_text, text_of};
ghost use Rattle.races.specs.Texts.{bytes_text, left_text, names_text, place_text, race_text, site_text};

use crate::finding::Finding;
use crate::freed_text::write_freed;
use crate::misuse_text::write_misuse;
use crate::order_text::write_order;
use crate::place_text::{write_number, write_symbol};
use crate::race::Race;
use crate::site::Site;
use std::alloc::{AllocError, Global};
use symbols::{SymbolOffset, Symbols};
use text_output::write_hexadecimal;

/// As many findings have a line.
pub const MOST_LINES: usize = 10_000;

/// The text of findings: a line for each of the first [`MOST_LINES`], and one that says how many were left out, if any were. An object
/// that covers a race's lowest byte and the functions that cover its instructions are named.
///
/// # Errors
///
/// Only out of memory.
pub fn findings_text(
    alloc: Global,
    findings: &[Finding],
    symbols: &Symbols,
) -> Result<String, AllocError>
    ensures { IfOk result (λ text. string_bytes text ≡ text_of symbols.now findings.now) }
{
    let (shown, left) = findings.split_at(findings.len().min(MOST_LINES));
    let mut text = String::new(alloc);
    for finding in shown {
        write_finding(&mut text, finding, symbols)?;
    }
    write_left(&mut text, left.len())?;
    Ok(text)
}

/// Appends the line of a finding.
fn write_finding(text: &mut String, finding: &Finding, symbols: &Symbols) -> Result<(), AllocError>
    ensures { OnOk result (string_bytes text.new ≡ string_bytes text.old ++ finding_text symbols.now finding.now) }
{
    match finding {
        Finding::Race(race) => write_race(text, race, symbols),
        Finding::Freed(freed) => write_freed(text, freed, symbols),
        Finding::Order(fault) => write_order(text, fault, symbols),
        Finding::Misuse(misuse) => write_misuse(text, misuse, symbols),
    }
}

/// Appends how many lines were left out, if any were.
#[tactic(auto, unfolding(crate::specs::Texts::left_text))]
fn write_left(text: &mut String, count: usize) -> Result<(), AllocError>
    ensures { OnOk result (string_bytes text.new ≡ string_bytes text.old ++ left_text count) }
{
    if count == 0 {
        return Ok(());
    }
    write_number(text, "left out=", count as u64)?;
    text.push_str("\n")
}

/// Appends the line of a race, as `race address=00016038 bytes=4 store thread=1 turn=15+8 pc=00010188 store thread=2 turn=17+8
/// pc=00010188 object=counter+0 in=add+20 in=add+20`.
#[tactic(auto, unfolding(crate::specs::Texts::race_text))]
fn write_race(text: &mut String, race: &Race, symbols: &Symbols) -> Result<(), AllocError>
    ensures { OnOk result (string_bytes text.new ≡ string_bytes text.old ++ race_text symbols.now race.now) }
{
    write_bytes(text, race)?;
    write_site(text, race.first)?;
    write_site(text, race.second)?;
    write_names(text, race, symbols)?;
    text.push_str("\n")
}

/// Appends the names of a race's places, as ` object=counter+0 in=add+20 in=add+20`. What has no name is left out.
#[tactic(auto, unfolding(crate::specs::Texts::names_text))]
fn write_names(text: &mut String, race: &Race, symbols: &Symbols) -> Result<(), AllocError>
    ensures { OnOk result (string_bytes text.new ≡ string_bytes text.old ++ names_text symbols.now race.now) }
{
    write_place(text, " object=", symbols.object_at(race.address()))?;
    write_place(text, " in=", symbols.function_at(race.first.pc))?;
    write_place(text, " in=", symbols.function_at(race.second.pc))
}

/// Appends a place after the name of its field, if there is one.
#[tactic(auto, unfolding(crate::specs::Texts::place_text))]
pub(crate) fn write_place(
    text: &mut String,
    field: &str,
    place: Option<SymbolOffset<'_>>,
) -> Result<(), AllocError>
    ensures { OnOk result (string_bytes text.new ≡ string_bytes text.old ++ place_text field.now (option_map told place.entry)) }
{
    match place {
        Some(place) => {
            text.push_str(field)?;
            write_symbol(text, place.name)?;
            write_number(text, "+", u64::from(place.offset))
        }
        None => Ok(()),
    }
}

/// Appends which bytes race, as `race address=00016038 bytes=4`.
#[tactic(auto, unfolding(crate::specs::Texts::bytes_text))]
fn write_bytes(text: &mut String, race: &Race) -> Result<(), AllocError>
    ensures { OnOk result (string_bytes text.new ≡ string_bytes text.old ++ bytes_text race.now) }
{
    let (address, size) = (race.address(), u64::from(race.size()));
    text.push_str("race address=")?;
    write_hexadecimal(text, 8, address)?;
    write_number(text, " bytes=", size)
}

/// Appends an access, as ` store thread=1 turn=15+8 pc=00010188`.
#[tactic(auto, unfolding(crate::specs::Texts::site_text))]
pub(crate) fn write_site(text: &mut String, site: Site) -> Result<(), AllocError>
    ensures { OnOk result (string_bytes text.new ≡ string_bytes text.old ++ site_text site) }
{
    text.push_str(kind_of(site))?;
    write_number(text, " thread=", u64::from(site.thread))?;
    write_number(text, " turn=", site.turn)?;
    write_number(text, "+", site.instruction)?;
    text.push_str(" pc=")?;
    write_hexadecimal(text, 8, site.pc)
}

/// Whether an access loads or stores.
fn kind_of(site: Site) -> &'static str
    ensures { result.now ≡ (if site.is_store then codes " store" else codes " load") }
{
    if site.is_store { " store" } else { " load" }
}
