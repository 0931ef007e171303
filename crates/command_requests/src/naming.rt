//! Whether two arguments of a run name one file.
ghost use Rattle.std.specs.Prelude.{◌≡◌, ◌++◌, true, None, Contains, IfErr, IfOk, IfSome, OnOk};
ghost use Rattle.output_files.specs.Names.{text_of};
ghost use Rattle.command_requests.specs.Names.{counts, names_for, names_in, names_of, AreOne, AreTwins, IsUnlike, AreUnlike};

use crate::destination::Destination;
use crate::failure::Failure;
use crate::requested_text::RequestedText;
use crate::target::Target;
use output_files::{FileName, Files};
use std::alloc::{AllocError, Global};

/// Two names of one file among those of the program, of the files for the texts and of their parts, where there are
/// two. Standard output and what is below `/dev/` don't count.
pub fn named_twice<'a, F: Files>(
    alloc: Global,
    file: &'a str,
    wanted: &[RequestedText<'a>],
    files: &F,
) -> Result<Option<(FileName<'a>, FileName<'a>)>, Failure<'a>>
    ensures none { IfOk result (λ twins. twins ≡ None → AreUnlike (F.is_same files.now) (names_of file.entry wanted.now)) }
    ensures some { IfOk result (λ twins.
        IfSome twins (λ two. AreTwins (F.is_same files.now) two.0 two.1 (names_of file.entry wanted.now))) }
    ensures err { IfErr result (λ failure. failure ≡ Failure.OutOfMemory) }
{
    let names = names_of(alloc, file, wanted)?;
    first_twins(alloc, names.as_slice(), files)
}

/// The names of the files of a run.
fn names_of<'a>(
    alloc: Global,
    file: &'a str,
    wanted: &[RequestedText<'a>],
) -> Result<Vec<FileName<'a>>, AllocError>
    ensures { IfOk result (λ names. names.items ≡ names_of file.entry wanted.now) }
{
    let mut names = Vec::new(alloc);
    if is_counted(file) {
        names.push(FileName::At(file))?;
    }
    add_all_names(wanted, &mut names)?;
    Ok(names)
}

/// Adds the names of the files for these texts and of their parts.
fn add_all_names<'a>(
    wanted: &[RequestedText<'a>],
    names: &mut Vec<FileName<'a>>,
) -> Result<(), AllocError>
    ensures { OnOk result (names.new.items ≡ names.old.items ++ names_for wanted.now) }
{
    let [first, others @ ..] = wanted else {
        return Ok(());
    };
    add_names(first.destination, names)?;
    add_all_names(others, names)
}

/// Adds the names of the file of a destination and of its part.
fn add_names<'a>(
    destination: Destination<'a>,
    names: &mut Vec<FileName<'a>>,
) -> Result<(), AllocError>
    ensures { OnOk result (names.new.items ≡ names.old.items ++ names_in destination.entry) }
{
    if let Destination::File(path) = destination
        && is_counted(path)
    {
        names.push(FileName::At(path))?;
        names.push(FileName::PartOf(path))?;
    }
    Ok(())
}

/// Whether a path is one of those of which each names a file of its own.
fn is_counted(path: &str) -> bool
    ensures { result ≡ counts path.now }
{
    path != "-" && !path.as_bytes().starts_with(b"/dev/")
}

/// The first two of these names that are of one file.
fn first_twins<'a, F: Files>(
    alloc: Global,
    names: &[FileName<'a>],
    files: &F,
) -> Result<Option<(FileName<'a>, FileName<'a>)>, Failure<'a>>
    ensures none { IfOk result (λ twins. twins ≡ None → AreUnlike (F.is_same files.now) names.now) }
    ensures some { IfOk result (λ twins. IfSome twins (λ two. AreTwins (F.is_same files.now) two.0 two.1 names.now)) }
    ensures err { IfErr result (λ failure. failure ≡ Failure.OutOfMemory) }
{
    let [name, others @ ..] = names else {
        return Ok(None);
    };
    match twin_of(alloc, *name, others, files)? {
        Some(twin) => Ok(Some((*name, twin))),
        None => first_twins(alloc, others, files),
    }
}

/// The first of these names that is of the same file as this one.
fn twin_of<'a, F: Files>(
    alloc: Global,
    name: FileName<'a>,
    others: &[FileName<'a>],
    files: &F,
) -> Result<Option<FileName<'a>>, Failure<'a>>
    ensures none { IfOk result (λ twin. twin ≡ None → IsUnlike (F.is_same files.now) name.entry others.now) }
    ensures some { IfOk result (λ twin. IfSome twin (λ other. Contains others.now other)) }
    ensures one { IfOk result (λ twin. IfSome twin (λ other. AreOne (F.is_same files.now) name.entry other)) }
    ensures err { IfErr result (λ failure. failure ≡ Failure.OutOfMemory) }
{
    for other in others {
        if is_one_file(alloc, name, *other, files)? {
            return Ok(Some(*other));
        }
    }
    Ok(None)
}

/// Whether two names are of one file.
fn is_one_file<'a, F: Files>(
    alloc: Global,
    name: FileName<'a>,
    other: FileName<'a>,
    files: &F,
) -> Result<bool, Failure<'a>>
    ensures alike { text_of name.entry ≡ text_of other.entry → IfOk result (λ is_one. is_one ≡ true) }
    ensures known { IfOk result (λ is_one.
        IfSome (F.is_same files.now (text_of name.entry) (text_of other.entry)) (λ same. is_one ≡ same)) }
    ensures failed { IfErr result (λ failure. failure ≡ Failure.OutOfMemory) }
{
    match files.is_one_file(alloc, name, other) {
        Ok(is_one) => Ok(is_one),
        Err(fault) => Err(Failure::of_write(Target::Path(name.path()), fault)),
    }
}
