//! The law that the changes of turns have one report. It has no code.
ghost use Rattle.std.specs.Prelude.{◌≡◌, List};
ghost use Rattle.token.specs.Change.{Change};
ghost use Rattle.sharing_report.specs.Sharing.{IsSharing};
ghost use Rattle.sharing_report.specs.declared.page_row.PageRow.{PageRow};

/// Changes have one sharing: two reports of the same changes are equal.
pub fn one_report()
    ensures { (changes : List Change) (rows others : List PageRow) →
        IsSharing changes rows → IsSharing changes others → rows ≡ others }
{}
