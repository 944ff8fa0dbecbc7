//! Laws of hidden packages. Each function does nothing: what it ensures holds of the definitions
//! themselves, and its proof is the law's.

ghost use Rattle.registry_laws_hidden.specs.Arrivals.{StrangersSeeTheSame};
ghost use Rattle.registry_laws_hidden.specs.Laws.{KeptIsDepended, ListLacksOneRow, NamedLeaveTheRest, OthersAreAccepted, OthersMakeTheSame, RepliesAreAlike, RestsAreAlike, TakenIsDenied, UntouchedLeaveTheRest};
ghost use Rattle.registry_laws_hidden.specs.Lists.{ListsAreAnsweredAlike, ListsHaveArrivals};
ghost use Rattle.registry_laws_hidden.specs.Runs.{RunsAreAlike};

/// A command that names a package leaves the registry without the package as it was. Any other
/// command that is accepted is also accepted on the registry without the package, and makes of it
/// what it makes of the registry, except for the package.
pub fn packages_are_left_apart()
    ensures named { NamedLeaveTheRest }
    ensures others { OthersMakeTheSame }
    ensures accepted { OthersAreAccepted }
{}

/// The entries of a legal history that don't name a package are a legal history, too. What they
/// leave is the registry without the package.
pub fn histories_without_a_package_leave_the_rest()
    ensures { UntouchedLeaveTheRest }
{}

/// A request of a caller who has no level on a package, by any token or name of theirs, or with a
/// credential of nobody, is answered as if nobody had ever touched the package. What the registry
/// holds then is the same in all else. Three requests are excepted: a withdrawal of another package
/// that this one alone keeps from being done, a publish of the package by a member of its scope,
/// whose name is taken, and the operator's query for all packages, of which it is one.
pub fn unread_packages_are_unheard_of()
    ensures replies { RepliesAreAlike }
    ensures rests { RestsAreAlike }
{}

/// What the first two excepted requests show. The withdrawal is refused with `Depended`, and would be
/// done without the package; the publish is refused with `Denied A6`, and would create the package.
/// So each is answered differently wherever it is excepted.
pub fn two_requests_show_a_package()
    ensures kept { KeptIsDepended }
    ensures taken { TakenIsDenied }
{}

/// What the third excepted request shows. The operator's list of all packages is that of the registry
/// without the package, and one row more: that of the package.
pub fn the_list_of_packages_shows_one_row()
    ensures { ListLacksOneRow }
{}

/// Take two legal histories that are the same list once the entries that name a package are
/// dropped, and a caller who has no level on the package after either. Whatever requests they make,
/// with any credentials of theirs or of nobody, at any moments, while nobody else asks anything,
/// the replies are the same after both, up to the first fault in either, and up to the first of the
/// first two that shows the package in only one of them, or of the third that shows it in either.
/// Nothing is said of the time and the memory that a reply takes.
pub fn unread_packages_make_no_difference()
    ensures { RunsAreAlike }
{}

/// Take two runs, after such histories, in which any callers take turns at any moments. In each,
/// anybody may ask more than in the other: what names the package, and what isn't an accepted
/// command. All else is asked in both, in the same order. Then each request that is asked in both,
/// by a caller who has no level on the package at that point of either, is answered alike, except
/// where it shows the package in only one of the runs, or by the list of all packages. Nothing is
/// said of faults. Nor is anything said from the point on where the package alone keeps a withdrawal
/// from being done in one run, or where a fault in one run keeps a command undone that the other
/// accepts and that doesn't name the package.
pub fn unread_packages_do_not_interfere()
    ensures { StrangersSeeTheSame }
{}

/// Two runs are those of [`unread_packages_do_not_interfere`] if their requests are the same list
/// once the accepted commands that name the package are dropped from both: what is left is asked in
/// both, and what was dropped only in one.
pub fn lists_have_arrivals()
    ensures { ListsHaveArrivals }
{}

/// So take two lists of requests, by any callers at any moments, after such histories, that are the
/// same list once the accepted commands that name the package are dropped from both. What is left,
/// with its queries, is answered alike in both runs to every caller who has no level on the package
/// at that point of both, whatever others did with it in between. Only the first exception and the
/// third apply, and nothing is said from the same points on. The second shows nothing here: a
/// publish of the package that is left was accepted in neither run.
pub fn strangers_are_answered_alike()
    ensures { ListsAreAnsweredAlike }
{}
