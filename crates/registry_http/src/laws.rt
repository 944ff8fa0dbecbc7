//! Laws of the registry over HTTP. Each is the contract of a function that does nothing.

ghost use Rattle.registry_http.specs.Services.{LogRuns, TurnsRun, shown};
ghost use Rattle.registry_http.specs.Alone.{OneIsAnsweredTheSame, RunsAreAnsweredAlike};
ghost use Rattle.registry_http.specs.Hiding.{HiddenAreUnheardOf};
ghost use Rattle.registry_http.specs.Unseen.{StrangersAreAnsweredTheSame};
ghost use Rattle.registry_service.specs.Dialects.{IsDetermined};
ghost use Rattle.registry_service.specs.Turns.{profile};

use registry_service::HttpService;
use sqlite::Alter;

/// The turns of a connection, or of many that take turns, are one run of the registry: of the
/// requests that were asked in them, in their order, with the outcomes that were answered. So
/// everything that is said of requests in turn holds of them (`HasRun`): each outcome is the machine's
/// answer on what the earlier ones left, no reply is lost in a crash, and where nothing was asked of
/// the registry before, the headline holds. Only of what a crash leaves after faults `run` says more,
/// since some of these requests may have shared a commit. It doesn't matter what requests of HTTP ask
/// of the service, nor how many requests a turn asks: `D` may be any service over HTTP.
pub fn turns_are_one_run<S: Alter, D: HttpService>()
    ensures connection { TurnsRun D.speaks (shown S.Store) }
    ensures all { LogRuns D.speaks (shown S.Store) }
{}

/// Whatever a caller asks of a package that they don't read (its packument in either form, a version,
/// an archive or the tags), the response is, byte for byte, that to a query on a package that was
/// never published.
pub fn hidden_packages_are_unheard_of()
    ensures { HiddenAreUnheardOf }
{}

/// What is asked about a package changes no byte of what strangers to it are answered. Take two
/// registries that serve many connections each. Legal histories left them, which are one list once
/// the entries that name the package are dropped. In each world, turns may be taken that aren't in
/// the other: for commands that name the package, for commands that aren't accepted, and for input
/// that isn't a request in form. All other turns are taken in both worlds, in one order, each for
/// the same cause. Then a connection is answered the same in both worlds, byte for byte, if none of
/// its turns is in only one world, and if its requests are of callers who have no level on the
/// package at that point of either world, show the package in both worlds or in neither, and meet
/// no fault. This holds as long as the package, whoever asks, keeps no withdrawal from being done
/// in only one of the worlds, and as long as no fault in one world keeps a command undone that
/// doesn't name the package and that the other world accepts. So it is by the registry's own routes
/// (`routes`), and with any service whose answers are determined by what it asked (`services`).
pub fn unread_packages_change_no_byte<S: Alter, D: HttpService>()
    ensures routes { StrangersAreAnsweredTheSame profile (shown S.Store) }
    ensures services { IsDetermined D.speaks → StrangersAreAnsweredTheSame D.speaks (shown S.Store) }
{}

/// The same holds for a caller who is alone, if they have no level on the package at the start.
/// Whatever list of requests they make, with credentials that are theirs or nobody's, the responses
/// after both histories are the same, byte for byte, up to the first fault in either, and up to the
/// first request that shows the package in only one of them. The same holds of everything that each
/// of their connections is answered.
pub fn unread_packages_change_no_byte_for_one<S: Alter>()
    ensures responses { RunsAreAnsweredAlike }
    ensures connections { OneIsAnsweredTheSame profile (shown S.Store) }
{}
