//! Laws of npm's own requests. Each is the contract of a function that does nothing.

ghost use Rattle.registry_service.specs.Dialects.{AsksQueriesByGet, IsDetermined};
ghost use Rattle.registry_npm.specs.Changes.{DocumentsChangeOneThing, PackumentsAreOfWriters};
ghost use Rattle.registry_npm.specs.Deeds.{DoneMeansDone};
ghost use Rattle.registry_npm.specs.LabelLaws.{AbbreviatedAreShown, ArchivesKeepTags, ContentTagsAreTags, OnlyReadsAreLabelled, RefusalsHaveNoLabels, SharedIsPublic, ShownAreTagged, TagsAreRevisions};
ghost use Rattle.registry_npm.specs.Laws.{AsksForCaller, BodiesAreOfUsers, CommandComesLast, FaultsEnd, FilesAreGone, NeverNotFound, NpmIsApart, OthersStay};
ghost use Rattle.registry_npm.specs.Npm.{npm};

use registry_routes::laws::tables_meet;

/// A request that isn't npm's own means what it means without npm's routes.
pub fn others_stay()
    ensures { OthersStay }
{}

/// A request of npm's own reads a packument or puts a package, or has no route without npm's, or a
/// body that begins as a JSON object does.
pub fn npm_is_apart()
    ensures { NpmIsApart }
{
    tables_meet();
}

/// A turn asks for one thing at most that can change the registry, and for nothing after it. Where that was
/// done, the answer is no error. Whatever else is asked is a query, or a deprecation that selects no version.
pub fn command_comes_last()
    ensures { CommandComesLast npm }
{}

/// After a fault nothing more is asked in a turn, and it is the answer.
pub fn faults_end()
    ensures { FaultsEnd npm }
{}

/// A `GET` asks only queries.
pub fn get_asks_queries()
    ensures { AsksQueriesByGet npm }
{}

/// The deletion of an archive's file is answered by `NotFound` only where the path names the file of no
/// version of the package, or where the registry answers so to the caller of the archive of that version.
pub fn files_are_gone()
    ensures { FilesAreGone }
{}

/// A document or a whole withdrawal under a revision is never answered by 404, which npm takes for
/// success.
pub fn never_not_found()
    ensures { NeverNotFound }
{}

/// Where a request of npm's own isn't answered by a refusal or a fault, it was done. By the routes that look
/// at something only queries were asked. By any other the last that was asked is a command, for the caller,
/// and it was accepted; and the path and the body name all that it is about. A document is in the body, and
/// asks for the one thing in which it differs from what was read in the turn, or says what is there, after a
/// trial of the right to write the package that wasn't refused. A whole withdrawal is under the revision that
/// was read in the turn; or no version is found, after such a trial. The deletion of an archive's file, and
/// what isn't served, is always refused, or fails.
pub fn done_means_done()
    ensures { DoneMeansDone }
{}

/// A document is refused, and nothing was asked that can change the registry; or it says what is there, and
/// nothing else was asked, either; or one command comes last: the one thing in which the document differs
/// from the packument and the maintainers that were read in the turn, with nothing between. That is a message
/// for some versions, one version withdrawn, or one maintainer more or less. Then the document is of the
/// present revision, and if the command is refused, so is the document.
pub fn documents_change_one_thing()
    ensures { DocumentsChangeOneThing }
{}

/// Of a document that is no publication, and of a whole withdrawal, whatever the answer is: it is asked first
/// who calls, then their right to write the package is tried, and what there is of a package is asked for only
/// where that is neither refused nor fails.
pub fn packuments_are_of_writers()
    ensures { PackumentsAreOfWriters }
{}

/// What a turn that asked something answers is determined by what it asked, and by what that came to,
/// unless it answers a fault.
pub fn answers_are_determined()
    ensures { IsDetermined npm }
{}

/// Whatever a turn asks is asked at the moment of its request, for its caller or for nobody.
pub fn asks_for_caller()
    ensures { AsksForCaller npm }
{}

/// Where a body is read, it is asked first who calls. Who is no user is answered that, whatever the body says,
/// and asked for nothing else. Only where packages are put, a publication in form of the package that the
/// path names may be asked for at once.
pub fn bodies_are_of_users()
    ensures { BodiesAreOfUsers }
{}

/// A refusal or a fault says nothing to those who keep documents: neither a tag, nor how long it may
/// be kept.
pub fn refusals_have_no_labels()
    ensures { RefusalsHaveNoLabels }
{}

/// Something is said to those who keep documents only of a packument or an archive that is read.
pub fn only_reads_are_labelled()
    ensures { OnlyReadsAreLabelled }
{}

/// Who doesn't accept the abbreviated packument is shown the full one as npm reads it, as the registry
/// answers it to them. Its tag is the revision of the packument and the maintainers that it shows, and
/// so it is of what the registry holds of the package.
pub fn tags_are_revisions()
    ensures turns { TagsAreRevisions }
    ensures states { ShownAreTagged }
{}

/// Who accepts the abbreviated packument is shown that, as the registry answers it to them. Its tag is
/// the digest of its text.
pub fn abbreviated_are_shown()
    ensures { AbbreviatedAreShown }
{}

/// The tag of an archive is the digest of its bytes, whoever asks: since those of a version never
/// change, it is the same for good, and stands for no other archive.
pub fn archives_keep_tags()
    ensures same { ArchivesKeepTags }
    ensures form { ContentTagsAreTags }
{}

/// What all may share is an archive that was answered to nobody in particular.
pub fn what_is_shared_is_public()
    ensures { SharedIsPublic }
{}
