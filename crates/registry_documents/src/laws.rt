//! Laws of what documents may change, and of what is shown to npm. Each function does nothing: what
//! it ensures holds of the definitions themselves, and its proof is the law's.

ghost use Rattle.registry_documents.specs.Claims.{ClaimsAreHeard, ShownIsThere};
ghost use Rattle.registry_documents.specs.Fronts.{FrontsAreJson};
ghost use Rattle.registry_documents.specs.Laws.{DeprecationsChangeMessages, LateAsksNothing, OwnersChangeByOne, PresentIsHeard, WithdrawalsTakeOneVersion};

/// A document of another revision changes nothing: it is accepted where it says what there is, and
/// refused as `Stale` everywhere else.
pub fn late_documents_ask_nothing()
    ensures { LateAsksNothing }
{}

/// A document of the present revision is accepted where it asks for one thing, and refused as
/// `BadBody` everywhere else.
pub fn present_documents_are_heard()
    ensures { PresentIsHeard }
{}

/// A deprecation changes nothing but messages: the versions of its selector get its message, and all
/// versions, their manifests and messages, the tags and the maintainers stay otherwise.
pub fn deprecations_change_messages()
    ensures { DeprecationsChangeMessages }
{}

/// A withdrawal takes exactly one version that is there, and the tags are those that it leaves. All
/// other versions, their manifests and messages, and the maintainers stay.
pub fn withdrawals_take_one_version()
    ensures { WithdrawalsTakeOneVersion }
{}

/// A document that repeats what was read, in JSON with each key once and without other numbers than
/// integers of 64 bits, differs in nothing but its missing versions, its messages and its tags.
/// These alone decide what it asks for.
pub fn claims_are_heard()
    ensures { ClaimsAreHeard }
{}

/// Where a maintainer is added or removed, no other name is more or less.
pub fn owners_change_by_one()
    ensures { OwnersChangeByOne }
{}

/// What npm reads of a package is the compact JSON of its packument, in front of whose members are
/// the revision and the maintainers.
pub fn fronts_are_json()
    ensures { FrontsAreJson }
{}

/// What npm is shown of a package is of the present revision, and asks for nothing where it comes back
/// as it is. Of the packument this takes JSON with each key once and without other numbers than
/// integers of 64 bits, as it is stored, and with messages that are texts.
pub fn what_is_shown_is_there()
    ensures { ShownIsThere }
{}
